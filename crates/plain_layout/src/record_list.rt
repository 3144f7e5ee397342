//! The records of a table.
ghost use Rattle.std.specs.Prelude.{◌≡◌, ◌≢◌, ◌+◌, ◌*◌, ◌≤◌, ◌<◌, ◌^◌, Ok, IfOk, IfErr, IsTrue, OnOk, length};
ghost use Rattle.slot_codec.specs.{Choice.{plain, read_records}, Reading.{is_version}, Spelling.{record_len}};
ghost use Rattle.plain_layout.specs.Refusals.{RefusesBy, behind};

use crate::Refusal;
use slot_codec::{DIGEST_LEN, Name, Record, read_record_after};
use slot_pair::SlotFault;

/// Adds the records that a text of a version says which stands at a position, after a name, without
/// their digests. Each has `len` bytes.
pub fn add_records(
    text: &[u8],
    version: u8,
    len: usize,
    count: u64,
    at: u64,
    before: &Option<Name>,
    records: &mut Vec<Record>,
) -> Result<(), Refusal>
    requires version { IsTrue (is_version version) }
    requires len { len ≡ record_len version }
    requires long { len * count ≤ length text.now }
    requires small { at + len * count < 2 ^ 64 }
    ensures read { OnOk result (behind records.old.items (read_records version count text.now at before.now)
        ≡ Ok records.new.items) }
    ensures refused { IfErr result (RefusesBy (read_records version count text.now at before.now)) }
    ensures only { IfErr result (λ why. why ≢ Refusal.Slot SlotFault.Disk) }
{
    if count == 0 {
        return Ok(());
    }
    let record = match read_record_after(text, version, before.as_ref()) {
        Ok(record) => record,
        Err(fault) => return Err(Refusal::Slot(SlotFault::Codec(fault, at))),
    };
    let name = record.name.copied();
    if records.push(plain(record)).is_err() {
        return Err(Refusal::NoMemory);
    }
    add_records(
        &text[len..],
        version,
        len,
        count - 1,
        at + len as u64,
        &Some(name),
        records,
    )
}

/// A record without its digest.
fn plain(record: Record) -> Record
    ensures { result ≡ plain «record» }
{
    Record {
        name: record.name,
        place: record.place,
        size: record.size,
        digest: [0; DIGEST_LEN],
    }
}
