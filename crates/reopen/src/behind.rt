//! The log behind the records of a slot in use.
ghost use Rattle.std.specs.Prelude.{◌≡◌, ◌≢◌, ℕ, ◌+◌, ◌*◌, ◌^◌, ◌<◌, ◌≤◌, List, true, Ok, IfErr, OnOk, IsTrue, length};
ghost use Rattle.byte_ranges.specs.Ranges.{bytes_at};
ghost use Rattle.std.specs.FinMap as fin;
ghost use Rattle.disk_face.specs.Frames.{Unchanged};
ghost use Rattle.slot_codec.specs.{Items.{read_items}, Logs.{behind_log, gap_step}};
ghost use Rattle.slot_pair.specs.Finding.{HasDiskCause, Refuses, chosen_of};
ghost use Rattle.extent_table.specs.Extents.{IsTable, rolled};
ghost use Rattle.reopen.specs.{Logs.{logged_of}, Tables.{IsChosenIn, IsFound}};

use crate::log::read_log;
use disk_face::{Disk, read};
use extent_table::BulkLoad;
use slot_codec::{CodecFault, DIGEST_LEN, HEADER_LEN, Header, RECORD_LEN, cap, up};
use slot_pair::{Found, SlotFault, log_top, slot_at};

/// The length of a record of version 3.
const LONG_LEN: u64 = (RECORD_LEN + DIGEST_LEN) as u64;

/// Takes the log behind the records of the slot in use, where its first gate stands below its top: the bytes
/// between the records and that gate, which must be zeros, and then the entries. A header and a table in the
/// making are those of the records, and come to be those behind the log.
pub(crate) fn take_log<D: Disk>(
    disk: &mut D,
    found: &Found,
    header: &mut Header,
    load: &mut BulkLoad,
    buf: &mut [u8],
) -> Result<(), SlotFault>
    requires ready { IsTrue (D.state disk.old).is_ready }
    requires found { IsFound true found.now header.old }
    requires chosen { IsTrue (D.state disk.old).tells
        → IsChosenIn true (D.state disk.old).file found.now header.old }
    requires room { 112 * 512 ≤ length buf.old }
    requires count { fin.len load.old.now ≡ header.old.count }
    requires names { load.old.names ≡ found.now.block.names }
    ensures read { IsTrue (D.state disk.old).tells → OnOk result (behind_log (D.state disk.old).file
        (chosen_of found.now header.old) (rolled load.old.now load.old.digests)
        ≡ Ok (logged_of header.new load.new)) }
    ensures refused { IsTrue (D.state disk.old).tells → IfErr result (Refuses (behind_log
        (D.state disk.old).file (chosen_of found.now header.old) (rolled load.old.now load.old.digests))) }
    ensures found { OnOk result (IsFound true found.now header.new) }
    ensures table { OnOk result (IsTable load.new) }
    ensures count { OnOk result (fin.len load.new.now ≡ header.new.count) }
    ensures names { OnOk result (load.new.names ≡ load.old.names) }
    ensures cause { HasDiskCause SlotFault.Disk (D.state disk.old).faults (D.state disk.new).faults result }
    ensures frame { Unchanged (D.state disk.old) (D.state disk.new) }
{
    let names = found.block.names;
    let end = slot_at(names, found.slot) + HEADER_LEN as u64 + LONG_LEN * load.count();
    let gate = up(end);
    let top = log_top(names, found.slot);
    if top <= gate {
        return Ok(());
    }
    take_gap(disk, end, gate - end, buf)?;
    read_log(disk, gate, top, cap(names, 3), header, load, buf)?;
    Ok(())
}

/// Reads bytes in front of a gate, which must be zeros.
fn take_gap<D: Disk>(disk: &mut D, at: u64, len: u64, buf: &mut [u8]) -> Result<(), SlotFault>
    requires ready { IsTrue (D.state disk.old).is_ready }
    requires room { len ≤ length buf.old }
    requires small { at + len < 2 ^ 63 }
    requires within { IsTrue (D.state disk.old).tells → at + len ≤ length (D.state disk.old).file }
    ensures read { IsTrue (D.state disk.old).tells
        → OnOk result (read_items gap_step 1 len (D.state disk.old).file at tt ≡ Ok tt) }
    ensures refused { IsTrue (D.state disk.old).tells
        → IfErr result (Refuses (read_items gap_step 1 len (D.state disk.old).file at tt)) }
    ensures cause { HasDiskCause SlotFault.Disk (D.state disk.old).faults (D.state disk.new).faults result }
    ensures frame { Unchanged (D.state disk.old) (D.state disk.new) }
    ensures same_room { length buf.new ≡ length buf.old }
{
    let gap = &mut buf[..len as usize];
    if read(disk, at, gap).is_err() {
        return Err(SlotFault::Disk);
    }
    are_clear(gap, at)
}

/// That the bytes are zeros which stand at a position.
fn are_clear(gap: &[u8], at: u64) -> Result<(), SlotFault>
    requires small { at + length gap.now < 2 ^ 63 }
    ensures read { (file : List ℕ) → bytes_at file at (length gap.now) ≡ gap.now
        → OnOk result (read_items gap_step 1 (length gap.now) file at tt ≡ Ok tt) }
    ensures refused { (file : List ℕ) → bytes_at file at (length gap.now) ≡ gap.now
        → IfErr result (Refuses (read_items gap_step 1 (length gap.now) file at tt)) }
    ensures only { IfErr result (λ why. why ≢ SlotFault.Disk) }
{
    'bytes: for i in 0..gap.len() {
        if gap[i] != 0 {
            return Err(SlotFault::Codec(CodecFault::Zeros, at + i as u64));
        }
    }
    Ok(())
}
