//! A file of many objects of 64 bytes, one behind another, whose names come in another order.
ghost use Rattle.std.specs.Prelude.{◌≤◌, IfOk, IsTrue, IsFalse};
ghost use Rattle.slot_codec.specs.Reading.{all_in_range};

use crate::numbered::scrambled_name;
use disk_face::Disk;
use extent_table::{Spot, Table, a_table_can_be_saved};
use slot_codec::{CodecFault, HEADER_LEN, Header, cap, read_header};
use slot_pair::SlotPair;
use std::alloc::Global;
use std::test::Fail;

/// The divisor: a buffer has a ninth of what its payload segment has.
const DIVISOR: u64 = 9;

/// Bytes of each object.
const OBJECT: u64 = 64;

/// Where a header has the capacity of the class of these objects, and its bytes there.
const CAPACITY: usize = 88;

/// Formats an empty file, and saves the table of `names` objects, whose bytes are 0.
pub fn written<D: Disk>(rt: &HostRuntime, disk: &mut D, names: u64) -> Result<(), Fail>
    requires ready { IsTrue (D.state disk.old).is_ready }
    requires untold { IsFalse (D.state disk.old).tells }
    requires low { 16 ≤ names }
    requires high { names ≤ 65536 }
    ensures ready { IsTrue (D.state disk.new).is_ready }
    ensures untold { IsFalse (D.state disk.new).tells }
{
    let payload = names * OBJECT;
    formatted(disk, names, payload + payload / DIVISOR)?;
    let header = header_of(payload, names)?;
    let table = table_of(rt.alloc(), names)?;
    saved(disk, &header, &table)
}

/// Formats an empty file, and gives it more bytes.
fn formatted<D: Disk>(disk: &mut D, names: u64, more: u64) -> Result<(), Fail>
    requires ready { IsTrue (D.state disk.old).is_ready }
    requires untold { IsFalse (D.state disk.old).tells }
    requires low { 16 ≤ names }
    requires high { names ≤ 65536 }
    ensures ready { IsTrue (D.state disk.new).is_ready }
    ensures untold { IsFalse (D.state disk.new).tells }
{
    SlotPair::format(disk, DIVISOR, names)?;
    let length = disk.len()?;
    disk.set_len(length.saturating_add(more))?;
    Ok(())
}

/// The header of a first checkpoint whose one class has so many bytes.
fn header_of(payload: u64, names: u64) -> Result<Header, CodecFault>
    ensures { IfOk result (λ header. IsTrue (all_in_range header)) }
{
    let mut bytes = [0u8; HEADER_LEN];
    bytes[0] = 1;
    bytes[8] = 1;
    bytes[CAPACITY..CAPACITY + 8].copy_from_slice(&payload.to_le_bytes());
    read_header(&bytes, names)
}

/// Saves a table.
fn saved<D: Disk>(disk: &mut D, header: &Header, table: &Table) -> Result<(), Fail>
    requires ready { IsTrue (D.state disk.old).is_ready }
    requires untold { IsFalse (D.state disk.old).tells }
    requires ranges { IsTrue (all_in_range header.now) }
    ensures ready { IsTrue (D.state disk.new).is_ready }
    ensures untold { IsFalse (D.state disk.new).tells }
{
    let found = SlotPair::find(disk)?;
    let mut pair = SlotPair::of(&found);
    let mut buf = [0; 57_344];
    a_table_can_be_saved();
    if header.version != 1
        || cap(found.block.names, 1) < table.count()
        || 1 << 61 < pair.sequence()
    {
        return Err("room for the names")?;
    }
    pair.save(disk, header, table, &mut buf)?;
    Ok(())
}

/// The table of the objects.
fn table_of(alloc: Global, names: u64) -> Result<Table, Fail>
    requires high { names ≤ 65536 }
{
    let mut table = Table::with_room(alloc, names)?;
    for n in 0..names {
        if let Some(name) = scrambled_name(alloc, 'o', n, names)? {
            let spot = Spot {
                place: n * OBJECT,
                size: OBJECT,
            };
            if table.room() {
                table.set(&name, spot, [0; 32]);
            }
        }
    }
    Ok(table)
}
