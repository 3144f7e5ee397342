//! Reading the table of a file, whose rules aren't tried.
ghost use Rattle.std.specs.Prelude.{◌≡◌, ◌*◌, ◌≤◌, false, Ok, IfOk, IfErr, IfSome, OnOk, IsTrue, length, vec_capacity, vec_len};
ghost use Rattle.std.specs.FinMap as fin;
ghost use Rattle.disk_face.specs.Frames.{Unchanged};
ghost use Rattle.slot_codec.specs.{Choice.{chosen_in, records_of}, Logs.{table_in}, Spelling.{head_len, record_len}};
ghost use Rattle.slot_pair.specs.Finding.{HasDiskCause, IsFoundIn, IsHeaderIn, Refuses, chosen_of};
ghost use Rattle.extent_table.specs.Extents as extents;
ghost use Rattle.extent_table.specs.Extents.{IsTable, with_now_kept};
ghost use Rattle.reopen.specs.{Records.{AreSet, spelling}, Refusals.{RefusesBy}, Tables.{IsChosenIn, IsFound, IsReadFrom, IsSlotFound, IsTableRead, table_there}};

use crate::OpenFault;
use crate::behind::take_log;
use crate::boxed::boxed;
use crate::records::{RECORDS_A_READ, set_all};
use disk_face::{Disk, length_of};
use extent_table::{BulkLoad, Table};
use slot_codec::{HEADER_LEN, Header, cap, head_len, record_len};
use slot_pair::{Found, SlotFault, read_header_in, slot_at};
use std::alloc::Global;

/// A table that was read: where it was found, with the sequence of its header; its header; where its
/// objects stand, now and at the last checkpoint alike; room to order its records; and the length of
/// the data part, in bytes.
#[derive(Drop)]
pub(crate) struct TableRead {
    pub found: Found,
    pub header: Box<Header>,
    pub table: Table,
    pub order: Vec<u32>,
    pub data_len: u64,
}

/// What a table is read into: a table in the making with no names yet, a buffer for one read, and
/// room to order the records.
#[derive(Drop)]
struct Room {
    load: BulkLoad,
    buf: Vec<u8>,
    order: Vec<u32>,
}

/// Reads the table of a slot in use that was found: its records, and where slots have logs what the entries of
/// its log make of them.
pub(crate) fn read_table<D: Disk>(
    alloc: Global,
    disk: &mut D,
    found: Found,
    logged: bool,
) -> Result<TableRead, OpenFault>
    requires ready { IsTrue (D.state disk.old).is_ready }
    requires slot { IsSlotFound logged found }
    requires there { IsTrue (D.state disk.old).tells
        → IsFoundIn (D.state disk.old).file logged (found, logged) }
    ensures read { IfOk result (IsTableRead logged) }
    ensures told { IsTrue (D.state disk.old).tells → IfOk result (IsReadFrom logged (D.state disk.old).file) }
    ensures refused { IsTrue (D.state disk.old).tells
        → IfErr result (RefusesBy (table_in logged (D.state disk.old).file)) }
    ensures cause { HasDiskCause (OpenFault.Slot SlotFault.Disk) (D.state disk.old).faults
        (D.state disk.new).faults result }
    ensures frame { Unchanged (D.state disk.old) (D.state disk.new) }
{
    let mut header = header_of(alloc, disk, &found, logged)?;
    let Some(mut room) = room_for(alloc, found.block.names, header.version) else {
        return Err(OpenFault::NoMemory);
    };
    let read = load_rows(
        disk,
        &found,
        &mut *header,
        &mut room.load,
        &mut room.buf,
        logged,
    );
    if let Err(fault) = read {
        return Err(OpenFault::Slot(fault));
    }
    let Ok(length) = length_of(disk) else {
        return Err(OpenFault::Slot(SlotFault::Disk));
    };
    let mut table = room.load.into_table();
    table.keep();
    table.narrow(cap(found.block.names, header.version));
    let sequence = header.sequence;
    Ok(TableRead {
        found: Found { sequence, ..found },
        header,
        table,
        order: room.order,
        data_len: length.saturating_sub(head_len(found.block.names)),
    })
}

/// The header of the slot in use that was found. On the stack it stands while it is read, and no longer.
#[inline(never)]
fn header_of<D: Disk>(
    alloc: Global,
    disk: &mut D,
    found: &Found,
    logged: bool,
) -> Result<Box<Header>, OpenFault>
    requires ready { IsTrue (D.state disk.old).is_ready }
    requires slot { IsSlotFound logged found.now }
    requires there { IsTrue (D.state disk.old).tells
        → IsFoundIn (D.state disk.old).file logged (found.now, logged) }
    ensures found { IfOk result (λ header. IsFound logged found.now header.value) }
    ensures read { IsTrue (D.state disk.old).tells
        → IfOk result (λ header. IsHeaderIn logged (D.state disk.old).file found.now header.value) }
    ensures refused { IsTrue (D.state disk.old).tells
        → IfErr result (RefusesBy (chosen_in logged (D.state disk.old).file)) }
    ensures cause { HasDiskCause (OpenFault.Slot SlotFault.Disk) (D.state disk.old).faults
        (D.state disk.new).faults result }
    ensures frame { Unchanged (D.state disk.old) (D.state disk.new) }
{
    let read = read_header_in(disk, found, logged);
    match &read {
        Ok(header) => boxed(alloc, header),
        Err(fault) => Err(OpenFault::Slot(*fault)),
    }
}

/// Sets the records of the slot in use in a table that has no names yet, and where slots have logs takes the log
/// behind them: a header comes to be that behind the log.
fn load_rows<D: Disk>(
    disk: &mut D,
    found: &Found,
    header: &mut Header,
    load: &mut BulkLoad,
    buf: &mut [u8],
    logged: bool,
) -> Result<(), SlotFault>
    requires ready { IsTrue (D.state disk.old).is_ready }
    requires found { IsFound logged found.now header.old }
    requires chosen { IsTrue (D.state disk.old).tells
        → IsChosenIn logged (D.state disk.old).file found.now header.old }
    requires room { record_len header.old.version * 512 ≤ length buf.old }
    requires empty { load.old.now ≡ fin.empty }
    requires names { load.old.names ≡ found.now.block.names }
    ensures read { IsTrue (D.state disk.old).tells → OnOk result (IsTable (with_now_kept load.new)
        → table_in logged (D.state disk.old).file ≡ Ok (table_there found.now header.new load.new)) }
    ensures refused { IsTrue (D.state disk.old).tells
        → IfErr result (Refuses (table_in logged (D.state disk.old).file)) }
    ensures found { OnOk result (IsFound logged found.now header.new) }
    ensures plain { logged ≡ false → header.new ≡ header.old }
    ensures count { OnOk result (fin.len load.new.now ≡ header.new.count) }
    ensures names { OnOk result (load.new.names ≡ load.old.names) }
    ensures cause { HasDiskCause SlotFault.Disk (D.state disk.old).faults (D.state disk.new).faults result }
    ensures frame { Unchanged (D.state disk.old) (D.state disk.new) }
{
    load_records(disk, found, header, load, buf, logged)?;
    if logged {
        take_log(disk, found, header, load, buf)?;
    }
    Ok(())
}

/// Sets the records of the slot in use in a table that has no names yet.
fn load_records<D: Disk>(
    disk: &mut D,
    found: &Found,
    header: &Header,
    load: &mut BulkLoad,
    buf: &mut [u8],
    logged: bool,
) -> Result<(), SlotFault>
    requires ready { IsTrue (D.state disk.old).is_ready }
    requires found { IsFound logged found.now header.now }
    requires long { IsTrue (D.state disk.old).tells
        → head_len found.now.block.names ≤ length (D.state disk.old).file }
    requires room { record_len header.now.version * 512 ≤ length buf.old }
    requires empty { load.old.now ≡ fin.empty }
    requires names { load.old.names ≡ found.now.block.names }
    ensures records { IsTrue (D.state disk.old).tells → OnOk result (AreSet
        (records_of (D.state disk.old).file (chosen_of found.now header.now)) load.new) }
    ensures refused { IsTrue (D.state disk.old).tells
        → IfErr result (Refuses (records_of (D.state disk.old).file (chosen_of found.now header.now))) }
    ensures count { OnOk result (fin.len load.new.now ≡ header.now.count) }
    ensures names { OnOk result (load.new.names ≡ load.old.names) }
    ensures cause { HasDiskCause SlotFault.Disk (D.state disk.old).faults (D.state disk.new).faults result }
    ensures frame { Unchanged (D.state disk.old) (D.state disk.new) }
    ensures same_room { length buf.new ≡ length buf.old }
{
    let at = slot_at(found.block.names, found.slot) + HEADER_LEN as u64;
    set_all(disk, at, spelling(header.version), header.count, load, buf)
}

/// The version as whose records those of a version are read: those of version 3 are spelled as those of
/// version 2.
fn spelling(version: u8) -> u8
    ensures { result ≡ spelling version }
{
    if version == 3 { 2 } else { version }
}

/// The memory that opening takes, for `names` names and a table of a version.
fn room_for(alloc: Global, names: u64, version: u8) -> Option<Room>
    requires { names ≤ 65536 }
    ensures load { IfSome result (λ room. room.load ≡ extents.empty_extents names) }
    ensures buf { IfSome result (λ room. vec_len room.buf ≡ record_len version * 512) }
    ensures order { IfSome result (λ room. names ≤ vec_capacity room.order) }
{
    let Ok(load) = BulkLoad::with_room(alloc, names) else {
        return None;
    };
    let Ok(buf) = vec![in alloc; 0u8; record_len(version) * RECORDS_A_READ as usize] else {
        return None;
    };
    let Ok(order) = Vec::with_capacity(alloc, names as usize) else {
        return None;
    };
    Some(Room { load, buf, order })
}
