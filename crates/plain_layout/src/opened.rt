//! Opening a file: its table, and whether that keeps the rules.
ghost use Rattle.std.specs.Prelude.{◌≡◌, ◌≤◌, ◌<◌, ◌^◌, [], None, Ok, Err, IfOk, IfErr, IsTrue, length};
ghost use Rattle.disk_face.specs.Frames.{Unchanged};
ghost use Rattle.plain_layout.specs.{Plain.{placed}, Opened.{IsOpenedFrom, IsReadFrom, RefusesToOpen, table_seen}, Refusals.{RefusesBy, behind}};
ghost use Rattle.table_rules.specs.{Opening.{placed_table}, Rules.{IsValid}};
ghost use Rattle.slot_codec.specs.{Choice.{chosen, records_of, slot_in_use, table_of}, Spelling.{cap, head_len}, Reading.{is_version}, Readable.{IsSuperBlock}};
ghost use Rattle.slot_pair.specs.Finding.{HasDiskCause, chosen_of, in_use_of};

use crate::Table;
use crate::record_list::add_records;
use disk_face::{Disk, length_of, read};
use slot_codec::{HEADER_LEN, Header, Record, head_len, record_len};
use slot_pair::{Found, SlotFault, choose, read_chosen_header, slot_at};
use std::alloc::Global;

/// A file that stands for a map and a book.
#[derive(Drop)]
pub struct Opened {
    pub found: Found,
    pub table: Table,
}

/// Why a file stands for no map: what shows it first in finding its table, or the number of the
/// first rule that its table breaks and the least place at which it does.
#[derive(Clone, Copy, Debug, PartialEq, Eq)]
pub enum Refusal {
    Slot(SlotFault),
    Rule(u8, u64),
    NoMemory,
}

/// Opens a file whose objects have at most `classes` classes and at most `size_max` bytes. The
/// refusal is the first that applies.
pub fn open<D: Disk>(
    alloc: Global,
    disk: &mut D,
    classes: u8,
    size_max: u64,
) -> Result<Opened, Refusal>
    requires ready { IsTrue (D.state disk.old).is_ready }
    requires tells { IsTrue (D.state disk.old).tells }
    ensures slot { IfOk result (λ o. slot_in_use (D.state disk.old).file ≡ Ok (in_use_of o.found)) }
    ensures placed { IfOk result (λ o. placed o.table
        ≡ placed_table classes size_max (D.state disk.old).file (table_seen o None)) }
    ensures valid { IfOk result (λ o. IsValid (placed o.table)) }
    ensures opens { IfOk result (IsOpenedFrom classes size_max (D.state disk.old).file) }
    ensures divisor { IfOk result (λ o. (2 ≤ o.table.k) × (o.table.k ≤ 64)) }
    ensures refused { IfErr result (RefusesToOpen classes size_max (D.state disk.old).file) }
    ensures cause { HasDiskCause (Refusal.Slot SlotFault.Disk) (D.state disk.old).faults
        (D.state disk.new).faults result }
    ensures frame { Unchanged (D.state disk.old) (D.state disk.new) }
{
    let opened = read_table(alloc, disk, classes, size_max)?;
    match opened.table.first_broken() {
        Some((number, at)) => Err(Refusal::Rule(number, at)),
        None => Ok(opened),
    }
}

/// The table of a file, whose rules aren't tried.
fn read_table<D: Disk>(
    alloc: Global,
    disk: &mut D,
    classes: u8,
    size_max: u64,
) -> Result<Opened, Refusal>
    requires ready { IsTrue (D.state disk.old).is_ready }
    requires tells { IsTrue (D.state disk.old).tells }
    ensures slot { IfOk result (λ o. slot_in_use (D.state disk.old).file ≡ Ok (in_use_of o.found)) }
    ensures read { IfOk result (IsReadFrom (D.state disk.old).file) }
    ensures placed { IfOk result (λ o. placed o.table
        ≡ placed_table classes size_max (D.state disk.old).file (table_seen o None)) }
    ensures divisor { IfOk result (λ o. (2 ≤ o.table.k) × (o.table.k ≤ 64)) }
    ensures refused { IfErr result (RefusesBy (table_of (D.state disk.old).file)) }
    ensures cause { HasDiskCause (Refusal.Slot SlotFault.Disk) (D.state disk.old).faults
        (D.state disk.new).faults result }
    ensures frame { Unchanged (D.state disk.old) (D.state disk.new) }
{
    let found = match choose(disk) {
        Ok(found) => found,
        Err(fault) => return Err(Refusal::Slot(fault)),
    };
    let header = match read_chosen_header(disk, &found) {
        Ok(header) => header,
        Err(fault) => return Err(Refusal::Slot(fault)),
    };
    let Ok(length) = length_of(disk) else {
        return Err(Refusal::Slot(SlotFault::Disk));
    };
    let records = records_of(alloc, disk, &found, &header)?;
    let table = Table {
        classes,
        size_max,
        k: found.block.k,
        data_len: length - head_len(found.block.names),
        header,
        records,
    };
    Ok(Opened { found, table })
}

/// The records of the slot in use, without their digests.
fn records_of<D: Disk>(
    alloc: Global,
    disk: &mut D,
    found: &Found,
    header: &Header,
) -> Result<Vec<Record>, Refusal>
    requires ready { IsTrue (D.state disk.old).is_ready }
    requires tells { IsTrue (D.state disk.old).tells }
    requires block { IsSuperBlock found.now.block }
    requires slot { found.now.slot ≤ 1 }
    requires version { IsTrue (is_version header.now.version) }
    requires count { header.now.count ≤ cap found.now.block.names header.now.version }
    requires long { head_len found.now.block.names ≤ length (D.state disk.old).file }
    ensures read { IfOk result (λ rs. behind []
        (records_of (D.state disk.old).file (chosen_of found.now header.now)) ≡ Ok rs.items) }
    ensures refused { IfErr result (RefusesBy
        (records_of (D.state disk.old).file (chosen_of found.now header.now))) }
    ensures cause { HasDiskCause (Refusal.Slot SlotFault.Disk) (D.state disk.old).faults
        (D.state disk.new).faults result }
    ensures frame { Unchanged (D.state disk.old) (D.state disk.new) }
{
    let at = slot_at(found.block.names, found.slot) + HEADER_LEN as u64;
    let len = record_len(header.version);
    let Ok(mut text) = vec![in alloc; 0u8; len * header.count as usize] else {
        return Err(Refusal::NoMemory);
    };
    if read(disk, at, &mut text).is_err() {
        return Err(Refusal::Slot(SlotFault::Disk));
    }
    let mut records = Vec::new(alloc);
    add_records(
        &text,
        header.version,
        len,
        header.count,
        at,
        &None,
        &mut records,
    )?;
    Ok(records)
}
