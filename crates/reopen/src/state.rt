//! The state of a file, and reading it.
ghost use Rattle.std.specs.Prelude.{◌≡◌, ◌≤◌, ◌<◌, ◌^◌, false, Ok, IfOk, IfErr, IsTrue, vec_capacity};
ghost use Rattle.std.specs.FinMap as fin;
ghost use Rattle.disk_face.specs.Frames.{Unchanged};
ghost use Rattle.slot_codec.specs.{Choice.{slot_in_use}, Reading.{all_in_range, is_logged}};
ghost use Rattle.slot_pair.specs.Finding.{HasDiskCause, IsFoundIn};
ghost use Rattle.table_rules.specs.Rules.{FirstBroken};
ghost use Rattle.placement_model.specs.Laid.{laid};
ghost use Rattle.reopen.specs.{Loads.{IsLoadedFrom, IsReadAs, IsReadIn, IsStateOf, KeepsLoaded, KeepsLoadedIn, KeepsRead, KeepsState, kind_of, loaded_of, unboxed}, Refusals.{BreaksLaid, RefusesToOpen, RefusesToRead}, Tables.{IsCheckedLayout, IsSlotFound}};

use crate::OpenFault;
use crate::boxed::boxed;
use crate::table::{TableRead, read_table};
use disk_face::Disk;
use extent_table::Table;
use segment_layout::Layout;
use size_class::SIZE_MAX;
use slot_codec::{Header, Kind, SuperBlock};
use slot_pair::{Found, SlotFault, SlotPair, choose, choose_by_mark};
use std::alloc::Global;
use table_check::{TableFault, check_moving, check_settled};

/// What a file holds beside its objects: the superblock, the slot in use, its header, where the
/// objects stand, now and at the last checkpoint alike, and the layout of their segments. Places are
/// in bytes from 0 of the data part.
#[derive(Drop)]
pub struct Loaded<const C: usize> {
    pub block: SuperBlock,
    pub slots: SlotPair,
    pub header: Header,
    pub table: Table,
    pub layout: Layout<C>,
}

/// What a file holds, as `Loaded` has it, with the header and the layout in memory of their own: they have
/// some 8 kB each.
#[derive(Drop)]
pub struct BoxedLoaded<const C: usize> {
    pub block: SuperBlock,
    pub slots: SlotPair,
    pub header: Box<Header>,
    pub table: Table,
    pub layout: Box<Layout<C>>,
}

/// Whether a file is as it is between requests, or a flush was interrupted.
#[derive(Drop)]
pub enum State<const C: usize> {
    Still(Loaded<C>),
    Moving(Loaded<C>),
}

/// Reads a file's table and checks its rules. The refusal is the first that applies in the order of
/// opening: the superblock, the slots, the header, the records one after another, then the rules of
/// the table's kind. Nothing is changed. Records are read up to 512 at a time. Memory is taken before
/// they are read, for the table, for one read, and for an order of the records; and for the header and
/// the layout, while these are found.
pub fn read_state<D: Disk, const C: usize>(
    alloc: Global,
    disk: &mut D,
) -> Result<State<C>, OpenFault>
    requires ready { IsTrue (D.state disk.old).is_ready }
    requires fits { C ≤ 32 }
    requires wide { SIZE_MAX < 2 ^ C }
    ensures opened { IsTrue (D.state disk.old).tells → IfOk result (IsStateOf (D.state disk.old).file) }
    ensures refused { IsTrue (D.state disk.old).tells
        → IfErr result (RefusesToOpen C (D.state disk.old).file) }
    ensures state { IfOk result KeepsState }
    ensures cause { HasDiskCause (OpenFault.Slot SlotFault.Disk) (D.state disk.old).faults
        (D.state disk.new).faults result }
    ensures frame { Unchanged (D.state disk.old) (D.state disk.new) }
{
    match load_state(alloc, disk) {
        Ok(found) => Ok(state_of(found)),
        Err(fault) => Err(fault),
    }
}

/// Reads a file's table and checks its rules, as `read_state` does, and answers it in little of the stack.
/// Whether a flush was interrupted is the kind of the header.
pub fn load_state<D: Disk, const C: usize>(
    alloc: Global,
    disk: &mut D,
) -> Result<BoxedLoaded<C>, OpenFault>
    requires ready { IsTrue (D.state disk.old).is_ready }
    requires fits { C ≤ 32 }
    requires wide { SIZE_MAX < 2 ^ C }
    ensures opened { IsTrue (D.state disk.old).tells
        → IfOk result (λ found. IsLoadedFrom (D.state disk.old).file (unboxed found)) }
    ensures refused { IsTrue (D.state disk.old).tells
        → IfErr result (RefusesToOpen C (D.state disk.old).file) }
    ensures loaded { IfOk result (λ found. KeepsLoaded (unboxed found)) }
    ensures cause { HasDiskCause (OpenFault.Slot SlotFault.Disk) (D.state disk.old).faults
        (D.state disk.new).faults result }
    ensures frame { Unchanged (D.state disk.old) (D.state disk.new) }
{
    match choose(disk) {
        Ok(found) => load_slot(alloc, disk, found, false),
        Err(fault) => Err(OpenFault::Slot(fault)),
    }
}

/// Reads a file's table as `load_state` does, also that of a file whose slots have logs, which its mark says;
/// there the table is that behind the log of the slot in use. Faults of the log come behind those of the
/// records.
pub fn load_by_mark<D: Disk, const C: usize>(
    alloc: Global,
    disk: &mut D,
) -> Result<BoxedLoaded<C>, OpenFault>
    requires ready { IsTrue (D.state disk.old).is_ready }
    requires fits { C ≤ 32 }
    requires wide { SIZE_MAX < 2 ^ C }
    ensures opened { IsTrue (D.state disk.old).tells
        → IfOk result (λ found. IsReadAs (D.state disk.old).file (unboxed found)) }
    ensures refused { IsTrue (D.state disk.old).tells → IfErr result
        (RefusesToRead (is_logged (D.state disk.old).file) C (D.state disk.old).file) }
    ensures loaded { IfOk result (λ found. KeepsRead (unboxed found)) }
    ensures cause { HasDiskCause (OpenFault.Slot SlotFault.Disk) (D.state disk.old).faults
        (D.state disk.new).faults result }
    ensures frame { Unchanged (D.state disk.old) (D.state disk.new) }
{
    match choose_by_mark(disk) {
        Ok((found, logged)) => load_slot(alloc, disk, found, logged),
        Err(fault) => Err(OpenFault::Slot(fault)),
    }
}

/// Reads the table of a slot in use that was found, and checks its rules.
fn load_slot<D: Disk, const C: usize>(
    alloc: Global,
    disk: &mut D,
    found: Found,
    logged: bool,
) -> Result<BoxedLoaded<C>, OpenFault>
    requires ready { IsTrue (D.state disk.old).is_ready }
    requires fits { C ≤ 32 }
    requires wide { SIZE_MAX < 2 ^ C }
    requires slot { IsSlotFound logged found }
    requires there { IsTrue (D.state disk.old).tells
        → IsFoundIn (D.state disk.old).file logged (found, logged) }
    ensures in_use { IsTrue (D.state disk.old).tells → logged ≡ false
        → IfOk result (λ made. slot_in_use (D.state disk.old).file ≡ Ok made.slots) }
    ensures opened { IsTrue (D.state disk.old).tells
        → IfOk result (λ made. IsReadIn logged (D.state disk.old).file (unboxed made)) }
    ensures refused { IsTrue (D.state disk.old).tells
        → IfErr result (RefusesToRead logged C (D.state disk.old).file) }
    ensures loaded { IfOk result (λ made. KeepsLoadedIn logged (unboxed made)) }
    ensures cause { HasDiskCause (OpenFault.Slot SlotFault.Disk) (D.state disk.old).faults
        (D.state disk.new).faults result }
    ensures frame { Unchanged (D.state disk.old) (D.state disk.new) }
{
    let TableRead {
        found,
        header,
        table,
        mut order,
        data_len,
    } = read_table(alloc, disk, found, logged)?;
    match layout_of(alloc, &table, &*header, found.block.k, data_len, &mut order) {
        Ok(layout) => Ok(BoxedLoaded {
            block: found.block,
            slots: SlotPair::of(&found),
            header,
            table,
            layout,
        }),
        Err(fault) => Err(fault),
    }
}

/// The layout of a table that keeps the rules of its header's kind. What a check of the rules has on the
/// stack stands there while they are tried, and not while the table is read.
#[inline(never)]
fn layout_of<const C: usize>(
    alloc: Global,
    table: &Table,
    header: &Header,
    k: u64,
    data_len: u64,
    order: &mut Vec<u32>,
) -> Result<Box<Layout<C>>, OpenFault>
    requires fits { C ≤ 32 }
    requires wide { SIZE_MAX < 2 ^ C }
    requires low { 2 ≤ k }
    requires high { k ≤ 64 }
    requires ranges { IsTrue (all_in_range header.now) }
    requires room { fin.len table.now.now ≤ vec_capacity order.old }
    ensures layout { IfOk result
        (λ layout. IsCheckedLayout k data_len header.now table.now.now layout.value) }
    ensures broken { IfErr result (BreaksLaid C k data_len header.now table.now.now) }
{
    let checked = checked_layout(table, header, k, data_len, order);
    match &checked {
        Ok(layout) => boxed(alloc, layout),
        Err(fault) => Err(OpenFault::Table(*fault)),
    }
}

/// The layout of a table that keeps the rules of its header's kind, or the first rule that it breaks.
fn checked_layout<const C: usize>(
    table: &Table,
    header: &Header,
    k: u64,
    data_len: u64,
    order: &mut Vec<u32>,
) -> Result<Layout<C>, TableFault>
    requires fits { C ≤ 32 }
    requires wide { SIZE_MAX < 2 ^ C }
    requires low { 2 ≤ k }
    requires high { k ≤ 64 }
    requires ranges { IsTrue (all_in_range header.now) }
    requires room { fin.len table.now.now ≤ vec_capacity order.old }
    ensures layout { IfOk result (IsCheckedLayout k data_len header.now table.now.now) }
    ensures broken { IfErr result (λ fault. FirstBroken
        (laid C SIZE_MAX k data_len header.now table.now.now) fault.rule fault.at) }
{
    match header.kind {
        Kind::Settled => check_settled(table, header, k, data_len, order),
        Kind::Moving => check_moving(table, header, k, data_len, order),
    }
}

/// The state of a file whose table was found there.
fn state_of<const C: usize>(found: BoxedLoaded<C>) -> State<C>
    ensures kind { kind_of result ≡ found.entry.header.value.kind }
    ensures same { loaded_of result ≡ unboxed found.entry }
{
    let BoxedLoaded {
        block,
        slots,
        header,
        table,
        layout,
    } = found;
    let kind = header.kind;
    let loaded = Loaded {
        block,
        slots,
        header: Box::into_inner(header),
        table,
        layout: Box::into_inner(layout),
    };
    match kind {
        Kind::Settled => State::Still(loaded),
        Kind::Moving => State::Moving(loaded),
    }
}
