//! Opening a file: a store over what its last checkpoint has.
ghost use Rattle.std.specs.Prelude.{◌≡◌, ◌<◌, ◌≤◌, ◌==◌, ◌^◌, false, [], length, vec_len, IfOk, IsTrue};
ghost use Rattle.disk_face.specs.{Counts.{HasCause}, Frames.{Unchanged}, Writes.{KeepsDisk}};
ghost use Rattle.slot_codec.specs.Readable.{IsSuperBlock};
ghost use Rattle.slot_codec.specs.declared.codec.Kind.TheVariants as kind;
ghost use Rattle.flush_run.specs.{Parts.{parts_of}, Shelved.{items_now, phase_now}};
ghost use Rattle.flush_plan.specs.Packs.{KeepsPacking};
ghost use Rattle.reopen.specs.Loads.{IsLoadedFrom, KeepsLoaded, unboxed};
ghost use Rattle.store_model.specs.{Opened.{IsCut, IsOpening}, Resuming.{PacksAgain, StartsAgain}};

use crate::Store;
use crate::laws::store_in;
use crate::memory::{Memory, boxed, no_bytes, store_with, take_memory};
use disk_face::{Disk, DiskFault, length_of};
use flush_plan::{Packing, numbers_again};
use flush_run::{Halted, Hands, TableShelf, resume};
use held_guard::Guard;
use logged_pair::Slots;
use reopen::{BoxedLoaded, OpenFault, load_state};
use segment_layout::Layout;
use size_class::SIZE_MAX;
use slot_codec::{Kind, NoMemory, head_len};
use slot_pair::SlotFault;
use std::alloc::Global;

impl<const C: usize> Store<C> {
    /// Opens a file: the store has the map that the file opens to, as it stands and as its last
    /// checkpoint. It saves tables of the version of the one it found. A file that is longer than its layout
    /// is cut, and a flush that was interrupted goes on to its end, in which at most one save comes before
    /// each move, and one at the end. All memory is taken before anything is changed.
    pub fn open<D: Disk>(alloc: Global, disk: &mut D) -> Result<Store<C>, OpenFault>
        requires ready { IsTrue (D.state disk.old).is_ready }
        requires fits { C ≤ 32 }
        requires wide { SIZE_MAX < 2 ^ C }
        ensures { IsOpening C (D.state disk.old) (D.state disk.new) result }
    {
        let found = load_state(alloc, disk)?;
        match found.header.kind {
            Kind::Settled => open_still(alloc, disk, found),
            Kind::Moving => open_moving(alloc, disk, found),
        }
    }
}

/// The store of a settled table, whose file ends with its layout then.
fn open_still<D: Disk, const C: usize>(
    alloc: Global,
    disk: &mut D,
    found: BoxedLoaded<C>,
) -> Result<Store<C>, OpenFault>
    requires ready { IsTrue (D.state disk.old).is_ready }
    requires fits { C ≤ 32 }
    requires wide { SIZE_MAX < 2 ^ C }
    requires loads { KeepsLoaded (unboxed found) }
    requires still { found.header.value.kind ≡ kind.Settled }
    requires from { IsTrue (D.state disk.old).tells → IsLoadedFrom (D.state disk.old).file (unboxed found) }
    ensures { IsOpening C (D.state disk.old) (D.state disk.new) result }
{
    let BoxedLoaded {
        block,
        slots,
        header,
        table,
        layout,
    } = found;
    let end = layout.end();
    let version = header.version;
    drop(header);
    let Ok(store) = store_in(alloc, block, slots, table, layout, version) else {
        return Err(OpenFault::NoMemory);
    };
    match cut_to(disk, head_len(block.names) + end) {
        Ok(()) => Ok(store),
        Err(DiskFault) => Err(OpenFault::Slot(SlotFault::Disk)),
    }
}

/// Cuts a file to a length where it is longer, and syncs it then.
fn cut_to<D: Disk>(disk: &mut D, len: u64) -> Result<(), DiskFault>
    requires ready { IsTrue (D.state disk.old).is_ready }
    ensures short { IsTrue (D.state disk.old).tells → length (D.state disk.old).file ≤ len
        → Unchanged (D.state disk.old) (D.state disk.new) }
    ensures cut { IsTrue (D.state disk.old).tells → len < length (D.state disk.old).file
        → IsCut len (D.state disk.old) (D.state disk.new) result }
    ensures frame { KeepsDisk (D.state disk.old) (D.state disk.new) }
    ensures cause { HasCause (D.state disk.old).faults (D.state disk.new).faults result }
{
    if length_of(disk)? <= len {
        return Ok(());
    }
    disk.set_len(len)?;
    disk.sync()
}

/// The store of a moving table, whose flush goes on to its end.
fn open_moving<D: Disk, const C: usize>(
    alloc: Global,
    disk: &mut D,
    found: BoxedLoaded<C>,
) -> Result<Store<C>, OpenFault>
    requires ready { IsTrue (D.state disk.old).is_ready }
    requires fits { C ≤ 32 }
    requires wide { SIZE_MAX < 2 ^ C }
    requires loads { KeepsLoaded (unboxed found) }
    requires moving { found.header.value.kind ≡ kind.Moving }
    requires from { IsTrue (D.state disk.old).tells → IsLoadedFrom (D.state disk.old).file (unboxed found) }
    ensures { IsOpening C (D.state disk.old) (D.state disk.new) result }
{
    let Ok(memory) = take_memory(alloc, found.block.names) else {
        return Err(OpenFault::NoMemory);
    };
    go_on(alloc, disk, found, memory)
}

/// Goes on with the flush of a moving table.
fn go_on<D: Disk, const C: usize>(
    alloc: Global,
    disk: &mut D,
    found: BoxedLoaded<C>,
    memory: Memory,
) -> Result<Store<C>, OpenFault>
    requires ready { IsTrue (D.state disk.old).is_ready }
    requires fits { C ≤ 32 }
    requires wide { SIZE_MAX < 2 ^ C }
    requires loads { KeepsLoaded (unboxed found) }
    requires moving { found.header.value.kind ≡ kind.Moving }
    requires from { IsTrue (D.state disk.old).tells → IsLoadedFrom (D.state disk.old).file (unboxed found) }
    requires none { memory.guard.spans ≡ [] }
    requires guard_room { memory.guard.room ≡ found.block.names }
    requires buffer { vec_len memory.buf ≡ 65536 }
    ensures { IsOpening C (D.state disk.old) (D.state disk.new) result }
{
    let Memory { guard, buf } = memory;
    let phase = phase_again(&found);
    let Ok(made) = hands_of(alloc, found, guard, buf) else {
        return Err(OpenFault::NoMemory);
    };
    let (mut hands, kept_layout) = made;
    match resume(disk, phase, &mut *hands) {
        Ok(_) => Ok(store_with(hands, kept_layout)),
        Err(Halted(DiskFault)) => Err(OpenFault::Slot(SlotFault::Disk)),
    }
}

/// Packing of the objects of a moving table, from where they stand.
fn phase_again<const C: usize>(found: &BoxedLoaded<C>) -> Packing<C>
    requires fits { C ≤ 32 }
    requires wide { SIZE_MAX < 2 ^ C }
    requires loads { KeepsLoaded (unboxed found.now) }
    requires moving { found.now.header.value.kind ≡ kind.Moving }
    ensures again { PacksAgain (unboxed found.now) (phase_now result.course found.now.table) }
    ensures keeps { KeepsPacking C result (items_now result.course found.now.table) }
{
    let shelf = TableShelf(&found.table);
    let layout = &*found.layout;
    let header = &*found.header;
    let numbers = numbers_again(layout, header.boundary, header.wall, header.slack, &shelf);
    Packing::resume(layout, numbers, &shelf)
}

/// The hands of a flush that goes on, and the memory of the layout: nothing is held but what stands, and
/// nothing was moved yet.
#[inline(never)]
fn hands_of<const C: usize>(
    alloc: Global,
    found: BoxedLoaded<C>,
    guard: Guard,
    buf: Vec<u8>,
) -> Result<(Box<Hands<C>>, Box<Layout<C>>), NoMemory>
    requires block { IsSuperBlock found.block }
    requires none { guard.spans ≡ [] }
    requires room { guard.room ≡ found.block.names }
    requires buffer { vec_len buf ≡ 65536 }
    ensures { IfOk result (λ made. StartsAgain (unboxed found.entry) (parts_of made.0.value)) }
{
    let BoxedLoaded {
        block,
        slots,
        header,
        table,
        layout,
    } = found;
    let version = header.version;
    drop(header);
    let hands = Hands {
        table,
        layout: *layout,
        guard,
        slots: Slots::Plain(slots),
        ledger: no_bytes(),
        buf,
        base: head_len(block.names),
        version,
    };
    let hands = boxed(alloc, hands)?;
    Ok((hands, layout))
}
