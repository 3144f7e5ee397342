//! The memory that a store takes as it is made, and the store of hands that were settled.
ghost use Rattle.std.specs.Prelude.{◌≡◌, ◌≤◌, [], vec_len, IfOk};
ghost use Rattle.logged_pair.specs.Slots.{used_in};
ghost use Rattle.size_class.specs.{Classes.{zero_row}, Rows.{cells_of}};
ghost use Rattle.segment_layout.specs.Layouts.{caps_of, grid_of};
ghost use Rattle.extent_table.specs.Extents.{digests_seen};
ghost use Rattle.store_model.specs.{Connection.{opened_store}, Resuming.{MakesStore}};

use crate::Store;
use data_area::Ledger;
use flush_run::Hands;
use held_guard::Guard;
use segment_layout::Layout;
use size_class::Row;
use slot_codec::NoMemory;
use std::alloc::Global;
use store_model::Began;

/// How many bytes of an object are read at a time.
const COPIED: usize = 65536;

/// What a store takes beside its table: room for the held spans, and a buffer to copy through.
#[derive(Drop)]
pub(crate) struct Memory {
    pub(crate) guard: Guard,
    pub(crate) buf: Vec<u8>,
}

/// Takes the memory of a store of so many names.
pub(crate) fn take_memory(alloc: Global, names: u64) -> Result<Memory, NoMemory>
    requires few { names ≤ 65536 }
    ensures none { IfOk result (λ memory. memory.guard.spans ≡ []) }
    ensures guard_room { IfOk result (λ memory. memory.guard.room ≡ names) }
    ensures buffer { IfOk result (λ memory. vec_len memory.buf ≡ 65536) }
{
    let guard = Guard::with_room(alloc, names)?;
    let buf = copy_buffer(alloc)?;
    Ok(Memory { guard, buf })
}

/// A buffer to copy objects through.
fn copy_buffer(alloc: Global) -> Result<Vec<u8>, NoMemory>
    ensures { IfOk result (λ buf. vec_len buf ≡ 65536) }
{
    match vec![in alloc; 0; COPIED] {
        Ok(buf) => Ok(buf),
        Err(_) => Err(NoMemory),
    }
}

/// A value in memory of its own. The copies that are made on the way stand in the frame of this call alone.
#[inline(never)]
pub(crate) fn boxed<T: Drop>(alloc: Global, value: T) -> Result<Box<T>, NoMemory>
    ensures { IfOk result (λ made. made.value ≡ value) }
{
    match Box::new(alloc, value) {
        Ok(made) => Ok(made),
        Err(_) => Err(NoMemory),
    }
}

/// The store of hands in which what stands now is the checkpoint, and memory for its layout. What was
/// moved before isn't counted.
pub(crate) fn store_with<const C: usize>(
    hands: Box<Hands<C>>,
    kept_layout: Box<Layout<C>>,
) -> Store<C>
    requires { MakesStore hands.value }
    ensures { result ≡ opened_store C (used_in hands.entry.value.slots) hands.entry.value.table.now
        (digests_seen hands.entry.value.version hands.entry.value.table.digests)
        (caps_of hands.entry.value.layout) (grid_of hands.entry.value.layout) }
{
    let mut hands = hands;
    let mut kept_layout = kept_layout;
    let ledger = no_bytes();
    let lent = &mut *hands;
    lent.ledger = ledger;
    *kept_layout = lent.layout;
    Store {
        hands,
        kept_layout,
        broken: false,
        flush: None,
        began: Began {
            sequence: 0,
            moved: Row::zero(),
            left: 0,
        },
    }
}

/// A ledger of no bytes.
pub(crate) fn no_bytes<const C: usize>() -> Ledger<C>
    ensures moved { cells_of result.moved ≡ zero_row }
    ensures asked { cells_of result.asked ≡ zero_row }
{
    Ledger {
        moved: Row::zero(),
        asked: Row::zero(),
    }
}
