//! Batches over a store that is lent.
ghost use Rattle.std.specs.Prelude.{◌≡◌, ◌&&◌, ◌≤◌, not, false, None, IsTrue, length};
ghost use Rattle.std.specs.FinMap as fin;
ghost use Rattle.store_model.specs.Connection.{IsConnected};
ghost use Rattle.batch_model.specs.Batches.{batch_name};
ghost use Rattle.batch_core.specs.{Answers.{Applies, Finishes, kept_size}, StoresOn.{store_on}};

use crate::BatchFault;
use crate::batcher::{apply_judged, finish_store};
use crate::judge::judge;
use batch_model::check::BATCH;
use disk_face::Disk;
use store_core::Store;

/// Whether a store that isn't broken keeps a batch.
pub fn is_pending_in<const C: usize>(store: &Store<C>) -> bool
    ensures { result ≡ (not store.now.is_broken && fin.contains_key store.now.now batch_name) }
{
    !store.is_broken() && store.size(BATCH).is_ok()
}

/// How many bytes the batch has that a store keeps: 0 where it keeps none or is broken.
pub fn pending_size_in<const C: usize>(store: &Store<C>) -> u64
    ensures { result ≡ kept_size store.now }
{
    store.size(BATCH).unwrap_or(0)
}

/// Does the changes of a text as one, as `Batcher::apply` does, over a store that keeps no batch. It takes no
/// memory.
pub fn apply_to<const C: usize, D: Disk>(
    store: &mut Store<C>,
    disk: &mut D,
    text: &[u8],
) -> Result<bool, BatchFault>
    requires ready { IsTrue (D.state disk.old).is_ready }
    requires over { IsConnected C store.old (D.state disk.old) }
    requires free { store.old.is_broken ≡ false → fin.get store.old.now batch_name ≡ None }
    ensures { Applies C text.now (store_on store.old (D.state disk.old))
        (store_on store.new (D.state disk.new)) result }
{
    if store.is_broken() {
        return Err(BatchFault::Broken);
    }
    match judge(store, text, false) {
        Ok(()) => apply_judged(store, disk, text),
        Err(fault) => Err(fault),
    }
}

/// Does the batch that a store keeps, if it keeps one, as `Batcher::finish` does. Its text is read into the
/// front of `room`, where it fits.
pub fn finish_in<const C: usize, D: Disk>(
    store: &mut Store<C>,
    disk: &mut D,
    room: &mut [u8],
) -> Result<bool, BatchFault>
    requires ready { IsTrue (D.state disk.old).is_ready }
    requires over { IsConnected C store.old (D.state disk.old) }
    requires room { kept_size store.old ≤ length room.old }
    ensures { Finishes C (store_on store.old (D.state disk.old)) (store_on store.new (D.state disk.new))
        result }
{
    if store.is_broken() {
        return Err(BatchFault::Broken);
    }
    finish_store(store, disk, room)
}
