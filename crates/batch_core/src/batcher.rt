//! A store whose changes may be batches.
ghost use Rattle.std.specs.Prelude.{◌≡◌, ◌||◌, ◌&&◌, not, true, false, Some, None, IfErr, IfOk, IsTrue, Err, Ok, List, ◌++◌, ◌≤◌, length};
ghost use Rattle.std.specs.FinMap as fin;
ghost use Rattle.disk_face.specs.Writes.{KeepsDisk};
ghost use Rattle.map_model.specs.Requests.{Change};
ghost use Rattle.slot_pair.specs.Finding.{HasDiskCause};
ghost use Rattle.size_class.specs.declared.TheConstants.{SIZE_MAX};
ghost use Rattle.store_model.specs.Answers.{size_at};
ghost use Rattle.store_model.specs.{Connection.{IsConnected}, Stores.{IsStore}};
ghost use Rattle.batch_model.specs.Batches.{IsBatch, batch_name};
ghost use Rattle.batch_core.specs.{Answers.{Applies, Finishes, IsFetched, IsJudged, IsKeptText, IsReadBy, fetched_of}, Doing.{CanGo}, StoresOn.{store_on}};

use crate::BatchFault;
use crate::judge::judge;
use crate::run::{apply_batch, do_batch};
use batch_model::check::BATCH;
use disk_face::Disk;
use size_class::SIZE_MAX;
use slot_codec::NoMemory;
use std::alloc::Global;
use std::marker::Model;
use store_core::{Moment, Refusal, Store};

/// A store, and room for the text of a batch. Contracts see it as the store.
#[derive(Drop)]
pub struct Batcher<const C: usize> {
    store: Store<C>,
    text: Vec<u8>,
}

impl<const C: usize> Model for Batcher<C> {
    ghost use Rattle.store_model.specs.{Connection.{StoreValue}, Codes.{kept_code}};

    ghost Value = { StoreValue };

    ghost coded = { kept_code };

    ghost use Rattle.batch_core.specs.Inside.{IsReadyIn, store_in};

    ghost view = { store_in };

    ghost invariant = { IsReadyIn };
}

impl<const C: usize> Batcher<C> {
    /// A batcher of a store, with the memory that it will ever have: as much as the longest object has
    /// bytes. Where there is none the store comes back.
    pub fn new(alloc: Global, store: Store<C>) -> Result<Batcher<C>, (Store<C>, NoMemory)>
        requires idle { store.in_hand ≡ None }
        ensures ok { IfOk result (λ batcher. batcher ≡ store.entry) }
        ensures refused { IfErr result (λ back. back.0 ≡ store.entry) }
    {
        let Ok(text) = vec![in alloc; 0; SIZE_MAX as usize] else {
            return Err((store, NoMemory));
        };
        Ok(Batcher { store, text })
    }

    /// Whether a store that isn't broken keeps a batch.
    pub fn is_pending(&self) -> bool
        ensures same { result ≡ (not self.now.is_broken && fin.contains_key self.now.now batch_name) }
        ensures sound { self.now.is_broken ≡ false → IsStore C self.now }
    {
        !self.store.is_broken() && self.store.size(BATCH).is_ok()
    }

    /// The store.
    pub fn into_store(self) -> Store<C>
        ensures same { result ≡ self.entry }
        ensures idle { result.in_hand ≡ None }
    {
        self.store
    }

    /// Does the changes of a text as one: the text is put under the batch's name and kept; then come the
    /// changes; and then the text is removed, and that is kept. Nothing is done for an empty text, and
    /// nothing changes at a fault but that of the disk. After that the store is broken, and the file opens
    /// to the last checkpoint or to a map that `finish` goes on from.
    pub fn apply<D: Disk>(&mut self, disk: &mut D, text: &[u8]) -> Result<bool, BatchFault>
        requires ready { IsTrue (D.state disk.old).is_ready }
        requires over { IsConnected C self.old (D.state disk.old) }
        requires free { fin.get self.old.now batch_name ≡ None }
        ensures { Applies C text.now (store_on self.old (D.state disk.old))
            (store_on self.new (D.state disk.new)) result }
    {
        if self.store.is_broken() {
            return Err(BatchFault::Broken);
        }
        match judge(&self.store, text, false) {
            Ok(()) => apply_judged(&mut self.store, disk, text),
            Err(fault) => Err(fault),
        }
    }

    /// Does the batch that the store keeps, if it keeps one: all its changes from the first, but that the
    /// removal of a name that isn't there changes nothing; and then the text is removed, and that is kept.
    /// The answer is whether there was one. Nothing changes at a fault but that of the disk. After that
    /// the store is broken, or the text couldn't be read and nothing changed.
    pub fn finish<D: Disk>(&mut self, disk: &mut D) -> Result<bool, BatchFault>
        requires ready { IsTrue (D.state disk.old).is_ready }
        requires over { IsConnected C self.old (D.state disk.old) }
        ensures { Finishes C (store_on self.old (D.state disk.old)) (store_on self.new (D.state disk.new))
            result }
    {
        if self.store.is_broken() {
            return Err(BatchFault::Broken);
        }
        finish_long(&mut self.store, disk, &mut self.text)
    }
}

/// Does the batch that a store keeps, with room for the longest text.
fn finish_long<const C: usize, D: Disk>(
    store: &mut Store<C>,
    disk: &mut D,
    text: &mut [u8],
) -> Result<bool, BatchFault>
    requires go { CanGo C (store_on store.old (D.state disk.old)) }
    requires room { SIZE_MAX ≤ length text.old }
    ensures long { length text.new ≡ length text.old }
    ensures finishes { Finishes C (store_on store.old (D.state disk.old))
        (store_on store.new (D.state disk.new)) result }
{
    finish_store(store, disk, text)
}

/// Does the batch that a store keeps, with room for its text.
pub(crate) fn finish_store<const C: usize, D: Disk>(
    store: &mut Store<C>,
    disk: &mut D,
    text: &mut [u8],
) -> Result<bool, BatchFault>
    requires go { CanGo C (store_on store.old (D.state disk.old)) }
    requires room { size_at (fin.get store.old.now batch_name) ≤ length text.old }
    ensures long { length text.new ≡ length text.old }
    ensures finishes { Finishes C (store_on store.old (D.state disk.old))
        (store_on store.new (D.state disk.new)) result }
{
    match fetch_batch(store, disk, text) {
        Ok(Some(size)) => finish_text(store, disk, &text[..size as usize]),
        Ok(None) => Ok(false),
        Err(fault) => Err(fault),
    }
}

/// Reads what a store keeps as a batch into the front of `text`, and answers how many bytes it has.
fn fetch_batch<const C: usize, D: Disk>(
    store: &Store<C>,
    disk: &mut D,
    text: &mut [u8],
) -> Result<Option<u64>, BatchFault>
    requires go { CanGo C (store_on store.now (D.state disk.old)) }
    requires room { size_at (fin.get store.now.now batch_name) ≤ length text.old }
    ensures long { length text.new ≡ length text.old }
    ensures fetched { IsFetched (store_on store.now (D.state disk.old)) (D.state disk.new) text.new result }
{
    let answer = store.fetch(Moment::Now, disk, BATCH, text);
    fetched(answer)
}

/// What an answer says of the batch that is kept.
fn fetched(answer: Result<u64, Refusal>) -> Result<Option<u64>, BatchFault>
    ensures { result ≡ fetched_of answer }
{
    match answer {
        Ok(size) => Ok(Some(size)),
        Err(Refusal::Missing) => Ok(None),
        Err(Refusal::Damaged) => Err(BatchFault::Damaged),
        Err(_) => Err(BatchFault::Disk),
    }
}

/// Does a text that was read as the batch that the store keeps.
fn finish_text<const C: usize, D: Disk>(
    store: &mut Store<C>,
    disk: &mut D,
    text: &[u8],
) -> Result<bool, BatchFault>
    requires go { CanGo C (store_on store.old (D.state disk.old)) }
    requires kept { IsKeptText (store_on store.old (D.state disk.old)) text.now }
    ensures { (first : D) → IsReadBy (D.state first) (D.state disk.old)
        → Finishes C (store_on store.old (D.state first)) (store_on store.new (D.state disk.new)) result }
{
    match judge(store, text, true) {
        Ok(()) => finish_judged(store, disk, text),
        Err(fault) => Err(fault),
    }
}

/// Does a batch that was judged.
fn finish_judged<const C: usize, D: Disk>(
    store: &mut Store<C>,
    disk: &mut D,
    text: &[u8],
) -> Result<bool, BatchFault>
    requires go { CanGo C (store_on store.old (D.state disk.old)) }
    requires kept { IsKeptText (store_on store.old (D.state disk.old)) text.now }
    requires judged { IsJudged true store.old text.now (Ok tt) }
    ensures { (first : D) → IsReadBy (D.state first) (D.state disk.old)
        → Finishes C (store_on store.old (D.state first)) (store_on store.new (D.state disk.new)) result }
{
    match do_batch(store, disk, text) {
        Ok(()) => Ok(true),
        Err(_) => Err(BatchFault::Disk),
    }
}

/// Applies a text that was judged.
pub(crate) fn apply_judged<const C: usize, D: Disk>(
    store: &mut Store<C>,
    disk: &mut D,
    text: &[u8],
) -> Result<bool, BatchFault>
    requires go { CanGo C (store_on store.old (D.state disk.old)) }
    requires free { fin.get store.old.now batch_name ≡ None }
    requires judged { IsJudged false store.old text.now (Ok tt) }
    ensures { Applies C text.now (store_on store.old (D.state disk.old))
        (store_on store.new (D.state disk.new)) result }
{
    if text.len() == 0 {
        return Ok(false);
    }
    match apply_batch(store, disk, text) {
        Ok(()) => Ok(true),
        Err(_) => Err(BatchFault::Disk),
    }
}
