//! Puts and removals of a store and its file that take effect as one.
ghost use Rattle.std.specs.Prelude.{◌≡◌, ◌&&◌, ◌≤◌, not, false, None, length};
ghost use Rattle.std.specs.FinMap as fin;
ghost use Rattle.batch_core.specs.{Answers.{Applies, Finishes, kept_size}, StoresOn.{store_on}};
ghost use Rattle.batch_model.specs.Batches.{batch_name};
ghost use Rattle.size_class.specs.declared.TheConstants.{CLASSES};

use crate::LentStore;
use batch_core::{BatchFault, apply_to, finish_in, is_pending_in, pending_size_in};

impl LentStore {
    ghost use Rattle.lent_store.specs.{Embedded.{disk_before, disk_of}, Noted.{IsNoted}};

    /// Whether a store that isn't broken keeps a batch, which a stop has left.
    pub fn is_pending(&self) -> bool
        ensures { result ≡ (not self.now.store.is_broken
            && fin.contains_key self.now.store.now batch_name) }
    {
        is_pending_in(&self.store)
    }

    /// How many bytes that batch has: 0 where the store keeps none or is broken.
    pub fn pending_size(&self) -> u64
        ensures { result ≡ kept_size self.now.store }
    {
        pending_size_in(&self.store)
    }

    /// Does the puts and removals of a text as one, as `Batcher::apply` does. The log has the calls of all of
    /// it: where their making stops, the file opens to the last checkpoint from before, or to a map that
    /// `finish` goes on from.
    pub fn apply(&mut self, text: &[u8]) -> Result<bool, BatchFault>
        requires idle { self.old.store.in_hand ≡ None }
        requires free { self.old.store.is_broken ≡ false → fin.get self.old.store.now batch_name ≡ None }
        ensures applies { Applies CLASSES text.now (store_on self.old.store (disk_before self.old))
            (store_on self.new.store (disk_of self.new)) result }
        ensures noted { IsNoted self.old self.new }
    {
        self.disk.empty_log();
        let answer = apply_to(&mut self.store, &mut self.disk, text);
        self.disk.is_noted();
        answer
    }

    /// Does the batch that the store keeps, if it keeps one, as `Batcher::finish` does. Its text is read into
    /// the front of `room`.
    pub fn finish(&mut self, room: &mut [u8]) -> Result<bool, BatchFault>
        requires idle { self.old.store.in_hand ≡ None }
        requires room { kept_size self.old.store ≤ length room.old }
        ensures finishes { Finishes CLASSES (store_on self.old.store (disk_before self.old))
            (store_on self.new.store (disk_of self.new)) result }
        ensures noted { IsNoted self.old self.new }
    {
        self.disk.empty_log();
        let answer = finish_in(&mut self.store, &mut self.disk, room);
        self.disk.is_noted();
        answer
    }
}
