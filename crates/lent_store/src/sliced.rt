//! A flush of a store one move at a time.
ghost use Rattle.std.specs.Prelude.{◌≡◌, IsSome, None, Ok};
ghost use Rattle.size_class.specs.declared.TheConstants.{CLASSES};
ghost use Rattle.store_model.specs.{Begins.{BeginsChange}, Steps.{IsStep}};
ghost use Rattle.store_model.specs.Quiet.{del_of, put_of};

use crate::LentStore;
use store_core::{Begun, Progress, Refusal};

impl LentStore {
    ghost use Rattle.lent_store.specs.{Embedded.{disk_before, disk_of}, Noted.{IsNoted, RestsOnKept}};

    /// Begins to put an object under a name: a quiet change is done, and of any other the flush is in hand.
    pub fn begin_put(&mut self, name: &[u8], object: &[u8]) -> Result<Begun, Refusal>
        requires idle { self.old.store.in_hand ≡ None }
        ensures begins { BeginsChange CLASSES (put_of name.now object.now) self.old.store self.new.store
            (disk_before self.old) (disk_of self.new) result }
        ensures noted { IsNoted self.old self.new }
    {
        self.disk.empty_log();
        let answer = self.store.begin_put(&mut self.disk, name, object);
        self.disk.is_noted();
        answer
    }

    /// Begins to remove a name.
    pub fn begin_del(&mut self, name: &[u8]) -> Result<Begun, Refusal>
        requires idle { self.old.store.in_hand ≡ None }
        ensures begins { BeginsChange CLASSES (del_of name.now) self.old.store self.new.store
            (disk_before self.old) (disk_of self.new) result }
        ensures noted { IsNoted self.old self.new }
    {
        self.disk.empty_log();
        let answer = self.store.begin_del(&mut self.disk, name);
        self.disk.is_noted();
        answer
    }

    /// Makes the next move of the flush in hand, or settles it: then the store rests on its checkpoint.
    pub fn step(&mut self) -> Result<Progress, Refusal>
        requires half { IsSome self.old.store.in_hand }
        ensures step { IsStep CLASSES self.old.store self.new.store (disk_before self.old)
            (disk_of self.new) result }
        ensures rests { result ≡ Ok Progress.Settled → RestsOnKept self.new }
        ensures noted { IsNoted self.old self.new }
    {
        self.disk.empty_log();
        let answer = self.store.step(&mut self.disk);
        self.disk.is_noted();
        answer
    }
}
