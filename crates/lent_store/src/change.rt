//! Changes of a store and its file.
ghost use Rattle.std.specs.Prelude.{◌≡◌, ◌||◌, IsNone, IsSome, None};
ghost use Rattle.size_class.specs.declared.TheConstants.{CLASSES};
ghost use Rattle.map_model.specs.Requests as ask;
ghost use Rattle.store_model.specs.{Answers.{is_disk_fault, refused_by}, Begins.{BeginsChange}, Changes.{NothingChanged}, Changing.{IsChange}, Keeps.{AnswersKeep, KeepsNow}, Steps.{AnswersStep}};
ghost use Rattle.store_model.specs.Quiet.{del_of, put_of};

use crate::LentStore;
use store_core::{Begun, Done, Progress, Refusal};

impl LentStore {
    ghost use Rattle.lent_store.specs.{Embedded.{disk_before, disk_of}, Noted.{IsNoted}};

    /// Puts an object under a name, as the store does. The log has the calls that it made.
    pub fn put(&mut self, name: &[u8], object: &[u8]) -> Result<Done, Refusal>
        requires idle { self.old.store.in_hand ≡ None }
        ensures change { IsChange CLASSES (put_of name.now object.now) self.old.store self.new.store
            (disk_before self.old) (disk_of self.new) result }
        ensures noted { IsNoted self.old self.new }
    {
        self.disk.empty_log();
        let answer = self.store.put(&mut self.disk, name, object);
        self.disk.is_noted();
        answer
    }

    /// Removes a name, as the store does.
    pub fn del(&mut self, name: &[u8]) -> Result<Done, Refusal>
        requires idle { self.old.store.in_hand ≡ None }
        ensures change { IsChange CLASSES (del_of name.now) self.old.store self.new.store
            (disk_before self.old) (disk_of self.new) result }
        ensures noted { IsNoted self.old self.new }
    {
        self.disk.empty_log();
        let answer = self.store.del(&mut self.disk, name);
        self.disk.is_noted();
        answer
    }

    /// Saves a checkpoint of what stands now.
    pub fn keep(&mut self) -> Result<Done, Refusal>
        requires idle { self.old.store.in_hand ≡ None }
        ensures answer { AnswersKeep (refused_by self.old.store ask.keep) result }
        ensures refused { IsSome (refused_by self.old.store ask.keep) → NothingChanged self.old.store
            self.new.store (disk_before self.old) (disk_of self.new) }
        ensures kept { IsNone (refused_by self.old.store ask.keep) → KeepsNow CLASSES self.old.store
            self.new.store (disk_before self.old) (disk_of self.new) result }
        ensures broken { self.new.store.is_broken ≡ (self.old.store.is_broken || is_disk_fault result) }
        ensures noted { IsNoted self.old self.new }
    {
        self.disk.empty_log();
        let answer = self.store.keep(&mut self.disk);
        self.disk.is_noted();
        answer
    }
}
