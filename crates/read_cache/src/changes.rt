//! What changes a store that is behind a cache: the pair of a name that changed goes out of the list.
ghost use Rattle.std.specs.Prelude.{◌≡◌, ◌||◌, ◌↔◌, true, false, if◌then◌else◌, is_ok, nat_eq, ℕ, List, Err, IfSome, IsErr, IsNone, IsSome, IsTrue, OnErr, OnOk};
ghost use Rattle.std.specs.Cmp.Lexicographic.{pointwise};
ghost use Rattle.std.specs.List.{IsDistinct};
ghost use Rattle.std.specs.Map.{keys_of};
ghost use Rattle.slot_codec.specs.Names.{IsName};
ghost use Rattle.map_model.specs.Requests as ask;

use crate::Cached;
use disk_face::Disk;
use slot_codec::Name;
use store_core::{Done, Refusal};

impl<const C: usize> Cached<C> {
    ghost use Rattle.store_model.specs.{Answers.{done_reply, is_disk_fault, refused_by, reply_of}, Changing.{IsChange}, Keeps.{IsKeep}};
    ghost use Rattle.store_model.specs.{Connection.{IsConnected, IsOver, limits_of, state_of}, Quiet.{del_of, put_of}, States.{Step}, Stores.{IsStore}};
    ghost use Rattle.read_cache.specs.{Coherence.{IsCoherent}, Lists.{emptied, without}};

    /// Puts an object, as the store does; the pair of its name goes out of the list.
    pub fn put<D: Disk>(&mut self, disk: &mut D, name: &[u8], bytes: &[u8]) -> Result<Done, Refusal>
        requires ready { IsTrue (D.state disk.old).is_ready }
        requires over { IsConnected C self.old.store (D.state disk.old) }
        requires coherent { IsCoherent self.old.store self.old.list.pairs (D.state disk.old) }
        ensures change { IsChange C (put_of name.now bytes.now) self.old.store self.new.store
            (D.state disk.old) (D.state disk.new) result }
        ensures step { self.old.store.is_broken ≡ false → IsTrue (D.state disk.old).tells
            → IfSome (reply_of done_reply result) (λ reply. Step (limits_of self.old.store)
            (state_of self.old.store (D.state disk.old).file) (ask.change (put_of name.now bytes.now)) reply
            (state_of self.new.store (D.state disk.new).file)) }
        ensures list { self.new.list
            ≡ (if is_ok result then without name.now self.old.list else self.old.list) }
        ensures coherent { IsCoherent self.new.store self.new.list.pairs (D.state disk.new) }
    {
        let answer = self.store.put(disk, name, bytes);
        self.forget_changed(name, answer.is_ok());
        answer
    }

    /// Removes a name, as the store does; its pair goes out of the list.
    pub fn del<D: Disk>(&mut self, disk: &mut D, name: &[u8]) -> Result<Done, Refusal>
        requires ready { IsTrue (D.state disk.old).is_ready }
        requires over { IsConnected C self.old.store (D.state disk.old) }
        requires coherent { IsCoherent self.old.store self.old.list.pairs (D.state disk.old) }
        ensures change { IsChange C (del_of name.now) self.old.store self.new.store (D.state disk.old)
            (D.state disk.new) result }
        ensures step { self.old.store.is_broken ≡ false → IsTrue (D.state disk.old).tells
            → IfSome (reply_of done_reply result) (λ reply. Step (limits_of self.old.store)
            (state_of self.old.store (D.state disk.old).file) (ask.change (del_of name.now)) reply
            (state_of self.new.store (D.state disk.new).file)) }
        ensures list { self.new.list
            ≡ (if is_ok result then without name.now self.old.list else self.old.list) }
        ensures coherent { IsCoherent self.new.store self.new.list.pairs (D.state disk.new) }
    {
        let removed = self.store.del(disk, name);
        self.forget_changed(name, removed.is_ok());
        removed
    }

    /// Saves a checkpoint, as the store does. The list stays.
    pub fn keep<D: Disk>(&mut self, disk: &mut D) -> Result<Done, Refusal>
        requires ready { IsTrue (D.state disk.old).is_ready }
        requires over { IsConnected C self.old.store (D.state disk.old) }
        requires coherent { IsCoherent self.old.store self.old.list.pairs (D.state disk.old) }
        ensures keep { IsKeep C self.old.store self.new.store (D.state disk.old) (D.state disk.new) result }
        ensures step { self.old.store.is_broken ≡ false → IsTrue (D.state disk.old).tells
            → IfSome (reply_of done_reply result) (λ reply. Step (limits_of self.old.store)
            (state_of self.old.store (D.state disk.old).file) ask.keep reply
            (state_of self.new.store (D.state disk.new).file)) }
        ensures over { IsConnected C self.new.store (D.state disk.new) }
        ensures broken { self.new.store.is_broken ≡ (self.old.store.is_broken || is_disk_fault result) }
        ensures list { self.new.list ≡ self.old.list }
        ensures coherent { IsCoherent self.new.store self.new.list.pairs (D.state disk.new) }
    {
        self.store.keep(disk)
    }

    /// Goes back to the last checkpoint, as the store does; the list is empty then.
    pub fn back(&mut self) -> Result<(), Refusal>
        ensures answer { IsErr result ↔ (self.old.store.is_broken ≡ true) }
        ensures refused { OnErr result (result ≡ Err Refusal.Broken) }
        ensures unchanged { OnErr result (self.new ≡ self.old) }
        ensures back { OnOk result (self.new.store
            ≡ record self.old.store { now = self.old.store.kept; book = self.old.store.kept_book }) }
        ensures step { (file : List ℕ) → IsOver C self.old.store file → OnOk result
            (Step (limits_of self.old.store) (state_of self.old.store file) ask.back ask.done
            (state_of self.new.store file)) }
        ensures over { (file : List ℕ) → IsOver C self.old.store file
            → OnOk result (IsOver C self.new.store file) }
        ensures list { OnOk result (self.new.list ≡ emptied self.old.list) }
    {
        match self.store.back() {
            Ok(()) => {
                self.recent.empty();
                Ok(())
            }
            Err(refusal) => Err(refusal),
        }
    }

    /// Takes the pair of a name out of the list where a change of it was done.
    fn forget_changed(&mut self, name: &[u8], done: bool)
        requires named { IsTrue done → IsName name.now }
        ensures list { self.new.list ≡ (if done then without name.now self.old.list else self.old.list) }
        ensures store { self.new.store ≡ self.old.store }
        ensures distinct { IsDistinct (pointwise nat_eq) (keys_of self.old.list.pairs) }
    {
        self.recent.is_distinct();
        if !done {
            return;
        }
        if let Some(key) = Name::new(name) {
            self.recent.forget(&key);
        }
    }
}
