//! Whether the room of a file is large enough for a change.
ghost use Rattle.std.specs.Prelude.{◌≡◌, ◌≤◌, ◌<◌, ◌^◌, false, true, None};
ghost use Rattle.slot_codec.specs.Readable.{IsSuperBlock};
ghost use Rattle.slot_pair.specs.Formats.{block_for};
ghost use Rattle.size_class.specs.declared.TheConstants.{CLASSES};
ghost use Rattle.store_model.specs.{Quiet.{del_of, put_of}, Stores.{IsStore}};
ghost use Rattle.slot_codec.specs.Names.{is_name};
ghost use Rattle.lent_store.specs.Rooms.{is_short, lacks_room, room_need, width_of};

use crate::LentStore;
use size_class::{SIZE_MAX, class_of};

impl LentStore {
    /// Whether a put would be served but for its room: the file might have to be longer.
    pub fn lacks_room_to_put(&self, name: &[u8], object: &[u8]) -> bool
        requires idle { self.now.store.in_hand ≡ None }
        ensures { result ≡ lacks_room self.now (put_of name.now object.now) }
    {
        match self.store.accepts_put(name, object) {
            Ok(_) => self.is_short(name, object.len() as u64),
            Err(_) => false,
        }
    }

    /// The same of a removal.
    pub fn lacks_room_to_del(&self, name: &[u8]) -> bool
        requires idle { self.now.store.in_hand ≡ None }
        ensures { result ≡ lacks_room self.now (del_of name.now) }
    {
        match self.store.accepts_del(name) {
            Ok(_) => self.is_short(name, 0),
            Err(_) => false,
        }
    }

    /// Whether the file might have to be longer than its room for a change that is served, of a name that
    /// gets an object of `size` bytes, or 0 where it gets none.
    fn is_short(&self, name: &[u8], size: u64) -> bool
        requires idle { self.now.store.in_hand ≡ None }
        requires sound { IsStore CLASSES self.now.store }
        requires whole { self.now.store.is_broken ≡ false }
        requires small { size ≤ SIZE_MAX }
        requires named { is_name name.now ≡ true }
        ensures { result ≡ is_short self.now name.now size }
    {
        let facts = self.facts();
        let gone = self.size(name).unwrap_or(0);
        let after = facts.bytes.saturating_sub(gone) + size;
        let volume = facts.bytes.max(after);
        let largest = facts.widest.max(width_of(size));
        self.room() < room_need(facts.k, facts.names, volume, largest)
    }
}

/// How many bytes a file can come to have within a change: what stands below the data part, and the bound on
/// the data part. `volume` is the most that all objects have together, before or after it, below 2^48, and
/// `largest` the most that one has, below 2^32.
pub fn room_need(k: u64, names: u64, volume: u64, largest: u64) -> u64
    requires ranges { IsSuperBlock (block_for k names) }
    requires volume { volume < 2 ^ 48 }
    requires largest { largest < 2 ^ 32 }
    ensures { result ≡ room_need k names volume largest }
{
    17_043 + 160 * names + (k + 3) * volume / (k - 1) + 3 * largest + 1
}

/// The greatest size of the class of an object of so many bytes; 0 of one of none.
pub fn width_of(size: u64) -> u64
    requires small { size ≤ SIZE_MAX }
    ensures value { result ≡ width_of size }
    ensures wide { size ≤ result }
    ensures bound { result < 2 ^ 27 }
{
    if size == 0 {
        return 0;
    }
    (2u64 << class_of(size)) - 1
}
