//! What a store over a file in memory tells of itself, and its names one after another.
ghost use Rattle.std.specs.Prelude.{◌≡◌};
ghost use Rattle.map_model.specs.Requests as ask;
ghost use Rattle.store_model.specs.{Above.{first_above, next_answer}, Answers.{refused_by}, Facts.{facts_of}};
ghost use Rattle.store_model.specs.Lines.{listing_of};

use crate::LentStore;
use slot_codec::Name;
use store_core::{Facts, Refusal};

impl LentStore {
    /// Whether a changing call of it failed.
    pub fn is_broken(&self) -> bool
        ensures { result ≡ self.now.store.is_broken }
    {
        self.store.is_broken()
    }

    /// What there is to tell of it, also while a flush is in hand, and of a broken one.
    pub fn facts(&self) -> Facts
        ensures { result ≡ facts_of self.now.store }
    {
        self.store.facts()
    }

    /// How many bytes the file may have.
    pub fn room(&self) -> u64
        ensures { result ≡ self.now.noting.room }
    {
        self.disk.most() as u64
    }

    /// The first live name that is greater than these bytes, with the size of its object, as the store tells
    /// it.
    pub fn next_above(&self, above: &[u8]) -> Result<Option<(Name, u64)>, Refusal>
        ensures { result ≡ next_answer (refused_by self.now.store ask.list)
            (first_above above.now (listing_of self.now.store.now)) }
    {
        self.store.next_above(above)
    }
}
