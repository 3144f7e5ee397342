//! What a store keeps, and what it tells of it.
ghost use Rattle.std.specs.Prelude.{◌≡◌, ◌↔◌, false, None, IsSome, IsTrue};
ghost use Rattle.size_class.specs.Rows.{cells_of};
ghost use Rattle.segment_layout.specs.Books.{book_end};

use crate::Gauge;
use data_area::Ledger;
use flush_run::{Hands, Phase};
use segment_layout::Layout;
use slot_codec::cap;
use std::marker::Model;
use store_model::Began;

/// A store over its disk: where the objects stand now, and where they stood at the last checkpoint.
/// Contracts see it as `StoreValue`.
///
/// The hands have the parts of now, which a flush works with: the table, the layout, the guard, the
/// slots, the ledger and the buffer. `kept_layout` is the layout of the last checkpoint. Both have some
/// 8 kB, and stand in memory of their own, so that a store takes little of the stack. A flush in hand is the
/// phase that it has come to, and what it began with.
#[derive(Drop)]
pub struct Store<const C: usize> {
    pub(crate) hands: Box<Hands<C>>,
    pub(crate) kept_layout: Box<Layout<C>>,
    pub(crate) broken: bool,
    pub(crate) flush: Option<Phase<C>>,
    pub(crate) began: Began<C>,
}

impl<const C: usize> Model for Store<C> {
    ghost use Rattle.store_model.specs.{Connection.{StoreValue}, Codes.{kept_code}};

    ghost Value = { StoreValue };

    ghost coded = { kept_code };

    ghost use Rattle.store_core.specs.Boxes.{IsWholeIn, kept_in};

    ghost view = { kept_in };

    ghost invariant = { IsWholeIn };
}

impl<const C: usize> Store<C> {
    ghost use Rattle.std.specs.FinMap as fin;
    ghost use Rattle.store_model.specs.{Connection.{live_cap}, Stores.{IsStanding, IsStore}};

    /// Whether a changing call of this store failed.
    pub fn is_broken(&self) -> bool
        ensures same { result ≡ self.now.is_broken }
        ensures sound { result ≡ false → self.now.in_hand ≡ None → IsStore C self.now }
        ensures standing { result ≡ false → IsStanding self.now }
    {
        self.broken
    }

    /// Whether a flush is in hand: from a begin that answered so until a step settles it or the disk fails.
    pub fn in_hand(&self) -> bool
        ensures { IsTrue result ↔ IsSome self.now.in_hand }
    {
        self.flush.is_some()
    }

    /// How many names are live, also while a flush is in hand.
    pub fn live(&self) -> u64
        ensures { result ≡ fin.len self.now.now }
    {
        self.hands.table.count()
    }

    /// Where the layout ends, which is how long the data part is, and the sequence of the last
    /// checkpoint.
    pub fn gauge(&self) -> Gauge
        ensures length { result.length ≡ book_end self.now.in_use.block.k self.now.book }
        ensures sequence { result.sequence ≡ self.now.in_use.sequence }
    {
        Gauge {
            length: self.hands.layout.end(),
            sequence: self.hands.slots.sequence(),
        }
    }

    /// How many names the superblock says: as many records of version 1 a slot has room for.
    pub fn names(&self) -> u64
        ensures { result ≡ self.now.in_use.block.names }
    {
        self.hands.slots.block().names
    }

    /// How many names may be live: as many as a table of the store's version has records.
    pub fn cap(&self) -> u64
        ensures { result ≡ live_cap self.now }
    {
        let hands = &*self.hands;
        cap(hands.slots.block().names, hands.version)
    }

    /// The bytes moved, and those put and removed, since the store was opened.
    pub fn ledger(&self) -> Ledger<C>
        ensures moved { cells_of result.moved ≡ self.now.moved }
        ensures asked { cells_of result.asked ≡ self.now.asked }
    {
        self.hands.ledger
    }
}
