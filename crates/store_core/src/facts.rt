//! What a store tells of itself at once.
ghost use Rattle.std.specs.Prelude.{◌≡◌, ◌-◌};
ghost use Rattle.size_class.specs.Rows.{cells_of};
ghost use Rattle.segment_layout.specs.Layouts.{caps_of};
ghost use Rattle.store_model.specs.Facts.{bytes_left_of, facts_of, moves_left_of, risen_by, widest_of};

use crate::{Facts, Store};
use segment_layout::Layout;
use size_class::Row;
use slot_codec::cap;

impl<const C: usize> Store<C> {
    /// What there is to tell of the store, also while a flush is in hand, and of a broken one.
    pub fn facts(&self) -> Facts
        ensures { result ≡ facts_of self.now }
    {
        let hands = &*self.hands;
        let block = hands.slots.block();
        Facts {
            version: hands.version,
            k: block.k,
            names: block.names,
            cap: cap(block.names, hands.version),
            live: hands.table.count(),
            bytes: hands.table.volume(),
            kept_live: hands.table.kept_count(),
            kept_bytes: hands.table.kept_volume(),
            sequence: hands.slots.sequence(),
            widest: widest(&hands.layout),
            moves_left: self.moves_left(),
            bytes_left: self.bytes_left(),
        }
    }

    /// How many steps of the flush in hand may still come; 0 where none is.
    fn moves_left(&self) -> u64
        ensures { result ≡ moves_left_of self.now.in_hand }
    {
        match &self.flush {
            Some(_) => self.began.left,
            None => 0,
        }
    }

    /// How many bytes of objects the flush in hand may still move; 0 where none is.
    fn bytes_left(&self) -> u64
        ensures { result ≡ bytes_left_of self.now }
    {
        match &self.flush {
            Some(_) => {
                let hands = &*self.hands;
                let most = 2 * hands.table.volume();
                less_risen(most, &self.began.moved, &hands.ledger.moved)
            }
            None => 0,
        }
    }
}

/// A number less the bytes by which a row rose, or 0 where these are more.
fn less_risen<const C: usize>(most: u64, then: &Row<C>, now: &Row<C>) -> u64
    ensures { result ≡ most - risen_by (cells_of then.now) (cells_of now.now) }
{
    let old = then.cells();
    let new = now.cells();
    let mut left = most;
    'classes: for c in 0..32 {
        left = left.saturating_sub(new[c].saturating_sub(old[c]));
    }
    left
}

/// The greatest size of the greatest class that has a capacity, in bytes; 0 where none has.
fn widest<const C: usize>(layout: &Layout<C>) -> u64
    ensures { result ≡ widest_of (caps_of layout.now) }
{
    let caps = layout.caps().cells();
    let mut upto = 0;
    'classes: for c in 0..32 {
        if caps[c] > 0 {
            upto = c + 1;
        }
    }
    (1u64 << upto) - 1
}
