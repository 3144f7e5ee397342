//! The names of a store one after another.
ghost use Rattle.std.specs.Prelude.{◌≡◌};
ghost use Rattle.map_model.specs.Requests as ask;
ghost use Rattle.store_model.specs.{Above.{first_above, next_answer}, Answers.{refused_by}};
ghost use Rattle.store_model.specs.Lines.{listing_of};

use crate::{Refusal, Store};
use extent_table::Table;
use slot_codec::Name;

impl<const C: usize> Store<C> {
    /// The first live name that is greater than these bytes, in byte order, with the size of its object in
    /// bytes; none where no name is. They are any bytes, also none, or more than a name may have. It serves
    /// also while a flush is in hand, reads as many names as their number has binary digits, and takes no
    /// memory.
    pub fn next_above(&self, above: &[u8]) -> Result<Option<(Name, u64)>, Refusal>
        ensures { result ≡ next_answer (refused_by self.now ask.list)
            (first_above above.now (listing_of self.now.now)) }
    {
        if self.is_broken() {
            return Err(Refusal::Broken);
        }
        Ok(first_above(&self.hands.table, above))
    }
}

/// The first live name of a table that is greater than these bytes, and the size of its object. It halves the
/// ranks in which that name can be.
fn first_above(table: &Table, bytes: &[u8]) -> Option<(Name, u64)>
    ensures { result ≡ first_above bytes.now (listing_of table.now.now) }
{
    let count = table.count();
    let mut low = 0;
    let mut high = count;
    'halves: while low < high {
        let middle = low + (high - low) / 2;
        let (_, name, _) = table.in_order(middle);
        if bytes.cmp(name.as_bytes()).is_lt() {
            high = middle;
        } else {
            low = middle + 1;
        }
    }
    if low == count {
        return None;
    }
    let (_, name, spot) = table.in_order(low);
    Some((name, spot.size))
}
