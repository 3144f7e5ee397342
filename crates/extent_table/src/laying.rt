//! Entries that lie in memory in the order of their names.
ghost use Rattle.std.specs.Prelude.{◌≡◌};
ghost use Rattle.extent_table.specs.Extents.{IsTable};

use crate::Table;
use crate::digests::{carry_digests, copy_digests};
use crate::entry::lay_out;
use crate::places::place_all;

impl Table {
    /// Takes what stands now as kept, as `keep` does, at a checkpoint that no plan of moves outlives: the
    /// live names may get other keys. Where more than an eighth of them came since their entries were laid
    /// out, these are laid out anew in the order of names. So a checkpoint, which goes by that order, goes
    /// through memory forwards.
    pub fn keep_sorted(&mut self)
        ensures now { self.new.now ≡ self.old.now }
        ensures kept { self.new.kept ≡ self.old.now }
        ensures digests { self.new.digests ≡ self.old.digests }
        ensures kept_digests { self.new.kept_digests ≡ self.old.digests }
        ensures names { self.new.names ≡ self.old.names }
        ensures cap { self.new.cap ≡ self.old.cap }
        ensures table { IsTable self.new }
    {
        self.keep();
        if self.fresh > self.order.len() / 8 {
            self.lay_out();
        }
    }

    /// Lays the entries out anew, in the order of names, where what stands now was kept.
    fn lay_out(&mut self)
        requires kept { self.old.kept ≡ self.old.now }
        ensures now { self.new.now ≡ self.old.now }
        ensures kept { self.new.kept ≡ self.old.now }
        ensures digests { self.new.digests ≡ self.old.digests }
        ensures kept_digests { self.new.kept_digests ≡ self.old.digests }
        ensures names { self.new.names ≡ self.old.names }
        ensures cap { self.new.cap ≡ self.old.cap }
        ensures table { IsTable self.new }
    {
        lay_out(&mut self.entries, &self.order, &mut self.kept_order);
        carry_digests(
            &self.entries,
            &self.digests,
            &self.order,
            &mut self.kept_digests,
            &self.kept_order,
        );
        self.order.clear();
        self.order.extend_from_slice(&self.kept_order).unwrap();
        copy_digests(&mut self.digests, &self.kept_digests);
        place_all(&self.entries, &self.order, &mut self.places);
        self.kept_volume = self.volume;
        self.fresh = 0;
    }
}
