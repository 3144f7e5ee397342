//! The rules of a moving table, from which a flush that stopped goes on.
ghost use Rattle.std.specs.Prelude.{◌≡◌, ◌⊎◌, ◌≤◌, ◌<◌, ◌↔◌, ◌+◌, ◌-◌, ◌^◌, ℕ, IsTrue, length, min};
ghost use Rattle.plain_layout.specs.Plain.{placed};
ghost use Rattle.table_rules.specs.{Tables.{end_of_record, is_below_wall, is_suffix, new_end, nth, packed_end, sizes_above, table_boundary}, Rules.{RoomToResume, PlacesToResume}};
ghost use Rattle.segment_layout.specs.Shapes.{start_of};
ghost use Rattle.size_class.specs.Classes.{class_of};

use crate::Table;

impl Table {
    /// The layout with the suffix laid out anew ends at least the slack below the wall, and the
    /// slack is at least the size of each suffix record.
    pub fn room_to_resume(&self) -> bool
        requires divisor { 1 ≤ self.now.k }
        ensures { IsTrue result ↔ RoomToResume (placed self.now) }
    {
        self.new_end().saturating_add(u128::from(self.header.slack)) <= u128::from(self.header.wall)
            && self.slack_suffices()
    }

    /// Where the layout ends once the suffix is laid out anew, but at most the last value of u128.
    pub fn new_end(&self) -> u128
        requires divisor { 1 ≤ self.now.k }
        ensures { result ≡ min (new_end (placed self.now)) (2 ^ 128 - 1) }
    {
        let mut end = self.start(self.table_boundary());
        'classes: for c in 0..32u8 {
            if self.table_boundary() <= c {
                let live = self.live(c);
                let buffer = live / u128::from(self.k);
                end = end.saturating_add(live).saturating_add(buffer);
            }
        }
        end
    }

    /// Whether the slack is at least the size of each suffix record.
    fn slack_suffices(&self) -> bool
        ensures { IsTrue result ↔ ((i : ℕ) → i < length self.now.records.items
            → IsTrue (is_suffix (placed self.now) (nth (placed self.now) i))
            → (nth (placed self.now) i).size ≤ self.now.header.slack) }
    {
        'records: for i in 0..self.records.len() {
            if self.is_suffix(i) && self.header.slack < self.size(i) {
                return false;
            }
        }
        true
    }

    /// A suffix record stands on one side of the wall; those below it rise by class; and packing
    /// the record and those above it would leave no gap to the wall, or one of at least the slack.
    pub fn places_to_resume(&self, at: usize) -> bool
        requires divisor { 1 ≤ self.now.k }
        ensures { IsTrue result ↔ PlacesToResume (placed self.now) at }
    {
        self.is_beside_wall(at) && self.is_in_order(at) && self.gap_is_wide(at)
    }

    /// Whether a record begins below the wall, and is of the suffix.
    pub fn is_below_wall(&self, at: usize) -> bool
        ensures { result ≡ is_below_wall (placed self.now) (nth (placed self.now) at) }
    {
        self.is_suffix(at) && self.place(at) < self.header.wall
    }

    /// Whether a suffix record stands on one side of the wall.
    fn is_beside_wall(&self, at: usize) -> bool
        requires divisor { 1 ≤ self.now.k }
        ensures { IsTrue result ↔ (IsTrue (is_suffix (placed self.now) (nth (placed self.now) at))
            → (self.now.header.wall ≤ (nth (placed self.now) at).place)
            ⊎ ((start_of self.now.k self.now.header.caps (table_boundary (placed self.now))
            ≤ (nth (placed self.now) at).place)
            × (end_of_record (nth (placed self.now) at) ≤ self.now.header.wall))) }
    {
        !self.is_suffix(at)
            || self.header.wall <= self.place(at)
            || (self.start(self.table_boundary()) <= u128::from(self.place(at))
                && self.end_of(at) <= u128::from(self.header.wall))
    }

    /// Whether no record that stands lower below the wall has a greater class.
    fn is_in_order(&self, at: usize) -> bool
        ensures { IsTrue result ↔ (IsTrue (is_below_wall (placed self.now) (nth (placed self.now) at))
            → (h : ℕ) → h < length self.now.records.items
            → IsTrue (is_below_wall (placed self.now) (nth (placed self.now) h))
            → (nth (placed self.now) h).place < (nth (placed self.now) at).place
            → class_of (nth (placed self.now) h).size ≤ class_of (nth (placed self.now) at).size) }
    {
        !self.is_below_wall(at) || self.is_above_lesser(at)
    }

    /// Whether each record that stands lower below the wall has a class that is not greater.
    fn is_above_lesser(&self, at: usize) -> bool
        ensures { IsTrue result ↔ ((h : ℕ) → h < length self.now.records.items
            → IsTrue (is_below_wall (placed self.now) (nth (placed self.now) h))
            → (nth (placed self.now) h).place < (nth (placed self.now) at).place
            → class_of (nth (placed self.now) h).size ≤ class_of (nth (placed self.now) at).size) }
    {
        'records: for h in 0..self.records.len() {
            if self.is_below_wall(h)
                && self.place(h) < self.place(at)
                && self.class(at) < self.class(h)
            {
                return false;
            }
        }
        true
    }

    /// Whether packing a record and those above it would leave no gap to the wall, or a wide one.
    fn gap_is_wide(&self, at: usize) -> bool
        ensures { IsTrue result ↔ (IsTrue (is_below_wall (placed self.now) (nth (placed self.now) at))
            → (packed_end (placed self.now) (nth (placed self.now) at) ≡ self.now.header.wall)
            ⊎ (packed_end (placed self.now) (nth (placed self.now) at) + self.now.header.slack
            ≤ self.now.header.wall)) }
    {
        !self.is_below_wall(at)
            || self.packed_end(at) == u128::from(self.header.wall)
            || self.packed_end(at) + u128::from(self.header.slack) <= u128::from(self.header.wall)
    }

    /// Where packing would leave the wall, if a record and those above it were packed as they stand.
    fn packed_end(&self, at: usize) -> u128
        ensures place { result ≡ packed_end (placed self.now) (nth (placed self.now) at) }
        ensures small { result < 2 ^ 127 + 2 ^ 65 }
    {
        self.end_of(at) + self.sizes_above(self.place(at))
    }

    /// The sizes together of the suffix records below the wall that stand above a place.
    #[tactic(auto, using(table_rules::proofs::TableLaws::size_sum_more))]
    fn sizes_above(&self, place: u64) -> u128
        ensures sum { result ≡ sizes_above (placed self.now) place }
        ensures small { result < 2 ^ 127 }
    {
        let mut bytes = 0;
        'records: for at in 0..self.records.len() {
            if self.is_below_wall(at) && place < self.place(at) {
                bytes += u128::from(self.size(at));
            }
        }
        bytes
    }
}
