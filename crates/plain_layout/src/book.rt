//! The numbers of a book, and what charging does to them.
ghost use Rattle.std.specs.Prelude.{◌≡◌, ◌≤◌, ◌<◌, ◌^◌, ◌*◌, slice_index, is_some, ◌+◌, IsTrue, IfSome};
ghost use Rattle.plain_layout.specs.Changes.{after_one, finds_last};
ghost use Rattle.segment_layout.specs.{Books.{charge_all, is_quiet, trigger}, Shapes.{buffer_for, buffer_of, end_of, has_room, taken_in}};
ghost use Rattle.size_class.specs.Classes.{cell, class_of};

use crate::class_of;
use crate::table::sum_of;

/// The numbers of a book, in bytes.
#[derive(Clone, Copy, Debug, PartialEq, Eq)]
pub struct Book {
    /// The divisor of the buffers, at least 1.
    pub k: u64,
    /// The payload capacity of each class.
    pub caps: [u64; 32],
    /// What the entries of class c have taken of buffer j, at `used[j][c]`.
    pub used: [[u64; 32]; 32],
}

/// What charging items in turn found.
#[derive(Clone, Copy, Debug, PartialEq, Eq)]
pub struct Charged {
    /// Each item found room.
    pub quiet: bool,
    /// The least class of the items that found none, or 31.
    pub trigger: u8,
    /// The last item found room.
    pub found_last: bool,
}

impl Book {
    /// Where the layout ends.
    #[tactic(auto, using(segment_layout::proofs::StepLaws::start_more))]
    pub fn end(&self) -> u128
        requires divisor { 1 ≤ self.now.k }
        ensures { result ≡ end_of self.now.k self.now.caps }
    {
        let mut end = 0;
        'classes: for cap in &self.caps {
            end += u128::from(*cap) + u128::from(*cap / self.k);
        }
        end
    }

    /// The capacity of a buffer, or 0 from class 32 on.
    pub fn buffer(&self, j: u8) -> u64
        requires divisor { 1 ≤ self.now.k }
        ensures { result ≡ buffer_of self.now.k (slice_index self.now.caps j) }
    {
        match self.caps.get(usize::from(j)) {
            Some(cap) => *cap / self.k,
            None => 0,
        }
    }

    /// How many bytes of a buffer are taken.
    pub fn taken(&self, j: u8) -> u128
        ensures sum { result ≡ taken_in self.now.used j }
        ensures small { result < 2 ^ 127 }
    {
        match self.used.get(usize::from(j)) {
            Some(row) => sum_of(row),
            None => 0,
        }
    }

    /// Whether a buffer has room for a size.
    pub fn has_room(&self, j: u8, size: u64) -> bool
        requires divisor { 1 ≤ self.now.k }
        ensures room { result ≡ has_room self.now.k self.now.caps self.now.used size j }
        ensures small { IsTrue result → taken_in self.now.used j + size < 2 ^ 64 }
    {
        self.taken(j) + u128::from(size) <= u128::from(self.buffer(j))
    }

    /// The first buffer from a size's class on that has room for it.
    pub fn buffer_for(&self, size: u64) -> Option<u8>
        requires divisor { 1 ≤ self.now.k }
        ensures buffer { result ≡ buffer_for self.now.k self.now.caps self.now.used (class_of size) size }
        ensures within { IfSome result (λ j. j < 32) }
        ensures small { IfSome result (λ j. taken_in self.now.used j + size < 2 ^ 64) }
    {
        'buffers: for j in 0..32u8 {
            if class_of(size) <= j && self.has_room(j, size) {
                return Some(j);
            }
        }
        None
    }

    /// Charges an item to the first buffer that has room for it, and says whether one has.
    pub fn charge(&mut self, size: u64) -> bool
        requires divisor { 1 ≤ self.old.k }
        ensures found { result ≡ is_some (buffer_for self.old.k self.old.caps self.old.used (class_of size)
            size) }
        ensures used { self.new.used ≡ after_one self.old.k self.old.caps self.old.used size }
        ensures divisor { self.new.k ≡ self.old.k }
        ensures caps { self.new.caps ≡ self.old.caps }
    {
        match self.buffer_for(size) {
            Some(j) => {
                let row = &mut self.used[usize::from(j)];
                row[usize::from(class_of(size))] += size;
                true
            }
            None => false,
        }
    }

    /// Charges items in turn.
    #[tactic(auto, using(crate::proofs::ChargeSteps::charged_next, crate::proofs::ChargeSteps::grid_next, crate::proofs::ChargeSteps::last_next))]
    pub fn charge_all(&mut self, items: &[u64]) -> Charged
        requires divisor { 1 ≤ self.old.k }
        ensures quiet { result.quiet ≡ is_quiet
            (charge_all self.old.k self.old.caps self.old.used items.now) }
        ensures trigger { result.trigger ≡ trigger
            (charge_all self.old.k self.old.caps self.old.used items.now) }
        ensures small { result.trigger < 32 }
        ensures last { result.found_last ≡ finds_last
            (charge_all self.old.k self.old.caps self.old.used items.now) }
        ensures used { self.new.used ≡ (charge_all self.old.k self.old.caps self.old.used items.now).grid }
        ensures divisor { self.new.k ≡ self.old.k }
        ensures caps { self.new.caps ≡ self.old.caps }
    {
        let mut quiet = true;
        let mut trigger = 31;
        let mut found_last = false;
        'items: for item in items {
            found_last = self.charge(*item);
            if !found_last {
                quiet = false;
                trigger = class_of(*item).min(trigger);
            }
        }
        Charged {
            quiet,
            trigger,
            found_last,
        }
    }
}
