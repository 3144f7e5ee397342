//! Whether a put or a removal is served, and what it charges. Nothing changes yet.
ghost use Rattle.std.specs.Prelude.{◌≡◌, ◌<◌, ◌≤◌, ◌^◌, false, nat_le, None, Ok, Err};
ghost use Rattle.map_model.specs.Requests as ask;
ghost use Rattle.store_model.specs.Charges.{ChargesStore, quiet_place};

use crate::{Refusal, Store};
use extent_table::Spot;
use segment_layout::Layout;
use size_class::SIZE_MAX;
use slot_codec::Name;
use store_model::{ChargeResult, charge_change};

/// From this sequence on nothing is put or removed, and no checkpoint is saved.
const WORN_FROM: u64 = 1 << 61;

/// A quiet put: the layout after its charges, and where the new object stands.
#[derive(Drop)]
pub(crate) struct PutPlan<const C: usize> {
    pub(crate) layout: Layout<C>,
    pub(crate) spot: Spot,
}

/// What a change charges, tried on a copy of the layout: the layout then, and what came of it.
#[derive(Drop)]
pub(crate) struct Charged<const C: usize> {
    pub(crate) layout: Layout<C>,
    pub(crate) outcome: ChargeResult,
}

impl<const C: usize> Charged<C> {
    /// Where the object of a quiet change stands, 0 where none comes. None where a charge found no room.
    pub(crate) fn place(&self) -> Option<u64>
        ensures { result ≡ quiet_place self.now.outcome }
    {
        if self.outcome.gone {
            self.outcome.place
        } else {
            None
        }
    }
}

impl<const C: usize> Store<C> {
    ghost use Rattle.store_model.specs.{Answers.{refused_by}, Plans.{AcceptsName}};
    ghost use Rattle.store_model.specs.{Quiet.{del_of, put_of}, Stores.{IsStore}};

    /// Charges a change on a copy of the layout: the object that a name has, and a new one of `size` bytes,
    /// which is 0 where none comes.
    pub(crate) fn charge(&self, name: &Name, size: u64) -> Charged<C>
        requires whole { self.now.is_broken ≡ false }
        requires idle { self.now.in_hand ≡ None }
        requires small { size ≤ SIZE_MAX }
        ensures charges { ChargesStore self.now name.now size result.layout result.outcome }
        ensures sound { IsStore C self.now }
    {
        let hands = &*self.hands;
        let old = hands.table.get(name);
        let mut layout = hands.layout;
        let outcome = charge_change(&mut layout, old, size);
        Charged { layout, outcome }
    }

    /// Whether a put of these bytes under this name would be served: its name, or else the refusal that the put
    /// would answer. Nothing changes.
    pub fn accepts_put(&self, name: &[u8], bytes: &[u8]) -> Result<Name, Refusal>
        requires idle { self.now.in_hand ≡ None }
        ensures answer { AcceptsName (refused_by self.now (ask.change (put_of name.now bytes.now))) name.now
            result }
        ensures sound { self.now.is_broken ≡ false → self.now.in_hand ≡ None → IsStore C self.now }
    {
        let name = self.name_of(name)?;
        if bytes.len() as u64 > SIZE_MAX {
            return Err(Refusal::TooLong);
        }
        let hands = &*self.hands;
        if hands.table.get(&name).is_none() && !hands.table.room() {
            return Err(Refusal::Full);
        }
        self.unworn(name)
    }

    /// Whether a removal of this name would be served: the name, or else the refusal that the removal would
    /// answer. Nothing changes.
    pub fn accepts_del(&self, name: &[u8]) -> Result<Name, Refusal>
        requires idle { self.now.in_hand ≡ None }
        ensures answer { AcceptsName (refused_by self.now (ask.change (del_of name.now))) name.now result }
        ensures sound { self.now.is_broken ≡ false → self.now.in_hand ≡ None → IsStore C self.now }
    {
        let name = self.name_of(name)?;
        if self.hands.table.get(&name).is_none() {
            return Err(Refusal::Missing);
        }
        self.unworn(name)
    }

    /// Whether the sequence has come so far that nothing may change.
    pub(crate) fn is_worn(&self) -> bool
        ensures { result ≡ nat_le (2 ^ 61) self.now.in_use.sequence }
    {
        self.hands.slots.sequence() >= WORN_FROM
    }

    /// The name, unless the sequence has come so far that nothing may change.
    fn unworn(&self, name: Name) -> Result<Name, Refusal>
        ensures worn { 2 ^ 61 ≤ self.now.in_use.sequence → result ≡ Err Refusal.Worn }
        ensures fresh { self.now.in_use.sequence < 2 ^ 61 → result ≡ Ok name }
    {
        if self.is_worn() {
            return Err(Refusal::Worn);
        }
        Ok(name)
    }
}
