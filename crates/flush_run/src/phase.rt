//! The three phases of a flush as one value, and what comes behind each.
ghost use Rattle.std.specs.Prelude.{◌≡◌, IfSome, IsNone};
ghost use Rattle.flush_model.specs.Plans.{relocated};
ghost use Rattle.flush_run.specs.{HandsOn.{HandsOn}, Phases.{AtEnd, IsOver, KeepsIn, StepIn, course_in, items_in, phase_in, rank_of, saving_in}, Shelved.{shelf_of}};

use crate::shelf::TableShelf;
use extent_table::Table;
use flush_model::{Move, Numbers};
use flush_plan::{Laying, Lifting, Packing, Settled};

/// A flush between two of its moves.
#[derive(Drop)]
pub enum Phase<const C: usize> {
    Lift(Lifting<C>),
    Pack(Packing<C>),
    Lay(Laying<C>),
}

/// What comes behind a phase: the next one, or the end of the flush.
#[derive(Drop)]
pub(crate) enum Onward<const C: usize> {
    Next(Phase<C>),
    End(Settled<C>),
}

impl<const C: usize> Phase<C> {
    /// The next move of the phase, which counts as done; None at the phase's end.
    pub(crate) fn next(&mut self, table: &Table) -> Option<Move>
        requires over { IsOver self.old (items_in self.old table.now) (shelf_of table.now) }
        ensures course { course_in self.new ≡ course_in self.old }
        ensures rank { rank_of self.new ≡ rank_of self.old }
        ensures step { IfSome result (λ mv. StepIn self.old (phase_in self.old table.now) mv) }
        ensures keeps { IfSome result (λ mv. KeepsIn self.new
            (relocated mv.key mv.to (items_in self.old table.now))) }
        ensures same { IsNone result → self.new ≡ self.old }
        ensures end { IsNone result → AtEnd self.old (phase_in self.old table.now) }
    {
        match self {
            Phase::Lift(lifts) => lifts.next(&TableShelf(table)),
            Phase::Pack(packs) => packs.next(&TableShelf(table)),
            Phase::Lay(lays) => lays.next(&TableShelf(table)),
        }
    }

    /// The numbers of the moving table that is saved where a target is held; none in Lift, whose targets
    /// lie behind all that is held.
    pub(crate) fn saving(&self) -> Option<Numbers>
        ensures { result ≡ saving_in self.now }
    {
        match self {
            Phase::Lift(_) => None,
            Phase::Pack(packs) => Some(packs.numbers()),
            Phase::Lay(lays) => Some(lays.numbers()),
        }
    }

    /// Goes on behind the phase, at its end.
    pub(crate) fn onward(&self, table: &Table) -> Onward<C>
        requires over { IsOver self.now (items_in self.now table.now) (shelf_of table.now) }
        requires end { AtEnd self.now (phase_in self.now table.now) }
        ensures { HandsOn self.now result table.now }
    {
        let shelf = TableShelf(table);
        match self {
            Phase::Lift(lifts) => Onward::Next(Phase::Pack(lifts.copied().into_packing(&shelf))),
            Phase::Pack(packs) => Onward::Next(Phase::Lay(packs.copied().into_laying(&shelf))),
            Phase::Lay(lays) => Onward::End(lays.copied().into_settled(&shelf)),
        }
    }
}
