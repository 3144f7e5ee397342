//! What the phases of a flush promise together.
ghost use Rattle.std.specs.Prelude.{◌≡◌, ℕ};
ghost use Rattle.flush_model.specs.{Phases.{PlanState}, Runs.{LaysOnce, LiftsOrPacksOnce, MovesFewBytes, NextIsOne}, LooseReach.{ReachIsLoose}, Worked.{numbers_of_eleven, numbers_of_three}};
ghost use Rattle.flush_model.specs.declared.item.Move.{Move as AnyMove};

/// Where the objects stand says which move is next.
pub fn the_next_move_is_one()
    ensures { (p : PlanState) (a b : AnyMove) → NextIsOne p a b }
{}

/// Lift and Pack together move each object at most once, and the pending one not at all; Lay moves
/// each at most once.
pub fn objects_move_twice_at_most()
    ensures lift_or_pack { LiftsOrPacksOnce }
    ensures lay { LaysOnce }
{}

/// The bytes that are done in a class are at most the class's.
pub fn few_bytes_are_moved()
    ensures { (p : PlanState) (c : ℕ) → MovesFewBytes p c }
{}

/// The reach of a flush lies within the loose bound, where both ends are tight.
pub fn the_reach_is_loose()
    ensures { ReachIsLoose }
{}

/// The numbers of two worked flushes.
pub fn worked_numbers()
    ensures three { numbers_of_three ≡ (record {
      boundary = 2;
      start = 0;
      wall = 239;
      slack = 112;
      reach = 254;
      end = 127;
    }) }
    ensures eleven { numbers_of_eleven ≡ (record {
      boundary = 6;
      start = 0;
      wall = 1423;
      slack = 201;
      reach = 1623;
      end = 1222;
    }) }
{}
