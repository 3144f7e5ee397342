//! What the calls of a store move is paid for, as contracts of functions that do nothing.
ghost use Rattle.std.specs.Prelude.{◌≡◌, ℕ, ◌+◌, ◌*◌, ◌^◌, ◌≤◌, List, Result, IsSome};
ghost use Rattle.map_model.specs.Requests as ask;
ghost use Rattle.map_model.specs.Requests.{Change};
ghost use Rattle.slot_pair.specs.Formats.{HasFirstTable};
ghost use Rattle.move_cost.specs.Costs.{IsCost, factor, potential, weigh};
ghost use Rattle.cost_laws.specs.{Cells.{NoCellFalls}, Paid.{IsWeighed}, Sessions.{IsPaidFor}};
ghost use Rattle.store_model.specs.{declared.answers.Refusal.{Refusal}, declared.answers.Done.{Done}, Answers.{refused_by}, Changing.{IsChange}, Keeps.{now_map}};
ghost use Rattle.store_model.specs.{Connection.{IsOver, StoreValue, kept_map}, Opened.{IsFresh, IsOpened}, Stores.{IsStore}};
ghost use Rattle.store_costs.specs.{Calls.{IsCall, IsCounted, Session, gone_back}, Paid.{HasPaid, MovesNothing, StepIsPaidFor, account_of}};
ghost use Rattle.store_model.specs.Keeps.{IsKeep};

use disk_face::Disk;

/// Each cost by class weighs the book of a store over its file, and that of its checkpoint, from which
/// no buffer has lost a byte of any class.
pub fn a_store_is_weighed()
    ensures now { (C : ℕ) (cost : ℕ → ℕ) (s : StoreValue) (file : List ℕ) → IsCost C cost → IsStore C s
        → IsOver C s file → IsWeighed C s.in_use.block.k cost (now_map s file) s.book }
    ensures kept { (C : ℕ) (cost : ℕ → ℕ) (s : StoreValue) (file : List ℕ) → IsCost C cost → IsStore C s
        → IsOver C s file → IsWeighed C s.in_use.block.k cost (kept_map s file) s.kept_book }
    ensures rises { (C : ℕ) (s : StoreValue) → IsStore C s → NoCellFalls s.kept_book.grid s.book.grid }
{}

/// What a put or a removal moves is paid for by what it asks for and by what the potential falls, on any
/// disk, unless it answers that the disk failed.
pub fn a_put_is_paid_for<D: Disk>()
    ensures paid { (C : ℕ) (cost : ℕ → ℕ) (c : Change) (old new : StoreValue) (before now : D)
        (result : Result Done Refusal) → IsCost C cost
        → IsCounted C c old new (D.state before) (D.state now) result → StepIsPaidFor C cost old new }
{}

/// A keep moves nothing and asks for nothing, and the book stays, whether the disk fails or not; so it is
/// of a put or a removal that is refused. Going back doesn't raise the potential.
pub fn other_calls_move_nothing<D: Disk>()
    ensures keep { (C : ℕ) (old new : StoreValue) (before now : D) (result : Result Done Refusal)
        → IsKeep C old new (D.state before) (D.state now) result → MovesNothing old new }
    ensures refused { (C : ℕ) (c : Change) (old new : StoreValue) (before now : D)
        (result : Result Done Refusal)
        → IsChange C c old new (D.state before) (D.state now) result
        → IsSome (refused_by old (ask.change c)) → MovesNothing old new }
    ensures nothing { (C : ℕ) (cost : ℕ → ℕ) (old new : StoreValue) → MovesNothing old new
        → StepIsPaidFor C cost old new }
    ensures less { (C : ℕ) (cost : ℕ → ℕ) (s : StoreValue) → IsStore C s
        → potential C cost s.in_use.block.k s.kept_book.grid
        ≤ potential C cost s.in_use.block.k s.book.grid }
    ensures back { (C : ℕ) (cost : ℕ → ℕ) (s : StoreValue) → IsStore C s
        → StepIsPaidFor C cost s (gone_back s) }
{}

/// What a store moved is paid for as it is opened, and after each of its calls, so at any time in a
/// session. So in all no more is moved than the factor times what is asked for, and the potential at
/// first; a newly formatted file begins with none. A later session begins with the book of the last
/// checkpoint, so what sessions move adds up.
pub fn a_session_of_a_store_is_paid_for<D: Disk>()
    ensures opens { (C : ℕ) (cost : ℕ → ℕ) (s : StoreValue) → IsFresh C s
        → HasPaid C cost (potential C cost s.in_use.block.k s.book.grid) s }
    ensures new { (C : ℕ) (cost : ℕ → ℕ) (k names : ℕ) (s : StoreValue) (file now : List ℕ)
        → HasFirstTable k names file → IsFresh C s → IsOpened C file now s → HasPaid C cost 0 s }
    ensures call { (C : ℕ) (cost : ℕ → ℕ) (first : ℕ) (old new : StoreValue) → IsCost C cost
        → IsCall D.state C old new → HasPaid C cost first old → HasPaid C cost first new }
    ensures session { (C : ℕ) (cost : ℕ → ℕ) (s : StoreValue) (between : List StoreValue) (t : StoreValue)
        → IsCost C cost
        → IsFresh C s → Session D.state C s between t
        → HasPaid C cost (potential C cost s.in_use.block.k s.book.grid) t }
    ensures formatted { (C : ℕ) (cost : ℕ → ℕ) (k names : ℕ) (s : StoreValue) (file now : List ℕ)
        (between : List StoreValue) (t : StoreValue) → IsCost C cost → HasFirstTable k names file
        → IsFresh C s
        → IsOpened C file now s → Session D.state C s between t
        → weigh C cost t.moved ≤ factor t.in_use.block.k * weigh C cost t.asked }
    ensures books { (C : ℕ) (cost : ℕ → ℕ) (first : ℕ) (s : StoreValue) (file : List ℕ) → IsCost C cost
        → IsStore C s → IsOver C s file → HasPaid C cost first s
        → IsPaidFor C s.in_use.block.k cost first (account_of s file) }
    ensures in_all { (C : ℕ) (cost : ℕ → ℕ) (first : ℕ) (s : StoreValue) → HasPaid C cost first s
        → weigh C cost s.moved ≤ factor s.in_use.block.k * weigh C cost s.asked + first }
    ensures again { (C : ℕ) (s t : StoreValue) (file now : List ℕ) → IsOver C s file → IsOpened C file now t
        → t.book ≡ s.kept_book }
    ensures later { (C : ℕ) (cost : ℕ → ℕ) (first : ℕ) (s t : StoreValue) → IsStore C s
        → HasPaid C cost first s
        → t.in_use.block.k ≡ s.in_use.block.k
        → HasPaid C cost (potential C cost s.in_use.block.k s.kept_book.grid) t
        → weigh C cost s.moved + weigh C cost t.moved + potential C cost t.in_use.block.k t.book.grid
        ≤ factor s.in_use.block.k * (weigh C cost s.asked + weigh C cost t.asked) + first }
{}

/// A cost that triples from one class to the next is none, be there but two classes.
pub fn tables_that_are_no_costs()
    ensures tripling { (C : ℕ) (cost : ℕ → ℕ) → 2 ≤ C → cost 1 ≡ 3 * cost 0 → IsCost C cost → ⊥ }
    ensures powers { (C : ℕ) → 2 ≤ C → IsCost C (λ c. 3 ^ c) → ⊥ }
{}
