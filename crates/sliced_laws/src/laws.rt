//! What a begin and the steps of its flush come to, as contracts of functions that do nothing.
ghost use Rattle.std.specs.Prelude.{◌≡◌, ℕ, ◌+◌, ◌*◌, ◌≤◌, true, false, List, Some, Result, Ok, Err, IsTrue};
ghost use Rattle.map_model.specs.Requests as ask;
ghost use Rattle.map_model.specs.Requests.{Change};
ghost use Rattle.flush_run.specs.Calls.{IsOpenRow};
ghost use Rattle.store_model.specs.declared.answers.Begun.TheVariants as begun;
ghost use Rattle.store_model.specs.{declared.answers.Progress.{Progress}, declared.answers.Refusal.{Refusal}, Begins.{BeginsChange}, Changing.{IsChange}, Facts.{bytes_left_of, risen_by}, Flushes.{names_after}};
ghost use Rattle.store_model.specs.declared.answers.Progress.TheVariants as progress;
ghost use Rattle.store_model.specs.{Connection.{FlushInHand, StoreValue, limits_of, state_of}, States.{Step}};
ghost use Rattle.sliced_laws.specs.Sliced.{GoesThrough, IsSliced, Pass, Point, as_one_call, moves};

use disk_face::Disk;

/// A put or a removal that is begun, and whose flush is made by steps with reads between, comes to what one
/// call does, and to the same step of the state; so its saves, its calls and the bytes moved are bounded as
/// those of one call, and what it moves is paid for as there. It takes at most twice as many steps as there
/// are names after the change, and one.
pub fn a_flush_by_steps_comes_to_one_call<D: Disk>()
    ensures change { (C : ℕ) (c : Change) (old new : StoreValue) (before now : D)
        (result : Result Progress Refusal) → IsSliced D.state C c old new before now result
        → IsChange C c old new (D.state before) (D.state now) (as_one_call result) }
    ensures step { (C : ℕ) (c : Change) (old new : StoreValue) (before now : D)
        → IsSliced D.state C c old new before now (Ok progress.Settled) → IsTrue (D.state before).tells
        → Step (limits_of old) (state_of old (D.state before).file) (ask.change c) ask.kept
        (state_of new (D.state now).file) }
    ensures steps { (C : ℕ) (c : Change) (old new : StoreValue) (before now : D)
        (result : Result Progress Refusal) → (sliced : IsSliced D.state C c old new before now result)
        → moves sliced.passes + 1 ≤ 2 * names_after old c + 1 }
{}

/// From any moment of a flush in hand to a later one, with reads between its steps, the bytes that are left
/// to move fall by at least what the ledger gains, where no number of it stands at its last value. So what
/// is left bounds what the flush still moves.
pub fn a_flush_moves_at_most_what_is_left<D: Disk>()
    ensures { (C : ℕ) (h : FlushInHand) (a b : Point D) (passes : List (Pass D)) → a.store.in_hand ≡ Some h
        → GoesThrough D.state C a passes b → IsOpenRow b.store.moved
        → risen_by a.store.moved b.store.moved + bytes_left_of b.store ≤ bytes_left_of a.store }
{}

/// A begin that is refused, that finds its change quiet, or that the disk stopped is what one call is that
/// answers so.
pub fn a_begin_with_no_flush_comes_to_one_call<D: Disk>()
    ensures done { (C : ℕ) (c : Change) (old new : StoreValue) (before now : D)
        → BeginsChange C c old new (D.state before) (D.state now) (Ok begun.Done)
        → IsChange C c old new (D.state before) (D.state now) (Ok (record { kept = false })) }
    ensures refused { (C : ℕ) (c : Change) (old new : StoreValue) (before now : D) (why : Refusal)
        → BeginsChange C c old new (D.state before) (D.state now) (Err why)
        → IsChange C c old new (D.state before) (D.state now) (Err why) }
{}
