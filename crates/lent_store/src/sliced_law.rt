//! What a begin and the steps of its flush come to, over a file in memory.
ghost use Rattle.std.specs.Prelude.{◌+◌, ◌*◌, ◌≤◌, length, Result};
ghost use Rattle.size_class.specs.declared.TheConstants.{CLASSES};
ghost use Rattle.map_model.specs.Requests.{Change};
ghost use Rattle.store_model.specs.{declared.answers.Progress.{Progress}, declared.answers.Refusal.{Refusal}, Changing.{IsChange}, Flushes.{names_after}};
ghost use Rattle.sliced_laws.specs.Sliced.{as_one_call};
ghost use Rattle.lent_store.specs.{Embedded.{Embedded}, Sliced.{IsMadeBySteps, file_state}};

/// A put or a removal that is begun, and whose flush is made by steps, comes to what one call does; so its
/// saves, its calls and the bytes moved are bounded as those of one call. It takes at most twice as many
/// steps as there are names after the change, and one. Reads may come between: they change nothing.
pub fn a_begin_and_its_steps_come_to_one_call()
    ensures change { (c : Change) (old new : Embedded) (result : Result Progress Refusal)
        → IsMadeBySteps c old new result → IsChange CLASSES c old.store new.store (file_state old.noting)
        (file_state new.noting) (as_one_call result) }
    ensures steps { (c : Change) (old new : Embedded) (result : Result Progress Refusal)
        → (made : IsMadeBySteps c old new result) → length made.moved + 1 ≤ 2 * names_after old.store c + 1 }
{}
