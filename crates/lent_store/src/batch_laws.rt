//! What follows of the calls that a batch over a file in memory has noted.
ghost use Rattle.std.specs.Prelude.{◌≡◌, ◌<◌, ◌-◌, ◌^◌, ℕ, Bool, List, false, Result};
ghost use Rattle.batch_core.specs.{Answers.{Applies, Finishes, kept_text}, declared.fault.BatchFault.{BatchFault}};
ghost use Rattle.batch_model.specs.Batches.{IsBatch};
ghost use Rattle.size_class.specs.declared.TheConstants.{CLASSES};
ghost use Rattle.map_model.specs.Requests.{Change};
ghost use Rattle.lent_store.specs.{Batched.{IsBatchImage, batch_for, batch_kept, begun_on, ended_on}, Embedded.{Embedded}, Noted.{IsNoted, RestsOnKept, StopsAt}};

/// Where the calls that a batch noted are made in order on its file and that stops, before, within or after
/// one of them, a crash leaves what it might have left before the call, or what opens to the last checkpoint
/// or to a map of the batch: one that is viewed as the map after all its changes.
pub fn a_stopped_batch_opens()
    ensures apply { (text : List ℕ) (changes : List Change) (old new : Embedded)
        (result : Result Bool BatchFault) → Applies CLASSES text (begun_on old) (ended_on new) result
        → IsNoted old new → IsBatch text changes → RestsOnKept old
        → old.noting.history.turn < 2 ^ 64 - 1
        → StopsAt old new (IsBatchImage (batch_for old text changes) old) }
    ensures finish { (changes : List Change) (old new : Embedded) (result : Result Bool BatchFault)
        → Finishes CLASSES (begun_on old) (ended_on new) result → IsNoted old new
        → IsBatch (kept_text (begun_on old)) changes → RestsOnKept old
        → old.noting.history.turn < 2 ^ 64 - 1
        → StopsAt old new (IsBatchImage (batch_kept old changes) old) }
{}

/// A store that rests on its checkpoint rests on it after each batch, and each finish of one, by which it
/// isn't broken.
pub fn a_store_rests_after_a_batch()
    ensures apply { (text : List ℕ) (old new : Embedded) (result : Result Bool BatchFault)
        → Applies CLASSES text (begun_on old) (ended_on new) result → new.store.is_broken ≡ false
        → RestsOnKept old → RestsOnKept new }
    ensures finish { (old new : Embedded) (result : Result Bool BatchFault)
        → Finishes CLASSES (begun_on old) (ended_on new) result → new.store.is_broken ≡ false
        → RestsOnKept old → RestsOnKept new }
{}
