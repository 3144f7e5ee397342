//! What holds of the maps that a batch leaves, as contracts of functions that do nothing.
ghost use Rattle.std.specs.Prelude.{◌≡◌, ℕ, Bool, true, List, Some, None};
ghost use Rattle.std.specs.FinMap as fin;
ghost use Rattle.map_model.specs.Maps.{Map};
ghost use Rattle.batch_model.specs.{Batches.{IsBatch, applied, batch_name}, Fits.{misfit}, Views.{IsView, unbatched}};
ghost use Rattle.batch_core.specs.Doing.{Batch, IsBatchMap};

/// Each map that a batch leaves while it is done is viewed as the map after all its changes.
pub fn a_batch_is_viewed_as_done()
    ensures { (b : Batch) (m : Map) → IsBatch b.text b.changes → fin.get b.map batch_name ≡ None
        → IsBatchMap b m → IsView m (applied b.changes b.map) }
{}

/// What such a map keeps as a batch is that batch, and it fits where it did before, also where it was being
/// done again: a finish neither says that it is none nor that it doesn't fit.
pub fn a_batch_can_be_finished()
    ensures kept { (b : Batch) (m : Map) (text : List ℕ) → IsBatch b.text b.changes
        → fin.get b.map batch_name ≡ None → IsBatchMap b m → fin.get m batch_name ≡ Some text
        → IsBatch text b.changes }
    ensures fits { (again : Bool) (b : Batch) (m : Map) (text : List ℕ) (cap : ℕ) → IsBatch b.text b.changes
        → fin.get b.map batch_name ≡ None → misfit again cap b.map b.changes ≡ None → IsBatchMap b m
        → fin.get m batch_name ≡ Some text → misfit true cap (unbatched m) b.changes ≡ None }
{}
