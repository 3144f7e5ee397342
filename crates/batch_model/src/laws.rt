//! What holds of batches and of maps that keep one, as contracts of functions that do nothing.
ghost use Rattle.std.specs.Prelude.{◌≡◌, ◌≤◌, ◌+◌, ℕ, Bool, true, false, List, [], ◌∷◌, ◌++◌, codes, Some, None};
ghost use Rattle.std.specs.FinMap as fin;
ghost use Rattle.std.specs.List.{AllByRecursion};
ghost use Rattle.map_model.specs.{Maps.{Map}, Requests.{Change, changed}};
ghost use Rattle.batch_model.specs.{Batches.{IsBatch, IsPart, Rises, applied, batch_name, batch_text}, Fits.{counted_misfit, made, misfit}, Views.{IsView, unbatched}};

/// A text is one batch at most, and a map has one view.
pub fn a_map_has_one_view()
    ensures batch { (text : List ℕ) (a b : List Change) → IsBatch text a → IsBatch text b → a ≡ b }
    ensures view { (m v w : Map) → IsView m v → IsView m w → v ≡ w }
{}

/// A batch is seen at once: with its text in the map, the view is that after all its changes however
/// many of them were done; and once the text is gone as well, the map is its own view.
pub fn a_batch_is_seen_at_once()
    ensures kept { (text : List ℕ) (done left : List Change) (m : Map) → IsBatch text (done ++ left)
        → fin.get m batch_name ≡ None
        → IsView (fin.insert (applied done m) batch_name text) (applied (done ++ left) m) }
    ensures gone { (changes : List Change) (m : Map) → AllByRecursion IsPart changes
        → fin.get m batch_name ≡ None → IsView (applied changes m) (applied changes m) }
    ensures bare { (m : Map) → fin.get m batch_name ≡ None → IsView m m }
{}

/// A batch that fits a map fits again whatever of it was done to the map.
pub fn a_batch_that_was_begun_fits()
    ensures { (cap : ℕ) (m : Map) (done left : List Change) → Rises (done ++ left)
        → misfit false cap m (done ++ left) ≡ None
        → misfit true cap (applied done m) (done ++ left) ≡ None }
{}

/// Whether a batch fits is known from the left, by which of its names are live and by a count.
pub fn a_batch_fits_by_its_count()
    ensures { (again : Bool) (cap : ℕ) (m : Map) (changes : List Change) → Rises changes
        → counted_misfit again cap (λ name. fin.contains_key m name) (fin.len m) changes
        ≡ misfit again cap m changes }
{}

/// A batch makes at most as many requests as there are names before it and after it.
pub fn a_batch_makes_few_requests()
    ensures { (changes : List Change) (m : Map) → Rises changes
        → made changes m ≤ fin.len m + fin.len (applied changes m) }
{}

/// A change of a map that keeps a batch is one of the map beside it.
pub fn a_batch_is_kept_beside_the_map()
    ensures again { (m : Map) (text : List ℕ) → fin.get m batch_name ≡ Some text
        → fin.insert (unbatched m) batch_name text ≡ m }
    ensures changed { (m : Map) (text : List ℕ) (c : Change) → IsPart c
        → changed c (fin.insert m batch_name text) ≡ fin.insert (changed c m) batch_name text }
{}

/// Worked fits, with room for 16 names: no change fits a map that has 16, of two new names beside 14 the
/// second doesn't, and a removal of what isn't there only where the batch is done again.
pub fn worked_fits()
    ensures full { counted_misfit false 16 (λ name. true) 16
        (record { name = codes "a"; object = None } ∷ []) ≡ Some 1 }
    ensures second { counted_misfit false 16 (λ name. false) 14
        (record { name = codes "a"; object = Some [] } ∷ record { name = codes "b"; object = Some [] } ∷ [])
        ≡ Some 2 }
    ensures missing { counted_misfit false 16 (λ name. false) 3
        (record { name = codes "x"; object = None } ∷ []) ≡ Some 1 }
    ensures again { counted_misfit true 16 (λ name. false) 3
        (record { name = codes "x"; object = None } ∷ []) ≡ None }
    ensures empty { counted_misfit false 16 (λ name. true) 16 [] ≡ None }
{}
