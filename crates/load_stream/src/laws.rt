//! Laws of what a load answers and lays out, as contracts of functions that do nothing.
ghost use Rattle.std.specs.Prelude.{◌≡◌, ℕ, ◌<◌, ◌≤◌, ◌^◌, ◌++◌, ◌∷◌, [], List, None, Result, IsOk, length};
ghost use Rattle.std.specs.FinMap as fin;
ghost use Rattle.std.specs.FinSet as set;
ghost use Rattle.size_class.specs.{Classes.{IsRow, width, zero_grid}, declared.TheConstants.{CLASSES, SIZE_MAX}};
ghost use Rattle.map_model.specs.{Maps.{Map}, Weights.{Entry}};
ghost use Rattle.table_rules.specs.Tables.{book_of};
ghost use Rattle.extent_table.specs.Extents.{Spots};
ghost use Rattle.placement_model.specs.{Laid.{settled_table}, LaidOut.{IsLaidOut}};
ghost use Rattle.dump_stream.specs.{Dumps.{IsDumpOf}, Loading.{BeginsNone, MayFollow, filled_by}, Placing.{IsPlacing, spot_after}};
ghost use Rattle.load_stream.specs.{declared.fault.LoadFault.{LoadFault}, Loaded.{AnswersLoad, Judges, TellsFew, TellsTooMany}};

/// What a load says of an input is one thing: an input is a dump of which there is room for all names, or
/// has no first line in front, or one that tells of too many objects, or stops being a dump at one object. So
/// each refusal comes exactly where it is due, and no dump is refused for which there is room. Neither want
/// of memory nor the disk stands for a refusal of the first line.
pub fn an_input_has_one_answer()
    ensures once { (names : ℕ) (input : List ℕ) (a b : Result Unit LoadFault) → Judges a → Judges b
        → AnswersLoad names input a → AnswersLoad names input b → a ≡ b }
    ensures dump { (names : ℕ) (input : List ℕ) (m : Map) (a : Result Unit LoadFault) → Judges a
        → IsDumpOf CLASSES SIZE_MAX m input → fin.len m ≤ names → AnswersLoad names input a → IsOk a }
    ensures few { (names : ℕ) (input : List ℕ) → TellsFew names input → (BeginsNone CLASSES input → ⊥)
        × ((n : ℕ) → TellsTooMany names input n → ⊥) }
{}

/// Objects that may follow one another are put apart, and once each segment is filled they are laid
/// out: the settled table is valid, its grid is empty, and no name is buffered.
pub fn objects_that_are_put_are_laid_out()
    ensures none { (size_max k : ℕ) (volumes : List ℕ) → length volumes ≡ width
        → IsPlacing size_max k volumes [] fin.empty }
    ensures more { (size_max k : ℕ) (volumes : List ℕ) → length volumes ≡ width → (es : List Entry)
        (spots : Spots) → IsPlacing size_max k volumes es spots → (e : Entry)
        → MayFollow size_max volumes es e → IsPlacing size_max k volumes (es ++ e ∷ [])
        (fin.insert spots e.0 (spot_after k volumes es (length e.1))) }
    ensures whole { (classes size_max k : ℕ) (volumes : List ℕ) (es : List Entry) (spots : Spots)
        → IsPlacing size_max k volumes es spots → classes ≤ width → size_max < 2 ^ classes
        → IsRow classes volumes → filled_by es ≡ volumes
        → IsLaidOut classes size_max k volumes zero_grid spots }
    ensures book { (classes size_max k : ℕ) (volumes : List ℕ) (es : List Entry) (spots : Spots)
        → IsPlacing size_max k volumes es spots → classes ≤ width → size_max < 2 ^ classes
        → IsRow classes volumes → filled_by es ≡ volumes
        → book_of (settled_table classes size_max k volumes zero_grid spots)
        ≡ (record { caps = volumes; grid = zero_grid; buffered = set.empty; digests = None }) }
{}
