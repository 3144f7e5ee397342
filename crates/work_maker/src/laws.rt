//! What holds of the list of a number.
ghost use Rattle.std.specs.Prelude.{◌≡◌, ◌+◌, ◌++◌, ◌∷◌, [], ℕ, length, take};
ghost use Rattle.map_model.specs.Requests as ask;
ghost use Rattle.work_maker.specs.Jobs.{counting_bytes, jobs};

/// A list has as many jobs as its count, and one more, which is a checkpoint.
#[tactic(auto, using(crate::proofs::ListLaws::how_many, crate::proofs::ListLaws::last_of))]
pub fn a_list_ends_with_a_checkpoint()
    ensures count { (number count names : ℕ) → length (jobs number count names) ≡ count + 1 }
    ensures last { (number count names : ℕ)
        → jobs number count names ≡ take count (jobs number count names) ++ ask.keep ∷ [] }
{}

/// An object has as many bytes as it is to have.
#[tactic(auto, using(crate::proofs::ListLaws::has_size))]
pub fn an_object_has_its_size()
    ensures { (first size : ℕ) → length (counting_bytes first size) ≡ size }
{}
