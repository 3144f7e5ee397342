//! Laws of what a crash may leave of a desk, as contracts of functions that do nothing.
ghost use Rattle.std.specs.Prelude.{ℕ, List};
ghost use Rattle.store_model.specs.States.{Limits};
ghost use Rattle.desk_model.specs.{Answers.{Answer}, Desks.{Desk, Plays}, Events.{Event}};
ghost use Rattle.desk_core.specs.Images.{Checkpoint, IsDeskImage, IsMadeImage};

/// What is left in a run of a desk opens to the checkpoint that was settled at first, to that of a flush that
/// was in hand at first, or to what stood after a request that was answered `ok kept` or began a flush.
pub fn a_desk_leaves_what_was_asked_for()
    ensures { (classes : ℕ) (k : Checkpoint) (limits : Limits) (d : Desk) (es : List Event)
        (answers : List Answer) (ds : List Desk) (image : List ℕ) → Plays limits d es answers ds
        → IsDeskImage classes k d ds image → IsMadeImage classes k d answers ds image }
{}
