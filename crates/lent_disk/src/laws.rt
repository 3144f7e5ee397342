//! What follows of the calls of a log.
ghost use Rattle.std.specs.Prelude.{◌≡◌, ◌++◌, ◌≤◌, ℕ, List};
ghost use Rattle.disk_face.specs.Images.{IsImage};
ghost use Rattle.disk_history.specs.{Changes.{RecordedCall}, Histories.{History, EndedBy, LeftSince, MayLeave, file_of}};
ghost use Rattle.lent_disk.specs.{Calls.{FitEntries, replayed, text_of}, Notings.{IsLog}, Stops.{IsStopped, unsynced_on}, Words.{word_of}};

/// A text spells one list of calls, and a front of it that is a text spells the oldest of them.
pub fn a_text_spells_one_list_of_calls()
    ensures one { (a b : List RecordedCall) → FitEntries a → FitEntries b → text_of a ≡ text_of b → a ≡ b }
    ensures front { (a b : List RecordedCall) (more : List ℕ) → FitEntries a → FitEntries b
        → text_of b ≡ text_of a ++ more → (later : List RecordedCall) × (b ≡ later ++ a) }
{}

/// The calls that a log spells, made in order on what the file was as it was emptied, make the file as it is.
pub fn a_replay_makes_the_file()
    ensures { (start h : History) (text : List ℕ) (calls : List RecordedCall) → IsLog start h text
        → text ≡ text_of calls → FitEntries calls → file_of h ≡ replayed calls (file_of start) }
{}

/// Where that stops, before, within or after one of the calls, a crash leaves what the disk says may be left
/// since the log was emptied.
pub fn a_stopped_replay_leaves_an_image()
    ensures { (start h : History) (text : List ℕ) (calls : List RecordedCall) (image : List ℕ)
        → IsLog start h text → EndedBy h.turn h.calls → text ≡ text_of calls → FitEntries calls
        → IsStopped start calls image → LeftSince h start.turn image }
{}

/// Once all of them were made, a crash leaves only what the disk says may be left now.
pub fn a_made_log_leaves_what_the_disk_says()
    ensures { (start h : History) (text : List ℕ) (calls : List RecordedCall) (image : List ℕ)
        → IsLog start h text → text ≡ text_of calls → FitEntries calls
        → IsImage (unsynced_on start calls) image → MayLeave h image }
{}

/// No two histories have one word.
pub fn a_word_tells_a_history()
    ensures { (g h : History) → word_of g ≡ word_of h → g ≡ h }
{}
