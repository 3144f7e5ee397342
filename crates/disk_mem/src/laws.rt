//! What a turn leaves, and how it is built.
ghost use Rattle.std.specs.Prelude.{◌≡◌, List, ℕ, ◌≤◌};
ghost use Rattle.disk_history.specs.{Histories.{History, EndedBy, LeftSince}, Changes.{Stamped, content_after, unsynced_after}};
ghost use Rattle.disk_mem.specs.{Turns.{LeftAt, torn}, Tearing.{smeared_after, up_to_sync, since_sync}};

/// What was left at a moment of a turn was left since that turn.
pub fn what_is_left_at_a_turn_is_left_since()
    ensures { (h : History) (t : ℕ) (image : List ℕ) → EndedBy h.turn h.calls → t ≤ h.turn → LeftAt h t image
        → LeftSince h t image }
{}

/// A torn image is what the last sync left, smeared by the calls since.
pub fn a_torn_image_is_smeared()
    ensures { (b : ℕ) (base : List ℕ) (calls : List Stamped)
        → torn b (unsynced_after base calls) (content_after base calls)
        ≡ smeared_after b (content_after base (up_to_sync calls)) (since_sync calls) }
{}
