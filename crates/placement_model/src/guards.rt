//! The space that a checkpoint holds though nothing stands there now.
ghost use Rattle.std.specs.Prelude.{◌≡◌, ℕ, false, ◌/◌, ◌<◌, ◌≤◌, List, [], length, Some, None, Contains};
ghost use Rattle.std.specs.FinMap as fin;
ghost use Rattle.extent_table.specs.{declared.spot.Spot.{Spot}, Extents.{Spots}};
ghost use Rattle.held_guard.specs.Freed.{Joins};
ghost use Rattle.span_math.specs.declared.span.Span.{Span};
ghost use Rattle.placement_model.specs.{Reads.{LiesApart}, Held.{IsFreed, IsSpanOf, is_at, is_freed}};

/// Each span of what was freed has the bytes of an object that was kept.
pub fn freed_space_was_kept()
    ensures { (spans : List Span) (now kept : Spots) (a : Span) → IsFreed spans now kept → Contains spans a
        → (name : List ℕ) × (s : Spot) × (fin.get kept name ≡ Some s) × IsSpanOf s a }
{}

/// What a guard holds follows a move, a set and a removal, with one span more where an object goes
/// from the space that was kept for it. A checkpoint and going back to one empty it.
pub fn a_guard_follows_the_spots()
    ensures moved_off { (spans joined : List Span) (now kept : Spots) (name : List ℕ) (s t : Spot) (a : Span)
        → fin.get now name ≡ Some s → fin.get kept name ≡ Some s → 0 < s.size
        → ((x : Spot) → fin.get kept name ≡ Some x → LiesApart t.place t.size x) → IsSpanOf s a
        → Joins a spans joined → IsFreed spans now kept → IsFreed joined (fin.insert now name t) kept }
    ensures moved { (spans : List Span) (now kept : Spots) (name : List ℕ) (s t : Spot)
        → fin.get now name ≡ Some s → ((x : Spot) → fin.get kept name ≡ Some x → is_at (Some s) x ≡ false)
        → ((x : Spot) → fin.get kept name ≡ Some x → LiesApart t.place t.size x) → IsFreed spans now kept
        → IsFreed spans (fin.insert now name t) kept }
    ensures new { (spans : List Span) (now kept : Spots) (name : List ℕ) (t : Spot) → fin.get now name ≡ None
        → ((x : Spot) → fin.get kept name ≡ Some x → LiesApart t.place t.size x) → IsFreed spans now kept
        → IsFreed spans (fin.insert now name t) kept }
    ensures gone_off { (spans : List Span) (now kept : Spots) (name : List ℕ) (joined : List Span)
        (s : Spot) (a : Span)
        → fin.get kept name ≡ Some s → fin.get now name ≡ Some s → 0 < s.size → IsSpanOf s a
        → Joins a spans joined → IsFreed spans now kept → IsFreed joined (fin.remove now name) kept }
    ensures gone { (spans : List Span) (now kept : Spots) (name : List ℕ)
        → ((s : Spot) → fin.get kept name ≡ Some s → 0 < s.size → is_at (fin.get now name) s ≡ false)
        → IsFreed spans now kept → IsFreed spans (fin.remove now name) kept }
    ensures checkpoint { (spots : Spots) → IsFreed [] spots spots }
    ensures few { (spans : List Span) (now kept : Spots) (name : List ℕ) (s : Spot) → IsFreed spans now kept
        → fin.get kept name ≡ Some s → is_freed now (name, s) ≡ false → length spans < fin.len kept }
    ensures most { (spans : List Span) (now kept : Spots) → IsFreed spans now kept
        → length spans ≤ fin.len kept }
{}
