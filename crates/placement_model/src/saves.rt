//! How many saves a flush makes.
ghost use Rattle.std.specs.Prelude.{◌≡◌, ℕ, ◌+◌, ◌*◌, ◌/◌, ◌<◌, ◌≤◌, List, Some, Contains};
ghost use Rattle.std.specs.FinMap as fin;
ghost use Rattle.extent_table.specs.{declared.spot.Spot.{Spot}, Extents.{Spots}};
ghost use Rattle.span_math.specs.{Spans.{SharesByte}, declared.span.Span.{Span}};
ghost use Rattle.placement_model.specs.{SaveCounts.{AreAside, LayCount, Meets, PackCount, SlackCoversSave}, Held.{IsFreed}};

/// To pack its objects a flush makes fewer than k saves.
pub fn packing_makes_few_saves()
    ensures touch { (spans : List Span) (now kept : Spots) (a target : Span) → IsFreed spans now kept
        → Contains spans a → SharesByte a target → Meets kept target.place target.size }
    ensures pay { (k total : ℕ) → 1 ≤ k → total < k * (total / k + 1) }
    ensures start { (pay slack wall total old_end : ℕ) (kept : Spots)
        → ((name : List ℕ) (s : Spot) → fin.get kept name ≡ Some s → s.place + s.size ≤ old_end)
        → old_end + slack ≤ wall → PackCount pay slack wall total kept wall 0 }
    ensures moves { (pay slack wall total : ℕ) (kept : Spots) (top saves to : ℕ)
        → PackCount pay slack wall total kept top saves → to ≤ top
        → PackCount pay slack wall total kept to saves }
    ensures pays { (pay slack largest wall total : ℕ) (kept after : Spots) (top saves from to w : ℕ)
        → SlackCoversSave pay slack largest → PackCount pay slack wall total kept top saves → Meets kept to w
        → to + w ≤ top → w ≤ largest → from + slack ≤ to → wall ≤ to + w + total
        → AreAside after (from + w) (to + w) → PackCount pay slack wall total after (to + w) (saves + 1) }
    ensures ends { (pay slack wall total k : ℕ) (kept : Spots) (top saves : ℕ)
        → PackCount pay slack wall total kept top saves → total < k * pay → saves < k }
{}

/// To lay them out it makes at most k, and one more ends it.
pub fn laying_makes_few_saves()
    ensures start { (pay start : ℕ) (kept : Spots) (next front : ℕ)
        → LayCount pay start kept next front 0 }
    ensures moves { (pay start : ℕ) (kept : Spots) (next front saves next' front' : ℕ)
        → LayCount pay start kept next front saves → next ≤ next' → front ≤ front'
        → LayCount pay start kept next' front' saves }
    ensures pays { (pay slack largest start : ℕ) (kept after : Spots) (next front saves to w : ℕ)
        → SlackCoversSave pay slack largest → LayCount pay start kept next front saves → Meets kept to w
        → next ≤ to
        → w ≤ largest → to + slack ≤ front → start ≤ front → AreAside after to front
        → LayCount pay start after to front (saves + 1) }
    ensures ends { (pay start total k : ℕ) (kept : Spots) (next front saves : ℕ)
        → LayCount pay start kept next front saves → front ≤ start + total → total < k * pay → saves ≤ k }
    ensures all { (k pack lay : ℕ) → pack < k → lay ≤ k → pack + lay + 1 ≤ 2 * k }
{}
