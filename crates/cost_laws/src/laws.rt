//! Laws of books and their costs, as contracts of functions that do nothing.
ghost use Rattle.std.specs.Prelude.{◌≡◌, ◌≤◌, ◌<◌, ◌+◌, ◌*◌, ℕ, List, true};
ghost use Rattle.std.specs.FinMap as fin;
ghost use Rattle.size_class.specs.Classes.{width, zero_row, zero_grid, IsGrid};
ghost use Rattle.map_model.specs.{Maps.{Map}, Requests.{Change, changed}};
ghost use Rattle.segment_layout.specs.{Shapes.{boundary_of, taken_in}, Books.{Book, empty_book, next_book}, Balance.{IsFilled}};
ghost use Rattle.move_cost.specs.Costs.{IsCost, factor, rate, weigh, potential};
ghost use Rattle.cost_laws.specs.{Asked.{asked_row}, Cells.{HasNoneFrom, NoCellFalls}, Sessions.{Account, IsPaidFor, after_change, gone_back, kept, opened}, Moves.{MovesNext, next_grid, rise}, Buffers.{PassedOver}, Paid.{IsWeighed, ArePaid, AsksNext, IsPaid}};

/// A byte of a higher class weighs no more.
pub fn the_rate_falls()
    ensures { (C : ℕ) (cost : ℕ → ℕ) (c n : ℕ) → IsCost C cost → c + n < C
        → rate C cost (c + n) ≤ rate C cost c }
{}

/// Between the boundary and the trigger class, an entry of a class at most the buffer's own passed
/// over each buffer, and stands in a later one.
pub fn buffers_are_nearly_full()
    ensures { (k : ℕ) (caps : List ℕ) (grid : List (List ℕ)) (i m : ℕ) → IsFilled k caps grid
        → boundary_of grid i ≤ m → m < i → PassedOver k caps grid m }
{}

/// What a change moves is paid for by what it asks and by what the potential of the book falls: for
/// each cost, and for any moved bytes that are none where the change is quiet, and else none below the
/// boundary and at most twice the bytes that the map has of each class.
pub fn moves_are_paid_for()
    ensures by_rows { (C k : ℕ) (cost : ℕ → ℕ) (m : Map) (book : Book) (c : Change)
        → IsWeighed C k cost m book → (old new : List ℕ)
        → MovesNext (next_book k m book c) (changed c m) old new
        → ArePaid C k cost (rise old new) (asked_row m c) book.grid (next_grid k m book c) }
    ensures by_ledger { (C k : ℕ) (cost : ℕ → ℕ) (m : Map) (book : Book) (c : Change)
        → IsWeighed C k cost m book → (moved moved_then asked asked_then : List ℕ)
        → MovesNext (next_book k m book c) (changed c m) moved moved_then → AsksNext m c asked asked_then
        → ArePaid C k cost (rise moved moved_then) (rise asked asked_then) book.grid (next_grid k m book c) }
{}

/// A quiet change takes nothing out of a cell, and where no cell has less, no buffer has less and the
/// potential is no less: so going back to the last checkpoint does not raise it.
pub fn going_back_costs_nothing()
    ensures quiet { (k : ℕ) (m : Map) (book : Book) (c : Change) → IsGrid width book.grid
        → (next_book k m book c).quiet ≡ true → NoCellFalls book.grid (next_grid k m book c) }
    ensures rows { (old new : List (List ℕ)) → IsGrid width old → IsGrid width new → NoCellFalls old new
        → (j : ℕ) → j < width → taken_in old j ≤ taken_in new j }
    ensures potential { (C k : ℕ) (cost : ℕ → ℕ) (old new : List (List ℕ))
        → NoCellFalls old new → potential C cost k old ≤ potential C cost k new }
{}

/// The inequality adds up over a session: it holds as the session begins, each change keeps it, and so
/// does going back. A new store has no potential.
pub fn a_session_is_paid_for()
    ensures new { (C k : ℕ) (cost : ℕ → ℕ) → C ≤ width → IsCost C cost → 2 ≤ k → k ≤ 64
        → IsWeighed C k cost fin.empty empty_book }
    ensures none { (C k : ℕ) (cost : ℕ → ℕ) → potential C cost k zero_grid ≡ 0 }
    ensures first { (C k : ℕ) (cost : ℕ → ℕ) (grid : List (List ℕ))
        → IsPaid C k cost (potential C cost k grid) zero_row zero_row grid }
    ensures next { (C k : ℕ) (cost : ℕ → ℕ) (m : Map) (book : Book) (c : Change)
        → IsWeighed C k cost m book → (first : ℕ) (moved moved_then asked asked_then : List ℕ)
        → MovesNext (next_book k m book c) (changed c m) moved moved_then → AsksNext m c asked asked_then
        → IsPaid C k cost first moved asked book.grid
        → IsPaid C k cost first moved_then asked_then (next_grid k m book c) }
    ensures weighed { (C k : ℕ) (cost : ℕ → ℕ) (m : Map) (book : Book) (c : Change)
        → IsWeighed C k cost m book → HasNoneFrom C (next_grid k m book c)
        → IsWeighed C k cost (changed c m) (next_book k m book c).book }
    ensures back { (C k : ℕ) (cost : ℕ → ℕ) (first : ℕ) (moved asked : List ℕ)
        → (kept grid : List (List ℕ)) → NoCellFalls kept grid
        → IsPaid C k cost first moved asked grid → IsPaid C k cost first moved asked kept }
{}

/// The ledger of a store is paid for as a session begins, and after each request: a quiet change, a
/// flush, a keep, a back. So in all no more is moved than the factor times what is asked, and what the
/// potential was at first.
pub fn each_request_is_paid_for()
    ensures begins { (C k : ℕ) (cost : ℕ → ℕ) (m : Map) (book : Book) → IsWeighed C k cost m book
        → IsPaidFor C k cost (potential C cost k book.grid) (opened m book) }
    ensures keep { (C k : ℕ) (cost : ℕ → ℕ) (first : ℕ) (a : Account) → IsPaidFor C k cost first a
        → IsPaidFor C k cost first (kept a) }
    ensures back { (C k : ℕ) (cost : ℕ → ℕ) (first : ℕ) (a : Account) → IsPaidFor C k cost first a
        → IsPaidFor C k cost first (gone_back a) }
    ensures quiet { (C k : ℕ) (cost : ℕ → ℕ) (first : ℕ) (a : Account) → IsPaidFor C k cost first a
        → (c : Change) (moved asked : List ℕ) → HasNoneFrom C (next_grid k a.map a.book c)
        → MovesNext (next_book k a.map a.book c) (changed c a.map) a.moved moved
        → AsksNext a.map c a.asked asked → (next_book k a.map a.book c).quiet ≡ true
        → IsPaidFor C k cost first (after_change k c moved asked a) }
    ensures flush { (C k : ℕ) (cost : ℕ → ℕ) (first : ℕ) (a : Account) → IsPaidFor C k cost first a
        → (c : Change) (moved asked : List ℕ) → HasNoneFrom C (next_grid k a.map a.book c)
        → MovesNext (next_book k a.map a.book c) (changed c a.map) a.moved moved
        → AsksNext a.map c a.asked asked
        → IsPaidFor C k cost first (kept (after_change k c moved asked a)) }
    ensures in_all { (C k : ℕ) (cost : ℕ → ℕ) (first : ℕ) (a : Account) → IsPaidFor C k cost first a
        → weigh C cost a.moved ≤ factor k * weigh C cost a.asked + first }
{}
