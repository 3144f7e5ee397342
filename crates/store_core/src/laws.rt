//! What holds of stores and of requests, as contracts of functions that do nothing.
ghost use Rattle.std.specs.Prelude.{◌≡◌, ℕ, ◌*◌, ◌<◌, ◌≤◌, ◌^◌, ◌∷◌, [], List, IfOk, IsTrue, None, Some, codes};
ghost use Rattle.std.specs.FinMap as fin;
ghost use Rattle.slot_codec.specs.Choice.{SlotTable as FoundTable};
ghost use Rattle.map_model.specs.{Maps.{Map}, Requests.{Change, Refused, Request}};
ghost use Rattle.map_model.specs.Requests as ask;
ghost use Rattle.segment_layout.specs.{Books.{Book, book_end, is_quiet, next_book}, Bounds.{Tight}, Layouts.{caps_of, divisor_of, grid_of}};
ghost use Rattle.slot_codec.specs.{Readable.{IsSuperBlock}, Reading.{is_version}};
ghost use Rattle.table_rules.specs.Rules.{IsValid};
ghost use Rattle.placement_model.specs.{Laid.{settled_table}, Reads.{AreNamed}};
ghost use Rattle.extent_table.specs.{declared.spot.Spot.{Spot}, Extents.{IsTable, digests_seen, volume_of}};
ghost use Rattle.store_model.specs.{Digested.{IsNarrowed}, Connection.{IsOver, StoreValue, SameOnTable, base_of, opened_store, state_of}, Opened.{IsFoundImage, IsOpened, SameOnFound, state_at}, Quiet.{charges_of}, Stores.{IsStore}, States.{Limits, State, Step, facts_of, refusal}};
ghost use Rattle.store_model.specs.{Above.{first_above, three_names}, Answers.{facts_at}, Facts.{widest_of}};

use crate::Store;
use crate::memory::{Memory, boxed, no_bytes, store_with, take_memory};
use extent_table::Table;
use flush_run::Hands;
use logged_pair::Slots;
use segment_layout::Layout;
use size_class::SIZE_MAX;
use slot_codec::{NoMemory, SuperBlock, cap, head_len};
use slot_pair::SlotPair;
use std::alloc::Global;

/// A refused request leaves the state, and what it is refused by depends on where the objects stand
/// and on the sequence alone.
pub fn a_refusal_leaves_the_state()
    ensures facts { (s : StoreValue) (file : List ℕ) (r : Request) → AreNamed s.now → AreNamed s.kept
        → facts_of (state_of s file) r ≡ facts_at s r }
    ensures step { (limits : Limits) (s : State) (r : Request) (why : Refused)
        → refusal limits (facts_of s r) r ≡ Some why → Step limits s r (ask.refused why) s }
{}

/// The live bytes are at most those of as many largest objects as there may be names.
pub fn a_store_has_few_bytes()
    ensures { (classes : ℕ) (s : StoreValue) → IsStore classes s
        → volume_of s.now ≤ s.in_use.block.names * SIZE_MAX }
{}

/// While a store isn't broken and no flush is in hand, no object has more bytes than the widest that its facts
/// tell, now or at the last checkpoint.
pub fn no_object_is_wider()
    ensures now { (classes : ℕ) (s : StoreValue) (name : List ℕ) (x : Spot) → IsStore classes s
        → fin.get s.now name ≡ Some x → x.size ≤ widest_of s.book.caps }
    ensures kept { (classes : ℕ) (s : StoreValue) (name : List ℕ) (x : Spot) → IsStore classes s
        → fin.get s.kept name ≡ Some x → x.size ≤ widest_of s.book.caps }
{}

/// The widest of a row of capacities is the greatest size of its last class that has one.
pub fn the_widest_of_rows()
    ensures none { widest_of (0 ∷ 0 ∷ []) ≡ 0 }
    ensures fourth { widest_of (0 ∷ 5 ∷ 0 ∷ 9 ∷ 0 ∷ []) ≡ 15 }
{}

/// What is found above some bytes, of the names `b`, `bb` and `d`: above none, a front of a name, a name, what
/// no name is, and the last name.
pub fn names_above_of_three()
    ensures none { first_above [] three_names ≡ Some (codes "b", 4) }
    ensures name { first_above (codes "b") three_names ≡ Some (codes "bb", 0) }
    ensures between { first_above (codes "c") three_names ≡ Some (codes "d", 7) }
    ensures last { first_above (codes "d") three_names ≡ None }
{}

/// Whether a put or a removal is quiet, which is known by where the objects stand and by their sizes,
/// is what the book says of the map.
pub fn a_quiet_change_is_one_by_the_book()
    ensures { (classes : ℕ) (s : StoreValue) (file : List ℕ) (c : Change) → IsStore classes s
        → IsOver classes s file → (next_book s.in_use.block.k (state_of s file).map s.book c).quiet
        ≡ is_quiet (charges_of s c) }
{}

/// Between requests the data part is within its bound, now and once the store goes back.
pub fn a_store_is_tight()
    ensures now { (classes : ℕ) (s : StoreValue) (file : List ℕ) → IsStore classes s → IsOver classes s file
        → Tight s.in_use.block.k (book_end s.in_use.block.k s.book) (state_of s file).map }
    ensures kept { (classes : ℕ) (s : StoreValue) (file : List ℕ) → IsStore classes s → IsOver classes s file
        → Tight s.in_use.block.k (book_end s.in_use.block.k s.kept_book) (state_of s file).kept }
{}

/// What an opening leaves where it is stopped opens to the same state again. A content is alike on each
/// table, so a disk that a crash leaves alone rests on the table that is found; and what is alike on the
/// table of a store is so on the one that is found.
pub fn a_stopped_opening_is_made_again()
    ensures state { (classes : ℕ) (t : FoundTable) (m : Map) (b : Book) (longest : ℕ) (image now : List ℕ)
        (s : StoreValue) → IsFoundImage classes t m b longest image → IsOpened classes image now s
        → state_of s now ≡ state_at m b s.in_use.sequence }
    ensures alone { (t : FoundTable) (file : List ℕ) → SameOnFound t file file }
    ensures store { (classes : ℕ) (s : StoreValue) (file image : List ℕ) → IsStore classes s
        → (over : IsOver classes s file) → SameOnTable (base_of s) s.kept file image
        → SameOnFound over.table file image }
{}

/// The store of a table of a version, 1 or 2, that was checked against its layout, where nothing has
/// changed since the checkpoint. It takes the memory that the store will ever have.
pub fn store_of<const C: usize>(
    alloc: Global,
    block: SuperBlock,
    slots: SlotPair,
    table: Table,
    layout: Layout<C>,
    version: u8,
) -> Result<Store<C>, NoMemory>
    requires classes { C ≤ 32 }
    requires wide { SIZE_MAX < 2 ^ C }
    requires block { IsSuperBlock block }
    requires slots { slots.block ≡ block }
    requires kept { table.now ≡ table.kept }
    requires room { table.names ≡ block.names }
    requires version { IsTrue (is_version version) × (version ≡ 2 → IsNarrowed block.names table) }
    requires divisor { divisor_of layout ≡ block.k }
    requires valid { IsValid (settled_table C SIZE_MAX block.k (caps_of layout) (grid_of layout) table.now) }
    ensures { IfOk result (λ store. store
        ≡ opened_store C slots table.now (digests_seen version table.digests) (caps_of layout.entry)
        (grid_of layout.entry)) }
{
    let layout = boxed(alloc, layout)?;
    store_in(alloc, block, slots, table, layout, version)
}

/// The store of a table that was checked against its layout, as `store_of` makes it, in the memory that the
/// layout has.
#[inline(never)]
pub(crate) fn store_in<const C: usize>(
    alloc: Global,
    block: SuperBlock,
    slots: SlotPair,
    table: Table,
    layout: Box<Layout<C>>,
    version: u8,
) -> Result<Store<C>, NoMemory>
    requires classes { C ≤ 32 }
    requires wide { SIZE_MAX < 2 ^ C }
    requires block { IsSuperBlock block }
    requires slots { slots.block ≡ block }
    requires kept { table.now ≡ table.kept }
    requires room { table.names ≡ block.names }
    requires version { IsTrue (is_version version) }
    requires narrowed { version ≡ 2 → IsNarrowed block.names table }
    requires divisor { divisor_of layout.value ≡ block.k }
    requires valid { IsValid (settled_table C SIZE_MAX block.k (caps_of layout.value) (grid_of layout.value)
        table.now) }
    ensures { IfOk result (λ store. store ≡ opened_store C slots table.now
        (digests_seen version table.digests) (caps_of layout.entry.value)
        (grid_of layout.entry.value)) }
{
    is_table(&table);
    let mut table = table;
    table.narrow(cap(block.names, version));
    let Memory { guard, buf } = take_memory(alloc, block.names)?;
    let hands = Hands {
        table,
        layout: *layout,
        guard,
        slots: Slots::Plain(slots),
        ledger: no_bytes(),
        buf,
        base: head_len(block.names),
        version,
    };
    let hands = boxed(alloc, hands)?;
    Ok(store_with(hands, layout))
}

/// What holds of each table.
fn is_table(table: &Table)
    ensures { IsTable table.now }
{
    let _ = table.count();
}
