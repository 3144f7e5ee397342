//! The rules of the tables that a layout makes of spots, after a change of one name.
ghost use Rattle.std.specs.Prelude.{◌≡◌, ◌⊎◌, ℕ, false, ◌+◌, ◌/◌, ◌<◌, ◌≤◌, List, length, slice_index, Some, None};
ghost use Rattle.std.specs.FinMap as fin;
ghost use Rattle.slot_codec.specs.{Names.{IsName}, declared.codec.Header.{Header}};
ghost use Rattle.extent_table.specs.{declared.spot.Spot.{Spot}, Extents.{Spots, record_of}};
ghost use Rattle.size_class.specs.Classes.{cell, class_of, row};
ghost use Rattle.segment_layout.specs.{Balance.{IsFilled}, Shapes.{buffer_for, buffer_of, start_of, taken_in, with_entry}};
ghost use Rattle.table_rules.specs.{Suffixes.{KeepsBelow}, Tables.{Apart, TableInLayout, table_boundary, lies_in_payload}, Rules.{KeepsPlaces, RoomToResume, IsValid}};
ghost use Rattle.placement_model.specs.{Laid.{laid, numbered}, Joins.{IsAlone, empty_spot}, Rises.{CellsRise}, Changes.{charged, charged_spot, AllStand}, Reads.{AreNamed}};
ghost use Rattle.map_model.specs.Weights.{same_name};

/// The segments of a class end before those of a later class begin.
pub fn segments_rise()
    ensures { (k : ℕ) (caps : List ℕ) (c d : ℕ) → c < d → d ≤ length caps
        → start_of k caps c + (slice_index caps c + buffer_of k (slice_index caps c)) ≤ start_of k caps d }
{}

/// Bytes that are charged to the first buffer with room leave what a table keeps of the classes below b.
pub fn a_charge_keeps_the_rules()
    ensures { (b : ℕ) (t : TableInLayout) (size j : ℕ) → IsFilled t.k t.header.caps t.header.used → 1 ≤ size
        → buffer_for t.k t.header.caps t.header.used (class_of size) size ≡ Some j → KeepsBelow b t
        → KeepsBelow b (charged t size j) }
{}

/// A new name whose bytes are charged to a buffer leaves what a table keeps of the classes below b,
/// where each object stands in a segment.
pub fn a_new_name_keeps_the_rules()
    ensures { (classes size_max k len : ℕ) (header : Header) (b : ℕ) (spots : Spots) (name : List ℕ)
        (size j : ℕ) → AreNamed spots → IsFilled k header.caps header.used → IsName name
        → fin.get spots name ≡ None → 1 ≤ size
        → buffer_for k header.caps header.used (class_of size) size ≡ Some j → size ≤ size_max
        → KeepsBelow b (laid classes size_max k len header spots)
        → AllStand (laid classes size_max k len header spots)
        → KeepsBelow b (charged (laid classes size_max k len header
        (fin.insert spots name (charged_spot k header.caps header.used size j))) size j) }
{}

/// A new name that is not charged leaves what a table keeps of the classes below b: an object that
/// waits for a flush, and an empty one.
pub fn a_waiting_name_keeps_the_rules()
    ensures pending { (classes size_max k len : ℕ) (header : Header) (b : ℕ) (spots : Spots) → AreNamed spots
        → (name : List ℕ) → IsName name → fin.get spots name ≡ None → (s : Spot) → 1 ≤ s.size
        → s.size ≤ size_max → b ≤ class_of s.size → IsAlone spots name s
        → KeepsBelow b (laid classes size_max k len header spots)
        → KeepsBelow b (laid classes size_max k len header (fin.insert spots name s)) }
    ensures empty { (classes size_max k len : ℕ) (header : Header) (b : ℕ) (spots : Spots) → AreNamed spots
        → (name : List ℕ) → IsName name → fin.get spots name ≡ None
        → KeepsBelow b (laid classes size_max k len header spots)
        → KeepsBelow b (laid classes size_max k len header (fin.insert spots name empty_spot)) }
{}

/// A name that is gone leaves what a table keeps of the classes below b: where its object stood in
/// its payload segment, once its bytes are charged, and else at once.
pub fn a_gone_name_keeps_the_rules()
    ensures buffered { (classes size_max k len : ℕ) (header : Header) (b : ℕ) (spots : Spots)
        (name : List ℕ) (s : Spot) → AreNamed spots → fin.get spots name ≡ Some s
        → (lies_in_payload (laid classes size_max k len header spots) (class_of s.size) (record_of (name, s))
        ≡ false) ⊎ (s.size ≡ 0) → KeepsBelow b (laid classes size_max k len header spots)
        → KeepsBelow b (laid classes size_max k len header (fin.remove spots name)) }
    ensures payload { (classes size_max k len : ℕ) (header : Header) (b : ℕ) (spots : Spots)
        (name : List ℕ) (s : Spot) (j : ℕ) → AreNamed spots → fin.get spots name ≡ Some s
        → IsFilled k header.caps header.used → 1 ≤ s.size
        → buffer_for k header.caps header.used (class_of s.size) s.size ≡ Some j
        → KeepsBelow b (laid classes size_max k len header spots)
        → KeepsBelow b (charged (laid classes size_max k len header (fin.remove spots name)) s.size j) }
{}

/// A moving table keeps the rules of places when an object of its suffix stands elsewhere, apart
/// from all others.
pub fn a_moved_object_keeps_the_rules()
    ensures { (classes size_max k len : ℕ) (header : Header) (spots : Spots) (name : List ℕ) (s t : Spot)
        → AreNamed spots → fin.get spots name ≡ Some s → t.size ≡ s.size
        → KeepsPlaces (laid classes size_max k len header spots) → 0 < s.size
        → table_boundary (laid classes size_max k len header spots) ≤ class_of s.size
        → ((q : List ℕ) (x : Spot) → fin.get spots q ≡ Some x → same_name q name ≡ false
        → Apart (record_of (name, t)) (record_of (q, x)))
        → KeepsPlaces (laid classes size_max k len header (fin.insert spots name t)) }
{}

/// What a table keeps of the classes below its bound is all that the rules of places ask, if it has
/// nothing from there on.
pub fn below_the_bound_is_whole()
    ensures { (t : TableInLayout) → KeepsBelow (table_boundary t) t
        → ((c : ℕ) → table_boundary t ≤ c → slice_index t.header.caps c ≡ 0)
        → ((j c : ℕ) → table_boundary t ≤ j → cell t.header.used j c ≡ 0) → KeepsPlaces t }
{}

/// A valid table is valid with any sequence and any count.
pub fn rules_leave_the_sequence_free()
    ensures { (q n : ℕ) (t : TableInLayout) → IsValid t → IsValid (numbered q n t) }
{}

/// Rule 11 is none of a settled table: the first rule that isn't kept may be that one, though the
/// table is valid.
pub fn rule_11_is_none_of_a_settled_table()
    ensures { (t : TableInLayout) → t.header.wall ≡ 0 → 0 < start_of t.k t.header.caps (table_boundary t)
        → RoomToResume t → ⊥ }
{}

/// Where no cell of a grid has less than at a checkpoint, no buffer has taken less, and a charge
/// keeps it so.
pub fn buffers_fill_up()
    ensures sums { (kept grid : List (List ℕ)) (j : ℕ) → CellsRise kept grid
        → taken_in kept j ≤ taken_in grid j }
    ensures itself { (grid : List (List ℕ)) → CellsRise grid grid }
    ensures charge { (kept grid : List (List ℕ)) (j c size : ℕ) → CellsRise kept grid → j < length grid
        → c < length (row grid j) → CellsRise kept (with_entry grid j c size) }
{}
