//! The books of these tables.
ghost use Rattle.std.specs.Prelude.{◌≡◌, ℕ, Bool, if◌then◌else◌, ◌/◌, ◌^◌, ◌<◌, ◌≤◌, List, length, Some, None};
ghost use Rattle.std.specs.FinMap as fin;
ghost use Rattle.std.specs.FinSet as set;
ghost use Rattle.slot_codec.specs.{Names.{IsName}, declared.codec.Header.{Header}, declared.codec.Record.{Record}};
ghost use Rattle.extent_table.specs.{declared.spot.Spot.{Spot}, Extents.{Spots, record_of, records_of}};
ghost use Rattle.size_class.specs.Classes.{class_of, width};
ghost use Rattle.table_rules.specs.{Suffixes.{suffix_at}, Tables.{HasFullRows, TableInLayout, book_of, table_boundary, sizes}, Rules.{KeepsPlaces, IsValid}};
ghost use Rattle.placement_model.specs.{Laid.{AreLaid, settled_at, laid}, Buffered.{AreBuffered, HasSizes, chosen_names}, Reads.{AreNamed}};
ghost use Rattle.segment_layout.specs.{Shapes.{settled_caps, settled_grid}, Books.{below_class, volumes, volumes_of_sizes, Names}};
ghost use Rattle.map_model.specs.Maps.{Map};

/// A table whose suffix is laid out anew keeps the rules of a settled one.
pub fn a_laid_table_is_settled()
    ensures places { (b : ℕ) (t : TableInLayout) → HasFullRows t → b ≤ t.classes → t.size_max < 2 ^ t.classes
        → KeepsPlaces (suffix_at b t) → AreLaid b t → KeepsPlaces (settled_at b t) }
    ensures valid { (b : ℕ) (t : TableInLayout) → HasFullRows t → b ≤ t.classes → t.size_max < 2 ^ t.classes
        → KeepsPlaces (suffix_at b t) → AreLaid b t → IsValid (settled_at b t) }
    ensures book { (b : ℕ) (t : TableInLayout) → HasFullRows t → b ≤ t.classes → t.size_max < 2 ^ t.classes
        → KeepsPlaces (suffix_at b t) → AreLaid b t → book_of (settled_at b t) ≡ book_of (suffix_at b t) }
{}

/// The book of a flush is the next book: capacities, grid, and the names that stay in buffers.
pub fn a_flush_has_the_next_book()
    ensures { (b : ℕ) (t : TableInLayout) (spots : Spots) (m : Map) (names : Names)
        → length t.header.caps ≡ width → length t.header.used ≡ width → b ≤ width → AreNamed spots
        → t.records ≡ records_of spots → HasSizes m spots → AreBuffered b t spots names
        → volumes m ≡ volumes_of_sizes (sizes t.records)
        → book_of (suffix_at b t) ≡ record {
          caps = settled_caps b t.header.caps (volumes m);
          grid = settled_grid b t.header.used;
          buffered = below_class b m names;
          digests = None;
        } }
{}

/// A moving table keeps its book when an object of its suffix stands elsewhere.
pub fn a_moved_object_keeps_the_book()
    ensures { (classes size_max k len : ℕ) (header : Header) (spots : Spots) (name : List ℕ) (s t : Spot)
        → AreNamed spots → fin.get spots name ≡ Some s → t.size ≡ s.size
        → table_boundary (laid classes size_max k len header spots) ≤ class_of s.size
        → book_of (laid classes size_max k len header (fin.insert spots name t))
        ≡ book_of (laid classes size_max k len header spots) }
{}

/// The names whose records pass a test follow a put and a removal.
pub fn chosen_names_follow_the_spots()
    ensures put { (p : Record → Bool) (spots : Spots) (name : List ℕ) (s : Spot) → AreNamed spots
        → IsName name → chosen_names p (fin.insert spots name s)
        ≡ (if p (record_of (name, s)) then set.insert (set.remove (chosen_names p spots) name) name
        else set.remove (chosen_names p spots) name) }
    ensures remove { (p : Record → Bool) (spots : Spots) (name : List ℕ) → AreNamed spots
        → chosen_names p (fin.remove spots name) ≡ set.remove (chosen_names p spots) name }
{}
