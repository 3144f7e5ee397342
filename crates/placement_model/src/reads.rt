//! What a file gives where the objects of a state stand, and sums over them.
ghost use Rattle.std.specs.Prelude.{◌≡◌, ℕ, true, Option, ◌+◌, ◌/◌, ◌<◌, ◌≤◌, List, [], ◌∷◌, ◌++◌, length, sum_by, Some, None, Ok, option_map};
ghost use Rattle.std.specs.FinMap as fin;
ghost use Rattle.byte_ranges.specs.Ranges.{SameOutside};
ghost use Rattle.slot_codec.specs.{Names.{IsName}, Choice.{Chosen, InUse, chosen, plain, rises, slot_in_use}, Reading.{read_header, worn_from}, declared.codec.Header.{Header}, declared.codec.Record.{Record}};
ghost use Rattle.extent_table.specs.{declared.spot.Spot.{Spot}, Extents.{Spots, record_of, records_of, volume_of}};
ghost use Rattle.map_model.specs.Weights.{weight_at, weights};
ghost use Rattle.table_rules.specs.{Tables.{map_of, sizes}, Objects.{HaveDistinctNames, LieWithin}};
ghost use Rattle.placement_model.specs.{Orders.{SetSoFar, spot_of}, Reads.{AreNamed, LiesApart, object_at, read_at}};
ghost use Rattle.segment_layout.specs.Books.{volumes, volumes_of_sizes};

/// What a file gives at spots, name by name, and how it follows a put, a removal, a move and a write.
pub fn reads_follow_the_spots()
    ensures get { (base : ℕ) (file : List ℕ) (spots : Spots) → AreNamed spots → (name : List ℕ)
        → fin.get (read_at base file spots) name ≡ option_map (object_at base file) (fin.get spots name) }
    ensures put { (base : ℕ) (file : List ℕ) (spots : Spots) (name : List ℕ) (s : Spot) → AreNamed spots
        → IsName name → read_at base file (fin.insert spots name s)
        ≡ fin.insert (read_at base file spots) name (object_at base file s) }
    ensures remove { (base : ℕ) (file : List ℕ) (spots : Spots) (name : List ℕ) → AreNamed spots
        → read_at base file (fin.remove spots name) ≡ fin.remove (read_at base file spots) name }
    ensures moved { (base : ℕ) (file : List ℕ) (spots : Spots) (name : List ℕ) (s t : Spot) → AreNamed spots
        → fin.get spots name ≡ Some s → object_at base file t ≡ object_at base file s
        → read_at base file (fin.insert spots name t) ≡ read_at base file spots }
    ensures written { (base place n : ℕ) (a b : List ℕ) (spots : Spots) → AreNamed spots
        → SameOutside (base + place) n a b
        → ((name : List ℕ) (s : Spot) → fin.get spots name ≡ Some s → base + s.place + s.size ≤ length a)
        → ((name : List ℕ) (s : Spot) → fin.get spots name ≡ Some s → LiesApart place n s)
        → read_at base b spots ≡ read_at base a spots }
{}

/// A put adds the new record to each sum over records and takes the old one of its name; a removal
/// takes it.
pub fn sums_follow_the_spots()
    ensures put { (f : Record → ℕ) (spots : Spots) (name : List ℕ) (s : Spot) → AreNamed spots → IsName name
        → sum_by f (records_of (fin.insert spots name s)) + weight_at (λ e. f (record_of e)) spots name
        ≡ sum_by f (records_of spots) + f (record_of (name, s)) }
    ensures remove { (f : Record → ℕ) (spots : Spots) (name : List ℕ) → AreNamed spots
        → sum_by f (records_of (fin.remove spots name)) + weight_at (λ e. f (record_of e)) spots name
        ≡ sum_by f (records_of spots) }
    ensures volume { (spots : Spots) → volume_of spots ≡ weights (λ e. e.1.size) spots }
{}

/// The volumes of the map that records give are those of their sizes.
pub fn volumes_are_those_of_the_records()
    ensures { (base : ℕ) (file : List ℕ) (rs : List Record) → HaveDistinctNames rs → LieWithin base file rs
        → volumes (map_of base file rs) ≡ volumes_of_sizes (sizes rs) }
{}

/// Records that are set in order, one after another, are the records of the table.
pub fn records_are_set_in_order()
    ensures none { SetSoFar fin.empty None [] }
    ensures more { (spots : Spots) (last : Option (List ℕ)) (done : List Record) (r : Record)
        → SetSoFar spots last done → IsName r.name → rises last r.name ≡ true
        → SetSoFar (fin.insert spots r.name (spot_of r)) (Some r.name) (done ++ plain r ∷ []) }
{}

/// The sequence of the slot in use is that of its header, which isn't worn.
pub fn a_header_has_the_sequence_of_its_slot()
    ensures same { (file : List ℕ) (u : InUse) (c : Chosen) → slot_in_use file ≡ Ok u → chosen file ≡ Ok c
        → c.header.sequence ≡ u.sequence }
    ensures fresh { (names : ℕ) (bytes : List ℕ) (h : Header) → read_header names bytes ≡ Ok h
        → h.sequence < worn_from h.kind }
{}
