//! Laws of dumps, as contracts of functions that do nothing.
ghost use Rattle.std.specs.Prelude.{◌≡◌, ℕ, ◌<◌, ◌≤◌, ◌^◌, ◌++◌, ◌∷◌, [], List, length};
ghost use Rattle.size_class.specs.Classes.{width};
ghost use Rattle.map_model.specs.Maps.{Map};
ghost use Rattle.dump_stream.specs.Dumps.{CanDump, dump_text};

/// A text that begins with the dumps of two maps begins with that of one: so a map has one dump, and
/// none is a proper front of another.
pub fn a_dump_is_of_one_map()
    ensures { (C size_max : ℕ) (m n : Map) (rest others : List ℕ) → C ≤ width → size_max < 2 ^ C
        → size_max < 2 ^ 32 → CanDump size_max m → CanDump size_max n
        → dump_text C m ++ rest ≡ dump_text C n ++ others → (m ≡ n) × (rest ≡ others) }
{}
