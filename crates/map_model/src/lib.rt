//! Maps, requests and replies: the words in which a store is spoken of.
#![tactic(auto)]

ghost use Rattle.std.specs.Prelude.{◌≡◌, ◌≤◌, ◌+◌, ℕ, List, length, max};
ghost use Rattle.std.specs.FinMap as fin;
ghost use Rattle.map_model.specs.{Maps.{Map, volume, largest}, Weights.{size_at}};

/// A put adds the new object's bytes to the volume and takes those of the name's old object, if it
/// has one. A removal takes them.
pub fn volumes_add_up()
    ensures empty { volume fin.empty ≡ 0 }
    ensures put { (m : Map) (name object : List ℕ)
        → volume (fin.insert m name object) + size_at m name ≡ volume m + length object }
    ensures remove { (m : Map) (name : List ℕ) → volume (fin.remove m name) + size_at m name ≡ volume m }
{}

/// A put makes the largest object at most as large as the larger of it and the new one, and a
/// removal makes it no larger.
pub fn the_largest_object_follows()
    ensures empty { largest fin.empty ≡ 0 }
    ensures put { (m : Map) (name object : List ℕ)
        → largest (fin.insert m name object) ≤ max (largest m) (length object) }
    ensures remove { (m : Map) (name : List ℕ) → largest (fin.remove m name) ≤ largest m }
{}
