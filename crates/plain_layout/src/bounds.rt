//! The two bounds on the length of the data part, as tests on numbers.
ghost use Rattle.std.specs.Prelude.{◌≡◌, ◌≤◌, ◌↔◌, ◌*◌, ◌^◌, IsTrue};
ghost use Rattle.segment_layout.specs.Bounds.{Loose, Tight};
ghost use Rattle.map_model.specs.Maps.{Map, largest, volume};

/// What a bound sees of a map, in bytes.
#[derive(Clone, Copy, Debug, PartialEq, Eq)]
pub struct Sizes {
    /// The bytes of all objects together.
    pub volume: u64,
    /// The bytes of the largest object, or 0.
    pub largest: u64,
}

/// Whether a data part of `len` bytes is within the bound between requests, for maps of `bytes`
/// bytes together.
pub fn is_tight(k: u64, len: u64, bytes: u64) -> bool
    requires low { 1 ≤ k }
    requires high { k ≤ 64 }
    ensures { (m : Map) → volume m ≡ bytes → (IsTrue result ↔ Tight k len m) }
{
    times(k - 1, len) <= times(k + 1, bytes)
}

/// Whether a data part of `len` bytes is within the bound within a request, which leads from a map
/// to another.
pub fn is_loose(k: u64, len: u64, before: Sizes, after: Sizes) -> bool
    requires low { 1 ≤ k }
    requires high { k ≤ 64 }
    ensures { (m n : Map) → volume m ≡ before.volume → largest m ≡ before.largest → volume n ≡ after.volume
        → largest n ≡ after.largest → (IsTrue result ↔ Loose k len m n) }
{
    let volume = before.volume.max(after.volume);
    let largest = before.largest.max(after.largest);
    times(k - 1, len) <= times(k + 3, volume) + times(3 * (k - 1), largest)
}

/// A product.
fn times(a: u64, b: u64) -> u128
    requires small { a ≤ 200 }
    ensures product { result ≡ a * b }
    ensures small { result ≤ 200 * 2 ^ 64 }
{
    u128::from(a) * u128::from(b)
}
