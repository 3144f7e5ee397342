//! Where the segments of classes begin: those of the layout, and those that are laid out anew.
ghost use Rattle.std.specs.Prelude.{◌≡◌, ℕ, ◌+◌, ◌<◌, ◌≤◌, ◌^◌, slice_index};
ghost use Rattle.size_class.specs.{Classes.{width}, Rows.{cells_of}};
ghost use Rattle.segment_layout.specs.Layouts.{divisor_of, caps_of};
ghost use Rattle.flush_model.specs.{Plans.{segments_length, stands_in_payload}, Segments.{ArePlaces, AreStarts}};

use crate::item::Item;
use segment_layout::Layout;
use size_class::Row;

/// Where the payload segment of each class begins.
pub fn starts_of<const C: usize>(layout: &Layout<C>) -> Row<C>
    requires fits { C ≤ 32 }
    ensures { AreStarts C (divisor_of layout.now) (caps_of layout.now) (cells_of result) }
{
    let k = layout.k();
    let caps = layout.caps();
    let mut starts: Row<C> = Row::zero();
    let mut at = 0;
    let mut class = 0u8;
    'classes: while (class as usize) < C {
        starts.set(class, at);
        let cap = caps.get(class);
        at += cap + cap / k;
        class += 1;
    }
    starts
}

/// Whether an object stands in the payload segment of its class.
pub fn stands<const C: usize>(starts: &Row<C>, caps: &Row<C>, item: Item) -> bool
    requires fits { C ≤ 32 }
    requires class { item.class < C }
    requires end { item.place + item.size < 2 ^ 64 }
    requires segment { slice_index (cells_of starts.now) item.class
        + slice_index (cells_of caps.now) item.class < 2 ^ 64 }
    ensures { (k : ℕ) → AreStarts C k (cells_of caps.now) (cells_of starts.now)
        → result ≡ stands_in_payload k (cells_of caps.now) item }
{
    let start = starts.get(item.class);
    start <= item.place && item.place + item.size <= start + caps.get(item.class)
}

/// Where the new segments of the classes from `b` on begin, the first of them at `start`, and where
/// the last of them ends.
pub fn places_of<const C: usize>(volumes: &Row<C>, start: u64, b: u8, k: u64) -> (Row<C>, u64)
    requires fits { C ≤ 32 }
    requires first { b ≤ C }
    requires divisor { 2 ≤ k }
    requires small { start + segments_length k (slice_index (cells_of volumes.now)) b width < 2 ^ 64 }
    ensures places { ArePlaces k start b (slice_index (cells_of volumes.now)) C (cells_of result.0) }
    ensures end { result.1 ≡ start + segments_length k (slice_index (cells_of volumes.now)) b width }
{
    let mut places: Row<C> = Row::zero();
    let mut at = start;
    let mut class = b;
    'classes: while (class as usize) < C {
        places.set(class, at);
        let volume = volumes.get(class);
        at += volume + volume / k;
        class += 1;
    }
    (places, at)
}
