//! The rules that are tried place by place: at records, at classes, or at 0 alone.
ghost use Rattle.std.specs.Prelude.{◌≡◌, ◌⊎◌, ◌≤◌, ◌<◌, ◌+◌, ◌^◌, ◌↔◌, ℕ, IsTrue, IsNone, IfSome, slice_index};
ghost use Rattle.size_class.specs.Classes.{cell, width};
ghost use Rattle.segment_layout.specs.Shapes.{buffer_of, taken_in};
ghost use Rattle.table_rules.specs.{Tables.{StandsInBuffer, table_boundary, last_end}, Rules.{AllHold, BuffersFull, EmptyAtZero, EndsWithin, KindFits, LowerStands, NothingAbove, RowFits, RuleAt, SizeFits, number_of, places_of}, Breaks.{BreaksAt}};
ghost use Rattle.table_check.specs.{PlaceRules.{named}, Placed.{placed, ranked}};

use crate::frame::Frame;
use crate::spots::{class_at, count, spot_at};
use extent_table::Table;
use slot_codec::Kind;

/// The rules that are tried place by place.
#[derive(Clone, Copy, Debug, PartialEq, Eq)]
pub(crate) enum PlaceRule {
    SizeFits,
    EmptyAtZero,
    EndsWithin,
    KindFits,
    NothingAbove,
    RowFits,
    LowerStands,
    BuffersFull,
}

/// The least place at which a rule is broken.
pub(crate) fn first_place(table: &Table, frame: &Frame, rule: PlaceRule) -> Option<u64>
    requires boundary { 4 < number_of (named rule) → table_boundary (placed table.now frame.now) ≤ 32 }
    ensures none { IsNone result → AllHold (named rule) (placed table.now frame.now) }
    ensures first { IfSome result (λ at. BreaksAt (named rule) (placed table.now frame.now) at) }
{
    'places: for at in 0..places_of(table, frame, rule) {
        if !holds(table, frame, rule, at) {
            return Some(at);
        }
    }
    None
}

/// How many places a rule has.
fn places_of(table: &Table, frame: &Frame, rule: PlaceRule) -> u64
    ensures { result ≡ places_of (named rule) (placed table.now frame.now) }
{
    match rule {
        PlaceRule::KindFits => 1,
        PlaceRule::EndsWithin => count(table) + 1,
        PlaceRule::NothingAbove => 32,
        PlaceRule::RowFits | PlaceRule::BuffersFull => u64::from(frame.boundary()),
        _ => count(table),
    }
}

/// Whether a rule holds at a place.
fn holds(table: &Table, frame: &Frame, rule: PlaceRule, at: u64) -> bool
    requires boundary { 4 < number_of (named rule) → table_boundary (placed table.now frame.now) ≤ 32 }
    requires within { at < places_of (named rule) (placed table.now frame.now) }
    ensures { IsTrue result ↔ RuleAt (named rule) (placed table.now frame.now) at }
{
    match rule {
        PlaceRule::SizeFits => size_fits(table, frame, at),
        PlaceRule::EmptyAtZero => empty_at_zero(table, frame, at),
        PlaceRule::EndsWithin => ends_within(table, frame, at),
        PlaceRule::KindFits => kind_fits(table, frame),
        PlaceRule::NothingAbove => nothing_above(table, frame, at as u8),
        PlaceRule::RowFits => row_fits(table, frame, at as u8),
        PlaceRule::LowerStands => lower_stands(table, frame, at),
        PlaceRule::BuffersFull => buffers_full(table, frame, at as u8),
    }
}

/// The size of a record is at most the greatest.
fn size_fits(table: &Table, frame: &Frame, at: u64) -> bool
    ensures { IsTrue result ↔ SizeFits (placed table.now frame.now) at }
{
    spot_at(table, at).size <= frame.size_max
}

/// A record of size 0 has place 0.
fn empty_at_zero(table: &Table, frame: &Frame, at: u64) -> bool
    ensures { IsTrue result ↔ EmptyAtZero (placed table.now frame.now) at }
{
    let _classes = frame.classes;
    let s = spot_at(table, at);
    s.size != 0 || s.place == 0
}

/// A record ends within the data part; behind the last record, the layout or the wall does.
fn ends_within(table: &Table, frame: &Frame, at: u64) -> bool
    ensures { IsTrue result ↔ EndsWithin (placed table.now frame.now) at }
{
    let end = if at < count(table) {
        let s = spot_at(table, at);
        s.place + s.size
    } else {
        last_end(table, frame)
    };
    end <= frame.data_len
}

/// Where the layout of a settled table ends, or the wall of a moving one.
fn last_end(table: &Table, frame: &Frame) -> u64
    ensures { result ≡ last_end (placed table.now frame.now) frame.now.header.kind }
{
    match frame.header.kind {
        Kind::Settled => frame.start(frame.classes),
        Kind::Moving => frame.header.wall,
    }
}

/// A settled table has boundary, wall and slack 0; a moving one has a boundary below its classes.
fn kind_fits(table: &Table, frame: &Frame) -> bool
    ensures { IsTrue result ↔ KindFits (placed table.now frame.now) frame.now.header.kind }
{
    let header = &frame.header;
    match header.kind {
        Kind::Settled => header.boundary == 0 && header.wall == 0 && header.slack == 0,
        Kind::Moving => header.boundary < frame.classes,
    }
}

/// A class from the boundary on has no capacity, and no buffer has an entry of a greater class or,
/// from the boundary on, of any.
fn nothing_above(table: &Table, frame: &Frame, c: u8) -> bool
    requires class { c < 32 }
    ensures { IsTrue result ↔ NothingAbove (placed table.now frame.now) c }
{
    (c < frame.boundary() || frame.cap(c) == 0) && has_no_entry_above(table, frame, c)
}

/// Whether a buffer has no entry of a greater class, nor from the boundary on of any.
fn has_no_entry_above(table: &Table, frame: &Frame, j: u8) -> bool
    requires class { j < 32 }
    ensures { IsTrue result ↔ ((d : ℕ) → d < width
        → (table_boundary (placed table.now frame.now) ≤ j) ⊎ (j < d) → cell frame.now.header.used j d ≡ 0) }
{
    'classes: for d in 0..32u8 {
        if (frame.boundary() <= j || j < d) && frame.entry(j, d) != 0 {
            return false;
        }
    }
    true
}

/// What is taken of a buffer is at most its capacity.
fn row_fits(table: &Table, frame: &Frame, j: u8) -> bool
    requires class { j < 32 }
    ensures { IsTrue result ↔ RowFits (placed table.now frame.now) j }
{
    frame.taken(j) <= frame.buffer(j)
}

/// A record of a class below the boundary lies in the payload segment of its class, or in what is
/// taken of a buffer of its class or a greater one, below the boundary.
fn lower_stands(table: &Table, frame: &Frame, at: u64) -> bool
    requires boundary { table_boundary (placed table.now frame.now) ≤ 32 }
    ensures { IsTrue result ↔ LowerStands (placed table.now frame.now) at }
{
    let s = spot_at(table, at);
    !frame.is_lower(s.size)
        || frame.lies_in_payload(class_at(s.size), s)
        || stands_in_buffer(table, frame, at)
}

/// Whether a record lies in what is taken of a buffer in which one of its class may stand.
fn stands_in_buffer(table: &Table, frame: &Frame, at: u64) -> bool
    requires boundary { table_boundary (placed table.now frame.now) ≤ 32 }
    ensures { IsTrue result ↔ StandsInBuffer (placed table.now frame.now) (ranked table.now at) }
{
    let s = spot_at(table, at);
    'buffers: for j in 0..frame.boundary() {
        if class_at(s.size) <= j && frame.lies_in_buffer(j, s) {
            return true;
        }
    }
    false
}

/// Where a class has an entry in a buffer, it has taken at least the class's least size, and each
/// buffer that it passed over is full for the class.
fn buffers_full(table: &Table, frame: &Frame, c: u8) -> bool
    requires class { c < 32 }
    ensures { IsTrue result ↔ BuffersFull (placed table.now frame.now) c }
{
    has_least_entries(frame, c) && has_full_buffers(frame, c)
}

/// Whether each entry of a class has taken at least the class's least size.
fn has_least_entries(frame: &Frame, c: u8) -> bool
    requires class { c < 32 }
    ensures { IsTrue result ↔ ((j : ℕ) → j < width → 0 < cell frame.now.header.used j c
        → 2 ^ c ≤ cell frame.now.header.used j c) }
{
    'buffers: for j in 0..32u8 {
        let taken = frame.entry(j, c);
        if 0 < taken && taken < 1u64 << c {
            return false;
        }
    }
    true
}

/// Whether each buffer that an entry of a class passed over is full for the class.
fn has_full_buffers(frame: &Frame, c: u8) -> bool
    requires class { c < 32 }
    ensures { IsTrue result ↔ ((j : ℕ) → j < width → 0 < cell frame.now.header.used j c → (i : ℕ) → c ≤ i
        → i < j → buffer_of frame.now.k (slice_index frame.now.header.caps i)
        < taken_in frame.now.header.used i + 2 ^ (c + 1)) }
{
    'buffers: for j in 0..32u8 {
        if 0 < frame.entry(j, c) && !are_full(frame, c, j) {
            return false;
        }
    }
    true
}

/// Whether each buffer from a class on and below `j` is full for the class.
fn are_full(frame: &Frame, c: u8, j: u8) -> bool
    requires class { c < 32 }
    requires within { j < 32 }
    ensures { IsTrue result ↔ ((i : ℕ) → c ≤ i → i < j
        → buffer_of frame.now.k (slice_index frame.now.header.caps i)
        < taken_in frame.now.header.used i + 2 ^ (c + 1)) }
{
    'between: for i in 0..j {
        if c <= i && frame.taken(i) + (2u64 << c) <= frame.buffer(i) {
            return false;
        }
    }
    true
}
