//! The rule of live and dead bytes.
ghost use Rattle.std.specs.Prelude.{◌≡◌, ◌≤◌, ◌<◌, ◌+◌, ◌^◌, ◌*◌, ◌↔◌, ℕ, IsTrue, IsNone, IfSome, [], cond, length, slice_index};
ghost use Rattle.byte_ranges.specs.Lists.{sum_below};
ghost use Rattle.size_class.specs.Classes.{cell, width};
ghost use Rattle.table_rules.specs.{Tables.{dead_in_buffer, live_in_buffer, table_boundary}, Rules.{AllHold, Balances, balances}, Breaks.{BreaksAt}};
ghost use Rattle.table_check.specs.{Live.{IsFull, IsLive, at_spot, in_buffer, in_payload}, Placed.{framed, placed, ranked}};

use crate::frame::Frame;
use crate::spots::{class_at, count, spot_at};
use extent_table::{Spot, Table};

/// The live bytes of each class: in its payload segment, and in each buffer, where buffer j has its
/// classes in row j.
#[derive(Clone, Copy)]
pub(crate) struct Live {
    pub payload: [u64; 32],
    pub buffers: [[u64; 32]; 32],
}

/// The least class that isn't balanced.
pub(crate) fn first_unbalanced(table: &Table, frame: &Frame) -> Option<u64>
    requires boundary { table_boundary (placed table.now frame.now) ≤ 32 }
    ensures none { IsNone result → AllHold balances (placed table.now frame.now) }
    ensures first { IfSome result (λ at. BreaksAt balances (placed table.now frame.now) at) }
{
    let live = live_bytes(table, frame);
    'classes: for c in 0..frame.boundary() {
        if !is_balanced(table, frame, &live, c) {
            return Some(u64::from(c));
        }
    }
    None
}

/// In each buffer a class has at most as many live bytes as its entries have taken, and its payload
/// segment has beyond its live bytes at most the dead ones of all buffers.
fn is_balanced(table: &Table, frame: &Frame, live: &Live, c: u8) -> bool
    requires class { c < 32 }
    requires live { IsLive (placed table.now frame.now) (placed table.now frame.now).records live.now.payload
        live.now.buffers }
    ensures { IsTrue result ↔ Balances (placed table.now frame.now) c }
{
    was_entered(table, frame, live, c)
        && u128::from(frame.cap(c))
            <= u128::from(live.payload[c as usize]) + u128::from(dead_bytes(table, frame, live, c))
}

/// Whether the entries of a class have taken its live bytes in each buffer.
fn was_entered(table: &Table, frame: &Frame, live: &Live, c: u8) -> bool
    requires class { c < 32 }
    requires live { IsLive (placed table.now frame.now) (placed table.now frame.now).records live.now.payload
        live.now.buffers }
    ensures { IsTrue result ↔ ((j : ℕ) → j < width
        → live_in_buffer (placed table.now frame.now) j c ≤ cell frame.now.header.used j c) }
{
    'buffers: for j in 0..32u8 {
        if frame.entry(j, c) < live.buffers[j as usize][c as usize] {
            return false;
        }
    }
    true
}

/// The bytes that entries of a class have taken in all buffers for objects that are gone.
#[tactic(auto, using(segment_layout::proofs::StepLaws::sum_below_next, crate::proofs::LiveLaws::sum_below_none))]
fn dead_bytes(table: &Table, frame: &Frame, live: &Live, c: u8) -> u64
    requires class { c < 32 }
    requires live { IsLive (placed table.now frame.now) (placed table.now frame.now).records live.now.payload
        live.now.buffers }
    ensures { result ≡ sum_below width (λ j. dead_in_buffer (placed table.now frame.now) j c) }
{
    let mut dead = 0;
    'buffers: for j in 0..32u8 {
        let live_here = live.buffers[j as usize][c as usize];
        dead += frame.entry(j, c).saturating_sub(live_here);
    }
    dead
}

/// The live bytes of a table, in one pass over its records.
fn live_bytes(table: &Table, frame: &Frame) -> Live
    ensures { IsLive (placed table.now frame.now) (placed table.now frame.now).records result.payload
        result.buffers }
{
    let mut live = Live {
        payload: [0; 32],
        buffers: [[0; 32]; 32],
    };
    'records: for rank in 0..count(table) {
        let s = spot_at(table, rank);
        if s.size > 0 {
            add_to_payload(&mut live.payload, frame, s);
            add_to_buffers(&mut live.buffers, frame, s);
        }
    }
    live
}

/// Counts an object for its class where it lies in the payload segment of the class.
fn add_to_payload(payload: &mut [u64; 32], frame: &Frame, s: Spot)
    requires some { 0 < s.size }
    requires low { s.place < 2 ^ 48 }
    requires small { s.size < 2 ^ 48 }
    requires long { length payload.old ≡ width }
    requires fits { (c : ℕ) → c < width → slice_index payload.old c + s.size < 2 ^ 64 }
    ensures long { length payload.new ≡ width }
    ensures added { (c : ℕ) → c < width → slice_index payload.new c ≡ slice_index payload.old c
        + cond (in_payload (framed frame.now []) c (at_spot s)) s.size 0 }
{
    let class = class_at(s.size);
    if frame.lies_in_payload(class, s) {
        payload[class as usize] += s.size;
    }
}

/// Counts an object for its class in each buffer in whose taken bytes it lies. It lies in none from the
/// first one on that begins behind its place.
fn add_to_buffers(buffers: &mut [[u64; 32]; 32], frame: &Frame, s: Spot)
    requires some { 0 < s.size }
    requires low { s.place < 2 ^ 48 }
    requires small { s.size < 2 ^ 48 }
    requires full { IsFull buffers.old }
    requires fits { (j c : ℕ) → j < width → c < width → cell buffers.old j c + s.size < 2 ^ 64 }
    ensures full { IsFull buffers.new }
    ensures added { (j c : ℕ) → j < width → c < width → cell buffers.new j c ≡ cell buffers.old j c
        + cond (in_buffer (framed frame.now []) j c (at_spot s)) s.size 0 }
{
    let class = class_at(s.size);
    'buffers: for j in 0..32u8 {
        if s.place < frame.buffer_start(j) {
            return;
        }
        if frame.lies_in_buffer(j, s) {
            buffers[j as usize][class as usize] += s.size;
        }
    }
}
