//! What was kept under each key, where it isn't what stands there now, and the list of those keys.
//! Past the end of the records each key has what stands there, so a key that never changed has none.
ghost use Rattle.std.specs.Prelude.{◌≡◌, ℕ, ◌<◌, ◌≤◌, [], length, count_by, vec_capacity, IsTrue, IfOk};
ghost use Rattle.extent_table.specs.{Kept.{kept_in, kept_as, is_change, AreChanges}, Parts.{Notes}};

use crate::Spot;
use slot_codec::NoMemory;
use std::alloc::Global;

/// What was kept under a key.
#[derive(Clone, Copy)]
pub(crate) enum Kept {
    /// What stands there now.
    Same,
    /// Nothing: its name is new.
    New,
    /// This spot.
    Old(Spot),
}

/// No records, and room for some.
pub(crate) fn kept_with_room(alloc: Global, room: usize) -> Result<Vec<Kept>, NoMemory>
    ensures empty { IfOk result (λ kept. kept.items ≡ []) }
    ensures room { IfOk result (λ kept. room ≤ vec_capacity kept) }
{
    match Vec::with_capacity(alloc, room) {
        Ok(kept) => Ok(kept),
        Err(_) => Err(NoMemory),
    }
}

/// No keys, and room for some.
pub(crate) fn keys_with_room(alloc: Global, room: usize) -> Result<Vec<u32>, NoMemory>
    ensures empty { IfOk result (λ keys. keys.items ≡ []) }
    ensures room { IfOk result (λ keys. room ≤ vec_capacity keys) }
{
    match Vec::with_capacity(alloc, room) {
        Ok(keys) => Ok(keys),
        Err(_) => Err(NoMemory),
    }
}

/// What was kept under a key.
pub(crate) fn read(kept: &[Kept], key: u32) -> Kept
    ensures { result ≡ kept_in kept.now key }
{
    if (key as usize) < kept.len() {
        kept[key as usize]
    } else {
        Kept::Same
    }
}

/// Whether what was kept is not what stands now.
pub(crate) fn is_change(kept: Kept) -> bool
    ensures { result ≡ is_change kept }
{
    match kept {
        Kept::Same => false,
        Kept::New => true,
        Kept::Old(_) => true,
    }
}

/// The record of a key that changes from this.
pub(crate) fn kept_as(now: Option<Spot>) -> Kept
    ensures { result ≡ kept_as now }
{
    match now {
        Some(spot) => Kept::Old(spot),
        None => Kept::New,
    }
}

/// Makes records up to a key below a room, each of which says what it said before.
fn reach(kept: &mut Vec<Kept>, room: usize, key: usize)
    requires key { key < room }
    requires room { room ≤ vec_capacity kept.old }
    requires short { length kept.old.items ≤ room }
    ensures far { key < length kept.new.items }
    ensures short { length kept.new.items ≤ room }
    ensures same { (k : ℕ) → kept_in kept.new.items k ≡ kept_in kept.old.items k }
    ensures count { count_by is_change kept.new.items ≡ count_by is_change kept.old.items }
    ensures capacity { vec_capacity kept.new ≡ vec_capacity kept.old }
{
    // New names come with the next key: one record is pushed without a loop over the gap.
    if kept.len() == key {
        kept.push_reserved(Kept::Same);
        return;
    }
    'records: while kept.len() <= key {
        kept.push_reserved(Kept::Same);
    }
}

/// Records what was kept under a key below a room, and lists the key if it wasn't yet.
pub(crate) fn note(kept: &mut Vec<Kept>, changed: &mut Vec<u32>, room: usize, key: u32, was: Kept)
    requires changes { AreChanges kept.old.items changed.old.items }
    requires key { key < room }
    requires short { length kept.old.items ≤ room }
    requires kept_room { room ≤ vec_capacity kept.old }
    requires changed_room { room ≤ vec_capacity changed.old }
    requires change { IsTrue (is_change was) }
    ensures changes { AreChanges kept.new.items changed.new.items }
    ensures here { kept_in kept.new.items key ≡ was }
    ensures noted { Notes changed.old.items changed.new.items key }
    ensures others { (k : ℕ) → (k ≡ key → ⊥) → kept_in kept.new.items k ≡ kept_in kept.old.items k }
    ensures short { length kept.new.items ≤ room }
    ensures kept_capacity { vec_capacity kept.new ≡ vec_capacity kept.old }
    ensures changed_capacity { vec_capacity changed.new ≡ vec_capacity changed.old }
{
    reach(kept, room, key as usize);
    if is_change(kept[key as usize]) {
        kept[key as usize] = was;
        return;
    }
    changed.push_reserved(key);
    kept[key as usize] = was;
}
