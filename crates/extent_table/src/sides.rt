//! Names by key with where their objects stand now, and the two ways to take one side for the other.
ghost use Rattle.std.specs.Prelude.{◌≡◌, ℕ, ◌<◌, ◌≤◌, ◌^◌, [], Some, IsSome, IfSome, IsTrue, length, slice_index, vec_capacity};
ghost use Rattle.slab.specs.Slab.{get, Updates};
ghost use Rattle.extent_table.specs.{declared.kept.Kept.TheVariants.{Same}, Kept.{kept_in, is_change, AreChanges}, Entries.{entry_of, standing_still, standing_at, once_kept, once_back, Goes}, Parts.{Notes}, Relaid.{AreRelaid}};

use crate::Spot;
use crate::kept::{Kept, is_change, kept_as, note, read};
use crate::standing::Standing;
use slab::Slab;

/// Writes where the object of a name stands now, or that it is no longer there.
pub(crate) fn write_now(standing: &mut Slab<Standing>, key: u32, now: Option<Spot>)
    requires { IsSome (get standing.old key) }
    ensures updates { IfSome (get standing.old key)
        (λ s. Updates standing.old standing.new key (Some (record s { now = now }))) }
    ensures capacity { standing.new.capacity ≡ standing.old.capacity }
{
    standing.get_mut(key as usize).unwrap().write(now);
}

/// Records what was kept of a name, if it wasn't yet.
pub(crate) fn hold(
    standing: &Slab<Standing>,
    kept: &mut Vec<Kept>,
    changed: &mut Vec<u32>,
    key: u32,
)
    requires here { IsSome (get standing.now key) }
    requires changes { AreChanges kept.old.items changed.old.items }
    requires short { length kept.old.items ≤ standing.now.capacity }
    requires kept_room { standing.now.capacity ≤ vec_capacity kept.old }
    requires changed_room { standing.now.capacity ≤ vec_capacity changed.old }
    ensures changes { AreChanges kept.new.items changed.new.items }
    ensures change { IsTrue (is_change (kept_in kept.new.items key)) }
    ensures noted { Notes changed.old.items changed.new.items key }
    ensures same { (k : ℕ) → entry_of (kept_in kept.new.items k) (get standing.now k)
        ≡ entry_of (kept_in kept.old.items k) (get standing.now k) }
    ensures short { length kept.new.items ≤ standing.now.capacity }
    ensures kept_capacity { vec_capacity kept.new ≡ vec_capacity kept.old }
    ensures changed_capacity { vec_capacity changed.new ≡ vec_capacity changed.old }
{
    if is_change(read(kept, key)) {
        return;
    }
    let was = kept_as(standing.get(key as usize).unwrap().now());
    note(kept, changed, standing.capacity(), key, was);
}

/// Lets the name at a key go if its object doesn't stand.
fn drop_absent(standing: &mut Slab<Standing>, key: u32)
    ensures updates { Updates standing.old standing.new key (standing_still (get standing.old key)) }
    ensures capacity { standing.new.capacity ≡ standing.old.capacity }
{
    let gone = match standing.get(key as usize) {
        Some(here) => here.now().is_none(),
        None => false,
    };
    if gone {
        standing.remove(key as usize);
    }
}

/// Says of a key that what was kept stands there now.
fn forget(kept: &mut [Kept], key: u32)
    ensures here { kept_in kept.new key ≡ Same }
    ensures others { (k : ℕ) → (k ≡ key → ⊥) → kept_in kept.new k ≡ kept_in kept.old k }
    ensures long { length kept.new ≡ length kept.old }
{
    if (key as usize) < kept.len() {
        kept[key as usize] = Kept::Same;
    }
}

/// Takes what stands at a key as kept. A name that doesn't stand goes.
fn keep_at(standing: &mut Slab<Standing>, kept: &mut [Kept], key: u32)
    ensures updates { Updates standing.old standing.new key
        (once_kept (kept_in kept.old key) (get standing.old key)) }
    ensures here { kept_in kept.new key ≡ Same }
    ensures others { (k : ℕ) → (k ≡ key → ⊥) → kept_in kept.new k ≡ kept_in kept.old k }
    ensures long { length kept.new ≡ length kept.old }
    ensures capacity { standing.new.capacity ≡ standing.old.capacity }
{
    if is_change(read(kept, key)) {
        drop_absent(standing, key);
        forget(kept, key);
    }
}

/// Takes what was kept at a key as what stands there. A name of which nothing was kept goes.
fn back_at(standing: &mut Slab<Standing>, kept: &mut [Kept], key: u32)
    ensures updates { Updates standing.old standing.new key
        (once_back (kept_in kept.old key) (get standing.old key)) }
    ensures here { kept_in kept.new key ≡ Same }
    ensures others { (k : ℕ) → (k ≡ key → ⊥) → kept_in kept.new k ≡ kept_in kept.old k }
    ensures long { length kept.new ≡ length kept.old }
    ensures capacity { standing.new.capacity ≡ standing.old.capacity }
{
    match read(kept, key) {
        Kept::Same => return,
        Kept::New => {
            standing.try_remove(key as usize);
        }
        Kept::Old(spot) => put_back(standing, key, spot),
    }
    forget(kept, key);
}

/// Lets the object of a name stand at a spot, if the name is there.
fn put_back(standing: &mut Slab<Standing>, key: u32, spot: Spot)
    ensures updates { Updates standing.old standing.new key
        (standing_at spot (get standing.old key)) }
    ensures capacity { standing.new.capacity ≡ standing.old.capacity }
{
    if standing.contains(key as usize) {
        write_now(standing, key, Some(spot));
    }
}

/// Takes what stands as kept, at each key of a list.
pub(crate) fn keep_each(standing: &mut Slab<Standing>, kept: &mut [Kept], changed: &[u32])
    ensures goes { Goes once_kept standing.old.slots kept.old standing.new.slots kept.new }
    ensures done { (i : ℕ) → i < length changed.now → kept_in kept.new (slice_index changed.now i) ≡ Same }
    ensures long { length kept.new ≡ length kept.old }
    ensures capacity { standing.new.capacity ≡ standing.old.capacity }
{
    'keys: for key in changed {
        keep_at(standing, kept, *key);
    }
}

/// Takes what was kept as what stands, at each key of a list.
pub(crate) fn back_each(standing: &mut Slab<Standing>, kept: &mut [Kept], changed: &[u32])
    ensures goes { Goes once_back standing.old.slots kept.old standing.new.slots kept.new }
    ensures done { (i : ℕ) → i < length changed.now → kept_in kept.new (slice_index changed.now i) ≡ Same }
    ensures long { length kept.new ≡ length kept.old }
    ensures capacity { standing.new.capacity ≡ standing.old.capacity }
{
    'keys: for key in changed {
        back_at(standing, kept, *key);
    }
}

/// Copies the names at the keys of a list into a slab without any, in its order, and lists their keys
/// there.
pub(crate) fn copy_each(
    standing: &Slab<Standing>,
    from: &[u32],
    spare: &mut Slab<Standing>,
    to: &mut Vec<u32>,
)
    requires there { (i : ℕ) → i < length from.now → IsSome (get standing.now (slice_index from.now i)) }
    requires none { spare.old.slots ≡ [] }
    requires empty { to.old.items ≡ [] }
    requires room { length from.now ≤ spare.old.capacity }
    requires small { spare.old.capacity < 2 ^ 32 }
    requires to_room { length from.now ≤ vec_capacity to.old }
    ensures relaid { AreRelaid (length from.now) standing.now.slots spare.new.slots from.now to.new.items }
    ensures capacity { spare.new.capacity ≡ spare.old.capacity }
    ensures to_capacity { vec_capacity to.new ≡ vec_capacity to.old }
{
    'keys: for key in from {
        let copy = standing.get(*key as usize).unwrap().copied();
        let at = spare.insert_reserved(copy) as u32;
        to.push_reserved(at);
    }
}
