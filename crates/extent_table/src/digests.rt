//! Digests by key. Past the end of the list each key has zeros, so a table without digests writes none.
ghost use Rattle.std.specs.Prelude.{◌≡◌, ◌≢◌, ℕ, ◌<◌, ◌≤◌, [], length, IsSome, IfOk, slice_index, vec_capacity};
ghost use Rattle.extent_table.specs.Parts.{Agree, IsDigestList, at, digest_in};

use crate::entry::{Entries, changed_keys, entry_room};
use slot_codec::NoMemory;
use std::alloc::Global;

/// What a key has that was given no digest.
const NONE: &[u8; 32] = &[0; 32];

/// No digests, and room for those of some keys.
pub(crate) fn digests_with_room(alloc: Global, room: usize) -> Result<Vec<[u8; 32]>, NoMemory>
    ensures empty { IfOk result (λ digests. digests.items ≡ []) }
    ensures room { IfOk result (λ digests. room ≤ vec_capacity digests) }
{
    match Vec::with_capacity(alloc, room) {
        Ok(digests) => Ok(digests),
        Err(_) => Err(NoMemory),
    }
}

/// The digest at a key.
pub(crate) fn digest_at(digests: &[[u8; 32]], key: u32) -> [u8; 32]
    ensures value { result ≡ digest_in digests.now key }
    ensures long { length result ≡ 32 }
{
    *digest_there(digests, key)
}

/// The digest at a key, where it stands. It looks at the list's length alone.
pub(crate) fn digest_there(digests: &[[u8; 32]], key: u32) -> &[u8; 32]
    ensures value { result.now ≡ digest_in digests.now key }
    ensures long { length result.now ≡ 32 }
{
    if (key as usize) < digests.len() {
        &digests[key as usize]
    } else {
        NONE
    }
}

/// Puts a digest at a key below a room. Zeros past the end aren't written.
fn put(digests: &mut Vec<[u8; 32]>, room: usize, key: u32, digest: [u8; 32])
    requires key { key < room }
    requires room { room ≤ vec_capacity digests.old }
    requires short { length digests.old.items ≤ room }
    ensures here { digest_in digests.new.items key ≡ digest }
    ensures others { (k : ℕ) → (k ≡ key → ⊥)
        → digest_in digests.new.items k ≡ digest_in digests.old.items k }
    ensures short { length digests.new.items ≤ room }
    ensures capacity { vec_capacity digests.new ≡ vec_capacity digests.old }
    ensures long { length digest ≡ 32 }
{
    let at = key as usize;
    if at < digests.len() {
        digests[at] = digest;
        return;
    }
    if digest == *NONE {
        return;
    }
    'zeros: while digests.len() < at {
        digests.push_reserved(*NONE);
    }
    digests.push_reserved(digest);
}

/// Puts a digest at the key of an entry.
pub(crate) fn put_digest(entries: &Entries, digests: &mut Vec<[u8; 32]>, key: u32, digest: [u8; 32])
    requires entry { IsSome (at entries.now.slots key) }
    requires list { IsDigestList entries.now.capacity digests.old.items (vec_capacity digests.old) }
    ensures list { IsDigestList entries.now.capacity digests.new.items (vec_capacity digests.new) }
    ensures here { digest_in digests.new.items key ≡ digest }
    ensures others { (k : ℕ) → (k ≡ key → ⊥)
        → digest_in digests.new.items k ≡ digest_in digests.old.items k }
{
    put(digests, entry_room(entries), key, digest);
}

/// Copies the digests of the keys that changed, at a checkpoint or as a table goes back to one.
pub(crate) fn copy_changed(entries: &Entries, from: &[[u8; 32]], to: &mut Vec<[u8; 32]>)
    requires agree { Agree entries.now.changed to.old.items from.now }
    requires list { IsDigestList entries.now.capacity to.old.items (vec_capacity to.old) }
    ensures list { IsDigestList entries.now.capacity to.new.items (vec_capacity to.new) }
    ensures same { (k : ℕ) → digest_in to.new.items k ≡ digest_in from.now k }
{
    let keys = changed_keys(entries);
    let room = entry_room(entries);
    'keys: for key in keys {
        let digest = digest_at(from, *key);
        put(to, room, *key, digest);
    }
}

/// Copies all digests, of entries that were laid out anew.
pub(crate) fn copy_digests(to: &mut Vec<[u8; 32]>, from: &[[u8; 32]])
    requires { length from.now ≤ vec_capacity to.old }
    ensures items { to.new.items ≡ from.now }
    ensures capacity { vec_capacity to.old ≤ vec_capacity to.new }
{
    to.clear();
    to.extend_from_slice(from).unwrap();
}

/// Puts the digests at the keys of one list at those of another, which all differ.
pub(crate) fn carry_digests(
    entries: &Entries,
    digests: &[[u8; 32]],
    from: &[u32],
    carried: &mut Vec<[u8; 32]>,
    to: &[u32],
)
    requires there { (i : ℕ) → i < length to.now → IsSome (at entries.now.slots (slice_index to.now i)) }
    requires apart { (i j : ℕ) → i < j → j < length to.now → slice_index to.now i ≢ slice_index to.now j }
    requires long { length to.now ≡ length from.now }
    requires list { IsDigestList entries.now.capacity carried.old.items (vec_capacity carried.old) }
    ensures list { IsDigestList entries.now.capacity carried.new.items (vec_capacity carried.new) }
    ensures carried { (i : ℕ) → i < length to.now → digest_in carried.new.items (slice_index to.now i)
        ≡ digest_in digests.now (slice_index from.now i) }
{
    'ranks: for rank in 0..to.len() {
        let digest = digest_at(digests, from[rank]);
        put_digest(entries, carried, to[rank], digest);
    }
}
