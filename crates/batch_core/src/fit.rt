//! Whether a batch fits a store.
ghost use Rattle.std.specs.Prelude.{◌≡◌, ◌<◌, ◌≤◌, ◌+◌, ◌-◌, ◌^◌, ℕ, List, false, IsTrue, if◌then◌else◌, is_some, nat_lt, ◌||◌, ◌&&◌};
ghost use Rattle.std.specs.FinMap as fin;
ghost use Rattle.map_model.specs.Requests.{Change};
ghost use Rattle.batch_model.specs.{Batches.{IsBatch}, Fits.{count_after}, Parts.{change_of}};
ghost use Rattle.batch_core.specs.Doing.{is_live, misfit_in, names_beside};

use batch_model::part::{Part, read_part};
use slot_codec::Name;
use store_core::Store;

/// The number of the first change of a batch that doesn't fit a store, where one doesn't. Where the batch
/// is done again its own name isn't counted, and a removal always fits.
pub(crate) fn first_misfit<const C: usize>(
    store: &Store<C>,
    text: &[u8],
    again: bool,
) -> Option<u64>
    requires whole { store.now.is_broken ≡ false }
    requires batch { (changes : List Change) × IsBatch text.now changes }
    ensures { (changes : List Change) → IsBatch text.now changes
        → result ≡ misfit_in again store.now changes }
{
    let cap = store.cap();
    let mut count = names_beside(store, again);
    if text.is_empty() {
        return None;
    }
    if count >= cap {
        return Some(1);
    }
    let mut rest = text;
    let mut n = 1;
    'parts: while let Some(part) = read_part(rest) {
        let live = is_live(store, &part.name);
        let after = count_after(&part, live, count);
        if !comes(&part, again, live, after, cap) {
            return Some(n);
        }
        count = after;
        n += 1;
        rest = part.rest;
    }
    None
}

/// How many names a store has; where a batch is pending, beside that.
fn names_beside<const C: usize>(store: &Store<C>, again: bool) -> u64
    requires whole { store.now.is_broken ≡ false }
    ensures { result ≡ names_beside again store.now }
{
    if again {
        store.live().saturating_sub(1)
    } else {
        store.live()
    }
}

/// Whether a name is one of a store.
fn is_live<const C: usize>(store: &Store<C>, name: &Name) -> bool
    requires whole { store.now.is_broken ≡ false }
    ensures { result ≡ is_live store.now name.now }
{
    store.size(name.as_bytes()).is_ok()
}

/// How many names there are after a change of a name that is live or isn't.
fn count_after(part: &Part<'_>, live: bool, count: u64) -> u64
    requires { count < 2 ^ 64 - 1 }
    ensures { result ≡ count_after live (change_of part.now).object count }
{
    match (part.object.is_some(), live) {
        (true, false) => count + 1,
        (false, true) => count.saturating_sub(1),
        _ => count,
    }
}

/// Whether a change may come, which leaves so many names: a put, or a removal that finds something or may
/// find nothing, where fewer than `cap` are left.
fn comes(part: &Part<'_>, again: bool, live: bool, after: u64, cap: u64) -> bool
    ensures { result ≡ ((is_some (change_of part.now).object || again || live) && nat_lt after cap) }
{
    (part.object.is_some() || again || live) && after < cap
}
