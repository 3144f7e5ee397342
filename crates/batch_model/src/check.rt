//! Whether a text is a batch.
ghost use Rattle.std.specs.Prelude.{◌≡◌, ◌≤◌, ◌+◌, ◌<◌, ◌^◌, ◌++◌, ◌∷◌, [], ℕ, List, codes, length, true, false, IfErr, IfOk, IsTrue};
ghost use Rattle.std.specs.declared.cmp.Ordering.TheVariants.{Less};
ghost use Rattle.map_model.specs.{Maps.{name_cmp}, Requests.{Change}, Weights.{same_name}};
ghost use Rattle.batch_model.specs.{Batches.{IsBatch, StopsAt, batch_name}, Parts.{is_behind, may_follow}};

use crate::part::read_part;
use size_class::SIZE_MAX;
use slot_codec::Name;

/// The name under which a batch is kept until all of it was done.
pub const BATCH: &[u8] = b"!batch";

/// How many changes a batch has; or the number of the first request of the text that can't stand in
/// one.
pub fn check_text(text: &[u8]) -> Result<u64, u64>
    ensures batch { IfOk result (λ n. (changes : List Change) × (n ≡ length changes)
        × IsBatch text.now changes) }
    ensures stops { IfErr result (StopsAt text.now) }
{
    let mut rest = text;
    let mut before: Option<Name> = None;
    let mut n = 0;
    'parts: while rest.len() > 0 {
        n += 1;
        let Some(part) = read_part(rest) else {
            return Err(n);
        };
        let end = text.len() - part.rest.len();
        if !may_follow(&before, &part.name, end as u64) {
            return Err(n);
        }
        rest = part.rest;
        before = Some(part.name);
    }
    Ok(n)
}

/// Whether a change of a name that ends there may follow those before it.
fn may_follow(before: &Option<Name>, name: &Name, end: u64) -> bool
    ensures { result ≡ may_follow before.now name.now end }
{
    !is_batch_name(name) && is_behind(before, name) && end <= SIZE_MAX
}

/// Whether a name is the batch's own.
fn is_batch_name(name: &Name) -> bool
    ensures { result ≡ same_name batch_name name.now }
{
    name.as_bytes() == BATCH
}

/// Whether a name comes behind the one before, where there is one.
fn is_behind(before: &Option<Name>, name: &Name) -> bool
    ensures { result ≡ is_behind before.now name.now }
{
    match before {
        None => true,
        Some(before) => before < name,
    }
}
