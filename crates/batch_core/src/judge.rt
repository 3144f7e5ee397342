//! Why a batch isn't begun.
ghost use Rattle.std.specs.Prelude.{◌≡◌, List, false, if◌then◌else◌};
ghost use Rattle.map_model.specs.Requests.{Change};
ghost use Rattle.batch_model.specs.Batches.{IsBatch};
ghost use Rattle.batch_core.specs.Answers.{HasFit, IsJudged};

use crate::BatchFault;
use crate::fit::first_misfit;
use batch_model::check::check_text;
use store_core::Store;

/// From this sequence on no batch is begun: one raises it by less than 2^25.
const WORN_FROM: u64 = (1 << 61) - (1 << 25);

/// Why a text isn't done as a batch by a store, if it isn't: the first fault that applies. `again` says
/// that it is the one that the store keeps.
pub(crate) fn judge<const C: usize>(
    store: &Store<C>,
    text: &[u8],
    again: bool,
) -> Result<(), BatchFault>
    requires whole { store.now.is_broken ≡ false }
    ensures { IsJudged again store.now text.now result }
{
    match check_text(text) {
        Ok(_) => judge_batch(store, text, again),
        Err(n) => Err(no_batch(again, n)),
    }
}

/// Why a batch isn't done by a store, if it isn't.
fn judge_batch<const C: usize>(store: &Store<C>, text: &[u8], again: bool) -> Result<(), BatchFault>
    requires whole { store.now.is_broken ≡ false }
    requires batch { (changes : List Change) × IsBatch text.now changes }
    ensures { IsJudged again store.now text.now result }
{
    match first_misfit(store, text, again) {
        Some(n) => Err(BatchFault::Unfit(n)),
        None => judge_room(store, text, again),
    }
}

/// Whether the sequence leaves room for a batch that fits, if there is something to do.
fn judge_room<const C: usize>(store: &Store<C>, text: &[u8], again: bool) -> Result<(), BatchFault>
    requires { HasFit again store.now text.now }
    ensures { IsJudged again store.now text.now result }
{
    if store.gauge().sequence < WORN_FROM {
        return Ok(());
    }
    if again || text.len() > 0 {
        return Err(BatchFault::Worn);
    }
    Ok(())
}

/// That a text stops being a batch at a request.
fn no_batch(again: bool, n: u64) -> BatchFault
    ensures { result ≡ (if again then BatchFault.NoBatch else BatchFault.Line n) }
{
    if again {
        BatchFault::NoBatch
    } else {
        BatchFault::Line(n)
    }
}
