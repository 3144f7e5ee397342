//! Images of a turn, built from the record.
ghost use Rattle.std.specs.Prelude.{◌≡◌, OnOk, IfOk, option_map, slice_get};
ghost use Rattle.disk_history.specs.{Histories.{History}, Changes.{changed, content_after}};
ghost use Rattle.disk_mem.specs.{Tearing.{finished}, Turns.{image_at}, Entries.{change_of, stamp_of, newest_first}};

use crate::record::{Call, Entry};
use crate::replay::{cut_or_grow, make_room, put};
use crate::smear::{smear, smear_next};
use crate::turns::{ended_by, synced_by};
use std::alloc::{AllocError, Global};

/// Which image of a turn is built.
#[derive(Clone, Copy, Debug, PartialEq, Eq)]
pub enum Choice {
    /// The content of the last sync up to the turn.
    Durable,
    /// What reads gave after that many changing calls.
    Newest,
    /// The newest bytes, with this byte in place of each that was written or grown since that sync,
    /// and in the range of a write that is next.
    Torn(u8),
}

/// Does a call again. A write that isn't within the file changes nothing.
fn replay_one(file: &mut Vec<u8>, call: &Call) -> Result<(), AllocError>
    ensures { OnOk result (file.new.items ≡ changed (change_of call.now) file.old.items) }
{
    match call {
        Call::Write(pos, bytes) => {
            let len = file.len() as u64;
            if *pos <= len && bytes.len() as u64 <= len - *pos {
                put(file, *pos, bytes);
            }
            Ok(())
        }
        Call::Resize(n) => {
            make_room(file, *n)?;
            cut_or_grow(file, *n);
            Ok(())
        }
        Call::Sync => Ok(()),
    }
}

/// Does the calls again.
fn replay(file: &mut Vec<u8>, entries: &[Entry]) -> Result<(), AllocError>
    ensures { OnOk result (file.new.items ≡ content_after file.old.items (newest_first entries.now)) }
{
    'calls: for entry in entries {
        replay_one(file, &entry.call)?;
    }
    Ok(())
}

/// Makes what the last sync left into the image, by the calls since and the one at an index.
fn finish(
    file: &mut Vec<u8>,
    since: &[Entry],
    entries: &[Entry],
    index: usize,
    turn: u64,
    choice: Choice,
) -> Result<(), AllocError>
    ensures { OnOk result (file.new.items
        ≡ finished turn choice (option_map stamp_of (slice_get entries.now index)) (newest_first since.now)
        file.old.items) }
{
    match choice {
        Choice::Durable => Ok(()),
        Choice::Newest => replay(file, since),
        Choice::Torn(byte) => {
            smear(file, since, byte)?;
            smear_next(file, entries, index, turn, byte);
            Ok(())
        }
    }
}

/// Builds an image of a turn from the bytes that were synced at first and the calls since.
pub fn build(
    alloc: Global,
    base: &[u8],
    entries: &[Entry],
    turn: u64,
    choice: Choice,
) -> Result<Vec<u8>, AllocError>
    ensures { IfOk result (λ image. (h : History) → h.base ≡ base.now → h.calls ≡ newest_first entries.now
        → image.items ≡ image_at h turn choice) }
{
    let ended = ended_by(entries, turn);
    let done = &entries[..ended];
    let synced = synced_by(done);
    let mut image = Vec::from_slice(alloc, base)?;
    replay(&mut image, &done[..synced])?;
    finish(&mut image, &done[synced..], entries, ended, turn, choice)?;
    Ok(image)
}
