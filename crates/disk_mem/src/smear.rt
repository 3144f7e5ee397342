//! What a crash may make of the bytes that calls wrote or grew.
ghost use Rattle.std.specs.Prelude.{◌≡◌, ◌≤◌, ◌-◌, length, replicate, OnOk, option_map, slice_get};
ghost use Rattle.byte_ranges.specs.Ranges.{overwritten};
ghost use Rattle.disk_mem.specs.{Entries.{change_of, stamp_of, newest_first}, Tearing.{filled, smeared, smeared_after, smeared_next}};

use crate::record::{Call, Entry};
use std::alloc::AllocError;

/// Puts the byte into the part of a range that lies within the file.
fn fill(file: &mut [u8], pos: u64, n: u64, byte: u8)
    ensures { file.new ≡ filled byte pos n file.old }
{
    let len = file.len() as u64;
    let start = pos.min(len) as usize;
    let stop = pos.saturating_add(n).min(len) as usize;
    fill_within(file, start, stop, byte);
}

fn fill_within(file: &mut [u8], start: usize, stop: usize, byte: u8)
    requires order { start ≤ stop }
    requires within { stop ≤ length file.old }
    ensures { file.new ≡ overwritten file.old start (replicate (stop - start) byte) }
{
    file[start..stop].fill(byte);
}

/// Does a call again with the byte in place of each that it wrote or grew.
fn smear_one(file: &mut Vec<u8>, call: &Call, byte: u8) -> Result<(), AllocError>
    ensures { OnOk result (file.new.items ≡ smeared byte (change_of call.now) file.old.items) }
{
    match call {
        Call::Write(pos, bytes) => {
            fill(file, *pos, bytes.len() as u64, byte);
            Ok(())
        }
        Call::Resize(n) => file.resize(*n as usize, byte),
        Call::Sync => Ok(()),
    }
}

/// Does the calls again with the byte in place of each that they wrote or grew.
pub fn smear(file: &mut Vec<u8>, entries: &[Entry], byte: u8) -> Result<(), AllocError>
    ensures { OnOk result (file.new.items ≡ smeared_after byte file.old.items (newest_first entries.now)) }
{
    'calls: for entry in entries {
        smear_one(file, &entry.call, byte)?;
    }
    Ok(())
}

/// Puts the byte into the range of the call at an index, where that is a write of the turn.
pub fn smear_next(file: &mut Vec<u8>, entries: &[Entry], index: usize, turn: u64, byte: u8)
    ensures { file.new.items ≡ smeared_next turn byte (option_map stamp_of (slice_get entries.now index))
        file.old.items }
{
    if index >= entries.len() {
        return;
    }
    let next = &entries[index];
    if next.began != turn {
        return;
    }
    match &next.call {
        Call::Write(pos, bytes) => fill(file, *pos, bytes.len() as u64, byte),
        _ => {}
    }
}
