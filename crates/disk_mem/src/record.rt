//! The record of the changing calls on a disk in memory.
ghost use Rattle.std.specs.Prelude.{◌≡◌, ◌≤◌, ◌∷◌, vec_capacity, OnOk, OnErr};
ghost use Rattle.disk_history.specs.Changes.RecordedCall.{Wrote, Sized};
ghost use Rattle.disk_mem.specs.Entries.{change_of, newest_first};

use crate::replay::make_room;
use std::alloc::AllocError;

/// What is needed to do a call again: a write's place and bytes, a length, or nothing.
#[derive(Drop)]
pub enum Call {
    Write(u64, Vec<u8>),
    Resize(u64),
    Sync,
}

/// A call, with the turn in which it was made.
#[derive(Drop)]
pub struct Entry {
    pub began: u64,
    pub call: Call,
}

/// Adds a call at the end, or finds no memory and leaves the record as it was.
#[tactic(auto, using(crate::proofs::Records::newest_first_push))]
pub fn keep(entries: &mut Vec<Entry>, began: u64, call: Call) -> Result<(), AllocError>
    ensures ok { OnOk result (newest_first entries.new.items
        ≡ record { began = began; change = change_of call } ∷ newest_first entries.old.items) }
    ensures err { OnErr result (entries.new.items ≡ entries.old.items) }
{
    entries.push(Entry { began, call })?;
    Ok(())
}

/// Adds a write with a copy of its bytes, or finds no memory and leaves the record as it was.
pub fn keep_write(
    entries: &mut Vec<Entry>,
    began: u64,
    pos: u64,
    bytes: &[u8],
) -> Result<(), AllocError>
    ensures ok { OnOk result (newest_first entries.new.items
        ≡ record { began = began; change = Wrote pos bytes.now } ∷ newest_first entries.old.items) }
    ensures err { OnErr result (entries.new.items ≡ entries.old.items) }
{
    let copy = Vec::from_slice(*entries.allocator(), bytes)?;
    keep(entries, began, Call::Write(pos, copy))
}

/// Takes memory for a length and adds its change, or finds none and leaves record and file as they were.
pub fn keep_length(
    entries: &mut Vec<Entry>,
    began: u64,
    file: &mut Vec<u8>,
    n: u64,
) -> Result<(), AllocError>
    ensures items { file.new.items ≡ file.old.items }
    ensures room { OnOk result (n ≤ vec_capacity file.new) }
    ensures ok { OnOk result (newest_first entries.new.items
        ≡ record { began = began; change = Sized n } ∷ newest_first entries.old.items) }
    ensures err { OnErr result (entries.new.items ≡ entries.old.items) }
{
    make_room(file, n)?;
    keep(entries, began, Call::Resize(n))
}
