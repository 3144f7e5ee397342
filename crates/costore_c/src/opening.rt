//! Handles: making one over a file, opening and closing its store.
ghost use Rattle.std.specs.Prelude.{◌≡◌, ◌⊎◌, ◌↔◌, pos};
ghost use Rattle.slot_codec.specs.Readable.{IsSuperBlock};
ghost use Rattle.slot_pair.specs.Formats.{block_for};
ghost use Rattle.costore_c.specs.Answers.{bad_number_code, no_memory_code};
ghost use Rattle.costore_c.specs.Openings.{Closes, Formats, IsOpenOf, IsTooLong, MakesLent, OpensLent};
ghost use Rattle.store_handle.specs.declared.Stage.TheVariants as Stage;

use crate::codes::{BAD_NUMBER, CLOSED, DONE, NO_MEMORY, NO_ROOM, NOT_NEW, of_opening};
use lent_disk::{Log, Room};
use lent_region::Region;
use lent_store::LentStore;
use slot_codec::head_len;
use std::alloc::Global;
use std::mem;
use store_handle::{Erased, Handle, Held, Stage};

/// Makes a handle over two lent regions, and writes its pointer. The first has the file's `length` bytes at
/// its front, as they are on the device, and as many bytes as the file can have; the second is for the log of
/// each call. If the file is longer than its region, or there is no memory for the handle, it says so and
/// writes nothing.
#[unsafe(no_mangle)]
pub extern "C" fn costore_new(
    alloc: Global,
    file: Region,
    length: u64,
    log: Region,
    out: &mut *mut u8,
) -> i32
    ensures answers { (result ≡ pos 0) ⊎ (result ≡ no_memory_code) ⊎ (result ≡ bad_number_code) }
    ensures too_long { (result ≡ bad_number_code) ↔ IsTooLong length file.bytes }
    ensures same { (result ≡ no_memory_code) ⊎ (result ≡ bad_number_code) → out.new ≡ out.old }
{
    let file = file.leak();
    let log = Log::of(log.leak());
    if length > file.len() as u64 {
        return BAD_NUMBER;
    }
    let room = Room::of(file, length as usize);
    let stage = Stage::Lent(room, log);
    match Box::new(alloc, Held { stage }) {
        Ok(held) => {
            *out = Handle::of(Erased::of(held)).into_ptr();
            DONE
        }
        Err(_) => NO_MEMORY,
    }
}

/// Opens the store in a file that is at rest on its device. Where it answers no store the
/// handle is closed.
#[unsafe(no_mangle)]
pub extern "C" fn costore_open(alloc: Global, store: &mut Handle) -> i32
    ensures { OpensLent store.old.value.stage store.new.value.stage result }
{
    let held = store.held();
    match mem::replace(&mut held.stage, Stage::Closed) {
        Stage::Lent(room, log) => open_lent(alloc, room, log, &mut held.stage),
        stage => {
            held.stage = stage;
            NOT_NEW
        }
    }
}

/// The same of a file and a log.
fn open_lent(alloc: Global, room: Room, log: Log, stage: &mut Stage) -> i32
    ensures { IsOpenOf room.entry log.entry stage.new result }
{
    match LentStore::open(alloc, room, log) {
        Ok(open) => {
            *stage = Stage::Open(open);
            DONE
        }
        Err(fault) => {
            *stage = Stage::Closed;
            of_opening(&fault)
        }
    }
}

/// Makes a store with no names of an empty file, and opens it. Where it answers that there is no memory, or
/// that the log is too small, the handle is closed; at any other refusal it stays.
#[unsafe(no_mangle)]
pub extern "C" fn costore_format(alloc: Global, store: &mut Handle, k: u64, names: u64) -> i32
    ensures { Formats k names store.old.value.stage store.new.value.stage result }
{
    if !(2 <= k && k <= 64 && 16 <= names && names <= 65536) {
        return BAD_NUMBER;
    }
    let held = store.held();
    match mem::replace(&mut held.stage, Stage::Closed) {
        Stage::Lent(room, log) => make_lent(alloc, room, log, k, names, &mut held.stage),
        stage => {
            held.stage = stage;
            NOT_NEW
        }
    }
}

/// The same of a file and a log; the file is to have no bytes.
fn make_lent(alloc: Global, room: Room, log: Log, k: u64, names: u64, stage: &mut Stage) -> i32
    requires ranges { IsSuperBlock (block_for k names) }
    ensures { MakesLent k names (Stage.Lent room.entry log.entry) stage.new result }
{
    if room.end() != 0 {
        *stage = Stage::Lent(room, log);
        return NOT_NEW;
    }
    if (room.most() as u64) < head_len(names) {
        *stage = Stage::Lent(room, log);
        return NO_ROOM;
    }
    match LentStore::format(alloc, room, log, k, names) {
        Ok(open) => {
            *stage = Stage::Open(open);
            DONE
        }
        Err(fault) => {
            *stage = Stage::Closed;
            of_opening(&fault)
        }
    }
}

/// Closes the store. The memory of its file and of its log is no longer used.
#[unsafe(no_mangle)]
pub extern "C" fn costore_close(store: &mut Handle) -> i32
    ensures { Closes store.old.value.stage store.new.value.stage result }
{
    let held = store.held();
    match mem::replace(&mut held.stage, Stage::Closed) {
        Stage::Closed => CLOSED,
        _ => DONE,
    }
}

/// Gives the handle back. `costore_free` of costore.h calls it, and takes the pointer out of the handle.
#[unsafe(no_mangle)]
pub extern "C" fn costore_end(store: Handle) {
    let _ = store.into_erased().into_box();
}
