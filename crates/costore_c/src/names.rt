//! The names of an open store one after another, and what it tells of itself.
ghost use Rattle.std.specs.Prelude.{◌≡◌};
ghost use Rattle.costore_c.specs.{Calls.{OnOpenElse}, Facts.{Informs, Names, Passes, named}};

use crate::codes::{BROKEN, CLOSED, DONE, MISSING, SHORT, of_refusal};
use lent_store::LentStore;
use store_handle::{Handle, Stage};

/// What a store is, what it has, and what it can have.
#[derive(Clone, Copy)]
#[repr(C)]
pub struct Info {
    pub version: u64,
    pub k: u64,
    pub names: u64,
    pub names_most: u64,
    pub live: u64,
    pub bytes: u64,
    pub kept: u64,
    pub kept_bytes: u64,
    pub sequence: u64,
    pub file: u64,
    pub room: u64,
    pub moves_left: u64,
    pub bytes_left: u64,
}

/// Writes what there is to tell of a store, also while a flush is in hand. At a refusal nothing is written.
#[unsafe(no_mangle)]
pub extern "C" fn costore_info(store: &mut Handle, info: &mut Info) -> i32
    ensures read { OnOpenElse (info.new ≡ info.old) (Informs info.old info.new) store.old.value.stage
        result }
    ensures frame { store.new ≡ store.old }
{
    match &store.held().stage {
        Stage::Open(open) => inform(open, info),
        _ => CLOSED,
    }
}

/// Copies the first name that is greater than these bytes to the front of `out`, and writes how many bytes it
/// has, and how many its object. At a refusal nothing is written.
#[unsafe(no_mangle)]
pub extern "C" fn costore_next(
    store: &mut Handle,
    above: &[u8],
    out: &mut [u8],
    length: &mut u64,
    size: &mut u64,
) -> i32
    ensures read { OnOpenElse (named out.new length.new size.new ≡ named out.old length.old size.old)
        (Names above.now (named out.old length.old size.old) (named out.new length.new size.new))
        store.old.value.stage result }
    ensures frame { store.new ≡ store.old }
{
    match &store.held().stage {
        Stage::Open(open) => next(open, above, out, length, size),
        _ => CLOSED,
    }
}

/// What there is to tell of what is open.
fn inform(open: &LentStore, info: &mut Info) -> i32
    ensures { Informs info.old info.new open.now result }
{
    if open.is_broken() {
        return BROKEN;
    }
    let facts = open.facts();
    *info = Info {
        version: u64::from(facts.version),
        k: facts.k,
        names: facts.names,
        names_most: facts.cap,
        live: facts.live,
        bytes: facts.bytes,
        kept: facts.kept_live,
        kept_bytes: facts.kept_bytes,
        sequence: facts.sequence,
        file: open.end(),
        room: open.room(),
        moves_left: facts.moves_left,
        bytes_left: facts.bytes_left,
    };
    DONE
}

/// The next name of what is open.
fn next(open: &LentStore, above: &[u8], out: &mut [u8], length: &mut u64, size: &mut u64) -> i32
    ensures { Names above.now (named out.old length.old size.old) (named out.new length.new size.new) open.now
        result }
{
    match open.next_above(above) {
        Ok(Some((name, bytes))) => pass(name.as_bytes(), bytes, out, length, size),
        Ok(None) => MISSING,
        Err(refusal) => of_refusal(refusal),
    }
}

/// Copies a name to the front of `out`, where it fits, and writes the two numbers.
fn pass(name: &[u8], bytes: u64, out: &mut [u8], length: &mut u64, size: &mut u64) -> i32
    ensures { Passes name.now bytes (named out.old length.old size.old) (named out.new length.new size.new)
        result }
{
    let n = name.len();
    if n > out.len() {
        return SHORT;
    }
    out[..n].copy_from_slice(name);
    *length = n as u64;
    *size = bytes;
    DONE
}
