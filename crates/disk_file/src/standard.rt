//! The numbers of the standard streams.
ghost use Rattle.std.specs.Prelude.{◌<ℤ◌, pos, IfOk, IfSome, IsTrue, IsFalse};
ghost use Rattle.std.specs.Fs.{asks_append, asks_read, asks_write};

use std::fs::{Files, OpenOptions};
use std::io::{self, ErrorKind};
use std::os::fd::AsRawFd;

/// A file that gives nothing.
const NOTHING: &str = "/dev/null";

/// The greatest number of a standard stream.
const LAST_NUMBER: i32 = 2;

/// Open files that hold the numbers of the standard streams until they are dropped.
#[derive(Drop)]
pub struct HeldNumbers<F> {
    lower: (F, F, F),
    above: F,
}

/// The options of a file that can't be written: what is put to a closed output has to fail.
fn options() -> OpenOptions
    ensures reads { IsTrue (asks_read result) }
    ensures never_writes { IsFalse (asks_write result) }
    ensures never_appends { IsFalse (asks_append result) }
{
    let mut options = OpenOptions::new();
    options.read(true);
    options
}

/// Takes the numbers of the standard streams that are closed. The system gives a file the least
/// number that is free, so without this the store's file could get that of a closed output, and what
/// is put would be written over the store. Files are opened until one gets a number above those.
pub fn hold_numbers<R: Files>(rt: &R) -> io::Result<HeldNumbers<R::File>>
where
    R::File: AsRawFd,
    ensures { IfOk result (λ held. IfSome (R.File.raw_fd held.above) (λ number. pos 2 <ℤ number)) }
{
    let options = options();
    let lower = (
        options.open(rt, NOTHING)?,
        options.open(rt, NOTHING)?,
        options.open(rt, NOTHING)?,
    );
    let above = options.open(rt, NOTHING)?;
    if above.as_raw_fd() <= LAST_NUMBER {
        return Err(io::Error::from(ErrorKind::Other));
    }
    Ok(HeldNumbers { lower, above })
}
