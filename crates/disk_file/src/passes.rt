//! Reads and writes of streams, of which one call may pass on a part alone.
ghost use Rattle.std.specs.Prelude.{◌≡◌, ◌≤◌, ℕ, length, take, OnOk};
ghost use Rattle.std.specs.Io.{ReadsAtMost};
ghost use Rattle.std.specs.Io.KnownBytes.{Appends, ReadConsumes};

use crate::cause::Cause;
use crate::retries::is_interrupted;
use std::io::{self, ErrorKind, Read, Write};

/// Reads once, and again where the call was interrupted.
pub fn read_once<I: Read>(reader: &mut I, out: &mut [u8]) -> io::Result<usize>
    ensures bound { ReadsAtMost result out.new }
    ensures bytes { ReadConsumes (I.remaining reader.old) (I.remaining reader.new) result out.new }
{
    'calls: for _ in 0..u64::MAX {
        match reader.read(out) {
            Err(error) if is_interrupted(&error) => {}
            result => return result,
        }
    }
    Err(io::Error::from(ErrorKind::Interrupted))
}

/// Writes all the bytes. An interrupted call is tried again; any other failed call, and one that
/// takes none of what is left, ends it with its cause, where a front of the bytes was written.
pub fn put_all<O: Write>(writer: &mut O, bytes: &[u8]) -> Result<(), Cause>
    ensures all { OnOk result (Appends (O.contents writer.old) (O.contents writer.new) bytes.now) }
    ensures front { (n : ℕ) × (n ≤ length bytes.now)
        × Appends (O.contents writer.old) (O.contents writer.new) (take n bytes.now) }
{
    let mut done = 0;
    'calls: for _ in 0..u64::MAX {
        if done >= bytes.len() {
            return Ok(());
        }
        match writer.write(&bytes[done..]) {
            Ok(0) => return Err(Cause::NoneTaken),
            Ok(n) => done += n,
            Err(error) if is_interrupted(&error) => {}
            Err(error) => return Err(Cause::System(error)),
        }
    }
    Err(Cause::NoneTaken)
}
