//! Reading or dropping so many bytes.
ghost use Rattle.std.specs.Prelude.{◌≡◌, ◌<◌, ◌≤◌, ◌++◌, Ok, IsTrue, drop, false, length, true};
ghost use Rattle.disk_face.specs.Counts.{HasCause};

use crate::Ahead;
use disk_face::{Source, SourceFault};

/// Fills a piece with the next bytes; false where the input ends before it is full.
pub fn fill<I: Source>(
    ahead: &mut Ahead,
    input: &mut I,
    piece: &mut [u8],
) -> Result<bool, SourceFault>
    ensures filled { IsTrue (I.state input.old).tells → result ≡ Ok true
        → ahead.old ++ (I.state input.old).left ≡ piece.new ++ (ahead.new ++ (I.state input.new).left) }
    ensures short { IsTrue (I.state input.old).tells → result ≡ Ok false
        → length (ahead.old ++ (I.state input.old).left) < length piece.old }
    ensures told { (I.state input.new).tells ≡ (I.state input.old).tells }
    ensures cause { HasCause (I.state input.old).faults (I.state input.new).faults result }
{
    let mut done = 0;
    'parts: while done < piece.len() {
        let n = ahead.take(input, &mut piece[done..])?;
        if n == 0 {
            return Ok(false);
        }
        done += n;
    }
    Ok(true)
}

/// Drops so many bytes; false where the input ends before.
pub fn skip<I: Source>(ahead: &mut Ahead, input: &mut I, size: u64) -> Result<bool, SourceFault>
    ensures dropped { IsTrue (I.state input.old).tells → result ≡ Ok true
        → (size ≤ length (ahead.old ++ (I.state input.old).left))
        × (ahead.new ++ (I.state input.new).left ≡ drop size (ahead.old ++ (I.state input.old).left)) }
    ensures ended { IsTrue (I.state input.old).tells → result ≡ Ok false
        → length (ahead.old ++ (I.state input.old).left) < size }
    ensures told { (I.state input.new).tells ≡ (I.state input.old).tells }
    ensures cause { HasCause (I.state input.old).faults (I.state input.new).faults result }
{
    let mut done = 0;
    'pieces: while done < size {
        let n = ahead.pass(input, size - done)?;
        if n == 0 {
            return Ok(false);
        }
        done += n;
    }
    Ok(true)
}
