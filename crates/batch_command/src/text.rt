//! Reading the text of a batch.
ghost use Rattle.std.specs.Prelude.{◌≡◌, ◌≤◌, IfOk, IsTrue, OnErr, length, take, vec_len};
ghost use Rattle.disk_face.specs.Counts.{HasCause};
ghost use Rattle.batch_command.specs.Reading.{LeavesFrom, ReadsFront};

use disk_face::{Source, SourceFault};
use slot_codec::NoMemory;
use std::alloc::Global;

/// Memory for a text of so many bytes.
pub(crate) fn room_for(alloc: Global, most: usize) -> Result<Vec<u8>, NoMemory>
    ensures { IfOk result (λ text. vec_len text ≡ most) }
{
    let Ok(text) = vec![in alloc; 0; most] else {
        return Err(NoMemory);
    };
    Ok(text)
}

/// Reads as many bytes as `text` has room for, or as many as are left, and answers how many.
pub(crate) fn read_text<I: Source>(input: &mut I, text: &mut [u8]) -> Result<usize, SourceFault>
    ensures long { length text.new ≡ length text.old }
    ensures bound { IfOk result (λ n. n ≤ length text.old) }
    ensures read { IsTrue (I.state input.old).tells → IfOk result (λ n. ReadsFront (length text.old)
        (I.state input.old).left (I.state input.new).left (take n text.new)) }
    ensures front { IsTrue (I.state input.old).tells → OnErr result (LeavesFrom (length text.old)
        (I.state input.old).left (I.state input.new).left) }
    ensures told { (I.state input.new).tells ≡ (I.state input.old).tells }
    ensures cause { HasCause (I.state input.old).faults (I.state input.new).faults result }
{
    let mut filled = 0;
    'pieces: while filled < text.len() {
        let n = input.take(&mut text[filled..])?;
        if n == 0 {
            return Ok(filled);
        }
        filled += n;
    }
    Ok(filled)
}
