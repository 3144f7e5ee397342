//! Reading a line, and what it asks for.
ghost use Rattle.std.specs.Prelude.{◌≡◌, ◌⊎◌, ◌+◌, ◌≤◌, ◌++◌, [], ◌∷◌, None, length, IfOk, IfSome, IsTrue, Ok, OnOk, false};
ghost use Rattle.arrayvec.specs.ArrayVec.{array_vec_len};
ghost use Rattle.disk_face.specs.Counts.{HasCause};
ghost use Rattle.ask_text.specs.{Asks.{IsAsk, line_of}, Inputs.{BeginsNone}};
ghost use Rattle.ask_lines.specs.Lines.{Lacks, newline_if};

use crate::Ahead;
use arrayvec::ArrayVec;
use ask_text::{Ask, read_ask};
use disk_face::{Source, SourceFault};

/// How many bytes of a line are read at most: the longest line that asks for something has one less
/// with its newline.
const LONGEST: usize = 271;

/// What the next line asks for, and its newline is taken too; none where no request stands in front.
pub fn next_ask<I: Source>(ahead: &mut Ahead, input: &mut I) -> Result<Option<Ask>, SourceFault>
    ensures ask { IfOk result (λ found. IfSome found IsAsk) }
    ensures line { IsTrue (I.state input.old).tells → IfOk result (λ found. IfSome found (λ ask.
        ahead.old ++ (I.state input.old).left
        ≡ line_of ask ++ 10 ∷ (ahead.new ++ (I.state input.new).left))) }
    ensures none { IsTrue (I.state input.old).tells → result ≡ Ok None
        → BeginsNone (ahead.old ++ (I.state input.old).left) }
    ensures told { (I.state input.new).tells ≡ (I.state input.old).tells }
    ensures cause { HasCause (I.state input.old).faults (I.state input.new).faults result }
{
    let mut line = ArrayVec::new();
    let found = read_line(ahead, input, &mut line, LONGEST)?;
    if !found {
        return Ok(None);
    }
    match read_ask(line.as_slice()) {
        Ok(ask) => Ok(Some(ask)),
        Err(_) => Ok(None),
    }
}

/// Reads a line, and takes its newline too; false where there is none among the `most` bytes that are
/// read.
pub fn read_line<I: Source>(
    ahead: &mut Ahead,
    input: &mut I,
    line: &mut ArrayVec<u8, 512>,
    most: usize,
) -> Result<bool, SourceFault>
    requires empty { line.old.items ≡ [] }
    requires fits { most ≤ 512 }
    ensures lacks { OnOk result (Lacks 10 line.new.items) }
    ensures whole { IsTrue (I.state input.old).tells
        → IfOk result (λ found. ahead.old ++ (I.state input.old).left
        ≡ line.new.items ++ (newline_if found ++ (ahead.new ++ (I.state input.new).left))) }
    ensures long { IsTrue (I.state input.old).tells → result ≡ Ok false → (most ≤ length line.new.items)
        ⊎ (ahead.new ++ (I.state input.new).left ≡ []) }
    ensures told { (I.state input.new).tells ≡ (I.state input.old).tells }
    ensures cause { HasCause (I.state input.old).faults (I.state input.new).faults result }
{
    'bytes: while line.len() < most {
        match ahead.next(input)? {
            None => return Ok(false),
            Some(b'\n') => return Ok(true),
            Some(byte) => add(line, byte),
        }
    }
    Ok(false)
}

/// Adds a byte.
fn add(line: &mut ArrayVec<u8, 512>, byte: u8)
    requires { array_vec_len line.old + 1 ≤ 512 }
    ensures { line.new.items ≡ line.old.items ++ byte ∷ [] }
{
    line.try_extend_from_slice(&[byte]).unwrap();
}
