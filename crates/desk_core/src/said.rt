//! Reading what a session says, which is the text of a request.
ghost use Rattle.std.specs.Prelude.{◌≡◌, ◌≤◌, ◌<◌, ◌+◌, ◌++◌, ◌∷◌, [], ℕ, List, None, Err, IfErr, IfOk, IfSome, IsTrue, OnOk, drop, length, take};
ghost use Rattle.size_class.specs.declared.TheConstants.{SIZE_MAX};
ghost use Rattle.ask_session.specs.Inputs.{HasSourceCause, HoldsObject, LacksObject};
ghost use Rattle.ask_text.specs.{Asks.{IsAsk, line_of}, Inputs.{BeginsNone}};
ghost use Rattle.desk_core.specs.Hearing.{DropsObject, Hears, IsTextFault};

use arrayvec::ArrayVec;
use ask_lines::{Ahead, fill, skip};
use ask_session::{object_size, read_first};
use ask_text::{Ask, End};
use disk_face::{Source, SourceFault};

/// Reads the text of a request into the front of `text`, and answers how many bytes it has. One that has more
/// than `room` is read and dropped, and the answer is none.
pub(crate) fn read_said<I: Source>(
    ahead: &mut Ahead,
    input: &mut I,
    text: &mut [u8],
    room: usize,
) -> Result<Option<usize>, End>
    requires fits { room ≤ length text.old }
    requires small { room ≤ SIZE_MAX }
    ensures hears { IfOk result (λ kept. Hears (IsTrue (I.state input.old).tells)
        (ahead.old ++ (I.state input.old).left) (ahead.new ++ (I.state input.new).left) room text.new kept) }
    ensures only { IfErr result IsTextFault }
    ensures none { IsTrue (I.state input.old).tells → result ≡ Err End.Line
        → BeginsNone (ahead.old ++ (I.state input.old).left) }
    ensures told { (I.state input.new).tells ≡ (I.state input.old).tells }
    ensures cause { HasSourceCause (I.state input.old).faults (I.state input.new).faults result }
    ensures same_length { length text.new ≡ length text.old }
{
    let mut line = ArrayVec::new();
    match read_first(ahead, input, &mut line) {
        Ok(ask) => read_behind(ahead, input, text, room, &ask, line.as_slice()),
        Err(End::Source) => Err(End::Source),
        Err(_) => Err(End::Line),
    }
}

/// Reads what stands behind the line of a request, as `read_said` does.
fn read_behind<I: Source>(
    ahead: &mut Ahead,
    input: &mut I,
    text: &mut [u8],
    room: usize,
    ask: &Ask,
    line: &[u8],
) -> Result<Option<usize>, End>
    requires fits { room ≤ length text.old }
    requires small { room ≤ SIZE_MAX }
    requires asks { IsAsk ask.now }
    requires line { line.now ≡ line_of ask.now }
    ensures hears { (input0 : List ℕ) → (IsTrue (I.state input.old).tells → input0
        ≡ line_of ask.now ++ 10 ∷ (ahead.old ++ (I.state input.old).left)) → IfOk result (λ kept.
        Hears (IsTrue (I.state input.old).tells) input0 (ahead.new ++ (I.state input.new).left) room text.new
        kept) }
    ensures only { IfErr result IsTextFault }
    ensures none { (input0 : List ℕ)
        → input0 ≡ line_of ask.now ++ 10 ∷ (ahead.old ++ (I.state input.old).left)
        → IsTrue (I.state input.old).tells → result ≡ Err End.Line → BeginsNone input0 }
    ensures told { (I.state input.new).tells ≡ (I.state input.old).tells }
    ensures cause { HasSourceCause (I.state input.old).faults (I.state input.new).faults result }
    ensures same_length { length text.new ≡ length text.old }
{
    let head = line.len() + 1;
    let Some(size) = object_size(ask) else {
        return Ok(put_head(text, line, room));
    };
    if head as u64 + size + 1 > room as u64 {
        return match drop_object(ahead, input, size) {
            Ok(()) => Ok(None),
            Err(end) => Err(end),
        };
    }
    let size = size as usize;
    put_line(text, line);
    match read_object(ahead, input, text, head, size) {
        Ok(()) => {
            put_newline(text, head + size);
            Ok(Some(head + size + 1))
        }
        Err(end) => Err(end),
    }
}

/// Puts a line and its newline into the front of `text`, and answers how many bytes they are; none, and
/// nothing is put, where they are more than `room`.
fn put_head(text: &mut [u8], line: &[u8], room: usize) -> Option<usize>
    requires fits { room ≤ length text.old }
    ensures some { IfSome result (λ n. (n ≡ length line.now + 1) × (n ≤ room)
        × (take n text.new ≡ line.now ++ 10 ∷ [])) }
    ensures none { result ≡ None → room < length line.now + 1 }
    ensures same_length { length text.new ≡ length text.old }
{
    let head = line.len() + 1;
    if head > room {
        return None;
    }
    put_line(text, line);
    Some(head)
}

/// Puts a line and its newline into the front of `text`.
fn put_line(text: &mut [u8], line: &[u8])
    requires room { length line.now < length text.old }
    ensures front { take (length line.now + 1) text.new ≡ line.now ++ 10 ∷ [] }
    ensures same_length { length text.new ≡ length text.old }
{
    let n = line.len();
    text[..n].copy_from_slice(line);
    put_newline(text, n);
}

/// Puts a newline behind the first bytes of `text`, so many.
fn put_newline(text: &mut [u8], at: usize)
    requires within { at < length text.old }
    ensures front { take (at + 1) text.new ≡ take at text.old ++ 10 ∷ [] }
    ensures same_length { length text.new ≡ length text.old }
{
    text[at] = b'\n';
}

/// Reads an object of so many bytes into `text`, from a place on, and the newline behind it.
fn read_object<I: Source>(
    ahead: &mut Ahead,
    input: &mut I,
    text: &mut [u8],
    from: usize,
    size: usize,
) -> Result<(), End>
    requires room { from + size ≤ length text.old }
    ensures object { OnOk result (HoldsObject (IsTrue (I.state input.old).tells)
        (ahead.old ++ (I.state input.old).left) (10 ∷ (ahead.new ++ (I.state input.new).left)) size
        (drop from text.new)) }
    ensures front { take from text.new ≡ take from text.old }
    ensures only { IfErr result IsTextFault }
    ensures none { IsTrue (I.state input.old).tells → result ≡ Err End.Line
        → LacksObject size (ahead.old ++ (I.state input.old).left) }
    ensures told { (I.state input.new).tells ≡ (I.state input.old).tells }
    ensures cause { HasSourceCause (I.state input.old).faults (I.state input.new).faults result }
    ensures same_length { length text.new ≡ length text.old }
{
    match fill(ahead, input, &mut text[from..from + size]) {
        Ok(true) => take_newline(ahead, input),
        Ok(false) => Err(End::Line),
        Err(SourceFault) => Err(End::Source),
    }
}

/// Drops an object of so many bytes, and the newline behind it.
fn drop_object<I: Source>(ahead: &mut Ahead, input: &mut I, size: u64) -> Result<(), End>
    ensures object { OnOk result (DropsObject (IsTrue (I.state input.old).tells)
        (ahead.old ++ (I.state input.old).left) (10 ∷ (ahead.new ++ (I.state input.new).left)) size) }
    ensures only { IfErr result IsTextFault }
    ensures none { IsTrue (I.state input.old).tells → result ≡ Err End.Line
        → LacksObject size (ahead.old ++ (I.state input.old).left) }
    ensures told { (I.state input.new).tells ≡ (I.state input.old).tells }
    ensures cause { HasSourceCause (I.state input.old).faults (I.state input.new).faults result }
{
    match skip(ahead, input, size) {
        Ok(true) => take_newline(ahead, input),
        Ok(false) => Err(End::Line),
        Err(SourceFault) => Err(End::Source),
    }
}

/// Takes a newline.
fn take_newline<I: Source>(ahead: &mut Ahead, input: &mut I) -> Result<(), End>
    ensures taken { IsTrue (I.state input.old).tells → OnOk result
        (ahead.old ++ (I.state input.old).left ≡ 10 ∷ (ahead.new ++ (I.state input.new).left)) }
    ensures only { IfErr result IsTextFault }
    ensures none { IsTrue (I.state input.old).tells → result ≡ Err End.Line
        → (rest : List ℕ) → ahead.old ++ (I.state input.old).left ≡ 10 ∷ rest → ⊥ }
    ensures told { (I.state input.new).tells ≡ (I.state input.old).tells }
    ensures cause { HasSourceCause (I.state input.old).faults (I.state input.new).faults result }
{
    match ahead.next(input) {
        Ok(Some(b'\n')) => Ok(()),
        Ok(_) => Err(End::Line),
        Err(SourceFault) => Err(End::Source),
    }
}
