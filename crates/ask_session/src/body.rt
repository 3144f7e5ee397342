//! Reading the object of a put, and its newline.
ghost use Rattle.std.specs.Prelude.{◌≡◌, ◌≤◌, ◌<◌, ◌+◌, ◌++◌, ◌∷◌, [], ℕ, List, false, true, length, drop, take, IfOk, IfErr, IsTrue, Err, Ok, OnOk, vec_capacity, vec_len};
ghost use Rattle.disk_face.specs.Counts.{HasCause};
ghost use Rattle.ask_session.specs.Inputs.{HasSourceCause, HoldsObject, IsInputFault, LacksObject};

use ask_lines::{Ahead, skip};
use ask_text::End;
use disk_face::{Source, SourceFault};
use size_class::SIZE_MAX;

/// How many bytes a body is made longer by before a read, at most; a pipe holds as many.
const PIECE: usize = 65_536;

/// Reads an object of so many bytes, and the newline behind it, into the front of `body`. One that is
/// longer than the longest object is read and dropped.
pub(crate) fn read_object<I: Source>(
    ahead: &mut Ahead,
    input: &mut I,
    size: u64,
    body: &mut Vec<u8>,
) -> Result<(), End>
    requires room { SIZE_MAX ≤ vec_capacity body.old }
    ensures object { OnOk result (HoldsObject (IsTrue (I.state input.old).tells) (ahead.old
        ++ (I.state input.old).left)
        (10 ∷ (ahead.new ++ (I.state input.new).left)) size body.new.items) }
    ensures long { OnOk result (size ≤ SIZE_MAX → size ≤ vec_len body.new) }
    ensures same_room { vec_capacity body.old ≤ vec_capacity body.new }
    ensures only { IfErr result IsInputFault }
    ensures no_end { result ≡ Err End.End → ⊥ }
    ensures none { IsTrue (I.state input.old).tells → result ≡ Err End.Line
        → LacksObject size (ahead.old ++ (I.state input.old).left) }
    ensures told { (I.state input.new).tells ≡ (I.state input.old).tells }
    ensures cause { HasSourceCause (I.state input.old).faults (I.state input.new).faults result }
{
    match take_body(ahead, input, size, body) {
        Ok(true) => read_newline(ahead, input),
        Ok(false) => Err(End::Line),
        Err(SourceFault) => Err(End::Source),
    }
}

/// Takes so many bytes into the front of `body`, or drops them where they are more than any object has;
/// false where the input ends before.
fn take_body<I: Source>(
    ahead: &mut Ahead,
    input: &mut I,
    size: u64,
    body: &mut Vec<u8>,
) -> Result<bool, SourceFault>
    requires room { SIZE_MAX ≤ vec_capacity body.old }
    ensures object { result ≡ Ok true → HoldsObject (IsTrue (I.state input.old).tells)
        (ahead.old ++ (I.state input.old).left) (ahead.new ++ (I.state input.new).left) size body.new.items }
    ensures long { size ≤ SIZE_MAX → size ≤ vec_len body.new }
    ensures same_room { vec_capacity body.old ≤ vec_capacity body.new }
    ensures ended { IsTrue (I.state input.old).tells → result ≡ Ok false
        → length (ahead.old ++ (I.state input.old).left) < size }
    ensures told { (I.state input.new).tells ≡ (I.state input.old).tells }
    ensures cause { HasCause (I.state input.old).faults (I.state input.new).faults result }
{
    if size > SIZE_MAX {
        return skip(ahead, input, size);
    }
    let answer = fill_front(ahead, input, size as usize, body);
    lengthen(body, size as usize);
    answer
}

/// Fills the first bytes of `body`, so many, and makes it longer as they come, where it isn't so long;
/// false where the input ends before.
fn fill_front<I: Source>(
    ahead: &mut Ahead,
    input: &mut I,
    size: usize,
    body: &mut Vec<u8>,
) -> Result<bool, SourceFault>
    requires room { size ≤ vec_capacity body.old }
    ensures object { result ≡ Ok true → HoldsObject (IsTrue (I.state input.old).tells)
        (ahead.old ++ (I.state input.old).left) (ahead.new ++ (I.state input.new).left) size body.new.items }
    ensures long { result ≡ Ok true → size ≤ vec_len body.new }
    ensures same_room { vec_capacity body.old ≤ vec_capacity body.new }
    ensures ended { IsTrue (I.state input.old).tells → result ≡ Ok false
        → length (ahead.old ++ (I.state input.old).left) < size }
    ensures told { (I.state input.new).tells ≡ (I.state input.old).tells }
    ensures cause { HasCause (I.state input.old).faults (I.state input.new).faults result }
{
    let mut done = 0;
    'pieces: while done < size {
        let n = take_piece(ahead, input, done, size, body)?;
        if n == 0 {
            return Ok(false);
        }
        done += n;
    }
    Ok(true)
}

/// Takes the next of `size` bytes to behind the first `done` of `body`, and answers how many. It makes
/// `body` longer by one piece at most, so that the cache still has its memory when it is read into.
fn take_piece<I: Source>(
    ahead: &mut Ahead,
    input: &mut I,
    done: usize,
    size: usize,
    body: &mut Vec<u8>,
) -> Result<usize, SourceFault>
    requires within { done < size }
    requires there { done ≤ vec_len body.old }
    requires room { size ≤ vec_capacity body.old }
    ensures bound { IfOk result (λ n. done + n ≤ size) }
    ensures long { IfOk result (λ n. done + n ≤ vec_len body.new) }
    ensures same_room { vec_capacity body.old ≤ vec_capacity body.new }
    ensures front { take done body.new.items ≡ take done body.old.items }
    ensures taken { IsTrue (I.state input.old).tells → IfOk result (λ n. ahead.old ++ (I.state input.old).left
        ≡ take n (drop done body.new.items) ++ (ahead.new ++ (I.state input.new).left)) }
    ensures ended { IsTrue (I.state input.old).tells → result ≡ Ok 0
        → ahead.old ++ (I.state input.old).left ≡ [] }
    ensures told { (I.state input.new).tells ≡ (I.state input.old).tells }
    ensures cause { HasCause (I.state input.old).faults (I.state input.new).faults result }
{
    let end = done + (size - done).min(PIECE);
    lengthen(body, end);
    ahead.take(input, &mut body[done..end])
}

/// Makes `body` at least so long, within its room.
fn lengthen(body: &mut Vec<u8>, size: usize)
    requires room { size ≤ vec_capacity body.old }
    ensures long { size ≤ vec_len body.new }
    ensures same_room { vec_capacity body.old ≤ vec_capacity body.new }
    ensures longer { vec_len body.old ≤ vec_len body.new }
    ensures front { take (vec_len body.old) body.new.items ≡ body.old.items }
{
    if body.len() < size {
        body.resize(size, 0).unwrap();
    }
}

/// Takes a newline.
fn read_newline<I: Source>(ahead: &mut Ahead, input: &mut I) -> Result<(), End>
    ensures taken { IsTrue (I.state input.old).tells → OnOk result
        (ahead.old ++ (I.state input.old).left ≡ 10 ∷ (ahead.new ++ (I.state input.new).left)) }
    ensures only { IfErr result IsInputFault }
    ensures no_end { result ≡ Err End.End → ⊥ }
    ensures none { IsTrue (I.state input.old).tells → result ≡ Err End.Line
        → (rest : List ℕ) → ahead.old ++ (I.state input.old).left ≡ 10 ∷ rest → ⊥ }
    ensures told { (I.state input.new).tells ≡ (I.state input.old).tells }
    ensures cause { HasSourceCause (I.state input.old).faults (I.state input.new).faults result }
{
    match ahead.next(input) {
        Ok(Some(b'\n')) => Ok(()),
        Ok(_) => Err(End::Line),
        Err(SourceFault) => Err(End::Source),
    }
}
