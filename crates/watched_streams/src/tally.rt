//! What is counted of the replies of a session.
ghost use Rattle.std.specs.Prelude.{◌≡◌, ◌<◌, ◌^◌, ◌++◌, ◌↔◌, ℕ, IsTrue, MatchOption, codes};
ghost use Rattle.std.specs.Fmt.{decimal};
ghost use Rattle.ask_text.specs.{Replies.{IsTold, first_line}, declared.reply.Reply.{Reply}};
ghost use Rattle.watched_streams.specs.Tallies.{lines_in};

use ask_text::number;

/// How many requests were answered `ok` since the last `ok kept` and the last `back`, and what is still due
/// of a reply that is longer than its first line: such bytes may look like a reply, and are none.
#[derive(Clone, Copy, Drop)]
pub struct Tally {
    /// How many requests were answered `ok` since the last that was answered `ok kept` and the last
    /// `back`, or since the first.
    pub unkept: u64,
    /// How many bytes are due of the object that was announced last, its newline among them.
    pub due: u64,
    /// How many lines are due of the list that was announced last.
    pub lines: u64,
}

impl Tally {
    ghost use Rattle.watched_streams.specs.Tallies.{Hears, IsBetween, tallied};

    /// Nothing was put.
    pub fn new() -> Tally
        ensures { result ≡ record { unkept = 0; due = 0; lines = 0 } }
    {
        Tally {
            unkept: 0,
            due: 0,
            lines: 0,
        }
    }

    /// Whether nothing is due, so that a reply comes next.
    pub fn is_between(&self) -> bool
        ensures { IsTrue result ↔ IsBetween self.now }
    {
        self.due == 0 && self.lines == 0
    }

    /// Counts what a session puts at once: the first line of a reply, or a part of what follows it. A reply
    /// is that of a `back` or of another request.
    pub fn hear(&mut self, piece: &[u8], is_back: bool)
        ensures { Hears is_back piece.now self.old self.new }
    {
        if self.due > 0 {
            self.due = self.due.saturating_sub(piece.len() as u64);
        } else if self.lines > 0 {
            self.lines = self.lines.saturating_sub(newlines(piece));
        } else {
            self.begin(piece, is_back);
        }
    }

    /// Counts the first line of a reply.
    fn begin(&mut self, line: &[u8], is_back: bool)
        requires { IsBetween self.old }
        ensures { (r : Reply) → IsTold r → line.now ≡ first_line r → self.new ≡ tallied is_back r self.old }
    {
        if line == b"ok\n".as_slice() {
            self.unkept = if is_back {
                0
            } else {
                self.unkept.saturating_add(1)
            };
        } else if line == b"ok kept\n".as_slice() {
            self.unkept = 0;
        } else if let Some(size) = size_in(line) {
            self.due = size.saturating_add(1);
        } else if let Some(count) = count_in(line) {
            self.lines = count;
        }
    }
}

/// How many bytes the first line of a reply says that an object has.
fn size_in(line: &[u8]) -> Option<u64>
    ensures { MatchOption result ((n : ℕ) → n < 2 ^ 64 → line.now ≡ codes "data " ++ decimal n ++ codes "\n"
        → ⊥) (λ n. line.now ≡ codes "data " ++ decimal n ++ codes "\n") }
{
    match line.strip_prefix(b"data ") {
        Some(rest) => number_of(rest),
        None => None,
    }
}

/// How many lines the first line of a reply says that a list has.
fn count_in(line: &[u8]) -> Option<u64>
    ensures { MatchOption result ((n : ℕ) → n < 2 ^ 64 → line.now ≡ codes "list " ++ decimal n ++ codes "\n"
        → ⊥) (λ n. line.now ≡ codes "list " ++ decimal n ++ codes "\n") }
{
    match line.strip_prefix(b"list ") {
        Some(rest) => number_of(rest),
        None => None,
    }
}

/// The number below 2^64 that a line is.
fn number_of(line: &[u8]) -> Option<u64>
    ensures { MatchOption result ((n : ℕ) → n < 2 ^ 64 → line.now ≡ decimal n ++ codes "\n" → ⊥)
        (λ n. line.now ≡ decimal n ++ codes "\n") }
{
    let Some(digits) = line.strip_suffix(b"\n") else {
        return None;
    };
    match number(digits) {
        Some(n) => Some(n),
        None => None,
    }
}

/// How many newlines there are among the bytes.
fn newlines(bytes: &[u8]) -> u64
    ensures { result ≡ lines_in bytes.now }
{
    let mut at = bytes.len();
    let mut found = 0;
    'bytes: while at > 0 {
        at -= 1;
        if bytes[at] == b'\n' {
            found += 1;
        }
    }
    found
}
