//! The request that a session's input has begun.
ghost use Rattle.std.specs.Prelude.{◌≡◌, ◌<◌, ◌≤◌, length, take, false, true};
ghost use Rattle.ask_text.specs.{Asks.{AsksFor, AsksForNothing}, declared.ask.Ask.{Ask}};
ghost use Rattle.watched_streams.specs.Begins.{Reads, ReadsAll, asked, start};

use crate::backs::Backs;
use arrayvec::ArrayVec;
use ask_text::{Ask, read_ask};

/// What was given of a request that isn't whole yet, or of bytes that are no request.
#[derive(Drop)]
pub struct Begun {
    /// The first bytes of its line: all that were given of the line, but its newline and what no line of a
    /// request is long enough for.
    pub line: ArrayVec<u8, 270>,
    /// How many bytes are due of its object, its newline among them; 0 while the line isn't whole.
    pub due: u64,
    /// Whether it is no request, whatever follows.
    pub is_none: bool,
}

impl Begun {
    /// Nothing was given.
    pub fn new() -> Begun
        ensures { result ≡ start }
    {
        Begun {
            line: ArrayVec::new(),
            due: 0,
            is_none: false,
        }
    }

    /// Reads what a source gives at once, and notes which requests are a `back`.
    pub(crate) fn read(&mut self, piece: &[u8], backs: &Backs)
        ensures { ReadsAll piece.now self.old self.new }
    {
        let mut at = 0;
        'bytes: while at < piece.len() {
            at += self.read_front(&piece[at..], backs);
        }
    }

    /// Reads the first of the bytes, one at least, and answers how many.
    fn read_front(&mut self, bytes: &[u8], backs: &Backs) -> usize
        requires some { 0 < length bytes.now }
        ensures within { result ≤ length bytes.now }
        ensures more { 0 < result }
        ensures reads { ReadsAll (take result bytes.now) self.old self.new }
    {
        if self.is_none {
            return bytes.len();
        }
        if self.due > 1 {
            let n = (self.due - 1).min(bytes.len() as u64);
            self.due -= n;
            return n as usize;
        }
        self.read_byte(bytes[0], backs);
        1
    }

    /// Reads the next byte of a line, or the newline behind an object.
    fn read_byte(&mut self, byte: u8, backs: &Backs)
        requires may { self.old.is_none ≡ false }
        requires short { self.old.due ≤ 1 }
        ensures { Reads byte self.old self.new }
    {
        if self.due == 1 {
            if byte == b'\n' {
                self.end();
            } else {
                self.is_none = true;
            }
        } else if byte == b'\n' {
            self.read_line(backs);
        } else if self.line.try_extend_from_slice(&[byte]).is_err() {
            self.is_none = true;
        }
    }

    /// Reads the newline of a line.
    fn read_line(&mut self, backs: &Backs)
        requires may { self.old.is_none ≡ false }
        requires line { self.old.due ≡ 0 }
        ensures asked { (a : Ask) → AsksFor self.old.line.items a → self.new ≡ asked a self.old }
        ensures none { AsksForNothing self.old.line.items → self.new ≡ record self.old { is_none = true } }
    {
        match read_ask(self.line.as_slice()) {
            Ok(Ask::Put { size, .. }) => {
                backs.note(false);
                self.due = size + 1;
            }
            Ok(ask) => {
                backs.note(ask == Ask::Back);
                self.end();
            }
            Err(_) => self.is_none = true,
        }
    }

    /// Ends a request: the next byte is one of the next.
    fn end(&mut self)
        requires may { self.old.is_none ≡ false }
        ensures { self.new ≡ start }
    {
        self.line.clear();
        self.due = 0;
    }
}
