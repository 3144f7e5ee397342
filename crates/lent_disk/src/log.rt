//! The calls that were noted, as bytes.
ghost use Rattle.std.specs.Prelude.{◌≡◌, ◌≤◌, ◌+◌, ◌++◌, ◌↔◌, [], length, IsTrue};
ghost use Rattle.lent_disk.specs.Calls.{entry, entry_head};

use crate::bytes::append_entry;
use std::marker::Model;

/// How many bytes an entry has beside those that it writes: its kind, a number, and how many they are.
pub const ENTRY_HEAD: usize = 17;

/// Lent memory for the calls, and how much of it they take.
#[derive(Drop)]
pub struct Log {
    text: &'static mut [u8],
    used: usize,
}

impl Model for Log {
    ghost use Rattle.std.specs.Prelude.{◌≤◌, length, take};
    ghost use Rattle.lent_disk.specs.Rooms.{Logging};

    ghost Value = { Logging };

    ghost view = { λ l. record { text = take l.used l.text.now; most = length l.text.now } };

    ghost invariant = { λ l. l.used ≤ length l.text.now };
}

impl Log {
    /// Over lent memory; no call is noted. The memory isn't touched.
    pub fn of(text: &'static mut [u8]) -> Log
        ensures text { result.text ≡ [] }
        ensures most { result.most ≡ length text.entry.now }
    {
        Log { text, used: 0 }
    }

    /// Forgets the calls.
    pub fn clear(&mut self)
        ensures text { self.new.text ≡ [] }
        ensures most { self.new.most ≡ self.old.most }
    {
        self.used = 0;
    }

    /// What the calls spell.
    pub fn text(&self) -> &[u8]
        ensures { result.now ≡ self.now.text }
    {
        &self.text[..self.used]
    }

    /// An entry with so many bytes fits.
    pub fn fits(&self, n: usize) -> bool
        ensures { IsTrue result ↔ (length self.now.text + entry_head + n ≤ self.now.most) }
    {
        let left = self.text.len() - self.used;
        ENTRY_HEAD <= left && n <= left - ENTRY_HEAD
    }

    /// Notes a call.
    pub fn add(&mut self, kind: u8, at: u64, bytes: &[u8])
        requires { length self.old.text + entry_head + length bytes.now ≤ self.old.most }
        ensures text { self.new.text ≡ self.old.text ++ entry kind at bytes.now }
        ensures most { self.new.most ≡ self.old.most }
    {
        append_entry(self.text, self.used, kind, at, bytes);
        self.used += ENTRY_HEAD + bytes.len();
    }
}
