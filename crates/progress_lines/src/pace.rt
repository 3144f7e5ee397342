//! A count of bytes that is said once a second.
ghost use Rattle.std.specs.Prelude.{◌≡◌, ◌+◌, ◌-◌, ◌^◌, false, min, true};
ghost use Rattle.progress_lines.specs.Counts.{IsSilent, has_said, passed, word_of};

use std::io::Eprint;
use std::time::{Clock, Duration, Instant};

/// How many bytes are a MiB.
const MEBIBYTE: u64 = 1_048_576;

/// Says on standard error how many bytes have gone by, at most once a second. One that is off says nothing
/// and asks no clock.
#[derive(Drop)]
pub struct Pace<'a, R: Clock + Eprint> {
    rt: &'a R,
    /// What became of the bytes, as `read`.
    done: &'a str,
    /// When it was last said, or the count began; nothing where none is to be said.
    last: Option<Instant>,
    bytes: u64,
    has_said: bool,
}

impl<'a, R: Clock + Eprint> Pace<'a, R> {
    /// A count of no bytes, which begins now where it is on.
    pub fn new(rt: &'a R, done: &'a str, is_on: bool) -> Pace<'a, R>
        ensures bytes { passed result ≡ 0 }
        ensures word { word_of result ≡ done.entry }
        ensures begun { has_said result ≡ false }
        ensures off { is_on ≡ false → IsSilent result }
    {
        let last = if is_on { Instant::now(rt).ok() } else { None };
        Pace {
            rt,
            done,
            last,
            bytes: 0,
            has_said: false,
        }
    }

    /// Counts bytes that went by, up to 2^64 - 1, and says the sum where a second has passed.
    pub fn pass(&mut self, bytes: u64)
        ensures bytes { passed self.new ≡ min (passed self.old + bytes) (2 ^ 64 - 1) }
        ensures word { word_of self.new ≡ word_of self.old }
        ensures said { has_said self.old ≡ true → has_said self.new ≡ true }
        ensures off { IsSilent self.old → IsSilent self.new }
    {
        self.bytes = self.bytes.saturating_add(bytes);
        let Some(last) = self.last else {
            return;
        };
        let Ok(now) = Instant::now(self.rt) else {
            return;
        };
        if now.duration_since(last) >= Duration::from_secs(1) {
            self.last = Some(now);
            self.has_said = true;
            let _ = eprint!(self.rt; "\rcostore: {} MiB {}", self.bytes / MEBIBYTE, self.done);
        }
    }

    /// Ends the line on which the sums were said, if one was.
    pub fn end(&self) {
        if self.has_said {
            let _ = eprintln!(self.rt);
        }
    }
}
