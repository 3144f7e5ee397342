//! A file in memory that was lent.
ghost use Rattle.std.specs.Prelude.{◌≡◌, ◌≤◌, ◌+◌, length, take};
ghost use Rattle.byte_ranges.specs.Ranges.{bytes_at, overwritten, resized};

use crate::bytes::{get, put};
use crate::gap::Gap;
use crate::gaps::{blank, extend, part};
use std::marker::Model;

/// The bytes of a file at the front of lent memory, which has as many as the file may have. Within two gaps
/// the file reads as zeros, and the memory may have any bytes: so the file grows without a write. Two are
/// enough for a flush, which grows the file once, and then writes upward and downward from one place there.
#[derive(Drop)]
pub struct Room {
    bytes: &'static mut [u8],
    end: usize,
    lower: Gap,
    upper: Gap,
}

impl Model for Room {
    ghost use Rattle.std.specs.Prelude.{length, take};
    ghost use Rattle.lent_disk.specs.{Gaps.{HasGaps, seen}, Rooms.{Filing}};

    ghost Value = { Filing };

    ghost view = { λ r. record {
      file = seen r.lower r.upper (take r.end r.bytes.now);
      most = length r.bytes.now;
    } };

    ghost invariant = { λ r. HasGaps r.lower r.upper r.end r.bytes.now };
}

impl Room {
    /// The file of so many bytes at the front of lent memory.
    pub fn of(bytes: &'static mut [u8], end: usize) -> Room
        requires fits { end ≤ length bytes.now }
        ensures file { result.file ≡ take end bytes.entry.now }
        ensures most { result.most ≡ length bytes.entry.now }
    {
        let none = Gap { from: 0, to: 0 };
        Room {
            bytes,
            end,
            lower: none,
            upper: none,
        }
    }

    /// How many bytes the file has, no more than it may have.
    pub fn end(&self) -> usize
        ensures length { result ≡ length self.now.file }
        ensures fits { length self.now.file ≤ self.now.most }
    {
        self.end
    }

    /// How many bytes it may have.
    pub fn most(&self) -> usize
        ensures { result ≡ self.now.most }
    {
        self.bytes.len()
    }

    /// Copies bytes of the file from a position on.
    pub fn get(&self, at: usize, out: &mut [u8])
        requires { at + length out.old ≤ length self.now.file }
        ensures { out.new ≡ bytes_at self.now.file at (length out.old) }
    {
        get(&self.bytes[..self.end], at, out);
        blank(out, at, self.lower);
        blank(out, at, self.upper);
    }

    /// Writes bytes at a position of the file.
    pub fn put(&mut self, at: usize, bytes: &[u8])
        requires { at + length bytes.now ≤ length self.old.file }
        ensures file { self.new.file ≡ overwritten self.old.file at bytes.now }
        ensures most { self.new.most ≡ self.old.most }
    {
        let file = &mut self.bytes[..self.end];
        let after = at + bytes.len();
        let (lower, upper) = part(file, self.lower, self.upper, at, after);
        put(file, at, bytes);
        self.lower = lower;
        self.upper = upper;
    }

    /// Cuts the file, or grows it by zeros.
    pub fn resize(&mut self, n: usize)
        requires { n ≤ self.old.most }
        ensures file { self.new.file ≡ resized self.old.file n }
        ensures most { self.new.most ≡ self.old.most }
    {
        if n <= self.end {
            self.cut(n);
        } else {
            self.grow(n);
        }
    }

    /// Cuts the file.
    fn cut(&mut self, n: usize)
        requires { n ≤ length self.old.file }
        ensures file { self.new.file ≡ resized self.old.file n }
        ensures most { self.new.most ≡ self.old.most }
    {
        self.lower = self.lower.before(n);
        self.upper = self.upper.before(n);
        self.end = n;
    }

    /// Grows the file. What is new is a gap.
    fn grow(&mut self, n: usize)
        requires longer { length self.old.file ≤ n }
        requires fits { n ≤ self.old.most }
        ensures file { self.new.file ≡ resized self.old.file n }
        ensures most { self.new.most ≡ self.old.most }
    {
        let file = &mut self.bytes[..n];
        let (lower, upper) = extend(file, self.end, self.lower, self.upper);
        self.lower = lower;
        self.upper = upper;
        self.end = n;
    }
}
