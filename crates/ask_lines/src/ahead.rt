//! Bytes that were read from a source and not yet used.
ghost use Rattle.std.specs.Prelude.{◌≡◌, ◌≤◌, ◌++◌, [], length, take, drop, min, None, IfOk, IsTrue, OnOk};
ghost use Rattle.disk_face.specs.{Counts.{HasCause}, Streams.{Takes}};
ghost use Rattle.ask_lines.specs.Lines.{Drops, TakesByte, byte_of};

use disk_face::{Source, SourceFault};
use std::marker::Model;

/// How many bytes are read ahead at most.
const AHEAD: usize = 4096;

/// Bytes that were read from a source and not yet used, at most 4,096. They stand in the value itself,
/// so that no memory is taken for them. Contracts see them as a list.
#[derive(Drop)]
pub struct Ahead {
    bytes: [u8; AHEAD],
    from: usize,
    to: usize,
}

impl Model for Ahead {
    ghost use Rattle.std.specs.Prelude.{ℕ, List, ◌≡◌, ◌≤◌, ◌-◌, take, drop, length};

    ghost Value = { List ℕ };

    ghost view = { λ a. take (a.to - a.from) (drop a.from a.bytes) };

    ghost invariant = { λ a. (a.from ≤ a.to) × (a.to ≤ 4096) × (length a.bytes ≡ 4096) };
}

impl Ahead {
    /// None yet.
    pub fn new() -> Ahead
        ensures { result ≡ [] }
    {
        Ahead {
            bytes: [0; AHEAD],
            from: 0,
            to: 0,
        }
    }

    /// Takes the next bytes into `out`, as the source does.
    pub fn take<I: Source>(&mut self, input: &mut I, out: &mut [u8]) -> Result<usize, SourceFault>
        ensures bound { IfOk result (λ n. n ≤ length out.old) }
        ensures taken { IsTrue (I.state input.old).tells → Takes (self.old ++ (I.state input.old).left)
            (self.new ++ (I.state input.new).left) out.new result }
        ensures told { (I.state input.new).tells ≡ (I.state input.old).tells }
        ensures cause { HasCause (I.state input.old).faults (I.state input.new).faults result }
    {
        if self.from == self.to {
            return input.take(out);
        }
        Ok(self.give(out))
    }

    /// Takes the next byte; none where none is left.
    pub fn next<I: Source>(&mut self, input: &mut I) -> Result<Option<u8>, SourceFault>
        ensures taken { IsTrue (I.state input.old).tells → TakesByte (self.old ++ (I.state input.old).left)
            (self.new ++ (I.state input.new).left) result }
        ensures told { (I.state input.new).tells ≡ (I.state input.old).tells }
        ensures cause { HasCause (I.state input.old).faults (I.state input.new).faults result }
    {
        self.fill(input)?;
        Ok(self.first())
    }

    /// Drops bytes, `most` at most, and answers how many.
    pub fn pass<I: Source>(&mut self, input: &mut I, most: u64) -> Result<u64, SourceFault>
        ensures bound { IfOk result (λ n. n ≤ most) }
        ensures dropped { IsTrue (I.state input.old).tells → Drops most (self.old ++ (I.state input.old).left)
            (self.new ++ (I.state input.new).left) result }
        ensures told { (I.state input.new).tells ≡ (I.state input.old).tells }
        ensures cause { HasCause (I.state input.old).faults (I.state input.new).faults result }
    {
        self.fill(input)?;
        Ok(self.forget(most))
    }

    /// Reads bytes ahead, where there are none.
    fn fill<I: Source>(&mut self, input: &mut I) -> Result<(), SourceFault>
        ensures same { IsTrue (I.state input.old).tells → self.new ++ (I.state input.new).left
            ≡ self.old ++ (I.state input.old).left }
        ensures ended { IsTrue (I.state input.old).tells → OnOk result
            (self.new ≡ [] → self.old ++ (I.state input.old).left ≡ []) }
        ensures told { (I.state input.new).tells ≡ (I.state input.old).tells }
        ensures cause { HasCause (I.state input.old).faults (I.state input.new).faults result }
    {
        if self.from < self.to {
            return Ok(());
        }
        self.from = 0;
        self.to = 0;
        self.to = input.take(&mut self.bytes)?;
        Ok(())
    }

    /// Gives the first bytes, as many as `out` has room for.
    fn give(&mut self, out: &mut [u8]) -> usize
        ensures count { result ≡ min (length self.old) (length out.old) }
        ensures given { self.old ≡ take result out.new ++ self.new }
    {
        let n = out.len().min(self.to - self.from);
        out[..n].copy_from_slice(&self.bytes[self.from..self.from + n]);
        self.from += n;
        n
    }

    /// Takes the first byte out.
    fn first(&mut self) -> Option<u8>
        ensures first { self.old ≡ byte_of result ++ self.new }
        ensures none { result ≡ None → self.old ≡ [] }
    {
        if self.from == self.to {
            return None;
        }
        let byte = self.bytes[self.from];
        self.from += 1;
        Some(byte)
    }

    /// Drops the first bytes, `most` at most, and answers how many.
    fn forget(&mut self, most: u64) -> u64
        ensures count { result ≡ min most (length self.old) }
        ensures rest { self.new ≡ drop result self.old }
    {
        let n = most.min((self.to - self.from) as u64);
        self.from += n as usize;
        n
    }
}
