//! A source and a sink in memory, which fail at the calls that they are told.
ghost use Rattle.std.specs.Prelude.{◌≡◌, ◌<◌, ◌≤◌, ◌↔◌, min, [], length, OnOk, OnErr, IfOk, IsErr, IsTrue};
ghost use Rattle.disk_face.specs.{Counts.{HasCause}, Streams.{Takes, Puts}};
ghost use Rattle.disk_mem.specs.{Lists.{next_call, is_listed}, Streams.{supply_after, supply_failed, put_fails, intake_after, intake_failed, source_state, sink_state}};

use disk_face::{Sink, SinkFault, Source, SourceFault};
use slot_codec::NoMemory;
use std::alloc::Global;
use std::marker::Model;

/// Bytes to take, in pieces of a size or less.
#[derive(Drop)]
pub struct MemSource {
    bytes: Vec<u8>,
    at: usize,
    piece: usize,
    fails: Vec<u64>,
    calls: u64,
    faults: u64,
}

impl Model for MemSource {
    ghost use Rattle.std.specs.Prelude.{◌<◌, ◌≤◌, length, drop};
    ghost use Rattle.disk_mem.specs.Streams.{Supply};

    ghost Value = { Supply };

    ghost view = { λ s. record {
      left = drop s.at s.bytes.items;
      piece = s.piece;
      fails = s.fails.items;
      calls = s.calls;
      faults = s.faults;
    } };

    ghost invariant = { λ s. (0 < s.piece) × (s.at ≤ length s.bytes.items) };
}

impl MemSource {
    /// Has these bytes left, gives at most `piece` of them in a call, and fails the calls whose
    /// numbers, from 1, are listed.
    pub fn new(bytes: Vec<u8>, piece: usize, fails: Vec<u64>) -> MemSource
        requires { 0 < piece }
        ensures { result ≡ record {
          left = bytes.items;
          piece = piece;
          fails = fails.items;
          calls = 0;
          faults = 0;
        } }
    {
        MemSource {
            bytes,
            at: 0,
            piece,
            fails,
            calls: 0,
            faults: 0,
        }
    }
}

impl Source for MemSource {
    ghost state = { source_state };

    fn take(&mut self, out: &mut [u8]) -> Result<usize, SourceFault>
        ensures bound { IfOk result (λ n. n ≤ length out.old) }
        ensures taken { Takes self.old.left self.new.left out.new result }
        ensures cause { HasCause self.old.faults self.new.faults result }
        ensures fails { IsErr result ↔ IsTrue (is_listed self.old.fails (next_call self.old.calls)) }
        ensures count { IfOk result (λ n. n
            ≡ min (min (length out.old) self.old.piece) (length self.old.left)) }
        ensures ok { IfOk result (λ n. self.new ≡ supply_after n self.old) }
        ensures err { OnErr result (self.new ≡ supply_failed self.old) }
    {
        self.calls = self.calls.saturating_add(1);
        if self.fails.as_slice().contains(&self.calls) {
            self.faults = self.faults.saturating_add(1);
            return Err(SourceFault);
        }
        let n = out.len().min(self.piece).min(self.bytes.len() - self.at);
        out[..n].copy_from_slice(&self.bytes[self.at..self.at + n]);
        self.at += n;
        Ok(n)
    }
}

/// Keeps what is put, up to a room that it took when it was made.
#[derive(Drop)]
pub struct MemSink {
    bytes: Vec<u8>,
    room: u64,
    fails: Vec<u64>,
    calls: u64,
    faults: u64,
}

impl Model for MemSink {
    ghost use Rattle.std.specs.Prelude.{◌≤◌, length, vec_capacity};
    ghost use Rattle.disk_mem.specs.Streams.{Intake};

    ghost Value = { Intake };

    ghost view = { λ s. record {
      given = s.bytes.items;
      room = s.room;
      fails = s.fails.items;
      calls = s.calls;
      faults = s.faults;
    } };

    ghost invariant = { λ s. (length s.bytes.items ≤ s.room) × (s.room ≤ vec_capacity s.bytes) };
}

impl MemSink {
    /// Is empty, and takes memory for `room` bytes. It fails the calls whose numbers, from 1, are
    /// listed, and those whose bytes don't fit.
    pub fn with_room(alloc: Global, room: u64, fails: Vec<u64>) -> Result<MemSink, NoMemory>
        ensures { IfOk result (λ sink. sink
            ≡ record { given = []; room = room; fails = fails.items; calls = 0; faults = 0 }) }
    {
        let Ok(bytes) = Vec::with_capacity(alloc, room as usize) else {
            return Err(NoMemory);
        };
        Ok(MemSink {
            bytes,
            room,
            fails,
            calls: 0,
            faults: 0,
        })
    }

    /// The bytes put so far.
    pub fn bytes(&self) -> &[u8]
        ensures { result.now ≡ self.now.given }
    {
        &self.bytes
    }
}

impl Sink for MemSink {
    ghost state = { sink_state };

    fn put(&mut self, bytes: &[u8]) -> Result<(), SinkFault>
        ensures put { Puts self.old.given self.new.given bytes.now result }
        ensures cause { HasCause self.old.faults self.new.faults result }
        ensures fails { IsErr result ↔ IsTrue (put_fails self.old bytes.now) }
        ensures ok { OnOk result (self.new ≡ intake_after bytes.now self.old) }
        ensures err { OnErr result (self.new ≡ intake_failed self.old) }
    {
        self.calls = self.calls.saturating_add(1);
        let fits = bytes.len() as u64 <= self.room - self.bytes.len() as u64;
        if self.fails.as_slice().contains(&self.calls) || !fits {
            self.faults = self.faults.saturating_add(1);
            return Err(SinkFault);
        }
        self.bytes.extend_from_slice(bytes).unwrap();
        Ok(())
    }
}
