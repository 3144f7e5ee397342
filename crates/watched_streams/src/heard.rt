//! A sink that keeps what was put last, and counts the replies of a session.
ghost use Rattle.std.specs.Prelude.{◌≡◌, ◌≤◌, [], length, IsTrue};
ghost use Rattle.disk_face.specs.{Counts.{HasCause}, Streams.{Puts}};
ghost use Rattle.watched_streams.specs.Tallies.{HearsOne};

use crate::backs::Backs;
use crate::tally::Tally;
use arrayvec::ArrayVec;
use disk_face::{Sink, SinkFault};

/// Passes all on to a sink, and keeps the bytes of the last put where they are at most 128, as those of
/// a fault line are. Beside that it counts what is put as the replies of a session.
#[derive(Drop)]
pub struct Heard<'a, O: Sink> {
    sink: O,
    backs: &'a Backs,
    line: ArrayVec<u8, 128>,
    tally: Tally,
}

impl<'a, O: Sink> Heard<'a, O> {
    ghost use Rattle.watched_streams.specs.Heard.{line_of, sink_of, tally_of};

    /// Round a sink; nothing was put.
    pub fn new(sink: O, backs: &'a Backs) -> Heard<'a, O>
        ensures sink { sink_of result ≡ sink }
        ensures line { line_of result ≡ [] }
        ensures tally { tally_of result ≡ record { unkept = 0; due = 0; lines = 0 } }
    {
        Heard {
            sink,
            backs,
            line: ArrayVec::new(),
            tally: Tally::new(),
        }
    }

    /// The sink inside.
    pub fn sink(&self) -> &O
        ensures { result.now ≡ sink_of self.now }
    {
        &self.sink
    }

    /// What was put last, or nothing where that was more than a line.
    pub fn line(&self) -> &[u8]
        ensures { result.now ≡ line_of self.now }
    {
        self.line.as_slice()
    }

    /// How many requests were answered `ok` since the last that was answered `ok kept` and the last `back`,
    /// where what was put are the replies of a session. A reply counts whether or not the sink took it.
    pub fn unkept(&self) -> u64
        ensures { result ≡ (tally_of self.now).unkept }
    {
        self.tally.unkept
    }
}

impl<O: Sink> Sink for Heard<'_, O> {
    ghost use Rattle.watched_streams.specs.Heard.{line_of, sink_of, tally_of};

    ghost state = { λ heard. O.state heard.sink };

    fn put(&mut self, bytes: &[u8]) -> Result<(), SinkFault>
        ensures put { IsTrue (O.state (sink_of self.old)).tells
            → Puts (O.state (sink_of self.old)).given (O.state (sink_of self.new)).given bytes.now result }
        ensures told { (O.state (sink_of self.new)).tells ≡ (O.state (sink_of self.old)).tells }
        ensures cause { HasCause (O.state (sink_of self.old)).faults (O.state (sink_of self.new)).faults
            result }
        ensures line { length bytes.now ≤ 128 → line_of self.new ≡ bytes.now }
        ensures tally { HearsOne bytes.now (tally_of self.old) (tally_of self.new) }
    {
        let is_back = self.tally.is_between() && self.backs.answer();
        self.tally.hear(bytes, is_back);
        self.line.clear();
        let _ = self.line.try_extend_from_slice(bytes);
        self.sink.put(bytes)
    }
}
