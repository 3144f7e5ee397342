//! A source and a sink whose bytes are counted.
ghost use Rattle.std.specs.Prelude.{◌≡◌, ◌+◌, ◌-◌, ◌^◌, ◌≤◌, length, min, IfOk, IsTrue, OnOk};
ghost use Rattle.disk_face.specs.{Counts.{HasCause}, Streams.{Puts, Takes}};
ghost use Rattle.progress_lines.specs.Counts.{pace_of_sink, pace_of_source, passed, sink_of, source_of};

use crate::pace::Pace;
use disk_face::{Sink, SinkFault, Source, SourceFault};
use std::io::Eprint;
use std::time::Clock;

/// Passes all on from a source, and counts the bytes that it gave.
#[derive(Drop)]
pub struct CountedSource<'a, I: Source, R: Clock + Eprint> {
    source: I,
    pace: Pace<'a, R>,
}

impl<'a, I: Source, R: Clock + Eprint> CountedSource<'a, I, R> {
    /// Round a source.
    pub fn new(source: I, pace: Pace<'a, R>) -> CountedSource<'a, I, R>
        ensures source { source_of result ≡ source }
        ensures pace { pace_of_source result ≡ pace.entry }
    {
        CountedSource { source, pace }
    }

    /// The source inside.
    pub fn source(&self) -> &I
        ensures { result.now ≡ source_of self.now }
    {
        &self.source
    }

    /// Ends the line on which its sums were said, if one was.
    pub fn end(&self) {
        self.pace.end();
    }
}

impl<I: Source, R: Clock + Eprint> Source for CountedSource<'_, I, R> {
    ghost state = { λ counted. I.state counted.source };

    fn take(&mut self, out: &mut [u8]) -> Result<usize, SourceFault>
        ensures bound { IfOk result (λ n. n ≤ length out.old) }
        ensures taken { IsTrue (I.state (source_of self.old)).tells
            → Takes (I.state (source_of self.old)).left (I.state (source_of self.new)).left out.new result }
        ensures told { (I.state (source_of self.new)).tells ≡ (I.state (source_of self.old)).tells }
        ensures cause { HasCause (I.state (source_of self.old)).faults (I.state (source_of self.new)).faults
            result }
        ensures counted { IfOk result (λ n. passed (pace_of_source self.new)
            ≡ min (passed (pace_of_source self.old) + n) (2 ^ 64 - 1)) }
    {
        let n = self.source.take(out)?;
        self.pace.pass(n as u64);
        Ok(n)
    }
}

/// Passes all on to a sink, and counts the bytes that are put.
#[derive(Drop)]
pub struct CountedSink<'a, O: Sink, R: Clock + Eprint> {
    sink: O,
    pace: Pace<'a, R>,
}

impl<'a, O: Sink, R: Clock + Eprint> CountedSink<'a, O, R> {
    /// Round a sink.
    pub fn new(sink: O, pace: Pace<'a, R>) -> CountedSink<'a, O, R>
        ensures sink { sink_of result ≡ sink }
        ensures pace { pace_of_sink result ≡ pace.entry }
    {
        CountedSink { sink, pace }
    }

    /// The sink inside.
    pub fn sink(&self) -> &O
        ensures { result.now ≡ sink_of self.now }
    {
        &self.sink
    }

    /// Ends the line on which its sums were said, if one was.
    pub fn end(&self) {
        self.pace.end();
    }
}

impl<O: Sink, R: Clock + Eprint> Sink for CountedSink<'_, O, R> {
    ghost state = { λ counted. O.state counted.sink };

    fn put(&mut self, bytes: &[u8]) -> Result<(), SinkFault>
        ensures put { IsTrue (O.state (sink_of self.old)).tells
            → Puts (O.state (sink_of self.old)).given (O.state (sink_of self.new)).given bytes.now result }
        ensures told { (O.state (sink_of self.new)).tells ≡ (O.state (sink_of self.old)).tells }
        ensures cause { HasCause (O.state (sink_of self.old)).faults (O.state (sink_of self.new)).faults
            result }
        ensures counted { OnOk result (passed (pace_of_sink self.new)
            ≡ min (passed (pace_of_sink self.old) + length bytes.now) (2 ^ 64 - 1)) }
    {
        self.sink.put(bytes)?;
        self.pace.pass(bytes.len() as u64);
        Ok(())
    }
}
