//! The runtime's standard reader and writer.
ghost use Rattle.std.specs.Prelude.{◌≡◌, ◌≤◌, ℕ, length, take, is_ok, is_some, OnErr, OnOk, IfOk, IsTrue, if◌then◌else◌};
ghost use Rattle.std.specs.Io.KnownBytes.{Appends, ReadConsumes};
ghost use Rattle.disk_face.specs.Counts.{counted, HasCause};

use crate::cause::Cause;
use crate::passes::{put_all, read_once};
use disk_face::{Sink, SinkFault, Source, SourceFault};
use std::io::{Read, Write};

/// A reader as a source. It tells nothing. Each error of the reader is a fault, but that a call
/// which was interrupted is tried again.
#[derive(Drop)]
pub struct StdSource<I> {
    reader: I,
    faults: u64,
    cause: Option<Cause>,
}

impl<I: Read> StdSource<I> {
    ghost use Rattle.disk_file.specs.Streams.{reader_of, source_cause, source_faults};

    /// A source that takes from a reader.
    pub fn new(reader: I) -> StdSource<I>
        ensures reader { reader_of result ≡ reader }
        ensures faults { source_faults result ≡ 0 }
    {
        StdSource {
            reader,
            faults: 0,
            cause: None,
        }
    }

    /// Why the last failed call failed.
    pub fn cause(&self) -> Option<Cause>
        ensures { result ≡ source_cause self.now }
    {
        self.cause
    }
}

impl<I: Read> Source for StdSource<I> {
    ghost use Rattle.disk_file.specs.Streams.{reader_of, source_cause, source_faults, source_state};

    ghost state = { source_state };

    /// Takes what one read gives.
    fn take(&mut self, out: &mut [u8]) -> Result<usize, SourceFault>
        ensures bound { IfOk result (λ n. n ≤ length out.old) }
        ensures taken { ReadConsumes (I.remaining (reader_of self.old)) (I.remaining (reader_of self.new))
            result out.new }
        ensures cause { HasCause (source_faults self.old) (source_faults self.new) result }
        ensures faults { source_faults self.new
            ≡ (if is_ok result then source_faults self.old else counted (source_faults self.old) 1) }
        ensures told { OnErr result (IsTrue (is_some (source_cause self.new))) }
    {
        match read_once(&mut self.reader, out) {
            Ok(n) => Ok(n),
            Err(error) => {
                self.cause = Some(Cause::System(error));
                self.faults = self.faults.saturating_add(1);
                Err(SourceFault)
            }
        }
    }
}

/// A writer as a sink. It tells nothing. Each error of the writer is a fault, and so is a write that
/// takes nothing; a call which was interrupted is tried again.
#[derive(Drop)]
pub struct StdSink<O> {
    writer: O,
    faults: u64,
    cause: Option<Cause>,
}

impl<O: Write> StdSink<O> {
    ghost use Rattle.disk_file.specs.Streams.{sink_cause, sink_faults, writer_of};

    /// A sink that puts to a writer.
    pub fn new(writer: O) -> StdSink<O>
        ensures writer { writer_of result ≡ writer }
        ensures faults { sink_faults result ≡ 0 }
    {
        StdSink {
            writer,
            faults: 0,
            cause: None,
        }
    }

    /// Why the last failed call failed.
    pub fn cause(&self) -> Option<Cause>
        ensures { result ≡ sink_cause self.now }
    {
        self.cause
    }
}

impl<O: Write> Sink for StdSink<O> {
    ghost use Rattle.disk_file.specs.Streams.{sink_cause, sink_faults, sink_state, writer_of};

    ghost state = { sink_state };

    /// Writes all the bytes, or at a fault a front of them.
    fn put(&mut self, bytes: &[u8]) -> Result<(), SinkFault>
        ensures all { OnOk result (Appends (O.contents (writer_of self.old)) (O.contents (writer_of self.new))
            bytes.now) }
        ensures front { (n : ℕ) × (n ≤ length bytes.now)
            × Appends (O.contents (writer_of self.old)) (O.contents (writer_of self.new)) (take n bytes.now) }
        ensures cause { HasCause (sink_faults self.old) (sink_faults self.new) result }
        ensures faults { sink_faults self.new
            ≡ (if is_ok result then sink_faults self.old else counted (sink_faults self.old) 1) }
        ensures told { OnErr result (IsTrue (is_some (sink_cause self.new))) }
    {
        match put_all(&mut self.writer, bytes) {
            Ok(()) => Ok(()),
            Err(cause) => {
                self.cause = Some(cause);
                self.faults = self.faults.saturating_add(1);
                Err(SinkFault)
            }
        }
    }
}
