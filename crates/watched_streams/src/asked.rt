//! A source that keeps the start of the request that a session reads.
ghost use Rattle.std.specs.Prelude.{◌≡◌, ◌≤◌, IfOk, IsTrue, OnErr, length, take};
ghost use Rattle.disk_face.specs.{Counts.{HasCause}, Streams.{Takes}};
ghost use Rattle.watched_streams.specs.Begins.{ReadsAll, start};

use crate::backs::Backs;
use crate::begun::Begun;
use disk_face::{Source, SourceFault};

/// Passes all on from a source, and keeps the first bytes of the request that it gave last, where that
/// isn't whole or is none. Beside that it notes which requests are a `back`.
#[derive(Drop)]
pub struct Asked<'a, I: Source> {
    source: I,
    backs: &'a Backs,
    begun: Begun,
}

impl<'a, I: Source> Asked<'a, I> {
    ghost use Rattle.watched_streams.specs.Asked.{begun_of, source_of};

    /// Round a source; nothing was given.
    pub fn new(source: I, backs: &'a Backs) -> Asked<'a, I>
        ensures source { source_of result ≡ source }
        ensures begun { begun_of result ≡ start }
    {
        Asked {
            source,
            backs,
            begun: Begun::new(),
        }
    }

    /// The source inside.
    pub fn source(&self) -> &I
        ensures { result.now ≡ source_of self.now }
    {
        &self.source
    }

    /// The first bytes of the line of the first request that isn't whole in what was given, or of the first
    /// bytes that are no request: at most 270, and without a newline.
    pub fn line(&self) -> &[u8]
        ensures { result.now ≡ (begun_of self.now).line.items }
    {
        self.begun.line.as_slice()
    }
}

impl<I: Source> Source for Asked<'_, I> {
    ghost use Rattle.watched_streams.specs.Asked.{begun_of, source_of};

    ghost state = { λ asked. I.state asked.source };

    fn take(&mut self, out: &mut [u8]) -> Result<usize, SourceFault>
        ensures bound { IfOk result (λ n. n ≤ length out.old) }
        ensures taken { IsTrue (I.state (source_of self.old)).tells
            → Takes (I.state (source_of self.old)).left (I.state (source_of self.new)).left out.new result }
        ensures told { (I.state (source_of self.new)).tells ≡ (I.state (source_of self.old)).tells }
        ensures cause { HasCause (I.state (source_of self.old)).faults (I.state (source_of self.new)).faults
            result }
        ensures read { IfOk result (λ n. ReadsAll (take n out.new) (begun_of self.old) (begun_of self.new)) }
        ensures fault { OnErr result (begun_of self.new ≡ begun_of self.old) }
    {
        let n = self.source.take(out)?;
        self.begun.read(&out[..n], self.backs);
        Ok(n)
    }
}
