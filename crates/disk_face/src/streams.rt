//! Bytes that come in, and bytes that go out.
ghost use Rattle.std.specs.Prelude.{◌≡◌, ◌≤◌, length, IfOk, IsTrue};
ghost use Rattle.disk_face.specs.{Counts.{HasCause}, Streams.{Puts, SinkState, SourceState, Takes}};

/// A call on a source failed; it took nothing.
#[derive(Clone, Copy, Debug, PartialEq, Eq)]
pub struct SourceFault;

/// A call on a sink failed; it passed on a front of its bytes.
#[derive(Clone, Copy, Debug, PartialEq, Eq)]
pub struct SinkFault;

/// Bytes that come in.
pub trait Source {
    /// What a contract sees of it.
    ghost state: { Self → SourceState };

    /// Takes the first of the bytes that are left into `out`, and answers how many: at least 1 where
    /// one is left and `out` isn't empty, and 0 where none is left.
    fn take(&mut self, out: &mut [u8]) -> Result<usize, SourceFault>
        ensures bound { IfOk result (λ n. n ≤ length out.old) }
        ensures taken { IsTrue (state self.old).tells
            → Takes (state self.old).left (state self.new).left out.new result }
        ensures told { (state self.new).tells ≡ (state self.old).tells }
        ensures cause { HasCause (state self.old).faults (state self.new).faults result };
}

/// Bytes that go out.
pub trait Sink {
    /// What a contract sees of it.
    ghost state: { Self → SinkState };

    /// Puts all the bytes, or at a fault a front of them.
    fn put(&mut self, bytes: &[u8]) -> Result<(), SinkFault>
        ensures put { IsTrue (state self.old).tells
            → Puts (state self.old).given (state self.new).given bytes.now result }
        ensures told { (state self.new).tells ≡ (state self.old).tells }
        ensures cause { HasCause (state self.old).faults (state self.new).faults result };
}
