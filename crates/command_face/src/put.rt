//! Bytes that are gathered in a piece of memory on the stack, and put at once.
ghost use Rattle.std.specs.Prelude.{◌≡◌, ◌+◌, ◌≤◌, ◌++◌, Err, IsTrue, OnErr, length};
ghost use Rattle.arrayvec.specs.ArrayVec.{array_vec_len};
ghost use Rattle.disk_face.specs.{Counts.{HasCause}, Streams.{Puts}};

use crate::StopReason;
use arrayvec::ArrayVec;
use disk_face::Sink;

/// Adds bytes.
pub fn push(piece: &mut ArrayVec<u8, 4096>, bytes: &[u8])
    requires { array_vec_len piece.old + length bytes.now ≤ 4096 }
    ensures { piece.new.items ≡ piece.old.items ++ bytes.now }
{
    piece.try_extend_from_slice(bytes).unwrap();
}

/// Puts bytes at once.
pub fn put_whole<O: Sink>(output: &mut O, bytes: &[u8]) -> Result<(), StopReason>
    ensures put { IsTrue (O.state output.old).tells
        → Puts (O.state output.old).given (O.state output.new).given bytes.now result }
    ensures only { OnErr result (result ≡ Err StopReason.Sink) }
    ensures told { (O.state output.new).tells ≡ (O.state output.old).tells }
    ensures cause { HasCause (O.state output.old).faults (O.state output.new).faults result }
{
    output.put(bytes).map_err(|_| StopReason::Sink)
}
