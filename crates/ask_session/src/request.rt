//! Reading a request.
ghost use Rattle.std.specs.Prelude.{◌≡◌, ◌≤◌, ◌++◌, [], IfOk, IfErr, IsTrue, Err, vec_capacity};
ghost use Rattle.ask_text.specs.Inputs.{BeginsNone};
ghost use Rattle.ask_session.specs.Inputs.{BeginsRequest, HasSourceCause, HoldsSize, IsInputFault, size_asked};

use crate::body::read_object;
use crate::line::read_first;
use arrayvec::ArrayVec;
use ask_lines::Ahead;
use ask_text::{Ask, End};
use disk_face::Source;
use size_class::SIZE_MAX;

/// Reads the next request: what its line asks for, and the object of a put into the front of `body`.
pub fn read_request<I: Source>(
    ahead: &mut Ahead,
    input: &mut I,
    body: &mut Vec<u8>,
) -> Result<Ask, End>
    requires room { SIZE_MAX ≤ vec_capacity body.old }
    ensures read { IfOk result (λ ask. BeginsRequest (IsTrue (I.state input.old).tells)
        (ahead.old ++ (I.state input.old).left) (ahead.new ++ (I.state input.new).left) ask body.new.items) }
    ensures long { IfOk result (λ ask. HoldsSize ask body.new.items) }
    ensures only { IfErr result IsInputFault }
    ensures end { IsTrue (I.state input.old).tells → result ≡ Err End.End
        → ahead.old ++ (I.state input.old).left ≡ [] }
    ensures none { IsTrue (I.state input.old).tells → result ≡ Err End.Line
        → BeginsNone (ahead.old ++ (I.state input.old).left) }
    ensures some { IsTrue (I.state input.old).tells → result ≡ Err End.Line
        → ahead.old ++ (I.state input.old).left ≡ [] → ⊥ }
    ensures told { (I.state input.new).tells ≡ (I.state input.old).tells }
    ensures cause { HasSourceCause (I.state input.old).faults (I.state input.new).faults result }
    ensures same_room { vec_capacity body.old ≤ vec_capacity body.new }
{
    let mut line = ArrayVec::new();
    let ask = read_first(ahead, input, &mut line)?;
    let Some(size) = object_size(&ask) else {
        return Ok(ask);
    };
    match read_object(ahead, input, size, body) {
        Ok(()) => Ok(ask),
        Err(end) => Err(end),
    }
}

/// How long the object is that follows a line.
pub fn object_size(ask: &Ask) -> Option<u64>
    ensures { result ≡ size_asked ask.now }
{
    match ask {
        Ask::Put { size, .. } => Some(*size),
        _ => None,
    }
}
