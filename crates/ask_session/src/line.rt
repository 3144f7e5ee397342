//! Reading the line of a request.
ghost use Rattle.std.specs.Prelude.{◌≡◌, ◌++◌, [], ◌∷◌, false, true, IfOk, IfErr, IsTrue, Err, Ok};
ghost use Rattle.ask_text.specs.{Asks.{IsAsk, line_of}, Inputs.{BeginsNone}};
ghost use Rattle.ask_session.specs.Inputs.{HasSourceCause, IsInputFault};

use arrayvec::ArrayVec;
use ask_lines::{Ahead, read_line};
use ask_text::{Ask, End, read_ask};
use disk_face::{Source, SourceFault};

/// How many bytes of a line are read at most: the longest line that asks for something has one less
/// with its newline.
const LONGEST: usize = 271;

/// What the next line asks for; it is read into `line`, and its newline is taken too.
pub fn read_first<I: Source>(
    ahead: &mut Ahead,
    input: &mut I,
    line: &mut ArrayVec<u8, 512>,
) -> Result<Ask, End>
    requires empty { line.old.items ≡ [] }
    ensures ask { IfOk result (λ ask. IsAsk ask) }
    ensures read { IfOk result (λ ask. line.new.items ≡ line_of ask) }
    ensures line { IsTrue (I.state input.old).tells → IfOk result (λ ask.
        ahead.old ++ (I.state input.old).left ≡ line_of ask ++ 10 ∷ (ahead.new ++ (I.state input.new).left)) }
    ensures only { IfErr result IsInputFault }
    ensures end { IsTrue (I.state input.old).tells → result ≡ Err End.End
        → ahead.old ++ (I.state input.old).left ≡ [] }
    ensures none { IsTrue (I.state input.old).tells → result ≡ Err End.Line
        → BeginsNone (ahead.old ++ (I.state input.old).left) }
    ensures some { IsTrue (I.state input.old).tells → result ≡ Err End.Line
        → ahead.old ++ (I.state input.old).left ≡ [] → ⊥ }
    ensures told { (I.state input.new).tells ≡ (I.state input.old).tells }
    ensures cause { HasSourceCause (I.state input.old).faults (I.state input.new).faults result }
{
    match read_line(ahead, input, line, LONGEST) {
        Ok(true) => match read_ask(line.as_slice()) {
            Ok(ask) => Ok(ask),
            Err(_) => Err(End::Line),
        },
        Ok(false) if line.is_empty() => Err(End::End),
        Ok(false) => Err(End::Line),
        Err(SourceFault) => Err(End::Source),
    }
}
