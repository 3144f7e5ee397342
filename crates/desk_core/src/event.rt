//! Reading the line of an event.
ghost use Rattle.std.specs.Prelude.{◌≡◌, ◌<◌, ◌++◌, [], ◌∷◌, ℕ, None, Err, IfErr, IfOk, IfSome, IsTrue, MatchOption};
ghost use Rattle.std.specs.Fmt.{decimal};
ghost use Rattle.ask_session.specs.Inputs.{HasSourceCause, IsInputFault};
ghost use Rattle.desk_model.specs.Events.{BeginsNoEvent};
ghost use Rattle.desk_core.specs.Lines.{IsEventLine, words_of};

use arrayvec::ArrayVec;
use ask_lines::{Ahead, read_line};
use ask_text::{End, number};
use disk_face::{Source, SourceFault};

/// How many bytes of a line are read at most: the longest line of an event has one less with its newline.
const LONGEST: usize = 9;

/// The line of an event, with the number of its session, 0 to 7.
#[derive(Clone, Copy, Debug, PartialEq, Eq)]
pub(crate) enum EventLine {
    Say(usize),
    Serve(usize),
    Step,
}

/// The next line, as that of an event; its newline is taken too.
pub(crate) fn read_event<I: Source>(ahead: &mut Ahead, input: &mut I) -> Result<EventLine, End>
    ensures event { IfOk result IsEventLine }
    ensures line { IsTrue (I.state input.old).tells → IfOk result (λ e.
        ahead.old ++ (I.state input.old).left ≡ words_of e ++ 10 ∷ (ahead.new ++ (I.state input.new).left)) }
    ensures only { IfErr result IsInputFault }
    ensures end { IsTrue (I.state input.old).tells → result ≡ Err End.End
        → ahead.old ++ (I.state input.old).left ≡ [] }
    ensures none { IsTrue (I.state input.old).tells → result ≡ Err End.Line
        → BeginsNoEvent (ahead.old ++ (I.state input.old).left) }
    ensures some { IsTrue (I.state input.old).tells → result ≡ Err End.Line
        → ahead.old ++ (I.state input.old).left ≡ [] → ⊥ }
    ensures told { (I.state input.new).tells ≡ (I.state input.old).tells }
    ensures cause { HasSourceCause (I.state input.old).faults (I.state input.new).faults result }
{
    let mut line = ArrayVec::new();
    match read_line(ahead, input, &mut line, LONGEST) {
        Ok(true) => match event_of(line.as_slice()) {
            Some(event) => Ok(event),
            None => Err(End::Line),
        },
        Ok(false) if line.is_empty() => Err(End::End),
        Ok(false) => Err(End::Line),
        Err(SourceFault) => Err(End::Source),
    }
}

/// The event whose line has these bytes.
fn event_of(line: &[u8]) -> Option<EventLine>
    ensures some { IfSome result (λ e. IsEventLine e × (line.now ≡ words_of e)) }
    ensures none { result ≡ None → (e : EventLine) → IsEventLine e → line.now ≡ words_of e → ⊥ }
{
    if let Some(digits) = line.strip_prefix(b"say ") {
        Some(EventLine::Say(session_of(digits)?))
    } else if let Some(digits) = line.strip_prefix(b"serve ") {
        Some(EventLine::Serve(session_of(digits)?))
    } else if line == b"step".as_slice() {
        Some(EventLine::Step)
    } else {
        None
    }
}

/// The session whose number these bytes spell.
fn session_of(digits: &[u8]) -> Option<usize>
    ensures { MatchOption result ((n : ℕ) → n < 8 → digits.now ≡ decimal n → ⊥)
        (λ n. (n < 8) × (digits.now ≡ decimal n)) }
{
    let Some(n) = number(digits) else {
        return None;
    };
    if n >= 8 {
        return None;
    }
    Some(n as usize)
}
