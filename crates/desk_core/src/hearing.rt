//! What a session says.
ghost use Rattle.std.specs.Prelude.{◌≡◌, ◌<◌, ◌++◌, true, length, IsTrue};
ghost use Rattle.ask_session.specs.Inputs.{HasSourceCause};
ghost use Rattle.data_area.specs.Causes.{HasSinkCause};
ghost use Rattle.desk_model.specs.{Desks.{ring}, Events.{sessions}};
ghost use Rattle.desk_core.specs.Hearing.{IsHeard, is_unheard, talk};

use crate::lines::put_for;
use crate::said::read_said;
use ask_lines::Ahead;
use ask_text::End;
use desk_queues::Queues;
use disk_face::{Sink, Source};

/// Reads what a session says, queues it where its ring has room, and puts whether it has.
pub(crate) fn hear<I: Source, O: Sink>(
    queues: &mut Queues,
    ahead: &mut Ahead,
    text: &mut [u8],
    session: usize,
    input: &mut I,
    output: &mut O,
) -> Result<(), End>
    requires session { session < sessions }
    requires room { length text.old ≡ ring }
    ensures heard { IsHeard (IsTrue (I.state input.old).tells) session queues.old queues.new
        (talk (ahead.old ++ (I.state input.old).left) (O.state output.old))
        (talk (ahead.new ++ (I.state input.new).left) (O.state output.new)) result }
    ensures told { (I.state input.new).tells ≡ (I.state input.old).tells }
    ensures cause { HasSourceCause (I.state input.old).faults (I.state input.new).faults result }
    ensures sink_cause { HasSinkCause End.Sink (O.state output.old) (O.state output.new) result }
    ensures same_sink { is_unheard result ≡ true → output.new ≡ output.old }
    ensures same_length { length text.new ≡ length text.old }
{
    let room = queues.free(session);
    match read_said(ahead, input, text, room) {
        Ok(Some(n)) => {
            queues.push(session, &text[..n]);
            put_for(output, b"queued", session)
        }
        Ok(None) => put_for(output, b"full", session),
        Err(end) => Err(end),
    }
}
