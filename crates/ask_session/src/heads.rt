//! The first lines of replies.
ghost use Rattle.std.specs.Prelude.{◌≡◌, false, codes, IfErr, IfOk, IsTrue};
ghost use Rattle.data_area.specs.Causes.{HasSinkCause};
ghost use Rattle.ask_text.specs.Replies.{first_line};
ghost use Rattle.ask_session.specs.{Putting.{PutsAnswer}, ReplyLines.{answer_of, done_reply_line, fault_of, is_kept}, Serving.{PutsText}};

use ask_text::{End, RefusedWord, Reply, write_reply};
use disk_face::{Sink, SinkFault};
use store_core::{Done, Refusal};

/// Puts the first line of a reply.
pub(crate) fn say<O: Sink>(output: &mut O, reply: &Reply) -> Result<(), End>
    ensures put { IsTrue (O.state output.old).tells
        → PutsText (first_line reply.now) (O.state output.old).given
        (O.state output.new).given result }
    ensures only { IfErr result (λ end. end ≡ End.Sink) }
    ensures cause { HasSinkCause End.Sink (O.state output.old) (O.state output.new) result }
{
    let line = write_reply(reply);
    put_all(output, line.as_slice())
}

/// Puts bytes.
pub(crate) fn put_all<O: Sink>(output: &mut O, bytes: &[u8]) -> Result<(), End>
    ensures put { IsTrue (O.state output.old).tells → PutsText bytes.now (O.state output.old).given
        (O.state output.new).given result }
    ensures only { IfErr result (λ end. end ≡ End.Sink) }
    ensures cause { HasSinkCause End.Sink (O.state output.old) (O.state output.new) result }
{
    match output.put(bytes) {
        Ok(()) => Ok(()),
        Err(SinkFault) => Err(End::Sink),
    }
}

/// Puts a newline, which ends a reply that acknowledges no checkpoint.
pub(crate) fn put_end<O: Sink>(output: &mut O) -> Result<bool, End>
    ensures put { IsTrue (O.state output.old).tells → PutsText (codes "\n") (O.state output.old).given
        (O.state output.new).given result }
    ensures kept { IfOk result (λ kept. kept ≡ false) }
    ensures only { IfErr result (λ end. end ≡ End.Sink) }
    ensures cause { HasSinkCause End.Sink (O.state output.old) (O.state output.new) result }
{
    match put_all(output, b"\n") {
        Ok(()) => Ok(false),
        Err(end) => Err(end),
    }
}

/// Puts a reply that is one line, and answers whether it acknowledges a checkpoint.
pub(crate) fn put_answer<O: Sink>(output: &mut O, answer: Result<Reply, End>) -> Result<bool, End>
    ensures { PutsAnswer (O.state output.old) (O.state output.new) answer result }
{
    match answer {
        Ok(head) => put_head(output, &head),
        Err(end) => Err(end),
    }
}

/// Puts the first line of a reply, and answers whether it acknowledges a checkpoint.
fn put_head<O: Sink>(output: &mut O, reply: &Reply) -> Result<bool, End>
    ensures put { IsTrue (O.state output.old).tells
        → PutsText (first_line reply.now) (O.state output.old).given
        (O.state output.new).given result }
    ensures kept { IfOk result (λ kept. kept ≡ is_kept reply.now) }
    ensures only { IfErr result (λ end. end ≡ End.Sink) }
    ensures cause { HasSinkCause End.Sink (O.state output.old) (O.state output.new) result }
{
    match say(output, reply) {
        Ok(()) => Ok(is_kept(reply)),
        Err(end) => Err(end),
    }
}

/// Whether a reply acknowledges a checkpoint.
fn is_kept(reply: &Reply) -> bool
    ensures { result ≡ is_kept reply.now }
{
    match reply {
        Reply::Kept => true,
        _ => false,
    }
}

/// What is replied to a change that was done.
pub(crate) fn done_reply_line(done: Done) -> Reply
    ensures { result ≡ done_reply_line done }
{
    if done.kept { Reply::Kept } else { Reply::Ok }
}

/// What is replied to a refusal; an end where a device failed.
pub fn answer_of(why: Refusal) -> Result<Reply, End>
    ensures { result ≡ answer_of why }
{
    match why {
        Refusal::BadName => Ok(Reply::Refused(RefusedWord::Name)),
        Refusal::TooLong => Ok(Reply::Refused(RefusedWord::Size)),
        Refusal::Missing => Ok(Reply::Refused(RefusedWord::Missing)),
        Refusal::Damaged => Ok(Reply::Refused(RefusedWord::Damaged)),
        Refusal::Full => Ok(Reply::Refused(RefusedWord::Full)),
        Refusal::Worn => Ok(Reply::Refused(RefusedWord::Worn)),
        Refusal::Sink => Err(End::Sink),
        Refusal::Disk | Refusal::Broken | Refusal::TooMany => Err(End::Disk),
    }
}

/// The end where a device failed in a read.
pub(crate) fn fault_of(why: Refusal) -> End
    ensures { result ≡ fault_of why }
{
    match why {
        Refusal::Sink => End::Sink,
        _ => End::Disk,
    }
}
