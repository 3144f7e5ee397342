//! The lines that a desk puts.
ghost use Rattle.std.specs.Prelude.{◌≡◌, ◌<◌, ◌≤◌, ◌+◌, ◌++◌, ◌∷◌, [], codes, length, IsTrue};
ghost use Rattle.std.specs.Fmt.{decimal};
ghost use Rattle.ask_text.specs.Replies.{first_line, reply_text};
ghost use Rattle.map_model.specs.Requests as ask;
ghost use Rattle.desk_model.specs.Events.{line_for, sessions};
ghost use Rattle.desk_core.specs.Telling.{PutsAll, PutsReply};

use arrayvec::ArrayVec;
use ask_text::{End, Reply, write_reply};
use disk_face::{Sink, SinkFault};
use itoa::Buffer;

/// Puts the line of a word and a session.
pub(crate) fn put_for<O: Sink>(output: &mut O, word: &[u8], session: usize) -> Result<(), End>
    requires session { session < sessions }
    requires short { length word.now ≤ 6 }
    ensures { PutsAll (line_for word.now session) (O.state output.old) (O.state output.new) result }
{
    let mut line = ArrayVec::new();
    add_for(&mut line, word, session);
    put(output, line.as_slice())
}

/// Puts the line of a session, and the first line of a reply behind it.
pub(crate) fn put_reply<O: Sink>(
    output: &mut O,
    session: usize,
    answer: Result<Reply, End>,
) -> Result<(), End>
    requires session { session < sessions }
    ensures { PutsReply session (O.state output.old) (O.state output.new) answer result }
{
    match answer {
        Ok(reply) => {
            let mut line = ArrayVec::new();
            add_for(&mut line, b"to", session);
            add(&mut line, write_reply(&reply).as_slice());
            put(output, line.as_slice())
        }
        Err(end) => Err(end),
    }
}

/// Puts the line of a session, and that its request is kept.
pub(crate) fn put_kept<O: Sink>(output: &mut O, session: usize) -> Result<(), End>
    requires session { session < sessions }
    ensures { PutsAll (line_for (codes "to") session ++ reply_text ask.kept) (O.state output.old)
        (O.state output.new) result }
{
    let mut line = ArrayVec::new();
    add_for(&mut line, b"to", session);
    add(&mut line, b"ok kept\n");
    put(output, line.as_slice())
}

/// Puts that no flush is in hand.
pub(crate) fn put_idle<O: Sink>(output: &mut O) -> Result<(), End>
    ensures { PutsAll (codes "idle\n") (O.state output.old) (O.state output.new) result }
{
    put(output, b"idle\n")
}

/// Puts that an object was moved.
pub(crate) fn put_moved<O: Sink>(output: &mut O) -> Result<(), End>
    ensures { PutsAll (codes "moved\n") (O.state output.old) (O.state output.new) result }
{
    put(output, b"moved\n")
}

/// Puts how many requests wait.
pub(crate) fn put_left<O: Sink>(output: &mut O, waiting: u64) -> Result<(), End>
    ensures { PutsAll (codes "left " ++ decimal waiting ++ codes "\n") (O.state output.old)
        (O.state output.new) result }
{
    let mut line = ArrayVec::new();
    let mut digits = Buffer::new();
    add(&mut line, b"left ");
    add(&mut line, digits.format(waiting).as_bytes());
    add(&mut line, b"\n");
    put(output, line.as_slice())
}

/// Adds the line of a word and a session.
fn add_for(line: &mut ArrayVec<u8, 160>, word: &[u8], session: usize)
    requires session { session < sessions }
    requires short { length word.now ≤ 6 }
    requires room { length line.old.items ≤ 20 }
    ensures added { line.new.items ≡ line.old.items ++ line_for word.now session }
    ensures short { length line.new.items ≤ length line.old.items + 9 }
{
    add(line, word);
    add(line, &[b' ', b'0' + session as u8, b'\n']);
}

/// Adds bytes.
fn add(line: &mut ArrayVec<u8, 160>, bytes: &[u8])
    requires { length line.old.items + length bytes.now ≤ 160 }
    ensures { line.new.items ≡ line.old.items ++ bytes.now }
{
    line.try_extend_from_slice(bytes).unwrap();
}

/// Puts bytes.
fn put<O: Sink>(output: &mut O, bytes: &[u8]) -> Result<(), End>
    ensures { PutsAll bytes.now (O.state output.old) (O.state output.new) result }
{
    match output.put(bytes) {
        Ok(()) => Ok(()),
        Err(SinkFault) => Err(End::Sink),
    }
}
