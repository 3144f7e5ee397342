//! Requests that wait at a desk, and are taken.
ghost use Rattle.std.specs.Prelude.{◌≡◌, ◌<◌, ◌≤◌, ◌++◌, IsTrue, codes, length};
ghost use Rattle.desk_model.specs.{Desks.{ring}, Events.{sessions}};
ghost use Rattle.desk_queues.specs.Queues.{IsText};

use crate::rows::try_holds;
use arrayvec::ArrayVec;
use ask_text::{Ask, read_ask};
use desk_queues::{Queues, RING, SESSIONS};

/// Whether a line is said or taken, the session and the line; how many requests wait then, and whether the
/// first of the session is a read.
type Row = (bool, usize, &'static str, u64, bool);

const ROWS: &[Row] = &[
    (true, 0, "keep", 1, false),
    (true, 7, "get b", 2, true),
    (true, 0, "list", 3, false),
    (false, 0, "keep", 2, true),
    (false, 0, "list", 1, false),
    (true, 7, "stat", 2, true),
    (false, 7, "get b", 1, false),
    (true, 3, "old !", 2, false),
    (false, 7, "stat", 1, false),
    (false, 3, "old !", 0, false),
];

/// Whether a line is that of a request which has no object.
fn is_bare(line: &[u8]) -> bool
    ensures { IsTrue result → IsText (line.now ++ codes "\n") }
{
    let Ok(ask) = read_ask(line) else {
        return false;
    };
    match ask {
        Ask::Put { .. } => false,
        _ => true,
    }
}

/// Whether a session could say a line.
fn says(queues: &mut Queues, session: usize, line: &[u8]) -> bool
    requires session { session < sessions }
    requires short { length line.now < 64 }
{
    let mut text: ArrayVec<u8, 64> = ArrayVec::new();
    text.try_extend_from_slice(line).unwrap();
    text.push(b'\n');
    if !is_bare(line) || queues.free(session) < text.len() {
        return false;
    }
    queues.push(session, text.as_slice());
    true
}

/// Whether a line is the first of a session, and is taken.
fn takes(queues: &mut Queues, session: usize, line: &[u8], body: &mut [u8]) -> bool
    requires session { session < sessions }
    requires room { ring ≤ length body.old }
{
    if queues.is_empty(session) {
        return false;
    }
    let ask = queues.take(session, body);
    read_ask(line) == Ok(ask)
}

/// Whether a row is done, and leaves what it should.
fn is_done(queues: &mut Queues, body: &mut [u8], row: &Row) -> bool {
    let (says_it, session, line, waiting, reads) = *row;
    let line = line.as_bytes();
    if session >= SESSIONS || line.len() >= 64 || body.len() < RING {
        return false;
    }
    let done = if says_it {
        says(queues, session, line)
    } else {
        takes(queues, session, line, body)
    };
    done && queues.waiting() == waiting
        && reads == (!queues.is_empty(session) && queues.is_read(session))
}

#[test]
fn requests_are_taken_in_their_order(rt: HostRuntime) {
    let mut queues = Queues::new(rt.alloc()).expect(&rt, "no memory");
    let mut body = vec![in rt.alloc(); 0; RING].expect(&rt, "no memory");
    for row in ROWS {
        let done = is_done(&mut queues, &mut body[..], row);
        try_holds(&rt, done, row);
    }
}
