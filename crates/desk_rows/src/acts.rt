//! A worked script, event by event.
use std::alloc::Global;
use std::process::Abort;

/// An event, what it puts, how many changing calls of the disk it makes, and what is put in the end where the
/// input ends behind it.
#[derive(Clone, Copy, Debug)]
pub struct Act {
    pub says: &'static [u8],
    pub puts: &'static [u8],
    pub calls: u64,
    pub ends: &'static [u8],
}

macro_rules! acts {
    ($($says:literal => $puts:literal, $calls:literal, $ends:literal;)*) => {
        &[$(Act { says: $says, puts: $puts, calls: $calls, ends: $ends }),*]
    };
}

/// A put of 100 bytes whose flush grows an empty store, one of 10 bytes that is quiet, a checkpoint, and a
/// put of 5 bytes whose flush moves all three: `b` past the wall at 239, `a` against it, `c` to the front,
/// which the checkpoint holds, so that a moving table is saved first, and `b` and `a` behind it.
pub const ACTS: &[Act] = acts! {
    b"say 0\nput a 100\n\
        0123456789012345678901234567890123456789012345678901234567890123456789\
        012345678901234567890123456789\n" => b"queued 0\n", 0, b"left 1\n";
    b"serve 0\n" => b"begun 0\n", 2, b"to 0\nok kept\nleft 0\n";
    b"step\n" => b"moved\n", 1, b"to 0\nok kept\nleft 0\n";
    b"step\n" => b"to 0\nok kept\n", 9, b"left 0\n";
    b"say 0\nput b 10\nabcdefghij\n" => b"queued 0\n", 0, b"left 1\n";
    b"serve 0\n" => b"to 0\nok\n", 1, b"left 0\n";
    b"say 0\nkeep\n" => b"queued 0\n", 0, b"left 1\n";
    b"serve 0\n" => b"to 0\nok kept\n", 7, b"left 0\n";
    b"say 0\nput c 5\nklmno\n" => b"queued 0\n", 0, b"left 1\n";
    b"say 1\nget b\n" => b"queued 1\n", 0, b"left 2\n";
    b"serve 0\n" => b"begun 0\n", 2, b"to 0\nok kept\nleft 1\n";
    b"step\n" => b"moved\n", 1, b"to 0\nok kept\nleft 1\n";
    b"serve 1\n" => b"to 1\ndata 10\nabcdefghij\n", 0, b"to 0\nok kept\nleft 0\n";
    b"serve 1\n" => b"empty 1\n", 0, b"to 0\nok kept\nleft 0\n";
    b"say 1\nkeep\n" => b"queued 1\n", 0, b"to 0\nok kept\nleft 1\n";
    b"serve 1\n" => b"wait 1\n", 0, b"to 0\nok kept\nleft 1\n";
    b"step\n" => b"moved\n", 1, b"to 0\nok kept\nleft 1\n";
    b"step\n" => b"moved\n", 8, b"to 0\nok kept\nleft 1\n";
    b"step\n" => b"moved\n", 1, b"to 0\nok kept\nleft 1\n";
    b"step\n" => b"moved\n", 1, b"to 0\nok kept\nleft 1\n";
    b"step\n" => b"to 0\nok kept\n", 9, b"left 1\n";
    b"step\n" => b"idle\n", 0, b"left 1\n";
    b"serve 1\n" => b"to 1\nok kept\n", 7, b"left 0\n";
};

/// The text of the events.
pub fn script_of(rt: &impl Abort, alloc: Global, acts: &[Act]) -> Vec<u8> {
    let mut script = Vec::new(alloc);
    for act in acts {
        script.extend_from_slice(act.says).expect(rt, "memory");
    }
    script
}

/// What is put before the disk fails the changing call of this number, counted from 1: the answers of the
/// events before the one that makes it.
pub fn puts_before(rt: &impl Abort, alloc: Global, acts: &[Act], call: u64) -> Vec<u8> {
    let mut put = Vec::new(alloc);
    let mut made = 0u64;
    for act in acts {
        made = made.saturating_add(act.calls);
        if call <= made {
            return put;
        }
        put.extend_from_slice(act.puts).expect(rt, "memory");
    }
    put
}
