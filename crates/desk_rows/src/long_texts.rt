//! Texts that find no room at a desk: a session's requests have 1,048,576 bytes in all.
ghost use Rattle.std.specs.Prelude.{◌<◌};

use crate::plays::{add, formatted, joined, play, try_played};
use desk_core::End;
use std::alloc::Global;
use std::process::Abort;

/// What stands before an object of zeros, how long it is, and what stands behind it; how the desk ends, and
/// what it puts.
#[derive(Clone, Copy, Debug)]
struct Long {
    before: &'static [u8],
    size: usize,
    behind: &'static [u8],
    end: End,
    put: &'static [u8],
}

macro_rules! longs {
    ($($before:literal, $size:literal, $behind:literal => $end:ident $put:literal;)*) => {
        &[$(Long { before: $before, size: $size, behind: $behind, end: End::$end, put: $put }),*]
    };
}

/// The line of the object has 14 bytes, and one newline stands behind the object.
const LONGS: &[Long] = longs! {
    // A text of 1,048,576 bytes, and one of one more.
    b"say 0\nput a 1048561\n", 1048561, b"\n" => End b"queued 0\nleft 1\n";
    b"say 0\nput a 1048562\n", 1048562, b"\n" => End b"full 0\nleft 0\n";
    // What was dropped leaves the room as it was, and the next event is read.
    b"say 0\nput a 1048562\n", 1048562, b"\nserve 0\nsay 0\nlist\nserve 0\n"
        => End b"full 0\nempty 0\nqueued 0\nto 0\nlist 0\nleft 0\n";
    // An object longer than any store takes.
    b"say 0\nput a 1100000\n", 1100000, b"\nsay 0\nget a\nserve 0\n"
        => End b"full 0\nqueued 0\nto 0\nrefused missing\nleft 0\n";
    // What waits takes room, of its own session alone: `list` and its newline are 5 bytes.
    b"say 0\nlist\nsay 0\nput a 1048556\n", 1048556, b"\n" => End b"queued 0\nqueued 0\nleft 2\n";
    b"say 0\nlist\nsay 0\nput a 1048557\n", 1048557, b"\n" => End b"queued 0\nfull 0\nleft 1\n";
    b"say 1\nlist\nsay 0\nput a 1048561\n", 1048561, b"\n" => End b"queued 1\nqueued 0\nleft 2\n";
    // A full ring has no room for a line, and has it again once its request was taken.
    b"say 0\nput a 1048561\n", 1048561, b"\nsay 0\nlist\nsay 1\nlist\nserve 0\nsay 0\nlist\n"
        => End b"queued 0\nfull 0\nqueued 1\nbegun 0\nqueued 0\nto 0\nok kept\nleft 2\n";
    // Five bytes are free, which a `list` fills.
    b"say 0\nput a 1048556\n", 1048556, b"\nsay 0\nstat\nsay 0\nlist\n"
        => End b"queued 0\nqueued 0\nfull 0\nleft 2\n";
    b"say 0\nput a 1048556\n", 1048556, b"\nsay 0\nget x\nsay 0\nlist\n"
        => End b"queued 0\nfull 0\nqueued 0\nleft 2\n";
    // One that would be dropped but is cut is no event, nor is one without its newline.
    b"say 0\nput a 1048562\n", 1048561, b"" => Line b"";
    b"say 0\nput a 1048562\n", 1048562, b"" => Line b"";
    b"say 0\nput a 1048562\n", 1048562, b"x" => Line b"";
    b"say 0\nput a 1048562\n", 1048563, b"\n" => Line b"";
};

/// Plays a row on a new store, in pieces of so many bytes.
fn try_long(rt: &impl Abort, alloc: Global, long: &Long, piece: usize)
    requires { 0 < piece }
{
    let zeros = vec![in alloc; 0u8; long.size].expect(rt, "memory");
    let mut script = joined(rt, alloc, long.before, &zeros);
    add(rt, &mut script, long.behind);
    let played = play(rt, alloc, formatted(rt, alloc), script, piece);
    try_played(rt, &played, long.end, long.put, long);
}

#[test]
fn drops_what_finds_no_room(rt: HostRuntime) {
    for long in LONGS {
        try_long(&rt, rt.alloc(), long, 4096);
        try_long(&rt, rt.alloc(), long, 1 << 16);
    }
}
