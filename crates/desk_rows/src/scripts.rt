//! Scripts, and what a desk puts for them.
ghost use Rattle.std.specs.Prelude.{◌<◌};

use crate::plays::{formatted, joined, play, try_played};
use desk_core::End;
use std::alloc::Global;
use std::process::Abort;

/// A script of a desk whose store is empty, how it ends, and what is put.
#[derive(Clone, Copy, Debug)]
struct Script {
    events: &'static [u8],
    end: End,
    put: &'static [u8],
}

/// Flushes that are stepped between other requests, ends with one in hand, and inputs that end too early.
const SCRIPTS: &[Script] = &[
    Script {
        events: b"say 0\nput a 100\n\
            012345678901234567890123456789012345678901234567890123456789\
            0123456789012345678901234567890123456789\n\
            serve 0\nstep\nstep\nsay 0\nput b 10\nabcdefghij\nserve 0\nsay 0\nkeep\nserve 0\n\
            say 0\nput c 5\nklmno\nsay 1\nget b\nserve 0\nstep\nserve 1\nserve 1\nsay 1\nkeep\nserve 1\n\
            step\nstep\nstep\nstep\nstep\nstep\nserve 1\n",
        end: End::End,
        put: b"queued 0\nbegun 0\nmoved\nto 0\nok kept\nqueued 0\nto 0\nok\nqueued 0\nto 0\nok kept\n\
            queued 0\nqueued 1\nbegun 0\nmoved\nto 1\ndata 10\nabcdefghij\nempty 1\nqueued 1\nwait 1\n\
            moved\nmoved\nmoved\nmoved\nto 0\nok kept\nidle\nto 1\nok kept\nleft 0\n",
    },
    Script {
        events: b"say 3\nput a 5\nklmno\nsay 3\nlist\nsay 3\ndel a\nserve 3\nserve 3\n",
        end: End::End,
        put: b"queued 3\nqueued 3\nqueued 3\nbegun 3\nwait 3\nto 3\nok kept\nleft 2\n",
    },
    Script {
        events: b"say 3\nput a 5\nklmno\nsay 4\nlist\nsay 5\nstat\nserve 3\nserve 4\nserve 5\nsay 9\n",
        end: End::Line,
        put: b"queued 3\nqueued 4\nqueued 5\nbegun 3\nto 4\nlist 1\na 5\nwait 5\n",
    },
    Script {
        events: b"serve 2\nstep\nsay 2\nget x\nserve 2\nsay 2\ndel x\nserve 2\n",
        end: End::End,
        put: b"empty 2\nidle\nqueued 2\nto 2\nrefused missing\nqueued 2\nto 2\nrefused missing\nleft 0\n",
    },
    Script {
        events: b"say 0\nput a 5\nkl",
        end: End::Line,
        put: b"",
    },
    Script {
        events: b"say 0\n",
        end: End::Line,
        put: b"",
    },
    Script {
        events: b"",
        end: End::End,
        put: b"left 0\n",
    },
];

/// Plays a script in pieces of so many bytes, on a new store.
fn try_script(rt: &impl Abort, alloc: Global, script: &Script, piece: usize)
    requires { 0 < piece }
{
    let events = joined(rt, alloc, script.events, b"");
    let played = play(rt, alloc, formatted(rt, alloc), events, piece);
    try_played(rt, &played, script.end, script.put, script);
}

#[test]
fn plays_scripts(rt: HostRuntime) {
    for script in SCRIPTS {
        try_script(&rt, rt.alloc(), script, 4096);
        try_script(&rt, rt.alloc(), script, 1);
    }
}
