//! A script that is cut at each byte: the events before the cut are answered as ever, and one that was cut is
//! none.
use crate::acts::{ACTS, Act};
use crate::plays::{add, formatted, joined, play, try_played};
use desk_core::End;
use std::alloc::Global;
use std::process::Abort;

/// Plays what stands before a cut, on a new store.
fn try_cut(
    rt: &impl Abort,
    alloc: Global,
    script: Vec<u8>,
    end: End,
    put: &[u8],
    at: (usize, usize),
) {
    let disk = formatted(rt, alloc);
    let played = play(rt, alloc, disk, script, 4096);
    try_played(rt, &played, end, put, &at);
}

/// The cuts within an event, with what stood before it and what was put of that.
fn try_cuts(rt: &impl Abort, alloc: Global, before: &[u8], act: &Act, put: &[u8]) {
    for cut in 1..act.says.len() {
        let script = joined(rt, alloc, before, &act.says[..cut]);
        try_cut(rt, alloc, script, End::Line, put, (before.len(), cut));
    }
}

/// The cut behind an event: the desk finishes its flush.
fn try_end(rt: &impl Abort, alloc: Global, script: &[u8], put: &[u8], act: &Act) {
    let whole = joined(rt, alloc, put, act.ends);
    let copy = joined(rt, alloc, script, b"");
    try_cut(rt, alloc, copy, End::End, &whole, (script.len(), 0));
}

#[test]
fn answers_what_was_whole_where_its_script_is_cut(rt: HostRuntime) {
    let alloc = rt.alloc();
    let (mut script, mut put) = (Vec::new(alloc), Vec::new(alloc));
    for act in ACTS {
        try_cuts(&rt, alloc, &script, act, &put);
        add(&rt, &mut script, act.says);
        add(&rt, &mut put, act.puts);
        try_end(&rt, alloc, &script, &put, act);
    }
}
