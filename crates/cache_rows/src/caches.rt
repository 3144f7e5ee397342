//! What is listed, what a hit needs no disk for, and what is counted.
use crate::trials::{CacheTrial, cached_on};
use disk_face::{Disk, Sink};
use disk_mem::{MemSink, PlainDisk};
use read_cache::Got;
use slot_pair::SlotPair;
use std::alloc::Global;
use std::process::Abort;
use store_core::Refusal;

/// What is asked.
#[derive(Clone, Copy)]
enum Ask {
    Put(&'static str, &'static [u8]),
    Del(&'static str),
    Keep,
    Back,
    Get(&'static str),
}

/// What is answered: that it was done; a get, with so many bytes, of a name that was listed, of one that
/// is listed since, or of one that isn't listed; or a refusal.
#[derive(Clone, Copy, Debug, PartialEq, Eq)]
enum Told {
    Done,
    Hit(u64),
    Miss(u64),
    Passed(u64),
    Refused(Refusal),
}

/// What is asked, and what is to be answered.
type Row = (Ask, Told);

/// What a get is told as.
fn told_of(got: Got) -> Told {
    match (got.hit, got.cached) {
        (true, _) => Told::Hit(got.size),
        (false, true) => Told::Miss(got.size),
        (false, false) => Told::Passed(got.size),
    }
}

/// A request of a cache.
fn answer<D: Disk, O: Sink>(trial: &mut CacheTrial<D>, ask: Ask, sink: &mut O) -> Told {
    let done = match ask {
        Ask::Put(name, bytes) => trial.put(name, bytes).map(|_| Told::Done),
        Ask::Del(name) => trial.del(name).map(|_| Told::Done),
        Ask::Keep => trial.keep().map(|_| Told::Done),
        Ask::Back => trial.back().map(|_| Told::Done),
        Ask::Get(name) => trial.get(name, sink).map(told_of),
    };
    match done {
        Ok(told) => told,
        Err(refusal) => Told::Refused(refusal),
    }
}

/// Tries rows one after another.
fn try_rows<D: Disk, O: Sink>(
    rt: &impl Abort,
    trial: &mut CacheTrial<D>,
    sink: &mut O,
    rows: &[Row],
) {
    for (ask, wanted) in rows {
        let told = answer(trial, *ask, sink);
        assert!(rt;
            told == *wanted,
            "{:?} is wanted, and {:?} came",
            wanted,
            told
        );
    }
}

/// A new store with room for 16 names, behind a cache of so many objects.
fn new_trial(rt: &impl Abort, alloc: Global, entries: u64) -> CacheTrial<PlainDisk> {
    assert!(rt; 1 <= entries && entries <= 4096);
    let mut disk = PlainDisk::with_room(alloc, 1 << 20).expect(rt, "memory");
    SlotPair::format(&mut disk, 9, 16).expect(rt, "a format");
    match cached_on(alloc, disk, entries) {
        Ok(trial) => trial,
        Err(_) => panic!(rt; "a cache"),
    }
}

/// A sink with room, whose puts of these numbers fail.
fn new_sink(rt: &impl Abort, alloc: Global, fails: &[u64]) -> MemSink {
    let fails = fails.to_vec(alloc).expect(rt, "memory");
    MemSink::with_room(alloc, 1 << 16, fails).expect(rt, "memory")
}

/// A cache of so many objects, what is asked of it, which puts of its sink fail, the first of the bytes
/// that are put and how many these are, and the hits, misses and drops at the end.
struct Case {
    entries: u64,
    fails: &'static [u64],
    rows: &'static [Row],
    front: &'static [u8],
    put: usize,
    counts: (u64, u64, u64),
}

/// Three objects of 3 bytes, the last two of which that were got are listed. A put takes the pair of its
/// name out.
const LAST_TWO: &Case = &Case {
    entries: 2,
    fails: &[],
    rows: &[
        (Ask::Put("a", b"xyz"), Told::Done),
        (Ask::Put("b", b"pqr"), Told::Done),
        (Ask::Put("c", b"klm"), Told::Done),
        (Ask::Get("a"), Told::Miss(3)),
        (Ask::Get("b"), Told::Miss(3)),
        (Ask::Get("a"), Told::Hit(3)),
        (Ask::Get("c"), Told::Miss(3)),
        (Ask::Get("b"), Told::Miss(3)),
        (Ask::Get("a"), Told::Miss(3)),
        (Ask::Put("a", b"uvw"), Told::Done),
        (Ask::Get("a"), Told::Miss(3)),
        (Ask::Get("a"), Told::Hit(3)),
    ],
    front: b"xyzpqrxyzklmpqrxyzuvwuvw",
    put: 24,
    counts: (2, 6, 0),
};

/// No byte, and 4,096, are listed; 4,097 are counted nowhere.
const SIZES: &Case = &Case {
    entries: 2,
    fails: &[],
    rows: &[
        (Ask::Put("e", b""), Told::Done),
        (Ask::Put("p", &[7; 4097]), Told::Done),
        (Ask::Put("q", &[8; 4096]), Told::Done),
        (Ask::Get("e"), Told::Miss(0)),
        (Ask::Get("p"), Told::Passed(4097)),
        (Ask::Get("q"), Told::Miss(4096)),
        (Ask::Get("e"), Told::Hit(0)),
        (Ask::Get("p"), Told::Passed(4097)),
        (Ask::Get("q"), Told::Hit(4096)),
    ],
    front: &[7; 4097],
    put: 16386,
    counts: (2, 2, 0),
};

/// One object alone is listed.
const ONE: &Case = &Case {
    entries: 1,
    fails: &[],
    rows: &[
        (Ask::Put("a", b"xyz"), Told::Done),
        (Ask::Put("b", b"pq"), Told::Done),
        (Ask::Get("a"), Told::Miss(3)),
        (Ask::Get("a"), Told::Hit(3)),
        (Ask::Get("b"), Told::Miss(2)),
        (Ask::Get("a"), Told::Miss(3)),
    ],
    front: b"xyzxyzpqxyz",
    put: 11,
    counts: (1, 3, 0),
};

/// What is refused leaves the list, and so does a keep; a removal takes its pair out, and going back takes
/// all out.
const CHANGES: &Case = &Case {
    entries: 4,
    fails: &[],
    rows: &[
        (Ask::Put("a", &[7; 100]), Told::Done),
        (Ask::Get("a"), Told::Miss(100)),
        (Ask::Put("a b", b"y"), Told::Refused(Refusal::BadName)),
        (Ask::Del("b"), Told::Refused(Refusal::Missing)),
        (Ask::Keep, Told::Done),
        (Ask::Get("a"), Told::Hit(100)),
        (Ask::Put("b", &[8; 10]), Told::Done),
        (Ask::Get("b"), Told::Miss(10)),
        (Ask::Back, Told::Done),
        (Ask::Get("b"), Told::Refused(Refusal::Missing)),
        (Ask::Get("a"), Told::Miss(100)),
        (Ask::Del("a"), Told::Done),
        (Ask::Get("a"), Told::Refused(Refusal::Missing)),
    ],
    front: &[7; 200],
    put: 310,
    counts: (1, 3, 0),
};

/// A hit whose sink fails is a hit: its pair comes to the front.
const FAILING: &Case = &Case {
    entries: 2,
    fails: &[3],
    rows: &[
        (Ask::Put("a", b"x"), Told::Done),
        (Ask::Put("b", b"y"), Told::Done),
        (Ask::Put("c", b"z"), Told::Done),
        (Ask::Get("a"), Told::Miss(1)),
        (Ask::Get("b"), Told::Miss(1)),
        (Ask::Get("a"), Told::Refused(Refusal::Sink)),
        (Ask::Get("c"), Told::Miss(1)),
        (Ask::Get("a"), Told::Hit(1)),
    ],
    front: b"xyzx",
    put: 4,
    counts: (2, 3, 0),
};

/// All of them.
const CASES: &[&Case] = &[LAST_TWO, SIZES, ONE, CHANGES, FAILING];

/// What was put, and what was counted.
fn try_end(rt: &impl Abort, case: &Case, put: &[u8], counts: (u64, u64, u64)) {
    assert!(rt; put.len() == case.put && put.starts_with(case.front));
    assert!(rt; counts == case.counts);
}

/// Tries a case.
fn try_case(rt: &impl Abort, alloc: Global, case: &Case) {
    let mut trial = new_trial(rt, alloc, case.entries);
    let mut sink = new_sink(rt, alloc, case.fails);
    try_rows(rt, &mut trial, &mut sink, case.rows);
    try_end(rt, case, sink.bytes(), trial.counts());
}

#[test]
fn lists_what_was_got_last(rt: HostRuntime) {
    for case in CASES {
        try_case(&rt, rt.alloc(), case);
    }
}

/// Two objects, of which one is listed.
const LISTED: &[Row] = &[
    (Ask::Put("a", b"x"), Told::Done),
    (Ask::Put("b", b"y"), Told::Done),
    (Ask::Get("a"), Told::Miss(1)),
];

/// Then no call of the disk ends well. A store that is broken answers nothing from the list.
const DEAD: &[Row] = &[
    (Ask::Get("a"), Told::Hit(1)),
    (Ask::Get("b"), Told::Refused(Refusal::Disk)),
    (Ask::Get("a"), Told::Hit(1)),
    (Ask::Put("a", b"z"), Told::Refused(Refusal::Disk)),
    (Ask::Get("a"), Told::Refused(Refusal::Broken)),
];

#[test]
fn answers_from_the_list_where_the_disk_fails(rt: HostRuntime) {
    let mut trial = new_trial(&rt, rt.alloc(), 2);
    let mut sink = new_sink(&rt, rt.alloc(), &[]);
    try_rows(&rt, &mut trial, &mut sink, LISTED);
    let mut dead = trial.failing();
    try_rows(&rt, &mut dead, &mut sink, DEAD);
    assert!(&rt; dead.counts() == (2, 1, 0));
}
