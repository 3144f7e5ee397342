//! Requests to a store, and what they are answered.
ghost use Rattle.std.specs.Prelude.{◌≡◌, None};

use crate::trials::Trial;
use disk_face::Disk;
use disk_mem::MemSink;
use size_class::{CLASSES, SIZE_MAX};
use std::alloc::{AllocError, Global};
use std::fmt::Debug;
use std::process::Abort;
use store_core::{Done, Gauge, Refusal, Stat, Store};

/// Requests, with their answers, the bytes that they put and their changing calls.
macro_rules! rows {
    ($($ask:expr => $reply:expr, $puts:expr, $calls:literal;)*) => {
        &[$($crate::requests::Row { ask: $ask, reply: $reply, puts: $puts, calls: $calls }),*]
    };
}

/// An answer that is a refusal.
macro_rules! refused {
    ($refusal:ident) => {
        Reply::Refused(Refusal::$refusal)
    };
}

pub(crate) use refused;
pub(crate) use rows;

/// One byte more than the largest object has.
pub const ONE_TOO_MANY: usize = SIZE_MAX as usize + 1;

/// A request.
#[derive(Clone, Copy, Debug)]
pub enum Ask {
    Put(&'static str, &'static [u8]),
    /// A put of so many zeros.
    PutZeros(&'static str, usize),
    Del(&'static str),
    Get(&'static str),
    Old(&'static str),
    Size(&'static str),
    OldSize(&'static str),
    List,
    Stat,
    Back,
    Keep,
    Upgrade,
}

/// What a request is answered, beside the bytes that it puts.
#[derive(Clone, Copy, PartialEq, Eq)]
pub enum Reply {
    Done(Done),
    Number(u64),
    Stat(Stat),
    Nothing,
    Refused(Refusal),
}

/// A request, its answer, the bytes that it puts, and how many changing calls of the disk it makes.
#[derive(Clone, Copy)]
pub struct Row {
    pub ask: Ask,
    pub reply: Reply,
    pub puts: &'static [u8],
    pub calls: u64,
}

/// The answer to a change that saved no checkpoint.
pub const QUIET: Reply = Reply::Done(Done { kept: false });

/// The answer to a change that saved a checkpoint.
pub const KEPT: Reply = Reply::Done(Done { kept: true });

/// What a store answers to a request, whose bytes go to the sink.
fn answer<D: Disk>(
    rt: &impl Abort,
    alloc: Global,
    trial: &mut Trial<D>,
    ask: Ask,
    sink: &mut MemSink,
) -> Reply {
    match ask {
        Ask::Put(name, bytes) => done(trial.put(name, bytes)),
        Ask::PutZeros(name, size) => {
            let bytes = zeros(alloc, size).expect(rt, "memory");
            done(trial.put(name, &bytes))
        }
        Ask::Del(name) => done(trial.del(name)),
        Ask::Keep => done(trial.keep()),
        Ask::Upgrade => done(trial.upgrade()),
        Ask::Back => nothing(trial.back()),
        Ask::Get(name) => number(trial.get(name, sink)),
        Ask::Old(name) => number(trial.old(name, sink)),
        Ask::Size(_) | Ask::OldSize(_) | Ask::List | Ask::Stat => tell(trial.store(), ask, sink),
    }
}

/// So many zeros, taken by pieces, which is faster where bytes are checked one by one.
fn zeros(alloc: Global, size: usize) -> Result<Vec<u8>, AllocError> {
    let mut zeros = Vec::with_capacity(alloc, size)?;
    let piece = vec![in alloc; 0u8; PIECE]?;
    'pieces: for _ in 0..size / PIECE {
        zeros.extend_from_slice(&piece)?;
    }
    zeros.resize(size, 0)?;
    Ok(zeros)
}

/// How many zeros are taken at a time.
const PIECE: usize = 65_536;

/// What a store answers to a request that needs no disk.
fn tell(store: &Store<CLASSES>, ask: Ask, sink: &mut MemSink) -> Reply
    requires idle { store.now.in_hand ≡ None }
{
    match ask {
        Ask::Size(name) => number(store.size(name.as_bytes())),
        Ask::OldSize(name) => number(store.old_size(name.as_bytes())),
        Ask::List => nothing(store.list(sink)),
        _ => stat(store.stat()),
    }
}

fn done(answer: Result<Done, Refusal>) -> Reply {
    match answer {
        Ok(done) => Reply::Done(done),
        Err(refusal) => Reply::Refused(refusal),
    }
}

fn number(answer: Result<u64, Refusal>) -> Reply {
    match answer {
        Ok(number) => Reply::Number(number),
        Err(refusal) => Reply::Refused(refusal),
    }
}

fn stat(answer: Result<Stat, Refusal>) -> Reply {
    match answer {
        Ok(stat) => Reply::Stat(stat),
        Err(refusal) => Reply::Refused(refusal),
    }
}

fn nothing(answer: Result<(), Refusal>) -> Reply {
    match answer {
        Ok(()) => Reply::Nothing,
        Err(refusal) => Reply::Refused(refusal),
    }
}

/// Makes each request in turn.
pub fn try_rows<D: Disk>(rt: &impl Abort, alloc: Global, trial: &mut Trial<D>, rows: &[Row]) {
    let mut sink = MemSink::with_room(alloc, 1 << 16, Vec::new(alloc)).expect(rt, "memory");
    try_rows_to(rt, alloc, trial, rows, &mut sink);
}

/// Makes each request in turn, with one sink for all.
pub fn try_rows_to<D: Disk>(
    rt: &impl Abort,
    alloc: Global,
    trial: &mut Trial<D>,
    rows: &[Row],
    sink: &mut MemSink,
) {
    for row in rows {
        try_row(rt, alloc, trial, row, sink);
    }
}

/// Makes a request.
fn try_row<D: Disk>(
    rt: &impl Abort,
    alloc: Global,
    trial: &mut Trial<D>,
    row: &Row,
    sink: &mut MemSink,
) {
    let (put, turns) = (sink.bytes().len(), trial.turns());
    let reply = answer(rt, alloc, trial, row.ask, sink);
    try_holds(rt, reply == row.reply, &row.ask);
    try_holds(rt, sink.bytes().get(put..) == Some(row.puts), &row.ask);
    try_holds(
        rt,
        trial.turns() == turns.saturating_add(row.calls),
        &row.ask,
    );
}

/// What holds of a row.
pub fn try_holds(rt: &impl Abort, holds: bool, row: &impl Debug) {
    assert!(rt; holds, "{row:?}");
}

/// What a store and its disk say of themselves, without a request.
#[derive(Clone, Copy, PartialEq, Eq)]
pub struct Looks {
    /// How many changing calls of the disk have ended.
    pub turns: u64,
    pub gauge: Gauge,
    pub is_broken: bool,
    /// The bytes put and removed, by class, since the store was made.
    pub asked: [u64; 32],
    /// The bytes moved, by class.
    pub moved: [u64; 32],
}

/// Looks at a store.
pub fn try_looks<D: Disk>(rt: &impl Abort, trial: &Trial<D>, expected: &Looks) {
    let store = trial.store();
    let ledger = store.ledger();
    let looks = Looks {
        turns: trial.turns(),
        gauge: store.gauge(),
        is_broken: store.is_broken(),
        asked: ledger.asked.cells(),
        moved: ledger.moved.cells(),
    };
    assert!(rt; looks == *expected);
}
