//! How a command ends: its status, and its fault line.
ghost use Rattle.std.specs.Prelude.{◌≡◌, ◌≤◌, Ok, Err, OnOk, IsTrue};
ghost use Rattle.disk_face.specs.Counts.{Rose};
ghost use Rattle.command_face.specs.{Outcomes.{PutsLast, line_at, status_at}, Faults.{line_of}};

use crate::fault::fault_line;
use crate::status::{
    DAMAGED_OBJECT, DISK_FAILED, DONE, FAULTY_REQUEST, FAULTY_WORDS, NO_BATCH, NO_FILE, NO_MEMORY,
    NO_OBJECT, NO_STORE, NOT_EMPTY, SINK_FAILED, SOURCE_FAILED, TOO_MANY_NAMES, TOO_MANY_REQUESTS,
    UNFIT, WORN,
};
use crate::stop::StopReason;
use disk_face::Sink;

/// How the program ends. The three numbers are of the requests of the input; they are 0 for a command
/// that serves none of these.
#[derive(Clone, Copy, Debug, PartialEq, Eq)]
pub struct Outcome {
    /// 0 done, 1 faulty words, 2 a faulty request, 3 no file, 4 no store, 5 not an empty file, 6 no
    /// such object, 7 the disk failed, 8 the source failed, 9 the sink failed, 10 too little memory, 11
    /// as many requests as one session answers, 13 a damaged object, 14 too many names, 15 a worn file,
    /// 16 no batch, 17 a batch that doesn't fit: the constants of `status`.
    pub status: u8,
    /// How many requests were answered.
    pub done: u64,
    /// How many of them the last acknowledged checkpoint holds.
    pub kept_done: u64,
    /// The disk's turn when that checkpoint was made, or when the file was opened.
    pub kept_turn: u64,
}

/// Puts the fault line of a command that stopped, and answers the status. Where that put fails, the
/// status stays.
pub fn finish<O: Sink>(end: Result<(), StopReason>, output: &mut O) -> Outcome
    ensures status { result ≡ record { status = status_at end; done = 0; kept_done = 0; kept_turn = 0 } }
    ensures line { IsTrue (O.state output.old).tells
        → PutsLast (O.state output.old).given (O.state output.new).given (line_at end)
        (Rose (O.state output.old).faults (O.state output.new).faults) }
    ensures told { (O.state output.new).tells ≡ (O.state output.old).tells }
    ensures later { (O.state output.old).faults ≤ (O.state output.new).faults }
    ensures calm { OnOk end ((O.state output.new).faults ≡ (O.state output.old).faults) }
{
    if let Err(why) = end {
        tell(why, output);
    }
    Outcome {
        status: status_at(&end),
        done: 0,
        kept_done: 0,
        kept_turn: 0,
    }
}

/// Puts the fault line of a reason to stop.
fn tell<O: Sink>(why: StopReason, output: &mut O)
    ensures line { IsTrue (O.state output.old).tells
        → PutsLast (O.state output.old).given (O.state output.new).given (line_of why)
        (Rose (O.state output.old).faults (O.state output.new).faults) }
    ensures told { (O.state output.new).tells ≡ (O.state output.old).tells }
    ensures later { (O.state output.old).faults ≤ (O.state output.new).faults }
{
    let line = fault_line(why);
    let _ = output.put(line.as_slice());
}

/// The status of a command that ends so.
fn status_at(end: &Result<(), StopReason>) -> u8
    ensures { result ≡ status_at end.now }
{
    match end {
        Ok(()) => DONE,
        Err(StopReason::Words) => FAULTY_WORDS,
        Err(StopReason::NoFile) => NO_FILE,
        Err(StopReason::NotStore(_)) => NO_STORE,
        Err(StopReason::Taken(_)) => NOT_EMPTY,
        Err(StopReason::Missing) => NO_OBJECT,
        Err(StopReason::Damaged) => DAMAGED_OBJECT,
        Err(StopReason::Disk) => DISK_FAILED,
        Err(StopReason::Sink) => SINK_FAILED,
        Err(StopReason::NoMemory) => NO_MEMORY,
        Err(StopReason::Line(_)) => FAULTY_REQUEST,
        Err(StopReason::Source) => SOURCE_FAILED,
        Err(StopReason::Budget) => TOO_MANY_REQUESTS,
        Err(StopReason::TooManyNames(_)) => TOO_MANY_NAMES,
        Err(StopReason::Worn) => WORN,
        Err(StopReason::NoBatch) => NO_BATCH,
        Err(StopReason::Unfit(_)) => UNFIT,
    }
}
