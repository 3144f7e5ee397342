//! What a crash may leave at each moment of a quiet put: the last checkpoint alone.
use crate::checkpoints::{Checkpoint, opens_to};
use crate::requests::{Ask, KEPT, QUIET, Reply, Row, refused, rows, try_holds, try_rows};
use crate::trials::Trial;
use crate::worked::{ONE_KEPT, TWO_KEPT, one_recorded, two_recorded};
use disk_mem::{Choice, MemDisk};
use std::alloc::Global;
use std::process::Abort;
use store_core::Refusal;

/// The images of a turn that are tried: what the last sync left, what reads gave, and the written bytes
/// and those of the write that is next as other ones.
const CHOICES: &[Choice] = &[
    Choice::Durable,
    Choice::Newest,
    Choice::Torn(0),
    Choice::Torn(0x5A),
    Choice::Torn(0xA5),
    Choice::Torn(0xFF),
];

/// The image of a turn by a choice opens to a checkpoint.
fn try_image(
    rt: &impl Abort,
    alloc: Global,
    trial: &Trial<MemDisk>,
    at: (u64, Choice),
    checkpoint: &Checkpoint,
) {
    let image = trial.image(rt, at.0, at.1);
    try_holds(rt, image.len() == 19_714, &at);
    try_holds(rt, opens_to(rt, alloc, &image, checkpoint), &at);
}

/// Each image of the turns from one on up to the last opens to a checkpoint.
fn try_images(
    rt: &impl Abort,
    alloc: Global,
    trial: &Trial<MemDisk>,
    from: u64,
    checkpoint: &Checkpoint,
) {
    for turn in from..trial.turns().saturating_add(1) {
        for choice in CHOICES {
            try_image(rt, alloc, trial, (turn, *choice), checkpoint);
        }
    }
}

/// A turn, a choice, and the bytes with which their image ends.
type End = (u64, Choice, &'static [u8]);

/// The bytes with which images of these turns end.
fn try_ends(rt: &impl Abort, trial: &Trial<MemDisk>, ends: &[End]) {
    for (turn, choice, end) in ends {
        let image = trial.image(rt, *turn, *choice);
        try_holds(rt, image.ends_with(end), &(turn, choice));
    }
}

/// How these images end. Within the first put its 10 bytes may be any, and no others; after it they are
/// what reads give.
const ONE_ENDS: &[End] = &[
    (19, Choice::Torn(0x5A), b"9ZZZZZZZZZZ\0"),
    (20, Choice::Newest, b"9abcdefghij\0"),
    (20, Choice::Torn(0x5A), b"9ZZZZZZZZZZZ"),
    (21, Choice::Newest, b"9abcdefghijk"),
    (21, Choice::Durable, b"9\0\0\0\0\0\0\0\0\0\0\0"),
];

/// Two quiet puts and a removal.
const ONE_ROWS: &[Row] = rows! {
    Ask::Put("b", b"abcdefghij") => QUIET, b"", 1;
    Ask::Put("c", b"k") => QUIET, b"", 1;
    Ask::Del("b") => QUIET, b"", 0;
};

/// Two quiet puts and a removal, where the checkpoint has one object.
fn try_one(rt: &impl Abort, alloc: Global, trial: &mut Trial<MemDisk>) {
    try_rows(rt, alloc, trial, ONE_ROWS);
    try_images(rt, alloc, trial, 19, ONE_KEPT);
    try_ends(rt, trial, ONE_ENDS);
}

/// How an image ends once they are put.
const TWO_ENDS: &[End] = &[(22, Choice::Newest, b"9wxyzabcdefg")];

/// A removal, and puts beside what it held.
const TWO_ROWS: &[Row] = rows! {
    Ask::Get("q") => Reply::Number(4), b"wxyz", 0;
    Ask::Del("q") => QUIET, b"", 0;
    Ask::Get("q") => refused!(Missing), b"", 0;
    Ask::Old("q") => Reply::Number(4), b"wxyz", 0;
    // The bytes of `q` are held: 7 are left of the buffer.
    Ask::Put("q", b"abcd") => QUIET, b"", 1;
    Ask::Put("r", b"efg") => QUIET, b"", 1;
    Ask::Get("q") => Reply::Number(4), b"abcd", 0;
    Ask::Old("q") => Reply::Number(4), b"wxyz", 0;
    Ask::OldSize("q") => Reply::Number(4), b"", 0;
    Ask::List => Reply::Nothing, b"p 100\nq 4\nr 3\n", 0;
};

/// Going back, and a put that makes a flush.
const BACK_ROWS: &[Row] = rows! {
    Ask::Back => Reply::Nothing, b"", 0;
    Ask::Get("q") => Reply::Number(4), b"wxyz", 0;
    Ask::List => Reply::Nothing, b"p 100\nq 4\n", 0;
    // These don't find room beside the held ones.
    Ask::Put("q", b"abcdefgh") => KEPT, b"", 21;
    Ask::Old("q") => Reply::Number(8), b"abcdefgh", 0;
    Ask::List => Reply::Nothing, b"p 100\nq 8\n", 0;
};

/// A removal and puts, where the checkpoint has an object in a buffer.
fn try_two(rt: &impl Abort, alloc: Global, trial: &mut Trial<MemDisk>) {
    try_rows(rt, alloc, trial, TWO_ROWS);
    try_images(rt, alloc, trial, 20, TWO_KEPT);
    try_ends(rt, trial, TWO_ENDS);
    try_rows(rt, alloc, trial, BACK_ROWS);
}

#[test]
fn leaves_the_checkpoint_alone(rt: HostRuntime) {
    let mut trial = one_recorded(&rt, rt.alloc());
    try_one(&rt, rt.alloc(), &mut trial);
}

#[test]
fn keeps_what_the_checkpoint_holds(rt: HostRuntime) {
    let mut trial = two_recorded(&rt, rt.alloc());
    try_two(&rt, rt.alloc(), &mut trial);
}
