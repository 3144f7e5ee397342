//! Images of a disk, and what the program makes of each.
use crate::answers::{CHECK, got, try_end, try_number};
use disk_face::Disk;
use disk_mem::{Choice, MemDisk};
use row_vectors::runs::run;
use std::alloc::Global;
use std::process::Abort;

/// What the last sync left, what reads give, and these with one value in each byte that isn't synced or
/// that the next call writes.
pub const CHOICES: &[Choice] = &[
    Choice::Durable,
    Choice::Newest,
    Choice::Torn(0),
    Choice::Torn(0x5A),
    Choice::Torn(0xA5),
];

/// The image of a turn.
pub fn image_at(rt: &impl Abort, disk: &MemDisk, turn: u64, choice: Choice) -> Vec<u8> {
    assert!(rt; turn <= disk.turns());
    disk.image(turn, choice).expect(rt, "memory")
}

/// What `check f` puts of a file, by its status. It changes nothing.
pub fn try_check(
    rt: &impl Abort,
    alloc: Global,
    file: &[u8],
    status: u8,
    puts: &str,
    at: (u64, Choice),
) {
    let ran = got(rt, run(alloc, CHECK, file));
    try_end(rt, &ran, status, puts, &at);
    try_number(rt, ran.disk.turns(), 0, &at);
}
