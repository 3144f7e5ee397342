//! A script that is played at a desk, and what came of it.
ghost use Rattle.std.specs.Prelude.{◌≡◌, ◌<◌, IsTrue};
ghost use Rattle.desk_core.specs.Ready.{MayGoOn};
ghost use Rattle.size_class.specs.declared.TheConstants.{CLASSES};

use desk_core::{Desk, End};
use disk_face::Disk;
use disk_mem::{MemDisk, MemSink, MemSource};
use size_class::CLASSES;
use slot_pair::SlotPair;
use std::alloc::Global;
use std::fmt::Debug;
use std::process::Abort;
use store_core::Store;

/// How the desk ended, what it put, and the disk.
#[derive(Drop)]
pub struct Played<D: Disk> {
    pub disk: D,
    pub end: End,
    pub output: MemSink,
}

/// More bytes than any script here puts.
const ROOM: u64 = 1 << 21;

/// A new store with room for 16 names, made in 10 changing calls.
pub fn formatted(rt: &impl Abort, alloc: Global) -> MemDisk {
    let mut disk = MemDisk::new(alloc);
    SlotPair::format(&mut disk, 9, 16).expect(rt, "a format");
    disk
}

/// A desk over the store of a disk.
fn desk_over<D: Disk>(rt: &impl Abort, alloc: Global, disk: &mut D) -> Desk<CLASSES>
    requires { IsTrue (D.state disk.old).is_ready }
    ensures { MayGoOn CLASSES result (D.state disk.new) }
{
    let Ok(store) = Store::<CLASSES>::open(alloc, disk) else {
        panic!(rt; "a store")
    };
    match Desk::new(alloc, store) {
        Ok(desk) => desk,
        Err(_) => panic!(rt; "a desk"),
    }
}

/// Plays a script over the store of a disk, in pieces of so many bytes.
pub fn play<D: Disk + Drop>(
    rt: &impl Abort,
    alloc: Global,
    disk: D,
    script: Vec<u8>,
    piece: usize,
) -> Played<D>
    requires ready { IsTrue (D.state disk).is_ready }
    requires some { 0 < piece }
{
    let mut disk = disk;
    let mut desk = desk_over(rt, alloc, &mut disk);
    let mut input = MemSource::new(script, piece, Vec::new(alloc));
    let mut output = MemSink::with_room(alloc, ROOM, Vec::new(alloc)).expect(rt, "memory");
    let end = desk.run(&mut disk, &mut input, &mut output);
    Played { disk, end, output }
}

/// Adds bytes behind others.
pub fn add(rt: &impl Abort, bytes: &mut Vec<u8>, more: &[u8]) {
    bytes.extend_from_slice(more).expect(rt, "memory");
}

/// Bytes, with others behind them.
pub fn joined(rt: &impl Abort, alloc: Global, front: &[u8], more: &[u8]) -> Vec<u8> {
    let mut bytes = Vec::new(alloc);
    add(rt, &mut bytes, front);
    add(rt, &mut bytes, more);
    bytes
}

/// It ended so, and put this.
pub fn try_played<D: Disk>(
    rt: &impl Abort,
    played: &Played<D>,
    end: End,
    put: &[u8],
    row: &impl Debug,
) {
    assert!(rt; played.end == end, "{row:?}");
    assert!(rt; played.output.bytes() == put, "{row:?}");
}

/// What holds of a row.
pub fn try_holds(rt: &impl Abort, holds: bool, row: &impl Debug) {
    assert!(rt; holds, "{row:?}");
}
