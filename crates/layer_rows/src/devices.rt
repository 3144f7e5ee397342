//! The devices in memory: the images of each turn of a disk, a file in a bay, and pieces of a stream.
ghost use Rattle.std.specs.Prelude.{IsTrue};
ghost use Rattle.disk_mem.specs.Bays.{bay_state};

use crate::rows::try_holds;
use disk_face::{Bay, Disk, Mounted, Sink, Source};
use disk_mem::{Choice, MemBay, MemDisk, MemSink, MemSource, PlainDisk};
use slot_codec::NoMemory;
use std::alloc::Global;
use std::process::Abort;

/// Which images of a turn are built.
const CHOICES: [Choice; 3] = [Choice::Durable, Choice::Newest, Choice::Torn(b'?')];

/// The bytes of those images, turn by turn.
const IMAGES: &[[&[u8]; 3]] = &[
    [b"abcd", b"abcd", b"a??d"],
    [b"abcd", b"aXYd", b"a??d"],
    [b"abcd", b"aXYd\0\0", b"a??d??"],
    [b"aXYd\0\0", b"aXYd\0\0", b"aXYd\0\0"],
    [b"aXYd\0\0", b"aXY", b"?XY"],
    [b"aXYd\0\0", b"ZXY", b"?XY"],
];

/// What each call on a source of `hello` takes in pieces of 3 bytes, the second one failing.
const TAKES: &[Option<usize>] = &[Some(3), None, Some(2), Some(0)];

/// What is put, and whether a sink of 4 bytes takes it, the first call failing.
const PUTS: &[(&[u8], bool)] = &[(b"ab", false), (b"cde", true), (b"fg", false), (b"h", true)];

/// A disk of 6 bytes after three changing calls, the last of them a sync.
fn synced_disk(rt: &impl Abort, alloc: Global) -> MemDisk {
    let mut disk = MemDisk::from_bytes(alloc, b"abcd").expect(rt, "memory");
    assert!(rt; disk.len().expect(rt, "a call") == 4);
    disk.write_at(1, b"XY").expect(rt, "a call");
    disk.set_len(6).expect(rt, "a call");
    disk.sync().expect(rt, "a call");
    disk
}

/// Cuts a disk, and writes on it.
fn cut(rt: &impl Abort, disk: &mut MemDisk) {
    disk.set_len(3).expect(rt, "a call");
    assert!(rt; disk.len().expect(rt, "a call") == 3);
    disk.write_at(0, b"Z").expect(rt, "a call");
}

/// Whether this is an image of a turn.
fn is_image(disk: &MemDisk, turn: u64, choice: Choice, wanted: &[u8]) -> bool {
    if disk.turns() < turn {
        return false;
    }
    match disk.image(turn, choice) {
        Ok(built) => built.as_slice() == wanted,
        Err(NoMemory) => false,
    }
}

/// Tries the images of a turn.
fn try_turn(rt: &impl Abort, disk: &MemDisk, turn: u64, images: &[&[u8]]) {
    for (choice, wanted) in CHOICES.iter().zip(images) {
        let built = is_image(disk, turn, *choice, wanted);
        try_holds(rt, built, &(turn, choice));
    }
}

#[test]
fn builds_the_images_of_each_turn(rt: HostRuntime) {
    let mut disk = synced_disk(&rt, rt.alloc());
    cut(&rt, &mut disk);
    for (turn, images) in IMAGES.iter().enumerate() {
        try_turn(&rt, &disk, turn as u64, images);
    }
}

/// A bay whose file `f` was made, with room for 8 bytes.
fn made_bay(rt: &impl Abort, alloc: Global) -> MemBay<PlainDisk>
    ensures { IsTrue (bay_state result).is_ready }
{
    let disk = PlainDisk::with_room(alloc, 8).expect(rt, "memory");
    let name = String::from_str(alloc, "f").expect(rt, "memory");
    let mut bay = MemBay::new(alloc, name, false, disk);
    assert!(rt; bay.mount("f", true).expect(rt, "a call") == Mounted::Made);
    bay
}

/// Grows the file, which fails above the room.
fn grow(rt: &impl Abort, bay: &mut MemBay<PlainDisk>)
    requires { IsTrue (bay_state bay.old).is_ready }
    ensures { IsTrue (bay_state bay.new).is_ready }
{
    assert!(rt; bay.set_len(9).is_err());
    bay.set_len(2).expect(rt, "a call");
}

/// Writes the file.
fn fill(rt: &impl Abort, bay: &mut MemBay<PlainDisk>)
    requires { IsTrue (bay_state bay.old).is_ready }
{
    assert!(rt; bay.len().expect(rt, "a call") == 2);
    bay.write_at(0, b"ok").expect(rt, "a call");
    bay.sync().expect(rt, "a call");
}

/// The disk of a bay that was written.
fn written_disk(rt: &impl Abort, alloc: Global) -> PlainDisk {
    let mut bay = made_bay(rt, alloc);
    grow(rt, &mut bay);
    fill(rt, &mut bay);
    assert!(rt; bay.turns() == 4);
    bay.into_disk()
}

#[test]
fn keeps_a_file_in_a_bay(rt: HostRuntime) {
    let mut disk = written_disk(&rt, rt.alloc());
    let mut out = [0u8; 2];
    assert!(rt; disk.len().expect(&rt, "a call") == 2);
    disk.read_at(0, &mut out).expect(&rt, "a call");
    assert!(rt; out.as_slice() == b"ok".as_slice());
}

/// A bay whose file `f` was written before, once a file `g` was looked for.
fn searched_bay(rt: &impl Abort, alloc: Global) -> MemBay<PlainDisk> {
    let name = String::from_str(alloc, "f").expect(rt, "memory");
    let mut bay = MemBay::new(alloc, name, true, written_disk(rt, alloc));
    assert!(rt; bay.mount("g", false).expect(rt, "a call") == Mounted::Absent);
    bay
}

#[test]
fn finds_no_file_of_another_name(rt: HostRuntime) {
    let bay = searched_bay(&rt, rt.alloc());
    assert!(rt; bay.disk().turns() == 4);
}

/// A source of five bytes, whose second call fails.
fn hello(rt: &impl Abort, alloc: Global) -> MemSource {
    let bytes = Vec::from_slice(alloc, b"hello").expect(rt, "memory");
    let fails = Vec::from_slice(alloc, &[2u64]).expect(rt, "memory");
    MemSource::new(bytes, 3, fails)
}

#[test]
fn takes_in_pieces(rt: HostRuntime) {
    let mut source = hello(&rt, rt.alloc());
    let mut out = [0u8; 8];
    for taken in TAKES {
        assert!(rt; source.take(&mut out).ok() == *taken);
    }
    assert!(rt; &out[..3] == b"lol".as_slice());
}

/// A sink of four bytes, whose first call fails.
fn small_sink(rt: &impl Abort, alloc: Global) -> MemSink {
    let fails = Vec::from_slice(alloc, &[1u64]).expect(rt, "memory");
    MemSink::with_room(alloc, 4, fails).expect(rt, "memory")
}

#[test]
fn puts_in_pieces(rt: HostRuntime) {
    let mut sink = small_sink(&rt, rt.alloc());
    for (bytes, is_put) in PUTS {
        assert!(rt; sink.put(bytes).is_ok() == *is_put);
    }
    assert!(rt; sink.bytes() == b"cdeh".as_slice());
}
