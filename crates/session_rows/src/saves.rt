//! Saving a table of names, and every image that a crash may leave of it.
ghost use Rattle.std.specs.Prelude.{IsTrue};
ghost use Rattle.slot_codec.specs.Reading.{all_in_range, is_version};

use crate::answers::{got, try_bytes, try_holds, try_number};
use crate::images::{CHOICES, image_at};
use disk_face::Disk;
use disk_mem::{Choice, MemDisk};
use extent_table::{Spot, Table, a_table_can_be_saved};
use row_vectors::runs::run;
use slot_codec::{HEADER_LEN, Header, Kind, Name, RECORD_LEN, cap, read_header, read_record};
use slot_pair::SlotPair;
use std::alloc::Global;
use std::process::Abort;

/// The settled header of a table whose class 2 has a capacity of 5.
const HEADER: &Header = &Header {
    version: 1,
    kind: Kind::Settled,
    boundary: 0,
    sequence: 0,
    count: 0,
    wall: 0,
    slack: 0,
    caps: [
        0, 0, 5, 0, 0, 0, 0, 0, 0, 0, 0, 0, 0, 0, 0, 0, 0, 0, 0, 0, 0, 0, 0, 0, 0, 0, 0, 0, 0, 0,
        0, 0,
    ],
    used: [[0; 32]; 32],
};

/// Sets the spot of an object.
fn set(rt: &impl Abort, table: &mut Table, name: &str, place: u64, size: u64) {
    let name = Name::new(name.as_bytes()).expect(rt, "a name");
    assert!(rt; table.room());
    assert!(rt; place < 1 << 48 && size < 1 << 48);
    table.set(&name, Spot { place, size }, [0; 32]);
}

/// A name of an object, its place and its size.
type Object = (&'static str, u64, u64);

/// A table with these objects, in a file with room for 16 names.
fn table_of(rt: &impl Abort, alloc: Global, objects: &[Object]) -> Table {
    let mut table = Table::with_room(alloc, 16).expect(rt, "memory");
    for (name, place, size) in objects {
        set(rt, &mut table, *name, *place, *size);
    }
    table
}

/// Saves a table on a disk that is a store, under the header of these tests, and answers the sequence.
fn save(rt: &impl Abort, alloc: Global, disk: &mut MemDisk, table: &Table) -> u64 {
    save_table(rt, alloc, disk, HEADER, table)
}

/// Whether files have tables of a version.
fn is_known(version: u8) -> bool
    ensures { IsTrue result → IsTrue (is_version version) }
{
    version == 1 || version == 2
}

/// Saves a table under a header on a disk that is a store, and answers the sequence.
fn save_table(
    rt: &impl Abort,
    alloc: Global,
    disk: &mut MemDisk,
    header: &Header,
    table: &Table,
) -> u64
    requires { IsTrue (all_in_range header.now) }
{
    let found = SlotPair::find(disk).expect(rt, "a store");
    let mut pair = SlotPair::of(&found);
    let mut buf = vec![in alloc; 0u8; 57_344].expect(rt, "memory");
    a_table_can_be_saved();
    assert!(rt; is_known(header.version));
    assert!(rt; table.count() <= cap(found.block.names, header.version));
    assert!(rt; pair.sequence() < 1 << 61);
    pair.save(disk, header, table, &mut buf)
        .expect(rt, "a save")
}

/// Saves a table, with a sequence, and so many changing calls have ended then.
fn try_save(rt: &impl Abort, alloc: Global, disk: &mut MemDisk, table: &Table, left: (u64, u64)) {
    let sequence = save(rt, alloc, disk, table);
    try_number(rt, sequence, left.0, &"sequence");
    try_number(rt, disk.turns(), left.1, &"turns");
}

/// A store with room for 16 names.
fn store(rt: &impl Abort, alloc: Global) -> MemDisk {
    let mut disk = MemDisk::new(alloc);
    SlotPair::format(&mut disk, 9, 16).expect(rt, "a format");
    disk
}

/// Saves a table of these objects.
fn try_objects(
    rt: &impl Abort,
    alloc: Global,
    disk: &mut MemDisk,
    objects: &[Object],
    left: (u64, u64),
) {
    let table = table_of(rt, alloc, objects);
    try_save(rt, alloc, disk, &table, left);
}

/// `a` of 5 bytes.
const ONE: &[Object] = &[("a", 0, 5)];

#[test]
fn saves_in_a_fixed_number_of_calls(rt: HostRuntime) {
    let mut disk = store(&rt, rt.alloc());
    try_objects(&rt, rt.alloc(), &mut disk, &[], (2, 16));
    try_objects(&rt, rt.alloc(), &mut disk, ONE, (3, 23));
}

/// Sets the object of a number.
fn set_numbered(rt: &impl Abort, alloc: Global, table: &mut Table, number: u64) {
    let name = format!(in alloc; "n{number}").expect(rt, "memory");
    set(rt, table, &name, 0, 0);
}

/// A table with 513 objects, in a file with room for 1,024 names.
fn many(rt: &impl Abort, alloc: Global) -> Table {
    let mut table = Table::with_room(alloc, 1024).expect(rt, "memory");
    for number in 0..513 {
        set_numbered(rt, alloc, &mut table, number);
    }
    table
}

#[test]
fn saves_more_records_in_one_call_more(rt: HostRuntime) {
    let mut disk = MemDisk::new(rt.alloc());
    SlotPair::format(&mut disk, 9, 1024).expect(&rt, "a format");
    let table = many(&rt, rt.alloc());
    try_save(&rt, rt.alloc(), &mut disk, &table, (2, 18));
}

/// Writes the object `a` = `hello` into the data part.
fn write_hello(rt: &impl Abort, disk: &mut MemDisk) {
    disk.set_len(19608).expect(rt, "a length");
    assert!(rt; disk.len().expect(rt, "a length") == 19608);
    disk.write_at(19603, b"hello").expect(rt, "a write");
}

/// A store with that object, saved once; the save began after 12 calls.
fn with_hello(rt: &impl Abort, alloc: Global) -> MemDisk {
    let mut disk = store(rt, alloc);
    write_hello(rt, &mut disk);
    let table = table_of(rt, alloc, ONE);
    save(rt, alloc, &mut disk, &table);
    disk
}

/// Whether the status of a turn is right: 0 from the turn on at which the gate is open, and 6 up to its sync.
fn is_status_of(status: u8, turn: u64) -> bool {
    if status == 0 {
        17 <= turn
    } else {
        status == 6 && turn < 19
    }
}

/// The words of `get`.
const GET: &[&str] = &["get", "f", "a"];

/// `get` of an image of a turn of that save puts the object, or finds none.
fn try_image(rt: &impl Abort, alloc: Global, disk: &MemDisk, turn: u64, choice: Choice) {
    let image = image_at(rt, disk, turn, choice);
    let ran = got(rt, run(alloc, GET, &image));
    let status = ran.outcome.status;
    let puts = if status == 0 {
        "hello"
    } else {
        "fault missing\n"
    };
    try_bytes(rt, &ran.put, puts.as_bytes(), &turn);
    try_holds(rt, is_status_of(status, turn), &turn);
}

/// The images of a turn.
fn try_turn(rt: &impl Abort, alloc: Global, disk: &MemDisk, turn: u64) {
    for choice in CHOICES {
        try_image(rt, alloc, disk, turn, *choice);
    }
}

#[test]
fn leaves_the_old_table_or_the_new_one(rt: HostRuntime) {
    let disk = with_hello(&rt, rt.alloc());
    try_number(&rt, disk.turns(), 19, &"turns");
    for turn in 12..20 {
        try_turn(&rt, rt.alloc(), &disk, turn);
    }
}

/// A record of a file of 19,603 bytes.
#[tactic(auto, unfolding(slot_codec::specs::Spelling::record_len))]
fn try_record(rt: &impl Abort, disk: &mut MemDisk, at: u64, (name, place, size): Object) {
    let mut bytes = [0u8; RECORD_LEN];
    assert!(rt; disk.len().expect(rt, "a length") == 19603 && at < 19_000);
    disk.read_at(at, &mut bytes).expect(rt, "a read");
    let record = read_record(&bytes, 1).expect(rt, "a record");
    try_bytes(rt, record.name.as_bytes(), name.as_bytes(), &at);
    try_number(rt, record.place, place, &name);
    try_number(rt, record.size, size, &name);
}

/// The header of the second slot of that file.
fn try_header(rt: &impl Abort, disk: &mut MemDisk) {
    let mut bytes = [0u8; HEADER_LEN];
    assert!(rt; disk.len().expect(rt, "a length") == 19603);
    disk.read_at(9833, &mut bytes).expect(rt, "a read");
    let header = read_header(&bytes, 16).expect(rt, "a header");
    try_number(rt, header.sequence, 2, &"sequence");
    try_number(rt, header.count, 2, &"count");
}

/// `b` of 1 byte, and `a` of 10.
const TWO: &[Object] = &[("b", 20, 1), ("a", 5, 10)];

#[test]
fn finds_the_records_of_a_table_again(rt: HostRuntime) {
    let mut disk = store(&rt, rt.alloc());
    try_objects(&rt, rt.alloc(), &mut disk, TWO, (2, 17));
    try_header(&rt, &mut disk);
    try_record(&rt, &mut disk, 18321, ("a", 5, 10));
    try_record(&rt, &mut disk, 18401, ("b", 20, 1));
}
