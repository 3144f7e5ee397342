//! Saving what changed: the worked file comes of three saves, byte for byte, and what a crash leaves meanwhile has
//! the old table or the new one.
ghost use Rattle.std.specs.Prelude.{◌≡◌, IsTrue, Ok};
ghost use Rattle.extent_table.specs.Deltas.{changes_of, kept_rolled, now_rolled};
ghost use Rattle.logged_pair.specs.{Pairs.{in_log}, Saves.{CanSaveChanges}};
ghost use Rattle.slot_codec.specs.Reading.{all_in_range};

use crate::worked::{BASE, ENTRIES, file_with, try_holds};
use disk_face::Disk;
use disk_mem::{Choice, MemDisk};
use extent_table::{Spot, Table};
use logged_pair::LoggedPair;
use reopen::load_by_mark;
use size_class::CLASSES;
use slot_codec::{Delta, Header, Kind, Name, cap};
use slot_pair::choose_by_mark;
use std::alloc::Global;
use std::process::Abort;

/// A header of version 3, whose sequence and count a save sets.
const SETTLED: Header = Header {
    version: 3,
    kind: Kind::Settled,
    boundary: 0,
    sequence: 0,
    count: 0,
    wall: 0,
    slack: 0,
    caps: [0; 32],
    used: [[0; 32]; 32],
};

/// Behind the first save: class 6 has a capacity of 100.
const FIRST: &Header = &Header {
    caps: [
        0, 0, 0, 0, 0, 0, 100, 0, 0, 0, 0, 0, 0, 0, 0, 0, 0, 0, 0, 0, 0, 0, 0, 0, 0, 0, 0, 0, 0, 0,
        0, 0,
    ],
    ..SETTLED
};

/// Behind the second one: a moving table.
const SECOND: &Header = &Header {
    kind: Kind::Moving,
    boundary: 2,
    wall: 239,
    slack: 112,
    ..SETTLED
};

/// Behind the third one, and those after it.
const THIRD: &Header = &Header {
    caps: [
        0, 0, 5, 10, 0, 0, 100, 0, 0, 0, 0, 0, 0, 0, 0, 0, 0, 0, 0, 0, 0, 0, 0, 0, 0, 0, 0, 0, 0,
        0, 0, 0,
    ],
    ..SETTLED
};

/// Which of these headers a save has.
#[derive(Clone, Copy, Debug, PartialEq, Eq)]
enum Layout {
    First,
    Second,
    Third,
}

/// A name, where its object stands now, its size, and the first byte of its digest.
type Object = (&'static str, u64, u64, u8);

/// A save: its header, the objects that are put or moved before it, its sequence, and how many changing calls it
/// makes.
type Save = (Layout, &'static [Object], u64, u64);

/// Three entries: each is one write, a sync, its gate, and a sync.
const ENTERED: &[Save] = &[
    (Layout::First, &[("a", 0, 100, 7)], 2, 4),
    (
        Layout::Second,
        &[("a", 139, 100, 7), ("b", 239, 10, 0), ("c", 249, 5, 0)],
        3,
        4,
    ),
    (
        Layout::Third,
        &[("c", 0, 5, 0), ("b", 5, 10, 0), ("a", 16, 100, 7)],
        4,
        4,
    ),
];

/// Behind them no entry has room: the gate behind it would stand at 10,752. So a whole table goes into slot 1, by a
/// header, the records, a sync, the gate and a sync; then an entry there closes slot 0 first, and the next one finds
/// it closed.
const GOING_ON: &[Save] = &[
    (Layout::Third, &[], 5, 5),
    (Layout::Third, &[], 6, 5),
    (Layout::Third, &[], 7, 4),
];

/// Sets the spot of an object.
fn set(rt: &impl Abort, table: &mut Table, object: &Object) {
    let (name, place, size, first) = *object;
    let name = Name::new(name.as_bytes()).expect(rt, "a name");
    let mut digest = [0u8; 32];
    digest[0] = first;
    assert!(rt; table.room());
    assert!(rt; place < 1 << 48 && size < 1 << 48);
    table.set(&name, Spot { place, size }, digest);
}

/// The pair of a disk with a file whose slots have logs.
fn pair_of<D: Disk>(rt: &impl Abort, disk: &mut D) -> LoggedPair
    requires { IsTrue (D.state disk.old).is_ready }
    ensures pair { IsTrue (D.state disk.new).tells → in_log (D.state disk.new).file ≡ Ok result }
    ensures ready { IsTrue (D.state disk.new).is_ready }
{
    let (found, logged) = choose_by_mark(disk).expect(rt, "a slot in use");
    assert!(rt; logged);
    LoggedPair::find(disk, &found).expect(rt, "a header")
}

/// Whether a table may be saved under a header: the slot has room for its records, those that were kept too, and a
/// sequence is left.
fn is_ready(pair: &LoggedPair, header: &Header, table: &Table) -> bool
    requires { IsTrue (all_in_range header.now) }
    ensures { IsTrue result → CanSaveChanges pair.now header.now (kept_rolled table.now)
        (now_rolled table.now) (changes_of table.now) }
{
    let room = cap(pair.block().names, 3);
    if header.version != 3 || room < table.count() {
        return false;
    }
    if room < table.kept_count() || table.changes() > 1 << 32 {
        return false;
    }
    pair.sequence() < 1 << 61
}

/// Saves a table under a header, and answers the sequence.
fn save(rt: &impl Abort, alloc: Global, disk: &mut MemDisk, header: &Header, table: &Table) -> u64
    requires { IsTrue (all_in_range header.now) }
{
    let mut pair = pair_of(rt, disk);
    let mut buf = vec![in alloc; 0u8; 57_856].expect(rt, "memory");
    assert!(rt; is_ready(&pair, header, table));
    pair.save(disk, header, table, &mut buf)
        .expect(rt, "a save")
}

/// Saves a table under one of the headers, and answers the sequence.
fn save_under(
    rt: &impl Abort,
    alloc: Global,
    disk: &mut MemDisk,
    layout: Layout,
    table: &Table,
) -> u64 {
    match layout {
        Layout::First => save(rt, alloc, disk, FIRST, table),
        Layout::Second => save(rt, alloc, disk, SECOND, table),
        Layout::Third => save(rt, alloc, disk, THIRD, table),
    }
}

/// Makes a save, and tries its sequence and how many calls it makes. The table is kept then.
fn try_save(rt: &impl Abort, alloc: Global, disk: &mut MemDisk, table: &mut Table, row: &Save) {
    let (layout, objects, sequence, calls) = *row;
    'objects: for object in objects {
        set(rt, table, object);
    }
    let began = disk.turns();
    let answer = save_under(rt, alloc, disk, layout, table);
    try_holds(rt, answer == sequence, row);
    try_holds(rt, disk.turns() == began.saturating_add(calls), row);
    table.keep();
}

/// A table without names, in a file with room for 32 names.
fn no_names(rt: &impl Abort, alloc: Global) -> Table {
    Table::with_room(alloc, 32).expect(rt, "memory")
}

/// A disk with the worked file before its first entry.
fn base_disk(rt: &impl Abort, alloc: Global) -> MemDisk {
    let bytes = file_with(rt, alloc, &[BASE]);
    MemDisk::from_bytes(alloc, &bytes).expect(rt, "memory")
}

/// What reads give of a disk.
fn content(rt: &impl Abort, disk: &MemDisk) -> Vec<u8> {
    disk.image(disk.turns(), Choice::Newest)
        .expect(rt, "memory")
}

#[test]
fn three_saves_make_the_worked_file(rt: HostRuntime) {
    let mut disk = base_disk(&rt, rt.alloc());
    let mut table = no_names(&rt, rt.alloc());
    'saves: for row in ENTERED {
        try_save(&rt, rt.alloc(), &mut disk, &mut table, row);
    }
    let worked = file_with(&rt, rt.alloc(), &[BASE, ENTRIES]);
    try_holds(&rt, content(&rt, &disk) == worked, &"worked");
}

/// The images of a turn that are tried.
const CHOICES: &[Choice] = &[
    Choice::Durable,
    Choice::Newest,
    Choice::Torn(0),
    Choice::Torn(0xA5),
    Choice::Torn(0xFF),
];

/// Tries an image: it is read to a table of the sequence before or of that of a row.
fn try_image(rt: &impl Abort, alloc: Global, image: &[u8], old: bool, new: bool, row: &Save) {
    let mut disk = MemDisk::from_bytes(alloc, image).expect(rt, "memory");
    match load_by_mark::<MemDisk, CLASSES>(alloc, &mut disk) {
        Ok(found) => {
            let sequence = found.header.sequence;
            let is_old = sequence.saturating_add(1) == row.2;
            try_holds(rt, (old && is_old) || (new && sequence == row.2), row);
        }
        Err(_) => try_holds(rt, false, row),
    }
}

/// Tries the images of one turn of a save that began at another: up to the second sync from the last, which it makes
/// before it opens a gate, they have the old table, and from its end on the new one.
fn try_turn(rt: &impl Abort, alloc: Global, disk: &MemDisk, began: u64, turn: u64, row: &Save) {
    let at = began.saturating_add(turn);
    assert!(rt; at <= disk.turns());
    'choices: for choice in CHOICES {
        let image = disk.image(at, *choice).expect(rt, "memory");
        let (old, new) = (turn < row.3, row.3 <= turn.saturating_add(2));
        try_image(rt, alloc, &image, old, new, row);
    }
}

/// Makes a save, and tries the images of each of its turns.
fn try_moments(rt: &impl Abort, alloc: Global, disk: &mut MemDisk, table: &mut Table, row: &Save) {
    let began = disk.turns();
    try_save(rt, alloc, disk, table, row);
    'turns: for turn in 0..row.3.saturating_add(1) {
        try_turn(rt, alloc, disk, began, turn, row);
    }
}

#[test]
fn a_crash_of_a_save_leaves_the_old_table_or_the_new_one(rt: HostRuntime) {
    let mut disk = base_disk(&rt, rt.alloc());
    let mut table = no_names(&rt, rt.alloc());
    'entered: for row in ENTERED {
        try_moments(&rt, rt.alloc(), &mut disk, &mut table, row);
    }
    'going_on: for row in GOING_ON {
        try_moments(&rt, rt.alloc(), &mut disk, &mut table, row);
    }
}
