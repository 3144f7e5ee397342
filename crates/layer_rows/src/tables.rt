//! Worked tables: what each call answers after a checkpoint, and after going back to it.
use extent_table::{Spot, Table};
use slot_codec::{Name, Roll};
use std::alloc::Global;
use std::process::Abort;

/// A place and a size, of an object that is there.
pub type Standing = Option<(u64, u64)>;

/// A name of one letter, where its object stands, and where it stood at the last checkpoint.
pub type Row = (u8, Standing, Standing);

const CHANGED: &[Row] = &[
    (b'a', Some((5, 10)), Some((0, 100))),
    (b'b', Some((20, 1)), None),
];

const KEPT: &[Row] = &[(b'a', Some((0, 100)), Some((0, 100))), (b'b', None, None)];

/// The names of one letter that are set first, and those that are set once these are gone.
const SMALL: &[u8] = b"abcdefghijklmnop";

const LARGE: &[u8] = b"ABCDEFGHIJKLMNOP";

/// The name of one letter.
fn name_of(letter: u8) -> Option<Name> {
    Name::new(&[letter])
}

/// Sets the object of a name of one letter, and answers its key; none where there is no room for it.
pub fn set(table: &mut Table, letter: u8, place: u64, size: u64) -> Option<u32> {
    if !table.room() || 1 << 48 <= place || 1 << 48 <= size {
        return None;
    }
    let name = name_of(letter)?;
    Some(table.set(&name, Spot { place, size }, [0; 32]))
}

/// Where the object of a name of one letter stands.
fn now(table: &Table, letter: u8) -> Standing {
    let spot = table.get(&name_of(letter)?)?;
    Some((spot.place, spot.size))
}

/// Where the object of a name of one letter stood at the last checkpoint.
fn before(table: &Table, letter: u8) -> Standing {
    let spot = table.old(&name_of(letter)?)?;
    Some((spot.place, spot.size))
}

/// Whether each object stands and stood so.
pub fn are_standing(table: &Table, rows: &[Row]) -> bool {
    for (letter, is, was) in rows {
        if now(table, *letter) != *is || before(table, *letter) != *was {
            return false;
        }
    }
    true
}

/// Whether so many names are live and kept, and their objects have so many bytes.
pub fn has_counts(table: &Table, counts: [u64; 2], volumes: [u64; 2]) -> bool {
    [table.count(), table.kept_count()] == counts
        && [table.volume(), table.kept_volume()] == volumes
}

/// A table with room for 16 names.
pub fn empty_table(rt: &impl Abort, alloc: Global) -> Table {
    Table::with_room(alloc, 16).expect(rt, "no memory")
}

/// A table in which `a` was kept and then moved, and `b` was set.
fn changed_table(rt: &impl Abort, alloc: Global) -> Table {
    let mut table = empty_table(rt, alloc);
    assert!(rt; is_changed(&mut table));
    table
}

/// Sets `a`, keeps it, moves it, which leaves it its key, and sets `b`; answers whether all is so.
fn is_changed(table: &mut Table) -> bool {
    let key = set(table, b'a', 0, 100);
    table.keep();
    let moved = set(table, b'a', 5, 10);
    key.is_some() && moved == key && set(table, b'b', 20, 1).is_some()
}

#[test]
fn a_checkpoint_is_kept(rt: HostRuntime) {
    let table = changed_table(&rt, rt.alloc());
    assert!(rt; are_standing(&table, CHANGED));
    assert!(rt; has_counts(&table, [2, 1], [11, 100]));
}

#[test]
fn back_takes_what_was_kept(rt: HostRuntime) {
    let mut table = changed_table(&rt, rt.alloc());
    table.back();
    assert!(rt; are_standing(&table, KEPT));
    assert!(rt; has_counts(&table, [1, 1], [100, 100]));
}

/// A place and a size for each letter.
fn standing_of(letter: u8) -> Standing {
    Some((1000 * u64::from(letter), u64::from(letter)))
}

/// Whether each name finds room, and is set.
fn are_set(table: &mut Table, letters: &[u8]) -> bool {
    for letter in letters {
        let size = u64::from(*letter);
        if set(table, *letter, 1000 * size, size).is_none() {
            return false;
        }
    }
    true
}

/// Whether each name stands where it was set, and is taken out.
fn are_taken(table: &mut Table, letters: &[u8]) -> bool {
    for letter in letters {
        if take(table, *letter) != standing_of(*letter) {
            return false;
        }
    }
    true
}

/// Whether each name stands where it was set.
fn are_there(table: &Table, letters: &[u8]) -> bool {
    for letter in letters {
        if now(table, *letter) != standing_of(*letter) {
            return false;
        }
    }
    true
}

/// Takes the name of one letter out, and answers where its object stood.
pub fn take(table: &mut Table, letter: u8) -> Standing {
    let spot = table.remove(&name_of(letter)?)?;
    Some((spot.place, spot.size))
}

/// A full table, all of whose names were kept, taken out, and followed by as many others.
fn twice_filled_table(rt: &impl Abort, alloc: Global) -> Table {
    let mut table = empty_table(rt, alloc);
    fill(rt, &mut table, SMALL);
    table.keep();
    assert!(rt; are_taken(&mut table, SMALL));
    fill(rt, &mut table, LARGE);
    table
}

/// Sets names until there is no room.
fn fill(rt: &impl Abort, table: &mut Table, letters: &[u8]) {
    assert!(rt; are_set(table, letters) && !table.room());
}

#[test]
fn as_many_names_are_kept_as_may_be_live(rt: HostRuntime) {
    let mut table = twice_filled_table(&rt, rt.alloc());
    table.back();
    assert!(rt; !table.room());
    assert!(rt; are_there(&table, SMALL));
}

/// The size in a record of a list, if it has one of this rank.
fn size_of_record<R: Roll>(roll: &R, n: u64) -> Option<u64> {
    if n < roll.count() {
        Some(roll.nth(n).size)
    } else {
        None
    }
}

/// A table of three names that were set in another order than theirs, and kept.
fn table_of_three(rt: &impl Abort, alloc: Global) -> Table {
    let mut table = empty_table(rt, alloc);
    assert!(rt; are_set(&mut table, b"cab"));
    table.keep();
    table
}

/// Whether the object of rank 1 by name is that of `b` and was kept; moves it to place 7.
fn has_moved_second(table: &mut Table) -> bool {
    if table.count() <= 1 {
        return false;
    }
    let (key, name, spot) = table.in_order(1);
    let is_kept = table.kept_spot(key) == Some(spot);
    table.relocate(key, 7);
    is_kept
        && name.as_bytes() == b"b".as_slice()
        && Some((spot.place, spot.size)) == standing_of(b'b')
}

#[test]
fn records_stand_by_name(rt: HostRuntime) {
    let mut table = table_of_three(&rt, rt.alloc());
    assert!(rt; has_moved_second(&mut table));
    assert!(rt; size_of_record(&table, 1) == Some(98));
    assert!(rt; size_of_record(&table, 3) == None);
}

/// Whether the keys of the live names rise as the names do.
fn do_keys_rise(table: &Table) -> bool {
    for n in 1..table.count() {
        if table.in_order(n).0 <= table.in_order(n - 1).0 {
            return false;
        }
    }
    true
}

#[test]
fn keys_rise_with_the_names_once_entries_are_laid_out(rt: HostRuntime) {
    let mut table = empty_table(&rt, rt.alloc());
    assert!(rt; are_set(&mut table, b"ponmlkjihgfedcba") && !do_keys_rise(&table));
    table.keep_sorted();
    assert!(rt; do_keys_rise(&table) && are_there(&table, SMALL));
}
