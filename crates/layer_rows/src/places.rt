//! Worked tables in order of place: which entries stand there, and in which order.
use crate::tables::{empty_table, set, take};
use extent_table::Table;

/// What is done with a table, or asked of it.
enum Step {
    /// The object of a name of one letter is set: its place and its size.
    Put(u8, u64, u64),
    /// The name of one letter is taken out.
    Take(u8),
    /// The object of a rank by place is moved to a place.
    Carry(u64, u64),
    Keep,
    /// Keeps, and lays the entries out in the order of names where many names are new.
    Sort,
    Back,
    /// The entries by place are these, each a place and a size, and no others.
    Stand(&'static [(u64, u64)]),
    /// So many entries stand before a place: the place and their number.
    Rank(u64, u64),
}

/// An empty object gets bytes, and another loses its own.
const ENTRIES: &[Step] = &[
    Step::Put(b'd', 5, 1),
    Step::Put(b'c', 2, 0),
    Step::Put(b'a', 9, 4),
    Step::Put(b'b', 5, 3),
    Step::Stand(&[(5, 3), (5, 1), (9, 4)]),
    Step::Rank(5, 0),
    Step::Rank(6, 2),
    Step::Rank(10, 3),
    Step::Keep,
    Step::Put(b'c', 2, 7),
    Step::Put(b'd', 5, 0),
    Step::Stand(&[(2, 7), (5, 3), (9, 4)]),
    Step::Take(b'b'),
    Step::Stand(&[(2, 7), (9, 4)]),
    Step::Back,
    Step::Stand(&[(5, 3), (5, 1), (9, 4)]),
];

const MOVES: &[Step] = &[
    Step::Put(b'a', 10, 1),
    Step::Put(b'b', 20, 2),
    Step::Put(b'c', 30, 3),
    Step::Put(b'd', 40, 4),
    Step::Carry(0, 15),
    Step::Stand(&[(15, 1), (20, 2), (30, 3), (40, 4)]),
    Step::Carry(0, 35),
    Step::Stand(&[(20, 2), (30, 3), (35, 1), (40, 4)]),
    Step::Carry(3, 20),
    Step::Stand(&[(20, 2), (20, 4), (30, 3), (35, 1)]),
    Step::Carry(3, 20),
    Step::Stand(&[(20, 1), (20, 2), (20, 4), (30, 3)]),
];

/// Entries that were laid out anew stand by place as before, and are changed, and go back.
const LAID_OUT: &[Step] = &[
    Step::Put(b'd', 5, 1),
    Step::Put(b'a', 9, 4),
    Step::Put(b'b', 5, 3),
    Step::Sort,
    Step::Stand(&[(5, 3), (5, 1), (9, 4)]),
    Step::Put(b'c', 2, 7),
    Step::Take(b'a'),
    Step::Carry(2, 1),
    Step::Stand(&[(1, 1), (2, 7), (5, 3)]),
    Step::Back,
    Step::Stand(&[(5, 3), (5, 1), (9, 4)]),
];

/// Moves the object of a rank by place, and says whether there is one.
fn carry(table: &mut Table, from: u64, place: u64) -> bool {
    if table.place_count() <= from || 1 << 48 <= place {
        return false;
    }
    let (key, _) = table.at_place(from);
    table.relocate(key, place);
    true
}

/// Whether the entry of a rank by place is this one.
fn is_at(table: &Table, n: u64, wanted: &(u64, u64)) -> bool {
    if table.place_count() <= n {
        return false;
    }
    let (_, spot) = table.at_place(n);
    (spot.place, spot.size) == *wanted
}

/// Whether the entries of a table by place are these spots and no others.
fn stand(table: &Table, spots: &[(u64, u64)]) -> bool {
    for n in 0..spots.len() {
        if !is_at(table, n as u64, &spots[n]) {
            return false;
        }
    }
    table.place_count() == spots.len() as u64
}

/// Whether a step can be done, or what it asks is so.
fn holds(table: &mut Table, step: &Step) -> bool {
    match step {
        Step::Put(letter, place, size) => set(table, *letter, *place, *size).is_some(),
        Step::Take(letter) => take(table, *letter).is_some(),
        Step::Carry(from, place) => carry(table, *from, *place),
        Step::Keep => {
            table.keep();
            true
        }
        Step::Sort => {
            table.keep_sorted();
            true
        }
        Step::Back => {
            table.back();
            true
        }
        Step::Stand(spots) => stand(table, spots),
        Step::Rank(place, rank) => table.place_rank(*place) == *rank,
    }
}

/// The number of the first step that doesn't hold, from 0 on.
fn first_fault(table: &mut Table, steps: &[Step]) -> Option<usize> {
    for n in 0..steps.len() {
        if !holds(table, &steps[n]) {
            return Some(n);
        }
    }
    None
}

#[test]
fn entries_stand_by_place(rt: HostRuntime) {
    let mut table = empty_table(&rt, rt.alloc());
    assert!(rt; first_fault(&mut table, ENTRIES) == None);
}

#[test]
fn a_move_changes_the_rank(rt: HostRuntime) {
    let mut table = empty_table(&rt, rt.alloc());
    assert!(rt; first_fault(&mut table, MOVES) == None);
}

#[test]
fn entries_that_were_laid_out_stand_by_place(rt: HostRuntime) {
    let mut table = empty_table(&rt, rt.alloc());
    assert!(rt; first_fault(&mut table, LAID_OUT) == None);
}
