//! Worked tables with digests: what a table has of two names after acts, one after another.
ghost use Rattle.std.specs.Prelude.{◌≡◌};

use extent_table::{Spot, Table};
use slot_codec::{Name, Roll};
use std::alloc::Global;
use std::process::Abort;

/// What is done to a table. A digest has one byte 32 times.
enum Act {
    /// Sets the object of a name of one letter, with a digest.
    Set(u8, u8),
    /// Gives the object of a live name another digest.
    Renew(u8, u8),
    /// Takes a name out.
    Remove(u8),
    /// Moves the object of the first name.
    Move,
    Keep,
    /// Keeps, and lays the entries out in the order of names where many names are new.
    Sort,
    Back,
    /// Lets so many names be live.
    Narrow(u64),
}

use Act::{Back, Keep, Move, Narrow, Remove, Renew, Set, Sort};

/// Acts on an empty table with room for 16 names, and what it has then: the digests of `a` and `b`, now
/// and at the last checkpoint, and whether there is room for another name.
type Row = (&'static [Act], [Option<u8>; 2], [Option<u8>; 2], bool);

const ROWS: &[Row] = &[
    (&[], [None, None], [None, None], true),
    (&[Set(b'a', 7)], [Some(7), None], [None, None], true),
    (
        &[Set(b'b', 7), Set(b'a', 0)],
        [Some(0), Some(7)],
        [None, None],
        true,
    ),
    (
        &[Set(b'a', 7), Set(b'a', 8), Move],
        [Some(8), None],
        [None, None],
        true,
    ),
    (
        &[Set(b'a', 7), Keep, Set(b'a', 8)],
        [Some(8), None],
        [Some(7), None],
        true,
    ),
    (
        &[Set(b'a', 7), Keep, Set(b'a', 0)],
        [Some(0), None],
        [Some(7), None],
        true,
    ),
    (
        &[Set(b'a', 7), Keep, Renew(b'a', 9)],
        [Some(9), None],
        [Some(7), None],
        true,
    ),
    (
        &[Set(b'a', 7), Keep, Set(b'b', 8), Renew(b'a', 9), Back],
        [Some(7), None],
        [Some(7), None],
        true,
    ),
    (
        &[Set(b'a', 7), Keep, Remove(b'a')],
        [None, None],
        [Some(7), None],
        true,
    ),
    (
        &[Set(b'a', 7), Keep, Remove(b'a'), Back],
        [Some(7), None],
        [Some(7), None],
        true,
    ),
    (
        &[Set(b'a', 7), Keep, Remove(b'a'), Set(b'a', 5), Keep],
        [Some(5), None],
        [Some(5), None],
        true,
    ),
    (
        &[Set(b'b', 7), Set(b'a', 8), Sort],
        [Some(8), Some(7)],
        [Some(8), Some(7)],
        true,
    ),
    (
        &[Set(b'b', 7), Set(b'a', 8), Sort, Set(b'a', 0), Remove(b'b')],
        [Some(0), None],
        [Some(8), Some(7)],
        true,
    ),
    (
        &[Set(b'b', 7), Keep, Set(b'a', 0), Remove(b'b'), Sort, Back],
        [Some(0), None],
        [Some(0), None],
        true,
    ),
    (
        &[Set(b'a', 7), Remove(b'a'), Set(b'b', 0)],
        [None, Some(0)],
        [None, None],
        true,
    ),
    (
        &[Set(b'a', 7), Narrow(2)],
        [Some(7), None],
        [None, None],
        true,
    ),
    (
        &[Set(b'a', 7), Narrow(1)],
        [Some(7), None],
        [None, None],
        false,
    ),
    (
        &[Set(b'a', 7), Keep, Narrow(1), Remove(b'a'), Back],
        [Some(7), None],
        [Some(7), None],
        false,
    ),
    (
        &[Narrow(2), Set(b'a', 7), Keep, Set(b'b', 8), Back],
        [Some(7), None],
        [Some(7), None],
        true,
    ),
];

/// Sets the object of a name, if there is room for it.
fn set(table: &mut Table, name: &Name, byte: u8) -> bool
    ensures { table.new.names ≡ table.old.names }
{
    let has_room = table.room();
    if has_room || table.get(name).is_some() {
        table.set(name, Spot { place: 0, size: 1 }, [byte; 32]);
        return true;
    }
    false
}

/// Gives the object of a name another digest, if it is live.
fn renew(table: &mut Table, name: &Name, byte: u8) -> bool
    ensures { table.new.names ≡ table.old.names }
{
    if table.get(name).is_none() {
        return false;
    }
    table.renew(name, [byte; 32]);
    true
}

/// Moves the object of the first name, if there is one.
fn move_first(table: &mut Table) -> bool
    ensures { table.new.names ≡ table.old.names }
{
    if table.count() == 0 {
        return false;
    }
    let (key, _, _) = table.in_order(0);
    table.relocate(key, 9);
    true
}

/// Lets so many names be live, if no more are.
fn narrow(table: &mut Table, cap: u64) -> bool
    requires { table.old.names ≡ 16 }
    ensures { table.new.names ≡ table.old.names }
{
    if 16 < cap || cap < table.count() {
        return false;
    }
    table.narrow(cap);
    true
}

/// Does one act, and answers whether it may be done.
fn is_done(table: &mut Table, act: &Act) -> bool
    requires { table.old.names ≡ 16 }
    ensures { table.new.names ≡ table.old.names }
{
    match act {
        Set(letter, byte) => match Name::new(&[*letter]) {
            Some(name) => set(table, &name, *byte),
            None => false,
        },
        Renew(letter, byte) => match Name::new(&[*letter]) {
            Some(name) => renew(table, &name, *byte),
            None => false,
        },
        Remove(letter) => match Name::new(&[*letter]) {
            Some(name) => table.remove(&name).is_some(),
            None => false,
        },
        Move => move_first(table),
        Keep => {
            table.keep();
            true
        }
        Sort => {
            table.keep_sorted();
            true
        }
        Back => {
            table.back();
            true
        }
        Narrow(cap) => narrow(table, *cap),
    }
}

/// Does acts one after another, and answers whether all may be done.
fn are_done(table: &mut Table, acts: &[Act]) -> bool
    requires { table.old.names ≡ 16 }
{
    'acts: for act in acts {
        if !is_done(table, act) {
            return false;
        }
    }
    true
}

/// The byte of which a digest is made.
fn byte_of(digest: Option<[u8; 32]>) -> Option<u8> {
    let bytes = digest?;
    let byte = bytes[0];
    if bytes == [byte; 32] {
        Some(byte)
    } else {
        None
    }
}

/// The digests of `a` and `b` now.
fn now(table: &Table) -> Option<[Option<u8>; 2]> {
    let (a, b) = (Name::new(b"a")?, Name::new(b"b")?);
    Some([byte_of(table.digest(&a)), byte_of(table.digest(&b))])
}

/// The digests of `a` and `b` at the last checkpoint.
fn kept(table: &Table) -> Option<[Option<u8>; 2]> {
    let (a, b) = (Name::new(b"a")?, Name::new(b"b")?);
    Some([byte_of(table.old_digest(&a)), byte_of(table.old_digest(&b))])
}

/// Tries a row.
fn try_row(rt: &impl Abort, alloc: Global, row: &Row) {
    let mut table = Table::with_room(alloc, 16).expect(rt, "no memory");
    assert!(rt; are_done(&mut table, row.0));
    assert!(rt; now(&table) == Some(row.1) && kept(&table) == Some(row.2));
    assert!(rt; table.room() == row.3);
}

#[test]
fn digests_follow_each_change(rt: HostRuntime) {
    'rows: for row in ROWS {
        try_row(&rt, rt.alloc(), row);
    }
}

/// The digest in a record of a list, if it has one of this rank.
fn digest_of_record<R: Roll>(roll: &R, n: u64) -> Option<u8> {
    if n < roll.count() {
        byte_of(Some(roll.nth(n).digest))
    } else {
        None
    }
}

/// Acts on an empty table, that leave two names.
const TWO: &[Act] = &[Set(b'b', 0), Set(b'a', 7), Keep, Renew(b'b', 9)];

/// Whether the records of the two names have their digests.
fn has_records(table: &Table) -> bool {
    digest_of_record(table, 0) == Some(7) && digest_of_record(table, 1) == Some(9)
}

#[test]
fn records_have_the_digests_of_their_names(rt: HostRuntime) {
    let mut table = Table::with_room(rt.alloc(), 16).expect(&rt, "no memory");
    assert!(&rt; are_done(&mut table, TWO));
    assert!(&rt; has_records(&table));
}
