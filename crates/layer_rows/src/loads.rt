//! A worked table that is loaded by rising names.
ghost use Rattle.std.specs.Prelude.{◌≡◌};
ghost use Rattle.std.specs.declared.cmp.Ordering.TheVariants.{Less};
ghost use Rattle.slot_codec.specs.Names.{name_cmp};
ghost use Rattle.extent_table.specs.Extents.{empty_extents};

use crate::tables::{Row, are_standing, has_counts};
use extent_table::{BulkLoad, Spot, Table};
use slot_codec::Name;
use std::alloc::Global;
use std::process::Abort;

const LOADED: &[Row] = &[(b'a', Some((9, 5)), None), (b'b', Some((2, 7)), None)];

/// Sets two names, the second of which stands before the first by place, and answers their keys.
fn push_two(load: &mut BulkLoad, a: &Name, b: &Name) -> (u32, u32)
    requires empty { load.old ≡ empty_extents 16 }
    requires rising { name_cmp a.now b.now ≡ Less }
{
    let behind = load.push(a, Spot { place: 9, size: 5 }, [0; 32]);
    let before = load.push(b, Spot { place: 2, size: 7 }, [0; 32]);
    (behind, before)
}

/// The table of `a` and `b`, and their keys.
fn loaded_table(rt: &impl Abort, alloc: Global) -> (Table, (u32, u32)) {
    let mut load = BulkLoad::with_room(alloc, 16).expect(rt, "no memory");
    let a = Name::new(b"a").expect(rt, "a name");
    let b = Name::new(b"b").expect(rt, "a name");
    let keys = push_two(&mut load, &a, &b);
    (load.into_table(), keys)
}

/// The key of a rank by place, if there is one.
fn key_at(table: &Table, n: u64) -> Option<u32> {
    if n < table.place_count() {
        Some(table.at_place(n).0)
    } else {
        None
    }
}

#[test]
fn names_of_a_load_stand_where_they_were_set(rt: HostRuntime) {
    let (table, _) = loaded_table(&rt, rt.alloc());
    assert!(rt; are_standing(&table, LOADED));
    assert!(rt; has_counts(&table, [2, 0], [12, 0]));
}

/// Whether these two keys stand by place, and no others.
fn are_by_place(table: &Table, first: u32, second: u32) -> bool {
    key_at(table, 0) == Some(first)
        && key_at(table, 1) == Some(second)
        && key_at(table, 2).is_none()
}

#[test]
fn names_of_a_load_are_in_order_of_place(rt: HostRuntime) {
    let (table, (behind, before)) = loaded_table(&rt, rt.alloc());
    assert!(rt; are_by_place(&table, before, behind));
}
