//! Works over new files, beside what a plain program in another language found of the same jobs.
ghost use Rattle.std.specs.Prelude.{◌≤◌};

use crate::requests::try_holds;
use disk_mem::PlainDisk;
use size_class::CLASSES;
use slot_pair::SlotPair;
use std::alloc::Global;
use std::process::Abort;
use store_core::Store;
use work_session::{Cost, Summary, do_work};

/// The summary of the work of a number over a new file with room for 16 names.
fn work_on_new(rt: &impl Abort, alloc: Global, k: u64, number: u64, count: u64) -> Summary
    requires low { 2 ≤ k }
    requires high { k ≤ 64 }
    requires least { 1 ≤ count }
    requires most { count ≤ 1000000 }
{
    let mut disk = PlainDisk::with_room(alloc, 1 << 20).expect(rt, "memory");
    SlotPair::format(&mut disk, k, 16).expect(rt, "a format");
    let mut store = Store::<CLASSES>::open(alloc, &mut disk).expect(rt, "a store");
    let names = store.names();
    do_work(alloc, &mut store, &mut disk, number, count, names).expect(rt, "a summary")
}

/// A divisor, the number of a work and its count of jobs, and what it comes to.
type Row = (u64, u64, u64, Summary);

/// Rows of works: what was asked, the counts of requests, ok, kept, read and refused, the names, bytes,
/// length and moved bytes, and the weights of moved and of asked bytes by each cost.
macro_rules! works {
    ($(($k:literal, $number:expr, $count:literal) => $requests:literal $ok:literal $kept:literal $read:literal
        $refused:literal, $names:literal $bytes:literal $length:literal $moved:literal,
        linear $linear:literal $linear_asked:literal, flat $flat:literal $flat_asked:literal,
        seek $seek:literal $seek_asked:literal;)*) => {
        &[$((
            $k,
            $number,
            $count,
            Summary {
                requests: $requests,
                ok: $ok,
                kept: $kept,
                read: $read,
                refused: $refused,
                names: $names,
                bytes: $bytes,
                length: $length,
                moved: $moved,
                linear: Cost { moved: $linear, asked: $linear_asked },
                flat: Cost { moved: $flat, asked: $flat_asked },
                seek: Cost { moved: $seek, asked: $seek_asked },
            },
        )),*]
    };
}

/// A short work, one that reads and replaces, and the work of the greatest number.
const ROWS: &[Row] = works! {
    (2, 1, 8) => 9 2 5 0 2, 6 19_854 23_929 28_585,
        linear 1_918_306_877_440 1_332_379_385_856, flat 612_171_776 582_483_968,
        seek 1_957_485_871_104 1_369_658_359_808;
    (2, 1, 24) => 25 12 9 2_492 3, 12 39_967 57_048 240_915,
        linear 16_167_531_970_560 5_347_569_827_840, flat 5_664_997_376 2_537_848_832,
        seek 16_530_091_802_624 5_509_992_153_088;
    (9, u64::MAX, 30) => 31 2 19 6_106 8, 8 45_730 50_811 610_800,
        linear 40_990_094_131_200 5_856_724_779_008, flat 10_992_697_344 2_008_219_648,
        seek 41_693_626_761_216 5_985_250_836_480;
};

/// Tries one work.
fn try_work(rt: &impl Abort, alloc: Global, row: &Row) {
    let (k, number, count, wanted) = *row;
    assert!(rt; 2 <= k && k <= 64 && 1 <= count && count <= 1_000_000);
    let found = work_on_new(rt, alloc, k, number, count);
    try_holds(rt, found == wanted, &(k, number, count));
}

#[test]
fn works_over_new_files(rt: HostRuntime) {
    for row in ROWS {
        try_work(&rt, rt.alloc(), row);
    }
}
