//! The records of a table by rank.
ghost use Rattle.std.specs.Prelude.{◌≡◌, ◌<◌, ◌≤◌, ◌^◌, length};
ghost use Rattle.size_class.specs.Classes.{class_of};
ghost use Rattle.extent_table.specs.{Extents.{IsTable, records_of}, Places.{by_place}};
ghost use Rattle.table_check.specs.{Nexts.{StandsAtRank}, Placed.{ranked}};

use extent_table::{Spot, Table};

/// How many records there are, at most 65,536.
pub(crate) fn count(table: &Table) -> u64
    ensures value { result ≡ length (records_of table.now.now) }
    ensures few { result ≤ 65536 }
    ensures table { IsTable table.now }
{
    table.count()
}

/// Where the object of a rank by name stands; behind the last one, no bytes at place 0.
pub(crate) fn spot_at(table: &Table, rank: u64) -> Spot
    ensures place { result.place ≡ (ranked table.now rank).place }
    ensures size { result.size ≡ (ranked table.now rank).size }
    ensures low { result.place < 2 ^ 48 }
    ensures small { result.size < 2 ^ 48 }
{
    if rank < count(table) {
        let (_, _, spot) = table.in_order(rank);
        spot
    } else {
        Spot { place: 0, size: 0 }
    }
}

/// Where the object of a rank by place stands, counted from 0 among those of at least 1 byte.
pub(crate) fn spot_by_place(table: &Table, rank: u64) -> Spot
    requires within { rank < length (by_place table.now.now) }
    ensures there { StandsAtRank table.now.now rank result }
    ensures low { result.place < 2 ^ 48 }
    ensures small { result.size < 2 ^ 48 }
{
    let _few = count(table);
    let (_, spot) = table.at_place(rank);
    spot
}

/// The class of a size: of no bytes 0, and the last one from 2^31 bytes on.
pub(crate) fn class_at(size: u64) -> u8
    ensures same { result ≡ class_of size }
    ensures small { result < 32 }
{
    if size == 0 {
        0
    } else if size <= 1 << 31 {
        size_class::class_of(size)
    } else {
        31
    }
}
