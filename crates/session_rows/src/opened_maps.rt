//! The maps that a file may open to, by what the program puts of each.
use crate::answers::{MAP, got, try_ran, try_told};
use disk_face::Disk;
use disk_mem::MemDisk;
use row_vectors::Outcome;
use row_vectors::inputs::{DATA_A, DATA_B, DATA_C, MISSING};
use row_vectors::runs::session;
use std::alloc::Global;
use std::fmt::Debug;
use std::process::Abort;

/// A further session of four requests, which reads all and changes nothing.
const LOOK: &[u8] = b"list\nget a\nget b\nget c\n";

/// A map with its book.
#[derive(Clone, Copy)]
pub struct Map {
    /// What the further session puts.
    puts: &'static [&'static str],
    /// What `map` puts once the file was opened.
    map: &'static str,
}

/// No object.
pub const NONE: Map = Map {
    puts: &["list 0\n", MISSING, MISSING, MISSING],
    map: "",
};

/// `a` of 100 bytes.
pub const ONE: Map = Map {
    puts: &["list 1\na 100\n", DATA_A, MISSING, MISSING],
    map: "class 6 100 11 0\nobject a 0 100\n",
};

/// `a` of 100 bytes, `b` of 10 and `c` of 5.
pub const THREE: Map = Map {
    puts: &["list 3\na 100\nb 10\nc 5\n", DATA_A, DATA_B, DATA_C],
    map: "class 2 5 0 0\nclass 3 10 1 0\nclass 6 100 11 0\nobject a 16 100\nobject b 5 10\nobject c 0 5\n",
};

/// Opens a file by the further session: it has each object of the map with its bytes, and then its book. The
/// disk is given back.
pub fn try_map(
    rt: &impl Abort,
    alloc: Global,
    disk: MemDisk,
    map: &Map,
    row: &impl Debug,
) -> MemDisk {
    let ran = got(rt, session(alloc, disk, LOOK, 7));
    // All calls were those of the opening.
    let outcome = Outcome {
        status: 0,
        done: 4,
        kept_done: 0,
        kept_turn: ran.disk.turns(),
    };
    try_ran(rt, alloc, &ran, map.puts, outcome, row);
    try_told(rt, alloc, ran.disk, MAP, map.map, row)
}
