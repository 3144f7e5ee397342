//! What a load knows of a dump once its first line was read, and what it has of its objects so far.
ghost use Rattle.std.specs.Prelude.{◌≡◌, ◌∷◌, ◌++◌, [], ◌<◌, ◌≤◌, ◌^◌, ℕ, List, Some, IfOk, Ok, length, vec_len};
ghost use Rattle.size_class.specs.{Classes.{zero_row}, Rows.{cells_of}};
ghost use Rattle.segment_layout.specs.Layouts.{caps_of, divisor_of};
ghost use Rattle.extent_table.specs.Extents.{IsTable, empty_extents};

use dump_stream::DumpHead;
use extent_table::BulkLoad;
use segment_layout::Layout;
use size_class::{CLASSES, Row};
use slot_codec::{Name, NoMemory};
use std::alloc::Global;

/// How many bytes of an object are written at once, at most.
pub(crate) const PIECE: usize = 65_536;

/// What is known of a dump once its first line was read: what that tells, where its objects go, and
/// where the data part begins in the file.
#[derive(Drop)]
pub(crate) struct Plan {
    pub(crate) head: DumpHead<CLASSES>,
    pub(crate) layout: Layout<CLASSES>,
    pub(crate) base: u64,
}

/// What a load has of its objects so far: where they stand, how many bytes of each class they fill,
/// the name of the last, and the buffer that an object is written from.
#[derive(Drop)]
pub(crate) struct SoFar {
    pub(crate) load: BulkLoad,
    pub(crate) filled: Row<CLASSES>,
    pub(crate) last: Option<Name>,
    pub(crate) buf: Vec<u8>,
}
