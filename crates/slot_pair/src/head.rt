//! The head of the entry that says what changed.
ghost use Rattle.std.specs.Prelude.{◌≡◌, ◌+◌, ◌≤◌, length};
ghost use Rattle.slot_codec.specs.{Cells.{cells_of, header_cells}, Changes.{gone_of, moves_of, puts_of}};
ghost use Rattle.slot_pair.specs.Appends.{head_for};

use slot_codec::{ChangeKind, Delta, EntryHead, HEADER_CELLS, Header};

/// How many changes of each kind there are.
#[derive(Clone, Copy)]
struct ChangeCounts {
    moved: u64,
    gone: u64,
    puts: u64,
}

/// The head of the entry that says a header and what changed, as `append_entry` takes it. Its `room` tells
/// how many bytes the entry takes, with the gap behind it, before any is written.
pub fn entry_head<T: Delta>(header: &Header, delta: &T) -> EntryHead
    ensures head { result ≡ head_for header.now (T.changes delta.now) }
    ensures cells { result.cells ≤ header_cells }
    ensures few { result.moved + result.gone + result.puts ≤ length (T.changes delta.now) }
{
    let counts = change_counts(delta);
    EntryHead {
        kind: header.kind,
        boundary: header.boundary,
        cells: cell_count(header),
        moved: counts.moved,
        gone: counts.gone,
        puts: counts.puts,
        wall: header.wall,
        slack: header.slack,
    }
}

/// How many cells of a header aren't 0.
fn cell_count(header: &Header) -> u64
    ensures count { result ≡ length (cells_of header.now) }
    ensures few { result ≤ header_cells }
{
    let mut count = 0;
    'cells: for number in 0..HEADER_CELLS {
        if header.cell(number) != 0 {
            count += 1;
        }
    }
    count
}

/// How many objects were moved, names are gone and records were put.
fn change_counts<T: Delta>(delta: &T) -> ChangeCounts
    ensures moved { result.moved ≡ length (moves_of (T.changes delta.now)) }
    ensures gone { result.gone ≡ length (gone_of (T.changes delta.now)) }
    ensures puts { result.puts ≡ length (puts_of (T.changes delta.now)) }
    ensures few { result.moved + result.gone + result.puts ≤ length (T.changes delta.now) }
{
    let mut counts = ChangeCounts {
        moved: 0,
        gone: 0,
        puts: 0,
    };
    'changes: for number in 0..delta.changes() {
        match delta.change_kind(number) {
            ChangeKind::Same => {}
            ChangeKind::Moved => counts.moved += 1,
            ChangeKind::Gone => counts.gone += 1,
            ChangeKind::Put => counts.puts += 1,
        }
    }
    counts
}
