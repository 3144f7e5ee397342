//! The command `map`: the segments of the file, and where its objects stand.
ghost use Rattle.std.specs.Prelude.{◌≡◌, ◌≢◌, ◌+◌, ◌^◌, ◌<◌, ◌≤◌, ◌++◌, None, Err, IfErr, IsTrue, OnErr, flat_map, sum};
ghost use Rattle.arrayvec.specs.ArrayVec.{array_vec_len};
ghost use Rattle.byte_ranges.specs.Lists.{below};
ghost use Rattle.disk_face.specs.{Counts.{HasCause}, Frames.{Unchanged}, Streams.{Puts}};
ghost use Rattle.size_class.specs.Classes.{width};
ghost use Rattle.slot_codec.specs.{Names.{IsName}, Reading.{all_in_range}};
ghost use Rattle.table_check.specs.Frames.{AreSmall};
ghost use Rattle.extent_table.specs.Extents.{IsTable, record_of, records_of};
ghost use Rattle.reopen.specs.Loads.{KeepsRead, table_seen, unboxed};
ghost use Rattle.command_face.specs.Layers.{Answers, HasCausesAt, IsCommandReason, PutsNone};
ghost use Rattle.file_commands.specs.Texts.{Gathers, IsMapped, class_line, map_text, moving_line, object_line};

use crate::lines::{make_room, push_number, push_three, put_rest};
use crate::load::load;
use arrayvec::ArrayVec;
use command_face::{StopReason, push};
use disk_face::{Disk, Sink};
use extent_table::{Spot, Table};
use reopen::BoxedLoaded;
use size_class::CLASSES;
use slot_codec::{Header, Kind, Name};
use std::alloc::Global;

/// Puts a line for a flush that was interrupted, one for each class that has a segment, and one for
/// each object, by rising name. The disk stays as it is. The mark of the file says whether its slots have
/// logs; then the lines are those of the table behind the log of the slot in use.
pub fn map<D: Disk, O: Sink>(alloc: Global, disk: &mut D, output: &mut O) -> Result<(), StopReason>
    requires ready { IsTrue (D.state disk.old).is_ready }
    ensures words { (result ≢ Err StopReason.Words) × (result ≢ Err StopReason.NoFile) }
    ensures answers { IsTrue (D.state disk.old).tells
        → Answers (IsMapped (D.state disk.old).file) (O.state output.old) (O.state output.new) result }
    ensures plain { IfErr result IsCommandReason }
    ensures nothing_put { PutsNone output.old output.new result }
    ensures causes { HasCausesAt (D.state disk.old) (D.state disk.new) (O.state output.old)
        (O.state output.new) result }
    ensures frame { Unchanged (D.state disk.old) (D.state disk.new) }
{
    let loaded = load(alloc, disk)?;
    put_map(&loaded, output)
}

/// Puts the lines of a table.
fn put_map<O: Sink>(loaded: &BoxedLoaded<CLASSES>, output: &mut O) -> Result<(), StopReason>
    requires loaded { KeepsRead (unboxed loaded.now) }
    ensures put { IsTrue (O.state output.old).tells
        → Puts (O.state output.old).given (O.state output.new).given
        (map_text (table_seen (unboxed loaded.now) None)) result }
    ensures only { OnErr result (result ≡ Err StopReason.Sink) }
    ensures told { (O.state output.new).tells ≡ (O.state output.old).tells }
    ensures cause { HasCause (O.state output.old).faults (O.state output.new).faults result }
{
    let mut piece = ArrayVec::new();
    let header = &*loaded.header;
    push_moving(&mut piece, header);
    put_classes(&mut piece, loaded.block.k, header, output)?;
    put_objects(&mut piece, &loaded.table, output)?;
    put_rest(&piece, output)
}

/// Adds the line of a flush that was interrupted.
fn push_moving(piece: &mut ArrayVec<u8, 4096>, header: &Header)
    requires room { array_vec_len piece.old + 128 ≤ 4096 }
    ensures { piece.new.items ≡ piece.old.items ++ moving_line header.now header.now.kind }
{
    match header.kind {
        Kind::Settled => {}
        Kind::Moving => {
            push(piece, b"moving");
            push_three(piece, u64::from(header.boundary), header.wall, header.slack);
            push(piece, b"\n");
        }
    }
}

/// Gathers the lines of the classes.
fn put_classes<O: Sink>(
    piece: &mut ArrayVec<u8, 4096>,
    k: u64,
    header: &Header,
    output: &mut O,
) -> Result<(), StopReason>
    requires divisor { 1 ≤ k }
    requires ranges { IsTrue (all_in_range header.now) }
    ensures gathered { IsTrue (O.state output.old).tells → Gathers (O.state output.old).given piece.old.items
        (O.state output.new).given piece.new.items (flat_map (class_line k header.now) (below width)) result }
    ensures only { OnErr result (result ≡ Err StopReason.Sink) }
    ensures told { (O.state output.new).tells ≡ (O.state output.old).tells }
    ensures cause { HasCause (O.state output.old).faults (O.state output.new).faults result }
{
    'classes: for c in 0..32usize {
        make_room(piece, output)?;
        push_class(piece, k, header, c);
    }
    Ok(())
}

/// Adds the line of a class, if it has a segment.
fn push_class(piece: &mut ArrayVec<u8, 4096>, k: u64, header: &Header, c: usize)
    requires divisor { 1 ≤ k }
    requires ranges { IsTrue (all_in_range header.now) }
    requires class { c < width }
    requires room { array_vec_len piece.old + 128 ≤ 4096 }
    ensures { piece.new.items ≡ piece.old.items ++ class_line k header.now c }
{
    let cap = header.caps[c];
    if cap > 0 {
        push(piece, b"class");
        push_three(piece, c as u64, cap, cap / k);
        push_number(piece, taken(&header.used[c]));
        push(piece, b"\n");
    }
}

/// The sum of a row of small numbers.
fn taken(cells: &[u64; 32]) -> u64
    requires small { AreSmall cells.now }
    ensures { result ≡ sum cells.now }
{
    sum_of(cells)
}

/// The sum of a row.
fn sum_of(cells: &[u64; 32]) -> u64
    requires fits { sum cells.now < 2 ^ 64 }
    ensures { result ≡ sum cells.now }
{
    cells.iter().sum()
}

/// Gathers the lines of the objects.
fn put_objects<O: Sink>(
    piece: &mut ArrayVec<u8, 4096>,
    table: &Table,
    output: &mut O,
) -> Result<(), StopReason>
    requires { IsTable table.now }
    ensures gathered { IsTrue (O.state output.old).tells → Gathers (O.state output.old).given piece.old.items
        (O.state output.new).given piece.new.items (flat_map object_line (records_of table.now.now)) result }
    ensures only { OnErr result (result ≡ Err StopReason.Sink) }
    ensures told { (O.state output.new).tells ≡ (O.state output.old).tells }
    ensures cause { HasCause (O.state output.old).faults (O.state output.new).faults result }
{
    'names: for n in 0..table.count() {
        let (_, name, spot) = table.in_order(n);
        make_room(piece, output)?;
        push_object(piece, &name, spot);
    }
    Ok(())
}

/// Adds the line of an object.
fn push_object(piece: &mut ArrayVec<u8, 4096>, name: &Name, spot: Spot)
    requires named { IsName name.now }
    requires room { array_vec_len piece.old + 128 ≤ 4096 }
    ensures { piece.new.items ≡ piece.old.items ++ object_line (record_of (name.now, spot)) }
{
    push(piece, b"object ");
    push(piece, name.as_bytes());
    push_number(piece, spot.place);
    push_number(piece, spot.size);
    push(piece, b"\n");
}
