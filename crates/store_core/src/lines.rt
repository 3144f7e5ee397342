//! The lines of a list, gathered into pieces for the sink.
ghost use Rattle.std.specs.Prelude.{◌≡◌, ◌+◌, ◌^◌, ◌<◌, ◌≤◌, ℕ, ◌++◌, [], Err, IfOk, IsTrue, OnOk, OnErr, codes, decimal, length, take};
ghost use Rattle.arrayvec.specs.ArrayVec.{array_vec_len};
ghost use Rattle.disk_face.specs.Streams.{Puts};
ghost use Rattle.extent_table.specs.Extents.{IsTable};
ghost use Rattle.slot_codec.specs.Names.{IsName};
ghost use Rattle.store_model.specs.Lines.{IsMoved, line_of, lines_of, listing_of};
ghost use Rattle.store_model.specs.Answers.{fitted};
ghost use Rattle.data_area.specs.Causes.{HasSinkCause};

use crate::Refusal;
use crate::copy::put_whole;
use arrayvec::ArrayVec;
use disk_face::Sink;
use extent_table::Table;
use itoa::Buffer;
use slot_codec::Name;

/// How many bytes are put at a time.
const PIECE: usize = 4096;

/// The longest line: a name of 63 bytes, a blank, a number of 20 digits, and a newline.
const LONGEST: usize = 85;

/// Puts a line for each live name, by rising name, in pieces. Where the sink fails, a front of the
/// lines was put.
pub(crate) fn put_lines<O: Sink>(table: &Table, sink: &mut O) -> Result<(), Refusal>
    requires { IsTable table.now }
    ensures put { IsTrue (O.state sink.old).tells → Puts (O.state sink.old).given (O.state sink.new).given
        (lines_of (listing_of table.now.now)) result }
    ensures only { OnErr result (result ≡ Err Refusal.Sink) }
    ensures cause { HasSinkCause Refusal.Sink (O.state sink.old) (O.state sink.new) result }
{
    let mut piece: ArrayVec<u8, 4096> = ArrayVec::new();
    'names: for n in 0..table.count() {
        let (_, name, spot) = table.in_order(n);
        make_room(&mut piece, sink)?;
        push_line(&mut piece, &name, spot.size);
    }
    put_rest(&piece, sink)
}

/// Copies the same lines to the front of `out`, one after another, where they fit.
pub(crate) fn copy_lines(table: &Table, out: &mut [u8]) -> Result<u64, Refusal>
    requires { IsTable table.now }
    ensures answer { result ≡ fitted (length (lines_of (listing_of table.now.now))) (length out.old) }
    ensures lines { IfOk result (λ n. take n out.new ≡ lines_of (listing_of table.now.now)) }
    ensures same_length { length out.new ≡ length out.old }
{
    let mut line: ArrayVec<u8, 4096> = ArrayVec::new();
    let mut end = 0;
    'names: for n in 0..table.count() {
        let (_, name, spot) = table.in_order(n);
        line.clear();
        push_line(&mut line, &name, spot.size);
        let begin = end;
        if line.len() > out.len() - begin {
            return Err(Refusal::Sink);
        }
        end = begin + line.len();
        out[begin..end].copy_from_slice(line.as_slice());
    }
    Ok(end as u64)
}

/// Puts what was gathered, where it leaves no room for another line.
fn make_room<O: Sink>(piece: &mut ArrayVec<u8, 4096>, sink: &mut O) -> Result<(), Refusal>
    ensures room { OnOk result (array_vec_len piece.new + 85 ≤ 4096) }
    ensures moved { IsTrue (O.state sink.old).tells → OnOk result (IsMoved (O.state sink.old).given
        piece.old.items (O.state sink.new).given piece.new.items) }
    ensures front { IsTrue (O.state sink.old).tells → OnErr result ((k : ℕ) × (k ≤ length piece.old.items)
        × ((O.state sink.new).given ≡ (O.state sink.old).given ++ take k piece.old.items)) }
    ensures only { OnErr result (result ≡ Err Refusal.Sink) }
    ensures cause { HasSinkCause Refusal.Sink (O.state sink.old) (O.state sink.new) result }
{
    if piece.len() > PIECE - LONGEST {
        put_whole(sink, piece.as_slice())?;
        piece.clear();
    }
    Ok(())
}

/// Puts what is left.
fn put_rest<O: Sink>(piece: &ArrayVec<u8, 4096>, sink: &mut O) -> Result<(), Refusal>
    ensures put { IsTrue (O.state sink.old).tells
        → Puts (O.state sink.old).given (O.state sink.new).given piece.now.items result }
    ensures only { OnErr result (result ≡ Err Refusal.Sink) }
    ensures cause { HasSinkCause Refusal.Sink (O.state sink.old) (O.state sink.new) result }
{
    if piece.is_empty() {
        return Ok(());
    }
    put_whole(sink, piece.as_slice())
}

/// Adds the line of a name and its object's size.
fn push_line(piece: &mut ArrayVec<u8, 4096>, name: &Name, size: u64)
    requires named { IsName name.now }
    requires room { array_vec_len piece.old + 85 ≤ 4096 }
    ensures { piece.new.items ≡ piece.old.items ++ line_of (name.now, size) }
{
    let mut digits = Buffer::new();
    let number = digits.format(size).as_bytes();
    push(piece, name.as_bytes());
    push(piece, b" ");
    push(piece, number);
    push(piece, b"\n");
}

/// Adds bytes.
fn push(piece: &mut ArrayVec<u8, 4096>, bytes: &[u8])
    requires { array_vec_len piece.old + length bytes.now ≤ 4096 }
    ensures { piece.new.items ≡ piece.old.items ++ bytes.now }
{
    piece.try_extend_from_slice(bytes).unwrap();
}
