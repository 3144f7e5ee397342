//! Lines of text, gathered in a piece of memory on the stack.
ghost use Rattle.std.specs.Prelude.{◌≡◌, ◌+◌, ◌≤◌, ◌++◌, [], Err, IsTrue, OnErr, OnOk};
ghost use Rattle.arrayvec.specs.ArrayVec.{array_vec_len};
ghost use Rattle.disk_face.specs.{Counts.{HasCause}, Streams.{Puts}};
ghost use Rattle.command_face.specs.Lines.{numbered};
ghost use Rattle.file_commands.specs.Texts.{Gathers};

use arrayvec::ArrayVec;
use command_face::{StopReason, push, put_whole};
use disk_face::Sink;
use itoa::Buffer;

/// How many bytes are put at a time.
const PIECE: usize = 4096;

/// The longest line has 113 bytes: a word of 6 letters, a name of 63 bytes, two numbers of 20 digits,
/// three blanks and a newline.
const LONGEST: usize = 128;

/// Puts what was gathered, where it leaves no room for another line.
pub fn make_room<O: Sink>(piece: &mut ArrayVec<u8, 4096>, output: &mut O) -> Result<(), StopReason>
    ensures room { OnOk result (array_vec_len piece.new + 128 ≤ 4096) }
    ensures gathered { IsTrue (O.state output.old).tells → Gathers (O.state output.old).given piece.old.items
        (O.state output.new).given piece.new.items [] result }
    ensures only { OnErr result (result ≡ Err StopReason.Sink) }
    ensures told { (O.state output.new).tells ≡ (O.state output.old).tells }
    ensures cause { HasCause (O.state output.old).faults (O.state output.new).faults result }
{
    if piece.len() > PIECE - LONGEST {
        put_whole(output, piece.as_slice())?;
        piece.clear();
    }
    Ok(())
}

/// Puts what is left.
pub fn put_rest<O: Sink>(piece: &ArrayVec<u8, 4096>, output: &mut O) -> Result<(), StopReason>
    ensures put { IsTrue (O.state output.old).tells
        → Puts (O.state output.old).given (O.state output.new).given piece.now.items result }
    ensures only { OnErr result (result ≡ Err StopReason.Sink) }
    ensures told { (O.state output.new).tells ≡ (O.state output.old).tells }
    ensures cause { HasCause (O.state output.old).faults (O.state output.new).faults result }
{
    if piece.is_empty() {
        return Ok(());
    }
    put_whole(output, piece.as_slice())
}

/// Adds three numbers, each after a blank, at most 63 bytes.
pub fn push_three(piece: &mut ArrayVec<u8, 4096>, first: u64, second: u64, third: u64)
    requires room { array_vec_len piece.old + 63 ≤ 4096 }
    ensures digits { piece.new.items
        ≡ piece.old.items ++ numbered first ++ numbered second ++ numbered third }
    ensures short { array_vec_len piece.new ≤ array_vec_len piece.old + 63 }
{
    push_number(piece, first);
    push_number(piece, second);
    push_number(piece, third);
}

/// Adds a blank and a number's decimal digits, at most 21 bytes.
#[tactic(auto, unfolding(command_face::specs::Lines::numbered))]
pub fn push_number(piece: &mut ArrayVec<u8, 4096>, n: u64)
    requires room { array_vec_len piece.old + 21 ≤ 4096 }
    ensures digits { piece.new.items ≡ piece.old.items ++ numbered n }
    ensures short { array_vec_len piece.new ≤ array_vec_len piece.old + 21 }
{
    let mut digits = Buffer::new();
    push(piece, b" ");
    push(piece, digits.format(n).as_bytes());
}
