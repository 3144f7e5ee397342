//! The command `check`: one line about the file.
ghost use Rattle.std.specs.Prelude.{◌≡◌, ◌≢◌, ◌≤◌, None, Ok, Err, IfOk, IfErr, IsTrue, length};
ghost use Rattle.disk_face.specs.Frames.{Unchanged};
ghost use Rattle.reopen.specs.Loads.{KeepsRead, table_seen, unboxed};
ghost use Rattle.file_commands.specs.{Getting.{StopsAs}, Texts.{IsChecked, check_text, kind_text}};
ghost use Rattle.command_face.specs.Layers.{Answers, HasCausesAt, IsCommandReason, Looks, PutsNone};

use crate::lines::push_three;
use crate::load::load;
use arrayvec::ArrayVec;
use command_face::{StopReason, push, put_whole};
use disk_face::{Disk, Sink, length_of};
use reopen::BoxedLoaded;
use size_class::CLASSES;
use slot_codec::{Kind, head_len};
use std::alloc::Global;

/// Puts one line about the file: its numbers, and whether a flush of it was interrupted. The disk
/// stays as it is. The mark of the file says whether its slots have logs; then the numbers are those behind
/// the log of the slot in use.
pub fn check<D: Disk, O: Sink>(
    alloc: Global,
    disk: &mut D,
    output: &mut O,
) -> Result<(), StopReason>
    requires ready { IsTrue (D.state disk.old).is_ready }
    ensures words { (result ≢ Err StopReason.Words) × (result ≢ Err StopReason.NoFile) }
    ensures answers { IsTrue (D.state disk.old).tells
        → Answers (IsChecked (D.state disk.old).file) (O.state output.old) (O.state output.new) result }
    ensures nothing_put { PutsNone output.old output.new result }
    ensures causes { HasCausesAt (D.state disk.old) (D.state disk.new) (O.state output.old)
        (O.state output.new) result }
    ensures plain { IfErr result IsCommandReason }
    ensures frame { Unchanged (D.state disk.old) (D.state disk.new) }
{
    let line = store_line(alloc, disk)?;
    put_whole(output, line.as_slice())
}

/// The line about the file.
fn store_line<D: Disk>(alloc: Global, disk: &mut D) -> Result<ArrayVec<u8, 4096>, StopReason>
    requires ready { IsTrue (D.state disk.old).is_ready }
    ensures found { IsTrue (D.state disk.old).tells
        → IfOk result (λ line. IsChecked (D.state disk.old).file (Ok line.items)) }
    ensures stopped { IsTrue (D.state disk.old).tells
        → IfErr result (StopsAs (IsChecked (D.state disk.old).file)) }
    ensures looks { Looks (D.state disk.old) (D.state disk.new) result }
    ensures plain { IfErr result IsCommandReason }
{
    let loaded = load(alloc, disk)?;
    let Ok(length) = length_of(disk) else {
        return Err(StopReason::Disk);
    };
    Ok(line_of(&loaded, length))
}

/// The line about the file of a table, which has this length.
fn line_of(loaded: &BoxedLoaded<CLASSES>, length: u64) -> ArrayVec<u8, 4096>
    requires loaded { KeepsRead (unboxed loaded.now) }
    ensures { result.items ≡ check_text (table_seen (unboxed loaded.now) None) length }
{
    let data = length.saturating_sub(head_len(loaded.block.names));
    let count = loaded.table.count();
    let mut line = ArrayVec::new();
    push(&mut line, b"store");
    push_three(&mut line, loaded.block.k, loaded.block.names, count);
    push_three(
        &mut line,
        loaded.table.volume(),
        data,
        loaded.header.sequence,
    );
    push(&mut line, kind_text(loaded.header.kind));
    line
}

/// How the line ends.
fn kind_text<'a>(kind: Kind) -> &'a [u8]
    ensures text { result.now ≡ kind_text kind }
    ensures short { length result.now ≤ 8 }
{
    match kind {
        Kind::Settled => b" still\n",
        Kind::Moving => b" moving\n",
    }
}
