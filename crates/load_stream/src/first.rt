//! The first line of a dump, and what it tells of the file.
ghost use Rattle.std.specs.Prelude.{◌≡◌, ◌∷◌, ◌++◌, ◌<◌, ◌≤◌, ◌^◌, [], None, Ok, IfOk, IfSome, IsTrue};
ghost use Rattle.disk_face.specs.Counts.{HasCause};
ghost use Rattle.size_class.specs.Classes.{zero_grid};
ghost use Rattle.slot_codec.specs.{Readable.{IsSuperBlock}, Spelling.{head_len}};
ghost use Rattle.slot_pair.specs.Formats.{block_for};
ghost use Rattle.segment_layout.specs.{Layouts.{caps_of, divisor_of, grid_of}, Shapes.{end_of}};
ghost use Rattle.dump_stream.specs.{Heads.{IsHead, head_line, volumes_of_head}, Loading.{BeginsNone}};

use crate::plan::Plan;
use arrayvec::ArrayVec;
use ask_lines::{Ahead, read_line};
use disk_face::{Source, SourceFault};
use dump_stream::{DumpHead, read_head};
use segment_layout::Layout;
use size_class::{CLASSES, Grid};
use slot_codec::head_len;

/// How many bytes of a first line are read at most, without its newline: each has fewer.
const LONGEST: usize = 512;

/// What the first line of a dump tells, and it is taken with its newline; none where no first line stands
/// in front.
pub(crate) fn first_line<I: Source>(
    ahead: &mut Ahead,
    input: &mut I,
) -> Result<Option<DumpHead<CLASSES>>, SourceFault>
    ensures head { IfOk result (λ found. IfSome found (λ head.
        IsHead CLASSES head.count (volumes_of_head head))) }
    ensures line { IsTrue (I.state input.old).tells → IfOk result (λ found. IfSome found (λ head.
        ahead.old ++ (I.state input.old).left
        ≡ head_line CLASSES head.count (volumes_of_head head)
        ++ 10 ∷ (ahead.new ++ (I.state input.new).left))) }
    ensures none { IsTrue (I.state input.old).tells → result ≡ Ok None
        → BeginsNone CLASSES (ahead.old ++ (I.state input.old).left) }
    ensures told { (I.state input.new).tells ≡ (I.state input.old).tells }
    ensures cause { HasCause (I.state input.old).faults (I.state input.new).faults result }
{
    let mut line = ArrayVec::new();
    let found = read_line(ahead, input, &mut line, LONGEST)?;
    if !found {
        return Ok(None);
    }
    match read_head(line.as_slice()) {
        Ok(head) => Ok(Some(head)),
        Err(_) => Ok(None),
    }
}

/// Where the objects of a dump go in a file with room for so many names, whose buffers are a k-th of
/// their payload segments.
pub(crate) fn plan_of(head: DumpHead<CLASSES>, k: u64, names: u64) -> Plan
    requires ranges { IsSuperBlock (block_for k names) }
    requires head { IsHead CLASSES head.count (volumes_of_head head) }
    ensures count { result.head.count ≡ head.count }
    ensures volumes { volumes_of_head result.head ≡ volumes_of_head head }
    ensures divisor { divisor_of result.layout ≡ k }
    ensures caps { caps_of result.layout ≡ volumes_of_head head }
    ensures grid { grid_of result.layout ≡ zero_grid }
    ensures base { result.base ≡ head_len names }
    ensures low { result.base < 2 ^ 62 }
    ensures end { end_of (divisor_of result.layout) (caps_of result.layout) < 2 ^ 47 }
{
    Plan {
        layout: Layout::of(k, head.volumes, Grid::zero()),
        base: head_len(names),
        head,
    }
}
