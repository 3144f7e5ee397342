//! Loading a dump into a file that is empty.
ghost use Rattle.std.specs.Prelude.{◌≡◌, ◌+◌, ◌<◌, ◌++◌, ℕ, [], Err, IsTrue, OnOk, length, sum};
ghost use Rattle.disk_face.specs.{Frames.{Asks, Unchanged}, Moments.{Leaves, Only, Rests}, Writes.{KeepsDisk}};
ghost use Rattle.slot_codec.specs.Readable.{IsSuperBlock};
ghost use Rattle.slot_pair.specs.Formats.{block_for};
ghost use Rattle.segment_layout.specs.{Layouts.{caps_of, divisor_of}, Shapes.{end_of}};
ghost use Rattle.load_stream.specs.declared.fault.LoadFault.TheVariants as why;
ghost use Rattle.load_stream.specs.{Causes.{HasCauses}, Faults.{IsEarly, IsLineOrDevice}, Loaded.{AnswersLoad, AsksLoaded, LeavesLoad, LoadsWhole}, Saved.{IsEmptyOrRead, IsNoneOrRead, IsPlanFor, LeavesNew, ReadsBody, StopsBody}, Steps.{IsStart, passed}, Weights.{load_weight}};

use crate::LoadFault;
use crate::begin::{read_plan, start};
use crate::fill::fill_formatted;
use crate::plan::{Plan, SoFar};
use ask_lines::Ahead;
use disk_face::{Disk, Source};
use slot_codec::SuperBlock;
use slot_pair::SlotPair;
use std::alloc::Global;

/// Makes a store of a file of length 0 that has the map of a dump, with room for `names` names, 16 to
/// 65,536, and buffers that are a k-th of their payload segments, `k` from 2 to 64. The first line is read,
/// the memory is taken, the file is formatted and made as long as its layout; then each object is written
/// where it will stand, as it comes, and the table is saved. An input that is no dump is refused at its first
/// line, by `Line(0)`, or at the first object that can't stand there; with more objects than `names` it is
/// refused by `TooMany`. At a refusal past the format the file is a store of the empty map.
pub fn load<D: Disk, I: Source>(
    alloc: Global,
    disk: &mut D,
    k: u64,
    names: u64,
    input: &mut I,
) -> Result<(), LoadFault>
    requires ready { IsTrue (D.state disk.old).is_ready }
    requires ranges { IsSuperBlock (block_for k names) }
    requires empty { IsTrue (D.state disk.old).tells → length (D.state disk.old).file ≡ 0 }
    ensures answers { IsTrue (I.state input.old).tells → AnswersLoad names (I.state input.old).left result }
    ensures whole { OnOk result (LoadsWhole names
        (passed (I.state input.old).tells (I.state input.old).left (I.state input.new).left)
        (D.state disk.old) (D.state disk.new)) }
    ensures left { IsTrue (D.state disk.old).tells → LeavesLoad k names
        (passed (I.state input.old).tells (I.state input.old).left (I.state input.new).left)
        (D.state disk.old) (D.state disk.new) result }
    ensures early { IsEarly result → Unchanged (D.state disk.old) (D.state disk.new) }
    ensures causes { HasCauses (D.state disk.old) (D.state disk.new) (I.state input.old)
        (I.state input.new) result }
    ensures frame { KeepsDisk (D.state disk.old) (D.state disk.new) }
    ensures asks { IsTrue (I.state input.old).tells
        → AsksLoaded k names (I.state input.old).left (D.state disk.old) (D.state disk.new) result }
{
    let mut ahead = Ahead::new();
    let plan = read_plan(&mut ahead, input, k, names)?;
    let so_far = start(alloc, names)?;
    fill_new(
        disk,
        SuperBlock { k, names },
        &plan,
        so_far,
        &mut ahead,
        input,
    )
}

/// Formats a file of length 0 and fills it with the objects of a dump.
fn fill_new<D: Disk, I: Source>(
    disk: &mut D,
    block: SuperBlock,
    plan: &Plan,
    so_far: SoFar,
    ahead: &mut Ahead,
    input: &mut I,
) -> Result<(), LoadFault>
    requires ready { IsTrue (D.state disk.old).is_ready }
    requires ranges { IsSuperBlock block }
    requires plan { IsPlanFor block.k block.names plan.now }
    requires names { so_far.load.names ≡ block.names }
    requires start { IsStart so_far }
    requires empty { IsTrue (D.state disk.old).tells → length (D.state disk.old).file ≡ 0 }
    ensures file { IsTrue (D.state disk.old).tells → LeavesNew block.k block.names plan.now
        (passed (I.state input.old).tells (ahead.old ++ (I.state input.old).left)
        (ahead.new ++ (I.state input.new).left)) (D.state disk.new).file result }
    ensures past { IsTrue (D.state disk.old).tells → (D.state disk.old).turn + 10 < (D.state disk.new).turn
        → IsEmptyOrRead block.k block.names plan.now
        (passed (I.state input.old).tells (ahead.old ++ (I.state input.old).left)
        (ahead.new ++ (I.state input.new).left)) (D.state disk.new).file }
    ensures images { IsTrue (D.state disk.old).tells → Only [] (D.state disk.old).may_leave
        → Leaves (D.state disk.old) (D.state disk.new) (IsNoneOrRead block.k block.names plan.now
        (passed (I.state input.old).tells (ahead.old ++ (I.state input.old).left)
        (ahead.new ++ (I.state input.new).left))) }
    ensures rests { IsTrue (D.state disk.old).tells → OnOk result (Rests (D.state disk.new)) }
    ensures stops { IsTrue (I.state input.old).tells → (n : ℕ) → result ≡ Err (why.Line n)
        → StopsBody plan.now (ahead.old ++ (I.state input.old).left) n }
    ensures read { OnOk result (ReadsBody plan.now 11 (passed (I.state input.old).tells
        (ahead.old ++ (I.state input.old).left) (ahead.new ++ (I.state input.new).left))
        (D.state disk.old) (D.state disk.new)) }
    ensures only { IsLineOrDevice result }
    ensures causes { HasCauses (D.state disk.old) (D.state disk.new) (I.state input.old)
        (I.state input.new) result }
    ensures frame { KeepsDisk (D.state disk.old) (D.state disk.new) }
    ensures asks { Asks (load_weight plan.now.head.count (sum (caps_of plan.now.layout)))
        (plan.now.base + end_of (divisor_of plan.now.layout) (caps_of plan.now.layout))
        (D.state disk.old) (D.state disk.new) }
{
    match SlotPair::format(disk, block.k, block.names) {
        Ok(()) => fill_formatted(disk, block, plan, so_far, ahead, input),
        Err(_) => Err(LoadFault::Disk),
    }
}
