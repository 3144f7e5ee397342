//! Filling a file that was formatted with the objects of a dump.
ghost use Rattle.std.specs.Prelude.{◌≡◌, ◌⊎◌, ◌+◌, ◌^◌, ◌<◌, ◌≤◌, ◌++◌, ℕ, Err, IfErr, IsTrue, OnOk, sum};
ghost use Rattle.byte_ranges.specs.Ranges.{resized};
ghost use Rattle.disk_face.specs.{Frames.{AfterLength, Asks}, Moments.{Leaves, Rests}, Writes.{KeepsDisk, WritesWithin}};
ghost use Rattle.slot_codec.specs.Readable.{IsSuperBlock};
ghost use Rattle.slot_pair.specs.{Finding.{HasDiskCause}, Formats.{HasFirstTable}};
ghost use Rattle.segment_layout.specs.{Layouts.{caps_of, divisor_of}, Shapes.{end_of}};
ghost use Rattle.dump_stream.specs.Heads.{volumes_of_head};
ghost use Rattle.load_stream.specs.declared.fault.LoadFault.TheVariants as why;
ghost use Rattle.load_stream.specs.{Causes.{HasCauses}, Faults.{IsLineOrDevice}, Saved.{IsPlanFor, LeavesRead, OpensEmpty, OpensRead, ReadsBody, StopsBody}, Steps.{FitsFile, IsStart, KeepsRoom, LoadsAll, passed}, Weights.{fill_weight, objects_weight}};

use crate::LoadFault;
use crate::end::is_whole;
use crate::objects::load_objects;
use crate::plan::{Plan, SoFar};
use crate::save::save_loaded;
use ask_lines::Ahead;
use disk_face::{Disk, Source};
use slot_codec::SuperBlock;

/// Makes a file that was formatted as long as its layout, writes the objects of a dump into it as they
/// come, and saves their table.
pub(crate) fn fill_formatted<D: Disk, I: Source>(
    disk: &mut D,
    block: SuperBlock,
    plan: &Plan,
    so_far: SoFar,
    ahead: &mut Ahead,
    input: &mut I,
) -> Result<(), LoadFault>
    requires ready { IsTrue (D.state disk.old).is_ready }
    requires ranges { IsSuperBlock block }
    requires plan { IsPlanFor block.k block.names plan.now }
    requires names { so_far.load.names ≡ block.names }
    requires start { IsStart so_far }
    requires first { IsTrue (D.state disk.old).tells
        → HasFirstTable block.k block.names (D.state disk.old).file }
    requires rests { IsTrue (D.state disk.old).tells → Rests (D.state disk.old) }
    ensures file { IsTrue (D.state disk.old).tells → LeavesRead block.k block.names plan.now
        (passed (I.state input.old).tells (ahead.old ++ (I.state input.old).left)
        (ahead.new ++ (I.state input.new).left)) (D.state disk.new).file result }
    ensures images { IsTrue (D.state disk.old).tells → Leaves (D.state disk.old) (D.state disk.new)
        (λ image. OpensEmpty block.k block.names image ⊎ OpensRead block.k block.names plan.now
        (passed (I.state input.old).tells (ahead.old ++ (I.state input.old).left)
        (ahead.new ++ (I.state input.new).left)) image) }
    ensures rests { IsTrue (D.state disk.old).tells → OnOk result (Rests (D.state disk.new)) }
    ensures stops { IsTrue (I.state input.old).tells → (n : ℕ) → result ≡ Err (why.Line n)
        → StopsBody plan.now (ahead.old ++ (I.state input.old).left) n }
    ensures read { OnOk result (ReadsBody plan.now 1 (passed (I.state input.old).tells
        (ahead.old ++ (I.state input.old).left) (ahead.new ++ (I.state input.new).left))
        (D.state disk.old) (D.state disk.new)) }
    ensures only { IsLineOrDevice result }
    ensures causes { HasCauses (D.state disk.old) (D.state disk.new) (I.state input.old)
        (I.state input.new) result }
    ensures frame { KeepsDisk (D.state disk.old) (D.state disk.new) }
    ensures asks { Asks (fill_weight plan.now.head.count (sum (caps_of plan.now.layout)))
        (plan.now.base + end_of (divisor_of plan.now.layout) (caps_of plan.now.layout))
        (D.state disk.old) (D.state disk.new) }
{
    grow(disk, plan)?;
    let mut so_far = so_far;
    load_all(disk, plan, &mut so_far, ahead, input)?;
    let SoFar { load, mut buf, .. } = so_far;
    let table = load.into_table();
    match save_loaded(disk, block, plan, &table, &mut buf) {
        Ok(()) => Ok(()),
        Err(_) => Err(LoadFault::Disk),
    }
}

/// Makes the file as long as its layout.
fn grow<D: Disk>(disk: &mut D, plan: &Plan) -> Result<(), LoadFault>
    requires ready { IsTrue (D.state disk.old).is_ready }
    requires low { plan.now.base < 2 ^ 62 }
    ensures resized { IsTrue (D.state disk.old).tells → OnOk result ((D.state disk.new).file
        ≡ resized (D.state disk.old).file
        (plan.now.base + end_of (divisor_of plan.now.layout) (caps_of plan.now.layout))) }
    ensures either { IsTrue (D.state disk.old).tells → ((D.state disk.new).file ≡ (D.state disk.old).file)
        ⊎ ((D.state disk.new).file ≡ resized (D.state disk.old).file
        (plan.now.base + end_of (divisor_of plan.now.layout) (caps_of plan.now.layout))) }
    ensures frame { AfterLength
        (plan.now.base + end_of (divisor_of plan.now.layout) (caps_of plan.now.layout))
        (D.state disk.old) (D.state disk.new) }
    ensures only { IfErr result (λ fault. fault ≡ LoadFault.Disk) }
    ensures cause { HasDiskCause LoadFault.Disk (D.state disk.old).faults (D.state disk.new).faults result }
{
    match disk.set_len(plan.base + plan.layout.end()) {
        Ok(()) => Ok(()),
        Err(_) => Err(LoadFault::Disk),
    }
}

/// Reads all objects that the first line told and writes each where it goes, as it comes, and reads the
/// input to its end.
fn load_all<D: Disk, I: Source>(
    disk: &mut D,
    plan: &Plan,
    so_far: &mut SoFar,
    ahead: &mut Ahead,
    input: &mut I,
) -> Result<(), LoadFault>
    requires ready { IsTrue (D.state disk.old).is_ready }
    requires plan { FitsFile plan.now (D.state disk.old) }
    requires caps { caps_of plan.now.layout ≡ volumes_of_head plan.now.head }
    requires few { plan.now.head.count ≤ 65536 }
    requires room { plan.now.head.count ≤ so_far.old.load.names }
    requires start { IsStart so_far.old }
    ensures loaded { OnOk result (LoadsAll plan.now so_far.new
        (passed (I.state input.old).tells (ahead.old ++ (I.state input.old).left)
        (ahead.new ++ (I.state input.new).left)) (D.state disk.old) (D.state disk.new)) }
    ensures keeps { OnOk result (KeepsRoom so_far.old so_far.new) }
    ensures stops { IsTrue (I.state input.old).tells → (n : ℕ) → result ≡ Err (why.Line n)
        → StopsBody plan.now (ahead.old ++ (I.state input.old).left) n }
    ensures only { IsLineOrDevice result }
    ensures writes { WritesWithin plan.now.base (end_of (divisor_of plan.now.layout)
        (caps_of plan.now.layout)) (D.state disk.old) (D.state disk.new) }
    ensures asks { Asks (objects_weight plan.now.head.count (sum (caps_of plan.now.layout))) 0
        (D.state disk.old) (D.state disk.new) }
    ensures causes { HasCauses (D.state disk.old) (D.state disk.new) (I.state input.old)
        (I.state input.new) result }
{
    load_objects(disk, plan, so_far, ahead, input)?;
    let whole = is_whole(&so_far.filled, &plan.head.volumes, ahead, input).map_err(
        |_| LoadFault::Source,
    )?;
    if !whole {
        return Err(LoadFault::Line(plan.head.count + 1));
    }
    Ok(())
}
