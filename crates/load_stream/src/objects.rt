//! Loading the objects of a dump, one after another.
ghost use Rattle.std.specs.Prelude.{◌≡◌, ◌+◌, ◌<◌, ◌≤◌, ◌++◌, Err, None, IsTrue, OnOk, ℕ, sum, vec_len};
ghost use Rattle.std.specs.FinMap as fin;
ghost use Rattle.disk_face.specs.{Frames.{Asks}, Writes.{WritesWithin}};
ghost use Rattle.size_class.specs.{Classes.{zero_row}, Rows.{cells_of}};
ghost use Rattle.segment_layout.specs.{Layouts.{caps_of, divisor_of}, Shapes.{end_of}};
ghost use Rattle.load_stream.specs.declared.fault.LoadFault.TheVariants as why;
ghost use Rattle.load_stream.specs.{Causes.{HasCauses}, Faults.{IsLineOrDevice}, Steps.{FitsFile, IsStart, KeepsRoom, LoadsTo, StopsIn, passed}, Weights.{objects_weight}};

use crate::LoadFault;
use crate::object::load_object;
use crate::plan::{Plan, SoFar};
use ask_lines::Ahead;
use disk_face::{Disk, Source};

/// Reads as many objects as the first line told, and writes each where it goes, as it comes.
pub(crate) fn load_objects<D: Disk, I: Source>(
    disk: &mut D,
    plan: &Plan,
    so_far: &mut SoFar,
    ahead: &mut Ahead,
    input: &mut I,
) -> Result<(), LoadFault>
    requires ready { IsTrue (D.state disk.old).is_ready }
    requires plan { FitsFile plan.now (D.state disk.old) }
    requires few { plan.now.head.count ≤ 65536 }
    requires room { plan.now.head.count ≤ so_far.old.load.names }
    requires start { IsStart so_far.old }
    ensures objects { OnOk result (LoadsTo plan.now so_far.new
        (passed (I.state input.old).tells (ahead.old ++ (I.state input.old).left)
        (ahead.new ++ (I.state input.new).left)) plan.now.head.count (D.state disk.old) (D.state disk.new)) }
    ensures keeps { OnOk result (KeepsRoom so_far.old so_far.new) }
    ensures stops { IsTrue (I.state input.old).tells → (n : ℕ) → result ≡ Err (why.Line n)
        → StopsIn (caps_of plan.now.layout) plan.now.head.count (ahead.old ++ (I.state input.old).left) n }
    ensures only { IsLineOrDevice result }
    ensures writes { WritesWithin plan.now.base (end_of (divisor_of plan.now.layout)
        (caps_of plan.now.layout)) (D.state disk.old) (D.state disk.new) }
    ensures asks { Asks (objects_weight plan.now.head.count (sum (caps_of plan.now.layout))) 0
        (D.state disk.old) (D.state disk.new) }
    ensures causes { HasCauses (D.state disk.old) (D.state disk.new) (I.state input.old)
        (I.state input.new) result }
{
    'objects: for n in 0..plan.head.count {
        let stood = load_object(disk, plan, so_far, ahead, input)?;
        if !stood {
            return Err(LoadFault::Line(n + 1));
        }
    }
    Ok(())
}
