//! How a load begins: what the first line tells, and the memory that it takes.
ghost use Rattle.std.specs.Prelude.{◌≡◌, ◌∷◌, ◌++◌, ◌≤◌, ℕ, Err, IfErr, IfOk, IsTrue, vec_len};
ghost use Rattle.size_class.specs.declared.TheConstants.{CLASSES};
ghost use Rattle.slot_codec.specs.Readable.{IsSuperBlock};
ghost use Rattle.slot_pair.specs.Formats.{block_for};
ghost use Rattle.dump_stream.specs.{Heads.{IsHead, head_line, volumes_of_head}, Loading.{BeginsNone}};
ghost use Rattle.load_stream.specs.declared.fault.LoadFault.TheVariants as why;
ghost use Rattle.load_stream.specs.{Causes.{HasSourceCause}, Faults.{IsFirstFault}, Loaded.{TellsTooMany}, Saved.{IsPlanFor}, Steps.{IsStart}};

use crate::LoadFault;
use crate::first::{first_line, plan_of};
use crate::plan::{PIECE, Plan, SoFar};
use ask_lines::Ahead;
use disk_face::Source;
use extent_table::BulkLoad;
use size_class::Row;
use slot_codec::NoMemory;
use std::alloc::Global;

/// Reads the first line of a dump, and plans a file with room for so many names for it, whose buffers are
/// a k-th of their payload segments.
pub(crate) fn read_plan<I: Source>(
    ahead: &mut Ahead,
    input: &mut I,
    k: u64,
    names: u64,
) -> Result<Plan, LoadFault>
    requires ranges { IsSuperBlock (block_for k names) }
    ensures plan { IfOk result (λ plan. IsPlanFor k names plan) }
    ensures head { IfOk result (λ plan. IsHead CLASSES plan.head.count (volumes_of_head plan.head)) }
    ensures line { IsTrue (I.state input.old).tells → IfOk result (λ plan.
        ahead.old ++ (I.state input.old).left
        ≡ head_line CLASSES plan.head.count (volumes_of_head plan.head)
        ++ 10 ∷ (ahead.new ++ (I.state input.new).left)) }
    ensures none { IsTrue (I.state input.old).tells → (n : ℕ) → result ≡ Err (why.Line n)
        → BeginsNone CLASSES (ahead.old ++ (I.state input.old).left) }
    ensures many { IsTrue (I.state input.old).tells → (n : ℕ) → result ≡ Err (why.TooMany n)
        → TellsTooMany names (ahead.old ++ (I.state input.old).left) n }
    ensures only { IsFirstFault result }
    ensures cause { HasSourceCause LoadFault.Source (I.state input.old) (I.state input.new) result }
{
    let found = first_line(ahead, input).map_err(|_| LoadFault::Source)?;
    let Some(head) = found else {
        return Err(LoadFault::Line(0));
    };
    if names < head.count {
        return Err(LoadFault::TooMany(head.count));
    }
    Ok(plan_of(head, k, names))
}

/// Takes all memory of a load: a table with room for so many names, and a buffer.
pub(crate) fn start(alloc: Global, names: u64) -> Result<SoFar, LoadFault>
    requires few { names ≤ 65536 }
    ensures start { IfOk result IsStart }
    ensures names { IfOk result (λ so_far. so_far.load.names ≡ names) }
    ensures only { IfErr result (λ fault. fault ≡ LoadFault.NoMemory) }
{
    match with_room(alloc, names) {
        Ok(so_far) => Ok(so_far),
        Err(_) => Err(LoadFault::NoMemory),
    }
}

/// No objects yet, and room for so many.
fn with_room(alloc: Global, names: u64) -> Result<SoFar, NoMemory>
    requires few { names ≤ 65536 }
    ensures start { IfOk result IsStart }
    ensures names { IfOk result (λ so_far. so_far.load.names ≡ names) }
{
    let load = BulkLoad::with_room(alloc, names)?;
    let buf = piece_buffer(alloc)?;
    Ok(SoFar {
        load,
        filled: Row::zero(),
        last: None,
        buf,
    })
}

/// A buffer that objects are written from.
fn piece_buffer(alloc: Global) -> Result<Vec<u8>, NoMemory>
    ensures { IfOk result (λ buf. vec_len buf ≡ 65536) }
{
    match vec![in alloc; 0; PIECE] {
        Ok(buf) => Ok(buf),
        Err(_) => Err(NoMemory),
    }
}
