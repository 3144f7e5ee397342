//! Loading one object.
ghost use Rattle.std.specs.Prelude.{◌≡◌, ◌∷◌, [], ◌+◌, ◌^◌, ◌<◌, ◌≤◌, ◌++◌, ℕ, List, Some, Ok, IsTrue, false, length, option_copied, true, vec_len};
ghost use Rattle.std.specs.FinMap as fin;
ghost use Rattle.std.specs.declared.cmp.Ordering.TheVariants.{Less};
ghost use Rattle.disk_face.specs.{Counts.{HasCause}, Frames.{Asks}, Writes.{WritesWithin}};
ghost use Rattle.size_class.specs.{Rows.{cells_of}, declared.TheConstants.{SIZE_MAX}};
ghost use Rattle.slot_codec.specs.{Choice.{rises}, Names.{IsName, name_cmp}};
ghost use Rattle.segment_layout.specs.{Books.{volumes_of_sizes}, Layouts.{caps_of, divisor_of}, Shapes.{end_of}};
ghost use Rattle.extent_table.specs.{declared.spot.Spot.{Spot}, Extents.{IsInRange, IsTable}};
ghost use Rattle.placement_model.specs.Orders.{IsUpTo};
ghost use Rattle.data_area.specs.Pieces.{HasMade, pieces};
ghost use Rattle.dump_stream.specs.Dumping.{AreSizes};
ghost use Rattle.load_stream.specs.{Causes.{HasCauses}, Faults.{IsDeviceFault}, Steps.{AsksForOne, FitsFile, HasRoomForOne, KeepsRoom, LoadsObject, NoneStands, WritesObject, passed}, Weights.{write_weight}};

use crate::LoadFault;
use crate::body::write_body;
use crate::next::{next_put, stand};
use crate::plan::{Plan, SoFar};
use ask_lines::Ahead;
use disk_face::{Disk, Source, SourceFault};
use dump_stream::add_size;
use extent_table::Spot;
use slot_codec::Name;

/// Reads `size` bytes of the input and a newline behind them, and writes the bytes from position `at` on
/// as they come; false where the input has no such bytes.
pub(crate) fn write_text<D: Disk, I: Source>(
    disk: &mut D,
    at: u64,
    size: u64,
    ahead: &mut Ahead,
    input: &mut I,
    buf: &mut [u8],
) -> Result<bool, LoadFault>
    requires ready { IsTrue (D.state disk.old).is_ready }
    requires some { 0 < length buf.old }
    requires range { at + size < 2 ^ 63 }
    requires within { IsTrue (D.state disk.old).tells → at + size ≤ length (D.state disk.old).file }
    ensures object { result ≡ Ok true → WritesObject (IsTrue (I.state input.old).tells) at size
        (ahead.old ++ (I.state input.old).left) (10 ∷ (ahead.new ++ (I.state input.new).left))
        (D.state disk.old) (D.state disk.new) }
    ensures none { IsTrue (I.state input.old).tells → result ≡ Ok false
        → (object behind : List ℕ) → length object ≡ size
        → ahead.old ++ (I.state input.old).left ≡ object ++ 10 ∷ behind → ⊥ }
    ensures device { IsDeviceFault result }
    ensures writes { WritesWithin at size (D.state disk.old) (D.state disk.new) }
    ensures made { result ≡ Ok true → HasMade (D.state disk.old).turn (D.state disk.new).turn
        (length buf.old) size size }
    ensures most { (D.state disk.new).turn ≤ (D.state disk.old).turn + pieces (length buf.old) size }
    ensures asks { Asks (write_weight (length buf.old) size) 0 (D.state disk.old) (D.state disk.new) }
    ensures causes { HasCauses (D.state disk.old) (D.state disk.new) (I.state input.old)
        (I.state input.new) result }
    ensures room { length buf.new ≡ length buf.old }
{
    let whole = write_body(disk, at, size, ahead, input, buf)?;
    if !whole {
        return Ok(false);
    }
    ends_line(ahead, input).map_err(|_| LoadFault::Source)
}

/// Takes the next byte, and whether it is a newline.
fn ends_line<I: Source>(ahead: &mut Ahead, input: &mut I) -> Result<bool, SourceFault>
    ensures taken { IsTrue (I.state input.old).tells → result ≡ Ok true
        → ahead.old ++ (I.state input.old).left ≡ 10 ∷ (ahead.new ++ (I.state input.new).left) }
    ensures none { IsTrue (I.state input.old).tells → result ≡ Ok false
        → (rest : List ℕ) → ahead.old ++ (I.state input.old).left ≡ 10 ∷ rest → ⊥ }
    ensures told { (I.state input.new).tells ≡ (I.state input.old).tells }
    ensures cause { HasCause (I.state input.old).faults (I.state input.new).faults result }
{
    let byte = ahead.next(input)?;
    match byte {
        Some(b'\n') => Ok(true),
        _ => Ok(false),
    }
}

/// Reads the next object and writes its bytes where it goes; false where no object that may stand there
/// stands in front of the input, and then bytes may have been written where nothing stands.
pub(crate) fn load_object<D: Disk, I: Source>(
    disk: &mut D,
    plan: &Plan,
    so_far: &mut SoFar,
    ahead: &mut Ahead,
    input: &mut I,
) -> Result<bool, LoadFault>
    requires ready { IsTrue (D.state disk.old).is_ready }
    requires plan { FitsFile plan.now (D.state disk.old) }
    requires so_far { HasRoomForOne so_far.old }
    ensures object { result ≡ Ok true → LoadsObject plan.now so_far.old so_far.new
        (passed (I.state input.old).tells (ahead.old ++ (I.state input.old).left)
        (ahead.new ++ (I.state input.new).left)) (D.state disk.old) (D.state disk.new) }
    ensures keeps { result ≡ Ok true → KeepsRoom so_far.old so_far.new }
    ensures none { IsTrue (I.state input.old).tells → result ≡ Ok false
        → NoneStands so_far.old.last (caps_of plan.now.layout) (cells_of so_far.old.filled)
        (ahead.old ++ (I.state input.old).left) }
    ensures device { IsDeviceFault result }
    ensures writes { WritesWithin plan.now.base (end_of (divisor_of plan.now.layout)
        (caps_of plan.now.layout)) (D.state disk.old) (D.state disk.new) }
    ensures asks { AsksForOne (caps_of plan.now.layout) (cells_of so_far.old.filled)
        (D.state disk.old) (D.state disk.new) }
    ensures causes { HasCauses (D.state disk.old) (D.state disk.new) (I.state input.old)
        (I.state input.new) result }
{
    let next = next_put(ahead, input).map_err(|_| LoadFault::Source)?;
    let Some((name, size)) = next else {
        return Ok(false);
    };
    let found = stand(
        &plan.layout,
        &so_far.filled,
        so_far.last.as_ref(),
        &name,
        size,
    );
    let Some(spot) = found else {
        return Ok(false);
    };
    let whole = write_text(
        disk,
        plan.base + spot.place,
        size,
        ahead,
        input,
        &mut so_far.buf,
    )?;
    if !whole {
        return Ok(false);
    }
    enter(so_far, name, spot);
    Ok(true)
}

/// Enters an object that was written, whose name comes behind all others.
fn enter(so_far: &mut SoFar, name: Name, spot: Spot)
    requires room { fin.len so_far.old.load.now < so_far.old.load.names }
    requires behind { (other : List ℕ) (there : Spot) → fin.get so_far.old.load.now other ≡ Some there
        → name_cmp other name ≡ Less }
    requires range { IsInRange spot }
    requires small { spot.size ≤ SIZE_MAX }
    ensures now { so_far.new.load.now ≡ fin.insert so_far.old.load.now name spot }
    ensures table { IsTable so_far.new.load }
    ensures names { so_far.new.load.names ≡ so_far.old.load.names }
    ensures last { so_far.new.last ≡ Some name }
    ensures fills { (sizes : List ℕ) → length sizes < 65536 → AreSizes SIZE_MAX sizes
        → cells_of so_far.old.filled ≡ volumes_of_sizes sizes
        → cells_of so_far.new.filled ≡ volumes_of_sizes (sizes ++ spot.size ∷ []) }
    ensures buf { so_far.new.buf ≡ so_far.old.buf }
{
    so_far.load.push(&name, spot, NO_DIGEST);
    add_size(&mut so_far.filled, spot.size);
    so_far.last = Some(name);
}

/// What a table holds as the digest of an object of version 1, which has none.
const NO_DIGEST: [u8; 32] = [0; 32];
