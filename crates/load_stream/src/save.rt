//! The save that ends a load.
ghost use Rattle.std.specs.Prelude.{◌≡◌, ◌≤◌, ◌+◌, ◌<◌, ◌^◌, ℕ, List, Ok, IsTrue, OnOk, length};
ghost use Rattle.std.specs.FinMap as fin;
ghost use Rattle.disk_face.specs.{Frames.{Asks, Calls}, Moments.{Leaves, Rests}, Writes.{KeepsDisk}};
ghost use Rattle.size_class.specs.Classes.{zero_grid};
ghost use Rattle.slot_codec.specs.{Choice.{slot_in_use}, Readable.{IsSuperBlock}};
ghost use Rattle.slot_pair.specs.{Formats.{block_for, first_in_use}, Saves.{save_calls, save_weight}};
ghost use Rattle.segment_layout.specs.Layouts.{caps_of, grid_of};
ghost use Rattle.extent_table.specs.Extents.{IsTable, rolled};
ghost use Rattle.load_stream.specs.Saved.{IsEmptyLike, IsEmptyOrLaid, IsLaidBeside, OpensLaid};

use crate::plan::Plan;
use disk_face::{Disk, DiskFault};
use extent_table::Table;
use flush_run::settled_header;
use slot_codec::SuperBlock;
use slot_pair::{Found, SlotPair};

/// Saves the table of the objects that were loaded as the second checkpoint of a file that was formatted,
/// in version 1. `buf` has at least 57,344 bytes.
pub(crate) fn save_loaded<D: Disk>(
    disk: &mut D,
    block: SuperBlock,
    plan: &Plan,
    table: &Table,
    buf: &mut [u8],
) -> Result<(), DiskFault>
    requires ready { IsTrue (D.state disk.old).is_ready }
    requires room { 57344 ≤ length buf.old }
    requires ranges { IsSuperBlock block }
    requires table { IsTable table.now }
    requires few { fin.len table.now.now ≤ block.names }
    requires grid { grid_of plan.now.layout ≡ zero_grid }
    requires first { IsTrue (D.state disk.old).tells
        → slot_in_use (D.state disk.old).file ≡ Ok (first_in_use block.k block.names) }
    ensures saved { IsTrue (D.state disk.old).tells
        → IsLaidBeside block.k block.names plan.now table.now (D.state disk.old).file
        → OnOk result (OpensLaid block.k block.names (caps_of plan.now.layout) table.now
        (D.state disk.old).file (D.state disk.new).file) }
    ensures rests { IsTrue (D.state disk.old).tells → OnOk result (Rests (D.state disk.new)) }
    ensures stopped { IsTrue (D.state disk.old).tells
        → IsLaidBeside block.k block.names plan.now table.now (D.state disk.old).file
        → IsEmptyOrLaid block.k block.names plan.now table.now (D.state disk.old).file
        (D.state disk.new).file }
    ensures images { IsTrue (D.state disk.old).tells
        → IsLaidBeside block.k block.names plan.now table.now (D.state disk.old).file
        → ((image : List ℕ) → (D.state disk.old).may_leave image
        → IsEmptyLike block.k block.names (D.state disk.old).file image)
        → Leaves (D.state disk.old) (D.state disk.new)
        (IsEmptyOrLaid block.k block.names plan.now table.now (D.state disk.old).file) }
    ensures calls { Calls (save_calls (length (rolled table.now.now table.now.digests)))
        (D.state disk.old) (D.state disk.new) result }
    ensures frame { KeepsDisk (D.state disk.old) (D.state disk.new) }
    ensures asks { Asks (save_weight 1 (fin.len table.now.now)) 0 (D.state disk.old) (D.state disk.new) }
{
    let header = settled_header(&plan.layout, 1);
    let mut pair = SlotPair::of(&Found {
        block,
        slot: 0,
        sequence: 1,
        other_open: false,
    });
    pair.save(disk, &header, table, buf)?;
    Ok(())
}
