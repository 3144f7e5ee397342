//! Whether a moving table leaves the room that a flush needs to go on.
ghost use Rattle.std.specs.Prelude.{◌≡◌, ◌≤◌, ◌<◌, ◌+◌, ◌^◌, ◌*◌, ◌↔◌, ℕ, IsTrue, IsNone, IfSome, length, slice_index};
ghost use Rattle.size_class.specs.Classes.{width};
ghost use Rattle.slot_codec.specs.declared.codec.Kind.TheVariants.{Moving};
ghost use Rattle.extent_table.specs.Extents.{records_of};
ghost use Rattle.table_rules.specs.{Tables.{is_suffix, live, new_end, table_boundary}, Rules.{AllHold, RoomToResume, room_to_resume}, Breaks.{BreaksAt}};
ghost use Rattle.table_check.specs.Placed.{placed, ranked};

use crate::frame::Frame;
use crate::spots::{class_at, count, spot_at};
use extent_table::Table;

/// The place 0, where a moving table doesn't leave the room.
pub(crate) fn first_without_room(table: &Table, frame: &Frame) -> Option<u64>
    requires moving { frame.now.header.kind ≡ Moving }
    requires boundary { table_boundary (placed table.now frame.now) ≤ 32 }
    ensures none { IsNone result → AllHold room_to_resume (placed table.now frame.now) }
    ensures first { IfSome result (λ at. BreaksAt room_to_resume (placed table.now frame.now) at) }
{
    if has_room(table, frame) {
        None
    } else {
        Some(0)
    }
}

/// The layout with the suffix laid out anew ends at least the slack below the wall, and the slack is
/// at least the size of each suffix record.
fn has_room(table: &Table, frame: &Frame) -> bool
    requires boundary { table_boundary (placed table.now frame.now) ≤ 32 }
    ensures { IsTrue result ↔ RoomToResume (placed table.now frame.now) }
{
    new_end(table, frame) + u128::from(frame.header.slack) <= u128::from(frame.header.wall)
        && slack_suffices(table, frame)
}

/// Where the layout ends once the suffix is laid out anew.
fn new_end(table: &Table, frame: &Frame) -> u128
    requires boundary { table_boundary (placed table.now frame.now) ≤ 32 }
    ensures same { result ≡ new_end (placed table.now frame.now) }
    ensures small { result ≤ 2 ^ 80 }
{
    let volumes = volumes_of(table, frame);
    let mut end = u128::from(frame.start(frame.boundary()));
    'classes: for c in frame.boundary()..32u8 {
        let live = volumes[c as usize];
        end += u128::from(live) + u128::from(live / frame.k);
    }
    end
}

/// The bytes of the objects of each class.
fn volumes_of(table: &Table, frame: &Frame) -> [u64; 32]
    ensures { (c : ℕ) → c < width → slice_index result c ≡ live (placed table.now frame.now) c }
{
    let _classes = frame.classes;
    let mut volumes = [0; 32];
    'records: for rank in 0..count(table) {
        let s = spot_at(table, rank);
        if s.size > 0 {
            volumes[class_at(s.size) as usize] += s.size;
        }
    }
    volumes
}

/// Whether the slack is at least the size of each suffix record.
fn slack_suffices(table: &Table, frame: &Frame) -> bool
    ensures { IsTrue result ↔ ((i : ℕ) → i < length (records_of table.now.now)
        → IsTrue (is_suffix (placed table.now frame.now) (ranked table.now i))
        → (ranked table.now i).size ≤ frame.now.header.slack) }
{
    'records: for rank in 0..count(table) {
        let s = spot_at(table, rank);
        if frame.is_suffix(s.size) && frame.header.slack < s.size {
            return false;
        }
    }
    true
}
