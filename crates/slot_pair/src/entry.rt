//! Writing the text of an entry, in pieces.
ghost use Rattle.std.specs.Prelude.{◌≡◌, ◌+◌, ◌-◌, ◌*◌, ◌^◌, ◌<◌, ◌≤◌, OnOk, IsTrue, drop, length, take};
ghost use Rattle.byte_ranges.specs.Ranges.{bytes_at};
ghost use Rattle.disk_face.specs.{Frames.{Asks, Calls, call_weight}, Writes.{WritesWithin}};
ghost use Rattle.slot_codec.specs.Entries.{entry_room};
ghost use Rattle.slot_pair.specs.{Appends.{entry_for, entry_text, head_for, pieces_of}, Pieces.{entry_items, unwritten}};

use crate::items::{item_count, put_item};
use disk_face::{Disk, DiskFault};
use slot_codec::{Delta, EntryHead, Header};

/// How many bytes one write has at most.
const PIECE_LEN: usize = 57_344;

/// How far a text is spelled: how many of its items are, and how many bytes of these stand in front of the
/// buffer and aren't written yet.
#[derive(Clone, Copy)]
pub(crate) struct Spelled {
    pub items: u64,
    pub held: usize,
}

/// Writes the text of an entry behind the gate at a position in bytes of the file: the entry that says a
/// header and what changed, with this head, the gap behind it, and the closed gate of the next one. Each write
/// has 57,344 bytes, but for the last one. `buf` has at least 57,856 bytes: those of one write and the longest
/// item behind it.
pub(crate) fn write_entry<D: Disk, T: Delta>(
    disk: &mut D,
    at: u64,
    header: &Header,
    delta: &T,
    head: &EntryHead,
    buf: &mut [u8],
) -> Result<(), DiskFault>
    requires ready { IsTrue (D.state disk.old).is_ready }
    requires head { head.now ≡ head_for header.now (T.changes delta.now) }
    requires few { length (T.changes delta.now) ≤ 2 ^ 32 }
    requires room { 57856 ≤ length buf.old }
    requires fits { at + 1 + entry_room head.now < 2 ^ 63 }
    requires within { IsTrue (D.state disk.old).tells
        → at + 1 + entry_room head.now ≤ length (D.state disk.old).file }
    ensures text { IsTrue (D.state disk.old).tells
        → OnOk result (bytes_at (D.state disk.new).file (at + 1) (entry_room head.now)
        ≡ entry_text (entry_for header.now (T.changes delta.now))) }
    ensures writes { WritesWithin (at + 1) (entry_room head.now) (D.state disk.old) (D.state disk.new) }
    ensures calls { Calls (pieces_of (entry_room head.now)) (D.state disk.old) (D.state disk.new) result }
    ensures asks { Asks (call_weight * pieces_of (entry_room head.now) + entry_room head.now) 0
        (D.state disk.old) (D.state disk.new) }
{
    let pieces = (head.room() + PIECE_LEN as u64 - 1) / PIECE_LEN as u64;
    let mut spelled = Spelled { items: 0, held: 0 };
    'pieces: for piece in 0..pieces {
        spelled = spell_piece(header, delta, head, spelled, buf);
        let n = spelled.held.min(PIECE_LEN);
        disk.write_at(at + 1 + PIECE_LEN as u64 * piece, &buf[..n])?;
        spelled = without_front(spelled, n, buf);
    }
    Ok(())
}

/// Spells items until the buffer holds a piece or none is left.
fn spell_piece<T: Delta>(
    header: &Header,
    delta: &T,
    head: &EntryHead,
    begun: Spelled,
    buf: &mut [u8],
) -> Spelled
    requires head { head.now ≡ head_for header.now (T.changes delta.now) }
    requires few { length (T.changes delta.now) ≤ 2 ^ 32 }
    requires room { 57856 ≤ length buf.old }
    requires within { begun.held ≤ length buf.old }
    ensures text { unwritten result buf.new (entry_items header.now (T.changes delta.now))
        ≡ unwritten begun buf.old (entry_items header.now (T.changes delta.now)) }
    ensures all { result.held < 57344 → length (entry_items header.now (T.changes delta.now)) ≤ result.items }
    ensures within { result.held ≤ length buf.new }
{
    let mut spelled = begun;
    let count = item_count(delta.changes());
    'items: while spelled.items < count && spelled.held < PIECE_LEN {
        let len = put_item(header, delta, head, spelled.items, &mut buf[spelled.held..]);
        spelled.items += 1;
        spelled.held += len;
    }
    spelled
}

/// Takes so many bytes from the front of what a buffer holds.
fn without_front(spelled: Spelled, n: usize, buf: &mut [u8]) -> Spelled
    requires some { n ≤ spelled.held }
    requires within { spelled.held ≤ length buf.old }
    ensures same { result.items ≡ spelled.items }
    ensures held { result.held ≡ spelled.held - n }
    ensures text { take result.held buf.new ≡ drop n (take spelled.held buf.old) }
{
    buf.copy_within(n..spelled.held, 0);
    Spelled {
        items: spelled.items,
        held: spelled.held - n,
    }
}
