//! The items of an entry, each spelled at the front of a buffer.
ghost use Rattle.std.specs.Prelude.{◌≡◌, ◌+◌, ◌*◌, ◌^◌, ◌<◌, ◌≤◌, [], Some, length, option_map, slice_get, slice_index_or, take};
ghost use Rattle.slot_codec.specs.{Cells.{header_cells}, Changes.{change_len}, Entries.{entry_head_bytes, entry_len, entry_room}};
ghost use Rattle.slot_pair.specs.{Appends.{head_for}, Pieces.{bytes_among, cell_bytes, end_bytes, entry_items}};

use slot_codec::{
    ChangeKind, DIGEST_LEN, Delta, ENTRY_HEAD_LEN, EntryHead, HEADER_CELLS, Header, NAME_LEN,
    PAIR_LEN, RECORD_LEN, write_entry_head, write_pair,
};

/// How many items an entry has, where so many changes are counted.
pub(crate) fn item_count(changes: u64) -> u64
    requires { changes ≤ 2 ^ 32 }
    ensures { result ≡ 1058 + 3 * changes }
{
    HEADER_CELLS + 2 + 3 * changes
}

/// Spells item `n` of an entry, counted from 0, and answers how many bytes that are, at most 512.
pub(crate) fn put_item<T: Delta>(
    header: &Header,
    delta: &T,
    head: &EntryHead,
    n: u64,
    out: &mut [u8],
) -> usize
    requires head { head.now ≡ head_for header.now (T.changes delta.now) }
    requires few { length (T.changes delta.now) ≤ 2 ^ 32 }
    requires some { n < length (entry_items header.now (T.changes delta.now)) }
    requires room { 512 ≤ length out.old }
    ensures item { take result out.new ≡ slice_index_or (entry_items header.now (T.changes delta.now)) n [] }
    ensures short { result ≤ 512 }
{
    let changes = delta.changes();
    let first = 1 + HEADER_CELLS;
    if n == 0 {
        put_head(head, out)
    } else if n < first {
        put_cell(header, n - 1, out)
    } else if n < first + changes {
        put_change(delta, ChangeKind::Moved, n - first, out)
    } else if n < first + 2 * changes {
        put_change(delta, ChangeKind::Gone, n - first - changes, out)
    } else if n < first + 3 * changes {
        put_change(delta, ChangeKind::Put, n - first - 2 * changes, out)
    } else {
        put_end(head, out)
    }
}

/// Spells the head of an entry.
fn put_head(head: &EntryHead, out: &mut [u8]) -> usize
    requires { 512 ≤ length out.old }
    ensures text { take result out.new ≡ entry_head_bytes head.now }
    ensures short { result ≤ 512 }
{
    write_entry_head(head, &mut out[..ENTRY_HEAD_LEN]);
    ENTRY_HEAD_LEN
}

/// Spells a cell of a header, if it isn't 0.
fn put_cell(header: &Header, number: u64, out: &mut [u8]) -> usize
    requires number { number < header_cells }
    requires room { 512 ≤ length out.old }
    ensures text { take result out.new ≡ cell_bytes header.now number }
    ensures short { result ≤ 512 }
{
    let value = header.cell(number);
    if value == 0 {
        return 0;
    }
    write_pair((number, value), &mut out[..PAIR_LEN]);
    PAIR_LEN
}

/// Spells change `number`, counted from 0, if it is of a kind.
fn put_change<T: Delta>(delta: &T, kind: ChangeKind, number: u64, out: &mut [u8]) -> usize
    requires number { number < length (T.changes delta.now) }
    requires room { 512 ≤ length out.old }
    ensures text { option_map (bytes_among kind) (slice_get (T.changes delta.now) number)
        ≡ Some (take result out.new) }
    ensures short { result ≤ 512 }
{
    let len = len_of(kind);
    if len_of(delta.change_kind(number)) != len {
        return 0;
    }
    delta.write_change(number, &mut out[..len]);
    len
}

/// How many bytes a change of a kind has in an entry.
fn len_of(kind: ChangeKind) -> usize
    ensures len { result ≡ change_len kind }
    ensures short { result ≤ 112 }
{
    match kind {
        ChangeKind::Same => 0,
        ChangeKind::Moved => PAIR_LEN,
        ChangeKind::Gone => NAME_LEN,
        ChangeKind::Put => RECORD_LEN + DIGEST_LEN,
    }
}

/// Spells what stands behind the lists of an entry: the gap, and the next gate, which is closed.
fn put_end(head: &EntryHead, out: &mut [u8]) -> usize
    requires cells { head.now.cells ≤ header_cells }
    requires moved { head.now.moved ≤ 2 ^ 32 }
    requires gone { head.now.gone ≤ 2 ^ 32 }
    requires puts { head.now.puts ≤ 2 ^ 32 }
    requires room { 512 ≤ length out.old }
    ensures text { take result out.new ≡ end_bytes head.now }
    ensures short { result ≤ 512 }
{
    let len = (head.room() - head.len()) as usize + 1;
    out[..len].fill(0);
    len
}
