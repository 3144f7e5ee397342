//! The items of the parts of an entry, read in pieces and taken one after another.
ghost use Rattle.std.specs.Prelude.{◌≡◌, ◌≢◌, ℕ, ◌+◌, ◌*◌, ◌^◌, ◌<◌, ◌≤◌, List, IfOk, IfErr, OnOk, Ok, Err, IsTrue, length};
ghost use Rattle.std.specs.FinMap as fin;
ghost use Rattle.byte_ranges.specs.Ranges.{bytes_at};
ghost use Rattle.disk_face.specs.Frames.{Unchanged};
ghost use Rattle.slot_codec.specs.{Logs.{cell_step, gap_step, gone_step, move_step, put_step}, Reading.{all_in_range, read_record}, Rows.{Rows}};
ghost use Rattle.slot_pair.specs.Finding.{HasDiskCause, Refuses};
ghost use Rattle.extent_table.specs.Extents.{IsTable};
ghost use Rattle.reopen.specs.{Items.{AreRows, KeepsMaking, OnlyCells, Passing, Stands, Taken, given, item_len, item_step, items_len, read_part}, Logs.{KeepsLoad, rows_in}};

use disk_face::{Disk, read};
use extent_table::{BulkLoad, Spot};
use slot_codec::{
    CodecFault, DIGEST_LEN, Header, NAME_LEN, PAIR_LEN, RECORD_LEN, Record, read_cell, read_move,
    read_name, read_record,
};
use slot_pair::SlotFault;

/// How many items one read has at most.
const ITEMS_A_READ: u64 = 512;

/// The parts of an entry behind its head.
#[derive(Clone, Copy)]
pub(crate) enum Part {
    Cells,
    Moved,
    Gone,
    Puts,
    Gap,
}

/// Items of a part that stand one behind another: where the first begins, and how many they are.
#[derive(Clone, Copy)]
pub(crate) struct Items {
    pub part: Part,
    pub at: u64,
    pub count: u64,
}

/// How far a table in the making has come in an entry.
#[derive(Clone, Copy)]
pub(crate) struct Progress {
    /// The least number that the next cell may have.
    pub next: u64,
    /// Whether there are more names than a slot has room for. The first that found no room isn't in the
    /// table, and the records behind it may not be either.
    pub over: bool,
}

/// Reads the items of a part, up to 512 in one read, and takes them: a header and a table in the making, in a
/// slot for `cap` records, come to stand behind them.
pub(crate) fn take_part<D: Disk>(
    disk: &mut D,
    items: Items,
    cap: u64,
    progress: &mut Progress,
    header: &mut Header,
    load: &mut BulkLoad,
    buf: &mut [u8],
) -> Result<(), SlotFault>
    requires ready { IsTrue (D.state disk.old).is_ready }
    requires table { IsTable load.old }
    requires room { item_len items.part * 512 ≤ length buf.old }
    requires names { cap ≤ load.old.names }
    requires small { items.at + items_len items < 2 ^ 63 }
    requires within { IsTrue (D.state disk.old).tells
        → items.at + items_len items ≤ length (D.state disk.old).file }
    ensures taken { IsTrue (D.state disk.old).tells → (p : Passing)
        → Stands items.part cap p progress.old header.old load.old → OnOk result (Taken items.part cap
        (read_part items (D.state disk.old).file p) progress.new header.new load.new) }
    ensures refused { IsTrue (D.state disk.old).tells → (p : Passing)
        → Stands items.part cap p progress.old header.old load.old
        → IfErr result (Refuses (read_part items (D.state disk.old).file p)) }
    ensures rest { KeepsMaking cap header.old header.new load.old load.new }
    ensures cause { HasDiskCause SlotFault.Disk (D.state disk.old).faults (D.state disk.new).faults result }
    ensures frame { Unchanged (D.state disk.old) (D.state disk.new) }
{
    let len = item_len(items.part) as u64;
    let mut done = 0;
    'pieces: while done < items.count {
        let piece = Items {
            at: items.at + len * done,
            count: (items.count - done).min(ITEMS_A_READ),
            ..items
        };
        take_piece(disk, piece, cap, progress, header, load, buf)?;
        done += piece.count;
    }
    Ok(())
}

/// Reads items of a part in one read, and takes them.
fn take_piece<D: Disk>(
    disk: &mut D,
    items: Items,
    cap: u64,
    progress: &mut Progress,
    header: &mut Header,
    load: &mut BulkLoad,
    buf: &mut [u8],
) -> Result<(), SlotFault>
    requires ready { IsTrue (D.state disk.old).is_ready }
    requires table { IsTable load.old }
    requires few { items.count ≤ 512 }
    requires room { items_len items ≤ length buf.old }
    requires names { cap ≤ load.old.names }
    requires small { items.at + items_len items < 2 ^ 63 }
    requires within { IsTrue (D.state disk.old).tells
        → items.at + items_len items ≤ length (D.state disk.old).file }
    ensures taken { IsTrue (D.state disk.old).tells → (p : Passing)
        → Stands items.part cap p progress.old header.old load.old → OnOk result (Taken items.part cap
        (read_part items (D.state disk.old).file p) progress.new header.new load.new) }
    ensures refused { IsTrue (D.state disk.old).tells → (p : Passing)
        → Stands items.part cap p progress.old header.old load.old
        → IfErr result (Refuses (read_part items (D.state disk.old).file p)) }
    ensures rest { KeepsMaking cap header.old header.new load.old load.new }
    ensures cause { HasDiskCause SlotFault.Disk (D.state disk.old).faults (D.state disk.new).faults result }
    ensures calm { OnOk result ((D.state disk.new).faults ≡ (D.state disk.old).faults) }
    ensures frame { Unchanged (D.state disk.old) (D.state disk.new) }
{
    let text = &mut buf[..item_len(items.part) * items.count as usize];
    if read(disk, items.at, text).is_err() {
        return Err(SlotFault::Disk);
    }
    take_items(text, items, cap, progress, header, load)
}

/// Takes the items of a part that a text says which stands where they stand.
fn take_items(
    text: &[u8],
    items: Items,
    cap: u64,
    progress: &mut Progress,
    header: &mut Header,
    load: &mut BulkLoad,
) -> Result<(), SlotFault>
    requires long { length text.now ≡ items_len items }
    requires table { IsTable load.old }
    requires names { cap ≤ load.old.names }
    requires small { items.at + items_len items < 2 ^ 63 }
    ensures taken { (file : List ℕ) (p : Passing) → bytes_at file items.at (items_len items) ≡ text.now
        → Stands items.part cap p progress.old header.old load.old
        → OnOk result (Taken items.part cap (read_part items file p) progress.new header.new load.new) }
    ensures refused { (file : List ℕ) (p : Passing) → bytes_at file items.at (items_len items) ≡ text.now
        → Stands items.part cap p progress.old header.old load.old
        → IfErr result (Refuses (read_part items file p)) }
    ensures only { IfErr result (λ why. why ≢ SlotFault.Disk) }
    ensures rest { KeepsMaking cap header.old header.new load.old load.new }
{
    let len = item_len(items.part);
    'items: for i in 0..items.count {
        let from = len * i as usize;
        let item = item_at(text, from, len);
        if let Err(fault) = take_item(items.part, item, cap, progress, header, load) {
            return Err(SlotFault::Codec(fault, items.at + from as u64));
        }
    }
    Ok(())
}

/// The item of `len` bytes that stands at a position of a text.
fn item_at(text: &[u8], at: usize, len: usize) -> &[u8]
    requires { at + len ≤ length text.now }
    ensures { result.now ≡ bytes_at text.now at len }
{
    &text[at..at + len]
}

/// Takes an item of a part of an entry.
fn take_item(
    part: Part,
    item: &[u8],
    cap: u64,
    progress: &mut Progress,
    header: &mut Header,
    load: &mut BulkLoad,
) -> Result<(), CodecFault>
    requires len { length item.now ≡ item_len part }
    requires table { IsTable load.old }
    requires room { cap ≤ load.old.names }
    ensures taken { (p : Passing) → Stands part cap p progress.old header.old load.old → OnOk result
        (Taken part cap (item_step part p item.now) progress.new header.new load.new) }
    ensures refused { (p : Passing) → Stands part cap p progress.old header.old load.old
        → IfErr result (λ fault. item_step part p item.now ≡ Err fault) }
    ensures rest { KeepsMaking cap header.old header.new load.old load.new }
{
    match part {
        Part::Cells => take_cell(item, &mut progress.next, header),
        Part::Moved => take_move(item, load),
        Part::Gone => take_name(item, load),
        Part::Puts => take_record(item, cap, &mut progress.over, load),
        Part::Gap => take_gap(item),
    }
}

/// Gives a header the cell that 16 bytes say.
fn take_cell(item: &[u8], next: &mut u64, header: &mut Header) -> Result<(), CodecFault>
    requires len { length item.now ≡ 16 }
    ensures taken { OnOk result (cell_step (given next.old header.old) item.now
        ≡ Ok (given next.new header.new)) }
    ensures refused { IfErr result (λ fault. cell_step (given next.old header.old) item.now ≡ Err fault) }
    ensures cells { OnlyCells header.old header.new }
    ensures ranges { IsTrue (all_in_range header.old) → IsTrue (all_in_range header.new) }
{
    let (number, value) = read_cell(item, *next)?;
    header.set_cell(number, value);
    *next = number + 1;
    Ok(())
}

/// Moves the object that 16 bytes say.
fn take_move(item: &[u8], load: &mut BulkLoad) -> Result<(), CodecFault>
    requires len { length item.now ≡ 16 }
    requires table { IsTable load.old }
    ensures taken { OnOk result (move_step (rows_in load.old) item.now ≡ Ok (rows_in load.new)) }
    ensures refused { IfErr result (λ fault. move_step (rows_in load.old) item.now ≡ Err fault) }
    ensures rest { KeepsLoad load.old load.new }
    ensures table { IsTable load.new }
    ensures few { fin.len load.new.now ≡ fin.len load.old.now }
{
    let (rank, place) = read_move(item, load.count())?;
    load.relocate(rank, place);
    Ok(())
}

/// Takes out the name that 64 bytes say.
fn take_name(item: &[u8], load: &mut BulkLoad) -> Result<(), CodecFault>
    requires len { length item.now ≡ 64 }
    requires table { IsTable load.old }
    ensures taken { OnOk result (gone_step (rows_in load.old) item.now ≡ Ok (rows_in load.new)) }
    ensures refused { IfErr result (λ fault. gone_step (rows_in load.old) item.now ≡ Err fault) }
    ensures rest { KeepsLoad load.old load.new }
    ensures table { IsTable load.new }
    ensures few { fin.len load.new.now ≤ fin.len load.old.now }
{
    let name = read_name(item)?;
    if !load.has(&name) {
        return Err(CodecFault::Absent);
    }
    load.remove(&name);
    Ok(())
}

/// Sets the record that 112 bytes say, unless its name is one more than a slot has room for.
fn take_record(
    item: &[u8],
    cap: u64,
    over: &mut bool,
    load: &mut BulkLoad,
) -> Result<(), CodecFault>
    requires len { length item.now ≡ 112 }
    requires table { IsTable load.old }
    requires room { cap ≤ load.old.names }
    ensures taken { (rows : Rows) → AreRows cap over.old rows load.old → OnOk result ((after : Rows)
        × (put_step rows item.now ≡ Ok after) × AreRows cap over.new after load.new) }
    ensures refused { (rows : Rows) → IfErr result (λ fault. put_step rows item.now ≡ Err fault) }
    ensures rest { KeepsLoad load.old load.new }
    ensures table { IsTable load.new }
    ensures few { fin.len load.old.now ≤ cap → fin.len load.new.now ≤ cap }
{
    let record = record_in(item)?;
    if !load.has(&record.name) && cap <= load.count() {
        *over = true;
        return Ok(());
    }
    let spot = Spot {
        place: record.place,
        size: record.size,
    };
    load.set(&record.name, spot, record.digest);
    Ok(())
}

/// The record that 112 bytes say.
#[tactic(auto, unfolding(slot_codec::specs::Spelling::record_len))]
fn record_in(item: &[u8]) -> Result<Record, CodecFault>
    requires { length item.now ≡ 112 }
    ensures value { result ≡ read_record 2 item.now }
    ensures ranges { IfOk result (λ r. (r.place < 2 ^ 48) × (r.size < 2 ^ 48)) }
    ensures digested { IfOk result (λ r. length r.digest ≡ 32) }
{
    read_record(item, 2)
}

/// Takes a byte of a gap, which must be 0.
fn take_gap(item: &[u8]) -> Result<(), CodecFault>
    requires len { length item.now ≡ 1 }
    ensures taken { OnOk result (gap_step tt item.now ≡ Ok tt) }
    ensures refused { IfErr result (λ fault. gap_step tt item.now ≡ Err fault) }
{
    if item[0] != 0 {
        return Err(CodecFault::Zeros);
    }
    Ok(())
}

/// How many bytes an item of a part has.
fn item_len(part: Part) -> usize
    ensures value { result ≡ item_len part }
    ensures low { 1 ≤ result }
    ensures high { result ≤ 112 }
{
    match part {
        Part::Cells | Part::Moved => PAIR_LEN,
        Part::Gone => NAME_LEN,
        Part::Puts => RECORD_LEN + DIGEST_LEN,
        Part::Gap => 1,
    }
}
