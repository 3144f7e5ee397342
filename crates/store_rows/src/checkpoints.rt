//! A checkpoint as it stands in a file: saving it, and telling whether a file opens to it.
ghost use Rattle.std.specs.Prelude.{◌≡◌, ◌≤◌, IsTrue, length};
ghost use Rattle.slot_codec.specs.Reading.{all_in_range, is_version};

use disk_face::{Disk, length_of};
use disk_mem::MemDisk;
use extent_table::{Spot, Table, a_table_can_be_saved};
use plain_layout::open;
use size_class::{CLASSES, SIZE_MAX};
use slot_codec::{Header, Name, SuperBlock, cap};
use slot_pair::SlotPair;
use std::alloc::Global;
use std::process::Abort;

/// The divisor and the number of names of each file here.
pub const BLOCK: SuperBlock = SuperBlock { k: 9, names: 16 };

/// Where the data part begins in a file with room for 16 names.
pub const BASE: usize = 19_603;

/// An object of a checkpoint.
#[derive(Clone, Copy)]
pub struct Object {
    pub name: &'static str,
    /// Where it begins in the data part.
    pub place: u64,
    pub bytes: &'static [u8],
    /// Whether it stands in a buffer.
    pub is_buffered: bool,
}

/// A checkpoint of a file.
#[derive(Clone, Copy)]
pub struct Checkpoint {
    /// The header, with its sequence and its count.
    pub header: Header,
    /// By rising name.
    pub objects: &'static [Object],
}

/// Formats a file, and saves a checkpoint in it once, beside a data part of `data_len` bytes. A save gives
/// its own sequence, which is 2, and its own count.
pub fn save_on<D: Disk>(
    rt: &impl Abort,
    alloc: Global,
    disk: &mut D,
    data_len: u64,
    checkpoint: &Checkpoint,
)
    requires ready { IsTrue (D.state disk.old).is_ready }
    requires tells { IsTrue (D.state disk.old).tells }
    requires empty { length (D.state disk.old).file ≡ 0 }
    requires ranges { IsTrue (all_in_range checkpoint.now.header) }
    ensures ready { IsTrue (D.state disk.new).is_ready }
    ensures tells { IsTrue (D.state disk.new).tells }
{
    make_file(rt, disk, data_len);
    let table = write_all(rt, alloc, disk, checkpoint.objects);
    save_table(rt, alloc, disk, &checkpoint.header, &table);
}

/// Formats a file, and gives it a data part of so many bytes.
fn make_file<D: Disk>(rt: &impl Abort, disk: &mut D, data_len: u64)
    requires ready { IsTrue (D.state disk.old).is_ready }
    requires tells { IsTrue (D.state disk.old).tells }
    requires empty { length (D.state disk.old).file ≡ 0 }
    ensures ready { IsTrue (D.state disk.new).is_ready }
    ensures tells { IsTrue (D.state disk.new).tells }
{
    SlotPair::format(disk, BLOCK.k, BLOCK.names).expect(rt, "a format");
    assert!(rt; data_len <= 1 << 48);
    disk.set_len(BASE as u64 + data_len)
        .expect(rt, "a data part");
}

/// Writes objects, and answers the table in which they stand.
fn write_all<D: Disk>(rt: &impl Abort, alloc: Global, disk: &mut D, objects: &[Object]) -> Table
    requires ready { IsTrue (D.state disk.old).is_ready }
    requires tells { IsTrue (D.state disk.old).tells }
    ensures ready { IsTrue (D.state disk.new).is_ready }
    ensures tells { IsTrue (D.state disk.new).tells }
{
    let mut table = Table::with_room(alloc, BLOCK.names).expect(rt, "memory");
    'objects: for object in objects {
        write_on(rt, disk, object);
        add(rt, &mut table, object);
    }
    table
}

/// Writes an object.
fn write_on<D: Disk>(rt: &impl Abort, disk: &mut D, object: &Object)
    requires ready { IsTrue (D.state disk.old).is_ready }
    requires tells { IsTrue (D.state disk.old).tells }
    ensures ready { IsTrue (D.state disk.new).is_ready }
    ensures tells { IsTrue (D.state disk.new).tells }
{
    let (base, size) = (BASE as u64, object.bytes.len() as u64);
    let length = length_of(disk).expect(rt, "a length");
    assert!(rt; base <= length && object.place <= length - base);
    assert!(rt; size <= length - base - object.place);
    disk.write_at(base + object.place, object.bytes)
        .expect(rt, "an object");
}

/// Sets where an object stands.
fn add(rt: &impl Abort, table: &mut Table, object: &Object) {
    let name = Name::new(object.name.as_bytes()).expect(rt, "a name");
    let (place, size) = (object.place, object.bytes.len() as u64);
    assert!(rt; table.room() && place < 1 << 48 && size < 1 << 48);
    table.set(&name, Spot { place, size }, [0; 32]);
}

/// Whether files have tables of a version.
fn is_known(version: u8) -> bool
    ensures { IsTrue result → IsTrue (is_version version) }
{
    version == 1 || version == 2
}

/// Saves a table in a file that is a store.
fn save_table<D: Disk>(rt: &impl Abort, alloc: Global, disk: &mut D, header: &Header, table: &Table)
    requires ready { IsTrue (D.state disk.old).is_ready }
    requires tells { IsTrue (D.state disk.old).tells }
    requires ranges { IsTrue (all_in_range header.now) }
    ensures ready { IsTrue (D.state disk.new).is_ready }
    ensures tells { IsTrue (D.state disk.new).tells }
{
    let found = SlotPair::find(disk).expect(rt, "a store");
    let mut pair = SlotPair::of(&found);
    let mut buf = vec![in alloc; 0u8; 57_344].expect(rt, "memory");
    a_table_can_be_saved();
    assert!(rt; is_known(header.version));
    assert!(rt; table.count() <= cap(found.block.names, header.version));
    assert!(rt; pair.sequence() < 1 << 61);
    pair.save(disk, header, table, &mut buf)
        .expect(rt, "a save");
}

/// Whether a file opens to a checkpoint: to its places, its book, its sequence, and its objects' bytes. It
/// may be longer than the checkpoint's layout.
pub fn opens_to(rt: &impl Abort, alloc: Global, file: &[u8], checkpoint: &Checkpoint) -> bool {
    opens_as(rt, alloc, file, BLOCK.k, checkpoint)
}

/// The same for a file of another divisor.
pub fn opens_as(
    rt: &impl Abort,
    alloc: Global,
    file: &[u8],
    k: u64,
    checkpoint: &Checkpoint,
) -> bool {
    let mut disk = MemDisk::from_bytes(alloc, file).expect(rt, "memory");
    let Ok(opened) = open(alloc, &mut disk, CLASSES as u8, SIZE_MAX) else {
        return false;
    };
    opened.found.block == (SuperBlock { k, ..BLOCK })
        && opened.table.header == checkpoint.header
        && has_objects(&opened.table, file, checkpoint.objects)
}

/// Whether a table has these objects and no others, and a file their bytes.
fn has_objects(table: &plain_layout::Table, file: &[u8], objects: &[Object]) -> bool
    requires divisor { 1 ≤ table.now.k }
{
    if table.records.len() != objects.len() {
        return false;
    }
    'objects: for n in 0..objects.len() {
        let (record, object) = (&table.records[n], &objects[n]);
        let same_name = record.name.as_bytes() == object.name.as_bytes();
        let same_spot = record.place == object.place && record.size == object.bytes.len() as u64;
        if !same_name || !same_spot || table.is_buffered(n) != object.is_buffered {
            return false;
        }
        if !has_bytes(file, object) {
            return false;
        }
    }
    true
}

/// Whether a file has the bytes of an object where it stands.
pub fn has_bytes(file: &[u8], object: &Object) -> bool {
    if file.len() < BASE {
        return false;
    }
    let part = &file[BASE..];
    let (place, size) = (object.place as usize, object.bytes.len());
    if part.len() < place || part.len() - place < size {
        return false;
    }
    &part[place..place + size] == object.bytes
}
