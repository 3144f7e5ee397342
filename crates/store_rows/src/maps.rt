//! The names of a file and their bytes, wherever they stand.
use crate::checkpoints::{Object, has_bytes};
use disk_mem::MemDisk;
use plain_layout::{Table, open};
use size_class::{CLASSES, SIZE_MAX};
use std::alloc::Global;
use std::process::Abort;

/// To which of two maps a file opens.
#[derive(Clone, Copy, PartialEq, Eq)]
pub enum Which {
    Before,
    After,
    Neither,
}

/// To which map a file opens, by names and bytes; the places of the objects don't count. A file that
/// doesn't open has neither.
pub fn opened_map(
    rt: &impl Abort,
    alloc: Global,
    file: &[u8],
    before: &[Object],
    after: &[Object],
) -> Which {
    let mut disk = MemDisk::from_bytes(alloc, file).expect(rt, "memory");
    match open(alloc, &mut disk, CLASSES as u8, SIZE_MAX) {
        Ok(opened) => map_of(&opened.table, file, before, after),
        Err(_) => Which::Neither,
    }
}

/// Which of two maps a table has.
fn map_of(table: &Table, file: &[u8], before: &[Object], after: &[Object]) -> Which {
    if has_map(table, file, before) {
        Which::Before
    } else if has_map(table, file, after) {
        Which::After
    } else {
        Which::Neither
    }
}

/// Whether a table has the names of these objects and no others, and a file their bytes.
fn has_map(table: &Table, file: &[u8], objects: &[Object]) -> bool {
    if table.records.len() != objects.len() {
        return false;
    }
    'objects: for n in 0..objects.len() {
        let (record, object) = (&table.records[n], &objects[n]);
        let same_name = record.name.as_bytes() == object.name.as_bytes();
        if !same_name || record.size != object.bytes.len() as u64 {
            return false;
        }
        let found = Object {
            place: record.place,
            ..*object
        };
        if !has_bytes(file, &found) {
            return false;
        }
    }
    true
}
