//! One list of requests, given to the program and to the plain map.
use crate::drawn::Drawn;
use crate::streams::lists::{List, drawn_list};
use crate::streams::plain_map::{Object, PlainMap, bytes_of};
use crate::streams::spoils::spoil;
use disk_face::Disk;
use disk_mem::{Choice, MemDisk};
use plain_layout::open;
use row_vectors::Outcome;
use row_vectors::runs::{Ran, formatted, session};
use size_class::{CLASSES, SIZE_MAX};
use slot_codec::Record;
use std::alloc::{AllocError, Global};
use std::test::Fail;

/// Where the data part of a file with room for 16 names begins.
const HEAD: u64 = 19_603;

/// How a session ended; how many names and bytes the file holds then, as the plain map says; and whether
/// all that was put, all numbers and what a crash would leave of the file are as it says.
#[derive(Clone, Copy)]
pub struct Trial {
    pub outcome: Outcome,
    pub names: usize,
    pub bytes: u64,
    pub agrees: bool,
}

/// The trial of a number: its list in a session on a new file with k = 9 and room for 16 names.
pub fn tried(alloc: Global, number: u64) -> Result<Trial, Fail> {
    let mut words = Drawn::new(number);
    let list = spoilt_list(alloc, &mut words)?;
    let piece = 1 + words.below(300) as usize;
    let ran = session(alloc, formatted(alloc, "9")?, &list.bytes, piece)?;
    judged(alloc, &list.bytes, &ran)
}

/// A list, with none to two spoilt bytes.
fn spoilt_list(alloc: Global, words: &mut Drawn) -> Result<List, AllocError> {
    let mut list = drawn_list(alloc, words)?;
    let spoils = words.below(3);
    for _ in 0..spoils {
        spoil(&mut list, words)?;
    }
    Ok(list)
}

/// How a session with an input ended, beside what the plain map says.
fn judged(alloc: Global, input: &[u8], ran: &Ran<MemDisk>) -> Result<Trial, Fail> {
    let mut map = PlainMap::new(alloc);
    let is_whole = map.serve_all(input, &ran.put)?;
    let status = if is_whole { 0 } else { 2 };
    let is_answered = ran.put.as_slice() == map.replies.as_slice();
    let is_counted = are_numbers(&ran.outcome, status, map.done, map.kept_done);
    let is_held = holds(alloc, &ran.disk, &map.kept)?;
    Ok(Trial {
        outcome: ran.outcome,
        names: map.kept.len(),
        bytes: bytes_of(&map.kept),
        agrees: is_answered && is_counted && is_held,
    })
}

/// Whether a session ended with these numbers.
fn are_numbers(outcome: &Outcome, status: u8, done: u64, kept_done: u64) -> bool {
    outcome.status == status && outcome.done == done && outcome.kept_done == kept_done
}

/// Whether what a crash would leave of a disk now has these objects and no others, as the plain way of
/// opening a file finds them.
fn holds(alloc: Global, disk: &MemDisk, objects: &[Object<'_>]) -> Result<bool, Fail> {
    let left = disk.image(disk.turns(), Choice::Durable)?;
    let mut file = MemDisk::from_bytes(alloc, &left)?;
    let Ok(opened) = open(alloc, &mut file, CLASSES as u8, SIZE_MAX) else {
        return Ok(false);
    };
    let records = opened.table.records.as_slice();
    Ok(records.len() == objects.len() && are_records(records, objects, &left))
}

/// Whether records of a file have the names of these objects, in turn, and their bytes.
fn are_records(records: &[Record], objects: &[Object<'_>], file: &[u8]) -> bool {
    for (record, object) in records.iter().zip(objects.iter()) {
        let is_named = record.name.as_bytes() == object.name;
        if !is_named || bytes_of_record(file, record) != object.bytes {
            return false;
        }
    }
    true
}

/// The bytes of a record's object; none where it doesn't lie in the file.
fn bytes_of_record<'a>(file: &'a [u8], record: &Record) -> &'a [u8] {
    let from = HEAD.saturating_add(record.place) as usize;
    let to = from.saturating_add(record.size as usize);
    file.get(from..to).unwrap_or(&[])
}
