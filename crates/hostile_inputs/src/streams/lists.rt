//! A list of requests, as words draw it.
use crate::drawn::Drawn;
use std::alloc::{AllocError, Global};

/// Requests, one behind another, and where each begins.
#[derive(Drop)]
pub struct List {
    pub bytes: Vec<u8>,
    pub starts: Vec<usize>,
}

/// A list of 8 to 37 requests, or of up to 127 once in four times.
pub fn drawn_list(alloc: Global, words: &mut Drawn) -> Result<List, AllocError> {
    let mut list = List {
        bytes: Vec::new(alloc),
        starts: Vec::new(alloc),
    };
    let most = if words.below(4) == 0 { 120 } else { 30 };
    let count = 8 + words.below(most);
    for _ in 0..count {
        list.starts.push(list.bytes.len())?;
        add_request(&mut list.bytes, words)?;
    }
    Ok(list)
}

/// Adds a request. Half of them are puts.
fn add_request(bytes: &mut Vec<u8>, words: &mut Drawn) -> Result<(), AllocError> {
    match words.below(16) {
        0..=7 => add_put(bytes, words),
        8 | 9 => add_named(bytes, "del ", words),
        10 | 11 => add_named(bytes, "get ", words),
        12 => add_named(bytes, "old ", words),
        13 => bytes.extend_from_slice(b"keep\n"),
        14 => bytes.extend_from_slice(b"back\n"),
        _ => add_question(bytes, words.below(2)),
    }
}

/// Adds one of the two questions for all objects.
fn add_question(bytes: &mut Vec<u8>, which: u32) -> Result<(), AllocError> {
    if which == 0 {
        bytes.extend_from_slice(b"list\n")
    } else {
        bytes.extend_from_slice(b"stat\n")
    }
}

/// Adds a request that names an object.
fn add_named(bytes: &mut Vec<u8>, verb: &str, words: &mut Drawn) -> Result<(), AllocError> {
    bytes.extend_from_slice(verb.as_bytes())?;
    add_name(bytes, words)?;
    bytes.push(b'\n')?;
    Ok(())
}

/// Adds a put, with an object of fewer than 60 bytes, or of fewer than 600 once in eight times.
fn add_put(bytes: &mut Vec<u8>, words: &mut Drawn) -> Result<(), AllocError> {
    bytes.extend_from_slice(b"put ")?;
    add_name(bytes, words)?;
    let limit = if words.below(8) == 0 { 600 } else { 60 };
    let size = words.below(limit);
    let alloc = *bytes.allocator();
    let digits = format!(in alloc; " {size}\n")?;
    bytes.extend_from_slice(digits.as_bytes())?;
    let first = words.below(256);
    for n in 0..size {
        bytes.push((first.wrapping_add(n) % 256) as u8)?;
    }
    bytes.push(b'\n')?;
    Ok(())
}

/// Adds a name: a letter, but once in 32 times as many of them as a name may have, or one more; or as
/// many as the word of a request may have, or one more, which is no request.
fn add_name(bytes: &mut Vec<u8>, words: &mut Drawn) -> Result<(), AllocError> {
    let letter = b'a' + words.below(20) as u8;
    let length = match words.below(128) {
        0 => 63,
        1 => 64,
        2 => 255,
        3 => 256,
        _ => 1,
    };
    for _ in 0..length {
        bytes.push(letter)?;
    }
    Ok(())
}
