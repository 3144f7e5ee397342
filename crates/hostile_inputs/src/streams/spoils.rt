//! Cutting and spoiling a list of requests, as words draw it.
use crate::drawn::Drawn;
use crate::streams::lists::List;
use std::alloc::AllocError;

/// Bytes that a reader of requests may stumble over.
const STRANGE: [u8; 12] = [
    b' ', b'\n', b'\r', b'\t', b'0', b'1', b'9', b'-', b'+', b'A', 0, 0x7F,
];

/// Cuts a list at a drawn byte, or changes, drops or adds one there.
pub fn spoil(list: &mut List, words: &mut Drawn) -> Result<(), AllocError> {
    let at = place(list, words);
    match words.below(4) {
        0 => list.bytes.truncate(at),
        1 => {
            let byte = drawn_byte(words);
            if at < list.bytes.len() {
                list.bytes[at] = byte;
            }
        }
        2 => {
            if at < list.bytes.len() {
                list.bytes.remove(at);
            }
        }
        _ => {
            let byte = drawn_byte(words);
            if at <= list.bytes.len() {
                list.bytes.insert(at, byte)?;
            }
        }
    }
    Ok(())
}

/// A place in a list: any, or one of the first 12 bytes from where a request began, before anything was
/// spoilt.
fn place(list: &List, words: &mut Drawn) -> usize {
    let any = words.word() as usize;
    if words.below(2) == 0 {
        return any % list.bytes.len().max(1);
    }
    let start = list.starts.get(any % list.starts.len().max(1)).copied();
    let behind = words.below(12) as usize;
    start.unwrap_or(0).saturating_add(behind)
}

/// A byte that a reader may stumble over, or any.
fn drawn_byte(words: &mut Drawn) -> u8 {
    if words.below(2) == 0 {
        STRANGE[words.below(12) as usize]
    } else {
        words.below(256) as u8
    }
}
