//! Whether a file is also what a standard stream reads or writes. The system tells that, so it is trusted.
use crate::host::Use;
use std::fs::{self, Files, Metadata};
use std::os::unix::fs::MetadataExt;

/// The names of what the standard streams have open.
const INPUT: &str = "/proc/self/fd/0";

const OUTPUT: &str = "/proc/self/fd/1";

const ERRORS: &str = "/proc/self/fd/2";

/// The numbers of a file: one file alone has this number on this device.
#[derive(Clone, Copy, PartialEq, Eq)]
pub struct Node {
    device: u64,
    number: u64,
}

/// The numbers of the file of which a system told this.
pub fn node_of(metadata: &Metadata) -> Node {
    Node {
        device: metadata.dev(),
        number: metadata.ino(),
    }
}

/// Whether the file of a name is also what a standard stream of this program writes, or, for a use that
/// changes it, what one reads. A mount of such a file fails. A program asks before it puts anything to its
/// output: what it puts would be written over the store, or behind it. What the system can't tell is false,
/// and so it is of what is no file.
pub fn is_own_stream<R: Files>(rt: &R, name: &str, usage: Use) -> bool {
    match fs::metadata(rt, name) {
        Ok(file) => file.is_file() && has_stream(rt, node_of(&file), usage),
        Err(_) => false,
    }
}

/// Whether the file of a name is also what standard error writes. Then nothing is to be said there either.
pub fn is_own_errors<R: Files>(rt: &R, name: &str) -> bool {
    match fs::metadata(rt, name) {
        Ok(file) => file.is_file() && is_at(rt, ERRORS, node_of(&file)),
        Err(_) => false,
    }
}

/// Whether a standard stream has a file, of the streams that matter to a use of it.
pub fn has_stream<R: Files>(rt: &R, file: Node, usage: Use) -> bool {
    is_at(rt, OUTPUT, file)
        || is_at(rt, ERRORS, file)
        || usage == Use::Changing && is_at(rt, INPUT, file)
}

/// Whether a name leads to a file, as far as the system tells.
fn is_at<R: Files>(rt: &R, name: &str, file: Node) -> bool {
    match fs::metadata(rt, name) {
        Ok(named) => node_of(&named) == file,
        Err(_) => false,
    }
}
