//! Whether a standard stream is a terminal. The system tells that, so it is trusted.
ghost use Rattle.std.specs.Prelude.{◌≡◌};

use std::fs::{self, Files};
use std::os::unix::fs::{FileTypeExt, MetadataExt};

/// A standard stream of the program.
#[derive(Clone, Copy, Debug, PartialEq, Eq)]
pub enum Stream {
    Input,
    Output,
    Errors,
}

/// Whether a standard stream is a terminal. What the system can't tell is false.
pub fn is_terminal<R: Files>(rt: &R, stream: Stream) -> bool {
    let name = match stream {
        Stream::Input => "/proc/self/fd/0",
        Stream::Output => "/proc/self/fd/1",
        Stream::Errors => "/proc/self/fd/2",
    };
    match fs::metadata(rt, name) {
        Ok(found) => found.file_type().is_char_device() && is_terminal_number(found.rdev()),
        Err(_) => false,
    }
}

/// Whether a device of this number is a terminal: its upper part is 4 or 5, those of consoles and serial
/// lines, or 136 to 143, those of windows and remote logins. Source: Linux, admin-guide/devices.txt, and
/// how its C library packs the upper part, bits 8 to 19 and from 32 on.
fn is_terminal_number(device: u64) -> bool {
    let upper = device >> 32 << 12 | device >> 8 & 0xfff;
    upper == 4 || upper == 5 || (136 <= upper && upper <= 143)
}
