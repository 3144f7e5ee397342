//! Why a call of a bay or of a stream failed.
ghost use Rattle.std.specs.Prelude.{◌≡◌};
ghost use Rattle.disk_file.specs.Words.{change_cause, error_word, kind_word, number_word, word_of};

use std::io::{Error, ErrorKind};

/// Why a call of a bay or of a stream failed.
#[derive(Clone, Copy, Debug)]
pub enum Cause {
    /// The system said so.
    System(Error),
    /// There was no room for what was to be written or for a length.
    NoRoom(NoRoom),
    /// The folder of a file that is made or empty couldn't be opened or synced, and so its name isn't safe.
    NoFolder(Error),
    /// The name of the file is empty.
    NoName,
    /// The name has more bytes than a system takes.
    LongName,
    /// A folder has the name.
    Folder,
    /// A device, a pipe or a socket has the name.
    Special,
    /// Somebody else holds the file.
    InUse,
    /// The file is also what a standard stream of this program reads or writes.
    OwnStream,
    /// The file ended before all was read.
    Ended,
    /// The system took none of the bytes that were to be written.
    NoneTaken,
    /// A sync failed before, and what it was to write may be lost.
    Lost,
    /// The name leads to the file no more: the file was removed or renamed, or another has its name.
    Gone,
}

/// What there was no room for: on the device, by what the user may take, or by how long a file may be.
#[derive(Clone, Copy, Debug)]
pub struct NoRoom {
    /// What the system said.
    pub error: Error,
    /// The length that the file was to get, or the end of what was to be written, in bytes from the file's
    /// first.
    pub asked: u64,
    /// The end of what the call had written before it failed, in bytes from the file's first. Of a length
    /// there is none, since the system doesn't say what it could have had.
    pub had: Option<u64>,
}

impl Cause {
    /// The word of a cause, which stays as it is for programs to act on:
    ///
    /// - `busy`: another process holds the file; it may be free later.
    /// - `no-right`: the user may not do this to the file, or not go through one of its folders.
    /// - `read-only`: the file system takes no changes.
    /// - `no-room`: the device or the user's share of it is full, or the file may not become so long.
    /// - `name`: no file can be had under the name, as a folder on the way to it is missing.
    /// - `not-a-file`: a folder, a device, a pipe or a socket is where a file is wanted.
    /// - `no-folder`: the folder of a new or empty file can't be opened or synced.
    /// - `own-output`: the file is what a standard stream of this program reads or writes.
    /// - `gone`: the name leads to the file no more.
    /// - `lost`: a sync failed before.
    /// - `ended`: the file is shorter than it was.
    /// - `closed`: a stream is closed, here or at its other end.
    /// - `too-many-files`: the process or the system has as many files open as it may.
    /// - `memory`: the system has too little memory.
    /// - `io`: the device failed, or the system said what none of these is.
    pub fn word(&self) -> &'static str
        ensures { result.now ≡ word_of self.now }
    {
        match self {
            Cause::System(error) => system_word(error),
            Cause::NoRoom(_) => "no-room",
            Cause::NoFolder(_) => "no-folder",
            Cause::NoName | Cause::LongName => "name",
            Cause::Folder | Cause::Special => "not-a-file",
            Cause::InUse => "busy",
            Cause::OwnStream => "own-output",
            Cause::Ended => "ended",
            Cause::NoneTaken => "io",
            Cause::Lost => "lost",
            Cause::Gone => "gone",
        }
    }
}

/// The word of what the system said.
fn system_word(error: &Error) -> &'static str
    ensures { result.now ≡ error_word error.now }
{
    match (error.kind(), error.raw_os_error()) {
        (ErrorKind::Uncategorized, Some(number)) => word_of_number(number.unsigned_abs()),
        (kind, _) => word_of_kind(kind),
    }
}

/// The word of an error by its number, where std has no kind for it.
fn word_of_number(number: u32) -> &'static str
    ensures { result.now ≡ number_word number }
{
    match number {
        9 => "closed",
        23 | 24 => "too-many-files",
        _ => "io",
    }
}

/// The word of an error by its kind.
fn word_of_kind(kind: ErrorKind) -> &'static str
    ensures { result.now ≡ kind_word kind }
{
    match kind {
        ErrorKind::PermissionDenied => "no-right",
        ErrorKind::ReadOnlyFilesystem => "read-only",
        ErrorKind::StorageFull | ErrorKind::QuotaExceeded | ErrorKind::FileTooLarge => "no-room",
        ErrorKind::NotFound
        | ErrorKind::NotADirectory
        | ErrorKind::AlreadyExists
        | ErrorKind::FilesystemLoop
        | ErrorKind::InvalidFilename => "name",
        ErrorKind::IsADirectory | ErrorKind::NotSeekable => "not-a-file",
        ErrorKind::WouldBlock | ErrorKind::ResourceBusy | ErrorKind::ExecutableFileBusy => "busy",
        ErrorKind::BrokenPipe => "closed",
        ErrorKind::OutOfMemory => "memory",
        _ => "io",
    }
}

/// The cause of an error of a change that was to end at `asked` and came up to `had`.
pub fn of_change(error: Error, asked: u64, had: Option<u64>) -> Cause
    ensures { result ≡ change_cause error asked had }
{
    match error.kind() {
        ErrorKind::StorageFull | ErrorKind::QuotaExceeded | ErrorKind::FileTooLarge => {
            Cause::NoRoom(NoRoom { error, asked, had })
        }
        _ => Cause::System(error),
    }
}
