//! Why a command stops before it is done.
use reopen::OpenFault;

/// Why a command stops.
#[derive(Clone, Copy, Debug, PartialEq, Eq)]
pub enum StopReason {
    /// The words are no command.
    Words,
    /// There is no such file.
    NoFile,
    /// What the bytes of the file show first: no fault of the disk, and no want of memory.
    NotStore(OpenFault),
    /// A file that is to be made has this length, in bytes.
    Taken(u64),
    /// The store has no object of the name.
    Missing,
    /// The object of the name has another digest than the one that the store has for it.
    Damaged,
    Disk,
    Sink,
    /// There is too little memory for the table of the file, or for a session.
    NoMemory,
    /// The request of this number, from 1, is none. Of a dump the object of this number can't stand there, or
    /// its first line where it is 0.
    Line(u64),
    Source,
    /// As many requests were answered as one session may.
    Budget,
    /// There are this many names, more than there is room for: in a store, of a table whose records have
    /// digests, or in a dump.
    TooManyNames(u64),
    /// The sequence of the file leaves no save.
    Worn,
    /// An object under the name of a batch that is done is no batch.
    NoBatch,
    /// The change of this number, from 1, of a batch doesn't fit the map.
    Unfit(u64),
}
