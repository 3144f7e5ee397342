//! What a store answers.
use thiserror::Error;

/// Why a request isn't served. Where several would apply, the first in this order comes.
#[derive(Clone, Copy, Debug, PartialEq, Eq, Error)]
pub enum Refusal {
    /// A changing call of this store failed. From then on only opening the file leads on.
    #[error("the store is broken")]
    Broken,
    /// The bytes are no name.
    #[error("the name isn't 1 to 63 bytes from 0x21 to 0x7e")]
    BadName,
    /// The object has more bytes than the largest one may have (`SIZE_MAX` of `size_class`).
    #[error("the object is too long")]
    TooLong,
    /// The name isn't in the map that was asked.
    #[error("there is no object of this name")]
    Missing,
    /// There are more names than a table with digests has room for.
    #[error("there are too many names for a table with digests")]
    TooMany,
    /// The object has another digest than the one that it was put with.
    #[error("the object is damaged")]
    Damaged,
    /// The name is new, and there are as many names as there may be.
    #[error("there is no room for another name")]
    Full,
    /// The sequence has come to 2^61.
    #[error("the file is worn")]
    Worn,
    /// The disk failed.
    #[error("the disk failed")]
    Disk,
    /// The sink failed.
    #[error("the sink failed")]
    Sink,
}

/// Which of its two maps a store reads.
#[derive(Clone, Copy, Debug, PartialEq, Eq)]
pub enum Moment {
    /// What stands now.
    Now,
    /// What stood at the last checkpoint.
    Kept,
}

/// A change was done: whether a checkpoint was saved with it.
#[derive(Clone, Copy, Debug, PartialEq, Eq)]
pub struct Done {
    pub kept: bool,
}

/// A change was begun: it is done, or a flush of it is in hand.
#[derive(Clone, Copy, Debug, PartialEq, Eq)]
pub enum Begun {
    /// It was quiet, and is done.
    Done,
    /// Its flush is in hand, until a step settles it.
    InHand,
}

/// What a step of a flush did.
#[derive(Clone, Copy, Debug, PartialEq, Eq)]
pub enum Progress {
    /// One object was moved.
    Moved,
    /// What stands now was saved as a settled checkpoint, and no flush is in hand.
    Settled,
}

/// How many names and bytes there are, now and at the last checkpoint.
#[derive(Clone, Copy, Debug, PartialEq, Eq)]
pub struct Stat {
    pub names: u64,
    pub bytes: u64,
    pub kept_names: u64,
    pub kept_bytes: u64,
}

/// What a store tells of itself: the version of its tables, 1 or 2 (with digests); K and NAMES of its
/// superblock; how many names may be live; how many names and bytes there are, now and at the last checkpoint;
/// the sequence of that; the most bytes that an object of its layout can have; and how many steps of the flush
/// in hand may still come, and how many bytes of objects these may still move.
#[derive(Clone, Copy, Debug, PartialEq, Eq)]
pub struct Facts {
    pub version: u8,
    pub k: u64,
    pub names: u64,
    pub cap: u64,
    pub live: u64,
    pub bytes: u64,
    pub kept_live: u64,
    pub kept_bytes: u64,
    pub sequence: u64,
    pub widest: u64,
    pub moves_left: u64,
    pub bytes_left: u64,
}

/// How long the data part is, and the sequence of the last checkpoint.
#[derive(Clone, Copy, Debug, PartialEq, Eq)]
pub struct Gauge {
    pub length: u64,
    pub sequence: u64,
}
