//! The statuses of the program.

/// All was done.
pub const DONE: u8 = 0;

/// The words are no command.
pub const FAULTY_WORDS: u8 = 1;

/// A request of the input is none.
pub const FAULTY_REQUEST: u8 = 2;

/// There is no such file.
pub const NO_FILE: u8 = 3;

/// The file is no store.
pub const NO_STORE: u8 = 4;

/// A file that is to be made isn't empty.
pub const NOT_EMPTY: u8 = 5;

/// The store has no object of the name.
pub const NO_OBJECT: u8 = 6;

/// A call of the disk failed.
pub const DISK_FAILED: u8 = 7;

/// A call of the source failed.
pub const SOURCE_FAILED: u8 = 8;

/// A call of the sink failed.
pub const SINK_FAILED: u8 = 9;

/// There is too little memory.
pub const NO_MEMORY: u8 = 10;

/// As many requests were answered as one session may.
pub const TOO_MANY_REQUESTS: u8 = 11;

/// The object of the name has another digest than the store has for it.
pub const DAMAGED_OBJECT: u8 = 13;

/// The store or the dump has more names than the file would have room for.
pub const TOO_MANY_NAMES: u8 = 14;

/// The sequence of the file leaves no save.
pub const WORN: u8 = 15;

/// An object under the name of a batch that is done is no batch.
pub const NO_BATCH: u8 = 16;

/// A batch doesn't fit the map.
pub const UNFIT: u8 = 17;
