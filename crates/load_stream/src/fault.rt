//! Why a load ends before the file has the dump's map.

/// Why a load ended before the file had the dump's map.
#[derive(Clone, Copy, Debug, PartialEq, Eq)]
pub enum LoadFault {
    /// The input is no dump. The number is 0 where no first line stands in front, and else that of the
    /// first object that can't stand there, from 1.
    Line(u64),
    /// The first line tells of so many objects, more than there is room for names.
    TooMany(u64),
    NoMemory,
    Disk,
    Source,
}
