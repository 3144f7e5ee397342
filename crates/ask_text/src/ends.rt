//! How a turn of a session ends.

/// Why a session ended.
#[derive(Clone, Copy, Debug, PartialEq, Eq)]
pub enum End {
    /// The input was read to its end.
    End,
    /// What comes next is no request, or the input ends within it.
    Line,
    /// The disk failed.
    Disk,
    /// The source failed.
    Source,
    /// The sink failed.
    Sink,
    /// As many requests were answered as one run may.
    Budget,
}

/// What came of one request.
#[derive(Clone, Copy, Debug, PartialEq, Eq)]
pub enum Turn {
    Answered,
    Ended(End),
}
