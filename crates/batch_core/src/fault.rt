//! Why a batch isn't done.
use thiserror::Error;

/// Why a batch wasn't done. Where several would apply, the first in this order comes.
#[derive(Clone, Copy, Debug, PartialEq, Eq, Error)]
pub enum BatchFault {
    /// A changing call of the store failed.
    #[error("the store is broken")]
    Broken,
    /// What the store keeps as a batch has another digest than the one that it was put with.
    #[error("the batch that the store keeps is damaged")]
    Damaged,
    /// What the store keeps as a batch is none.
    #[error("what the store keeps as a batch is none")]
    NoBatch,
    /// The request of this number, from 1, can't stand in a batch.
    #[error("request {0} can't stand in a batch")]
    Line(u64),
    /// The request of this number, from 1, doesn't fit: it removes a name that isn't there, or leaves no
    /// room for the batch's own name. It is 1 where there is no room before.
    #[error("request {0} doesn't fit")]
    Unfit(u64),
    /// The sequence has come to 2^61 - 2^25.
    #[error("the file is worn")]
    Worn,
    /// The disk failed.
    #[error("the disk failed")]
    Disk,
}
