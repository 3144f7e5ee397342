//! A flush in hand: what it began with, and how far it may still go.
use size_class::Row;

/// Of the flush in hand, or of the last one that was: the sequence of the last checkpoint and the bytes moved
/// as it began, and how many steps may still come.
#[derive(Clone, Copy)]
pub struct Began<const C: usize> {
    pub sequence: u64,
    pub moved: Row<C>,
    pub left: u64,
}
