//! How many bytes were moved, and asked for.
use size_class::Row;

/// For each size class the bytes that were moved, and those that requests put and removed. A number
/// stays at the last value of its type rather than pass it.
#[derive(Clone, Copy)]
pub struct Ledger<const C: usize> {
    pub moved: Row<C>,
    pub asked: Row<C>,
}
