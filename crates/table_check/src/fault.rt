//! Why a table is refused.
use thiserror::Error;

/// The first rule of a table that is broken, by its number from 1 to 12, and the least place at which
/// it is: a record counted from 0 in the order of the names, a class, or 0.
#[derive(Clone, Copy, Debug, PartialEq, Eq, Error)]
#[error("the table breaks rule {rule} at {at}")]
pub struct TableFault {
    pub rule: u8,
    pub at: u64,
}
