//! Why a file isn't opened.
use slot_pair::SlotFault;
use table_check::TableFault;
use thiserror::Error;

/// Why a file stands for no state: what shows it first in finding its table, or the first rule that
/// its table breaks. Or there is too little memory for its table, which says nothing of the file.
#[derive(Clone, Copy, Debug, PartialEq, Eq, Error)]
pub enum OpenFault {
    #[error("{0}")]
    Slot(SlotFault),
    #[error("{0}")]
    Table(TableFault),
    #[error("out of memory")]
    NoMemory,
}
