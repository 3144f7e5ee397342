//! The store of a desk.
use store_core::Store;

/// A store, and the session whose request began the flush in hand, or the last one that was.
#[derive(Drop)]
pub(crate) struct Served<const C: usize> {
    pub(crate) store: Store<C>,
    pub(crate) session: usize,
}
