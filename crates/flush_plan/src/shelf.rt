//! The objects of a table in the order of their places, told by rank.

use flush_model::Item;

/// Objects of at least 1 byte, by rising place. A table is one, where no two of its objects share a byte.
pub trait Shelf {
    ghost use Rattle.std.specs.Prelude.{◌≡◌, ℕ, ◌<◌, List, length, Some, slice_get};
    ghost use Rattle.flush_model.specs.declared.item.Item.{Item as AnyItem};

    /// The objects, in the order of their places.
    ghost items: { Self → List AnyItem };

    /// How many objects there are.
    fn len(&self) -> u64
        ensures { result ≡ length (items self.now) };

    /// The object of rank `n` by place, counted from 0.
    fn item(&self, n: u64) -> Item
        requires { n < length (items self.now) }
        ensures { slice_get (items self.now) n ≡ Some result };
}
