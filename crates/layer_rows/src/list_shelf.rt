//! A shelf that is a list.
ghost use Rattle.std.specs.Prelude.{◌<◌, ◌≤◌, Contains, IsPermutation};
ghost use Rattle.std.specs.List.Sorted.{IsNonDecreasingBy};
ghost use Rattle.flush_model.specs.declared.item.Item.{Item as AnyItem};
ghost use Rattle.flush_model.specs.declared.item.Numbers.{Numbers as AnyNumbers};
ghost use Rattle.flush_model.specs.{Plans.{mover, relocated}, Phases.{AreItems}};
ghost use Rattle.flush_plan.specs.Shelves.{IsRank, IsShelf};

use flush_plan::{Item, Move, Shelf};

/// A shelf that keeps its objects in a list.
#[derive(Drop)]
pub(crate) struct ListShelf {
    pub(crate) items: Vec<Item>,
}

impl Shelf for ListShelf {
    ghost items = { λ shelf. shelf.items.items };

    fn len(&self) -> u64 {
        self.items.len() as u64
    }

    fn item(&self, n: u64) -> Item {
        self.items[n as usize]
    }
}

/// Puts objects in the order of their places.
pub(crate) fn sort_by_place(items: &mut Vec<Item>)
    ensures same { IsPermutation items.old.items items.new.items }
    ensures rising { IsNonDecreasingBy (λ (it : AnyItem). it.place) items.new.items }
{
    items.sort_unstable_by_key(|item| item.place);
}

impl ListShelf {
    /// Puts objects in the order of their places.
    pub(crate) fn new(objects: Vec<Item>) -> ListShelf
        ensures same { IsPermutation objects.items result.items.items }
        ensures rising { IsNonDecreasingBy (λ (it : AnyItem). it.place) result.items.items }
    {
        let mut items = objects;
        sort_by_place(&mut items);
        ListShelf { items }
    }

    /// Makes a move.
    pub(crate) fn relocate(&mut self, mv: Move)
        requires items { (n : AnyNumbers) × AreItems n self.old.items.items }
        requires rising { IsNonDecreasingBy (λ (it : AnyItem). it.place) self.old.items.items }
        requires has { Contains self.old.items.items (mover mv) }
        ensures same { IsPermutation (relocated mv.key mv.to self.old.items.items) self.new.items.items }
        ensures rising { IsNonDecreasingBy (λ (it : AnyItem). it.place) self.new.items.items }
    {
        let at = self.rank(mv.from);
        self.items[at].place = mv.to;
        self.items.sort_unstable_by_key(|item| item.place);
    }

    /// How many objects begin before a place.
    fn rank(&self, place: u64) -> usize
        requires rises { IsShelf self.now.items.items }
        ensures { IsRank self.now.items.items place result }
    {
        let mut rank = 0;
        'objects: while rank < self.items.len() && self.items[rank].place < place {
            rank += 1;
        }
        rank
    }
}
