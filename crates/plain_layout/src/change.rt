//! What a change does to a book: its numbers, and which names stand in buffers after it.
ghost use Rattle.std.specs.Prelude.{◌≡◌, ◌≤◌, ◌<◌, ◌^◌, ◌++◌, [], ℕ, List, IfOk, OnOk, if◌then◌else◌, length, map, sum};
ghost use Rattle.std.specs.FinMap as fin;
ghost use Rattle.std.specs.FinSet as set;
ghost use Rattle.std.specs.Option.{option_map};
ghost use Rattle.plain_layout.specs.Changes.{IsNext, IsReshaped, enters, finds_last, is_of_lower, sized, stays_buffered};
ghost use Rattle.segment_layout.specs.Books as books;
ghost use Rattle.segment_layout.specs.Books.{charge_all, new_item, next_book, old_item, reshaped, volumes_of_sizes};
ghost use Rattle.map_model.specs.{Maps.{Map}, Requests.{Change, changed}, Weights.{same_name}};

use crate::{Book, class_of};
use std::alloc::{AllocError, Global};

/// What a change does to the numbers of a book.
#[derive(Clone, Copy, Debug, PartialEq, Eq)]
pub struct Next {
    /// Each item found room.
    pub quiet: bool,
    /// The class from which on a change that is not quiet lays out anew.
    pub boundary: u8,
    /// The numbers after the change.
    pub book: Book,
    /// The last item found room.
    pub found_last: bool,
}

impl Book {
    /// The numbers once the items of a change are charged, where the objects have the sizes `after`
    /// after it. Where an item finds no room, they are laid out anew from the boundary on.
    pub fn next(&self, items: &[u64], after: &[u64]) -> Next
        requires divisor { 1 ≤ self.now.k }
        requires fits { sum after.now < 2 ^ 64 }
        ensures numbers { IsReshaped self.now.k self.now.caps self.now.used items.now after.now result }
        ensures book { (m : Map) (book : books.Book) (c : Change) → book.caps ≡ self.now.caps
            → book.grid ≡ self.now.used → old_item m book c.name ++ new_item c ≡ items.now
            → map length (fin.values (changed c m)) ≡ after.now
            → IsNext result self.now.k m book c }
    {
        self.reshaped(items, after)
    }

    /// Charges the items, and where one finds no room lays out anew.
    fn reshaped(&self, items: &[u64], after: &[u64]) -> Next
        requires divisor { 1 ≤ self.now.k }
        requires fits { sum after.now < 2 ^ 64 }
        ensures quiet { result.quiet ≡ (reshaped self.now.k self.now.caps
            (charge_all self.now.k self.now.caps self.now.used items.now)
            (volumes_of_sizes after.now)).quiet }
        ensures boundary { result.boundary
            ≡ (reshaped self.now.k self.now.caps (charge_all self.now.k self.now.caps self.now.used items.now)
            (volumes_of_sizes after.now)).boundary }
        ensures caps { result.book.caps ≡ (reshaped self.now.k self.now.caps
            (charge_all self.now.k self.now.caps self.now.used items.now) (volumes_of_sizes after.now)).caps }
        ensures used { result.book.used ≡ (reshaped self.now.k self.now.caps
            (charge_all self.now.k self.now.caps self.now.used items.now) (volumes_of_sizes after.now)).grid }
        ensures divisor { result.book.k ≡ self.now.k }
        ensures last { result.found_last
            ≡ finds_last (charge_all self.now.k self.now.caps self.now.used items.now) }
    {
        let mut book = *self;
        let charged = book.charge_all(items);
        let boundary = book.boundary(charged.trigger);
        let book = if charged.quiet {
            book
        } else {
            book.settled(boundary, after)
        };
        Next {
            quiet: charged.quiet,
            boundary,
            book,
            found_last: charged.found_last,
        }
    }
}

impl Next {
    /// Whether a name stands in a buffer after the change: by whether it did before, whether the
    /// change is of this name, and the size of its object after the change, if there is one.
    pub fn is_buffered(&self, was: bool, is_changed: bool, size: Option<u64>) -> bool
        ensures value { result ≡ stays_buffered self.now was is_changed size }
        ensures names { (k : ℕ) (m : Map) (book : books.Book) (c : Change) (name : List ℕ)
            → IsNext self.now k m book c → set.contains book.buffered name ≡ was
            → same_name name c.name ≡ is_changed → option_map length (fin.get (changed c m) name) ≡ size
            → set.contains (next_book k m book c).book.buffered name ≡ result }
    {
        self.stays(was, is_changed, size)
    }

    /// Whether a name stands in a buffer before anything is laid out anew, and is left there.
    fn stays(&self, was: bool, is_changed: bool, size: Option<u64>) -> bool
        ensures { result ≡ stays_buffered self.now was is_changed size }
    {
        let stands = if is_changed { self.enters(size) } else { was };
        stands && (self.quiet || is_of_lower(self.boundary, size))
    }

    /// Whether the new object stands in a buffer before anything is laid out anew.
    fn enters(&self, size: Option<u64>) -> bool
        ensures { result ≡ enters self.now.found_last size }
    {
        match size {
            Some(size) => 0 < size && self.found_last,
            None => false,
        }
    }
}

/// Whether there is an object, and of a class below `b`.
fn is_of_lower(b: u8, size: Option<u64>) -> bool
    ensures { result ≡ is_of_lower b size }
{
    match size {
        Some(size) => class_of(size) < b,
        None => false,
    }
}

/// The items of a change, in bytes: the old object of the name, if it has bytes and does not stand
/// in a buffer, and then the new one, if it has bytes.
pub fn items_of(
    alloc: Global,
    old: Option<u64>,
    is_buffered: bool,
    new: Option<u64>,
) -> Result<Vec<u64>, AllocError>
    ensures items { IfOk result (λ items. items.items ≡ (if is_buffered then [] else sized old)
        ++ sized new) }
    ensures change { IfOk result (λ items. (m : Map) (book : books.Book) (c : Change)
        → option_map length (fin.get m c.name) ≡ old → set.contains book.buffered c.name ≡ is_buffered
        → option_map length c.object ≡ new → items.items ≡ old_item m book c.name ++ new_item c) }
{
    let mut items = Vec::new(alloc);
    if !is_buffered {
        push_size(&mut items, old)?;
    }
    push_size(&mut items, new)?;
    Ok(items)
}

/// Appends the size of an object that has bytes.
fn push_size(items: &mut Vec<u64>, size: Option<u64>) -> Result<(), AllocError>
    ensures { OnOk result (items.new.items ≡ items.old.items ++ sized size) }
{
    if let Some(size) = size {
        if 0 < size {
            items.push(size)?;
        }
    }
    Ok(())
}
