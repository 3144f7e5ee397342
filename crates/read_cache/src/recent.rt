//! The objects that were used last.
ghost use Rattle.std.specs.Prelude.{◌≡◌, ◌≤◌, if◌then◌else◌, is_some, nat_eq, length, map, IfOk, IfSome, IsSome, None};
ghost use Rattle.std.specs.Cmp.Lexicographic.{pointwise};
ghost use Rattle.std.specs.List.{IsDistinct};
ghost use Rattle.std.specs.Map.{keys_of};
ghost use Rattle.std.specs.NonZero.{non_zero_usize_get};
ghost use Rattle.read_cache.specs.Lists.{after_drop, after_hit, after_miss, empty_listing, emptied, listed, with_front, without};

use crate::held::Held;
use lru::LruCache;
use slot_codec::{Name, NoMemory};
use std::alloc::Global;
use std::marker::Model;
use std::num::NonZeroUsize;

/// The objects that were used last, and what was counted of them. Contracts see it as a `Listing`.
#[derive(Drop)]
pub(crate) struct Recent {
    alloc: Global,
    pairs: LruCache<Name, Held>,
    hits: u64,
    misses: u64,
    drops: u64,
}

impl Model for Recent {
    ghost use Rattle.read_cache.specs.{Lists.{Listing}, Codes.{listing_code}};

    ghost Value = { Listing };

    ghost coded = { listing_code };

    ghost view = { λ r. record {
      pairs = r.pairs.entries;
      room = r.pairs.cap;
      hits = r.hits;
      misses = r.misses;
      drops = r.drops;
    } };
}

impl Recent {
    /// None yet, with room for so many.
    pub(crate) fn new(alloc: Global, room: NonZeroUsize) -> Result<Recent, NoMemory>
        ensures { IfOk result (λ recent. recent ≡ empty_listing (non_zero_usize_get room)) }
    {
        let Ok(pairs) = LruCache::new(alloc, room) else {
            return Err(NoMemory);
        };
        Ok(Recent {
            alloc,
            pairs,
            hits: 0,
            misses: 0,
            drops: 0,
        })
    }

    /// Whether a name is listed; if it is, that was a hit, and its pair comes to the front.
    pub(crate) fn hit(&mut self, name: &Name) -> bool
        ensures found { result ≡ is_some (listed self.old name.now) }
        ensures list { self.new ≡ (if result then after_hit name.now self.old else self.old) }
    {
        if !self.pairs.promote(name) {
            return false;
        }
        self.hits = self.hits.saturating_add(1);
        true
    }

    /// The bytes of a name that is listed.
    pub(crate) fn bytes(&self, name: &Name) -> Option<&[u8]>
        ensures some { is_some result ≡ is_some (listed self.now name.now) }
        ensures bytes { IfSome result (λ bytes. IfSome (listed self.now name.now)
            (λ object. bytes.now ≡ object)) }
    {
        let held = self.pairs.peek(name)?;
        Some(held.as_slice())
    }

    /// Lists an object that wasn't, where there is memory for it; whether there was.
    pub(crate) fn enter(&mut self, name: Name, bytes: &[u8]) -> bool
        requires new { listed self.old name ≡ None }
        requires small { length bytes.now ≤ 4096 }
        ensures { self.new ≡ (if result then after_miss name bytes.now self.old else after_drop self.old) }
    {
        self.misses = self.misses.saturating_add(1);
        if self.put_in_front(name, bytes) {
            return true;
        }
        self.drops = self.drops.saturating_add(1);
        false
    }

    /// Puts a pair of a name that isn't listed in front, where there is memory for it.
    fn put_in_front(&mut self, name: Name, bytes: &[u8]) -> bool
        requires new { listed self.old name ≡ None }
        requires small { length bytes.now ≤ 4096 }
        ensures { self.new ≡ (if result then with_front name bytes.now self.old else self.old) }
    {
        let Ok(held) = Held::of(self.alloc, bytes) else {
            return false;
        };
        match self.pairs.put(name, held) {
            Ok(_) => true,
            Err(_) => false,
        }
    }

    /// Takes the pair of a name out.
    pub(crate) fn forget(&mut self, name: &Name)
        ensures { self.new ≡ without name.now self.old }
    {
        let _ = self.pairs.pop(name);
    }

    /// Takes all pairs out.
    pub(crate) fn empty(&mut self)
        ensures { self.new ≡ emptied self.old }
    {
        self.pairs.clear();
    }

    /// No name is listed twice.
    pub(crate) fn is_distinct(&self)
        ensures { IsDistinct (pointwise nat_eq) (keys_of self.now.pairs) }
    {
        let _ = self.pairs.len();
    }

    /// How many hits there were.
    pub(crate) fn hits(&self) -> u64
        ensures { result ≡ self.now.hits }
    {
        self.hits
    }

    /// How many misses there were, with the drops.
    pub(crate) fn misses(&self) -> u64
        ensures { result ≡ self.now.misses }
    {
        self.misses
    }

    /// How many misses weren't listed for want of memory.
    pub(crate) fn drops(&self) -> u64
        ensures { result ≡ self.now.drops }
    {
        self.drops
    }
}
