//! How a table in the making changes: objects move, names are taken out, and names are set in any order.
ghost use Rattle.std.specs.Prelude.{◌≡◌, ◌⊎◌, ◌<◌, ◌^◌, ◌↔◌, Some, IsSome, IfSome, IsTrue, slice_get};
ghost use Rattle.std.specs.FinMap as fin;
ghost use Rattle.extent_table.specs.Extents.{IsInRange, IsTable};

use crate::Spot;
use crate::digests::put_digest;
use crate::entry::{clear_spot, new_entry, put_spot, spot_at};
use crate::load::BulkLoad;
use crate::order::search;
use slot_codec::Name;

impl BulkLoad {
    /// How many names are set.
    pub fn count(&self) -> u64
        ensures value { result ≡ fin.len self.now.now }
        ensures table { IsTable self.now }
    {
        self.order.len() as u64
    }

    /// Whether a name is set.
    pub fn has(&self, name: &Name) -> bool
        ensures { IsTrue result ↔ IsSome (fin.get self.now.now name.now) }
    {
        match search(&self.entries, &self.order, name) {
            Ok(_place) => true,
            Err(_place) => false,
        }
    }

    /// Moves the object of the name of this rank by name, counted from 0, to another place. It keeps its
    /// size and its digest.
    pub fn relocate(&mut self, rank: u64, place: u64)
        requires live { rank < fin.len self.old.now }
        requires place { place < 2 ^ 48 }
        ensures only { IfSome (slice_get (fin.entries self.old.now) rank) (λ e. self.new
            ≡ record self.old { now = fin.insert self.old.now e.0 (record e.1 { place = place }) }) }
        ensures table { IsTable self.new }
    {
        let key = self.order[rank as usize];
        let before = spot_at(&self.entries, key);
        let spot = Spot {
            place,
            size: before.size,
        };
        put_spot(&mut self.entries, key, spot);
    }

    /// Takes a name out, and answers whether it was there.
    pub fn remove(&mut self, name: &Name) -> bool
        ensures there { IsTrue result ↔ IsSome (fin.get self.old.now name.now) }
        ensures only { self.new ≡ record self.old {
          now = fin.remove self.old.now name.now;
          keys = fin.remove self.old.keys name.now;
          digests = fin.remove self.old.digests name.now;
        } }
        ensures table { IsTable self.new }
    {
        match search(&self.entries, &self.order, name) {
            Ok(place) => {
                let key = self.order[place];
                let before = spot_at(&self.entries, key);
                clear_spot(&mut self.entries, key);
                self.order.remove(place);
                self.volume -= before.size;
                true
            }
            Err(_place) => false,
        }
    }

    /// Sets where the object of a name stands, and its digest, whether or not the name is there, and
    /// answers the name's key. A name that is there keeps its key. The place and the size are below 2^48.
    pub fn set(&mut self, name: &Name, spot: Spot, digest: [u8; 32]) -> u32
        requires room { IsSome (fin.get self.old.now name.now) ⊎ (fin.len self.old.now < self.old.names) }
        requires range { IsInRange spot }
        ensures only { self.new ≡ record self.old {
          now = fin.insert self.old.now name.now spot;
          keys = fin.insert self.old.keys name.now result;
          digests = fin.insert self.old.digests name.now digest;
        } }
        ensures live { IsSome (fin.get self.old.now name.now) → fin.get self.old.keys name.now ≡ Some result }
        ensures table { IsTable self.new }
    {
        match search(&self.entries, &self.order, name) {
            Ok(place) => {
                let key = self.order[place];
                let before = spot_at(&self.entries, key);
                put_spot(&mut self.entries, key, spot);
                self.volume = self.volume - before.size + spot.size;
                put_digest(&self.entries, &mut self.digests, key, digest);
                key
            }
            Err(place) => {
                let added = new_entry(&mut self.entries, name, spot);
                self.order.insert(place, added).unwrap();
                self.volume += spot.size;
                put_digest(&self.entries, &mut self.digests, added, digest);
                added
            }
        }
    }
}
