//! The digests of a table's objects, by name.
ghost use Rattle.std.specs.Prelude.{◌≡◌, ℕ, List, Some, IsSome, length};
ghost use Rattle.std.specs.FinMap as fin;
ghost use Rattle.extent_table.specs.Extents.{IsLive, IsTable};

use crate::Table;
use crate::digests::{digest_at, put_digest};
use crate::entry::mark;
use crate::order::search;
use slot_codec::Name;

impl Table {
    /// The digest of the object of a name that stands now.
    pub fn digest(&self, name: &Name) -> Option<[u8; 32]>
        ensures { result ≡ fin.get self.now.digests name.now }
    {
        match search(&self.entries, &self.order, name) {
            Ok(place) => {
                let key = self.order[place];
                Some(digest_at(&self.digests, key))
            }
            Err(_) => None,
        }
    }

    /// The digest of the object of a name that was kept.
    pub fn old_digest(&self, name: &Name) -> Option<[u8; 32]>
        ensures { result ≡ fin.get self.now.kept_digests name.now }
    {
        match search(&self.entries, &self.kept_order, name) {
            Ok(place) => {
                let key = self.kept_order[place];
                Some(digest_at(&self.kept_digests, key))
            }
            Err(_) => None,
        }
    }

    /// The digest of the object of the live name with this key.
    pub(crate) fn digest_of(&self, key: u32) -> [u8; 32]
        requires { IsLive self.now key }
        ensures value { (name : List ℕ) → fin.get self.now.keys name ≡ Some key
            → fin.get self.now.digests name ≡ Some result }
        ensures long { length result ≡ 32 }
    {
        digest_at(&self.digests, key)
    }

    /// Gives the object of a live name another digest.
    pub fn renew(&mut self, name: &Name, digest: [u8; 32])
        requires live { IsSome (fin.get self.old.now name.now) }
        ensures only { self.new
            ≡ record self.old { digests = fin.insert self.old.digests name.now digest } }
        ensures table { IsTable self.new }
    {
        let place = search(&self.entries, &self.order, name).unwrap();
        let key = self.order[place];
        mark(&mut self.entries, key);
        put_digest(&self.entries, &mut self.digests, key, digest);
    }
}
