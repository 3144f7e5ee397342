//! Giving each object of a store the digest of its bytes.
ghost use Rattle.std.specs.Prelude.{◌≡◌, None};

use crate::LentStore;
use store_core::{Done, Refusal};

impl LentStore {
    ghost use Rattle.lent_store.specs.{Upgraded.{IsUpgraded}, Noted.{IsNoted}};

    /// Gives each object the digest of its bytes, as the store does: it reads them, and saves a checkpoint of
    /// version 2. A store of version 2 is left as it is. The log has the calls that it made.
    pub fn upgrade(&mut self) -> Result<Done, Refusal>
        requires idle { self.old.store.in_hand ≡ None }
        ensures upgraded { IsUpgraded self.old self.new result }
        ensures noted { IsNoted self.old self.new }
    {
        self.disk.empty_log();
        let answer = self.store.upgrade(&mut self.disk);
        self.disk.is_noted();
        answer
    }
}
