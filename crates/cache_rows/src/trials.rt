//! A store behind a cache, over its disk, ready for any request.
ghost use Rattle.std.specs.Prelude.{◌≤◌, IsTrue};

use disk_face::{Disk, Sink};
use disk_mem::Fuse;
use read_cache::{Cached, Got};
use size_class::CLASSES;
use std::alloc::Global;
use std::marker::Model;
use std::test::Fail;
use store_core::{Done, Refusal, Store};

/// A store behind a cache over its disk, which belong together at each moment. Contracts know nothing
/// else of it: what it answers is tried.
#[derive(Drop)]
pub struct CacheTrial<D: Disk> {
    disk: D,
    cached: Cached<CLASSES>,
}

impl<D: Disk> Model for CacheTrial<D> {
    ghost use Rattle.std.specs.Prelude.{ℕ};
    ghost use Rattle.cache_rows.specs.Served.{MayGoOn};

    ghost Value = { ℕ };

    ghost view = { λ t. 0 };

    ghost invariant = { λ t. MayGoOn t.cached (D.state t.disk) };
}

/// Opens the file of a disk, behind a cache of so many objects.
pub fn cached_on<D: Disk + Drop>(
    alloc: Global,
    disk: D,
    entries: u64,
) -> Result<CacheTrial<D>, Fail>
    requires ready { IsTrue (D.state disk).is_ready }
    requires some { 1 ≤ entries }
    requires few { entries ≤ 4096 }
{
    let mut disk = disk;
    let store = Store::open(alloc, &mut disk)?;
    match Cached::new(alloc, store, entries) {
        Ok(cached) => Ok(CacheTrial { disk, cached }),
        Err(_) => Err("memory")?,
    }
}

impl<D: Disk> CacheTrial<D> {
    /// Puts an object.
    pub fn put(&mut self, name: &str, bytes: &[u8]) -> Result<Done, Refusal> {
        self.cached.put(&mut self.disk, name.as_bytes(), bytes)
    }

    /// Removes a name.
    pub fn del(&mut self, name: &str) -> Result<Done, Refusal> {
        self.cached.del(&mut self.disk, name.as_bytes())
    }

    /// Saves a checkpoint.
    pub fn keep(&mut self) -> Result<Done, Refusal> {
        self.cached.keep(&mut self.disk)
    }

    /// Goes back to the last checkpoint.
    pub fn back(&mut self) -> Result<(), Refusal> {
        self.cached.back()
    }

    /// Puts an object's bytes to the sink.
    pub fn get<O: Sink>(&mut self, name: &str, sink: &mut O) -> Result<Got, Refusal> {
        self.cached.get(&mut self.disk, name.as_bytes(), sink)
    }

    /// How many hits, misses and drops there were.
    pub fn counts(&self) -> (u64, u64, u64) {
        (
            self.cached.hits(),
            self.cached.misses(),
            self.cached.drops(),
        )
    }

    /// The same over a disk whose calls fail, all of them.
    pub fn failing(self) -> CacheTrial<Fuse<D>> {
        let CacheTrial { disk, cached } = self;
        CacheTrial {
            disk: Fuse::stop_after(disk, 0),
            cached,
        }
    }
}
