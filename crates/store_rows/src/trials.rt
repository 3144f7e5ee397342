//! A store over its disk, ready for any request.
ghost use Rattle.std.specs.Prelude.{◌≡◌, ◌≤◌, None, IsTrue, IfOk};

use data_area::Ledger;
use disk_face::{Disk, Sink};
#[cfg(test)]
use disk_face::{length_of, read};
use disk_mem::Fuse;
#[cfg(test)]
use disk_mem::{Choice, MemDisk};
use size_class::CLASSES;
use std::alloc::Global;
use std::marker::Model;
#[cfg(test)]
use std::process::Abort;
use std::test::Fail;
use store_core::{Done, Gauge, Refusal, Stat, Store};

/// A store over its disk, which belong together at each moment. Contracts know nothing
/// else of it: what it answers is tried.
#[derive(Drop)]
pub struct Trial<D: Disk> {
    disk: D,
    store: Store<CLASSES>,
}

impl<D: Disk> Model for Trial<D> {
    ghost use Rattle.std.specs.Prelude.{ℕ};
    ghost use Rattle.store_rows.specs.Served.{MayServe};

    ghost Value = { ℕ };

    ghost view = { λ t. 0 };

    ghost invariant = { λ t. MayServe t.store (D.state t.disk) };
}

/// Opens the file of a disk.
pub fn store_on<D: Disk + Drop>(alloc: Global, disk: D) -> Result<Trial<D>, Fail>
    requires ready { IsTrue (D.state disk).is_ready }
    requires tells { IsTrue (D.state disk).tells }
{
    let mut disk = disk;
    let store = Store::open(alloc, &mut disk)?;
    Ok(Trial { disk, store })
}

/// The same, where the file has to open.
#[cfg(test)]
pub(crate) fn opened<D: Disk + Drop>(rt: &impl Abort, alloc: Global, disk: D) -> Trial<D>
    requires ready { IsTrue (D.state disk).is_ready }
    requires tells { IsTrue (D.state disk).tells }
{
    match store_on(alloc, disk) {
        Ok(trial) => trial,
        Err(_) => panic!(rt; "a store"),
    }
}

/// The same for a file of these bytes.
#[cfg(test)]
pub(crate) fn on_file(rt: &impl Abort, alloc: Global, bytes: &[u8]) -> Trial<MemDisk> {
    let disk = MemDisk::from_bytes(alloc, bytes).expect(rt, "memory");
    opened(rt, alloc, disk)
}

impl<D: Disk> Trial<D> {
    /// Puts an object.
    pub fn put(&mut self, name: &str, bytes: &[u8]) -> Result<Done, Refusal> {
        self.store.put(&mut self.disk, name.as_bytes(), bytes)
    }

    /// Removes a name.
    pub fn del(&mut self, name: &str) -> Result<Done, Refusal> {
        self.store.del(&mut self.disk, name.as_bytes())
    }

    /// Saves a checkpoint.
    pub fn keep(&mut self) -> Result<Done, Refusal> {
        self.store.keep(&mut self.disk)
    }

    /// Gives each object its digest.
    pub fn upgrade(&mut self) -> Result<Done, Refusal> {
        self.store.upgrade(&mut self.disk)
    }

    /// Goes back to the last checkpoint.
    pub fn back(&mut self) -> Result<(), Refusal> {
        self.store.back()
    }

    /// Puts an object's bytes to the sink.
    pub fn get<O: Sink>(&mut self, name: &str, sink: &mut O) -> Result<u64, Refusal> {
        self.store.get(&mut self.disk, name.as_bytes(), sink)
    }

    /// Puts the bytes that an object had at the last checkpoint.
    pub fn old<O: Sink>(&mut self, name: &str, sink: &mut O) -> Result<u64, Refusal> {
        self.store.old(&mut self.disk, name.as_bytes(), sink)
    }

    /// The store alone, for what needs no disk.
    pub fn store(&self) -> &Store<CLASSES>
        ensures { result.now.in_hand ≡ None }
    {
        &self.store
    }

    /// How many changing calls of the disk have ended.
    pub fn turns(&self) -> u64 {
        self.disk.turns()
    }

    /// All bytes of the file.
    #[cfg(test)]
    pub(crate) fn file(&mut self, rt: &impl Abort, alloc: Global) -> Vec<u8> {
        let length = length_of(&mut self.disk).expect(rt, "a length");
        let mut bytes = vec![in alloc; 0u8; length as usize].expect(rt, "memory");
        read(&mut self.disk, 0, &mut bytes).expect(rt, "a file");
        bytes
    }

    /// The store over a disk that fails the changing calls and the others of these numbers, counted
    /// from here on.
    pub fn failing(self, changes: Vec<u64>, reads: Vec<u64>) -> Trial<Fuse<D>> {
        let Trial { disk, store } = self;
        Trial {
            disk: Fuse::listed(disk, changes, reads),
            store,
        }
    }

    /// The disk alone.
    pub fn into_disk(self) -> D
        ensures ready { IsTrue (D.state result).is_ready }
        ensures tells { IsTrue (D.state result).tells }
    {
        let Trial { disk, store: _ } = self;
        disk
    }
}

#[cfg(test)]
impl Trial<MemDisk> {
    /// An image of a turn.
    pub(crate) fn image(&self, rt: &impl Abort, turn: u64, choice: Choice) -> Vec<u8> {
        assert!(rt; turn <= self.disk.turns());
        self.disk.image(turn, choice).expect(rt, "memory")
    }
}
