//! A store over its disk, of which a flush may be in hand.
ghost use Rattle.std.specs.Prelude.{IsTrue};
ghost use Rattle.disk_face.specs.Frames.{Unchanged};

use disk_face::{Disk, Sink, length_of, read};
#[cfg(test)]
use disk_mem::{Choice, MemDisk};
use size_class::CLASSES;
use std::alloc::Global;
use std::marker::Model;
#[cfg(test)]
use std::process::Abort;
use std::test::Fail;
use store_core::{Begun, Done, Progress, Refusal, Store};

/// A store over its disk, which belong together at each moment, also while a flush is in hand. Contracts
/// know nothing else of it: what it answers is tried.
#[derive(Drop)]
pub struct Slicer<D: Disk> {
    disk: D,
    store: Store<CLASSES>,
}

impl<D: Disk> Model for Slicer<D> {
    ghost use Rattle.std.specs.Prelude.{ℕ};
    ghost use Rattle.store_rows.specs.Served.{MayStep};

    ghost Value = { ℕ };

    ghost view = { λ t. 0 };

    ghost invariant = { λ t. MayStep t.store (D.state t.disk) };
}

/// Opens the file of a disk.
pub fn sliced_on<D: Disk + Drop>(alloc: Global, disk: D) -> Result<Slicer<D>, Fail>
    requires ready { IsTrue (D.state disk).is_ready }
{
    let mut disk = disk;
    let store = Store::open(alloc, &mut disk)?;
    Ok(Slicer { disk, store })
}

/// The same, where the file has to open.
#[cfg(test)]
pub(crate) fn slicer_on<D: Disk + Drop>(rt: &impl Abort, alloc: Global, disk: D) -> Slicer<D>
    requires ready { IsTrue (D.state disk).is_ready }
{
    match sliced_on(alloc, disk) {
        Ok(sliced) => sliced,
        Err(_) => panic!(rt; "a store"),
    }
}

impl<D: Disk> Slicer<D> {
    /// Puts an object by one call, where no flush is in hand.
    pub fn put(&mut self, name: &str, bytes: &[u8]) -> Option<Result<Done, Refusal>> {
        if self.store.in_hand() {
            return None;
        }
        Some(self.store.put(&mut self.disk, name.as_bytes(), bytes))
    }

    /// Begins to put an object, where no flush is in hand.
    pub fn begin_put(&mut self, name: &str, bytes: &[u8]) -> Option<Result<Begun, Refusal>> {
        if self.store.in_hand() {
            return None;
        }
        Some(self.store.begin_put(&mut self.disk, name.as_bytes(), bytes))
    }

    /// Begins to remove a name, where no flush is in hand.
    pub fn begin_del(&mut self, name: &str) -> Option<Result<Begun, Refusal>> {
        if self.store.in_hand() {
            return None;
        }
        Some(self.store.begin_del(&mut self.disk, name.as_bytes()))
    }

    /// Steps the flush in hand, where one is.
    pub fn step(&mut self) -> Option<Result<Progress, Refusal>> {
        if !self.store.in_hand() {
            return None;
        }
        Some(self.store.step(&mut self.disk))
    }

    /// Puts an object's bytes to the sink.
    pub fn get<O: Sink>(&mut self, name: &str, sink: &mut O) -> Result<u64, Refusal> {
        self.store.get(&mut self.disk, name.as_bytes(), sink)
    }

    /// The store alone, for what needs no disk.
    pub fn store(&self) -> &Store<CLASSES> {
        &self.store
    }

    /// How many changing calls of the disk have ended.
    pub fn turns(&self) -> u64 {
        self.disk.turns()
    }

    /// All bytes of the file; none where the disk fails, or there is no memory for them.
    pub fn file(&mut self, alloc: Global) -> Option<Vec<u8>> {
        file_on(&mut self.disk, alloc)
    }
}

/// All bytes of the file of a disk.
fn file_on<D: Disk>(disk: &mut D, alloc: Global) -> Option<Vec<u8>>
    requires { IsTrue (D.state disk.old).is_ready }
    ensures { Unchanged (D.state disk.old) (D.state disk.new) }
{
    let length = length_of(disk).ok()?;
    let mut bytes = vec![in alloc; 0u8; length as usize].ok()?;
    read(disk, 0, &mut bytes).ok()?;
    Some(bytes)
}

#[cfg(test)]
impl Slicer<MemDisk> {
    /// An image of a turn.
    pub(crate) fn image(&self, rt: &impl Abort, turn: u64, choice: Choice) -> Vec<u8> {
        assert!(rt; turn <= self.disk.turns());
        self.disk.image(turn, choice).expect(rt, "memory")
    }
}
