//! The map of a store's last checkpoint as one stream, and a store that is made of one.
ghost use Rattle.std.specs.Prelude.{◌≡◌, ◌⊎◌, ◌≤◌, ◌<◌, [], length, take, None, Ok, IfErr, IfOk, OnErr};
ghost use Rattle.disk_history.specs.Histories.{EndedBy};
ghost use Rattle.lent_disk.specs.{Disks.{lent_state}, Notings.{IsLog}};
ghost use Rattle.reopen.specs.Loads.{IsLoadedFrom, KeepsLoaded, unboxed};
ghost use Rattle.size_class.specs.declared.TheConstants.{CLASSES};
ghost use Rattle.slot_codec.specs.Readable.{IsSuperBlock};
ghost use Rattle.slot_pair.specs.Formats.{block_for};
ghost use Rattle.store_model.specs.Opened.{IsFresh, IsOpening};
ghost use Rattle.lent_store.specs.{Embedded.{disk_of}, Noted.{IsNotedOf}, Streams.{CopiesDump, FailsToOpen}};

use crate::LentStore;
use crate::dumped::Dumped;
use crate::text::TextSource;
use dump_stream::{DumpFault, dump_boxed};
use lent_disk::{FileView, LentDisk, Log, Room};
use load_stream::LoadFault;
use reopen::{BoxedLoaded, OpenFault, load_state};
use size_class::CLASSES;
use std::alloc::Global;
use store_core::Store;

/// How many bytes of an object that is longer are copied at a time.
const PIECE: usize = 4096;

/// Why a dump wasn't put whole.
#[derive(Clone, Copy)]
pub enum DumpStop {
    /// A changing call of the store failed.
    Broken,
    /// There is no memory for the table of the file, or for the dump.
    NoMemory,
    /// An object has another digest than the one that it was put with.
    Damaged,
    /// The file couldn't be read. A file in memory always can be.
    Disk,
    /// The dump doesn't fit where it is to go.
    Short,
}

impl LentStore {
    ghost use Rattle.lent_store.specs.Streams.{AnswersDump, HasLoaded, RefusesLoad};

    /// Copies the dump of the last checkpoint to the front of `out`, and answers how many bytes it has.
    /// Memory is taken and given back: for the table of the file, which is read anew, and as much as `out`
    /// has. It never answers that the file couldn't be read.
    pub fn dump(&self, alloc: Global, out: &mut [u8]) -> Result<u64, DumpStop>
        requires idle { self.now.store.in_hand ≡ None }
        ensures answer { AnswersDump self.now out.new result }
        ensures refused { OnErr result (out.new ≡ out.old) }
        ensures same_length { length out.new ≡ length out.old }
    {
        if self.store.is_broken() {
            return Err(DumpStop::Broken);
        }
        let file = self.disk.room();
        let mut view = FileView::of(file);
        match load_state(alloc, &mut view) {
            Ok(loaded) => put_dump(alloc, file, &loaded, out),
            Err(fault) => Err(stop_for(fault)),
        }
    }

    /// Makes a store of a file of length 0 that has the map of a dump, and opens it. The log has the calls of
    /// both. `k` is from 2 to 64, and `names` from 16 to 65,536.
    pub fn load(
        alloc: Global,
        room: Room,
        log: Log,
        k: u64,
        names: u64,
        text: &[u8],
    ) -> Result<LentStore, LoadFault>
        requires ranges { IsSuperBlock (block_for k names) }
        requires empty { room.file ≡ [] }
        ensures loaded { IfOk result (HasLoaded k names text.now) }
        ensures fresh { IfOk result (λ s. IsFresh CLASSES s.store) }
        ensures noted { IfOk result (IsNotedOf []) }
        ensures refused { IfErr result (RefusesLoad k names text.now room.entry log.entry) }
    {
        let mut disk = LentDisk::new(room, log);
        let mut input = TextSource::new(text);
        match load_stream::load(alloc, &mut disk, k, names, &mut input) {
            Ok(()) => open_loaded(alloc, disk),
            Err(fault) => {
                // For the prover: a call failed for want of room alone.
                disk.is_noted();
                Err(fault)
            }
        }
    }
}

/// Why a dump stops whose table couldn't be read.
fn stop_for(fault: OpenFault) -> DumpStop
    ensures { fault ≡ OpenFault.NoMemory → result ≡ DumpStop.NoMemory }
{
    match fault {
        OpenFault::NoMemory => DumpStop::NoMemory,
        OpenFault::Slot(_) | OpenFault::Table(_) => DumpStop::Disk,
    }
}

/// Copies the dump of a file that was read to the front of `out`, out of memory of its own.
fn put_dump(
    alloc: Global,
    file: &Room,
    loaded: &BoxedLoaded<CLASSES>,
    out: &mut [u8],
) -> Result<u64, DumpStop>
    requires loaded { KeepsLoaded (unboxed loaded.now) }
    requires from { IsLoadedFrom file.now.file (unboxed loaded.now) }
    ensures dumps { CopiesDump (unboxed loaded.now) file.now.file out.new result }
    ensures refused { OnErr result (out.new ≡ out.old) }
    ensures same_length { length out.new ≡ length out.old }
{
    let Some(room) = out.len().checked_add(1) else {
        return Err(DumpStop::NoMemory);
    };
    let Ok(mut dumped) = Dumped::with_room(alloc, room) else {
        return Err(DumpStop::NoMemory);
    };
    let mut view = FileView::of(file);
    let mut piece = [0u8; PIECE];
    match dump_boxed(&mut view, loaded, &mut dumped, &mut piece) {
        Ok(()) => copy_whole(dumped.text(), out),
        Err(DumpFault::Damaged) => Err(DumpStop::Damaged),
        Err(DumpFault::Disk) => Err(DumpStop::Disk),
        Err(DumpFault::Sink) => Err(DumpStop::Short),
    }
}

/// Copies a text to the front of `out`, where it fits.
fn copy_whole(text: &[u8], out: &mut [u8]) -> Result<u64, DumpStop>
    ensures copied { IfOk result (λ n. (n ≤ length out.new) × (take n out.new ≡ text.now)) }
    ensures short { IfErr result (λ why. (why ≡ DumpStop.Short) × (length out.new < length text.now)) }
    ensures refused { OnErr result (out.new ≡ out.old) }
    ensures same_length { length out.new ≡ length out.old }
{
    let n = text.len();
    if n > out.len() {
        return Err(DumpStop::Short);
    }
    out[..n].copy_from_slice(text);
    Ok(n as u64)
}

/// Opens the store in a file that was loaded.
fn open_loaded(alloc: Global, mut disk: LentDisk) -> Result<LentStore, LoadFault>
    ensures opened { IfOk result (λ s. IsOpening CLASSES (lent_state disk.entry) (disk_of s) (Ok s.store)) }
    ensures noted { IfOk result (λ s. IsLog disk.entry.start s.noting.history s.noting.text) }
    ensures ended { IfOk result (λ s. EndedBy s.noting.history.turn s.noting.history.calls) }
    ensures refused { IfErr result (λ fault. (fault ≡ LoadFault.NoMemory)
        ⊎ ((fault ≡ LoadFault.Disk) × FailsToOpen disk.entry)) }
{
    let opened: Result<Store<CLASSES>, OpenFault> = Store::open(alloc, &mut disk);
    disk.is_noted();
    match opened {
        Ok(store) => Ok(LentStore { store, disk }),
        Err(fault) => Err(fault_of(fault)),
    }
}

/// Why a load stops whose file wasn't opened.
fn fault_of(fault: OpenFault) -> LoadFault
    ensures { ((fault ≡ OpenFault.NoMemory) × (result ≡ LoadFault.NoMemory))
        ⊎ ((fault ≡ OpenFault.NoMemory → ⊥) × (result ≡ LoadFault.Disk)) }
{
    match fault {
        OpenFault::NoMemory => LoadFault::NoMemory,
        OpenFault::Slot(_) | OpenFault::Table(_) => LoadFault::Disk,
    }
}
