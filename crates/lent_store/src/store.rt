//! A store and its file.
ghost use Rattle.std.specs.Prelude.{◌≡◌, ◌↔◌, ◌≤◌, ◌+◌, [], length, IfErr, IfOk, IsSome, IsTrue, Ok};
ghost use Rattle.byte_ranges.specs.Ranges.{bytes_at};
ghost use Rattle.size_class.specs.declared.TheConstants.{CLASSES};
ghost use Rattle.lent_disk.specs.{Disks.{lent_state}, Notings.{lent}};
ghost use Rattle.slot_codec.specs.Readable.{IsSuperBlock};
ghost use Rattle.slot_pair.specs.Formats.{block_for};
ghost use Rattle.store_model.specs.Opened.{IsOpening};
ghost use Rattle.lent_store.specs.{Made.{IsMade, NotMade}, Noted.{IsNotedOf}, Opening.{RefusesLent}};

use lent_disk::{LentDisk, Log, Room};
use reopen::OpenFault;
use size_class::CLASSES;
use slot_pair::{SlotFault, SlotPair};
use std::alloc::Global;
use std::marker::Model;
use store_core::Store;

/// A store over the file at the front of a room, whose calls are noted in a log.
#[derive(Drop)]
pub struct LentStore {
    pub(crate) store: Store<CLASSES>,
    pub(crate) disk: LentDisk,
}

impl Model for LentStore {
    ghost use Rattle.lent_store.specs.{Codes.{embedded_code}, Embedded.{Embedded, IsEmbedded}};

    ghost Value = { Embedded };

    ghost coded = { embedded_code };

    ghost view = { λ s. record { store = s.store; noting = s.disk } };

    ghost invariant = { λ s. IsEmbedded (record { store = s.store; noting = s.disk }) };
}

impl LentStore {
    ghost use Rattle.lent_store.specs.Embedded.{disk_of, file_in};

    /// Opens the store in a file that is at rest on its device. The log has the calls of
    /// the opening, if it cut the file or went on with a flush.
    pub fn open(alloc: Global, room: Room, log: Log) -> Result<LentStore, OpenFault>
        ensures opened { IfOk result (λ s. IsOpening CLASSES
            (lent_state (lent room.entry.file room.entry.most log.entry.most)) (disk_of s)
            (Ok s.store)) }
        ensures refused { IfErr result (RefusesLent room.entry log.entry) }
        ensures noted { IfOk result (IsNotedOf room.entry.file) }
    {
        // For the prover: the file fits its room.
        let _ = room.end();
        let mut disk = LentDisk::new(room, log);
        let opened: Result<Store<CLASSES>, OpenFault> = Store::open(alloc, &mut disk);
        disk.is_noted();
        match opened {
            Ok(store) => Ok(LentStore { store, disk }),
            Err(fault) => Err(fault),
        }
    }

    /// Makes a store with no names of a file of length 0, and opens it: room for `names` names, 16 to 65,536,
    /// and buffers that are a k-th of their payload segments, `k` from 2 to 64. The log has the calls of
    /// both. The disk fails only where the room is smaller than the head or the log than 260 bytes.
    pub fn format(
        alloc: Global,
        room: Room,
        log: Log,
        k: u64,
        names: u64,
    ) -> Result<LentStore, OpenFault>
        requires ranges { IsSuperBlock (block_for k names) }
        requires empty { room.file ≡ [] }
        ensures made { IfOk result (IsMade k names) }
        ensures refused { IfErr result (NotMade names room.entry log.entry) }
    {
        let mut disk = LentDisk::new(room, log);
        if SlotPair::format(&mut disk, k, names).is_err() {
            // For the prover: a call failed for want of room alone.
            disk.is_noted();
            return Err(OpenFault::Slot(SlotFault::Disk));
        }
        let opened: Result<Store<CLASSES>, OpenFault> = Store::open(alloc, &mut disk);
        disk.is_noted();
        match opened {
            Ok(store) => Ok(LentStore { store, disk }),
            Err(fault) => Err(fault),
        }
    }

    /// Whether a flush is in hand.
    pub fn in_hand(&self) -> bool
        ensures { IsTrue result ↔ IsSome self.now.store.in_hand }
    {
        self.store.in_hand()
    }

    /// The number of bytes in the file.
    pub fn end(&self) -> u64
        ensures { result ≡ length (file_in self.now) }
    {
        self.disk.end() as u64
    }

    /// What the log spells.
    pub fn text(&self) -> &[u8]
        ensures { result.now ≡ self.now.noting.text }
    {
        self.disk.text()
    }

    /// Copies bytes of the file from a position on.
    pub fn copy(&self, at: usize, out: &mut [u8])
        requires { at + length out.old ≤ length (file_in self.now) }
        ensures { out.new ≡ bytes_at (file_in self.now) at (length out.old) }
    {
        self.disk.room().get(at, out);
    }
}
