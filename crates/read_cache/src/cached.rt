//! A store behind a cache.
ghost use Rattle.std.specs.Prelude.{◌≡◌, ◌≤◌, ◌↔◌, [], false, true, Err, IfErr, IfOk, IsErr, IsSome, IsTrue, None, OnErr};
ghost use Rattle.std.specs.FinMap as fin;
ghost use Rattle.disk_face.specs.Devices.{devices};
ghost use Rattle.size_class.specs.Rows.{cells_of};
ghost use Rattle.map_model.specs.Requests as ask;
ghost use Rattle.extent_table.specs.Extents.{volume_of};
ghost use Rattle.segment_layout.specs.Books.{book_end};
ghost use Rattle.store_model.specs.Readings.{IsRead};
ghost use Rattle.store_model.specs.{Connection.{IsConnected, state_of}, States.{object_in}, Stores.{IsStore}};
ghost use Rattle.read_cache.specs.{Coherence.{IsCoherent}, Gets.{ListsGet, size_got}, Lists.{empty_listing, listed}};

use crate::Got;
use crate::get::get_there;
use crate::recent::Recent;
use data_area::Ledger;
use disk_face::{Disk, Sink};
use slot_codec::{Name, NoMemory};
use std::alloc::Global;
use std::marker::Model;
use std::num::NonZeroUsize;
use store_core::{Gauge, Refusal, Stat, Store};

/// A store, and the small objects that were read last, which it doesn't read again. Contracts see it as
/// a `CacheValue`.
#[derive(Drop)]
pub struct Cached<const C: usize> {
    pub(crate) store: Store<C>,
    pub(crate) recent: Recent,
}

impl<const C: usize> Model for Cached<C> {
    ghost use Rattle.read_cache.specs.{CacheValues.{CacheValue}, Codes.{cache_code}};

    ghost Value = { CacheValue };

    ghost coded = { cache_code };

    ghost use Rattle.read_cache.specs.Inside.{IsIdleIn, cache_of};

    ghost view = { cache_of };

    ghost invariant = { IsIdleIn };
}

impl<const C: usize> Cached<C> {
    /// A cache of at most so many objects, 1 to 4,096, which has none yet. Where there is no memory the
    /// store comes back.
    pub fn new(
        alloc: Global,
        store: Store<C>,
        entries: u64,
    ) -> Result<Cached<C>, (Store<C>, NoMemory)>
        requires idle { store.in_hand ≡ None }
        requires some { 1 ≤ entries }
        requires few { entries ≤ 4096 }
        ensures store { IfOk result (λ cached. cached.store ≡ store.entry) }
        ensures list { IfOk result (λ cached. cached.list ≡ empty_listing entries) }
        ensures refused { IfErr result (λ back. back.0 ≡ store.entry) }
    {
        let Some(room) = NonZeroUsize::new(entries as usize) else {
            unreachable!()
        };
        match Recent::new(alloc, room) {
            Ok(recent) => Ok(Cached { store, recent }),
            Err(NoMemory) => Err((store, NoMemory)),
        }
    }

    /// Puts the bytes of an object, as the store does. An object that is listed is put from memory, and
    /// the disk isn't called; one of at most 4,096 bytes that isn't is listed then, where there is memory
    /// for it. Want of memory is no refusal.
    pub fn get<D: Disk, O: Sink>(
        &mut self,
        disk: &mut D,
        name: &[u8],
        sink: &mut O,
    ) -> Result<Got, Refusal>
        requires ready { IsTrue (D.state disk.old).is_ready }
        requires over { IsConnected C self.old.store (D.state disk.old) }
        requires coherent { IsCoherent self.old.store self.old.list.pairs (D.state disk.old) }
        ensures read { IsRead (ask.get name.now) [] self.old.store self.new.store
            (devices (D.state disk.old) (O.state sink.old)) (devices (D.state disk.new) (O.state sink.new))
            (size_got result) }
        ensures list { ListsGet (IsTrue (D.state disk.old).tells) name.now
            (object_in (state_of self.old.store (D.state disk.old).file).map name.now) self.old.list
            self.new.list result }
        ensures no_call { IsSome (listed self.old.list name.now) → disk.new ≡ disk.old }
        ensures coherent { IsCoherent self.new.store self.new.list.pairs (D.state disk.new) }
    {
        self.is_broken();
        match self.store.size(name) {
            Ok(_) => {
                let Some(key) = Name::new(name) else {
                    // What is there has a name.
                    unreachable!()
                };
                get_there(&mut self.store, &mut self.recent, disk, &key, sink)
            }
            Err(refusal) => Err(refusal),
        }
    }

    /// Whether a changing call of the store failed.
    pub fn is_broken(&self) -> bool
        ensures same { result ≡ self.now.store.is_broken }
        ensures sound { result ≡ false → IsStore C self.now.store }
    {
        self.store.is_broken()
    }

    /// How many gets of listed objects there were.
    pub fn hits(&self) -> u64
        ensures { result ≡ self.now.list.hits }
    {
        self.recent.hits()
    }

    /// How many gets there were of objects of at most 4,096 bytes that weren't listed.
    pub fn misses(&self) -> u64
        ensures { result ≡ self.now.list.misses }
    {
        self.recent.misses()
    }

    /// How many misses weren't listed for want of memory.
    pub fn drops(&self) -> u64
        ensures { result ≡ self.now.list.drops }
    {
        self.recent.drops()
    }

    /// How many names and bytes there are, now and at the last checkpoint.
    pub fn stat(&self) -> Result<Stat, Refusal>
        ensures broken { IsErr result ↔ (self.now.store.is_broken ≡ true) }
        ensures refused { OnErr result (result ≡ Err Refusal.Broken) }
        ensures names { IfOk result (λ s. s.names ≡ fin.len self.now.store.now) }
        ensures bytes { IfOk result (λ s. s.bytes ≡ volume_of self.now.store.now) }
        ensures kept_names { IfOk result (λ s. s.kept_names ≡ fin.len self.now.store.kept) }
        ensures kept_bytes { IfOk result (λ s. s.kept_bytes ≡ volume_of self.now.store.kept) }
    {
        self.store.stat()
    }

    /// How long the data part is, and the sequence of the last checkpoint.
    pub fn gauge(&self) -> Gauge
        ensures length { result.length ≡ book_end self.now.store.in_use.block.k self.now.store.book }
        ensures sequence { result.sequence ≡ self.now.store.in_use.sequence }
    {
        self.store.gauge()
    }

    /// The bytes moved, and those put and removed, since the store was opened.
    pub fn ledger(&self) -> Ledger<C>
        ensures moved { cells_of result.moved ≡ self.now.store.moved }
        ensures asked { cells_of result.asked ≡ self.now.store.asked }
    {
        self.store.ledger()
    }

    /// Gives the store back.
    pub fn into_store(self) -> Store<C>
        ensures same { result ≡ self.entry.store }
        ensures idle { result.in_hand ≡ None }
    {
        self.store
    }
}
