//! Giving each object a digest: what stands now as a checkpoint of version 2.
ghost use Rattle.std.specs.Prelude.{◌≡◌, ◌==◌, ◌<◌, ◌≤◌, ◌^◌, ◌||◌, false, IsSome, IsTrue, None};
ghost use Rattle.std.specs.FinMap as fin;

use crate::keep::keep_spots;
use crate::renew::renew_all;
use crate::{Done, Refusal, Store};
use disk_face::Disk;
use flush_run::settled_header;
use slot_codec::cap;

/// The version of tables whose records have a digest.
const DIGESTED: u8 = 2;

impl<const C: usize> Store<C> {
    ghost use Rattle.store_model.specs.{Answers.{is_disk_fault}, Changes.{NothingChanged}, Upgrades.{AnswersUpgrade, Upgrades, idle_answer}};
    ghost use Rattle.store_model.specs.Connection.{IsConnected};
    ghost use Rattle.segment_layout.specs.Books.{version_of};
    ghost use Rattle.slot_codec.specs.Spelling.{cap as cap_of};

    /// Gives each object that stands now the digest of its bytes, which it reads, and saves a checkpoint
    /// of version 2 of them, to which the store goes back from then on. A store of version 2 is left as
    /// it is. It is refused as broken, as having more names than a table of version 2 has records
    /// (`TooMany`), and as worn, in this order. After a fault of the disk, also of a read, the store is
    /// broken, and the file opens to the last checkpoint or to what stands now with its digests.
    pub fn upgrade<D: Disk>(&mut self, disk: &mut D) -> Result<Done, Refusal>
        requires ready { IsTrue (D.state disk.old).is_ready }
        requires over { IsConnected C self.old (D.state disk.old) }
        ensures answer { AnswersUpgrade (idle_answer self.old) result }
        ensures idle { IsSome (idle_answer self.old)
            → NothingChanged self.old self.new (D.state disk.old) (D.state disk.new) }
        ensures upgrades { idle_answer self.old ≡ None
            → Upgrades C self.old self.new (D.state disk.old) (D.state disk.new) result }
        ensures over { IsConnected C self.new (D.state disk.new) }
        ensures broken { self.new.is_broken ≡ (self.old.is_broken || is_disk_fault result) }
    {
        if self.is_broken() {
            return Err(Refusal::Broken);
        }
        if self.hands.version == DIGESTED {
            return Ok(Done { kept: false });
        }
        if self.hands.table.count() > cap(self.names(), DIGESTED) {
            return Err(Refusal::TooMany);
        }
        if self.is_worn() {
            return Err(Refusal::Worn);
        }
        self.upgrade_now(disk)
    }

    /// The same of a store that isn't refused.
    fn upgrade_now<D: Disk>(&mut self, disk: &mut D) -> Result<Done, Refusal>
        requires ready { IsTrue (D.state disk.old).is_ready }
        requires over { IsConnected C self.old (D.state disk.old) }
        requires whole { self.old.is_broken ≡ false }
        requires plain { (version_of self.old.book == 2) ≡ false }
        requires few { fin.len self.old.now ≤ cap_of self.old.in_use.block.names 2 }
        requires fresh { self.old.in_use.sequence < 2 ^ 61 }
        ensures answer { AnswersUpgrade None result }
        ensures upgrades { Upgrades C self.old self.new (D.state disk.old) (D.state disk.new) result }
        ensures over { IsConnected C self.new (D.state disk.new) }
        ensures broken { self.new.is_broken ≡ is_disk_fault result }
    {
        let hands = &mut *self.hands;
        if renew_all(disk, hands.base, &mut hands.table, &mut hands.buf).is_err() {
            self.broken = true;
            return Err(Refusal::Disk);
        }
        let next = settled_header(&hands.layout, DIGESTED);
        match hands.slots.save(disk, &next, &hands.table, &mut hands.buf) {
            Ok(_) => {
                keep_spots(&mut hands.table, &mut hands.guard);
                let room = cap(hands.slots.block().names, DIGESTED);
                hands.table.narrow(room);
                hands.version = DIGESTED;
                *self.kept_layout = hands.layout;
                Ok(Done { kept: true })
            }
            Err(_) => {
                self.broken = true;
                Err(Refusal::Disk)
            }
        }
    }
}
