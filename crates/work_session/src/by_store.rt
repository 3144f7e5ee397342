//! Jobs that are done by a store.
ghost use Rattle.std.specs.Prelude.{◌≡◌, ◌≤◌, ◌^◌, ◌<◌, ℕ, List, false, None, IsTrue, length};
ghost use Rattle.std.specs.FinMap as fin;
ghost use Rattle.disk_face.specs.States.{State};
ghost use Rattle.size_class.specs.Rows.{cells_of};
ghost use Rattle.map_model.specs.Requests as ask;
ghost use Rattle.extent_table.specs.Extents.{volume_of};
ghost use Rattle.segment_layout.specs.Books.{book_end};
ghost use Rattle.store_model.specs.{Connection.{IsConnected, StoreValue}, Quiet.{del_of, put_of}, Stores.{IsStore}};
ghost use Rattle.work_session.specs.Servers.{ServesJob};

use crate::Server;
use crate::sink::Dropped;
use ask_session::{answer_change, answer_of};
use ask_text::{End, Reply};
use data_area::Ledger;
use disk_face::Disk;
use store_core::Store;

impl<const C: usize> Server<C> for Store<C> {
    ghost store = { λ s. s };

    ghost knows = { λ s d. Unit {0} };

    ghost becomes = { λ s r reply t. Unit {0} };

    fn put_object<D: Disk>(
        &mut self,
        disk: &mut D,
        name: &[u8],
        object: &[u8],
    ) -> Result<Reply, End> {
        let answer = self.put(disk, name, object);
        is_sound(self);
        answer_change(answer)
    }

    fn remove<D: Disk>(&mut self, disk: &mut D, name: &[u8]) -> Result<Reply, End> {
        let answer = self.del(disk, name);
        is_sound(self);
        answer_change(answer)
    }

    fn read_object<D: Disk>(&mut self, disk: &mut D, name: &[u8]) -> Result<Reply, End> {
        match self.get(disk, name, &mut Dropped) {
            Ok(size) => Ok(Reply::Data { size }),
            Err(why) => answer_of(why),
        }
    }

    fn save<D: Disk>(&mut self, disk: &mut D) -> Result<Reply, End> {
        let answer = self.keep(disk);
        is_sound(self);
        answer_change(answer)
    }

    fn names_and_bytes(&self) -> (u64, u64) {
        match self.stat() {
            Ok(stat) => (stat.names, stat.bytes),
            // The store isn't broken.
            Err(_) => unreachable!(),
        }
    }

    fn length(&self) -> u64 {
        self.gauge().length
    }

    fn ledger_now(&self) -> Ledger<C> {
        self.ledger()
    }
}

/// What holds of each store.
fn is_sound<const C: usize>(store: &Store<C>)
    requires idle { store.now.in_hand ≡ None }
    ensures { store.now.is_broken ≡ false → IsStore C store.now }
{
    let _ = store.is_broken();
}
