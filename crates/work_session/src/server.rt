//! What does jobs.
ghost use Rattle.std.specs.Prelude.{◌≡◌, ◌≤◌, ◌^◌, ◌<◌, ℕ, List, false, None, IsTrue, length};
ghost use Rattle.std.specs.FinMap as fin;
ghost use Rattle.disk_face.specs.States.{State};
ghost use Rattle.size_class.specs.Rows.{cells_of};
ghost use Rattle.map_model.specs.Requests as ask;
ghost use Rattle.extent_table.specs.Extents.{volume_of};
ghost use Rattle.segment_layout.specs.Books.{book_end};
ghost use Rattle.store_model.specs.{Connection.{IsConnected, StoreValue}, Quiet.{del_of, put_of}, Stores.{IsStore}};
ghost use Rattle.work_session.specs.Servers.{ServesJob, words_of};

use ask_text::{End, Reply};
use data_area::Ledger;
use disk_face::Disk;

/// What does jobs: a store, or a store behind a cache. Each call that does one tells how the reply to it
/// begins, or that the disk failed.
pub trait Server<const C: usize> {
    /// The store that does them.
    ghost store: { Self → StoreValue };

    /// What is known of it and of its disk between two jobs.
    ghost knows: { Self → State → Type 0 };

    /// What it becomes by a request that was answered so.
    ghost becomes: { Self → ask.Request → ask.Reply → Self → Type 0 };

    /// Puts an object of at most 8,192 bytes.
    fn put_object<D: Disk>(
        &mut self,
        disk: &mut D,
        name: &[u8],
        object: &[u8],
    ) -> Result<Reply, End>
        requires ready { IsTrue (D.state disk.old).is_ready }
        requires over { IsConnected C (store self.old) (D.state disk.old) }
        requires whole { (store self.old).is_broken ≡ false }
        requires sound { IsStore C (store self.old) }
        requires knows { knows self.old (D.state disk.old) }
        requires short { length object.now ≤ 8192 }
        ensures { ServesJob (words_of store knows becomes C) (ask.change (put_of name.now object.now))
            self.old self.new (D.state disk.old) (D.state disk.new) result };

    /// Removes a name.
    fn remove<D: Disk>(&mut self, disk: &mut D, name: &[u8]) -> Result<Reply, End>
        requires ready { IsTrue (D.state disk.old).is_ready }
        requires over { IsConnected C (store self.old) (D.state disk.old) }
        requires whole { (store self.old).is_broken ≡ false }
        requires sound { IsStore C (store self.old) }
        requires knows { knows self.old (D.state disk.old) }
        ensures { ServesJob (words_of store knows becomes C) (ask.change (del_of name.now)) self.old self.new
            (D.state disk.old) (D.state disk.new) result };

    /// Reads an object, and drops its bytes.
    fn read_object<D: Disk>(&mut self, disk: &mut D, name: &[u8]) -> Result<Reply, End>
        requires ready { IsTrue (D.state disk.old).is_ready }
        requires over { IsConnected C (store self.old) (D.state disk.old) }
        requires whole { (store self.old).is_broken ≡ false }
        requires sound { IsStore C (store self.old) }
        requires knows { knows self.old (D.state disk.old) }
        ensures { ServesJob (words_of store knows becomes C) (ask.get name.now) self.old self.new
            (D.state disk.old) (D.state disk.new) result };

    /// Saves a checkpoint.
    fn save<D: Disk>(&mut self, disk: &mut D) -> Result<Reply, End>
        requires ready { IsTrue (D.state disk.old).is_ready }
        requires over { IsConnected C (store self.old) (D.state disk.old) }
        requires whole { (store self.old).is_broken ≡ false }
        requires sound { IsStore C (store self.old) }
        requires knows { knows self.old (D.state disk.old) }
        ensures { ServesJob (words_of store knows becomes C) ask.keep self.old self.new (D.state disk.old)
            (D.state disk.new) result };

    /// How many names there are in the store, and how many bytes their objects have.
    fn names_and_bytes(&self) -> (u64, u64)
        requires whole { (store self.now).is_broken ≡ false }
        requires idle { (store self.now).in_hand ≡ None }
        ensures names { result.0 ≡ fin.len (store self.now).now }
        ensures bytes { result.1 ≡ volume_of (store self.now).now };

    /// How many bytes the data part has.
    fn length(&self) -> u64
        ensures { result ≡ book_end (store self.now).in_use.block.k (store self.now).book };

    /// The bytes moved, and those asked for, since the store was opened.
    fn ledger_now(&self) -> Ledger<C>
        ensures moved { cells_of result.moved ≡ (store self.now).moved }
        ensures asked { cells_of result.asked ≡ (store self.now).asked };
}
