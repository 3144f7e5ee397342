//! The calls on a file, which clauses alone read.
ghost use Rattle.std.specs.Prelude.{◌≡◌, []};
ghost use Rattle.std.specs.Borrow.{ftrue};
ghost use Rattle.disk_history.specs.{Changes.RecordedCall.{Wrote, Sized, Synced}, Histories.{History, done, fresh, undone}};
ghost use Rattle.lent_disk.specs.Trails.{trail_after};

use std::marker::{Model, PhantomData, Send};

/// A history. It has no bytes.
#[derive(Drop)]
pub struct Trail {
    marker: PhantomData<u8>,
    pub ghost history: { History },
}

impl Model for Trail {
    ghost also_owns = { λ _. ftrue };
}

// It owns nothing, so it may go to another thread.
unsafe impl Send for Trail {}

impl Trail {
    /// The history of an empty file.
    pub fn new() -> Trail
        ensures { result.history ≡ fresh [] }
    {
        Trail {
            marker: PhantomData,
        }
    }

    /// Goes on with what is told, as numbers and bytes.
    fn note(&mut self, _numbers: &[u64], _bytes: &[u8])
        ensures { self.new.history ≡ trail_after _numbers.now _bytes.now self.old.history }
    {}

    /// A call failed.
    pub fn fail(&mut self)
        ensures { self.new.history ≡ undone self.old.history }
    {
        self.note(&[0, 0], &[]);
    }

    /// Bytes were written at a position.
    pub fn write(&mut self, at: u64, bytes: &[u8])
        ensures { self.new.history ≡ done (Wrote at bytes.now) self.old.history }
    {
        self.note(&[1, at], bytes);
    }

    /// The length was set.
    pub fn set_len(&mut self, n: u64)
        ensures { self.new.history ≡ done (Sized n) self.old.history }
    {
        self.note(&[2, n], &[]);
    }

    /// The file was synced.
    pub fn sync(&mut self)
        ensures { self.new.history ≡ done Synced self.old.history }
    {
        self.note(&[3, 0], &[]);
    }
}
