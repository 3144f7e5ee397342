//! A run of a session: one turn after another.
ghost use Rattle.std.specs.Prelude.{◌≡◌, ◌≤◌, false, None};
ghost use Rattle.disk_face.specs.Counts.{last};
ghost use Rattle.store_model.specs.Stores.{IsStore};
ghost use Rattle.ask_session.specs.Outside.{held, seen_by};
ghost use Rattle.ask_session.specs.{Ready.{MayGoOn}, Runs.{EndsRun}};

use crate::Session;
use ask_text::{End, Turn};
use disk_face::{Disk, Sink, Source};

/// How many requests one run answers at most.
const BUDGET: u64 = 1 << 32;

impl<const C: usize> Session<C> {
    /// Reads requests, serves them, and puts their replies, until the session ends or as many were
    /// answered as one run may, which are 2^32.
    pub fn run<D: Disk, I: Source, O: Sink>(
        &mut self,
        disk: &mut D,
        input: &mut I,
        output: &mut O,
    ) -> End
        requires { MayGoOn C self.old (D.state disk.old) }
        ensures { EndsRun (seen_by D.state I.state O.state) C self.old self.new
            (held disk.old input.old output.old) (held disk.new input.new output.new) result }
    {
        self.is_sound();
        let mut n = 0;
        'turns: while n < BUDGET {
            match self.one(disk, input, output) {
                Turn::Answered => {}
                Turn::Ended(end) => return end,
            }
            n += 1;
        }
        End::Budget
    }

    /// What holds of each session, and of its store while that isn't broken.
    fn is_sound(&self)
        requires idle { self.now.store.in_hand ≡ None }
        ensures store { self.now.store.is_broken ≡ false → IsStore C self.now.store }
        ensures count { self.now.done ≤ last }
    {
        let _ = self.done();
        let _ = self.store.is_broken();
    }
}
