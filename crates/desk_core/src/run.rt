//! A run of a desk: one event after another.
ghost use Rattle.std.specs.Prelude.{◌≤◌};
ghost use Rattle.disk_face.specs.Counts.{last};
ghost use Rattle.ask_session.specs.Outside.{held, seen_by};
ghost use Rattle.desk_core.specs.{Ready.{MayGoOn}, Runs.{EndsDesk}};

use crate::Desk;
use ask_text::{End, Turn};
use disk_face::{Disk, Sink, Source};

/// How many events one run answers at most.
const BUDGET: u64 = 1 << 32;

impl<const C: usize> Desk<C> {
    /// Does events until the desk ends or as many were answered as one run may, which are 2^32.
    pub fn run<D: Disk, I: Source, O: Sink>(
        &mut self,
        disk: &mut D,
        input: &mut I,
        output: &mut O,
    ) -> End
        requires { MayGoOn C self.old (D.state disk.old) }
        ensures { EndsDesk (seen_by D.state I.state O.state) C self.old self.new
            (held disk.old input.old output.old) (held disk.new input.new output.new) result }
    {
        self.counts();
        let mut n = 0;
        'turns: while n < BUDGET {
            match self.one(disk, input, output) {
                Turn::Answered => {}
                Turn::Ended(end) => {
                    self.sound();
                    return end;
                }
            }
            n += 1;
        }
        self.sound();
        End::Budget
    }

    /// What holds of each desk.
    fn counts(&self)
        ensures { self.now.events ≤ last }
    {
        let _ = self.events();
    }
}
