//! The history of a file, with the counts of its calls.
ghost use Rattle.std.specs.Prelude.{◌≡◌, ◌≤◌, ◌-◌, ◌^◌};
ghost use Rattle.disk_history.specs.{Changes.RecordedCall.{Wrote, Sized, Synced}, Histories.{done, fresh, undone}};

use crate::room::Room;
use crate::trail::Trail;
use std::marker::Model;
use std::snapshot::Snapshot;

/// The calls on a file since it was lent, and how many changing ones have ended and have failed.
#[derive(Drop)]
pub struct Course {
    lent: Snapshot<Room>,
    trail: Trail,
    turns: u64,
    faults: u64,
}

impl Model for Course {
    ghost use Rattle.std.specs.Prelude.{◌≡◌};
    ghost use Rattle.disk_history.specs.Histories.{History};
    ghost use Rattle.lent_disk.specs.Trails.{history_on};

    ghost Value = { History };

    ghost view = { λ c. history_on c.lent.value.file c.trail.history };

    ghost invariant = { λ c. (c.turns ≡ c.trail.history.turn) × (c.faults ≡ c.trail.history.faults) };
}

impl Course {
    /// Before the first call on a file, which is at rest.
    pub fn at_rest(room: &Room) -> Course
        ensures { result ≡ fresh room.now.file }
    {
        Course {
            lent: Snapshot::of(room),
            trail: Trail::new(),
            turns: 0,
            faults: 0,
        }
    }

    /// How many changing calls have ended.
    pub fn turns(&self) -> u64
        ensures turns { result ≡ self.now.turn }
        ensures few { self.now.turn ≤ 2 ^ 64 - 1 }
    {
        self.turns
    }

    /// Bytes were written at a position.
    pub fn write(&mut self, at: u64, bytes: &[u8])
        ensures { self.new ≡ done (Wrote at bytes.now) self.old }
    {
        self.trail.write(at, bytes);
        self.turns = self.turns.saturating_add(1);
    }

    /// The length was set.
    pub fn set_len(&mut self, n: u64)
        ensures { self.new ≡ done (Sized n) self.old }
    {
        self.trail.set_len(n);
        self.turns = self.turns.saturating_add(1);
    }

    /// The file was synced.
    pub fn sync(&mut self)
        ensures { self.new ≡ done Synced self.old }
    {
        self.trail.sync();
        self.turns = self.turns.saturating_add(1);
    }

    /// A changing call failed.
    pub fn fail(&mut self)
        ensures history { self.new ≡ undone self.old }
        ensures later { self.old.faults ≤ self.new.faults }
    {
        self.trail.fail();
        self.turns = self.turns.saturating_add(1);
        self.faults = self.faults.saturating_add(1);
    }
}
