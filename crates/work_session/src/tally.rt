//! Counting what jobs were answered.
ghost use Rattle.std.specs.Prelude.{◌≡◌, ◌≤◌, ◌^◌, ◌+◌};
ghost use Rattle.work_session.specs.Jobs.{most_read, no_tally, read_head, tally_with};

use ask_text::Reply;

/// How many jobs were done without a checkpoint and with one, how many bytes gets gave, and how many
/// jobs were refused.
#[derive(Clone, Copy)]
pub(crate) struct Tally {
    pub ok: u64,
    pub kept: u64,
    pub read: u64,
    pub refused: u64,
}

impl Tally {
    /// Of no job.
    pub fn none() -> Tally
        ensures { result ≡ no_tally }
    {
        Tally {
            ok: 0,
            kept: 0,
            read: 0,
            refused: 0,
        }
    }

    /// Counts one more job, which was answered with a reply that begins so.
    pub fn add(&mut self, reply: &Reply)
        requires few { self.old.ok + self.old.kept + self.old.refused ≤ 2 ^ 20 }
        requires read { self.old.read ≤ 2 ^ 60 }
        requires small { read_head reply.now ≤ most_read }
        ensures { self.new ≡ tally_with self.old reply.now }
    {
        match reply {
            Reply::Ok => self.ok += 1,
            Reply::Kept => self.kept += 1,
            Reply::Data { size } => self.read += *size,
            Reply::Refused(_) => self.refused += 1,
            // A job is no list and no count.
            _ => {}
        }
    }
}
