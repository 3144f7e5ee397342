//! One job.
ghost use Rattle.std.specs.Prelude.{◌≡◌, ◌≤◌, ◌^◌, ◌<◌, ℕ, List, false, None, IsTrue, length};
ghost use Rattle.store_model.specs.{Connection.{IsConnected}, Stores.{IsStore}};
ghost use Rattle.work_maker.specs.{Jobs.{counting_bytes}, Making.{asked_by}};
ghost use Rattle.work_session.specs.{Jobs.{IsPattern, IsShort}, Servers.{ServesJob, words_of}};

use crate::Server;
use ask_text::{End, Reply};
use disk_face::Disk;
use work_maker::Job;

/// Does a job, and tells how the reply to it begins.
pub(crate) fn do_job<S: Server<C>, const C: usize, D: Disk>(
    server: &mut S,
    disk: &mut D,
    pattern: &[u8],
    job: &Job,
) -> Result<Reply, End>
    requires ready { IsTrue (D.state disk.old).is_ready }
    requires over { IsConnected C (S.store server.old) (D.state disk.old) }
    requires whole { (S.store server.old).is_broken ≡ false }
    requires sound { IsStore C (S.store server.old) }
    requires knows { S.knows server.old (D.state disk.old) }
    requires pattern { IsPattern pattern.now }
    requires short { IsShort job.now }
    ensures { ServesJob (words_of S.store S.knows S.becomes C) (asked_by job.now) server.old server.new
        (D.state disk.old) (D.state disk.new) result }
{
    match job {
        Job::Put { name, size, first } => {
            let from = *first as usize;
            let object = &pattern[from..from + *size as usize];
            server.put_object(disk, name.as_bytes(), object)
        }
        Job::Del { name } => server.remove(disk, name.as_bytes()),
        Job::Get { name } => server.read_object(disk, name.as_bytes()),
        Job::Keep => server.save(disk),
    }
}
