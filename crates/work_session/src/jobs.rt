//! Jobs, done one after another.
ghost use Rattle.std.specs.Prelude.{◌≡◌, ◌≤◌, ◌^◌, [], false, IfOk, IsTrue, OnErr, length};
ghost use Rattle.store_model.specs.{Connection.{IsConnected}, Opened.{IsFresh}};
ghost use Rattle.work_maker.specs.Making.{jobs_left};
ghost use Rattle.work_session.specs.{Jobs.{IsPattern}, Servers.{IsServing, words_of}, Works.{HasStopped}};

use crate::Server;
use crate::job::do_job;
use crate::tally::Tally;
use disk_face::{Disk, DiskFault};
use work_maker::Work;

/// Does the jobs that are left, and counts their replies.
pub(crate) fn do_jobs<S: Server<C>, const C: usize, D: Disk>(
    server: &mut S,
    disk: &mut D,
    pattern: &[u8],
    work: &mut Work,
) -> Result<Tally, DiskFault>
    requires ready { IsTrue (D.state disk.old).is_ready }
    requires over { IsConnected C (S.store server.old) (D.state disk.old) }
    requires fresh { IsFresh C (S.store server.old) }
    requires knows { S.knows server.old (D.state disk.old) }
    requires pattern { IsPattern pattern.now }
    requires few { length (jobs_left work.old) ≤ 1000001 }
    ensures done { IfOk result (λ tally. IsServing (words_of S.store S.knows S.becomes C) server.old
        server.new (jobs_left work.old) [] (D.state disk.old) (D.state disk.new) tally) }
    ensures stopped { OnErr result (HasStopped C (S.store server.old) (jobs_left work.old) (D.state disk.old)
        (D.state disk.new)) }
{
    let mut tally = Tally::none();
    'jobs: while let Some(job) = work.next() {
        match do_job(server, disk, pattern, &job) {
            Ok(reply) => tally.add(&reply),
            Err(_) => return Err(DiskFault),
        }
    }
    Ok(tally)
}
