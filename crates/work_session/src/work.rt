//! The work of a number.
ghost use Rattle.std.specs.Prelude.{◌≡◌, ◌≤◌, ◌+◌, Err, IfOk, IsTrue};
ghost use Rattle.disk_face.specs.Writes.{KeepsDisk};
ghost use Rattle.store_model.specs.{Connection.{IsConnected}, Opened.{IsFresh}};
ghost use Rattle.work_maker.specs.Jobs.{jobs};
ghost use Rattle.work_session.specs.{Servers.{HasServed, MayServe, words_of}, Works.{HasStopped}};

use crate::jobs::do_jobs;
use crate::pattern::counting;
use crate::summary::sum_up;
use crate::{Server, Summary};
use disk_face::{Disk, DiskFault};
use slot_codec::NoMemory;
use std::alloc::Global;
use work_maker::Work;

/// Why a work wasn't done.
#[derive(Clone, Copy, Debug, PartialEq, Eq)]
pub enum WorkFault {
    /// The disk failed in a job. Those before it were done.
    Disk,
    /// There is no memory for the bytes of objects. No job was begun.
    NoMemory,
}

/// Does the jobs of a number by a store that was opened, or by one behind a cache that is empty: `count` of
/// them, from 1 to 1,000,000, of so many names as the store's file is for, and a checkpoint; and sums up
/// what they came to. What gets give is dropped. After the bytes of objects are made, which are 8,447, no
/// job wants memory.
pub fn do_work<S: Server<C>, const C: usize, D: Disk>(
    alloc: Global,
    server: &mut S,
    disk: &mut D,
    number: u64,
    count: u64,
    names: u64,
) -> Result<Summary, WorkFault>
    requires serves { MayServe (words_of S.store S.knows S.becomes C) server.old (D.state disk.old) }
    requires names { names ≡ (S.store server.old).in_use.block.names }
    requires counts { (1 ≤ count) × (count ≤ 1000000) }
    ensures done { IfOk result (HasServed (words_of S.store S.knows S.becomes C) server.old server.new
        (jobs number count (S.store server.old).in_use.block.names) (D.state disk.old)
        (D.state disk.new)) }
    ensures stopped { result ≡ Err WorkFault.Disk → HasStopped C (S.store server.old)
        (jobs number count (S.store server.old).in_use.block.names) (D.state disk.old)
        (D.state disk.new) }
    ensures memory { result ≡ Err WorkFault.NoMemory → disk.new ≡ disk.old }
    ensures frame { KeepsDisk (D.state disk.old) (D.state disk.new) }
    ensures later { (D.state disk.old).faults ≤ (D.state disk.new).faults }
{
    let Ok(pattern) = counting(alloc) else {
        return Err(WorkFault::NoMemory);
    };
    let mut work = Work::new(number, count, names);
    match do_jobs(server, disk, pattern.as_slice(), &mut work) {
        Ok(tally) => Ok(sum_up(server, count + 1, tally)),
        Err(DiskFault) => Err(WorkFault::Disk),
    }
}
