//! The commands `work` and `cached`: the jobs of a number over a file, and their summary.
ghost use Rattle.std.specs.Prelude.{◌≡◌, ◌≤◌, false, None, Some, Ok, IfSome, IsTrue};
ghost use Rattle.size_class.specs.declared.TheConstants.{CLASSES};
ghost use Rattle.store_model.specs.{Connection.{IsConnected}, Opened.{IsFresh, IsOpening}};
ghost use Rattle.command_face.specs.{Mounting.{IsMounted}, Refusing.{IsRefused}, Outcomes.{Ends}};
ghost use Rattle.work_command.specs.{Asked.{jobs_numbered}, Steps.{OpenWorkSteps, WorkSteps}, Working.{CachedAlways, CachedPromise, JobsAlways, JobsPromise, WorkAlways, WorkPromise}};
ghost use Rattle.served_file.specs.Unserved.{NeverServed};
ghost use Rattle.disk_face.specs.Devices.{devices};

use crate::summary::{cached_text, summary_text};
use command_face::{
    DISK_FAILED, NO_FILE, Outcome, StopReason, finish, mount_there, put_whole, stop_of,
};
use disk_face::{Bay, Disk, Sink};
use read_cache::Cached;
use size_class::CLASSES;
use std::alloc::Global;
use store_core::Store;
use work_session::{WorkFault, do_work};

/// `work FILE NUMBER COUNT`: does the jobs of a number, and puts their summary, or the fault line alone.
#[inline(never)]
pub fn work_file<B: Bay, O: Sink>(
    alloc: Global,
    bay: &mut B,
    file: &str,
    number: u64,
    count: u64,
    output: &mut O,
) -> Outcome
    requires none { (B.state bay.old).last_mount ≡ None }
    requires least { 1 ≤ count }
    requires most { count ≤ 1000000 }
    ensures works { IsTrue (B.state bay.old).tells → WorkPromise number count result.status
        (devices (B.state bay.old) (O.state output.old)) (devices (B.state bay.new) (O.state output.new)) }
    ensures refused { IsTrue (B.state bay.old).tells → NeverServed (B.state bay.old).file
        → Ends (IsRefused (B.state bay.old).file) result.status (O.state output.old)
        (O.state output.new) }
    ensures mounted { IsMounted file.now false (B.state bay.new).last_mount (result.status ≡ DISK_FAILED)
        (result.status ≡ NO_FILE) }
    ensures keeps { WorkAlways count result.status (devices (B.state bay.old) (O.state output.old))
        (devices (B.state bay.new) (O.state output.new)) }
    ensures numbers { (result.done ≡ 0) × (result.kept_done ≡ 0) × (result.kept_turn ≡ 0) }
{
    jobs_over(alloc, bay, file, number, count, None, output)
}

/// `cached FILE NUMBER COUNT ENTRIES`: does the jobs of a number through a cache of at most so many objects,
/// 1 to 4,096, and puts their summary and what the cache counted, or the fault line alone.
#[inline(never)]
pub fn cached_file<B: Bay, O: Sink>(
    alloc: Global,
    bay: &mut B,
    file: &str,
    number: u64,
    count: u64,
    entries: u64,
    output: &mut O,
) -> Outcome
    requires none { (B.state bay.old).last_mount ≡ None }
    requires least { 1 ≤ count }
    requires most { count ≤ 1000000 }
    requires some { 1 ≤ entries }
    requires few { entries ≤ 4096 }
    ensures works { IsTrue (B.state bay.old).tells → CachedPromise number count entries result.status
        (devices (B.state bay.old) (O.state output.old)) (devices (B.state bay.new) (O.state output.new)) }
    ensures refused { IsTrue (B.state bay.old).tells → NeverServed (B.state bay.old).file
        → Ends (IsRefused (B.state bay.old).file) result.status (O.state output.old)
        (O.state output.new) }
    ensures mounted { IsMounted file.now false (B.state bay.new).last_mount (result.status ≡ DISK_FAILED)
        (result.status ≡ NO_FILE) }
    ensures keeps { CachedAlways count entries result.status
        (devices (B.state bay.old) (O.state output.old)) (devices (B.state bay.new) (O.state output.new)) }
    ensures numbers { (result.done ≡ 0) × (result.kept_done ≡ 0) × (result.kept_turn ≡ 0) }
{
    jobs_over(alloc, bay, file, number, count, Some(entries), output)
}

/// Does the jobs of a number, through a cache where there are entries for one, and puts what is told of them.
fn jobs_over<B: Bay, O: Sink>(
    alloc: Global,
    bay: &mut B,
    file: &str,
    number: u64,
    count: u64,
    entries: Option<u64>,
    output: &mut O,
) -> Outcome
    requires none { (B.state bay.old).last_mount ≡ None }
    requires least { 1 ≤ count }
    requires most { count ≤ 1000000 }
    requires entries { IfSome entries (λ n. (1 ≤ n) × (n ≤ 4096)) }
    ensures works { IsTrue (B.state bay.old).tells → JobsPromise (jobs_numbered number count entries)
        result.status (devices (B.state bay.old) (O.state output.old))
        (devices (B.state bay.new) (O.state output.new)) }
    ensures refused { IsTrue (B.state bay.old).tells → NeverServed (B.state bay.old).file
        → Ends (IsRefused (B.state bay.old).file) result.status (O.state output.old)
        (O.state output.new) }
    ensures mounted { IsMounted file.now false (B.state bay.new).last_mount (result.status ≡ DISK_FAILED)
        (result.status ≡ NO_FILE) }
    ensures keeps { JobsAlways count entries result.status
        (devices (B.state bay.old) (O.state output.old)) (devices (B.state bay.new) (O.state output.new)) }
    ensures numbers { (result.done ≡ 0) × (result.kept_done ≡ 0) × (result.kept_turn ≡ 0) }
{
    let end = work_over(alloc, bay, file, number, count, entries, output);
    finish(end, output)
}

/// Mounts the file, opens it, does the jobs, and puts what is told of them.
fn work_over<B: Bay, O: Sink>(
    alloc: Global,
    bay: &mut B,
    file: &str,
    number: u64,
    count: u64,
    entries: Option<u64>,
    output: &mut O,
) -> Result<(), StopReason>
    requires none { (B.state bay.old).last_mount ≡ None }
    requires least { 1 ≤ count }
    requires most { count ≤ 1000000 }
    requires entries { IfSome entries (λ n. (1 ≤ n) × (n ≤ 4096)) }
    ensures { WorkSteps B.state file.now (jobs_numbered number count entries)
        (devices (B.state bay.old) (O.state output.old))
        (devices (B.state bay.new) (O.state output.new)) result }
{
    match mount_there(bay, file) {
        Ok(()) => work_from(alloc, bay, number, count, entries, output),
        Err(why) => Err(why),
    }
}

/// Opens the file, does the jobs, and puts what is told of them.
fn work_from<D: Disk, O: Sink>(
    alloc: Global,
    disk: &mut D,
    number: u64,
    count: u64,
    entries: Option<u64>,
    output: &mut O,
) -> Result<(), StopReason>
    requires ready { IsTrue (D.state disk.old).is_ready }
    requires least { 1 ≤ count }
    requires most { count ≤ 1000000 }
    requires entries { IfSome entries (λ n. (1 ≤ n) × (n ≤ 4096)) }
    ensures { OpenWorkSteps D.state (jobs_numbered number count entries)
        (devices (D.state disk.old) (O.state output.old))
        (devices (D.state disk.new) (O.state output.new)) result }
{
    match Store::open(alloc, disk) {
        Ok(store) => match entries {
            None => work_store(alloc, store, disk, number, count, output),
            Some(entries) => work_cached(alloc, store, disk, number, count, entries, output),
        },
        Err(fault) => Err(stop_of(fault)),
    }
}

/// Does the jobs by a store that was opened, and puts their summary.
#[inline(never)]
fn work_store<D: Disk, O: Sink>(
    alloc: Global,
    store: Store<CLASSES>,
    disk: &mut D,
    number: u64,
    count: u64,
    output: &mut O,
) -> Result<(), StopReason>
    requires ready { IsTrue (D.state disk.old).is_ready }
    requires over { IsConnected CLASSES store (D.state disk.old) }
    requires fresh { IsFresh CLASSES store }
    requires least { 1 ≤ count }
    requires most { count ≤ 1000000 }
    ensures { (first : D) → IsOpening CLASSES (D.state first) (D.state disk.old) (Ok store)
        → OpenWorkSteps D.state (jobs_numbered number count None)
        (devices (D.state first) (O.state output.old)) (devices (D.state disk.new) (O.state output.new))
        result }
{
    let mut store = store;
    let names = store.names();
    match do_work(alloc, &mut store, disk, number, count, names) {
        Ok(summary) => put_whole(output, summary_text(&summary).as_slice()),
        Err(WorkFault::Disk) => Err(StopReason::Disk),
        Err(WorkFault::NoMemory) => Err(StopReason::NoMemory),
    }
}

/// Does the jobs by a store that was opened, through a cache, and puts their summary and the cache's counts.
#[inline(never)]
fn work_cached<D: Disk, O: Sink>(
    alloc: Global,
    store: Store<CLASSES>,
    disk: &mut D,
    number: u64,
    count: u64,
    entries: u64,
    output: &mut O,
) -> Result<(), StopReason>
    requires ready { IsTrue (D.state disk.old).is_ready }
    requires over { IsConnected CLASSES store (D.state disk.old) }
    requires fresh { IsFresh CLASSES store }
    requires least { 1 ≤ count }
    requires most { count ≤ 1000000 }
    requires some { 1 ≤ entries }
    requires few { entries ≤ 4096 }
    ensures { (first : D) → IsOpening CLASSES (D.state first) (D.state disk.old) (Ok store)
        → OpenWorkSteps D.state (jobs_numbered number count (Some entries))
        (devices (D.state first) (O.state output.old)) (devices (D.state disk.new) (O.state output.new))
        result }
{
    let names = store.names();
    let Ok(mut cached) = Cached::new(alloc, store, entries) else {
        return Err(StopReason::NoMemory);
    };
    let summary = match do_work(alloc, &mut cached, disk, number, count, names) {
        Ok(summary) => summary,
        Err(WorkFault::Disk) => return Err(StopReason::Disk),
        Err(WorkFault::NoMemory) => return Err(StopReason::NoMemory),
    };
    put_whole(output, cached_text(&summary, &cached).as_slice())
}
