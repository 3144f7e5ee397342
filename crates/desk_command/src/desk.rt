//! The command `desk`: eight sessions at one desk over a file, by the script of the input.
ghost use Rattle.std.specs.Prelude.{◌≡◌, false, None, IsTrue};
ghost use Rattle.disk_face.specs.Devices.{devices};
ghost use Rattle.size_class.specs.declared.TheConstants.{CLASSES};
ghost use Rattle.store_model.specs.{Connection.{IsConnected}, Stores.{IsStore}};
ghost use Rattle.command_face.specs.{Mounting.{IsMounted}, Outcomes.{Ends}, Refusing.{IsRefused}};
ghost use Rattle.served_file.specs.{Ends.{end_of}, Steps.{FileSteps, OpenSteps}, Unserved.{NeverServed}};
ghost use Rattle.desk_command.specs.{Desking.{DeskAlways, DeskReads, KeepsSource}, Doing.{IsDesking}, Promise.{DeskPromise}};

use command_face::{DISK_FAILED, NO_FILE, Outcome, StopReason, finish, mount_there, stop_of};
use desk_core::{Desk, End};
use disk_face::{Bay, Disk, Sink, Source};
use served_file::end_of;
use size_class::CLASSES;
use std::alloc::Global;
use store_core::Store;

/// `desk FILE`: does the events of the input's script at a desk of eight sessions, and puts the answer of
/// each. At the end of the input a flush in hand is finished, its reply is put, and then how many requests
/// wait. Status 2 tells the number of the first event that is none, 11 that 2^32 events were answered, 8 and
/// 9 that the input or the output failed; 3, 4, 7 and 10 tell that there is no file, no store, a disk that
/// failed, or too little memory.
#[inline(never)]
pub fn desk_file<B: Bay, I: Source, O: Sink>(
    alloc: Global,
    bay: &mut B,
    file: &str,
    input: &mut I,
    output: &mut O,
) -> Outcome
    requires none { (B.state bay.old).last_mount ≡ None }
    ensures desks { IsTrue (B.state bay.old).tells → IsTrue (I.state input.old).tells
        → DeskPromise (I.state input.old).left result.status (devices (B.state bay.old) (O.state output.old))
        (devices (B.state bay.new) (O.state output.new)) }
    ensures refused { IsTrue (B.state bay.old).tells → NeverServed (B.state bay.old).file
        → Ends (IsRefused (B.state bay.old).file) result.status (O.state output.old)
        (O.state output.new) }
    ensures mounted { IsMounted file.now false (B.state bay.new).last_mount (result.status ≡ DISK_FAILED)
        (result.status ≡ NO_FILE) }
    ensures keeps { DeskAlways result.status (devices (B.state bay.old) (O.state output.old))
        (devices (B.state bay.new) (O.state output.new)) }
    ensures reads { DeskReads result.status (I.state input.old) (I.state input.new) (input.new ≡ input.old) }
    ensures numbers { (result.done ≡ 0) × (result.kept_done ≡ 0) × (result.kept_turn ≡ 0) }
{
    let end = desk_over(alloc, bay, file, input, output);
    finish(end, output)
}

/// Mounts the file, opens it and does the script.
fn desk_over<B: Bay, I: Source, O: Sink>(
    alloc: Global,
    bay: &mut B,
    file: &str,
    input: &mut I,
    output: &mut O,
) -> Result<(), StopReason>
    requires none { (B.state bay.old).last_mount ≡ None }
    ensures steps { FileSteps B.state file.now (IsDesking (I.state input.old) (I.state input.new))
        (devices (B.state bay.old) (O.state output.old)) (devices (B.state bay.new) (O.state output.new))
        result }
    ensures source { KeepsSource (I.state input.old) (I.state input.new) (input.new ≡ input.old) result }
{
    match mount_there(bay, file) {
        Ok(()) => desk_from(alloc, bay, input, output),
        Err(why) => Err(why),
    }
}

/// Opens the file and does the script.
fn desk_from<D: Disk, I: Source, O: Sink>(
    alloc: Global,
    disk: &mut D,
    input: &mut I,
    output: &mut O,
) -> Result<(), StopReason>
    requires ready { IsTrue (D.state disk.old).is_ready }
    ensures steps { OpenSteps D.state (IsDesking (I.state input.old) (I.state input.new))
        (devices (D.state disk.old) (O.state output.old)) (devices (D.state disk.new) (O.state output.new))
        result }
    ensures source { KeepsSource (I.state input.old) (I.state input.new) (input.new ≡ input.old) result }
{
    match Store::open(alloc, disk) {
        Ok(store) => desk_store(alloc, store, disk, input, output),
        Err(fault) => Err(stop_of(fault)),
    }
}

/// Does the script at a desk of a store that isn't broken.
#[inline(never)]
fn desk_store<D: Disk, I: Source, O: Sink>(
    alloc: Global,
    store: Store<CLASSES>,
    disk: &mut D,
    input: &mut I,
    output: &mut O,
) -> Result<(), StopReason>
    requires ready { IsTrue (D.state disk.old).is_ready }
    requires over { IsConnected CLASSES store (D.state disk.old) }
    requires whole { store.is_broken ≡ false }
    ensures steps { IsDesking (I.state input.old) (I.state input.new) store
        (devices (D.state disk.old) (O.state output.old)) (devices (D.state disk.new) (O.state output.new))
        result }
    ensures source { KeepsSource (I.state input.old) (I.state input.new) (input.new ≡ input.old) result }
{
    match Desk::new(alloc, store) {
        Ok(mut desk) => {
            let end = desk.run(disk, input, output);
            ended_as(end, desk)
        }
        Err(_) => Err(StopReason::NoMemory),
    }
}

/// How the command ends where a desk ended so, which isn't used any more.
fn ended_as(end: End, desk: Desk<CLASSES>) -> Result<(), StopReason>
    ensures ended { result ≡ end_of end desk.events }
    ensures sound { desk.store.is_broken ≡ false → desk.store.in_hand ≡ None
        → IsStore CLASSES desk.store }
{
    let answered = desk.events();
    let store = desk.into_store();
    store.is_broken();
    end_of(end, answered)
}
