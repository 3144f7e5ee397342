//! The command `run`: a session over a file.
ghost use Rattle.std.specs.Prelude.{◌≡◌, ◌⊎◌, false, true, None, Ok, IsTrue};
ghost use Rattle.size_class.specs.declared.TheConstants.{CLASSES};
ghost use Rattle.store_model.specs.{Connection.{IsConnected}, Opened.{IsOpening}, Stores.{IsStore}};
ghost use Rattle.ask_session.specs.Outside.{held, seen_by};
ghost use Rattle.command_face.specs.{Mounting.{IsMounted}, Refusing.{IsRefused}, Outcomes.{Ends}};
ghost use Rattle.served_file.specs.Unserved.{NeverServed};
ghost use Rattle.run_command.specs.{Headline.{RunPromise, is_session}, Sessions.{RunAlways, OpenRunSteps, RunSteps, ended_as, unserved}};
ghost use Rattle.disk_face.specs.Devices.{devices};

use ask_session::{End, Session};
use command_face::{
    DISK_FAILED, NO_FILE, NO_STORE, Outcome, StopReason, finish, mount_there, stop_of,
};
use disk_face::{Bay, Disk, Sink, Source};
use served_file::end_of;
use size_class::CLASSES;
use std::alloc::Global;
use store_core::Store;

/// How a command ended that serves requests, but for the fault line, and its three numbers.
#[derive(Clone, Copy)]
pub struct SessionEnd {
    pub end: Result<(), StopReason>,
    pub done: u64,
    pub kept_done: u64,
    pub kept_turn: u64,
}

/// `run FILE`: serves the requests of the input, and puts the fault line last.
#[inline(never)]
pub fn run_file<B: Bay, I: Source, O: Sink>(
    alloc: Global,
    bay: &mut B,
    file: &str,
    input: &mut I,
    output: &mut O,
) -> Outcome
    requires { (B.state bay.old).last_mount ≡ None }
    ensures headline { IsTrue (B.state bay.old).tells → IsTrue (I.state input.old).tells
        → RunPromise result (devices (B.state bay.old) (O.state output.old))
        (devices (B.state bay.new) (O.state output.new)) (I.state input.old) (I.state input.new) }
    ensures refused { IsTrue (B.state bay.old).tells → NeverServed (B.state bay.old).file
        → Ends (IsRefused (B.state bay.old).file) result.status (O.state output.old)
        (O.state output.new) }
    ensures known { (is_session result.status ≡ true) ⊎ (result.status ≡ NO_STORE) }
    ensures mounted { IsMounted file.now false (B.state bay.new).last_mount (result.status ≡ DISK_FAILED)
        (result.status ≡ NO_FILE) }
    ensures serves { RunAlways result (devices (B.state bay.old) (O.state output.old))
        (devices (B.state bay.new) (O.state output.new)) (I.state input.old) (I.state input.new)
        (input.new ≡ input.old) }
{
    let ended = serve_file(alloc, bay, file, input, output);
    let outcome = finish(ended.end, output);
    Outcome {
        status: outcome.status,
        done: ended.done,
        kept_done: ended.kept_done,
        kept_turn: ended.kept_turn,
    }
}

/// Mounts the file, opens it, and serves the requests of the input until the session ends.
fn serve_file<B: Bay, I: Source, O: Sink>(
    alloc: Global,
    bay: &mut B,
    file: &str,
    input: &mut I,
    output: &mut O,
) -> SessionEnd
    requires { (B.state bay.old).last_mount ≡ None }
    ensures { RunSteps (seen_by B.state I.state O.state) file.now (held bay.old input.old output.old)
        (held bay.new input.new output.new) result }
{
    match mount_there(bay, file) {
        Ok(()) => serve_from(alloc, bay, input, output),
        Err(why) => unserved(why, 0),
    }
}

/// Opens the file, and serves the requests of the input until the session ends.
fn serve_from<D: Disk, I: Source, O: Sink>(
    alloc: Global,
    disk: &mut D,
    input: &mut I,
    output: &mut O,
) -> SessionEnd
    requires ready { IsTrue (D.state disk.old).is_ready }
    ensures { OpenRunSteps (seen_by D.state I.state O.state) (held disk.old input.old output.old)
        (held disk.new input.new output.new) result }
{
    let opened = Store::open(alloc, disk);
    let turn = disk.turns();
    match opened {
        Ok(store) => serve_store(alloc, store, turn, disk, input, output),
        Err(fault) => unserved(stop_of(fault), turn),
    }
}

/// Serves the requests of the input by a store that was opened at this turn.
fn serve_store<D: Disk, I: Source, O: Sink>(
    alloc: Global,
    store: Store<CLASSES>,
    turn: u64,
    disk: &mut D,
    input: &mut I,
    output: &mut O,
) -> SessionEnd
    requires ready { IsTrue (D.state disk.old).is_ready }
    requires over { IsConnected CLASSES store (D.state disk.old) }
    requires whole { store.is_broken ≡ false }
    requires turn { turn ≡ (D.state disk.old).turn }
    ensures { (first : D) → IsOpening CLASSES (D.state first) (D.state disk.old) (Ok store)
        → OpenRunSteps (seen_by D.state I.state O.state) (held first input.old output.old)
        (held disk.new input.new output.new) result }
{
    match Session::new(alloc, store, turn) {
        Ok(mut session) => {
            let end = session.run(disk, input, output);
            ended_as(end, session)
        }
        Err(_) => unserved(StopReason::NoMemory, turn),
    }
}

/// No session was begun.
fn unserved(why: StopReason, turn: u64) -> SessionEnd
    ensures { result ≡ unserved why turn }
{
    SessionEnd {
        end: Err(why),
        done: 0,
        kept_done: 0,
        kept_turn: turn,
    }
}

/// The end of a session, and its three numbers.
fn ended_as(end: End, session: Session<CLASSES>) -> SessionEnd
    requires idle { session.store.in_hand ≡ None }
    ensures ended { result ≡ ended_as end session }
    ensures sound { session.store.is_broken ≡ false → IsStore CLASSES session.store }
{
    let done = session.done();
    let kept_done = session.kept_done();
    let kept_turn = session.kept_turn();
    let store = session.into_store();
    let _ = store.is_broken();
    SessionEnd {
        end: end_of(end, done),
        done,
        kept_done,
        kept_turn,
    }
}
