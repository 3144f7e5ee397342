//! Steps of the flush in hand.
ghost use Rattle.std.specs.Prelude.{◌≡◌, ◌<◌, ◌≤◌, ◌+◌, ℕ, None, false, IsTrue};
ghost use Rattle.disk_face.specs.Devices.{devices};
ghost use Rattle.store_model.specs.Halves.{IsHalfway, IsReadable};
ghost use Rattle.desk_model.specs.{Desks.{Desk, StepsOn, waiting}, Events.{sessions}};
ghost use Rattle.desk_core.specs.{Images.{LeavesEnd, LeavesStep}, Playing.{FinishesStore, KeepsGoing, PlaysOne, SettlesFlush, StepsFlush, CallsOnce}, Shows.{ShowsStore}};

use crate::lines::{put_idle, put_kept, put_left, put_moved};
use crate::served::Served;
use ask_text::End;
use disk_face::{Disk, Sink};
use store_core::Progress;

/// The event `step`: makes a step of the flush in hand, and puts what that came to.
pub(crate) fn step_once<const C: usize, D: Disk, O: Sink>(
    served: &mut Served<C>,
    disk: &mut D,
    output: &mut O,
) -> Result<(), End>
    requires ready { IsTrue (D.state disk.old).is_ready }
    requires over { IsReadable C served.old.store (D.state disk.old) }
    requires whole { served.old.store.is_broken ≡ false }
    requires session { served.old.session < sessions }
    ensures plays { IsTrue (D.state disk.old).tells → (d : Desk)
        → ShowsStore served.old.store served.old.session (D.state disk.old).file d
        → PlaysOne (StepsOn d.hand d) (ShowsStore served.new.store served.new.session (D.state disk.new).file)
        (O.state output.old) (O.state output.new) result }
    ensures images { IsTrue (D.state disk.old).tells → (d : Desk)
        → ShowsStore served.old.store served.old.session (D.state disk.old).file d
        → LeavesStep C (StepsOn d.hand d) served.old.store served.new.store (D.state disk.old)
        (D.state disk.new) d result }
    ensures goes { KeepsGoing C served.old.store served.new.store
        (devices (D.state disk.old) (O.state output.old)) (devices (D.state disk.new) (O.state output.new))
        result }
    ensures calls { CallsOnce served.old.store served.new.store (D.state disk.old) (D.state disk.new) }
    ensures session { served.new.session ≡ served.old.session }
{
    if !served.store.in_hand() {
        return put_idle(output);
    }
    match go_on(served, disk) {
        Ok(Progress::Moved) => put_moved(output),
        Ok(Progress::Settled) => put_kept(output, served.session),
        Err(end) => Err(end),
    }
}

/// Settles a flush in hand, by all of its steps, and puts the last lines: the reply of its request, and how
/// many requests wait.
pub(crate) fn finish<const C: usize, D: Disk, O: Sink>(
    served: &mut Served<C>,
    disk: &mut D,
    output: &mut O,
    count: u64,
) -> Result<(), End>
    requires ready { IsTrue (D.state disk.old).is_ready }
    requires over { IsReadable C served.old.store (D.state disk.old) }
    requires whole { served.old.store.is_broken ≡ false }
    requires session { served.old.session < sessions }
    ensures plays { IsTrue (D.state disk.old).tells → (d : Desk) → count ≡ waiting d.queues
        → ShowsStore served.old.store served.old.session (D.state disk.old).file d
        → FinishesStore d served.new.store served.new.session (D.state disk.new).file
        (O.state output.old) (O.state output.new) result }
    ensures images { IsTrue (D.state disk.old).tells → (d : Desk)
        → ShowsStore served.old.store served.old.session (D.state disk.old).file d
        → LeavesEnd C served.old.store served.new.store (D.state disk.old) (D.state disk.new) d result }
    ensures goes { KeepsGoing C served.old.store served.new.store
        (devices (D.state disk.old) (O.state output.old)) (devices (D.state disk.new) (O.state output.new))
        result }
    ensures session { served.new.session ≡ served.old.session }
{
    if !served.store.in_hand() {
        return put_left(output, count);
    }
    match settle(served, disk) {
        Ok(()) => match put_kept(output, served.session) {
            Ok(()) => put_left(output, count),
            Err(end) => Err(end),
        },
        Err(end) => Err(end),
    }
}

/// Makes all steps of the flush in hand that are left.
fn settle<const C: usize, D: Disk>(served: &mut Served<C>, disk: &mut D) -> Result<(), End>
    requires ready { IsTrue (D.state disk.old).is_ready }
    requires half { IsHalfway C served.old.store (D.state disk.old) }
    requires whole { served.old.store.is_broken ≡ false }
    ensures settles { SettlesFlush C served.old.session served.old.store served.new.store (D.state disk.old)
        (D.state disk.new) result }
    ensures session { served.new.session ≡ served.old.session }
{
    'steps: loop {
        match go_on(served, disk) {
            Ok(Progress::Moved) => {}
            Ok(Progress::Settled) => return Ok(()),
            Err(end) => return Err(end),
        }
    }
}

/// Makes the next step of the flush in hand.
fn go_on<const C: usize, D: Disk>(served: &mut Served<C>, disk: &mut D) -> Result<Progress, End>
    requires ready { IsTrue (D.state disk.old).is_ready }
    requires half { IsHalfway C served.old.store (D.state disk.old) }
    requires whole { served.old.store.is_broken ≡ false }
    ensures steps { StepsFlush C served.old.session served.old.store served.new.store (D.state disk.old)
        (D.state disk.new) result }
    ensures session { served.new.session ≡ served.old.session }
{
    match served.store.step(disk) {
        Ok(progress) => Ok(progress),
        Err(_) => Err(End::Disk),
    }
}
