//! The command `upgrade`: each object of a file gets the digest of its bytes.
ghost use Rattle.std.specs.Prelude.{◌≡◌, false, None, IsTrue};
ghost use Rattle.disk_face.specs.Devices.{devices};
ghost use Rattle.size_class.specs.declared.TheConstants.{CLASSES};
ghost use Rattle.store_model.specs.Connection.{IsConnected};
ghost use Rattle.command_face.specs.{Mounting.{IsMounted}, Outcomes.{Ends}, Refusing.{IsRefused}};
ghost use Rattle.served_file.specs.{Steps.{FileSteps, OpenSteps}, Unserved.{NeverServed}};
ghost use Rattle.upgrade_command.specs.{Doing.{IsUpgrade, reason_of}, Upgrading.{UpgradeAlways, UpgradePromise}};

use command_face::{
    DISK_FAILED, NO_FILE, Outcome, StopReason, finish, mount_there, put_whole, stop_of,
};
use disk_face::{Bay, Disk, Sink};
use size_class::CLASSES;
use std::alloc::Global;
use store_core::{Refusal, Store};

/// What is put once each object has its digest.
const LINE: &str = "upgraded\n";

/// `upgrade FILE`: gives each object of a file the digest of its bytes, by one checkpoint of version 2, and
/// puts `upgraded`. A file of version 2 is left as it is. Status 14 tells that the file has more names than a
/// table of version 2 has records, 15 that its sequence leaves no save; neither changes it.
#[inline(never)]
pub fn upgrade_file<B: Bay, O: Sink>(
    alloc: Global,
    bay: &mut B,
    file: &str,
    output: &mut O,
) -> Outcome
    requires none { (B.state bay.old).last_mount ≡ None }
    ensures upgrades { IsTrue (B.state bay.old).tells → UpgradePromise result.status
        (devices (B.state bay.old) (O.state output.old)) (devices (B.state bay.new) (O.state output.new)) }
    ensures refused { IsTrue (B.state bay.old).tells → NeverServed (B.state bay.old).file
        → Ends (IsRefused (B.state bay.old).file) result.status (O.state output.old)
        (O.state output.new) }
    ensures mounted { IsMounted file.now false (B.state bay.new).last_mount (result.status ≡ DISK_FAILED)
        (result.status ≡ NO_FILE) }
    ensures keeps { UpgradeAlways result.status (devices (B.state bay.old) (O.state output.old))
        (devices (B.state bay.new) (O.state output.new)) }
    ensures numbers { (result.done ≡ 0) × (result.kept_done ≡ 0) × (result.kept_turn ≡ 0) }
{
    let end = upgrade_over(alloc, bay, file, output);
    finish(end, output)
}

/// Mounts the file, opens it and upgrades it.
fn upgrade_over<B: Bay, O: Sink>(
    alloc: Global,
    bay: &mut B,
    file: &str,
    output: &mut O,
) -> Result<(), StopReason>
    requires none { (B.state bay.old).last_mount ≡ None }
    ensures { FileSteps B.state file.now IsUpgrade (devices (B.state bay.old) (O.state output.old))
        (devices (B.state bay.new) (O.state output.new)) result }
{
    match mount_there(bay, file) {
        Ok(()) => upgrade_from(alloc, bay, output),
        Err(why) => Err(why),
    }
}

/// Opens the file and upgrades it.
fn upgrade_from<D: Disk, O: Sink>(
    alloc: Global,
    disk: &mut D,
    output: &mut O,
) -> Result<(), StopReason>
    requires ready { IsTrue (D.state disk.old).is_ready }
    ensures { OpenSteps D.state IsUpgrade (devices (D.state disk.old) (O.state output.old))
        (devices (D.state disk.new) (O.state output.new)) result }
{
    match Store::open(alloc, disk) {
        Ok(store) => upgrade_store(store, disk, output),
        Err(fault) => Err(stop_of(fault)),
    }
}

/// Upgrades a store that isn't broken.
fn upgrade_store<D: Disk, O: Sink>(
    mut store: Store<CLASSES>,
    disk: &mut D,
    output: &mut O,
) -> Result<(), StopReason>
    requires ready { IsTrue (D.state disk.old).is_ready }
    requires over { IsConnected CLASSES store (D.state disk.old) }
    requires whole { store.is_broken ≡ false }
    ensures { IsUpgrade store (devices (D.state disk.old) (O.state output.old))
        (devices (D.state disk.new) (O.state output.new)) result }
{
    let names = store.live();
    let upgraded = store.upgrade(disk);
    store.is_broken();
    match upgraded {
        Ok(_) => put_whole(output, LINE.as_bytes()),
        Err(refused) => Err(reason_of(refused, names)),
    }
}

/// What a refusal of a store of so many names is to the command.
fn reason_of(refused: Refusal, names: u64) -> StopReason
    ensures { result ≡ reason_of names refused }
{
    match refused {
        Refusal::TooMany => StopReason::TooManyNames(names),
        Refusal::Worn => StopReason::Worn,
        _ => StopReason::Disk,
    }
}
