//! The requests of a batch, one after another.
ghost use Rattle.std.specs.Prelude.{◌≡◌, IsTrue, OnOk};
ghost use Rattle.batch_core.specs.{Doing.{Batch, CanApply, CanBegin, CanDo, CanEnd, GoesOrStops, IsKeptNow, all_applied, all_changes, all_done, begun, ended}, StoresOn.{store_on}};

use crate::make::{keep, make_change, put_object, remove};
use batch_model::check::BATCH;
use batch_model::part::read_part;
use disk_face::{Disk, DiskFault};
use store_core::Store;

/// Puts a batch's text under the batch's name and keeps it; does its changes; and removes the text and
/// keeps that.
pub(crate) fn apply_batch<const C: usize, D: Disk>(
    store: &mut Store<C>,
    disk: &mut D,
    text: &[u8],
) -> Result<(), DiskFault>
    requires { (b : Batch) × CanApply C (store_on store.old (D.state disk.old)) text.now b }
    ensures went { (b : Batch) → CanApply C (store_on store.old (D.state disk.old)) text.now b
        → GoesOrStops C b (store_on store.old (D.state disk.old)) (store_on store.new (D.state disk.new))
        (all_applied b) result }
    ensures kept { OnOk result (IsKeptNow store.new) }
{
    match begin_batch(store, disk, text) {
        Ok(()) => do_batch(store, disk, text),
        Err(fault) => Err(fault),
    }
}

/// Puts a batch's text under the batch's name, and keeps it.
fn begin_batch<const C: usize, D: Disk>(
    store: &mut Store<C>,
    disk: &mut D,
    text: &[u8],
) -> Result<(), DiskFault>
    requires { (b : Batch) × CanBegin C (store_on store.old (D.state disk.old)) text.now b }
    ensures { (b : Batch) → CanBegin C (store_on store.old (D.state disk.old)) text.now b
        → GoesOrStops C b (store_on store.old (D.state disk.old)) (store_on store.new (D.state disk.new))
        (begun b) result }
{
    match put_object(store, disk, BATCH, text) {
        Ok(()) => keep(store, disk),
        Err(fault) => Err(fault),
    }
}

/// Does the changes of the batch that is kept, removes its text, and keeps.
pub(crate) fn do_batch<const C: usize, D: Disk>(
    store: &mut Store<C>,
    disk: &mut D,
    text: &[u8],
) -> Result<(), DiskFault>
    requires { (b : Batch) × CanDo C (store_on store.old (D.state disk.old)) text.now b }
    ensures went { (b : Batch) → CanDo C (store_on store.old (D.state disk.old)) text.now b
        → GoesOrStops C b (store_on store.old (D.state disk.old)) (store_on store.new (D.state disk.new))
        (all_done b) result }
    ensures kept { OnOk result (IsKeptNow store.new) }
{
    match do_changes(store, disk, text) {
        Ok(()) => end_batch(store, disk),
        Err(fault) => Err(fault),
    }
}

/// Does the changes of the batch that is kept; the removal of a name that isn't there changes nothing.
fn do_changes<const C: usize, D: Disk>(
    store: &mut Store<C>,
    disk: &mut D,
    text: &[u8],
) -> Result<(), DiskFault>
    requires { (b : Batch) × CanDo C (store_on store.old (D.state disk.old)) text.now b }
    ensures { (b : Batch) → CanDo C (store_on store.old (D.state disk.old)) text.now b
        → GoesOrStops C b (store_on store.old (D.state disk.old)) (store_on store.new (D.state disk.new))
        (all_changes b) result }
{
    let mut rest = text;
    'parts: while let Some(part) = read_part(rest) {
        match make_change(store, disk, &part) {
            Ok(()) => rest = part.rest,
            Err(fault) => return Err(fault),
        }
    }
    Ok(())
}

/// Removes the text of a batch, and keeps.
fn end_batch<const C: usize, D: Disk>(store: &mut Store<C>, disk: &mut D) -> Result<(), DiskFault>
    requires { (b : Batch) × CanEnd C (store_on store.old (D.state disk.old)) b }
    ensures went { (b : Batch) → CanEnd C (store_on store.old (D.state disk.old)) b
        → GoesOrStops C b (store_on store.old (D.state disk.old)) (store_on store.new (D.state disk.new))
        (ended b) result }
    ensures kept { OnOk result (IsKeptNow store.new) }
{
    match remove(store, disk, BATCH) {
        Ok(()) => keep(store, disk),
        Err(fault) => Err(fault),
    }
}
