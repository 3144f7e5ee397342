//! One request of a batch, made by a store.
ghost use Rattle.std.specs.Prelude.{◌≡◌, ◌⊎◌, false, IsTrue, Some, None, OnOk};
ghost use Rattle.map_model.specs.Maps.{Map};
ghost use Rattle.map_model.specs.Requests as ask;
ghost use Rattle.batch_model.specs.Parts.{change_of};
ghost use Rattle.batch_core.specs.{Doing.{CanGo, IsKeptNow}, Making.{CanMake, IsDoneAs, Makes}, StoresOn.{StandsFor, store_on}};
ghost use Rattle.store_model.specs.Answers.{refused_by};
ghost use Rattle.store_model.specs.{Stores.{IsStore}, Quiet.{del_of, put_of}};

use batch_model::part::Part;
use disk_face::{Disk, DiskFault};
use store_core::{Done, Refusal, Store};

/// Makes a change of a batch. The removal of a name that isn't there changes nothing.
pub(crate) fn make_change<const C: usize, D: Disk>(
    store: &mut Store<C>,
    disk: &mut D,
    part: &Part<'_>,
) -> Result<(), DiskFault>
    requires go { CanGo C (store_on store.old (D.state disk.old)) }
    requires may { CanMake store.old (ask.change (change_of part.now)) }
    ensures { (m : Map) → StandsFor (store_on store.old (D.state disk.old)) m
        → Makes C (ask.change (change_of part.now)) (store_on store.old (D.state disk.old))
        (store_on store.new (D.state disk.new)) m result }
{
    match part.object {
        Some(object) => put_object(store, disk, part.name.as_bytes(), object),
        None => remove(store, disk, part.name.as_bytes()),
    }
}

/// Puts an object.
pub(crate) fn put_object<const C: usize, D: Disk>(
    store: &mut Store<C>,
    disk: &mut D,
    name: &[u8],
    object: &[u8],
) -> Result<(), DiskFault>
    requires go { CanGo C (store_on store.old (D.state disk.old)) }
    requires may { CanMake store.old (ask.change (put_of name.now object.now)) }
    ensures { (m : Map) → StandsFor (store_on store.old (D.state disk.old)) m
        → Makes C (ask.change (put_of name.now object.now)) (store_on store.old (D.state disk.old))
        (store_on store.new (D.state disk.new)) m result }
{
    let answer = store.put(disk, name, object);
    is_sound(store);
    done(answer)
}

/// Removes a name, if it is there.
pub(crate) fn remove<const C: usize, D: Disk>(
    store: &mut Store<C>,
    disk: &mut D,
    name: &[u8],
) -> Result<(), DiskFault>
    requires go { CanGo C (store_on store.old (D.state disk.old)) }
    requires may { CanMake store.old (ask.change (del_of name.now)) }
    ensures { (m : Map) → StandsFor (store_on store.old (D.state disk.old)) m
        → Makes C (ask.change (del_of name.now)) (store_on store.old (D.state disk.old))
        (store_on store.new (D.state disk.new)) m result }
{
    let answer = store.del(disk, name);
    is_sound(store);
    done(answer)
}

/// Saves a checkpoint.
pub(crate) fn keep<const C: usize, D: Disk>(
    store: &mut Store<C>,
    disk: &mut D,
) -> Result<(), DiskFault>
    requires go { CanGo C (store_on store.old (D.state disk.old)) }
    requires may { refused_by store.old ask.keep ≡ None }
    ensures makes { (m : Map) → StandsFor (store_on store.old (D.state disk.old)) m
        → Makes C ask.keep (store_on store.old (D.state disk.old)) (store_on store.new (D.state disk.new))
        m result }
    ensures kept { OnOk result (IsKeptNow store.new) }
{
    let answer = store.keep(disk);
    is_sound(store);
    done(answer)
}

/// Whether a request was made: a removal that found nothing is, too.
fn done(answer: Result<Done, Refusal>) -> Result<(), DiskFault>
    ensures { IsDoneAs answer result }
{
    match answer {
        Ok(_) | Err(Refusal::Missing) => Ok(()),
        Err(_) => Err(DiskFault),
    }
}

/// What holds of each store.
fn is_sound<const C: usize>(store: &Store<C>)
    ensures { store.now.is_broken ≡ false → store.now.in_hand ≡ None → IsStore C store.now }
{
    let _ = store.is_broken();
}
