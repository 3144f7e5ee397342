//! Reading objects: from the list, or from the disk.
ghost use Rattle.std.specs.Prelude.{◌≡◌, ◌≤◌, ◌<◌, [], if◌then◌else◌, false, true, IfOk, IfSome, IsSome, IsTrue, None, OnErr, length, Err};
ghost use Rattle.std.specs.FinMap as fin;
ghost use Rattle.disk_face.specs.{Devices.{devices}, Streams.{Puts}};
ghost use Rattle.map_model.specs.Requests as ask;
ghost use Rattle.store_model.specs.{Answers.{refused_by, size_at}, Readings.{IsRead}};
ghost use Rattle.data_area.specs.Causes.{HasSinkCause};
ghost use Rattle.store_model.specs.{Connection.{IsConnected, state_of}, States.{object_in}, Stores.{IsStore}};
ghost use Rattle.read_cache.specs.{Coherence.{IsCoherent}, Gets.{ListsGet, size_got}, Lists.{after_drop, after_miss, listed}};

use crate::Got;
use crate::held::LONGEST;
use crate::recent::Recent;
use disk_face::{Disk, Sink};
use slot_codec::Name;
use store_core::{Moment, Refusal, Store};

/// Puts the bytes of an object that is there: from the list, or from the disk, and then it is listed
/// where it is small and there is memory for it.
pub(crate) fn get_there<const C: usize, D: Disk, O: Sink>(
    store: &mut Store<C>,
    recent: &mut Recent,
    disk: &mut D,
    name: &Name,
    sink: &mut O,
) -> Result<Got, Refusal>
    requires ready { IsTrue (D.state disk.old).is_ready }
    requires over { IsConnected C store.old (D.state disk.old) }
    requires sound { IsStore C store.old }
    requires served { refused_by store.old (ask.get name.now) ≡ None }
    requires coherent { IsCoherent store.old recent.old.pairs (D.state disk.old) }
    ensures read { IsRead (ask.get name.now) [] store.old store.new
        (devices (D.state disk.old) (O.state sink.old)) (devices (D.state disk.new) (O.state sink.new))
        (size_got result) }
    ensures list { ListsGet (IsTrue (D.state disk.old).tells) name.now
        (object_in (state_of store.old (D.state disk.old).file).map name.now) recent.old recent.new
        result }
    ensures no_call { IsSome (listed recent.old name.now) → disk.new ≡ disk.old }
{
    if recent.hit(name) {
        give(recent, name, sink)
    } else if size_of(store, name) > LONGEST {
        pass(store, disk, name, sink)
    } else {
        take_in(store, recent, disk, name, sink)
    }
}

/// Puts the bytes of an object that is listed.
fn give<O: Sink>(recent: &Recent, name: &Name, sink: &mut O) -> Result<Got, Refusal>
    requires listed { IsSome (listed recent.now name.now) }
    ensures got { IfOk result (λ got. IfSome (listed recent.now name.now)
        (λ bytes. got ≡ record { size = length bytes; hit = true; cached = true })) }
    ensures only { OnErr result (result ≡ Err Refusal.Sink) }
    ensures puts { IsTrue (O.state sink.old).tells → IfSome (listed recent.now name.now)
        (λ bytes. Puts (O.state sink.old).given (O.state sink.new).given bytes result) }
    ensures cause { HasSinkCause Refusal.Sink (O.state sink.old) (O.state sink.new) result }
{
    let Some(bytes) = recent.bytes(name) else {
        unreachable!()
    };
    put_whole(sink, bytes)?;
    Ok(Got {
        size: bytes.len() as u64,
        hit: true,
        cached: true,
    })
}

/// How many bytes an object has that is there.
fn size_of<const C: usize>(store: &Store<C>, name: &Name) -> u64
    requires served { refused_by store.now (ask.get name.now) ≡ None }
    ensures { result ≡ size_at (fin.get store.now.now name.now) }
{
    match store.size(name.as_bytes()) {
        Ok(size) => size,
        Err(_) => unreachable!(),
    }
}

/// Puts the bytes of an object that is too long to be listed.
fn pass<const C: usize, D: Disk, O: Sink>(
    store: &mut Store<C>,
    disk: &mut D,
    name: &Name,
    sink: &mut O,
) -> Result<Got, Refusal>
    requires ready { IsTrue (D.state disk.old).is_ready }
    requires over { IsConnected C store.old (D.state disk.old) }
    ensures read { IsRead (ask.get name.now) [] store.old store.new
        (devices (D.state disk.old) (O.state sink.old)) (devices (D.state disk.new) (O.state sink.new))
        (size_got result) }
    ensures got { IfOk result (λ got. got ≡ record { size = got.size; hit = false; cached = false }) }
{
    match store.get(disk, name.as_bytes(), sink) {
        Ok(size) => Ok(Got {
            size,
            hit: false,
            cached: false,
        }),
        Err(refusal) => Err(refusal),
    }
}

/// Reads an object that isn't listed, puts its bytes, and lists it where there is memory for it.
fn take_in<const C: usize, D: Disk, O: Sink>(
    store: &mut Store<C>,
    recent: &mut Recent,
    disk: &mut D,
    name: &Name,
    sink: &mut O,
) -> Result<Got, Refusal>
    requires ready { IsTrue (D.state disk.old).is_ready }
    requires over { IsConnected C store.old (D.state disk.old) }
    requires sound { IsStore C store.old }
    requires served { refused_by store.old (ask.get name.now) ≡ None }
    requires new { listed recent.old name.now ≡ None }
    requires small { size_at (fin.get store.old.now name.now) ≤ 4096 }
    ensures read { IsRead (ask.get name.now) [] store.old store.new
        (devices (D.state disk.old) (O.state sink.old)) (devices (D.state disk.new) (O.state sink.new))
        (size_got result) }
    ensures list { ListsGet (IsTrue (D.state disk.old).tells) name.now
        (object_in (state_of store.old (D.state disk.old).file).map name.now) recent.old recent.new
        result }
{
    let mut room = [0; LONGEST as usize];
    match store.fetch(Moment::Now, disk, name.as_bytes(), &mut room) {
        Ok(size) => put_and_enter(recent, name, &room[..size as usize], sink),
        Err(refusal) => Err(refusal),
    }
}

/// Puts bytes, and lists them under a name that isn't listed, where there is memory for them.
fn put_and_enter<O: Sink>(
    recent: &mut Recent,
    name: &Name,
    bytes: &[u8],
    sink: &mut O,
) -> Result<Got, Refusal>
    requires new { listed recent.old name.now ≡ None }
    requires small { length bytes.now ≤ 4096 }
    ensures got { IfOk result (λ got. got
        ≡ record { size = length bytes.now; hit = false; cached = got.cached }) }
    ensures list { IfOk result (λ got. recent.new
        ≡ (if got.cached then after_miss name.now bytes.now recent.old else after_drop recent.old)) }
    ensures same { OnErr result (recent.new ≡ recent.old) }
    ensures only { OnErr result (result ≡ Err Refusal.Sink) }
    ensures puts { IsTrue (O.state sink.old).tells
        → Puts (O.state sink.old).given (O.state sink.new).given bytes.now result }
    ensures cause { HasSinkCause Refusal.Sink (O.state sink.old) (O.state sink.new) result }
{
    put_whole(sink, bytes)?;
    let cached = recent.enter(name.copied(), bytes);
    Ok(Got {
        size: bytes.len() as u64,
        hit: false,
        cached,
    })
}

/// Puts bytes at once, where there are any.
fn put_whole<O: Sink>(sink: &mut O, bytes: &[u8]) -> Result<(), Refusal>
    ensures puts { IsTrue (O.state sink.old).tells
        → Puts (O.state sink.old).given (O.state sink.new).given bytes.now result }
    ensures only { OnErr result (result ≡ Err Refusal.Sink) }
    ensures cause { HasSinkCause Refusal.Sink (O.state sink.old) (O.state sink.new) result }
{
    if bytes.is_empty() {
        return Ok(());
    }
    sink.put(bytes).map_err(|_| Refusal::Sink)
}
