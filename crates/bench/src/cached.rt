//! Measures reads from a real file: by a store, and by one behind a cache, of objects that it lists and of
//! those that it reads first.
ghost use Rattle.std.specs.Prelude.{◌≤◌, IsTrue, IsFalse};

use crate::answers::answered;
use crate::clock::{mean, now};
use crate::lines::Lines;
use crate::numbered::names_of;
use crate::scratch::{Measured, on_scratch};
use cache_rows::trials::{CacheTrial, cached_on};
use disk_face::Disk;
use disk_mem::MemSink;
use slot_pair::SlotPair;
use std::test::Fail;
use store_rows::slices::{Slicer, sliced_on};

/// The scratch file.
const NAME: &str = "bench_cached.scratch";

/// The divisor of the file: a buffer has a ninth of what its payload segment has.
const DIVISOR: u64 = 9;

/// Every object: the longest that a cache lists.
const OBJECT: &[u8] = &[7; 4096];

/// How many objects a cache lists at most.
const MOST: u64 = 4096;

/// Bytes of them all.
const ROOM: u64 = 1 << 24;

/// An object of each name, which is read twice: by the store, or behind a cache that lists them all.
#[derive(Drop)]
struct Reads<'a> {
    names: &'a [String],
    count: u64,
    is_cached: bool,
    ghost low: { 16 ≤ count },
    ghost high: { count ≤ 4096 },
}

/// Puts objects on a new file and reads each by the store, and on another one and reads each twice behind a
/// cache that lists them all.
pub fn measure(rt: &HostRuntime, names: u64, lines: &mut Lines) -> Result<(), Fail>
    requires low { 16 ≤ names }
    requires high { names ≤ 65536 }
{
    let count = names.min(MOST);
    let names = names_of(rt.alloc(), count)?;
    measure_names(rt, &names, count, lines)
}

/// The same with these names.
fn measure_names(
    rt: &HostRuntime,
    names: &[String],
    count: u64,
    lines: &mut Lines,
) -> Result<(), Fail>
    requires low { 16 ≤ count }
    requires high { count ≤ 4096 }
{
    let [get, _] = on_new_file(rt, names, count, false)?;
    let [miss, hit] = on_new_file(rt, names, count, true)?;
    let text = "# objects of 4 KiB: ns a get #, ns a miss #, ns a hit #";
    lines.add(rt, "", text, &[count, get, miss, hit]);
    Ok(())
}

/// Measures on a new file, which is removed: nanoseconds of a read of each object, and of a second one.
fn on_new_file(
    rt: &HostRuntime,
    names: &[String],
    count: u64,
    is_cached: bool,
) -> Result<[u64; 2], Fail>
    requires low { 16 ≤ count }
    requires high { count ≤ 4096 }
{
    let reads = Reads {
        names,
        count,
        is_cached,
    };
    on_scratch(rt, NAME, true, &reads)
}

impl<'a> Measured for Reads<'a> {
    type Times = [u64; 2];

    /// Formats the file, puts the objects, and reads each twice.
    fn times<D: Disk + Drop>(&self, rt: &HostRuntime, disk: D) -> Result<[u64; 2], Fail>
        requires ready { IsTrue (D.state disk).is_ready }
        requires untold { IsFalse (D.state disk).tells }
    {
        let mut disk = disk;
        SlotPair::format(&mut disk, DIVISOR, self.count)?;
        if self.is_cached {
            let mut store = cached_on(rt.alloc(), disk, self.count)?;
            by_cache(rt, &mut store, self.names)
        } else {
            let mut store = sliced_on(rt.alloc(), disk)?;
            by_store(rt, &mut store, self.names)
        }
    }
}

/// Puts the objects, and reads each twice by the store.
fn by_store<D: Disk>(
    rt: &HostRuntime,
    store: &mut Slicer<D>,
    names: &[String],
) -> Result<[u64; 2], Fail> {
    put_all(store, names)?;
    let first = gets(rt, store, names)?;
    let second = gets(rt, store, names)?;
    Ok([first, second])
}

/// Puts an object of each name.
fn put_all<D: Disk>(store: &mut Slicer<D>, names: &[String]) -> Result<(), Fail> {
    for name in names {
        answered(store.put(name.as_str(), OBJECT))?;
    }
    Ok(())
}

/// Nanoseconds of a read by the store.
fn gets<D: Disk>(rt: &HostRuntime, store: &mut Slicer<D>, names: &[String]) -> Result<u64, Fail> {
    let mut sink = MemSink::with_room(rt.alloc(), ROOM, Vec::new(rt.alloc()))?;
    let start = now(rt);
    for name in names {
        store.get(name.as_str(), &mut sink)?;
    }
    Ok(mean(rt, start, names.len()))
}

/// Puts the objects, and reads each twice behind the cache.
fn by_cache<D: Disk>(
    rt: &HostRuntime,
    store: &mut CacheTrial<D>,
    names: &[String],
) -> Result<[u64; 2], Fail> {
    for name in names {
        store.put(name.as_str(), OBJECT)?;
    }
    store.keep()?;
    let miss = cached_gets(rt, store, names)?;
    let hit = cached_gets(rt, store, names)?;
    Ok([miss, hit])
}

/// Nanoseconds of a read behind the cache.
fn cached_gets<D: Disk>(
    rt: &HostRuntime,
    store: &mut CacheTrial<D>,
    names: &[String],
) -> Result<u64, Fail> {
    let mut sink = MemSink::with_room(rt.alloc(), ROOM, Vec::new(rt.alloc()))?;
    let start = now(rt);
    for name in names {
        store.get(name.as_str(), &mut sink)?;
    }
    Ok(mean(rt, start, names.len()))
}
