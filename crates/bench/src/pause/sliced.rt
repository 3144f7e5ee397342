//! Times puts by one call, and by a begin and its steps with a read before each.
use super::spread::Spread;
use crate::answers::answered;
use crate::clock::{nanos, now};
use disk_face::Disk;
use disk_mem::MemSink;
use std::test::Fail;
use store_core::{Begun, Progress};
use store_rows::slices::Slicer;

/// Every object.
const OBJECT: &[u8] = &[7; 64];

/// How long calls took, by their kind.
pub type Pauses = [Spread; 4];

/// Puts that made a flush, or begins of one.
pub const FLUSHES: usize = 0;

/// Changes that saved nothing.
pub const QUIET: usize = 1;

pub const STEPS: usize = 2;

/// Reads between two steps.
pub const GETS: usize = 3;

/// Puts the object under a name by one call.
pub fn in_one<D: Disk>(
    rt: &HostRuntime,
    store: &mut Slicer<D>,
    name: &str,
    pauses: &mut Pauses,
) -> Result<(), Fail> {
    let start = now(rt);
    let answer = store.put(name, OBJECT);
    let nanos = nanos(rt, start);
    if answered(answer)?.kept {
        pauses[FLUSHES].count(nanos);
    } else {
        pauses[QUIET].count(nanos);
    }
    Ok(())
}

/// Begins to put the object under a name, and makes all steps of its flush, where one is in hand.
pub fn by_steps<D: Disk>(
    rt: &HostRuntime,
    store: &mut Slicer<D>,
    name: &str,
    pauses: &mut Pauses,
) -> Result<(), Fail> {
    let start = now(rt);
    let answer = store.begin_put(name, OBJECT);
    let nanos = nanos(rt, start);
    match answered(answer)? {
        Begun::Done => pauses[QUIET].count(nanos),
        Begun::InHand => {
            pauses[FLUSHES].count(nanos);
            to_end(rt, store, name, pauses)?;
        }
    }
    Ok(())
}

/// Makes the steps of the flush in hand, and reads the object before each.
fn to_end<D: Disk>(
    rt: &HostRuntime,
    store: &mut Slicer<D>,
    name: &str,
    pauses: &mut Pauses,
) -> Result<(), Fail> {
    for _ in 0..MOST_STEPS {
        read(rt, store, name, &mut pauses[GETS])?;
        let start = now(rt);
        let answer = store.step();
        pauses[STEPS].count(nanos(rt, start));
        if answered(answer)? == Progress::Settled {
            return Ok(());
        }
    }
    Err("an end")?
}

/// Reads the object.
fn read<D: Disk>(
    rt: &HostRuntime,
    store: &mut Slicer<D>,
    name: &str,
    gets: &mut Spread,
) -> Result<(), Fail> {
    let mut sink = MemSink::with_room(rt.alloc(), OBJECT.len() as u64, Vec::new(rt.alloc()))?;
    let start = now(rt);
    store.get(name, &mut sink)?;
    gets.count(nanos(rt, start));
    Ok(())
}

/// No flush of 65,536 names takes more steps.
const MOST_STEPS: u64 = 131_073;
