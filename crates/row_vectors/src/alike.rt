//! Opening by `read_state`, which the program uses, beside the plain way: they are to agree.
use disk_mem::MemDisk;
use extent_table::Spot;
use plain_layout::{Opened, Refusal, open};
use reopen::{Loaded, OpenFault, State, read_state};
use size_class::{CLASSES, SIZE_MAX};
use slot_codec::Kind;
use std::alloc::Global;

/// What a file is by both ways of opening it.
#[derive(Clone, Copy)]
pub enum Seen {
    /// It has a settled table.
    Still,
    /// It has a moving table.
    Moving,
    /// It isn't opened.
    Refused(Refusal),
}

/// In what the two ways differ first.
#[derive(Clone, Copy, Debug, PartialEq, Eq)]
pub enum Parting {
    /// One way opens the file and the other doesn't.
    Opening,
    /// They refuse the file for other reasons.
    Refusal,
    /// The state isn't of the kind that the header has.
    Kind,
    /// They found other superblocks.
    Block,
    /// They found slots of other sequences.
    Sequence,
    /// They found other headers.
    Header,
    /// They found other numbers of objects.
    Count,
    /// An object stands at another spot.
    Spot,
}

/// Opens a file in both ways. Where they agree, they found one table or refuse it for one reason.
/// Where one of them finds no memory and the other does, they differ.
pub fn opened_by_both(alloc: Global, file: &mut MemDisk) -> Result<Seen, Parting> {
    let plain = open(alloc, file, CLASSES as u8, SIZE_MAX);
    let read = read_state::<MemDisk, CLASSES>(alloc, file);
    match (plain, read) {
        (Ok(opened), Ok(state)) => same_state(&opened, &state),
        (Err(refusal), Err(fault)) => same_refusal(refusal, fault),
        (_, _) => Err(Parting::Opening),
    }
}

/// Both found one table, of the kind of the state.
fn same_state(opened: &Opened, state: &State<CLASSES>) -> Result<Seen, Parting> {
    match state {
        State::Still(loaded) => {
            same_table(opened, loaded, Kind::Settled)?;
            Ok(Seen::Still)
        }
        State::Moving(loaded) => {
            same_table(opened, loaded, Kind::Moving)?;
            Ok(Seen::Moving)
        }
    }
}

/// Both refuse the file for one reason.
fn same_refusal(refusal: Refusal, fault: OpenFault) -> Result<Seen, Parting> {
    if as_refusal(fault) == refusal {
        Ok(Seen::Refused(refusal))
    } else {
        Err(Parting::Refusal)
    }
}

/// A refusal of one way, as the other says it.
pub fn as_refusal(fault: OpenFault) -> Refusal {
    match fault {
        OpenFault::Slot(fault) => Refusal::Slot(fault),
        OpenFault::Table(broken) => Refusal::Rule(broken.rule, broken.at),
        OpenFault::NoMemory => Refusal::NoMemory,
    }
}

/// Both have the same superblock, slot, header and objects, and the header is of a kind.
fn same_table(opened: &Opened, loaded: &Loaded<CLASSES>, kind: Kind) -> Result<(), Parting> {
    if loaded.header.kind != kind {
        return Err(Parting::Kind);
    }
    if opened.found.block != loaded.block {
        return Err(Parting::Block);
    }
    if opened.found.sequence != loaded.slots.sequence() {
        return Err(Parting::Sequence);
    }
    if opened.table.header != loaded.header {
        return Err(Parting::Header);
    }
    same_objects(opened, loaded)
}

/// Both have the same objects at the same spots.
fn same_objects(opened: &Opened, loaded: &Loaded<CLASSES>) -> Result<(), Parting> {
    if opened.table.records.len() as u64 != loaded.table.count() {
        return Err(Parting::Count);
    }
    for record in opened.table.records.iter() {
        let spot = Spot {
            place: record.place,
            size: record.size,
        };
        if loaded.table.get(&record.name) != Some(spot) {
            return Err(Parting::Spot);
        }
    }
    Ok(())
}
