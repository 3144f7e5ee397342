//! Counts of what files were found to be.
use plain_layout::Refusal;
use row_vectors::alike::{Parting, Seen};
use slot_pair::SlotFault;
use std::io;

/// How many files were opened, refused for each reason, and seen in two ways. The reasons are counted
/// by their numbers, from 1 on. The positions that faults of the codec have are added up.
#[derive(Clone, Copy)]
pub struct Tally {
    still: u64,
    moving: u64,
    slots: [u64; 4],
    codecs: [u64; 12],
    rules: [u64; 12],
    positions: u64,
    differ: u64,
}

impl Tally {
    /// Nothing was counted.
    pub fn new() -> Tally {
        Tally {
            still: 0,
            moving: 0,
            slots: [0; 4],
            codecs: [0; 12],
            rules: [0; 12],
            positions: 0,
            differ: 0,
        }
    }

    /// Counts a file. One that was refused for a reason without a number is counted as one on which
    /// the two ways differ.
    pub fn add(&mut self, seen: Result<Seen, Parting>) {
        match seen {
            Ok(Seen::Still) => one_more(&mut self.still),
            Ok(Seen::Moving) => one_more(&mut self.moving),
            Ok(Seen::Refused(refusal)) => self.add_refusal(refusal),
            Err(_) => one_more(&mut self.differ),
        }
    }

    /// Counts a refusal.
    fn add_refusal(&mut self, refusal: Refusal) {
        match refusal {
            Refusal::Slot(SlotFault::Short) => one_more(&mut self.slots[0]),
            Refusal::Slot(SlotFault::Unformatted) => one_more(&mut self.slots[1]),
            Refusal::Slot(SlotFault::NoGate) => one_more(&mut self.slots[2]),
            Refusal::Slot(SlotFault::SameSequence) => one_more(&mut self.slots[3]),
            Refusal::Slot(SlotFault::Codec(fault, at)) => {
                one_more(&mut self.codecs[usize::from(fault.number()) - 1]);
                self.positions = self.positions.saturating_add(at);
            }
            Refusal::Rule(rule @ 1..=12, _) => one_more(&mut self.rules[usize::from(rule) - 1]),
            Refusal::Slot(SlotFault::Disk) | Refusal::Rule(_, _) | Refusal::NoMemory => {
                one_more(&mut self.differ);
            }
        }
    }

    /// Prints the counts, each on a line.
    pub fn show(&self, rt: &HostRuntime) -> io::Result<()> {
        println!(rt; "still {}", self.still)?;
        println!(rt; "moving {}", self.moving)?;
        show_all(rt, "slot", &self.slots)?;
        show_all(rt, "codec", &self.codecs)?;
        show_all(rt, "rule", &self.rules)?;
        println!(rt; "positions {}", self.positions)?;
        println!(rt; "differ {}", self.differ)
    }
}

/// Counts one more.
fn one_more(count: &mut u64) {
    *count = count.saturating_add(1);
}

/// Prints counts by their numbers, from 1 on.
fn show_all(rt: &HostRuntime, what: &str, counts: &[u64]) -> io::Result<()> {
    let mut number = 0u64;
    for count in counts {
        number = number.saturating_add(1);
        println!(rt; "{what} {number}: {count}")?;
    }
    Ok(())
}
