//! Whether the file of a handle keeps the rules of the format.
ghost use Rattle.std.specs.Prelude.{◌≡◌};
ghost use Rattle.costore_c.specs.Checks.{ChecksFile, check_code, fault_of, told_fault};

use crate::codes::{CLOSED, DISK, DONE, NO_MEMORY, NO_STORE};
use lent_store::check_file;
use reopen::OpenFault;
use slot_pair::SlotFault;
use std::alloc::Global;
use store_handle::{Handle, Stage};

/// What shows that a file is no store, with the numbers of the program's line. A kind of 1 is a fault of the
/// slots, 2 one of the bytes of a superblock, a header or a record, and 3 a rule that the table breaks. `at` is
/// a position in the file, or where the table breaks the rule.
#[derive(Clone, Copy)]
#[repr(C)]
pub struct Fault {
    pub kind: u64,
    pub number: u64,
    pub at: u64,
}

/// Checks the file of a handle, which has an open store, or none yet. Where it is no store, what shows it
/// first is written.
#[unsafe(no_mangle)]
pub extern "C" fn costore_check(alloc: Global, store: &mut Handle, fault: &mut Fault) -> i32
    ensures read { ChecksFile store.old.value.stage fault.old fault.new result }
    ensures frame { store.new ≡ store.old }
{
    match &store.held().stage {
        Stage::Closed => CLOSED,
        Stage::Lent(room, _) => of_check(check_file(alloc, room), fault),
        Stage::Open(open) => of_check(open.check(alloc), fault),
    }
}

/// The code of a check. What shows that the file is no store is written.
fn of_check(answer: Result<(), OpenFault>, fault: &mut Fault) -> i32
    ensures code { result ≡ check_code answer }
    ensures fault { fault.new ≡ told_fault answer fault.old }
{
    match answer {
        Ok(()) => DONE,
        Err(OpenFault::NoMemory) => NO_MEMORY,
        Err(OpenFault::Slot(SlotFault::Disk)) => DISK,
        Err(why) => {
            *fault = fault_of(&why);
            NO_STORE
        }
    }
}

/// The numbers of what shows that a file is no store.
fn fault_of(why: &OpenFault) -> Fault
    ensures { result ≡ fault_of why.now }
{
    let (kind, number, at) = match why {
        OpenFault::Slot(SlotFault::Short) => (1, 1, 0),
        OpenFault::Slot(SlotFault::Unformatted) => (1, 2, 0),
        OpenFault::Slot(SlotFault::NoGate) => (1, 3, 0),
        OpenFault::Slot(SlotFault::SameSequence) => (1, 4, 0),
        OpenFault::Slot(SlotFault::Codec(codec, at)) => (2, u64::from(codec.number()), *at),
        OpenFault::Table(broken) => (3, u64::from(broken.rule), broken.at),
        OpenFault::Slot(SlotFault::Disk) | OpenFault::NoMemory => (0, 0, 0),
    };
    Fault { kind, number, at }
}
