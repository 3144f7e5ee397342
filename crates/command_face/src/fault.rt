//! The line that tells why a command stopped.
ghost use Rattle.std.specs.Prelude.{◌≡◌, ◌≤◌, ◌+◌, ◌++◌, length};
ghost use Rattle.std.specs.Fmt.{decimal};
ghost use Rattle.arrayvec.specs.ArrayVec.{array_vec_len};
ghost use Rattle.command_face.specs.Faults.{line_of, slot_text, store_text};

use crate::StopReason;
use arrayvec::ArrayVec;
use itoa::Buffer;
use reopen::OpenFault;
use slot_pair::SlotFault;

/// The fault line of a reason to stop, with its newline; empty where the sink itself failed.
pub fn fault_line(why: StopReason) -> ArrayVec<u8, 128>
    ensures { result.items ≡ line_of why }
{
    let mut line = ArrayVec::new();
    match why {
        StopReason::Words => push(&mut line, b"fault words\n"),
        StopReason::NoFile => push(&mut line, b"fault no file\n"),
        StopReason::NotStore(fault) => {
            push(&mut line, b"fault store ");
            push_store_fault(&mut line, fault);
            push(&mut line, b"\n");
        }
        StopReason::Taken(length) => {
            push(&mut line, b"fault taken ");
            push_number(&mut line, length);
            push(&mut line, b"\n");
        }
        StopReason::Missing => push(&mut line, b"fault missing\n"),
        StopReason::Damaged => push(&mut line, b"fault damaged\n"),
        StopReason::Disk => push(&mut line, b"fault disk\n"),
        StopReason::Sink => {}
        StopReason::NoMemory => push(&mut line, b"fault memory\n"),
        StopReason::Line(number) => {
            push(&mut line, b"fault request ");
            push_number(&mut line, number);
            push(&mut line, b"\n");
        }
        StopReason::Source => push(&mut line, b"fault source\n"),
        StopReason::Budget => push(&mut line, b"fault budget\n"),
        StopReason::TooManyNames(count) => {
            push(&mut line, b"fault too many ");
            push_number(&mut line, count);
            push(&mut line, b"\n");
        }
        StopReason::Worn => push(&mut line, b"fault worn\n"),
        StopReason::NoBatch => push(&mut line, b"fault no batch\n"),
        StopReason::Unfit(number) => {
            push(&mut line, b"fault unfit ");
            push_number(&mut line, number);
            push(&mut line, b"\n");
        }
    }
    line
}

/// Adds why a file is no store.
fn push_store_fault(line: &mut ArrayVec<u8, 128>, fault: OpenFault)
    requires { array_vec_len line.old ≤ 16 }
    ensures text { line.new.items ≡ line.old.items ++ store_text fault }
    ensures short { array_vec_len line.new ≤ 100 }
{
    match fault {
        OpenFault::Slot(fault) => push_slot_fault(line, fault),
        OpenFault::Table(broken) => {
            push(line, b"rule ");
            push_number(line, u64::from(broken.rule));
            push(line, b" at ");
            push_number(line, broken.at);
        }
        OpenFault::NoMemory => push(line, b"memory"),
    }
}

/// Adds why a file has no slot in use.
fn push_slot_fault(line: &mut ArrayVec<u8, 128>, fault: SlotFault)
    requires { array_vec_len line.old ≤ 16 }
    ensures text { line.new.items ≡ line.old.items ++ slot_text fault }
    ensures short { array_vec_len line.new ≤ 100 }
{
    match fault {
        SlotFault::Short => push(line, b"slot 1"),
        SlotFault::Unformatted => push(line, b"slot 2"),
        SlotFault::NoGate => push(line, b"slot 3"),
        SlotFault::SameSequence => push(line, b"slot 4"),
        SlotFault::Codec(fault, at) => {
            push(line, b"codec ");
            push_number(line, u64::from(fault.number()));
            push(line, b" at ");
            push_number(line, at);
        }
        SlotFault::Disk => push(line, b"disk"),
    }
}

/// Adds a number's decimal digits, at most 20.
fn push_number(line: &mut ArrayVec<u8, 128>, n: u64)
    requires { array_vec_len line.old ≤ 100 }
    ensures digits { line.new.items ≡ line.old.items ++ decimal n }
    ensures short { array_vec_len line.new ≤ array_vec_len line.old + 20 }
{
    let mut digits = Buffer::new();
    push(line, digits.format(n).as_bytes());
}

/// Adds bytes.
fn push(line: &mut ArrayVec<u8, 128>, bytes: &[u8])
    requires { array_vec_len line.old + length bytes.now ≤ 128 }
    ensures { line.new.items ≡ line.old.items ++ bytes.now }
{
    line.try_extend_from_slice(bytes).unwrap();
}
