//! The calls that a mount makes of a system, and mounts that are refused.
use crate::bays::{mounts, refuses, word};
use crate::faulty::Faulty;
use disk_face::{Bay, Disk, Mounted};
use disk_file::{FileBay, Kind, Use};
use std::alloc::{AllocError, Global};
use std::process::Abort;

/// What stands under the name `f`, and its length; what the bay means to do, and whether the mount may
/// make the file; the answer, and the calls in order: a digit of the log for each.
#[derive(Clone, Copy)]
struct Row {
    kind: Option<Kind>,
    len: usize,
    usage: Use,
    make: bool,
    answer: Option<Mounted>,
    log: u64,
}

macro_rules! rows {
    ($($kind:expr, $len:literal, $usage:ident, $make:literal => $answer:expr, $log:literal;)*) => {
        [$(Row {
            kind: $kind,
            len: $len,
            usage: Use::$usage,
            make: $make,
            answer: $answer,
            log: $log,
        }),*]
    };
}

const MOUNTS: &[Row] = &rows! {
    Some(Kind::File), 4, Changing, true => Some(Mounted::There), 0x123_d457;
    Some(Kind::File), 4, Changing, false => Some(Mounted::There), 0x123_d457;
    Some(Kind::File), 0, Changing, true => Some(Mounted::There), 0x123d_4576;
    Some(Kind::File), 0, Reading, false => Some(Mounted::There), 0x1_23d4;
    None, 0, Changing, true => Some(Mounted::Made), 0x1c23_d456;
    None, 0, Changing, false => Some(Mounted::Absent), 0x1;
    None, 0, Reading, true => None, 0x1;
    Some(Kind::Folder), 0, Changing, true => None, 0x1;
    Some(Kind::Other), 0, Reading, false => None, 0x1;
};

#[test]
fn mounts_in_order(rt: HostRuntime) {
    for row in MOUNTS {
        mounts_row(&rt, row);
    }
}

/// Mounts what a row says, and is answered so.
fn mounts_row(rt: &impl Abort, row: &Row) {
    let mut host = Faulty::new(row.kind, 0);
    host.len = row.len;
    let (answer, _, log, turns) = mounted(host, row.usage, row.make);
    assert_eq!(rt; (answer, log, turns), (row.answer, row.log, 0));
}

/// Mounts `f` and fails, for a cause, and with these calls.
fn fails(rt: &impl Abort, host: Faulty, usage: Use, make: bool, wanted: (&str, u64)) {
    let (answer, cause, log, _) = mounted(host, usage, make);
    assert_eq!(rt; (answer, cause, log), (None, wanted.0, wanted.1));
}

/// What a mount of `f` is answered, the word of the bay's cause, and the calls and the turns then.
fn mounted(host: Faulty, usage: Use, make: bool) -> (Option<Mounted>, &'static str, u64, u64) {
    let mut bay = FileBay::over(host, usage);
    let answer = bay.mount("f", make).ok();
    (answer, word(bay.cause()), bay.host().log.get(), bay.turns())
}

/// Which call of a mount that makes a file fails, the cause, and the calls up to there. The fifth, that asks
/// for the standard streams, can't fail.
const LOGS: &[(u64, &str, u64)] = &[
    (1, "system", 0x1),
    (2, "no folder", 0x1c),
    (3, "system", 0x1c2),
    (4, "system", 0x1c23),
    (6, "system", 0x1c_23d4),
    (7, "system", 0x1c2_3d45),
    (8, "no folder", 0x1c23_d456),
];

/// Each call of a mount that makes a file fails in turn, and nothing is asked after that.
#[test]
fn fails_to_mount(rt: HostRuntime) {
    for (call, cause, log) in LOGS {
        let host = Faulty::new(None, *call);
        fails(&rt, host, Use::Changing, true, (cause, *log));
    }
}

/// What a bay may mean to do.
const USES: &[Use] = &[Use::Reading, Use::Changing];

/// A mount of a file that is held, that turns out to be a pipe, or that a standard stream has fails, whatever
/// the bay means to do, and nothing is asked after that.
#[test]
fn fails_to_mount_what_it_opened(rt: HostRuntime) {
    for usage in USES {
        let mut held = Faulty::new(Some(Kind::File), 0);
        held.held = true;
        fails(&rt, held, *usage, false, ("in use", 0x1_23d4));
        let mut swapped = Faulty::new(Some(Kind::File), 0);
        swapped.opened = Kind::Other;
        fails(&rt, swapped, *usage, false, ("special", 0x123));
        let mut own = Faulty::new(Some(Kind::File), 0);
        own.streams = true;
        fails(&rt, own, *usage, false, ("own stream", 0x123d));
    }
}

/// A name that is empty or too long is refused before the system is asked.
#[test]
fn refuses_names(rt: HostRuntime) {
    let mut bay = FileBay::over(Faulty::new(None, 0), Use::Changing);
    refuses(&rt, &mut bay, "", false, "no name");
    let mut name = long_name(rt.alloc()).expect(&rt, "memory");
    refuses(&rt, &mut bay, name.as_str(), false, "long name");
    assert!(rt; bay.host().log.get() == 0);
    name.pop();
    mounts(&rt, &mut bay, name.as_str(), false, Mounted::Absent);
}

/// A name of 4,096 bytes.
fn long_name(alloc: Global) -> Result<String, AllocError> {
    let mut name = String::new(alloc);
    for _ in 0..4096u64 {
        name.push('x')?;
    }
    Ok(name)
}
