//! Disks that fail when they are told to, call by call.
ghost use Rattle.std.specs.Prelude.{◌≡◌, ◌∷◌, [], length};
ghost use Rattle.disk_history.specs.Histories.{file_of};
ghost use Rattle.disk_mem.specs.{Calls.{AfterChanges, ListedCalls, none_made}, Fuses.{fuse_calls, disk_of}};

use disk_face::Disk;
use disk_mem::{Fuse, MemDisk};
use std::alloc::Global;
use std::process::Abort;

/// A disk of four bytes that fails its second changing call, and its first and third other call.
fn listed(rt: &impl Abort, alloc: Global) -> Fuse<MemDisk>
    ensures calls { fuse_calls result ≡ none_made (ListedCalls (2 ∷ []) (1 ∷ 3 ∷ [])) }
    ensures file { length (file_of (disk_of result)) ≡ 4 }
{
    let changes = Vec::from_slice(alloc, &[2u64]).expect(rt, "memory");
    let reads = Vec::from_slice(alloc, &[1u64, 3]).expect(rt, "memory");
    let disk = MemDisk::from_bytes(alloc, b"abcd").expect(rt, "memory");
    Fuse::listed(disk, changes, reads)
}

/// The first four calls, of which the first and the last fail.
fn begin(rt: &impl Abort, fuse: &mut Fuse<MemDisk>)
    requires calls { fuse_calls fuse.old ≡ none_made (ListedCalls (2 ∷ []) (1 ∷ 3 ∷ [])) }
    requires file { length (file_of (disk_of fuse.old)) ≡ 4 }
    ensures file { length (file_of (disk_of fuse.new)) ≡ 4 }
{
    assert!(rt; fuse.len().is_err());
    fuse.write_at(1, b"XY").expect(rt, "a call");
    assert!(rt; fuse.len().expect(rt, "a call") == 4);
    assert!(rt; fuse.sync().is_err());
}

/// The last three, of which the first fails.
fn end(rt: &impl Abort, fuse: &mut Fuse<MemDisk>)
    requires { length (file_of (disk_of fuse.old)) ≡ 4 }
{
    let mut out = [0u8; 4];
    assert!(rt; fuse.read_at(0, &mut out).is_err());
    fuse.read_at(0, &mut out).expect(rt, "a call");
    assert!(rt; out.as_slice() == b"aXYd".as_slice());
    fuse.sync().expect(rt, "a call");
}

#[test]
fn fails_the_listed_calls(rt: HostRuntime) {
    let mut fuse = listed(&rt, rt.alloc());
    begin(&rt, &mut fuse);
    end(&rt, &mut fuse);
    assert!(rt; fuse.turns() == 3);
    assert!(rt; fuse.into_inner().turns() == 2);
}

/// A disk of four bytes that stops after its first changing call, which was made.
fn stopped(rt: &impl Abort, alloc: Global) -> Fuse<MemDisk>
    ensures { length (file_of (disk_of result)) ≡ 4 }
{
    let mut fuse = Fuse::stop_after(MemDisk::from_bytes(alloc, b"abcd").expect(rt, "memory"), 1);
    let mut out = [0u8; 1];
    fuse.read_at(3, &mut out).expect(rt, "a call");
    fuse.write_at(3, b"Z").expect(rt, "a call");
    fuse
}

/// The last byte of a disk of four.
fn last_byte(rt: &impl Abort, disk: &mut MemDisk) -> Option<u8> {
    let mut out = [0u8; 1];
    if disk.len().expect(rt, "a call") != 4 {
        return None;
    }
    disk.read_at(3, &mut out).expect(rt, "a call");
    Some(out[0])
}

/// Whether a call of each kind fails.
fn fails(fuse: &mut Fuse<MemDisk>) -> bool
    requires { length (file_of (disk_of fuse.old)) ≡ 4 }
{
    let mut out = [0u8; 1];
    let fails_reading = fuse.read_at(3, &mut out).is_err();
    let fails_changing = fuse.set_len(0).is_err();
    fails_reading && fails_changing && fuse.len().is_err()
}

#[test]
fn stops_after_a_change(rt: HostRuntime) {
    let mut fuse = stopped(&rt, rt.alloc());
    assert!(rt; fails(&mut fuse));
    assert!(rt; fuse.turns() == 2);
    assert!(rt; last_byte(&rt, &mut fuse.into_inner()) == Some(b'Z'));
}
