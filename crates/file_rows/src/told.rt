//! A bay over a system that tells its file: by the contracts of the bay no call fails.
ghost use Rattle.std.specs.Prelude.{◌≡◌, ◌≤◌, [], codes, length, None, Some, IsTrue, IsFalse};
ghost use Rattle.byte_ranges.specs.Ranges.{overwritten, resized};
ghost use Rattle.disk_file.specs.Bays.{bay_state, has_lost, marks_of, use_of};

use crate::memory::Memory;
use disk_face::{Bay, Disk};
use disk_file::{FileBay, Use};
use std::process::Abort;

/// Makes a file of twelve bytes, writes the bytes from position 2 on, syncs, and reads them. None of the
/// calls fails: each `unwrap` is proved.
fn keeps(bay: &mut FileBay<Memory>, bytes: &[u8], out: &mut [u8])
    requires none { (bay_state bay.old).last_mount ≡ None }
    requires new { (marks_of bay.old).kind_at (codes "f") ≡ None }
    requires usage { use_of bay.old ≡ Use.Changing }
    requires whole { IsFalse (has_lost bay.old) }
    requires fits { length bytes.now ≤ 10 }
    requires out { length out.old ≡ length bytes.now }
    ensures read { out.new ≡ bytes.now }
    ensures file { (bay_state bay.new).file ≡ overwritten (resized [] 12) 2 bytes.now }
    ensures ready { IsTrue (bay_state bay.new).is_ready }
    ensures lock { (marks_of bay.new).lock ≡ Some Use.Changing }
    ensures named { IsTrue (marks_of bay.new).is_named }
{
    bay.mount("f", true).unwrap();
    bay.set_len(12).unwrap();
    bay.write_at(2, bytes).unwrap();
    bay.sync().unwrap();
    bay.read_at(2, out).unwrap();
}

/// What is written is read, and what is cut is gone: by the contracts, and as it runs.
#[test]
fn keeps_what_it_tells(rt: HostRuntime) {
    let memory = Memory::new(rt.alloc()).expect(&rt, "memory");
    let mut bay = FileBay::over(memory, Use::Changing);
    let mut out = [0u8; 5];
    keeps(&mut bay, b"hello", &mut out);
    assert!(&rt; out == *b"hello");
    cuts(&rt, &mut bay);
}

/// Cuts the file within what was written, and reads the rest.
fn cuts(rt: &impl Abort, bay: &mut FileBay<Memory>)
    requires ready { IsTrue (bay_state bay.old).is_ready }
{
    bay.set_len(4).unwrap();
    let length = bay.len().unwrap();
    assert!(rt; length == 4);
}
