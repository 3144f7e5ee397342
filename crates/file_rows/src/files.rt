//! Real files.
ghost use Rattle.std.specs.Prelude.{◌≡◌, None, IsTrue, IsFalse};
ghost use Rattle.disk_file.specs.Bays.{bay_state};

use crate::bays::{mounts, refuses, word};
use disk_face::{Bay, Disk, DiskFault, Mounted};
use disk_file::{FileBay, Host, Use, hold_numbers, is_own_stream};
use std::alloc::{AllocError, Global};
use std::fs::{self, File, Files};
use std::process::Abort;

const FOLDER: &str = "scratch_of_disk_file";

const NAME: &str = "scratch_of_disk_file/f";

const STORE_NAME: &str = "scratch_store_of_disk_file";

const HELD_NAME: &str = "scratch_held_of_disk_file";

const GONE_NAME: &str = "scratch_gone_of_disk_file";

const OTHER_NAME: &str = "scratch_other_of_disk_file";

const READ_NAME: &str = "scratch_read_of_disk_file";

/// The bytes of a store of 16 names that has the object `a`, `hello`: where they stand, all but the
/// zeros between them.
const STORE: &[(usize, &[u8])] = &[
    (0, b"COSTORE1\x09"),
    (16, b"\x10"),
    (64, b"\x01"),
    (72, b"\x01"),
    (80, b"\x01"),
    (120, b"\x05"),
    (8552, b"\x01a"),
    (8624, b"\x05"),
    (9832, b"\xa5"),
    (19602, b"\xa5hello"),
];

/// The whole store.
fn store(alloc: Global) -> Result<Vec<u8>, AllocError> {
    let mut store = vec![in alloc; 0u8; 19608]?;
    for (at, bytes) in STORE {
        for (i, byte) in bytes.iter().enumerate() {
            if let Some(place) = store.get_mut(i.saturating_add(*at)) {
                *place = *byte;
            }
        }
    }
    Ok(store)
}

/// Makes a file of these bytes.
fn makes(rt: &(impl Abort + Files<File = File>), name: &str, bytes: &[u8]) {
    fs::write(rt, name, bytes).expect(rt, "a file");
}

/// The file of that name has these bytes. It is removed.
fn left(rt: &(impl Abort + Alloc + Files<File = File>), name: &str, bytes: &[u8]) {
    let left = fs::read(rt, name).expect(rt, "a file");
    fs::remove_file(rt, name).expect(rt, "a file");
    assert!(rt; left.as_slice() == bytes);
}

/// What is tried with a bay that has mounted nothing.
#[derive(Clone, Copy)]
enum Act<'a> {
    /// It is refused a name, which it would make where there is none, for a cause.
    Refuses(&'a str, bool, &'a str),
    Keeps,
    FindsNone,
    ReadsObject,
    ChangesNothing,
    /// The file goes, or another gets its name.
    Goes(bool),
}

/// Tries a bay.
fn tries<H: Host>(rt: &(impl Abort + Files<File = File>), bay: &mut FileBay<H>, act: Act<'_>)
    requires none { (bay_state bay.old).last_mount ≡ None }
    requires untold { IsFalse (bay_state bay.old).tells }
{
    match act {
        Act::Refuses(name, make, cause) => refuses(rt, bay, name, make, cause),
        Act::Keeps => keeps(rt, bay),
        Act::FindsNone => mounts(rt, bay, NAME, false, Mounted::Absent),
        Act::ReadsObject => reads_object(rt, bay),
        Act::ChangesNothing => changes_nothing(rt, bay),
        Act::Goes(is_replaced) => goes(rt, bay, is_replaced),
    }
}

/// Tries a bay that may change its file.
fn changing(rt: &(impl Abort + Files<File = File>), act: Act<'_>) {
    tries(rt, &mut FileBay::new(rt), act);
}

/// Tries a bay that only reads.
fn reading(rt: &(impl Abort + Files<File = File>), act: Act<'_>) {
    tries(rt, &mut FileBay::reading(rt), act);
}

#[test]
fn keeps_a_real_file(rt: HostRuntime) {
    // A run that was cut off may have left it.
    let _ = fs::remove_dir_all(&rt, FOLDER);
    fs::create_dir(&rt, FOLDER).expect(&rt, "a file");
    changing(&rt, Act::Keeps);
    fs::remove_dir_all(&rt, FOLDER).expect(&rt, "a file");
    changing(&rt, Act::FindsNone);
}

/// Makes the file, writes five of its ten bytes, and reads all of them.
fn keeps<H: Host>(rt: &impl Abort, bay: &mut FileBay<H>)
    requires none { (bay_state bay.old).last_mount ≡ None }
    requires untold { IsFalse (bay_state bay.old).tells }
{
    mounts(rt, bay, NAME, true, Mounted::Made);
    writes(bay).expect(rt, "three changes");
    reads(rt, bay);
    assert!(rt; bay.turns() == 3);
}

/// Makes three changes, the last of which is a sync.
fn writes<D: Disk>(disk: &mut D) -> Result<(), DiskFault>
    requires ready { IsTrue (D.state disk.old).is_ready }
    requires untold { IsFalse (D.state disk.old).tells }
    ensures ready { IsTrue (D.state disk.new).is_ready }
    ensures untold { IsFalse (D.state disk.new).tells }
{
    disk.set_len(10)?;
    disk.write_at(3, b"hello")?;
    disk.sync()
}

/// Reads all, and then once more from position 1 on, past the end.
fn reads<D: Disk>(rt: &impl Abort, disk: &mut D)
    requires ready { IsTrue (D.state disk.old).is_ready }
    requires untold { IsFalse (D.state disk.old).tells }
{
    let mut out = [0u8; 10];
    disk.read_at(0, &mut out).expect(rt, "a read");
    assert!(rt; out == *b"\0\0\0hello\0\0");
    assert!(rt; disk.read_at(1, &mut out).is_err());
}

/// A mount that may make the file leaves one that is there as it is.
#[test]
fn leaves_a_store_whole(rt: HostRuntime) {
    let _ = fs::remove_file(&rt, STORE_NAME);
    let written = store(rt.alloc()).expect(&rt, "memory");
    makes(&rt, STORE_NAME, &written);
    changing(&rt, Act::ReadsObject);
    left(&rt, STORE_NAME, &written);
}

/// Reads the length of the store and its object.
fn reads_object<H: Host>(rt: &impl Abort, bay: &mut FileBay<H>)
    requires none { (bay_state bay.old).last_mount ≡ None }
    requires untold { IsFalse (bay_state bay.old).tells }
{
    mounts(rt, bay, STORE_NAME, true, Mounted::There);
    let mut object = [0u8; 5];
    assert!(rt; bay.len() == Ok(19608));
    bay.read_at(19603, &mut object).expect(rt, "a read");
    assert!(rt; object == *b"hello");
}

#[test]
fn holds_the_numbers_of_the_streams(rt: HostRuntime) {
    let _held = hold_numbers(&rt).expect(&rt, "the numbers");
}

/// What is no regular file is refused.
#[test]
fn refuses_what_is_no_file(rt: HostRuntime) {
    changing(&rt, Act::Refuses(".", true, "folder"));
    reading(&rt, Act::Refuses("/dev/null", false, "special"));
}

/// A file that another bay holds is refused. Bays that read share.
#[test]
fn refuses_what_is_held(rt: HostRuntime) {
    let _ = fs::remove_file(&rt, HELD_NAME);
    makes(&rt, HELD_NAME, b"kept");
    shares(&rt);
    holds(&rt);
    left(&rt, HELD_NAME, b"kept");
}

/// Two bays that read, and beside them one that would change the file.
fn shares(rt: &(impl Abort + Files<File = File>)) {
    let mut first = FileBay::reading(rt);
    mounts(rt, &mut first, HELD_NAME, false, Mounted::There);
    shares_more(rt);
}

/// A bay that reads beside another, and one that would change the file.
fn shares_more(rt: &(impl Abort + Files<File = File>)) {
    let mut second = FileBay::reading(rt);
    mounts(rt, &mut second, HELD_NAME, false, Mounted::There);
    changing(rt, Act::Refuses(HELD_NAME, true, "in use"));
}

/// A bay that may change the file, and beside it one that reads.
fn holds(rt: &(impl Abort + Files<File = File>)) {
    let mut only = FileBay::new(rt);
    mounts(rt, &mut only, HELD_NAME, true, Mounted::There);
    reading(rt, Act::Refuses(HELD_NAME, false, "in use"));
}

/// A bay that reads makes no file, and can't change one.
#[test]
fn only_reads(rt: HostRuntime) {
    let _ = fs::remove_file(&rt, READ_NAME);
    reading(&rt, Act::Refuses(READ_NAME, true, "system"));
    assert!(rt; !fs::exists(&rt, READ_NAME).expect(&rt, "a file"));
    makes(&rt, READ_NAME, b"kept");
    reading(&rt, Act::ChangesNothing);
    left(&rt, READ_NAME, b"kept");
}

/// Mounts the file to read it, and is refused its changes.
fn changes_nothing<H: Host>(rt: &impl Abort, bay: &mut FileBay<H>)
    requires none { (bay_state bay.old).last_mount ≡ None }
    requires untold { IsFalse (bay_state bay.old).tells }
{
    mounts(rt, bay, READ_NAME, false, Mounted::There);
    assert!(rt; bay.len() == Ok(4));
    assert!(rt; bay.write_at(0, b"lost").is_err());
    assert!(rt; bay.set_len(0).is_err());
}

/// What becomes of the name of a file that is mounted: it is removed, or another file gets it.
const GONE: &[bool] = &[false, true];

/// A sync of a file that was removed, or renamed over, fails.
#[test]
fn syncs_no_file_that_is_gone(rt: HostRuntime) {
    for is_replaced in GONE {
        makes(&rt, GONE_NAME, b"kept");
        changing(&rt, Act::Goes(*is_replaced));
    }
    assert!(rt; !is_own_stream(&rt, GONE_NAME, Use::Changing));
    left(&rt, GONE_NAME, b"other");
}

/// Mounts the file and syncs it, before and after its name goes.
fn goes<H: Host>(rt: &(impl Abort + Files<File = File>), bay: &mut FileBay<H>, is_replaced: bool)
    requires none { (bay_state bay.old).last_mount ≡ None }
    requires untold { IsFalse (bay_state bay.old).tells }
{
    mounts(rt, bay, GONE_NAME, false, Mounted::There);
    bay.sync().expect(rt, "a sync");
    loses_name(rt, is_replaced);
    assert!(rt; bay.sync().is_err());
    assert_eq!(rt; word(bay.cause()), "gone");
}

/// Removes the file, or gives its name to another.
fn loses_name(rt: &(impl Abort + Files<File = File>), is_replaced: bool) {
    if is_replaced {
        makes(rt, OTHER_NAME, b"other");
        fs::rename(rt, OTHER_NAME, GONE_NAME).expect(rt, "a file");
    } else {
        fs::remove_file(rt, GONE_NAME).expect(rt, "a file");
    }
}
