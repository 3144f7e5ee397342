//! The command `get`: the bytes of one object.
ghost use Rattle.std.specs.Prelude.{◌≡◌, ◌≢◌, ◌+◌, ◌^◌, ◌<◌, ◌≤◌, List, ℕ, Some, Err, IfOk, IfErr, IsTrue, length};
ghost use Rattle.byte_ranges.specs.Ranges.{bytes_at};
ghost use Rattle.disk_face.specs.Frames.{Unchanged};
ghost use Rattle.reopen.specs.Loads.{IsReadAs, KeepsRead, digests_loaded, unboxed};
ghost use Rattle.file_commands.specs.Getting.{IsObject, StopsAs, checked, digest_of};
ghost use Rattle.command_face.specs.Layers.{Answers, HasCausesAt, IsCommandReason, Looks, PutsNone};

use crate::copy::{put_bytes, take_piece};
use crate::digest::put_checked;
use crate::load::load;
use command_face::StopReason;
use disk_face::{Disk, Sink};
use reopen::BoxedLoaded;
use size_class::CLASSES;
use slot_codec::{Name, has_digests, head_len};
use std::alloc::Global;

/// Puts the bytes of the object of a name and nothing more. The disk stays as it is, and where a
/// flush was interrupted, it stays so. The mark of the file says whether its slots have logs.
pub fn get<D: Disk, O: Sink>(
    alloc: Global,
    disk: &mut D,
    name: &Name,
    output: &mut O,
) -> Result<(), StopReason>
    requires ready { IsTrue (D.state disk.old).is_ready }
    ensures words { (result ≢ Err StopReason.Words) × (result ≢ Err StopReason.NoFile) }
    ensures answers { IsTrue (D.state disk.old).tells
        → Answers (IsObject name.now (D.state disk.old).file) (O.state output.old) (O.state output.new)
        result }
    ensures nothing_put { PutsNone output.old output.new result }
    ensures plain { IfErr result IsCommandReason }
    ensures causes { HasCausesAt (D.state disk.old) (D.state disk.new) (O.state output.old)
        (O.state output.new) result }
    ensures frame { Unchanged (D.state disk.old) (D.state disk.new) }
{
    let found = locate(alloc, disk, name)?;
    let mut piece = take_piece(alloc, found.size)?;
    match &found.digest {
        None => put_bytes(disk, found.at, found.size, &mut piece, output),
        Some(digest) => { put_checked(disk, found.at, found.size, digest, &mut piece, output) }
    }
}

/// Where an object stands in its file: its first byte, how many there are, and the digest that they are to
/// have, where the version of the table has digests.
#[derive(Drop)]
struct Located {
    at: u64,
    size: u64,
    digest: Option<[u8; 32]>,
}

/// Where the object of a name stands in the file.
fn locate<D: Disk>(alloc: Global, disk: &mut D, name: &Name) -> Result<Located, StopReason>
    requires ready { IsTrue (D.state disk.old).is_ready }
    ensures found { IsTrue (D.state disk.old).tells → IfOk result (λ it. IsObject name.now
        (D.state disk.old).file
        (checked it.digest (Some (bytes_at (D.state disk.old).file it.at it.size)))) }
    ensures stopped { IsTrue (D.state disk.old).tells
        → IfErr result (StopsAs (IsObject name.now (D.state disk.old).file)) }
    ensures within { IsTrue (D.state disk.old).tells
        → IfOk result (λ it. it.at + it.size ≤ length (D.state disk.old).file) }
    ensures ranges { IfOk result (λ it. it.at + it.size < 2 ^ 64) }
    ensures looks { Looks (D.state disk.old) (D.state disk.new) result }
    ensures plain { IfErr result IsCommandReason }
{
    let loaded = load(alloc, disk)?;
    located_in(&loaded, name)
}

/// Where the object of a name stands in the file of a table.
fn located_in(loaded: &BoxedLoaded<CLASSES>, name: &Name) -> Result<Located, StopReason>
    requires loaded { KeepsRead (unboxed loaded.now) }
    ensures found { (file : List ℕ) → IsReadAs file (unboxed loaded.now)
        → IfOk result
        (λ it. IsObject name.now file (checked it.digest (Some (bytes_at file it.at it.size)))) }
    ensures within { (file : List ℕ) → IsReadAs file (unboxed loaded.now)
        → IfOk result (λ it. it.at + it.size ≤ length file) }
    ensures ranges { IfOk result (λ it. it.at + it.size < 2 ^ 64) }
    ensures only { IfErr result (λ why. why ≡ StopReason.Missing) }
    ensures missing { (file : List ℕ) → IsReadAs file (unboxed loaded.now)
        → IfErr result (λ why. IsObject name.now file (Err why)) }
{
    match loaded.table.get(name) {
        Some(spot) => Ok(Located {
            at: head_len(loaded.block.names) + spot.place,
            size: spot.size,
            digest: digest_in(loaded, name),
        }),
        None => Err(StopReason::Missing),
    }
}

/// The digest that the table of a file has for a name, where its version has digests.
fn digest_in(loaded: &BoxedLoaded<CLASSES>, name: &Name) -> Option<[u8; 32]>
    ensures { result ≡ digest_of (digests_loaded (unboxed loaded.now)) name.now }
{
    if has_digests(loaded.header.version) {
        loaded.table.digest(name)
    } else {
        None
    }
}
