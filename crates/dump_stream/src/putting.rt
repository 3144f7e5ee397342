//! Putting the dump of a table.
ghost use Rattle.std.specs.Prelude.{◌≡◌, ◌≢◌, ◌^◌, ◌<◌, ◌≤◌, Err, IsTrue, false, length};
ghost use Rattle.disk_face.specs.Frames.{Unchanged};
ghost use Rattle.slot_codec.specs.Spelling.{has_digests, head_len};
ghost use Rattle.extent_table.specs.Extents.{IsTable, digests_seen};
ghost use Rattle.placement_model.specs.Reads.{EndWithin, read_at};
ghost use Rattle.reopen.specs.Loads.{IsLoadedFrom, IsReadAs, KeepsLoaded, KeepsRead, unboxed};
ghost use Rattle.dump_stream.specs.Dumping.{AreSizes, CanClass, DumpsLoaded, HasCauses, PutsDump, PutsSound, digest_of, read_entries, sizes_at};

use crate::gathering::{gather_object, put_whole};
use crate::head::{DumpHead, write_head};
use crate::sums::head_of;
use disk_face::{Disk, Sink};
use extent_table::Table;
use reopen::{BoxedLoaded, Loaded};
use size_class::SIZE_MAX;
use slot_codec::{Name, has_digests, head_len};
use thiserror::Error;

/// Why a dump ends early.
#[derive(Clone, Copy, Debug, PartialEq, Eq, Error)]
pub enum DumpFault {
    /// An object of a file whose table has digests has another SHA-256 than the table says.
    #[error("an object is damaged")]
    Damaged,
    #[error("the disk failed")]
    Disk,
    #[error("the sink failed")]
    Sink,
}

/// Puts the dump of the map that a file gives where the objects of its table stand, within a flush as
/// between requests. At a fault of a device a front of it was put, and at the first object that is
/// damaged what comes before its text. Nothing is changed.
pub fn dump<D: Disk, O: Sink, const C: usize>(
    disk: &mut D,
    loaded: &Loaded<C>,
    output: &mut O,
    buf: &mut [u8],
) -> Result<(), DumpFault>
    requires ready { IsTrue (D.state disk.old).is_ready }
    requires classes { CanClass C }
    requires some { 0 < length buf.old }
    requires loaded { KeepsLoaded loaded.now }
    requires from { IsTrue (D.state disk.old).tells → IsLoadedFrom (D.state disk.old).file loaded.now }
    ensures { DumpsLoaded loaded.now (D.state disk.old) (D.state disk.new) (O.state output.old)
        (O.state output.new) result }
{
    let names = loaded.block.names;
    dump_table::<D, O, C>(
        disk,
        names,
        loaded.header.version,
        &loaded.table,
        output,
        buf,
    )
}

/// Puts the dump as `dump` does, of a state whose header and layout stand in memory of their own, also of a
/// file whose slots have logs.
pub fn dump_boxed<D: Disk, O: Sink, const C: usize>(
    disk: &mut D,
    loaded: &BoxedLoaded<C>,
    output: &mut O,
    buf: &mut [u8],
) -> Result<(), DumpFault>
    requires ready { IsTrue (D.state disk.old).is_ready }
    requires classes { CanClass C }
    requires some { 0 < length buf.old }
    requires loaded { KeepsRead (unboxed loaded.now) }
    requires from { IsTrue (D.state disk.old).tells
        → IsReadAs (D.state disk.old).file (unboxed loaded.now) }
    ensures { DumpsLoaded (unboxed loaded.now) (D.state disk.old) (D.state disk.new) (O.state output.old)
        (O.state output.new) result }
{
    let names = loaded.block.names;
    dump_table::<D, O, C>(
        disk,
        names,
        loaded.header.version,
        &loaded.table,
        output,
        buf,
    )
}

/// Puts the dump of a table, whose file has room for so many names.
fn dump_table<D: Disk, O: Sink, const C: usize>(
    disk: &mut D,
    names: u64,
    version: u8,
    table: &Table,
    output: &mut O,
    buf: &mut [u8],
) -> Result<(), DumpFault>
    requires ready { IsTrue (D.state disk.old).is_ready }
    requires classes { CanClass C }
    requires some { 0 < length buf.old }
    requires low { 16 ≤ names }
    requires high { names ≤ 65536 }
    requires table { IsTable table.now }
    requires small { AreSizes SIZE_MAX (sizes_at table.now.now) }
    requires within { IsTrue (D.state disk.old).tells
        → EndWithin (head_len names) (D.state disk.old).file table.now.now }
    ensures puts { IsTrue (D.state disk.old).tells → PutsDump C (digests_seen version table.now.digests)
        (read_at (head_len names) (D.state disk.old).file table.now.now) (O.state output.old)
        (O.state output.new) result }
    ensures plain { has_digests version ≡ false → result ≢ Err DumpFault.Damaged }
    ensures causes { HasCauses (D.state disk.old) (D.state disk.new) (O.state output.old)
        (O.state output.new) result }
    ensures frame { Unchanged (D.state disk.old) (D.state disk.new) }
{
    let head: DumpHead<C> = head_of(table);
    put_whole(output, write_head(&head).as_slice())?;
    put_objects(disk, head_len(names), version, table, output, buf)
}

/// Puts the objects of a table, by rising name, each as a put, as many at once as the buffer has room for.
/// The data part begins at `base`. At the first whose bytes haven't the digest that the table has for it,
/// it stops.
pub(crate) fn put_objects<D: Disk, O: Sink>(
    disk: &mut D,
    base: u64,
    version: u8,
    table: &Table,
    output: &mut O,
    buf: &mut [u8],
) -> Result<(), DumpFault>
    requires ready { IsTrue (D.state disk.old).is_ready }
    requires some { 0 < length buf.old }
    requires base { base < 2 ^ 63 }
    requires table { IsTable table.now }
    requires within { IsTrue (D.state disk.old).tells
        → EndWithin base (D.state disk.old).file table.now.now }
    ensures puts { IsTrue (D.state disk.old).tells
        → PutsSound (digests_seen version table.now.digests)
        (read_entries base (D.state disk.old).file table.now.now) (O.state output.old) (O.state output.new)
        result }
    ensures plain { has_digests version ≡ false → result ≢ Err DumpFault.Damaged }
    ensures causes { HasCauses (D.state disk.old) (D.state disk.new) (O.state output.old)
        (O.state output.new) result }
    ensures frame { Unchanged (D.state disk.old) (D.state disk.new) }
    ensures room { length buf.new ≡ length buf.old }
{
    let mut held = 0;
    'names: for n in 0..table.count() {
        let (_, name, spot) = table.in_order(n);
        let digest = digest_for(version, table, &name);
        held = gather_object(disk, base, &name, spot, digest, output, buf, held)?;
    }
    let texts = &buf[..held];
    put_whole(output, texts)
}

/// The digest that a table has for a name, where its version has digests.
fn digest_for(version: u8, table: &Table, name: &Name) -> Option<[u8; 32]>
    ensures { result ≡ digest_of (digests_seen version table.now.digests) name.now }
{
    if has_digests(version) {
        table.digest(name)
    } else {
        None
    }
}
