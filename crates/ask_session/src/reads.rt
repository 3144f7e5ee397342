//! Requests whose reply is an object or a list.
ghost use Rattle.std.specs.Prelude.{◌≡◌, false, IfErr, IfOk, IsTrue, None};
ghost use Rattle.disk_face.specs.{Devices.{devices}, Frames.{Unchanged}};
ghost use Rattle.slot_pair.specs.Finding.{HasDiskCause};
ghost use Rattle.map_model.specs.Requests as ask;
ghost use Rattle.store_model.specs.{Answers.{refused_by}, Readings.{asks_for, is_damaged_read, object_read}};
ghost use Rattle.store_model.specs.{Connection.{state_of}, Halves.{IsReadable}, Lines.{lines_of, listing_of}};
ghost use Rattle.data_area.specs.Causes.{HasSinkCause};
ghost use Rattle.ask_session.specs.{Putting.{PutsStop}, ReplyLines.{object_text}, Ready.{CanRead}, Serving.{GivesReply, IsServingFault, PutsText}};

use crate::heads::{answer_of, fault_of, put_answer, put_end, say};
use ask_text::{End, Reply, write_reply};
use disk_face::{Disk, Sink};
use store_core::{Moment, Refusal, Store};

/// Serves a get, also while a flush is in hand, and puts its reply; the answer is false.
pub fn serve_get<const C: usize, D: Disk, O: Sink>(
    store: &mut Store<C>,
    disk: &mut D,
    name: &[u8],
    output: &mut O,
) -> Result<bool, End>
    requires ready { IsTrue (D.state disk.old).is_ready }
    requires over { IsReadable C store.old (D.state disk.old) }
    requires whole { store.old.is_broken ≡ false }
    ensures { GivesReply (ask.get name.now) store.old store.new
        (devices (D.state disk.old) (O.state output.old)) (devices (D.state disk.new) (O.state output.new))
        result }
{
    can_read(store, disk);
    serve_object(store, Moment::Now, disk, name, output)
}

/// Serves an old, and puts its reply; the answer is false.
pub fn serve_old<const C: usize, D: Disk, O: Sink>(
    store: &mut Store<C>,
    disk: &mut D,
    name: &[u8],
    output: &mut O,
) -> Result<bool, End>
    requires ready { IsTrue (D.state disk.old).is_ready }
    requires over { IsReadable C store.old (D.state disk.old) }
    requires whole { store.old.is_broken ≡ false }
    ensures { GivesReply (ask.old name.now) store.old store.new
        (devices (D.state disk.old) (O.state output.old)) (devices (D.state disk.new) (O.state output.new))
        result }
{
    can_read(store, disk);
    serve_object(store, Moment::Kept, disk, name, output)
}

/// Serves a list, also while a flush is in hand, and puts its reply; the answer is false.
pub fn serve_list<const C: usize, D: Disk, O: Sink>(
    store: &mut Store<C>,
    disk: &mut D,
    output: &mut O,
) -> Result<bool, End>
    requires ready { IsTrue (D.state disk.old).is_ready }
    requires over { IsReadable C store.old (D.state disk.old) }
    requires whole { store.old.is_broken ≡ false }
    ensures { GivesReply ask.list store.old store.new (devices (D.state disk.old) (O.state output.old))
        (devices (D.state disk.new) (O.state output.new)) result }
{
    can_read(store, disk);
    match say(
        output,
        &Reply::List {
            count: store.live(),
        },
    ) {
        Ok(()) => put_list(store, output),
        Err(end) => Err(end),
    }
}

/// Serves a get, of what stands now, or an old, of what stood at the last checkpoint.
pub(crate) fn serve_object<const C: usize, D: Disk, O: Sink>(
    store: &mut Store<C>,
    moment: Moment,
    disk: &mut D,
    name: &[u8],
    output: &mut O,
) -> Result<bool, End>
    requires can { CanRead C store.old (D.state disk.old) }
    ensures { GivesReply (asks_for moment name.now) store.old store.new
        (devices (D.state disk.old) (O.state output.old)) (devices (D.state disk.new) (O.state output.new))
        result }
{
    match store.size_of(moment, name) {
        Ok(size) => give(store, moment, disk, name, size, output),
        Err(why) => put_answer(output, answer_of(why)),
    }
}

/// What holds of a store that isn't broken and may be read, over a disk that is ready.
pub(crate) fn can_read<const C: usize, D: Disk>(store: &Store<C>, disk: &D)
    requires ready { IsTrue (D.state disk.now).is_ready }
    requires over { IsReadable C store.now (D.state disk.now) }
    requires whole { store.now.is_broken ≡ false }
    ensures { CanRead C store.now (D.state disk.now) }
{
    let _ = store.is_broken();
}

/// Puts the lines of a list.
fn put_list<const C: usize, O: Sink>(store: &Store<C>, output: &mut O) -> Result<bool, End>
    requires whole { store.now.is_broken ≡ false }
    ensures puts { IsTrue (O.state output.old).tells → PutsText (lines_of (listing_of store.now.now))
        (O.state output.old).given (O.state output.new).given result }
    ensures kept { IfOk result (λ kept. kept ≡ false) }
    ensures only { IfErr result (λ end. end ≡ End.Sink) }
    ensures cause { HasSinkCause End.Sink (O.state output.old) (O.state output.new) result }
{
    match store.list(output) {
        Ok(()) => Ok(false),
        Err(_) => Err(End::Sink),
    }
}

/// Puts the first line of a reply that is an object of this size, directly before its first byte, then the
/// object, and a newline; or replies that the object is damaged.
fn give<const C: usize, D: Disk, O: Sink>(
    store: &mut Store<C>,
    moment: Moment,
    disk: &mut D,
    name: &[u8],
    size: u64,
    output: &mut O,
) -> Result<bool, End>
    requires can { CanRead C store.old (D.state disk.old) }
    requires served { refused_by store.old (asks_for moment name.now) ≡ None }
    ensures puts { IsTrue (D.state disk.old).tells → IsTrue (O.state output.old).tells → PutsText
        (object_text
        (is_damaged_read (state_of store.old (D.state disk.old).file) (asks_for moment name.now)) size
        (object_read (state_of store.old (D.state disk.old).file) (asks_for moment name.now)))
        (O.state output.old).given (O.state output.new).given result }
    ensures kept { IfOk result (λ kept. kept ≡ false) }
    ensures only { IfErr result IsServingFault }
    ensures store { store.new ≡ store.old }
    ensures frame { Unchanged (D.state disk.old) (D.state disk.new) }
    ensures disk_cause { HasDiskCause End.Disk (D.state disk.old).faults (D.state disk.new).faults result }
    ensures sink_cause { HasSinkCause End.Sink (O.state output.old) (O.state output.new) result }
{
    let line = write_reply(&Reply::Data { size });
    match store.read_behind(moment, disk, name, line.as_slice(), output) {
        Ok(_) => put_end(output),
        Err(why) => stop(why, output),
    }
}

/// Replies that the object is damaged; else a device failed, and nothing more is put.
fn stop<O: Sink>(why: Refusal, output: &mut O) -> Result<bool, End>
    ensures { PutsStop (O.state output.old) (O.state output.new) why result }
{
    match why {
        Refusal::Damaged => put_answer(output, answer_of(why)),
        other => Err(fault_of(other)),
    }
}
