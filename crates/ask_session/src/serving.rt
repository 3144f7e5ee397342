//! Serving a request.
ghost use Rattle.std.specs.Prelude.{◌≡◌, ◌≤◌, ℕ, List, false, length, take, IsTrue};
ghost use Rattle.disk_face.specs.Devices.{devices};
ghost use Rattle.size_class.specs.declared.TheConstants.{SIZE_MAX};
ghost use Rattle.map_model.specs.Requests as ask;
ghost use Rattle.map_model.specs.Requests.{Request};
ghost use Rattle.store_model.specs.{Connection.{IsConnected}, Quiet.{put_of}};
ghost use Rattle.ask_text.specs.Asks.{ask_of};
ghost use Rattle.ask_session.specs.{ReplyLines.{Answers}, Inputs.{HasBody, HoldsSize}, Ready.{CanServe}, Serving.{Replies}};

use crate::changes::{serve_back, serve_del, serve_keep, serve_long, serve_put, serve_stat};
use crate::heads::put_answer;
use crate::reads::{can_read, serve_list, serve_object};
use ask_text::{Ask, End, Reply};
use disk_face::{Disk, Sink};
use size_class::SIZE_MAX;
use store_core::{Moment, Store};

/// Serves the request that a line asks for, with its object in the front of `body`, and puts its reply:
/// whether that acknowledges a checkpoint.
pub fn serve<const C: usize, D: Disk, O: Sink>(
    store: &mut Store<C>,
    disk: &mut D,
    output: &mut O,
    ask: &Ask,
    body: &[u8],
) -> Result<bool, End>
    requires ready { IsTrue (D.state disk.old).is_ready }
    requires over { IsConnected C store.old (D.state disk.old) }
    requires whole { store.old.is_broken ≡ false }
    requires room { HoldsSize ask.now body.now }
    ensures { (r : Request) → ask_of r ≡ ask.now → HasBody body.now r → Replies C r store.old store.new
        (devices (D.state disk.old) (O.state output.old)) (devices (D.state disk.new) (O.state output.new))
        result }
{
    can_serve(store, disk);
    can_read(store, disk);
    match ask {
        Ask::Put { name, size } => {
            put_answer(
                output,
                serve_sized(store, disk, name.as_bytes(), *size, body),
            )
        }
        Ask::Get { name } => serve_object(store, Moment::Now, disk, name.as_bytes(), output),
        Ask::Old { name } => serve_object(store, Moment::Kept, disk, name.as_bytes(), output),
        Ask::Del { name } => put_answer(output, serve_del(store, disk, name.as_bytes())),
        Ask::Keep => put_answer(output, serve_keep(store, disk)),
        Ask::Back => put_answer(output, serve_back(store, disk)),
        Ask::List => serve_list(store, disk, output),
        Ask::Stat => put_answer(output, serve_stat(store, disk)),
    }
}

/// Serves a put of an object of this size.
fn serve_sized<const C: usize, D: Disk>(
    store: &mut Store<C>,
    disk: &mut D,
    name: &[u8],
    size: u64,
    body: &[u8],
) -> Result<Reply, End>
    requires can { CanServe C store.old (D.state disk.old) }
    requires room { size ≤ SIZE_MAX → size ≤ length body.now }
    ensures { (object : List ℕ) → length object ≡ size → (size ≤ SIZE_MAX → take size body.now ≡ object)
        → Answers C (ask.change (put_of name.now object)) store.old store.new (D.state disk.old)
        (D.state disk.new) result }
{
    if size > SIZE_MAX {
        return serve_long(store, disk, name, size);
    }
    serve_put(store, disk, name, &body[..size as usize])
}

/// What holds of a store that isn't broken and has no flush in hand, over a disk that is ready; nothing is
/// done.
pub fn can_serve<const C: usize, D: Disk>(store: &Store<C>, disk: &D)
    requires ready { IsTrue (D.state disk.now).is_ready }
    requires over { IsConnected C store.now (D.state disk.now) }
    requires whole { store.now.is_broken ≡ false }
    ensures { CanServe C store.now (D.state disk.now) }
{
    let _ = store.is_broken();
}
