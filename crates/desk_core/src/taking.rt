//! Requests that are taken.
ghost use Rattle.std.specs.Prelude.{◌≡◌, ◌<◌, ◌≤◌, false, length, IfSome, IsTrue, None};
ghost use Rattle.disk_face.specs.Devices.{devices};
ghost use Rattle.map_model.specs.Requests as ask;
ghost use Rattle.map_model.specs.Requests.{Request};
ghost use Rattle.store_model.specs.Readings.{asks_for};
ghost use Rattle.store_model.specs.{Connection.{IsConnected}, Halves.{IsReadable}, Quiet.{del_of, put_of}, Stores.{IsStanding}};
ghost use Rattle.ask_text.specs.Asks.{ask_of};
ghost use Rattle.ask_session.specs.{Inputs.{size_asked}, Ready.{CanServe}};
ghost use Rattle.desk_model.specs.Events.{sessions};
ghost use Rattle.desk_queues.specs.Queues.{StandsIn};
ghost use Rattle.desk_core.specs.{Playing.{TakesRequest, owned}, Telling.{TellsBegun, is_read_ask}};

use crate::lines::{put_for, put_reply};
use crate::served::Served;
use ask_session::{
    answer_of, can_serve, serve_back, serve_get, serve_keep, serve_list, serve_old, serve_stat,
};
use ask_text::{Ask, End, Reply};
use disk_face::{Disk, Sink};
use store_core::{Begun, Refusal};

/// Takes a request that may be served now, whose object stands in the front of `text`: begins its flush, or
/// serves it, and puts what that came to.
pub(crate) fn take<const C: usize, D: Disk, O: Sink>(
    served: &mut Served<C>,
    disk: &mut D,
    output: &mut O,
    session: usize,
    ask: &Ask,
    text: &[u8],
) -> Result<(), End>
    requires ready { IsTrue (D.state disk.old).is_ready }
    requires over { IsReadable C served.old.store (D.state disk.old) }
    requires whole { served.old.store.is_broken ≡ false }
    requires session { session < sessions }
    requires room { IfSome (size_asked ask.now) (λ n. n ≤ length text.now) }
    requires free { is_read_ask ask.now ≡ false → IsConnected C served.old.store (D.state disk.old) }
    ensures { (r : Request) → ask_of r ≡ ask.now → StandsIn text.now r → TakesRequest C session r
        (owned served.old.store served.old.session) (owned served.new.store served.new.session)
        (devices (D.state disk.old) (O.state output.old)) (devices (D.state disk.new) (O.state output.new))
        result }
{
    match ask {
        Ask::Put { name, size } => {
            let object = &text[..*size as usize];
            take_put(served, disk, output, session, name.as_bytes(), object)
        }
        Ask::Del { name } => take_del(served, disk, output, session, name.as_bytes()),
        Ask::Get { name } => take_get(served, disk, output, session, name.as_bytes()),
        Ask::Old { name } => take_old(served, disk, output, session, name.as_bytes()),
        Ask::List => take_list(served, disk, output, session),
        Ask::Keep => {
            can_serve(&served.store, disk);
            put_reply(output, session, serve_keep(&mut served.store, disk))
        }
        Ask::Back => {
            can_serve(&served.store, disk);
            put_reply(output, session, serve_back(&mut served.store, disk))
        }
        Ask::Stat => {
            can_serve(&served.store, disk);
            put_reply(output, session, serve_stat(&mut served.store, disk))
        }
    }
}

/// Takes a put.
fn take_put<const C: usize, D: Disk, O: Sink>(
    served: &mut Served<C>,
    disk: &mut D,
    output: &mut O,
    session: usize,
    name: &[u8],
    object: &[u8],
) -> Result<(), End>
    requires ready { IsTrue (D.state disk.old).is_ready }
    requires over { IsConnected C served.old.store (D.state disk.old) }
    requires whole { served.old.store.is_broken ≡ false }
    requires session { session < sessions }
    ensures { TakesRequest C session (ask.change (put_of name.now object.now))
        (owned served.old.store served.old.session) (owned served.new.store served.new.session)
        (devices (D.state disk.old) (O.state output.old)) (devices (D.state disk.new) (O.state output.new))
        result }
{
    can_serve(&served.store, disk);
    let begun = served.store.begin_put(disk, name, object);
    tell(served, output, session, begun)
}

/// Takes a del.
fn take_del<const C: usize, D: Disk, O: Sink>(
    served: &mut Served<C>,
    disk: &mut D,
    output: &mut O,
    session: usize,
    name: &[u8],
) -> Result<(), End>
    requires ready { IsTrue (D.state disk.old).is_ready }
    requires over { IsConnected C served.old.store (D.state disk.old) }
    requires whole { served.old.store.is_broken ≡ false }
    requires session { session < sessions }
    ensures { TakesRequest C session (ask.change (del_of name.now))
        (owned served.old.store served.old.session) (owned served.new.store served.new.session)
        (devices (D.state disk.old) (O.state output.old)) (devices (D.state disk.new) (O.state output.new))
        result }
{
    can_serve(&served.store, disk);
    let begun = served.store.begin_del(disk, name);
    tell(served, output, session, begun)
}

/// Puts what a begin came to; where a flush is in hand now, it is of this session.
fn tell<const C: usize, O: Sink>(
    served: &mut Served<C>,
    output: &mut O,
    session: usize,
    begun: Result<Begun, Refusal>,
) -> Result<(), End>
    requires session { session < sessions }
    ensures told { TellsBegun session begun served.old.session served.new.session (O.state output.old)
        (O.state output.new) result }
    ensures store { served.new.store ≡ served.old.store }
    ensures stands { served.old.store.is_broken ≡ false → IsStanding served.old.store }
{
    served.store.is_broken();
    match begun {
        Ok(Begun::InHand) => {
            served.session = session;
            put_for(output, b"begun", session)
        }
        Ok(Begun::Done) => put_reply(output, session, Ok(Reply::Ok)),
        Err(why) => put_reply(output, session, answer_of(why)),
    }
}

/// Takes a get.
fn take_get<const C: usize, D: Disk, O: Sink>(
    served: &mut Served<C>,
    disk: &mut D,
    output: &mut O,
    session: usize,
    name: &[u8],
) -> Result<(), End>
    requires ready { IsTrue (D.state disk.old).is_ready }
    requires over { IsReadable C served.old.store (D.state disk.old) }
    requires whole { served.old.store.is_broken ≡ false }
    requires session { session < sessions }
    ensures { TakesRequest C session (ask.get name.now)
        (owned served.old.store served.old.session) (owned served.new.store served.new.session)
        (devices (D.state disk.old) (O.state output.old)) (devices (D.state disk.new) (O.state output.new))
        result }
{
    match put_for(output, b"to", session) {
        Ok(()) => match serve_get(&mut served.store, disk, name, output) {
            Ok(_) => Ok(()),
            Err(end) => Err(end),
        },
        Err(end) => Err(end),
    }
}

/// Takes an old.
fn take_old<const C: usize, D: Disk, O: Sink>(
    served: &mut Served<C>,
    disk: &mut D,
    output: &mut O,
    session: usize,
    name: &[u8],
) -> Result<(), End>
    requires ready { IsTrue (D.state disk.old).is_ready }
    requires over { IsReadable C served.old.store (D.state disk.old) }
    requires whole { served.old.store.is_broken ≡ false }
    requires session { session < sessions }
    ensures { TakesRequest C session (ask.old name.now)
        (owned served.old.store served.old.session) (owned served.new.store served.new.session)
        (devices (D.state disk.old) (O.state output.old)) (devices (D.state disk.new) (O.state output.new))
        result }
{
    match put_for(output, b"to", session) {
        Ok(()) => match serve_old(&mut served.store, disk, name, output) {
            Ok(_) => Ok(()),
            Err(end) => Err(end),
        },
        Err(end) => Err(end),
    }
}

/// Takes a list.
fn take_list<const C: usize, D: Disk, O: Sink>(
    served: &mut Served<C>,
    disk: &mut D,
    output: &mut O,
    session: usize,
) -> Result<(), End>
    requires ready { IsTrue (D.state disk.old).is_ready }
    requires over { IsReadable C served.old.store (D.state disk.old) }
    requires whole { served.old.store.is_broken ≡ false }
    requires session { session < sessions }
    ensures { TakesRequest C session ask.list
        (owned served.old.store served.old.session) (owned served.new.store served.new.session)
        (devices (D.state disk.old) (O.state output.old)) (devices (D.state disk.new) (O.state output.new))
        result }
{
    match put_for(output, b"to", session) {
        Ok(()) => match serve_list(&mut served.store, disk, output) {
            Ok(_) => Ok(()),
            Err(end) => Err(end),
        },
        Err(end) => Err(end),
    }
}
