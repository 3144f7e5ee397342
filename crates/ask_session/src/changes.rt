//! Requests whose reply is one line.
ghost use Rattle.std.specs.Prelude.{◌≡◌, ◌<◌, ◌≤◌, ◌+◌, ℕ, List, length};
ghost use Rattle.std.specs.FinMap as fin;
ghost use Rattle.slot_pair.specs.Saves.{save_calls};
ghost use Rattle.size_class.specs.declared.TheConstants.{SIZE_MAX};
ghost use Rattle.slot_codec.specs.Names.{is_name};
ghost use Rattle.map_model.specs.Requests as ask;
ghost use Rattle.store_model.specs.Quiet.{del_of, put_of};
ghost use Rattle.ask_session.specs.{Ready.{CanServe}, ReplyLines.{Answers, answer_change}};

use crate::heads::{answer_of, done_reply_line};
use ask_text::{End, RefusedWord, Reply};
use disk_face::Disk;
use slot_codec::Name;
use store_core::{Done, Refusal, Store};

/// Serves a put of an object that isn't too long.
pub(crate) fn serve_put<const C: usize, D: Disk>(
    store: &mut Store<C>,
    disk: &mut D,
    name: &[u8],
    object: &[u8],
) -> Result<Reply, End>
    requires can { CanServe C store.old (D.state disk.old) }
    ensures { Answers C (ask.change (put_of name.now object.now)) store.old store.new (D.state disk.old)
        (D.state disk.new) result }
{
    answer_change(store.put(disk, name, object))
}

/// Serves a put of an object that is too long, whose bytes were dropped.
pub(crate) fn serve_long<const C: usize, D: Disk>(
    store: &mut Store<C>,
    disk: &mut D,
    name: &[u8],
    size: u64,
) -> Result<Reply, End>
    requires can { CanServe C store.old (D.state disk.old) }
    requires long { SIZE_MAX < size }
    ensures { (object : List ℕ) → length object ≡ size
        → Answers C (ask.change (put_of name.now object)) store.old
        store.new (D.state disk.old) (D.state disk.new) result }
{
    if is_name(name) {
        Ok(Reply::Refused(RefusedWord::Size))
    } else {
        Ok(Reply::Refused(RefusedWord::Name))
    }
}

/// Whether bytes are a name.
fn is_name(bytes: &[u8]) -> bool
    ensures { result ≡ is_name bytes.now }
{
    Name::new(bytes).is_some()
}

/// Serves a del.
pub(crate) fn serve_del<const C: usize, D: Disk>(
    store: &mut Store<C>,
    disk: &mut D,
    name: &[u8],
) -> Result<Reply, End>
    requires can { CanServe C store.old (D.state disk.old) }
    ensures { Answers C (ask.change (del_of name.now)) store.old store.new (D.state disk.old)
        (D.state disk.new)
        result }
{
    answer_change(store.del(disk, name))
}

/// Serves a keep: the reply, or the end where the disk failed.
pub fn serve_keep<const C: usize, D: Disk>(store: &mut Store<C>, disk: &mut D) -> Result<Reply, End>
    requires can { CanServe C store.old (D.state disk.old) }
    ensures answers { Answers C ask.keep store.old store.new (D.state disk.old) (D.state disk.new) result }
    ensures calls { (D.state disk.new).turn
        ≤ (D.state disk.old).turn + save_calls (fin.len store.old.now) }
{
    answer_change(store.keep(disk))
}

/// Serves a back: the reply.
pub fn serve_back<const C: usize, D: Disk>(store: &mut Store<C>, disk: &mut D) -> Result<Reply, End>
    requires can { CanServe C store.old (D.state disk.old) }
    ensures { Answers C ask.back store.old store.new (D.state disk.old) (D.state disk.new) result }
{
    match store.back() {
        Ok(()) => Ok(Reply::Ok),
        Err(_) => Err(End::Disk),
    }
}

/// Serves a stat: the reply.
pub fn serve_stat<const C: usize, D: Disk>(store: &mut Store<C>, disk: &mut D) -> Result<Reply, End>
    requires can { CanServe C store.old (D.state disk.old) }
    ensures { Answers C ask.stat store.old store.new (D.state disk.old) (D.state disk.new) result }
{
    match store.stat() {
        Ok(stat) => Ok(Reply::Stat {
            names: stat.names,
            bytes: stat.bytes,
            kept_names: stat.kept_names,
            kept_bytes: stat.kept_bytes,
        }),
        Err(_) => Err(End::Disk),
    }
}

/// What is replied to a change or a checkpoint; an end where a device failed.
pub fn answer_change(answer: Result<Done, Refusal>) -> Result<Reply, End>
    ensures { result ≡ answer_change answer }
{
    match answer {
        Ok(done) => Ok(done_reply_line(done)),
        Err(why) => answer_of(why),
    }
}
