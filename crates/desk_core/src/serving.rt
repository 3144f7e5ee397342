//! Serving the first request of a session.
ghost use Rattle.std.specs.Prelude.{◌≡◌, ◌<◌, ◌==◌, ◌&&◌, ◌||◌, false, is_some, length, not, IsTrue};
ghost use Rattle.disk_face.specs.Devices.{devices};
ghost use Rattle.store_model.specs.{Connection.{limits_of}, Halves.{IsReadable}};
ghost use Rattle.desk_model.specs.{Desks.{Desk, ServesFirst, queue_of, ring}, Events.{sessions}};
ghost use Rattle.desk_queues.specs.Queues.{Holds};
ghost use Rattle.desk_core.specs.{Images.{LeavesStep}, Playing.{KeepsGoing, PlaysOne, CallsOnce}, Shows.{ShowsParts, ShowsStore}};

use crate::lines::put_for;
use crate::served::Served;
use crate::taking::take;
use ask_text::End;
use desk_queues::Queues;
use disk_face::{Disk, Sink};

/// The event `serve` of a session: takes its first request where there is one that needn't wait, and puts
/// what that came to.
pub(crate) fn serve_first<const C: usize, D: Disk, O: Sink>(
    served: &mut Served<C>,
    queues: &mut Queues,
    text: &mut [u8],
    session: usize,
    disk: &mut D,
    output: &mut O,
) -> Result<(), End>
    requires ready { IsTrue (D.state disk.old).is_ready }
    requires over { IsReadable C served.old.store (D.state disk.old) }
    requires whole { served.old.store.is_broken ≡ false }
    requires session { session < sessions }
    requires of { served.old.session < sessions }
    requires room { length text.old ≡ ring }
    ensures plays { IsTrue (D.state disk.old).tells → (d : Desk) → Holds queues.old d.queues
        → ShowsStore served.old.store served.old.session (D.state disk.old).file d
        → PlaysOne (ServesFirst (queue_of d session) (limits_of served.old.store) session d)
        (ShowsParts queues.new served.new.store served.new.session (D.state disk.new).file)
        (O.state output.old) (O.state output.new) result }
    ensures images { IsTrue (D.state disk.old).tells → (d : Desk) → Holds queues.old d.queues
        → ShowsStore served.old.store served.old.session (D.state disk.old).file d
        → LeavesStep C (ServesFirst (queue_of d session) (limits_of served.old.store) session d)
        served.old.store served.new.store (D.state disk.old) (D.state disk.new) d result }
    ensures goes { KeepsGoing C served.old.store served.new.store
        (devices (D.state disk.old) (O.state output.old)) (devices (D.state disk.new) (O.state output.new))
        result }
    ensures calls { CallsOnce served.old.store served.new.store (D.state disk.old) (D.state disk.new) }
    ensures of { served.new.session < sessions }
    ensures same_length { length text.new ≡ length text.old }
{
    if queues.is_empty(session) {
        return put_for(output, b"empty", session);
    }
    if must_wait(served, session, queues.is_read(session)) {
        return put_for(output, b"wait", session);
    }
    let _ = queues.waiting();
    let ask = queues.take(session, text);
    take(served, disk, output, session, &ask, text)
}

/// Whether the first request of a session has to wait, by whether it is a read: a flush is in hand, and it is
/// of this session, or the request is no read.
fn must_wait<const C: usize>(served: &Served<C>, session: usize, reads: bool) -> bool
    ensures { result ≡ (is_some served.now.store.in_hand && ((served.now.session == session) || not reads)) }
{
    served.store.in_hand() && (served.session == session || !reads)
}
