//! A desk, and one event at it.
ghost use Rattle.std.specs.Prelude.{◌≡◌, true, false, if◌then◌else◌, IfOk, IfErr, None};
ghost use Rattle.disk_face.specs.Counts.{counted};
ghost use Rattle.store_model.specs.Stores.{IsStore};
ghost use Rattle.ask_text.specs.Ends.{is_ended};
ghost use Rattle.ask_session.specs.Outside.{outside};
ghost use Rattle.desk_core.specs.{Ready.{IsNewBench, MayGoOn}, Turns.{IsDeskTurn, KeepsBench, counted_bench, is_unread, turn_of}};

use crate::event::{EventLine, read_event};
use crate::hearing::hear;
use crate::served::Served;
use crate::serving::serve_first;
use crate::stepping::{finish, step_once};
use ask_lines::Ahead;
use ask_text::{End, Turn};
use desk_queues::{Queues, RING};
use disk_face::{Disk, Sink, Source};
use slot_codec::NoMemory;
use std::alloc::Global;
use std::marker::Model;
use store_core::Store;

/// A store that serves eight sessions, whose requests wait in queues, while a flush goes one move at a time.
/// Contracts see it as a `Bench`.
#[derive(Drop)]
pub struct Desk<const C: usize> {
    served: Served<C>,
    ahead: Ahead,
    text: Vec<u8>,
    queues: Queues,
    ended: bool,
    events: u64,
}

impl<const C: usize> Model for Desk<C> {
    ghost use Rattle.desk_core.specs.Benches.{Bench, bench_code};

    ghost Value = { Bench };

    ghost coded = { bench_code };

    ghost use Rattle.desk_core.specs.Inside.{IsSound, bench_of};

    ghost view = { bench_of };

    ghost invariant = { IsSound };
}

impl<const C: usize> Desk<C> {
    /// A desk of a store with no flush in hand, with the memory that it will ever have. Where there is no
    /// memory the store comes back.
    pub fn new(alloc: Global, store: Store<C>) -> Result<Desk<C>, (Store<C>, NoMemory)>
        requires idle { store.in_hand ≡ None }
        ensures ok { IfOk result (IsNewBench store.entry) }
        ensures refused { IfErr result (λ back. back.0 ≡ store.entry) }
    {
        let Ok(text) = vec![in alloc; 0; RING] else {
            return Err((store, NoMemory));
        };
        let Ok(queues) = Queues::new(alloc) else {
            return Err((store, NoMemory));
        };
        Ok(Desk {
            served: Served { store, session: 0 },
            ahead: Ahead::new(),
            text,
            queues,
            ended: false,
            events: 0,
        })
    }

    /// Reads one event, does it by at most one changing call of the store, and puts what it came to. Where
    /// the input is at its end, a flush in hand is settled by all of its steps, and the last lines are put.
    pub fn one<D: Disk, I: Source, O: Sink>(
        &mut self,
        disk: &mut D,
        input: &mut I,
        output: &mut O,
    ) -> Turn
        requires { MayGoOn C self.old (D.state disk.old) }
        ensures turn { IsDeskTurn C self.old self.new
            (outside (D.state disk.old) (I.state input.old) (O.state output.old))
            (outside (D.state disk.new) (I.state input.new) (O.state output.new)) result }
        ensures keeps { KeepsBench C self.old self.new
            (outside (D.state disk.old) (I.state input.old) (O.state output.old))
            (outside (D.state disk.new) (I.state input.new) (O.state output.new)) result }
        ensures ended { self.new.ended ≡ is_ended result }
        ensures events { self.new.events
            ≡ (if is_ended result then self.old.events else counted self.old.events 1) }
        ensures same_disk { is_unread result ≡ true → disk.new ≡ disk.old }
        ensures same_sink { is_unread result ≡ true → output.new ≡ output.old }
    {
        match read_event(&mut self.ahead, input) {
            Ok(EventLine::Say(session)) => {
                let text = &mut self.text[..];
                let done = hear(
                    &mut self.queues,
                    &mut self.ahead,
                    text,
                    session,
                    input,
                    output,
                );
                self.count(done)
            }
            Ok(EventLine::Serve(session)) => {
                let text = &mut self.text[..];
                let done = serve_first(
                    &mut self.served,
                    &mut self.queues,
                    text,
                    session,
                    disk,
                    output,
                );
                self.count(done)
            }
            Ok(EventLine::Step) => {
                let done = step_once(&mut self.served, disk, output);
                self.count(done)
            }
            Err(End::End) => {
                let waiting = self.queues.waiting();
                match finish(&mut self.served, disk, output, waiting) {
                    Ok(()) => self.end(End::End),
                    Err(end) => self.end(end),
                }
            }
            Err(end) => self.end(end),
        }
    }

    /// Counts an event that was answered, or ends the desk.
    fn count(&mut self, done: Result<(), End>) -> Turn
        ensures turn { result ≡ turn_of done }
        ensures counts { self.new ≡ counted_bench self.old done }
    {
        match done {
            Ok(()) => {
                self.events = self.events.saturating_add(1);
                Turn::Answered
            }
            Err(end) => self.end(end),
        }
    }

    /// Ends the desk.
    fn end(&mut self, end: End) -> Turn
        ensures turn { result ≡ Turn.Ended end }
        ensures flag { self.new ≡ record self.old { ended = true } }
    {
        self.ended = true;
        Turn::Ended(end)
    }

    /// What holds of its store.
    pub(crate) fn sound(&self)
        ensures { self.now.store.is_broken ≡ false → self.now.store.in_hand ≡ None
            → IsStore C self.now.store }
    {
        self.served.store.is_broken();
    }

    /// Whether the desk ended.
    pub fn ended(&self) -> bool
        ensures { result ≡ self.now.ended }
    {
        self.ended
    }

    /// How many events were answered; it stays at its last value.
    pub fn events(&self) -> u64
        ensures { result ≡ self.now.events }
    {
        self.events
    }

    /// Gives the store back.
    pub fn into_store(self) -> Store<C>
        ensures { result ≡ self.entry.store }
    {
        self.served.store
    }
}
