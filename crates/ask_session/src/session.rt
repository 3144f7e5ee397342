//! A session, and one turn of it.
ghost use Rattle.std.specs.Prelude.{◌≡◌, false, true, if◌then◌else◌, IfOk, IfErr, None};
ghost use Rattle.disk_face.specs.Counts.{counted};
ghost use Rattle.store_model.specs.Stores.{IsStore};
ghost use Rattle.ask_session.specs.{Inputs.{HasSourceCause}, Outside.{outside}};
ghost use Rattle.ask_session.specs.{Ready.{MayGoOn}, Sittings.{new_sitting}, Turns.{IsTurn}};
ghost use Rattle.ask_text.specs.Ends.{is_ended, is_unserved, result_of};

use crate::{read_request, serve};
use ask_lines::Ahead;
use ask_text::{End, Turn};
use disk_face::{Disk, Sink, Source};
use size_class::SIZE_MAX;
use slot_codec::NoMemory;
use std::alloc::Global;
use std::marker::Model;
use store_core::Store;

/// A store that serves requests from a source, and puts its replies to a sink. Contracts see it as a
/// `Sitting`.
#[derive(Drop)]
pub struct Session<const C: usize> {
    pub(crate) store: Store<C>,
    ahead: Ahead,
    body: Vec<u8>,
    ended: bool,
    done: u64,
    kept_done: u64,
    kept_turn: u64,
}

impl<const C: usize> Model for Session<C> {
    ghost use Rattle.ask_session.specs.Sittings.{Sitting, sitting_code};

    ghost Value = { Sitting };

    ghost coded = { sitting_code };

    ghost use Rattle.ask_session.specs.Inside.{HasRoom, sitting_of};

    ghost view = { sitting_of };

    ghost invariant = { HasRoom };
}

impl<const C: usize> Session<C> {
    /// A session of a store with no flush in hand, with the memory that it will ever have. `turn` is the
    /// disk's turn that is told until a checkpoint is acknowledged. Where there is no memory the store comes
    /// back.
    pub fn new(
        alloc: Global,
        store: Store<C>,
        turn: u64,
    ) -> Result<Session<C>, (Store<C>, NoMemory)>
        requires idle { store.in_hand ≡ None }
        ensures ok { IfOk result (λ session. session ≡ new_sitting store.entry turn) }
        ensures refused { IfErr result (λ back. back.0 ≡ store.entry) }
    {
        let Ok(body) = Vec::with_capacity(alloc, SIZE_MAX as usize) else {
            return Err((store, NoMemory));
        };
        Ok(Session {
            store,
            ahead: Ahead::new(),
            body,
            ended: false,
            done: 0,
            kept_done: 0,
            kept_turn: turn,
        })
    }

    /// Reads one request, serves it, and puts its reply.
    pub fn one<D: Disk, I: Source, O: Sink>(
        &mut self,
        disk: &mut D,
        input: &mut I,
        output: &mut O,
    ) -> Turn
        requires { MayGoOn C self.old (D.state disk.old) }
        ensures turn { IsTurn C self.old self.new
            (outside (D.state disk.old) (I.state input.old) (O.state output.old))
            (outside (D.state disk.new) (I.state input.new) (O.state output.new)) result }
        ensures ended { self.new.ended ≡ is_ended result }
        ensures sound { self.new.store.is_broken ≡ false → IsStore C self.new.store }
        ensures same_disk { is_unserved result ≡ true → disk.new ≡ disk.old }
        ensures same_sink { is_unserved result ≡ true → output.new ≡ output.old }
        ensures told { (I.state input.new).tells ≡ (I.state input.old).tells }
        ensures cause { HasSourceCause (I.state input.old).faults (I.state input.new).faults
            (result_of result) }
    {
        match read_request(&mut self.ahead, input, &mut self.body) {
            Ok(ask) => match serve(&mut self.store, disk, output, &ask, &self.body) {
                Ok(kept) => self.count(kept, disk.turns()),
                Err(end) => self.end(end),
            },
            Err(end) => self.end(end),
        }
    }

    /// Counts a request that was answered.
    fn count(&mut self, kept: bool, turn: u64) -> Turn
        requires idle { self.old.store.in_hand ≡ None }
        ensures answered { result ≡ Turn.Answered }
        ensures counts { self.new ≡ record self.old {
          done = counted self.old.done 1;
          kept_done = if kept then counted self.old.done 1 else self.old.kept_done;
          kept_turn = if kept then turn else self.old.kept_turn;
        } }
        ensures sound { self.new.store.is_broken ≡ false → IsStore C self.new.store }
    {
        let _ = self.store.is_broken();
        self.done = self.done.saturating_add(1);
        if kept {
            self.kept_done = self.done;
            self.kept_turn = turn;
        }
        Turn::Answered
    }

    /// Ends the session.
    fn end(&mut self, end: End) -> Turn
        requires idle { self.old.store.in_hand ≡ None }
        ensures ended { result ≡ Turn.Ended end }
        ensures flag { self.new ≡ record self.old { ended = true } }
        ensures sound { self.new.store.is_broken ≡ false → IsStore C self.new.store }
    {
        let _ = self.store.is_broken();
        self.ended = true;
        Turn::Ended(end)
    }

    /// Whether the session ended.
    pub fn ended(&self) -> bool
        ensures { result ≡ self.now.ended }
    {
        self.ended
    }

    /// How many requests were answered; it stays at its last value.
    pub fn done(&self) -> u64
        ensures { result ≡ self.now.done }
    {
        self.done
    }

    /// How many of them the last acknowledged checkpoint holds.
    pub fn kept_done(&self) -> u64
        ensures { result ≡ self.now.kept_done }
    {
        self.kept_done
    }

    /// The disk's turn when that checkpoint was acknowledged.
    pub fn kept_turn(&self) -> u64
        ensures { result ≡ self.now.kept_turn }
    {
        self.kept_turn
    }

    /// Gives the store back.
    pub fn into_store(self) -> Store<C>
        ensures { result ≡ self.entry.store }
    {
        self.store
    }
}
