//! What there is in a store: its names, and how many bytes they have.
ghost use Rattle.std.specs.Prelude.{◌≡◌, ℕ, List, false, true, ◌↔◌, None, IsErr, IsNone, IsSome, IsTrue, OnErr, OnOk, IfOk, Err, length, take};
ghost use Rattle.std.specs.FinMap as fin;
ghost use Rattle.disk_face.specs.Streams.{Puts};
ghost use Rattle.extent_table.specs.Extents.{volume_of};
ghost use Rattle.map_model.specs.Requests as ask;
ghost use Rattle.store_model.specs.Answers.{AnswersList, listed_into, refused_by};
ghost use Rattle.store_model.specs.{Connection.{IsOver, limits_of, state_of}, Lines.{lines_of, listing_of}, States.{Step}};
ghost use Rattle.data_area.specs.Causes.{HasSinkCause};

use crate::lines::{copy_lines, put_lines};
use crate::{Refusal, Stat, Store};
use disk_face::Sink;

impl<const C: usize> Store<C> {
    /// Puts a line for each name, the name and the size of its object, by rising name, also while a flush
    /// is in hand. Where the sink fails, a front of the lines was put.
    pub fn list<O: Sink>(&self, sink: &mut O) -> Result<(), Refusal>
        ensures answer { AnswersList (refused_by self.now ask.list) result }
        ensures refused { IsSome (refused_by self.now ask.list) → IsTrue (O.state sink.old).tells
            → (O.state sink.new).given ≡ (O.state sink.old).given }
        ensures put { IsNone (refused_by self.now ask.list) → IsTrue (O.state sink.old).tells
            → Puts (O.state sink.old).given (O.state sink.new).given (lines_of (listing_of self.now.now))
            result }
        ensures step { (file : List ℕ) → self.now.in_hand ≡ None → IsOver C self.now file → OnOk result
            (Step (limits_of self.now) (state_of self.now file) ask.list
            (ask.listed (listing_of self.now.now)) (state_of self.now file)) }
        ensures cause { HasSinkCause Refusal.Sink (O.state sink.old) (O.state sink.new) result }
    {
        if self.is_broken() {
            return Err(Refusal::Broken);
        }
        put_lines(&self.hands.table, sink)
    }

    /// Copies the lines of a list to the front of `out`, and answers how many bytes they have, also while a
    /// flush is in hand. The sink failed where they don't fit.
    pub fn list_into(&self, out: &mut [u8]) -> Result<u64, Refusal>
        ensures answer { result ≡ listed_into (refused_by self.now ask.list)
            (length (lines_of (listing_of self.now.now))) (length out.old) }
        ensures lines { IfOk result (λ n. take n out.new ≡ lines_of (listing_of self.now.now)) }
        ensures refused { IsSome (refused_by self.now ask.list) → out.new ≡ out.old }
        ensures same_length { length out.new ≡ length out.old }
    {
        if self.is_broken() {
            return Err(Refusal::Broken);
        }
        copy_lines(&self.hands.table, out)
    }

    /// How many names and bytes there are, now and at the last checkpoint.
    pub fn stat(&self) -> Result<Stat, Refusal>
        requires idle { self.now.in_hand ≡ None }
        ensures broken { IsErr result ↔ (self.now.is_broken ≡ true) }
        ensures refused { OnErr result (result ≡ Err Refusal.Broken) }
        ensures names { IfOk result (λ s. s.names ≡ fin.len self.now.now) }
        ensures bytes { IfOk result (λ s. s.bytes ≡ volume_of self.now.now) }
        ensures kept_names { IfOk result (λ s. s.kept_names ≡ fin.len self.now.kept) }
        ensures kept_bytes { IfOk result (λ s. s.kept_bytes ≡ volume_of self.now.kept) }
        ensures step { (file : List ℕ) → IsOver C self.now file → IfOk result
            (λ s. Step (limits_of self.now) (state_of self.now file) ask.stat
            (ask.counts s.names s.bytes s.kept_names s.kept_bytes) (state_of self.now file)) }
    {
        if self.is_broken() {
            return Err(Refusal::Broken);
        }
        let hands = &*self.hands;
        Ok(Stat {
            names: hands.table.count(),
            bytes: hands.table.volume(),
            kept_names: hands.table.kept_count(),
            kept_bytes: hands.table.kept_volume(),
        })
    }
}
