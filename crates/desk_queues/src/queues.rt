//! The queues of all sessions.
ghost use Rattle.std.specs.Prelude.{◌≡◌, ◌+◌, ◌<◌, ◌≤◌, ◌++◌, ◌∷◌, ◌↔◌, [], ℕ, List, IfOk, IsTrue, length, slice_set};
ghost use Rattle.map_model.specs.Requests.{Request};
ghost use Rattle.ask_text.specs.{Asks.{ask_of}, Inputs.{HasText, request_text}};
ghost use Rattle.desk_model.specs.{Desks.{is_read, ring}, Events.{sessions}};
ghost use Rattle.desk_queues.specs.Queues.{Holds, IsText, StandsIn, no_requests, requests_at, ring_of};

use crate::taken::take_first;
use ask_text::Ask;
use circular_buffer::HeapCircularBuffer;
use std::alloc::{AllocError, Global};
use std::marker::Model;

/// How many sessions there are; they are numbered from 0.
pub const SESSIONS: usize = 8;

/// How many bytes of texts wait for one session at most.
pub const RING: usize = 1_048_576;

/// The requests that wait, by session: the texts of each session's in a ring of bytes, the oldest first.
/// Contracts see the bytes of the rings and how many requests wait, and by `Holds` the requests themselves.
#[derive(Drop)]
pub struct Queues {
    rings: Vec<HeapCircularBuffer<u8>>,
    waiting: u64,
}

impl Model for Queues {
    ghost use Rattle.desk_queues.specs.Queues.{Queued, queued_code};

    ghost Value = { Queued };

    ghost coded = { queued_code };

    ghost use Rattle.desk_queues.specs.Inside.{AreQueues, queued_of};

    ghost view = { queued_of };

    ghost invariant = { AreQueues };
}

impl Queues {
    /// Queues of no requests, with the memory that they will ever have.
    pub fn new(alloc: Global) -> Result<Queues, AllocError>
        ensures { IfOk result (λ queues. Holds queues no_requests) }
    {
        let mut rings = Vec::with_capacity(alloc, SESSIONS)?;
        'rings: while rings.len() < SESSIONS {
            rings.push_reserved(HeapCircularBuffer::with_capacity(alloc, RING)?);
        }
        Ok(Queues { rings, waiting: 0 })
    }

    /// How many bytes of texts a session's ring has room for.
    pub fn free(&self, session: usize) -> usize
        requires session { session < sessions }
        ensures value { result + length (ring_of self.now session) ≡ ring }
    {
        RING - self.rings[session].len()
    }

    /// Appends the text of a request, its line with its newline and what follows it, to those of a session.
    pub fn push(&mut self, session: usize, text: &[u8])
        requires session { session < sessions }
        requires text { IsText text.now }
        requires fits { length (ring_of self.old session) + length text.now ≤ ring }
        ensures { (qs : List (List Request)) (r : Request) → Holds self.old qs → HasText r
            → text.now ≡ request_text r
            → Holds self.new (slice_set qs session (requests_at qs session ++ r ∷ [])) }
    {
        self.rings[session].fill_from_slice(text);
        self.waiting += 1;
    }

    /// Whether no request of a session waits.
    pub fn is_empty(&self, session: usize) -> bool
        requires session { session < sessions }
        ensures bytes { IsTrue result ↔ (ring_of self.now session ≡ []) }
        ensures requests { (qs : List (List Request)) → Holds self.now qs
            → IsTrue result ↔ (requests_at qs session ≡ []) }
    {
        self.rings[session].is_empty()
    }

    /// Whether the first request of a session is a `get` or a `list`; of those alone the first byte is `g`
    /// or `l`.
    pub fn is_read(&self, session: usize) -> bool
        requires session { session < sessions }
        ensures { (qs : List (List Request)) (r : Request) (rest : List Request) → Holds self.now qs
            → requests_at qs session ≡ r ∷ rest → result ≡ is_read r }
    {
        let first = self.rings[session].front().copied();
        first == Some(b'g') || first == Some(b'l')
    }

    /// Takes the first request of a session: what its line asks for, and the object of a put into the front
    /// of `body`.
    pub fn take(&mut self, session: usize, body: &mut [u8]) -> Ask
        requires session { session < sessions }
        requires some { ring_of self.old session ≡ [] → ⊥ }
        requires room { ring ≤ length body.old }
        ensures ask { (qs : List (List Request)) (r : Request) (rest : List Request) → Holds self.old qs
            → requests_at qs session ≡ r ∷ rest → result ≡ ask_of r }
        ensures object { (qs : List (List Request)) (r : Request) (rest : List Request) → Holds self.old qs
            → requests_at qs session ≡ r ∷ rest → StandsIn body.new r }
        ensures left { (qs : List (List Request)) (r : Request) (rest : List Request) → Holds self.old qs
            → requests_at qs session ≡ r ∷ rest → Holds self.new (slice_set qs session rest) }
    {
        self.waiting -= 1;
        take_first(&mut self.rings[session], body)
    }

    /// How many requests wait, of all sessions.
    pub fn waiting(&self) -> u64
        ensures value { result ≡ self.now.count }
        ensures held { (qs : List (List Request)) × Holds self.now qs }
    {
        self.waiting
    }
}
