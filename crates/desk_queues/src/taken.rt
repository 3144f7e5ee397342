//! Taking the first request from a ring.
ghost use Rattle.std.specs.Prelude.{◌≡◌, ◌≤◌, ◌++◌, ◌∷◌, ℕ, List, length};
ghost use Rattle.circular_buffer.specs.Buffer.{buffer};
ghost use Rattle.map_model.specs.Requests.{Request};
ghost use Rattle.ask_text.specs.{Asks.{ask_of}, Inputs.{HasText, request_text}};
ghost use Rattle.desk_queues.specs.{Queues.{StandsIn}, Taken.{BeginsLine, BeginsText, Lacks}};

use arrayvec::ArrayVec;
use ask_text::{Ask, read_ask};
use circular_buffer::HeapCircularBuffer;

/// The longest line of a request, in bytes without its newline.
const LONGEST: usize = 270;

/// Takes the request whose text stands in front, and the object of a put into the front of `body`.
pub(crate) fn take_first(ring: &mut HeapCircularBuffer<u8>, body: &mut [u8]) -> Ask
    requires text { BeginsText ring.old.items }
    requires room { length ring.old.items ≤ length body.old }
    ensures ask { (r : Request) (rest : List ℕ) → HasText r → ring.old.items ≡ request_text r ++ rest
        → result ≡ ask_of r }
    ensures object { (r : Request) (rest : List ℕ) → HasText r → ring.old.items ≡ request_text r ++ rest
        → StandsIn body.new r }
    ensures left { (r : Request) (rest : List ℕ) → HasText r → ring.old.items ≡ request_text r ++ rest
        → ring.new ≡ buffer rest ring.old.capacity }
{
    let line = take_line(ring);
    let ask = read_ask(line.as_slice()).unwrap();
    if let Ask::Put { size, .. } = &ask {
        take_object(ring, &mut body[..*size as usize]);
    }
    ask
}

/// Takes the line that stands in front, and its newline too.
fn take_line(ring: &mut HeapCircularBuffer<u8>) -> ArrayVec<u8, LONGEST>
    requires line { BeginsLine ring.old.items }
    ensures line { (line rest : List ℕ) → Lacks 10 line → ring.old.items ≡ line ++ 10 ∷ rest
        → result.items ≡ line }
    ensures left { (line rest : List ℕ) → Lacks 10 line → ring.old.items ≡ line ++ 10 ∷ rest
        → ring.new ≡ buffer rest ring.old.capacity }
{
    let mut line = ArrayVec::new();
    'bytes: while let Some(byte) = ring.pop_front() {
        if byte == b'\n' {
            break;
        }
        line.push(byte);
    }
    line
}

/// Takes an object that fills `out`, and the newline behind it.
fn take_object(ring: &mut HeapCircularBuffer<u8>, out: &mut [u8])
    ensures object { (object rest : List ℕ) → length object ≡ length out.old
        → ring.old.items ≡ object ++ 10 ∷ rest → out.new ≡ object }
    ensures left { (object rest : List ℕ) → length object ≡ length out.old
        → ring.old.items ≡ object ++ 10 ∷ rest → ring.new ≡ buffer rest ring.old.capacity }
{
    ring.read_into(out);
    ring.pop_front();
}
