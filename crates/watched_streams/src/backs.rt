//! Which requests of an input are a `back`, told from its source to the sink of its replies.
use std::cell::Cell;

/// How many requests may wait for their replies, in 64s. A session reads at most 4,096 bytes ahead, and
/// so at most 820 requests, of five bytes each.
const WORDS: usize = 16;

/// As many requests.
const MOST: u64 = 1024;

/// Which of the requests are a `back` that were given and aren't answered yet. The source notes each as it
/// gives its line, and the sink asks as a reply begins.
#[derive(Drop)]
pub struct Backs {
    waiting: Cell<Waiting>,
}

impl Backs {
    /// Nothing was given.
    pub fn new() -> Backs {
        Backs {
            waiting: Cell::new(Waiting {
                given: 0,
                answered: 0,
                words: [0; WORDS],
            }),
        }
    }

    /// Notes a request that was given.
    pub(crate) fn note(&self, is_back: bool) {
        self.waiting.set(with_one(self.waiting.get(), is_back));
    }

    /// Whether the request is a `back` whose reply comes next. Where more wait than there is room for, it
    /// isn't known to be one.
    pub(crate) fn answer(&self) -> bool {
        let mut waiting = self.waiting.get();
        let is_back = next_is_back(&waiting);
        waiting.answered = waiting.answered.saturating_add(1);
        self.waiting.set(waiting);
        is_back
    }
}

/// The requests that wait for their replies: those from number `answered` on, before number `given`. Each has
/// a bit, by its number modulo `MOST`: whether it is a `back`.
#[derive(Clone, Copy)]
struct Waiting {
    given: u64,
    answered: u64,
    words: [u64; WORDS],
}

/// The requests that wait, and one more.
fn with_one(mut waiting: Waiting, is_back: bool) -> Waiting {
    let at = (waiting.given % MOST / 64) as usize;
    let bit = 1 << (waiting.given % 64);
    if is_back {
        waiting.words[at] |= bit;
    } else {
        waiting.words[at] &= !bit;
    }
    waiting.given = waiting.given.saturating_add(1);
    waiting
}

/// Whether the first that waits is a `back`.
fn next_is_back(waiting: &Waiting) -> bool {
    let number = waiting.answered;
    if number >= waiting.given || waiting.given - number > MOST {
        return false;
    }
    let word = waiting.words[(number % MOST / 64) as usize];
    word >> (number % 64) & 1 == 1
}
