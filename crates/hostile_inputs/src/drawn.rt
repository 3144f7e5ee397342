//! The words that a number draws, to try a program with. The same number draws the same words everywhere.
ghost use Rattle.std.specs.Prelude.{◌≡◌, ◌<◌, ◌+◌, ◌*◌, ◌%◌, ◌^◌};
ghost use Rattle.rand_pcg.specs.{Lcg.{started, increment_of}, Pcg.{multiplier_64, pcg32}};

use rand_core::utils::NextWord;
use rand_pcg::Lcg64Xsh32;
use std::marker::Model;

/// The words of a number, of which some were drawn. Contracts see the generator that draws them.
#[derive(Drop)]
pub struct Drawn {
    words: Lcg64Xsh32,
}

impl Model for Drawn {
    ghost use Rattle.rand_pcg.specs.Lcg.{Lcg};

    ghost Value = { Lcg };

    ghost view = { λ drawn. drawn.words };
}

impl Drawn {
    /// The words of a number, from the first on.
    pub fn new(number: u64) -> Drawn
        ensures { result ≡ started 64 multiplier_64 number (increment_of 64 1) }
    {
        Drawn {
            words: Lcg64Xsh32::new(number, 1),
        }
    }

    /// The next word.
    pub fn word(&mut self) -> u32
        ensures value { result ≡ (pcg32 self.old).0 }
        ensures after { self.new ≡ (pcg32 self.old).1 }
    {
        self.words.next_word()
    }

    /// What is left of the next word where it is divided by a limit, which is not 0.
    pub fn below(&mut self, limit: u32) -> u32
        requires { 0 < limit }
        ensures value { result ≡ (pcg32 self.old).0 % limit }
        ensures below { result < limit }
        ensures after { self.new ≡ (pcg32 self.old).1 }
    {
        self.word() % limit
    }

    /// A number of 64 bits: the next word has the upper half, and the one behind it the lower.
    pub fn long(&mut self) -> u64
        ensures value { result ≡ (pcg32 self.old).0 * 2 ^ 32 + (pcg32 (pcg32 self.old).1).0 }
        ensures after { self.new ≡ (pcg32 (pcg32 self.old).1).1 }
    {
        let upper = self.word();
        let lower = self.word();
        u64::from(upper) * (1 << 32) + u64::from(lower)
    }
}
