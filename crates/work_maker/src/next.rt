//! Making the jobs one after another.
ghost use Rattle.std.specs.Prelude.{◌≡◌, ◌≤◌, ◌<◌, ◌+◌, ◌↔◌, ◌∷◌, [], IfSome, IsNone};
ghost use Rattle.rand_pcg.specs.Pcg.{pcg32};
ghost use Rattle.work_maker.specs.{Jobs.{jobs}, Making.{asked_by, jobs_left}};

use crate::job::drawn;
use crate::{Job, Work};
use rand_core::utils::NextWord;
use rand_pcg::Lcg64Xsh32;

impl Work {
    /// All jobs of a number: `count` of them, from 1 to 1,000,000, and a checkpoint, for a store with room
    /// for `names` names, from 16 to 65,536. It takes no memory.
    pub fn new(number: u64, count: u64, names: u64) -> Work
        requires least { 1 ≤ count }
        requires most { count ≤ 1000000 }
        requires low { 16 ≤ names }
        requires high { names ≤ 65536 }
        ensures { jobs_left result ≡ jobs number count names }
    {
        Work {
            words: Lcg64Xsh32::new(number, 1),
            names,
            next: 1,
            draws: count,
            is_done: false,
        }
    }

    /// The next job; none exactly where all were given.
    #[tactic(auto, using(crate::proofs::LeftLaws::one_more, crate::proofs::LeftLaws::some_left))]
    pub fn next(&mut self) -> Option<Job>
        ensures next { IfSome result (λ job. jobs_left self.old ≡ asked_by job ∷ jobs_left self.new) }
        ensures end { IsNone result ↔ (jobs_left self.old ≡ []) }
        ensures same { IsNone result → jobs_left self.new ≡ [] }
    {
        if self.is_done {
            return None;
        }
        if self.draws == 0 {
            self.is_done = true;
            return Some(Job::Keep);
        }
        let x = word(&mut self.words);
        let y = word(&mut self.words);
        let z = word(&mut self.words);
        let job = drawn(self.names, self.next, x, y, z);
        self.draws -= 1;
        self.next += 1;
        Some(job)
    }
}

/// The next word of the generator.
fn word(words: &mut Lcg64Xsh32) -> u32
    ensures value { result ≡ (pcg32 words.old).0 }
    ensures after { words.new ≡ (pcg32 words.old).1 }
{
    words.next_word()
}
