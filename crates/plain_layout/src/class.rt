//! The class of a size.
ghost use Rattle.std.specs.Prelude.{◌≡◌, ◌<◌};
ghost use Rattle.size_class.specs.Classes.{class_of};

/// The class of a size in bytes: how many powers of two below 2^32 are at most the size, less one.
#[tactic(auto, using(crate::proofs::SumSteps::count_yes, crate::proofs::SumSteps::count_no, crate::proofs::SumSteps::count_all), unfolding(size_class::specs::Classes::class_of))]
pub fn class_of(size: u64) -> u8
    ensures same { result ≡ class_of size }
    ensures small { result < 32 }
{
    let mut powers = 0u8;
    'powers: for c in 0..32u8 {
        if 1u64 << c <= size {
            powers += 1;
        }
    }
    powers.saturating_sub(1)
}
