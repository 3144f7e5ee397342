//! The jobs of a number that are left.
ghost use Rattle.std.specs.Prelude.{◌≤◌, ◌+◌};

use rand_pcg::Lcg64Xsh32;

/// The jobs that a number gives, of which some are left.
#[derive(Drop)]
pub struct Work {
    pub(crate) words: Lcg64Xsh32,
    pub(crate) names: u64,
    pub(crate) next: u64,
    pub(crate) draws: u64,
    pub(crate) is_done: bool,
    ghost low: { 16 ≤ names },
    ghost high: { names ≤ 65536 },
    ghost few: { next + draws ≤ 1000001 },
}
