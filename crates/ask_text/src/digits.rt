//! The number that bytes spell.
ghost use Rattle.std.specs.Prelude.{◌≡◌, ◌<◌, ◌^◌, ◌↔◌, ℕ, IsTrue, MatchOption};
ghost use Rattle.std.specs.Fmt.{decimal};

use itoa::Buffer;
use std::str;

/// The number below 2^64 that bytes spell: decimal digits without a sign or a leading zero.
pub fn number(bytes: &[u8]) -> Option<u64>
    ensures { MatchOption result ((n : ℕ) → n < 2 ^ 64 → bytes.now ≡ decimal n → ⊥)
        (λ n. bytes.now ≡ decimal n) }
{
    let Ok(text) = str::from_utf8(bytes) else {
        return None;
    };
    let Ok(n) = text.parse::<u64>() else {
        return None;
    };
    let mut digits = Buffer::new();
    if are_same(digits.format(n).as_bytes(), bytes) {
        Some(n)
    } else {
        None
    }
}

/// Whether these are the same bytes.
fn are_same(bytes: &[u8], others: &[u8]) -> bool
    ensures { IsTrue result ↔ (bytes.now ≡ others.now) }
{
    bytes == others
}
