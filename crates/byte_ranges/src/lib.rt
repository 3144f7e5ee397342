//! Byte strings by position: the words in which disks, formats and stores speak of a file.
#![tactic(auto)]

ghost use Rattle.std.specs.Prelude.{◌≡◌, ℕ, ◌+◌, ◌≤◌, List, length};
ghost use Rattle.byte_ranges.specs.Ranges.{SameOutside, overwritten, bytes_at};

/// A range may be widened.
pub fn a_change_may_be_widened()
    ensures { (at n low m : ℕ) (a b : List ℕ) → low ≤ at → at + n ≤ low + m → SameOutside at n a b
        → SameOutside low m a b }
{}

/// What was written is what is read, and nothing else changed.
pub fn a_write_is_read()
    ensures read { (file : List ℕ) (at : ℕ) (bytes : List ℕ) → at + length bytes ≤ length file
        → bytes_at (overwritten file at bytes) at (length bytes) ≡ bytes }
    ensures outside { (file : List ℕ) (at : ℕ) (bytes : List ℕ) → at + length bytes ≤ length file
        → SameOutside at (length bytes) file (overwritten file at bytes) }
{}
