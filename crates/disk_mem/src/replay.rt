//! What a call does to the bytes of a file.
ghost use Rattle.std.specs.Prelude.{◌≡◌, ◌≤◌, ◌+◌, length, vec_capacity, OnOk};
ghost use Rattle.byte_ranges.specs.Ranges.{overwritten, resized};

use std::alloc::AllocError;

/// Writes the bytes over those at a place within the file.
pub fn put(file: &mut Vec<u8>, pos: u64, bytes: &[u8])
    requires { pos + length bytes.now ≤ length file.old.items }
    ensures items { file.new.items ≡ overwritten file.old.items pos bytes.now }
    ensures capacity { vec_capacity file.new ≡ vec_capacity file.old }
{
    let start = pos as usize;
    file[start..start + bytes.len()].copy_from_slice(bytes);
}

/// Takes memory for a length.
pub fn make_room(file: &mut Vec<u8>, n: u64) -> Result<(), AllocError>
    ensures items { file.new.items ≡ file.old.items }
    ensures ok { OnOk result (n ≤ vec_capacity file.new) }
{
    file.reserve((n as usize).saturating_sub(file.len()))
}

/// Cuts the file, or grows it by zeros within its memory.
pub fn cut_or_grow(file: &mut Vec<u8>, n: u64)
    requires { n ≤ vec_capacity file.old }
    ensures items { file.new.items ≡ resized file.old.items n }
    ensures capacity { vec_capacity file.old ≤ vec_capacity file.new }
{
    file.resize(n as usize, 0).unwrap();
}
