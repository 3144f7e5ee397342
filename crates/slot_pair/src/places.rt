//! Where the parts of a slot stand, in bytes of the file.
ghost use Rattle.std.specs.Prelude.{◌≡◌, ◌≤◌};
ghost use Rattle.slot_codec.specs.{Logs.{log_top}, Spelling.{gate_at, slot_at}};

use slot_codec::{SECTOR_LEN, SUPERBLOCK_LEN, slot_len};

/// Where a slot begins.
pub fn slot_at(names: u64, slot: u8) -> u64
    requires low { 16 ≤ names }
    requires high { names ≤ 65536 }
    requires slot { slot ≤ 1 }
    ensures { result ≡ slot_at names slot }
{
    SUPERBLOCK_LEN as u64 + slot as u64 * slot_len(names)
}

/// Where the gate of a slot is.
pub fn gate_at(names: u64, slot: u8) -> u64
    requires low { 16 ≤ names }
    requires high { names ≤ 65536 }
    requires slot { slot ≤ 1 }
    ensures { result ≡ gate_at names slot }
{
    slot_at(names, slot) + slot_len(names) - 1
}

/// Where the log of a slot must end: where the sector of 512 bytes begins that has the slot's gate.
pub fn log_top(names: u64, slot: u8) -> u64
    requires low { 16 ≤ names }
    requires high { names ≤ 65536 }
    requires slot { slot ≤ 1 }
    ensures { result ≡ log_top names slot }
{
    gate_at(names, slot) / SECTOR_LEN * SECTOR_LEN
}
