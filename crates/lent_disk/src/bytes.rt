//! What a call does to the bytes of a file, and to those of a log.
ghost use Rattle.std.specs.Prelude.{◌≡◌, ◌≤◌, ◌+◌, ◌++◌, length, take};
ghost use Rattle.byte_ranges.specs.Ranges.{bytes_at, overwritten};
ghost use Rattle.lent_disk.specs.Calls.{entry, entry_head, number};

/// Copies bytes from a position on.
pub fn get(file: &[u8], at: usize, out: &mut [u8])
    requires { at + length out.old ≤ length file.now }
    ensures { out.new ≡ bytes_at file.now at (length out.old) }
{
    out.copy_from_slice(&file[at..at + out.len()]);
}

/// Writes bytes at a position, and keeps what stands after them.
pub fn put(file: &mut [u8], at: usize, bytes: &[u8])
    requires { at + length bytes.now ≤ length file.old }
    ensures { file.new ≡ overwritten file.old at bytes.now }
{
    file[at..at + bytes.len()].copy_from_slice(bytes);
}

/// Writes bytes right after a text. What stands after them isn't kept.
pub fn append(out: &mut [u8], at: usize, bytes: &[u8])
    requires { at + length bytes.now ≤ length out.old }
    ensures text { take (at + length bytes.now) out.new ≡ take at out.old ++ bytes.now }
    ensures same_length { length out.new ≡ length out.old }
{
    out[at..at + bytes.len()].copy_from_slice(bytes);
}

/// Writes a number right after a text.
pub fn append_number(out: &mut [u8], at: usize, value: u64)
    requires { at + 8 ≤ length out.old }
    ensures text { take (at + 8) out.new ≡ take at out.old ++ number value }
    ensures same_length { length out.new ≡ length out.old }
{
    append(out, at, &value.to_le_bytes());
}

/// Writes the entry of a call right after a text.
pub fn append_entry(out: &mut [u8], end: usize, kind: u8, at: u64, bytes: &[u8])
    requires { end + entry_head + length bytes.now ≤ length out.old }
    ensures text { take (end + entry_head + length bytes.now) out.new
        ≡ take end out.old ++ entry kind at bytes.now }
    ensures same_length { length out.new ≡ length out.old }
{
    let at_number = end + 1;
    let at_count = at_number + 8;
    let at_bytes = at_count + 8;
    append(out, end, &[kind]);
    append_number(out, at_number, at);
    append_number(out, at_count, bytes.len() as u64);
    append(out, at_bytes, bytes);
}
