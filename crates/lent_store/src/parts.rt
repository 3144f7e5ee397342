//! A part of an object.
ghost use Rattle.std.specs.Prelude.{◌≡◌, ◌≤◌, ◌+◌, drop, length, take};
ghost use Rattle.byte_ranges.specs.Ranges.{bytes_at};

use crate::LentStore;
use store_core::Refusal;

impl LentStore {
    ghost use Rattle.lent_store.specs.{Embedded.{file_in}, Readings.{ReadsPart, part_size}};

    /// Copies bytes of an object, from an offset on, to the front of `out`, also while a flush is in hand, and
    /// answers how many: as many as there are from there on, and `out` has room for. They aren't compared with
    /// a digest.
    pub fn read_part(&self, name: &[u8], from: u64, out: &mut [u8]) -> Result<u64, Refusal>
        ensures { ReadsPart name.now from self.now out.old out.new result }
    {
        match (self.position(name), self.size(name)) {
            (Ok(at), Ok(size)) => Ok(self.copy_part(at, size, from, out)),
            (Err(refusal), _) | (_, Err(refusal)) => Err(refusal),
        }
    }

    /// Copies bytes, from an offset on, of those of the file that begin at a position and are so many.
    fn copy_part(&self, at: u64, size: u64, from: u64, out: &mut [u8]) -> u64
        requires within { at + size ≤ length (file_in self.now) }
        ensures count { result ≡ part_size size from (length out.old) }
        ensures part { take result out.new ≡ bytes_at (bytes_at (file_in self.now) at size) from result }
        ensures rest { drop result out.new ≡ drop result out.old }
        ensures same_length { length out.new ≡ length out.old }
    {
        // For the prover: positions in the file are numbers of 64 bits.
        let _ = self.end();
        let count = size.saturating_sub(from).min(out.len() as u64);
        if count > 0 {
            let begin = (at + from) as usize;
            self.copy(begin, &mut out[..count as usize]);
        }
        count
    }
}
