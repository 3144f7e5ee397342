//! Bytes that come in from memory.
ghost use Rattle.std.specs.Prelude.{◌≡◌, ◌≤◌, drop, length};

use disk_face::{Source, SourceFault};

/// Gives the bytes of a caller's memory, from the first on. It never fails.
#[derive(Drop)]
pub struct TextSource<'a> {
    bytes: &'a [u8],
    at: usize,
    ghost inside: { at ≤ length bytes.now },
}

impl<'a> TextSource<'a> {
    /// All of them are left.
    pub fn new(bytes: &'a [u8]) -> TextSource<'a>
        ensures { drop result.at result.bytes.now ≡ bytes.now }
    {
        TextSource { bytes, at: 0 }
    }
}

impl Source for TextSource<'_> {
    ghost use Rattle.std.specs.Prelude.{drop, true};

    ghost state = { λ s. record { tells = true; left = drop s.at s.bytes.now; faults = 0 } };

    fn take(&mut self, out: &mut [u8]) -> Result<usize, SourceFault> {
        let n = out.len().min(self.bytes.len() - self.at);
        let end = self.at + n;
        out[..n].copy_from_slice(&self.bytes[self.at..end]);
        self.at = end;
        Ok(n)
    }
}
