//! A span of bytes.
ghost use Rattle.std.specs.Prelude.{◌≡◌, ◌+◌, ◌<◌, ◌^◌};

/// `size` bytes from `place` on, counted from the start of the data part. Its end is below 2^63.
#[derive(Clone, Copy, Debug, PartialEq, Eq)]
pub struct Span {
    pub place: u64,
    pub size: u64,
    pub ghost fits: { place + size < 2 ^ 63 },
}

impl Span {
    /// The place just past its last byte.
    pub fn end(&self) -> u64
        ensures { result ≡ self.now.place + self.now.size }
    {
        self.place + self.size
    }
}
