//! Gaps of a file: spans that read as zeros, whatever the memory has there.
ghost use Rattle.std.specs.Prelude.{◌≡◌, ◌-◌, ◌≤◌};

/// The positions of a file from one up to another, which read as zeros.
#[derive(Clone, Copy)]
pub struct Gap {
    pub from: usize,
    pub to: usize,
}

impl Gap {
    ghost use Rattle.lent_disk.specs.Gaps.{before, part_at, since};

    /// How many bytes it has.
    pub fn size(self) -> usize
        requires { self.from ≤ self.to }
        ensures { result ≡ self.to - self.from }
    {
        self.to - self.from
    }

    /// Its part before a position.
    pub fn before(self, at: usize) -> Gap
        ensures { result ≡ before at self }
    {
        Gap {
            from: self.from.min(at),
            to: self.to.min(at),
        }
    }

    /// Its part from a position on.
    pub fn since(self, at: usize) -> Gap
        ensures { result ≡ since at self }
    {
        Gap {
            from: self.from.max(at),
            to: self.to.max(at),
        }
    }

    /// Its part within `n` bytes at a position, as a gap of these.
    pub fn part_at(self, at: usize, n: usize) -> Gap
        ensures { result ≡ part_at at n self }
    {
        Gap {
            from: self.from.saturating_sub(at).min(n),
            to: self.to.saturating_sub(at).min(n),
        }
    }
}
