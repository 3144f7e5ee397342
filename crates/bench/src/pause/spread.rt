//! How long calls took: how many took at most how long.

/// Times of calls. Each is counted to within an eighth of itself, and the longest is kept.
#[derive(Clone, Copy)]
pub struct Spread {
    counts: [u64; 512],
    calls: u64,
    /// Nanoseconds.
    longest: u64,
}

impl Spread {
    /// No call yet.
    pub fn new() -> Spread {
        Spread {
            counts: [0; 512],
            calls: 0,
            longest: 0,
        }
    }

    /// Counts a call of so many nanoseconds.
    pub fn count(&mut self, nanos: u64) {
        if let Some(count) = self.counts.get_mut(place_of(nanos)) {
            *count = count.saturating_add(1);
        }
        self.calls = self.calls.saturating_add(1);
        self.longest = self.longest.max(nanos);
    }

    /// How many calls there were, and nanoseconds in which half of them ended, 99 of 100, and all.
    pub fn numbers(&self) -> [u64; 4] {
        [self.calls, self.within(50), self.within(99), self.longest]
    }

    /// Nanoseconds in which so many of a hundred calls ended, to within an eighth.
    fn within(&self, of_hundred: u64) -> u64 {
        let wanted = self.calls.saturating_mul(of_hundred) / 100;
        let mut seen = 0u64;
        for place in 0..self.counts.len() {
            seen = seen.saturating_add(self.counts[place]);
            if wanted <= seen && 0 < seen {
                return end_of(place).min(self.longest);
            }
        }
        self.longest
    }
}

/// Where a time is counted.
fn place_of(nanos: u64) -> usize {
    let some = nanos.max(8);
    let top = some.ilog2();
    let fine = (some >> top.saturating_sub(3).min(60)) % 8;
    (top.saturating_mul(8) as usize).saturating_add(fine as usize)
}

/// The longest time that is counted there.
fn end_of(place: usize) -> u64 {
    let (top, fine) = (place as u64 / 8, place as u64 % 8);
    let unit = 1u64 << top.saturating_sub(3).min(60);
    unit.saturating_mul(fine.saturating_add(9))
        .saturating_sub(1)
}
