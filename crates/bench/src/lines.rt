//! Lines that tell what was measured.
use std::io::{self, Print};

/// Whether lines are printed, and whether one of them couldn't be.
#[derive(Drop)]
pub struct Lines {
    is_told: bool,
    has_failed: bool,
}

impl Lines {
    /// No line yet.
    pub fn new(is_told: bool) -> Lines {
        Lines {
            is_told,
            has_failed: false,
        }
    }

    /// Prints a line: what was measured, and the text with a number in the place of each `#`.
    pub fn add(&mut self, rt: &HostRuntime, what: &str, text: &str, numbers: &[u64]) {
        if self.is_told && print_line(rt, what, text, numbers).is_err() {
            self.has_failed = true;
        }
    }

    /// A line couldn't be printed.
    pub fn has_failed(&self) -> bool {
        self.has_failed
    }
}

/// Prints a line.
fn print_line(rt: &HostRuntime, what: &str, text: &str, numbers: &[u64]) -> io::Result<()> {
    let mut left = numbers.iter();
    rt.print(what)?;
    for part in text.split('#') {
        rt.print(part)?;
        if let Some(number) = left.next() {
            rt.print(number)?;
        }
    }
    rt.println("")
}
