//! A stream that passes on little at a time.
use std::io::{self, ErrorKind, Read, Write};

/// How a call fails: by an error, or by passing on nothing.
#[derive(Clone, Copy)]
pub enum Failing {
    ByError,
    ByNothing,
}

/// Passes on at most three bytes a call. Each second call is interrupted, and of the others the one of the
/// number `fails` fails, counted from 1.
#[derive(Drop)]
pub struct Slow {
    pub bytes: Vec<u8>,
    pub at: usize,
    pub calls: u64,
    pub fails: u64,
    pub how: Failing,
}

impl Slow {
    pub fn new(bytes: Vec<u8>, fails: u64, how: Failing) -> Slow {
        Slow {
            bytes,
            at: 0,
            calls: 0,
            fails,
            how,
        }
    }

    /// Counts a call, and answers whether it passes bytes on, where it doesn't end with an error.
    fn call(&mut self) -> io::Result<bool> {
        self.calls = self.calls.wrapping_add(1);
        if self.calls % 2 == 1 {
            return Err(io::Error::from(ErrorKind::Interrupted));
        }
        if self.calls / 2 != self.fails {
            return Ok(true);
        }
        match self.how {
            Failing::ByError => Err(io::Error::from(ErrorKind::Other)),
            Failing::ByNothing => Ok(false),
        }
    }
}

impl Read for Slow {
    fn read(&mut self, buf: &mut [u8]) -> io::Result<usize> {
        if !self.call()? {
            return Ok(0);
        }
        let start = self.at.min(self.bytes.len());
        let n = buf.len().min(3).min(self.bytes.len() - start);
        buf[..n].copy_from_slice(&self.bytes[start..start + n]);
        self.at = start + n;
        Ok(n)
    }
}

impl Write for Slow {
    fn write(&mut self, buf: &[u8]) -> io::Result<usize> {
        if !self.call()? {
            return Ok(0);
        }
        let n = buf.len().min(3);
        match self.bytes.extend_from_slice(&buf[..n]) {
            Ok(()) => Ok(n),
            Err(_) => Err(io::Error::from(ErrorKind::OutOfMemory)),
        }
    }

    fn flush(&mut self) -> io::Result<()> {
        Ok(())
    }
}
