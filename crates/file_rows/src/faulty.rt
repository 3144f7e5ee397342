//! A system that notes each call, and fails one.
ghost use Rattle.std.specs.Prelude.{◌≤◌, ◌+◌, true};

use disk_file::{Host, How, Kind, Use};
use std::cell::Cell;
use std::io::{self, ErrorKind};

/// A file of up to 16 bytes, of which a read or a write passes on three at most. The call of the
/// number `fails` fails, counted from 1; where it `stutters`, each second read and write is
/// interrupted. `log` has a hexadecimal digit for each of the last calls.
#[derive(Drop)]
pub struct Faulty {
    /// What stands under the name `f`.
    pub kind: Option<Kind>,
    /// What an opened file turns out to be.
    pub opened: Kind,
    pub held: bool,
    /// Whether a standard stream has the file.
    pub streams: bool,
    /// Whether the name leads elsewhere.
    pub strays: bool,
    pub fails: u64,
    /// How the call that fails does so.
    pub failing: ErrorKind,
    pub stutters: bool,
    pub bytes: [u8; 16],
    pub len: usize,
    pub turns: u64,
    pub calls: Cell<u64>,
    pub log: Cell<u64>,
}

pub const LOOK: u64 = 1;

pub const OPEN: u64 = 2;

pub const KIND: u64 = 3;

pub const LOCK: u64 = 4;

pub const SYNC_ALL: u64 = 5;

pub const SYNC_FOLDER: u64 = 6;

pub const LENGTH: u64 = 7;

pub const READ: u64 = 8;

pub const WRITE: u64 = 9;

pub const RESIZE: u64 = 10;

pub const SYNC_DATA: u64 = 11;

pub const SEE_FOLDER: u64 = 12;

pub const IS_STREAM: u64 = 13;

pub const LEADS: u64 = 14;

impl Faulty {
    /// A system in which something stands under the name `f`, or nothing.
    pub fn new(kind: Option<Kind>, fails: u64) -> Faulty {
        Faulty {
            kind,
            opened: Kind::File,
            held: false,
            streams: false,
            strays: false,
            fails,
            failing: ErrorKind::Other,
            stutters: false,
            bytes: [7; 16],
            len: 0,
            turns: 0,
            calls: Cell::new(0),
            log: Cell::new(0),
        }
    }

    /// Notes a call, and fails the one that is to.
    fn call(&self, digit: u64) -> io::Result<()> {
        let number = self.calls.get().wrapping_add(1);
        self.calls.set(number);
        self.log
            .set(self.log.get().wrapping_mul(16).wrapping_add(digit));
        if number == self.fails {
            return Err(io::Error::from(self.failing));
        }
        if self.stutters && number % 2 == 1 && (digit == READ || digit == WRITE) {
            return Err(io::Error::from(ErrorKind::Interrupted));
        }
        Ok(())
    }

    /// Where a read or a write of so many bytes begins, and how many it passes on.
    fn part(&self, pos: u64, n: usize) -> (usize, usize)
        ensures within { result.0 + result.1 ≤ 16 }
        ensures bound { result.1 ≤ n }
    {
        let len = self.len.min(16);
        let start = (pos as usize).min(len);
        (start, n.min(3).min(len - start))
    }
}

impl Host for Faulty {
    ghost use Rattle.std.proofs.Common.{arith};
    ghost use Rattle.std.proofs.lemmas.Bool.{false≢true};
    ghost use Rattle.disk_file.specs.{Hosts.{untold_marks}, Mounted.{untold}};

    ghost state = { λ host. untold host.turns true };

    ghost marks = { λ _. untold_marks };

    ghost lawful = { λ host. record {
      has_content = λ told. absurd (false≢true told);
      both_told = λ told. told;
      counts_now = λ t image t_le is. is;
      only_now = λ image below since. since;
      turn_fits = omega arith;
    } };

    fn look(&self, name: &str) -> io::Result<Kind> {
        self.call(LOOK)?;
        match self.kind {
            Some(kind) if name == "f" => Ok(kind),
            _ => Err(io::Error::from(ErrorKind::NotFound)),
        }
    }

    fn open(&mut self, _name: &str, how: How) -> io::Result<()> {
        self.call(OPEN)?;
        if self.kind.is_some() && how == How::Make {
            return Err(io::Error::from(ErrorKind::AlreadyExists));
        }
        Ok(())
    }

    fn kind(&self) -> io::Result<Kind> {
        self.call(KIND)?;
        Ok(self.opened)
    }

    fn is_stream(&self, _usage: Use) -> bool {
        self.call(IS_STREAM).is_ok() && self.streams
    }

    fn lock(&mut self, _usage: Use) -> io::Result<()> {
        self.call(LOCK)?;
        if self.held {
            return Err(io::Error::from(ErrorKind::WouldBlock));
        }
        Ok(())
    }

    fn sync_all(&mut self) -> io::Result<()> {
        self.call(SYNC_ALL)
    }

    fn see_folder(&self, _name: &str) -> io::Result<()> {
        self.call(SEE_FOLDER)
    }

    fn sync_folder(&mut self, _name: &str) -> io::Result<()> {
        self.call(SYNC_FOLDER)
    }

    fn length(&self) -> io::Result<u64> {
        self.call(LENGTH)?;
        Ok(self.len as u64)
    }

    fn read_some(&self, pos: u64, out: &mut [u8]) -> io::Result<usize> {
        self.call(READ)?;
        let (start, n) = self.part(pos, out.len());
        out[..n].copy_from_slice(&self.bytes[start..start + n]);
        Ok(n)
    }

    fn write_some(&mut self, pos: u64, bytes: &[u8]) -> io::Result<usize> {
        self.call(WRITE)?;
        let (start, n) = self.part(pos, bytes.len());
        self.bytes[start..start + n].copy_from_slice(&bytes[..n]);
        Ok(n)
    }

    fn resize(&mut self, n: u64) -> io::Result<()> {
        self.call(RESIZE)?;
        self.len = n as usize;
        Ok(())
    }

    fn sync_data(&mut self) -> io::Result<()> {
        self.call(SYNC_DATA)
    }

    fn leads(&self, _name: &str) -> bool {
        self.call(LEADS).is_err() || !self.strays
    }

    fn end_call(&mut self) {
        self.turns = self.turns.saturating_add(1);
    }

    fn turns(&self) -> u64 {
        self.turns
    }
}
