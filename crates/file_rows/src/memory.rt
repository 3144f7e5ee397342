//! A system in memory that tells its one file, and of which no call fails.
ghost use Rattle.std.specs.Prelude.{◌≡◌, ◌≤◌, ◌+◌, [], length, take, vec_capacity, IfOk, IsTrue, IsFalse};
ghost use Rattle.byte_ranges.specs.Ranges.{bytes_at, overwritten, resized};

use disk_file::{Host, How, Kind, Use};
use std::alloc::{AllocError, Global};
use std::io::{self, ErrorKind};

/// The greatest length of the file.
const ROOM: usize = 16;

/// A file of up to 16 bytes, which every name leads to once it is made. A read or a write passes on three
/// bytes at most. It tells what the file has, what stands under a name, who holds the file and that no call
/// fails; images it tells none.
#[derive(Drop)]
pub struct Memory {
    bytes: Vec<u8>,
    is_there: bool,
    is_open: bool,
    is_named: bool,
    lock: Option<Use>,
    turns: u64,
    ghost has_room: { 16 ≤ vec_capacity bytes },
    ghost empty_if_none: { IsFalse is_there → bytes.items ≡ [] },
    ghost there_if_open: { IsTrue is_open → IsTrue is_there },
}

impl Memory {
    /// A system without a file, that takes memory for one.
    pub fn new(alloc: Global) -> Result<Memory, AllocError>
        ensures { IfOk result (λ memory. IsFalse memory.is_there) }
    {
        Ok(Memory {
            bytes: Vec::with_capacity(alloc, ROOM)?,
            is_there: false,
            is_open: false,
            is_named: false,
            lock: None,
            turns: 0,
        })
    }
}

/// Where a read or a write of so many bytes begins within a length, and how many it passes on.
fn part(len: usize, pos: u64, n: usize) -> (usize, usize)
    ensures within { result.0 + result.1 ≤ len }
    ensures bound { result.1 ≤ n }
    ensures start { pos ≤ len → result.0 ≡ pos }
    ensures some { pos + n ≤ len → 1 ≤ n → 1 ≤ result.1 }
    ensures none { len ≤ pos → result.1 ≡ 0 }
{
    let start = (pos as usize).min(len);
    (start, n.min(3).min(len - start))
}

/// Writes the bytes over those at a place within the file.
fn put(file: &mut Vec<u8>, at: usize, bytes: &[u8])
    requires { at + length bytes.now ≤ length file.old.items }
    ensures items { file.new.items ≡ overwritten file.old.items at bytes.now }
    ensures capacity { vec_capacity file.new ≡ vec_capacity file.old }
{
    file[at..at + bytes.len()].copy_from_slice(bytes);
}

/// Cuts the file, or grows it by zeros within its memory.
fn cut_or_grow(file: &mut Vec<u8>, n: usize)
    requires { n ≤ vec_capacity file.old }
    ensures items { file.new.items ≡ resized file.old.items n }
    ensures capacity { vec_capacity file.old ≤ vec_capacity file.new }
{
    file.resize(n, 0).unwrap();
}

impl Host for Memory {
    ghost use Rattle.std.specs.Prelude.{true, false, None, Some, refl, if◌then◌else◌};
    ghost use Rattle.std.proofs.Common.{arith};
    ghost use Rattle.std.proofs.lemmas.Bool.{false≢true};
    ghost use Rattle.disk_file.specs.{Hosts.{untold_marks}, Mounted.{untold}};
    ghost use Rattle.disk_file.specs.declared.host.Kind.TheVariants as kind;

    ghost state = { λ host. record (untold host.turns host.is_open) {
      tells = true;
      file = host.bytes.items;
    } };

    ghost marks = { λ host. record untold_marks {
      tells = true;
      may_fail = false;
      room = 16;
      kind_at = λ _. if host.is_there then Some kind.File else None;
      opened = if host.is_open then Some kind.File else None;
      lock = host.lock;
      is_named = host.is_named;
      leads = λ _. true;
    } };

    ghost lawful = { λ host. record {
      has_content = λ told. absurd (false≢true told);
      both_told = λ _. refl;
      counts_now = λ t image t_le is. is;
      only_now = λ image below since. since;
      turn_fits = omega arith;
    } };

    fn look(&self, _name: &str) -> io::Result<Kind> {
        if self.is_there {
            return Ok(Kind::File);
        }
        Err(io::Error::from(ErrorKind::NotFound))
    }

    fn open(&mut self, _name: &str, how: How) -> io::Result<()> {
        if self.is_there && how == How::Make {
            return Err(io::Error::from(ErrorKind::AlreadyExists));
        }
        if !self.is_there && how != How::Make {
            return Err(io::Error::from(ErrorKind::NotFound));
        }
        self.is_there = true;
        self.is_open = true;
        Ok(())
    }

    fn kind(&self) -> io::Result<Kind> {
        Ok(Kind::File)
    }

    fn is_stream(&self, _usage: Use) -> bool {
        false
    }

    fn lock(&mut self, usage: Use) -> io::Result<()> {
        self.lock = Some(usage);
        Ok(())
    }

    fn sync_all(&mut self) -> io::Result<()> {
        Ok(())
    }

    fn see_folder(&self, _name: &str) -> io::Result<()> {
        Ok(())
    }

    fn sync_folder(&mut self, _name: &str) -> io::Result<()> {
        self.is_named = true;
        Ok(())
    }

    fn length(&self) -> io::Result<u64> {
        Ok(self.bytes.len() as u64)
    }

    fn read_some(&self, pos: u64, out: &mut [u8]) -> io::Result<usize> {
        let (at, n) = part(self.bytes.len(), pos, out.len());
        out[..n].copy_from_slice(&self.bytes[at..at + n]);
        Ok(n)
    }

    fn write_some(&mut self, pos: u64, bytes: &[u8]) -> io::Result<usize> {
        let (at, n) = part(self.bytes.len(), pos, bytes.len());
        put(&mut self.bytes, at, &bytes[..n]);
        Ok(n)
    }

    fn resize(&mut self, n: u64) -> io::Result<()> {
        if n > ROOM as u64 {
            return Err(io::Error::from(ErrorKind::StorageFull));
        }
        cut_or_grow(&mut self.bytes, n as usize);
        Ok(())
    }

    fn sync_data(&mut self) -> io::Result<()> {
        Ok(())
    }

    fn leads(&self, _name: &str) -> bool {
        true
    }

    fn end_call(&mut self) {
        self.turns = self.turns.saturating_add(1);
    }

    fn turns(&self) -> u64 {
        self.turns
    }
}
