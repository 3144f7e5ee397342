//! A disk round another one, which fails the calls that it is told.
ghost use Rattle.std.specs.Prelude.{◌≡◌, ◌⊎◌, ◌≤◌, ◌+◌, false, length, OnOk, OnErr, IfOk, IsTrue, IsFalse};
ghost use Rattle.byte_ranges.specs.Ranges.{bytes_at, overwritten, resized};
ghost use Rattle.disk_face.specs.{Counts.{counted}, Frames.{AfterLength, AfterRead, AfterSync, AfterWrite}, Moments.{Only}};
ghost use Rattle.std.proofs.Common.{arith};
ghost use Rattle.disk_mem.specs.Calls.{ListedCalls, AfterChanges, none_made, next_change_fails, next_read_fails, after_change, after_read};

use crate::calls::Calls;
use disk_face::{Disk, DiskFault};

/// A disk that fails some of its calls without asking the disk inside, and passes the others on. It
/// tells the content that the disk inside tells, and no images: those are of the disk inside.
#[derive(Drop)]
pub struct Fuse<D: Disk> {
    inner: D,
    calls: Calls,
}

impl<D: Disk> Fuse<D> {
    ghost use Rattle.disk_mem.specs.Fuses.{disk_of, fuse_calls};

    /// Fails the changing calls and the others (`len`, `read_at`) of the listed numbers. Each of the
    /// two kinds is counted from 1, and each call counts, failed ones too.
    pub fn listed(inner: D, changes: Vec<u64>, reads: Vec<u64>) -> Fuse<D>
        ensures disk { disk_of result ≡ inner }
        ensures calls { fuse_calls result ≡ none_made (ListedCalls changes.items reads.items) }
    {
        Fuse {
            inner,
            calls: Calls::listed(changes, reads),
        }
    }

    /// Passes `n` changing calls, and then fails every call.
    pub fn stop_after(inner: D, n: u64) -> Fuse<D>
        ensures disk { disk_of result ≡ inner }
        ensures calls { fuse_calls result ≡ none_made (AfterChanges n) }
    {
        Fuse {
            inner,
            calls: Calls::stop_after(n),
        }
    }

    /// Gives the disk inside back.
    pub fn into_inner(self) -> D
        ensures { result ≡ disk_of self }
    {
        let Fuse { inner, calls: _ } = self;
        inner
    }
}

impl<D: Disk> Disk for Fuse<D> {
    ghost use Rattle.std.proofs.lemmas.Bool.{false≢true};
    ghost use Rattle.disk_mem.specs.Fuses.{fuse_calls, disk_of, fuse_state, PassesOn};

    ghost state = { fuse_state D.state };

    ghost lawful = { λ fuse. record {
      has_content = λ told. absurd (false≢true told);
      both_told = λ told. absurd (false≢true told);
      counts_now = λ t image t_le is. is;
      only_now = λ image below since. since;
      turn_fits = omega arith;
    } };

    fn len(&mut self) -> Result<u64, DiskFault>
        requires { IsTrue (D.state (disk_of self.old)).is_ready }
        ensures length { IsTrue (D.state (disk_of self.old)).tells
            → IfOk result (λ n. n ≡ length (D.state (disk_of self.old)).file) }
        ensures frame { AfterRead (D.state (disk_of self.old)) (D.state (disk_of self.new)) }
        ensures call { PassesOn D.state (next_read_fails (fuse_calls self.old)) (disk_of self.old)
            (disk_of self.new) result }
        ensures calls { fuse_calls self.new ≡ after_read (fuse_calls self.old) }
    {
        if self.calls.read() {
            return Err(DiskFault);
        }
        self.inner.len()
    }

    fn read_at(&mut self, pos: u64, out: &mut [u8]) -> Result<(), DiskFault>
        requires ready { IsTrue (D.state (disk_of self.old)).is_ready }
        requires within { IsTrue (D.state (disk_of self.old)).tells
            → pos + length out.old ≤ length (D.state (disk_of self.old)).file }
        ensures bytes { IsTrue (D.state (disk_of self.old)).tells
            → OnOk result (out.new ≡ bytes_at (D.state (disk_of self.old)).file pos (length out.old)) }
        ensures frame { AfterRead (D.state (disk_of self.old)) (D.state (disk_of self.new)) }
        ensures call { PassesOn D.state (next_read_fails (fuse_calls self.old)) (disk_of self.old)
            (disk_of self.new) result }
        ensures calls { fuse_calls self.new ≡ after_read (fuse_calls self.old) }
    {
        if self.calls.read() {
            return Err(DiskFault);
        }
        self.inner.read_at(pos, out)
    }

    fn write_at(&mut self, pos: u64, bytes: &[u8]) -> Result<(), DiskFault>
        requires ready { IsTrue (D.state (disk_of self.old)).is_ready }
        requires within { IsTrue (D.state (disk_of self.old)).tells
            → pos + length bytes.now ≤ length (D.state (disk_of self.old)).file }
        ensures written { IsTrue (D.state (disk_of self.old)).tells
            → OnOk result ((D.state (disk_of self.new)).file
            ≡ overwritten (D.state (disk_of self.old)).file pos bytes.now) }
        ensures frame { IsFalse (next_change_fails (fuse_calls self.old))
            → AfterWrite pos (length bytes.now) (D.state (disk_of self.old)) (D.state (disk_of self.new)) }
        ensures call { PassesOn D.state (next_change_fails (fuse_calls self.old)) (disk_of self.old)
            (disk_of self.new) result }
        ensures calls { fuse_calls self.new ≡ after_change (fuse_calls self.old) }
    {
        if self.calls.change() {
            return Err(DiskFault);
        }
        self.inner.write_at(pos, bytes)
    }

    fn set_len(&mut self, n: u64) -> Result<(), DiskFault>
        requires { IsTrue (D.state (disk_of self.old)).is_ready }
        ensures resized { IsTrue (D.state (disk_of self.old)).tells
            → OnOk result ((D.state (disk_of self.new)).file
            ≡ resized (D.state (disk_of self.old)).file n) }
        ensures either { IsTrue (D.state (disk_of self.old)).tells
            → OnErr result (((D.state (disk_of self.new)).file ≡ (D.state (disk_of self.old)).file)
            ⊎ ((D.state (disk_of self.new)).file ≡ resized (D.state (disk_of self.old)).file n)) }
        ensures frame { IsFalse (next_change_fails (fuse_calls self.old))
            → AfterLength n (D.state (disk_of self.old)) (D.state (disk_of self.new)) }
        ensures call { PassesOn D.state (next_change_fails (fuse_calls self.old)) (disk_of self.old)
            (disk_of self.new) result }
        ensures calls { fuse_calls self.new ≡ after_change (fuse_calls self.old) }
    {
        if self.calls.change() {
            return Err(DiskFault);
        }
        self.inner.set_len(n)
    }

    fn sync(&mut self) -> Result<(), DiskFault>
        requires { IsTrue (D.state (disk_of self.old)).is_ready }
        ensures rests { OnOk result (Only (D.state (disk_of self.old)).file
            (D.state (disk_of self.new)).may_leave) }
        ensures frame { IsFalse (next_change_fails (fuse_calls self.old))
            → AfterSync (D.state (disk_of self.old)) (D.state (disk_of self.new)) }
        ensures call { PassesOn D.state (next_change_fails (fuse_calls self.old)) (disk_of self.old)
            (disk_of self.new) result }
        ensures calls { fuse_calls self.new ≡ after_change (fuse_calls self.old) }
    {
        if self.calls.change() {
            return Err(DiskFault);
        }
        self.inner.sync()
    }

    fn turns(&self) -> u64 {
        self.inner
            .turns()
            .saturating_add(self.calls.failed_changes())
    }
}
