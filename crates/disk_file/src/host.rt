//! A system, as a bay calls it for the one file that it opens.
ghost use Rattle.std.specs.Prelude.{◌≡◌, ◌+◌, ◌<◌, ◌≤◌, ◌⊎◌, [], length, take, Some, None, IfOk, IfErr, IsOk, OnOk, OnErr, MatchResult, IsTrue, IsFalse};
ghost use Rattle.std.specs.Io.{ReadsAtMost, WritesAtMost};
ghost use Rattle.std.specs.IoError.{error_kind};
ghost use Rattle.byte_ranges.specs.Ranges.{bytes_at, overwritten, resized};
ghost use Rattle.disk_face.specs.{Frames.{AfterMount}, Moments.{Only, Rests}, States.{IsLawful, State}};
ghost use Rattle.disk_file.specs.{Hosts.{Marks, SameHold, SameWorld, can_open, opened_by}, Parts.{EndsCall, ResizesPart, SyncsPart, WritesPart}};

use std::io::{self, ErrorKind};

/// What stands under a name.
#[derive(Clone, Copy, Debug, PartialEq, Eq)]
pub enum Kind {
    /// A regular file.
    File,
    Folder,
    /// A device, a pipe or a socket.
    Other,
}

/// What a bay means to do with its file.
#[derive(Clone, Copy, Debug, PartialEq, Eq)]
pub enum Use {
    Reading,
    Changing,
}

/// How a file is opened: to be read, to be read and written, or so once it is made.
#[derive(Clone, Copy, Debug, PartialEq, Eq)]
pub enum How {
    Read,
    Change,
    Make,
}

/// A system by its calls on one file. A call that reads or writes may pass on fewer bytes than it is
/// asked for. What the file has and what a crash may leave of it may be told, and so may the rest.
pub trait Host {
    /// The file as a disk: its turn is how many calls of a disk have ended.
    ghost state: { Self → State };

    /// What is told beside it.
    ghost marks: { Self → Marks };

    /// What stands under a name. It opens nothing.
    fn look(&self, name: &str) -> io::Result<Kind>
        ensures there { IsTrue (marks self.now).tells
            → IfOk result (λ kind. (marks self.now).kind_at name.now ≡ Some kind) }
        ensures none { IsTrue (marks self.now).tells → IfErr result (λ e. error_kind e ≡ ErrorKind.NotFound
            → (marks self.now).kind_at name.now ≡ None) }
        ensures serves { IsFalse (marks self.now).may_fail
            → IfErr result (λ e. error_kind e ≡ ErrorKind.NotFound) };

    /// Opens the file of a name, never cuts it, and makes it where it is asked to and none is there.
    fn open(&mut self, name: &str, how: How) -> io::Result<()>
        ensures ready { OnOk result (IsTrue (state self.new).is_ready) }
        ensures made { how ≡ How.Make → IsTrue (state self.old).tells
            → OnOk result ((state self.new).file ≡ []) }
        ensures opened { IsTrue (marks self.old).tells → OnOk result ((marks self.new).opened
            ≡ opened_by how ((marks self.old).kind_at name.now)) }
        ensures frame { AfterMount (state self.old) (state self.new) }
        ensures world { SameWorld (marks self.old) (marks self.new) }
        ensures serves { IsFalse (marks self.old).may_fail
            → IsTrue (can_open how ((marks self.old).kind_at name.now)) → IsOk result };

    /// What was opened.
    fn kind(&self) -> io::Result<Kind>
        requires { IsTrue (state self.now).is_ready }
        ensures kind { IsTrue (marks self.now).tells
            → IfOk result (λ kind. (marks self.now).opened ≡ Some kind) }
        ensures serves { IsFalse (marks self.now).may_fail → IsOk result };

    /// Whether the open file is also what a standard stream of the program writes, or, for a use that changes
    /// it, what one reads. A stream of which the system can't tell is none.
    fn is_stream(&self, usage: Use) -> bool
        requires { IsTrue (state self.now).is_ready }
        ensures stream { IsTrue (marks self.now).tells → result ≡ (marks self.now).is_stream usage }
        ensures used { IsTrue (marks self.now).tells → IsTrue result → IsTrue (marks self.now).in_use };

    /// Takes the lock on the file, without waiting: the only one to change it, or a share to read it.
    fn lock(&mut self, usage: Use) -> io::Result<()>
        requires { IsTrue (state self.old).is_ready }
        ensures locked { IsTrue (marks self.old).tells → OnOk result ((marks self.new).lock ≡ Some usage) }
        ensures ready { IsTrue (state self.new).is_ready }
        ensures frame { AfterMount (state self.old) (state self.new) }
        ensures world { SameWorld (marks self.old) (marks self.new) }
        ensures serves { IsFalse (marks self.old).may_fail → IsFalse (marks self.old).in_use → IsOk result };

    /// Brings the bytes of the file to the device, and all that the system keeps about it.
    fn sync_all(&mut self) -> io::Result<()>
        requires ready { IsTrue (state self.old).is_ready }
        requires locked { IsTrue (marks self.old).tells → (marks self.old).lock ≡ Some Use.Changing }
        ensures rests { OnOk result (Only (state self.old).file (state self.new).may_leave) }
        ensures frame { SyncsPart (state self.old) (state self.new) }
        ensures marks { marks self.new ≡ marks self.old }
        ensures serves { IsFalse (marks self.old).may_fail → IsOk result };

    /// Whether the folder of a name can be opened, as its sync needs it. It changes nothing.
    fn see_folder(&self, name: &str) -> io::Result<()>
        ensures serves { IsFalse (marks self.now).may_fail → IsOk result };

    /// Brings the name of the file to the device: syncs the folder that it is in.
    fn sync_folder(&mut self, name: &str) -> io::Result<()>
        requires { IsTrue (state self.old).is_ready }
        ensures named { IsTrue (marks self.old).tells → OnOk result (IsTrue (marks self.new).is_named) }
        ensures ready { IsTrue (state self.new).is_ready }
        ensures frame { AfterMount (state self.old) (state self.new) }
        ensures hold { SameHold (marks self.old) (marks self.new) }
        ensures serves { IsFalse (marks self.old).may_fail → IsOk result };

    /// The length of the file.
    fn length(&self) -> io::Result<u64>
        requires { IsTrue (state self.now).is_ready }
        ensures length { IsTrue (state self.now).tells → IfOk result (λ n. n ≡ length (state self.now).file) }
        ensures serves { IsFalse (marks self.now).may_fail → IsOk result };

    /// Reads some of the bytes from a position on, and answers how many.
    fn read_some(&self, pos: u64, out: &mut [u8]) -> io::Result<usize>
        requires { IsTrue (state self.now).is_ready }
        ensures bound { ReadsAtMost result out.new }
        ensures bytes { IsTrue (state self.now).tells
            → IfOk result (λ n. take n out.new ≡ bytes_at (state self.now).file pos n) }
        ensures serves { IsFalse (marks self.now).may_fail
            → pos + length out.old ≤ length (state self.now).file → 0 < length out.old
            → MatchResult result (λ n. 0 < n) (λ _. ⊥) };

    /// Writes the first of the bytes from a position on, and answers how many.
    fn write_some(&mut self, pos: u64, bytes: &[u8]) -> io::Result<usize>
        requires { IsTrue (state self.old).is_ready }
        ensures bound { WritesAtMost result bytes.now }
        ensures written { IsTrue (state self.old).tells
            → pos + length bytes.now ≤ length (state self.old).file → IfOk result (λ n. (state self.new).file
            ≡ overwritten (state self.old).file pos (take n bytes.now)) }
        ensures stopped { IsTrue (state self.old).tells → IfErr result (λ e.
            error_kind e ≡ ErrorKind.Interrupted → (state self.new).file ≡ (state self.old).file) }
        ensures frame { WritesPart pos (length bytes.now) (state self.old) (state self.new) }
        ensures marks { marks self.new ≡ marks self.old }
        ensures serves { IsFalse (marks self.old).may_fail
            → pos + length bytes.now ≤ length (state self.old).file
            → 0 < length bytes.now → MatchResult result (λ n. 0 < n) (λ _. ⊥) };

    /// Cuts the file or grows it. A failed call leaves the old length or the new one.
    fn resize(&mut self, n: u64) -> io::Result<()>
        requires { IsTrue (state self.old).is_ready }
        ensures resized { IsTrue (state self.old).tells
            → OnOk result ((state self.new).file ≡ resized (state self.old).file n) }
        ensures either { IsTrue (state self.old).tells
            → OnErr result (((state self.new).file ≡ (state self.old).file)
            ⊎ ((state self.new).file ≡ resized (state self.old).file n)) }
        ensures frame { ResizesPart n (state self.old) (state self.new) }
        ensures marks { marks self.new ≡ marks self.old }
        ensures serves { IsFalse (marks self.old).may_fail → n ≤ (marks self.old).room → IsOk result };

    /// Brings the bytes of the file to the device, and its length.
    fn sync_data(&mut self) -> io::Result<()>
        requires { IsTrue (state self.old).is_ready }
        ensures rests { OnOk result (Only (state self.old).file (state self.new).may_leave) }
        ensures frame { SyncsPart (state self.old) (state self.new) }
        ensures marks { marks self.new ≡ marks self.old }
        ensures serves { IsFalse (marks self.old).may_fail → IsOk result };

    /// Whether the name still leads to the open file, or the system can't tell.
    fn leads(&self, name: &str) -> bool
        requires { IsTrue (state self.now).is_ready }
        ensures leads { IsTrue (marks self.now).tells → result ≡ (marks self.now).leads name.now }
        ensures serves { IsFalse (marks self.now).may_fail → IsTrue result };

    /// Takes note that a changing call of a disk has ended. The system isn't asked.
    fn end_call(&mut self)
        requires { IsTrue (state self.old).is_ready }
        ensures frame { EndsCall (state self.old) (state self.new) }
        ensures marks { marks self.new ≡ marks self.old };

    /// How many changing calls of a disk have ended.
    fn turns(&self) -> u64
        ensures { result ≡ (state self.now).turn };

    /// What is true of each state.
    ghost lawful: { (host : Self) → IsLawful (state host) };
}
