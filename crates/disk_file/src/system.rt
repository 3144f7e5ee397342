//! The file of the system: each method makes the one call that it is named for, and `open` asks what it
//! opened. What they do is trusted.
ghost use Rattle.std.specs.Prelude.{◌≡◌, false, is_some, refl, IsTrue, IsFalse};
ghost use Rattle.std.specs.Fs.{asks_append, asks_create, asks_create_new, asks_read, asks_truncate, asks_write};
ghost use Rattle.disk_file.specs.Mounted.{untold};

use crate::host::{Host, How, Kind, Use};
use crate::own::{Node, has_stream, node_of};
use std::fs::{self, File, Files, Metadata, OpenOptions, TryLockError};
use std::io::{self, ErrorKind};
use std::os::unix::fs::FileExt;

/// A file that was opened, and what it is.
#[derive(Drop)]
struct Opened {
    file: File,
    kind: Kind,
    node: Node,
}

/// A file of the system, once it is open, and how many calls of a disk have ended.
#[derive(Drop)]
pub struct SystemFile<'a, R: Files> {
    rt: &'a R,
    file: Option<Opened>,
    turns: u64,
}

impl<'a, R: Files> SystemFile<'a, R> {
    /// Nothing is open.
    pub fn new(rt: &'a R) -> SystemFile<'a, R>
        ensures turns { result.turns ≡ 0 }
        ensures closed { IsFalse (is_some result.file) }
    {
        SystemFile {
            rt,
            file: None,
            turns: 0,
        }
    }

    /// The open file.
    fn open_file(&self) -> &File
        requires { IsTrue (is_some self.now.file) }
    {
        &self.opened().file
    }

    /// What was opened.
    fn opened(&self) -> &Opened
        requires { IsTrue (is_some self.now.file) }
    {
        match &self.file {
            Some(opened) => opened,
            None => unreachable!(),
        }
    }
}

/// The options to open a file by. A file that is there is never cut, and one that is to be made must
/// not be there.
fn options(how: How) -> OpenOptions
    ensures reads { IsTrue (asks_read result) }
    ensures writes { IsFalse (asks_write result) → how ≡ How.Read }
    ensures writes_none { how ≡ How.Read → IsFalse (asks_write result) }
    ensures never_cut { IsFalse (asks_truncate result) }
    ensures anywhere { IsFalse (asks_append result) }
    ensures never_either { IsFalse (asks_create result) }
    ensures made_new { IsTrue (asks_create_new result) → how ≡ How.Make }
    ensures makes { how ≡ How.Make → IsTrue (asks_create_new result) }
{
    let mut options = OpenOptions::new();
    options
        .read(true)
        .write(how != How::Read)
        .create_new(how == How::Make);
    options
}

fn kind_of(metadata: &Metadata) -> Kind {
    if metadata.is_file() {
        Kind::File
    } else if metadata.is_dir() {
        Kind::Folder
    } else {
        Kind::Other
    }
}

/// Whether an error says that nothing has a name.
fn leads_nowhere(error: &io::Error) -> bool {
    matches!(error.kind(), ErrorKind::NotFound | ErrorKind::NotADirectory)
}

/// The folder that a name is in.
fn folder_of(name: &str) -> &str {
    match name.rsplit_once('/') {
        Some(("", _)) => "/",
        Some((folder, _)) => folder,
        None => ".",
    }
}

impl<R: Files<File = File>> Host for SystemFile<'_, R> {
    ghost use Rattle.std.proofs.Common.{arith};
    ghost use Rattle.std.proofs.lemmas.Bool.{false≢true};
    ghost use Rattle.disk_file.specs.Hosts.{untold_marks};

    ghost state = { λ host. untold host.turns (is_some host.file) };

    ghost marks = { λ _. untold_marks };

    ghost lawful = { λ host. record {
      has_content = λ told. absurd (false≢true told);
      both_told = λ told. told;
      counts_now = λ t image t_le is. is;
      only_now = λ image below since. since;
      turn_fits = omega arith;
    } };

    fn look(&self, name: &str) -> io::Result<Kind> {
        Ok(kind_of(&fs::metadata(self.rt, name)?))
    }

    fn open(&mut self, name: &str, how: How) -> io::Result<()> {
        let file = options(how).open(self.rt, name)?;
        let metadata = file.metadata()?;
        self.file = Some(Opened {
            file,
            kind: kind_of(&metadata),
            node: node_of(&metadata),
        });
        Ok(())
    }

    fn kind(&self) -> io::Result<Kind> {
        Ok(self.opened().kind)
    }

    fn is_stream(&self, usage: Use) -> bool {
        has_stream(self.rt, self.opened().node, usage)
    }

    fn lock(&mut self, usage: Use) -> io::Result<()> {
        let answer = match usage {
            Use::Reading => self.open_file().try_lock_shared(),
            Use::Changing => self.open_file().try_lock(),
        };
        answer.map_err(io::Error::from)
    }

    fn sync_all(&mut self) -> io::Result<()> {
        self.open_file().sync_all()
    }

    fn see_folder(&self, name: &str) -> io::Result<()> {
        let _ = fs::open(self.rt, folder_of(name))?;
        Ok(())
    }

    fn sync_folder(&mut self, name: &str) -> io::Result<()> {
        fs::open(self.rt, folder_of(name))?.sync_all()
    }

    fn length(&self) -> io::Result<u64> {
        Ok(self.open_file().metadata()?.len())
    }

    fn read_some(&self, pos: u64, out: &mut [u8]) -> io::Result<usize> {
        self.open_file().read_at(out, pos)
    }

    fn write_some(&mut self, pos: u64, bytes: &[u8]) -> io::Result<usize> {
        self.open_file().write_at(bytes, pos)
    }

    fn resize(&mut self, n: u64) -> io::Result<()> {
        self.open_file().set_len(n)
    }

    fn sync_data(&mut self) -> io::Result<()> {
        self.open_file().sync_data()
    }

    fn leads(&self, name: &str) -> bool {
        match fs::metadata(self.rt, name) {
            Ok(named) => node_of(&named) == self.opened().node,
            Err(error) => !leads_nowhere(&error),
        }
    }

    fn end_call(&mut self) {
        self.turns = self.turns.saturating_add(1);
    }

    fn turns(&self) -> u64 {
        self.turns
    }
}
