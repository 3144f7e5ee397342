//! One command of the program between growths of memory, and the session that is asked after it.
ghost use Rattle.std.specs.Prelude.{◌≡◌, None};

use crate::memory::growths::grown;
use costore_top::costore;
use disk_face::Bay;
use disk_file::StdSource;
use disk_mem::{MemSink, MemSource};
use std::alloc::{AllocError, Global};
use std::env;
use std::test::Fail;

/// The words of this program in front of those of the command: its own name, COUNT and IMAGE.
const OWN_WORDS: usize = 3;

/// The status where there is no memory for the words, as that of the program.
const NO_MEMORY: u8 = 10;

/// Growths after the command, of which one is refused where all before were made.
const GROWTHS_AFTER: usize = 1000;

/// What a session is asked that tells which objects there are, and the bytes of each.
const REQUESTS: &[u8] = b"list\nget a\nget b\nget c\n";

/// How a command ended, and whether a growth was refused only after it.
#[derive(Clone, Copy)]
pub struct Attempt {
    pub status: u8,
    pub refused_after: bool,
}

/// Makes so many growths of memory, does the command of the command line, and makes more growths. It is an
/// error where one of the first was refused, and then the command wasn't begun.
pub fn attempted<B: Bay>(
    rt: &HostRuntime,
    count: usize,
    bay: &mut B,
    output: &mut MemSink,
) -> Result<Attempt, AllocError>
    requires { (B.state bay.old).last_mount ≡ None }
{
    let before = grown(rt.alloc(), count)?;
    let status = do_command(rt, bay, output).unwrap_or(NO_MEMORY);
    let after = grown(rt.alloc(), GROWTHS_AFTER);
    drop(before);
    Ok(Attempt {
        status,
        refused_after: after.is_err(),
    })
}

/// Reads the words and does the command as the program does, with its standard input, and answers the
/// status.
fn do_command<B: Bay>(rt: &HostRuntime, bay: &mut B, output: &mut MemSink) -> Result<u8, AllocError>
    requires { (B.state bay.old).last_mount ≡ None }
{
    let words: Vec<String> = match env::args(rt) {
        Ok(args) => args.skip(OWN_WORDS).collect(rt.alloc())?,
        Err(_) => return Err(AllocError),
    };
    let texts: Vec<&str> = words.iter().map(|word| word.as_str()).collect(rt.alloc())?;
    let mut input = StdSource::new(rt.stdin());
    Ok(costore(rt.alloc(), &texts, bay, &mut input, output).status)
}

/// Opens a file by a session that tells its objects, and answers the status.
pub fn reopened<B: Bay>(
    alloc: Global,
    bay: &mut B,
    file: &str,
    output: &mut MemSink,
) -> Result<u8, Fail>
    requires { (B.state bay.old).last_mount ≡ None }
{
    let mut input = MemSource::new(REQUESTS.to_vec(alloc)?, 64, Vec::new(alloc));
    Ok(costore(alloc, &["run", file], bay, &mut input, output).status)
}
