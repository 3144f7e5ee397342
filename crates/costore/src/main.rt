//! The program: `costore` over the real file system and the standard streams.
#![tactic(auto)]

ghost use Rattle.std.specs.Prelude.{◌≡◌, ◌≢◌, [], IsErr, IsOk, IfOk};
ghost use Rattle.std.specs.IoError.{error_kind};
ghost use Rattle.std.specs.Process.{exit_status};

use costore_top::{HELP, Outcome, costore, may_change};
use disk_file::{
    Cause, FileBay, StdSink, StdSource, Use, hold_numbers, is_own_errors, is_own_stream,
};
use error_lines::{Failed, Typed, Unkept, Why};
use progress_lines::{CountedSink, CountedSource, Pace, Stream, is_terminal};
use std::alloc::{AllocError, Global};
use std::env;
use std::io::{self, ErrorKind};
use std::process::ExitCode;
use watched_streams::{Asked, Backs, Heard};

/// The status of a disk that failed: the numbers of the standard streams couldn't be reserved, so no
/// file may be opened.
const DISK_FAULT: u8 = 7;

/// The status of a call that ended well.
const DONE: u8 = 0;

/// The status of a call that found no object of a name.
const MISSING: u8 = 6;

/// The status of an output that failed.
const SINK_FAULT: u8 = 9;

/// The status when there is no memory for the command line.
const NO_MEMORY: u8 = 10;

/// The commands that read their input to its end, however long it is.
const READERS: &[&str] = &["run", "load", "batch", "desk"];

/// The commands that print all objects of a file.
const PRINTERS: &[&str] = &["dump"];

fn main(rt: HostRuntime) -> ExitCode {
    let _held = match hold_numbers(&rt) {
        Ok(held) => held,
        Err(error) => {
            let why = Failed("/dev/null", Some(Cause::System(error)));
            let _ = eprintln!(&rt; "costore: {why}");
            return ExitCode::from(DISK_FAULT);
        }
    };
    match run(&rt) {
        Ok(outcome) => ended(&outcome),
        Err(AllocError) => {
            let _ = eprintln!(&rt; "costore: memory: out of memory for the command line");
            ExitCode::from(NO_MEMORY)
        }
    }
}

/// Does what the command line asks. Its file is opened for reading alone unless the command changes it, and
/// is refused if it is a standard stream too.
fn run(rt: &HostRuntime) -> Result<Outcome, AllocError> {
    let mut are_text = true;
    let words = match env::args(rt) {
        Ok(args) => args.skip(1).collect(rt.alloc())?,
        Err(error) => {
            are_text = false;
            unread(rt.alloc(), &error)?
        }
    };
    let texts: Vec<&str> = words.iter().map(|word| word.as_str()).collect(rt.alloc())?;
    let usage = if may_change(&texts) {
        Use::Changing
    } else {
        Use::Reading
    };
    if is_own_stream(rt, file_of(&texts), usage) {
        return Ok(refuse_own(rt, file_of(&texts)));
    }
    greet(rt, &texts);
    Ok(call(rt, &texts, are_text))
}

/// Calls the program, and says on standard error how it went.
fn call(rt: &HostRuntime, texts: &[&str], are_text: bool) -> Outcome {
    let mut bay = if may_change(texts) {
        FileBay::new(rt)
    } else {
        FileBay::reading(rt)
    };
    let backs = Backs::new();
    let read = Pace::new(rt, "read", is_watched(rt, texts, READERS, Stream::Input));
    let put = Pace::new(
        rt,
        "written",
        is_watched(rt, texts, PRINTERS, Stream::Output),
    );
    let mut input = Asked::new(CountedSource::new(StdSource::new(rt.stdin()), read), &backs);
    let mut output = Heard::new(CountedSink::new(StdSink::new(rt.stdout()), put), &backs);
    let outcome = costore(rt.alloc(), texts, &mut bay, &mut input, &mut output);
    input.source().end();
    output.sink().end();
    tell(
        rt,
        Why {
            status: outcome.status,
            words: &*texts,
            are_text,
            file: file_of(texts),
            line: output.line(),
            begun: input.line(),
            disk: bay.cause(),
            input: input.source().source().cause(),
            output: output.sink().sink().cause(),
        },
    );
    if serves(texts) {
        tell_unkept(rt, file_of(texts), &outcome, output.unkept());
    }
    if asks_for_help(texts) {
        write_page(rt);
    }
    outcome
}

/// Tells someone who types the requests of a session how it ends, since a mistyped line ends it too.
fn greet(rt: &HostRuntime, words: &[&str]) {
    let file = file_of(words);
    if serves(words) && words.len() == 2 && !file.is_empty() && is_terminal(rt, Stream::Input) {
        let typed = Typed(file);
        let _ = eprintln!(rt; "costore: {typed}");
    }
}

/// Refuses a file that is also what a standard stream reads or writes: nothing is written to it, so no
/// fault line either, and the line on standard error only if that isn't the file.
fn refuse_own(rt: &HostRuntime, file: &str) -> Outcome
    ensures { result ≡ record { status = 7; done = 0; kept_done = 0; kept_turn = 0 } }
{
    if !is_own_errors(rt, file) {
        let why = Failed(file, Some(Cause::OwnStream));
        let _ = eprintln!(rt; "costore: {why}");
    }
    Outcome {
        status: DISK_FAULT,
        done: 0,
        kept_done: 0,
        kept_turn: 0,
    }
}

/// Writes a line to standard error, unless the call succeeded or found no object of a name. A failure to
/// write it is ignored.
fn tell(rt: &HostRuntime, why: Why<'_>) {
    if why.status != DONE && why.status != MISSING {
        let _ = eprintln!(rt; "costore: {why}");
    }
}

/// Writes a line to standard error if a session made changes that no acknowledged checkpoint holds: so
/// many requests were answered `ok` since. If the disk or the output failed, an unacknowledged checkpoint
/// may hold them.
fn tell_unkept(rt: &HostRuntime, file: &str, outcome: &Outcome, requests: u64) {
    if requests > 0 {
        let unkept = Unkept {
            file,
            requests,
            since: outcome.kept_done,
            may_be_kept: outcome.status == DISK_FAULT || outcome.status == SINK_FAULT,
        };
        let _ = eprintln!(rt; "costore: {unkept}");
    }
}

/// The file that words name, or nothing.
fn file_of<'a>(words: &[&'a str]) -> &'a str {
    words.get(1).copied().unwrap_or("")
}

/// Whether progress is shown: for these commands, if standard error is a terminal and the stream that they
/// read or write isn't.
fn is_watched(rt: &HostRuntime, words: &[&str], commands: &[&str], stream: Stream) -> bool {
    let Some(word) = words.get(0).copied() else {
        return false;
    };
    commands.contains(&word) && is_terminal(rt, Stream::Errors) && !is_terminal(rt, stream)
}

/// Whether words ask for a session.
fn serves(words: &[&str]) -> bool {
    words.get(0).copied() == Some("run")
}

/// Whether words that are no command ask for the page on the commands.
fn asks_for_help(words: &[&str]) -> bool {
    words.len() == 1 && (words[0] == "-h" || words[0] == "help")
}

/// Writes the page of `--help` to standard error.
fn write_page(rt: &HostRuntime) {
    let _ = eprint!(rt; "{HELP}");
}

/// The words of a command line that couldn't be read: none, and so no command, if one isn't text.
/// Otherwise there was no memory for them.
fn unread(alloc: Global, error: &io::Error) -> Result<Vec<String>, AllocError>
    ensures no_text { error_kind error.now ≡ ErrorKind.InvalidData → IsOk result }
    ensures none { IfOk result (λ words. words.items ≡ []) }
    ensures no_memory { error_kind error.now ≢ ErrorKind.InvalidData → IsErr result }
{
    if error.kind() == ErrorKind::InvalidData {
        return Ok(Vec::new(alloc));
    }
    Err(AllocError)
}

/// How the program ends after the call.
fn ended(outcome: &Outcome) -> ExitCode
    ensures { exit_status result ≡ outcome.now.status }
{
    ExitCode::from(outcome.status)
}
