//! The line on standard error: what failed, by a stable word and in words for people.
use crate::failed::Failed;
use crate::line::{Line, Texts, one, three};
use crate::refused::refused;
use crate::shown::Shown;
use crate::told::{Row, row_of};
use crate::wrong::wrong;
use disk_file::Cause;
use std::fmt::{self, Display, Formatter};
use std::io::Error;
use std::str;

/// The number of the system's error that nothing has a name.
const NOTHING_THERE: i32 = 2;

/// What comes before the number on the fault line of a status, and what is shown if it isn't there.
const FAULTS: &[(u8, &str, &str)] = &[
    (2, "fault request ", "?"),
    (4, "fault store ", ""),
    (5, "fault taken ", "some"),
    (14, "fault too many ", "some"),
    (17, "fault unfit ", "?"),
];

/// How a call of the program ended, other than well.
#[derive(Clone, Copy)]
pub struct Why<'a> {
    pub status: u8,
    /// The words of the command line, without the program's name; none where one of them isn't UTF-8.
    pub words: &'a [&'a str],
    /// Whether each of them is UTF-8.
    pub are_text: bool,
    /// The file that the words name, or nothing.
    pub file: &'a str,
    /// What was put last on standard output: the fault line.
    pub line: &'a [u8],
    /// The first bytes of the first line of the standard input that isn't that of a whole request.
    pub begun: &'a [u8],
    /// Why the last failed call of the disk, of the input and of the output failed.
    pub disk: Option<Cause>,
    pub input: Option<Cause>,
    pub output: Option<Cause>,
}

impl<'a> Why<'a> {
    /// The line for a status with no error of the system to show.
    fn line(&self) -> Line<'a> {
        let number = self.number();
        match self.status {
            1 => line("words", wrong(self.words, self.are_text)),
            4 => line(self.file, refused(number)),
            _ => match row_of(self.status, command_of(self.words), number) {
                Some(row) => line(self.what(), told(row, number)),
                None => self.unread(number),
            },
        }
    }

    /// The file or the stream that is to blame.
    fn what(&self) -> &'a str {
        match self.status {
            2 | 11 => "standard input",
            _ => self.file,
        }
    }

    /// A request that is not valid. At another status nothing is known.
    fn unread(&self, number: &'a str) -> Line<'a> {
        if self.status != 2 {
            return line("io", one("it failed"));
        }
        Line {
            what: "standard input",
            texts: three(
                "request: request ",
                number,
                " is not valid, or the input ends within it; ",
            ),
            begun: Some(self.begun),
        }
    }

    /// The number on the fault line, or what it says of a file that is not a store.
    fn number(&self) -> &'a str {
        for (status, front, unknown) in FAULTS {
            if *status == self.status {
                return self.said(front).unwrap_or(unknown);
            }
        }
        ""
    }

    /// What the fault line says after these words.
    fn said(&self, front: &str) -> Option<&'a str> {
        let Ok(text) = str::from_utf8(self.line) else {
            return None;
        };
        match text.strip_prefix(front) {
            Some(rest) => rest.strip_suffix('\n'),
            None => None,
        }
    }

    /// The file or the stream that failed, and why.
    fn failed(&self) -> Failed<'a> {
        match self.status {
            7 => Failed(self.file, self.disk),
            8 => Failed("standard input", self.input),
            _ => Failed("standard output", self.output),
        }
    }
}

impl Display for Why<'_> {
    fn fmt<W: fmt::Write>(&self, f: &mut Formatter<W>) -> fmt::Result {
        match self.status {
            3 => {
                let file = Shown(self.file);
                let error = Error::from_raw_os_error(NOTHING_THERE);
                write!(f, "{file}: missing: {error}")
            }
            7..=9 => self.failed().fmt(f),
            _ => self.line().fmt(f),
        }
    }
}

/// A line that shows nothing of the input.
fn line<'a>(what: &'a str, texts: Texts<'a>) -> Line<'a> {
    Line {
        what,
        texts,
        begun: None,
    }
}

/// The text of a row, with the number if something comes after it.
fn told<'a>(row: &Row, number: &'a str) -> Texts<'a> {
    let front: &'a str = row.front;
    let behind: &'a str = row.behind;
    if behind.is_empty() {
        one(front)
    } else {
        three(front, number, behind)
    }
}

/// The first word of a command line, or nothing.
fn command_of<'a>(words: &[&'a str]) -> &'a str {
    words.get(0).copied().unwrap_or("")
}
