//! Why a device failed, as a stable word and in words for people.
use crate::shown::Shown;
use disk_file::{Cause, NoRoom};
use std::fmt::{self, Display, Formatter};

/// What failed, a file or a stream, and why it failed.
#[derive(Clone, Copy)]
pub struct Failed<'a>(pub &'a str, pub Option<Cause>);

impl Display for Failed<'_> {
    fn fmt<W: fmt::Write>(&self, f: &mut Formatter<W>) -> fmt::Result {
        let what = Shown(self.0);
        let Some(cause) = self.1 else {
            return write!(f, "{what}: io: it failed");
        };
        let word = cause.word();
        let text = Text(cause);
        write!(f, "{what}: {word}: {text}")
    }
}

/// A cause in words for people.
#[derive(Clone, Copy)]
struct Text(Cause);

impl Display for Text {
    fn fmt<W: fmt::Write>(&self, f: &mut Formatter<W>) -> fmt::Result {
        match self.0 {
            Cause::System(error) => error.fmt(f),
            Cause::NoRoom(room) => Little(room).fmt(f),
            Cause::NoFolder(error) => write!(f, "its folder: {error}"),
            cause => f.write_str(text_of(cause)),
        }
    }
}

/// The text of a cause for which the system has no error, or nothing.
fn text_of(cause: Cause) -> &'static str {
    match cause {
        Cause::NoName => "the name is empty",
        Cause::LongName => "the name has more than 4095 bytes",
        Cause::Folder => "it is a folder",
        Cause::Special => "it is a device, a pipe or a socket",
        Cause::InUse => "it is in use by another process",
        Cause::OwnStream => "it is also a standard stream of this command",
        Cause::Ended => "it ended before all of it was read",
        Cause::NoneTaken => "it accepts no more bytes",
        Cause::Lost => "an earlier sync failed, so data may be lost",
        Cause::Gone => "its name no longer leads to it",
        Cause::System(_) | Cause::NoRoom(_) | Cause::NoFolder(_) => "",
    }
}

/// A change for which there was too little room.
#[derive(Clone, Copy)]
struct Little(NoRoom);

impl Display for Little {
    fn fmt<W: fmt::Write>(&self, f: &mut Formatter<W>) -> fmt::Result {
        let error = self.0.error;
        let asked = self.0.asked;
        match self.0.had {
            None => write!(f, "{error}; it needs {asked} bytes"),
            Some(had) => write!(f, "{error}; it needs {asked} bytes, and reached {had}"),
        }
    }
}
