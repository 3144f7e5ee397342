//! What a session shows to someone who types its requests.
use crate::shown::Shown;
use std::fmt::{self, Display, Formatter};

/// How such a session ends.
const ENDS: &str =
    "type requests; end with keep and Ctrl-D; a line that is not a request ends the session";

/// A file whose session reads its requests from a terminal.
#[derive(Clone, Copy)]
pub struct Typed<'a>(pub &'a str);

impl Display for Typed<'_> {
    fn fmt<W: fmt::Write>(&self, f: &mut Formatter<W>) -> fmt::Result {
        let file = Shown(self.0);
        write!(f, "{file}: terminal: {ENDS}")
    }
}
