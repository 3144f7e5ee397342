//! A line of texts, and what of an input it shows.
use crate::shown::Shown;
use crate::unread::Begins;
use std::fmt::{self, Display, Formatter};

/// Texts that are shown one after another; those that aren't needed are empty.
pub type Texts<'a> = [&'a str; 5];

/// One text.
pub fn one<'a>(text: &'a str) -> Texts<'a> {
    [text, "", "", "", ""]
}

/// A text, and what comes before and after it.
pub fn three<'a>(front: &'a str, text: &'a str, behind: &'a str) -> Texts<'a> {
    [front, text, behind, "", ""]
}

/// What failed, a file, a stream or the words; the text; and the first bytes of a line of the input, if
/// these are shown after it.
#[derive(Clone, Copy)]
pub struct Line<'a> {
    pub what: &'a str,
    pub texts: Texts<'a>,
    pub begun: Option<&'a [u8]>,
}

impl Display for Line<'_> {
    fn fmt<W: fmt::Write>(&self, f: &mut Formatter<W>) -> fmt::Result {
        let what = Shown(self.what);
        let said = Said(self.texts);
        let begins = Begins(self.begun);
        write!(f, "{what}: {said}{begins}")
    }
}

/// Texts one after another, each quoted if it would break the line.
#[derive(Clone, Copy)]
struct Said<'a>(Texts<'a>);

impl Display for Said<'_> {
    fn fmt<W: fmt::Write>(&self, f: &mut Formatter<W>) -> fmt::Result {
        for text in self.0.iter() {
            Shown(text).fmt(f)?;
        }
        Ok(())
    }
}
