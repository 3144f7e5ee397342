//! The changes of a session that aren't in its file.
use crate::shown::Shown;
use std::fmt::{self, Display, Formatter};

/// Requests that were answered `ok` and whose changes no acknowledged checkpoint holds.
#[derive(Clone, Copy)]
pub struct Unkept<'a> {
    /// The file.
    pub file: &'a str,
    /// How many they are, one at least.
    pub requests: u64,
    /// The request that the last acknowledged checkpoint was made by, or 0.
    pub since: u64,
    /// Whether a checkpoint that wasn't acknowledged may hold them.
    pub may_be_kept: bool,
}

impl Display for Unkept<'_> {
    fn fmt<W: fmt::Write>(&self, f: &mut Formatter<W>) -> fmt::Result {
        let file = Shown(self.file);
        let requests = self.requests;
        let since = Since(self.since);
        let answered = if requests == 1 {
            " request answered ok since "
        } else {
            " requests answered ok since "
        };
        let where_now = match (self.may_be_kept, requests) {
            (true, _) => " may not be in the file",
            (false, 1) => " is not in the file, because no keep followed",
            (false, _) => " are not in the file, because no keep followed",
        };
        write!(f, "{file}: unkept: {requests}{answered}{since}{where_now}")
    }
}

/// Since when: since the request of a checkpoint, or since the session began where that is 0.
#[derive(Clone, Copy)]
struct Since(u64);

impl Display for Since {
    fn fmt<W: fmt::Write>(&self, f: &mut Formatter<W>) -> fmt::Result {
        match self.0 {
            0 => f.write_str("the session began"),
            since => write!(f, "the checkpoint of request {since}"),
        }
    }
}
