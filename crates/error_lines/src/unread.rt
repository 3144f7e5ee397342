//! The start of a line that is not a request.
use crate::shown::Quoted;
use std::fmt::{self, Display, Formatter};

/// How many bytes of a line are shown.
const SHOWN: usize = 40;

/// The start of a line that is not a request, or of an incomplete one, if it is shown: its first bytes in
/// quotes. Two dots after the quotes say that there are more.
#[derive(Clone, Copy)]
pub struct Begins<'a>(pub Option<&'a [u8]>);

impl Display for Begins<'_> {
    fn fmt<W: fmt::Write>(&self, f: &mut Formatter<W>) -> fmt::Result {
        let Some(bytes) = self.0 else {
            return Ok(());
        };
        if bytes.is_empty() {
            return f.write_str("its line is blank");
        }
        let front = Quoted(&bytes[..bytes.len().min(SHOWN)]);
        let end = if bytes.len() > SHOWN { "\" .." } else { "\"" };
        write!(f, "it begins with \"{front}{end}")
    }
}
