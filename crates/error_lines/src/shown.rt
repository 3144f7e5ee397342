//! Words and bytes of a user on one line.
use std::fmt::{self, Display, Formatter};

/// A word as it is, or quoted where it would break the line.
#[derive(Clone, Copy)]
pub struct Shown<'a>(pub &'a str);

impl Display for Shown<'_> {
    fn fmt<W: fmt::Write>(&self, f: &mut Formatter<W>) -> fmt::Result {
        let name = self.0;
        if name.bytes().any(|b| b < b' ' || b == 0x7f) {
            write!(f, "{name:?}")
        } else {
            f.write_str(name)
        }
    }
}

/// Bytes of a line as they are shown within quotes: printable ASCII as it is, except that a quote and a
/// backslash have a backslash before them; each other byte as a backslash, `x` and two hexadecimal digits.
#[derive(Clone, Copy)]
pub struct Quoted<'a>(pub &'a [u8]);

impl Display for Quoted<'_> {
    fn fmt<W: fmt::Write>(&self, f: &mut Formatter<W>) -> fmt::Result {
        for byte in self.0.iter() {
            Escaped(*byte).fmt(f)?;
        }
        Ok(())
    }
}

/// A byte within quotes.
#[derive(Clone, Copy)]
struct Escaped(u8);

impl Display for Escaped {
    fn fmt<W: fmt::Write>(&self, f: &mut Formatter<W>) -> fmt::Result {
        let byte = self.0;
        match byte {
            b'"' => f.write_str("\\\""),
            b'\\' => f.write_str("\\\\"),
            b' '..=b'~' => f.write_char(byte as char),
            _ => write!(f, "\\x{byte:02x}"),
        }
    }
}
