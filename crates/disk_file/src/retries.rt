//! Calls that are tried again.
ghost use Rattle.std.specs.Prelude.{◌≡◌, ◌↔◌, IsTrue};
ghost use Rattle.std.specs.IoError.{error_kind};

use std::io::{self, ErrorKind};

/// Whether a signal came before the call passed anything on.
pub fn is_interrupted(error: &io::Error) -> bool
    ensures { IsTrue result ↔ (error_kind error.now ≡ ErrorKind.Interrupted) }
{
    matches!(error.kind(), ErrorKind::Interrupted)
}
