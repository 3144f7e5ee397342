//! A sink that drops what is put.
ghost use Rattle.std.specs.Prelude.{[], false, true};

use disk_face::{Sink, SinkFault};

/// Takes all bytes, and keeps none.
#[derive(Drop)]
pub(crate) struct Dropped;

impl Sink for Dropped {
    ghost state = { λ _. record { tells = false; given = []; faults = 0 } };

    fn put(&mut self, bytes: &[u8]) -> Result<(), SinkFault> {
        Ok(())
    }
}
