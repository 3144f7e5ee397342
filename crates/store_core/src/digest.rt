//! What is kept as the digest of an object.
ghost use Rattle.std.specs.Prelude.{◌≡◌, true};
ghost use Rattle.sha2.specs.Sha256.{sha256};
ghost use Rattle.slot_codec.specs.Spelling.{has_digests};

use crate::Store;
use sha2::{Digest, Sha256};
use slot_codec::has_digests;

/// What a table has of an object that has no digest.
const NONE: &[u8; 32] = &[0; 32];

/// What a table of a version is given as the digest of an object: the SHA-256 of its bytes, and in
/// version 1, whose records have none, zeros. It takes no memory.
pub(crate) fn digest_of(version: u8, bytes: &[u8]) -> [u8; 32]
    ensures own { has_digests version ≡ true → result ≡ sha256 bytes.now }
{
    if has_digests(version) {
        Sha256::digest(bytes)
    } else {
        *NONE
    }
}

impl<const C: usize> Store<C> {
    ghost use Rattle.store_model.specs.Digested.{IsDigestFor};

    /// What the table is given as the digest of an object.
    pub(crate) fn own_digest(&self, bytes: &[u8]) -> [u8; 32]
        ensures own { IsDigestFor self.now.book.digests bytes.now result }
    {
        digest_of(self.hands.version, bytes)
    }
}
