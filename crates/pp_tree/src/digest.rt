// SHA-256 digests (FIPS 180-4).
ghost use Rattle.std.specs.Prelude.{◌≡◌, length};
ghost use Rattle.sha2.specs.Sha256.{sha256};

use sha2::{Digest as _, Sha256};
use std::marker::Model;

/// A SHA-256 digest (FIPS 180-4).
#[derive(Clone, Copy, PartialEq, Eq, Debug)]
pub struct Digest([u8; 32]);

impl Model for Digest {
    ghost use Rattle.std.specs.Prelude.{◌≡◌, ℕ, List, length};

    ghost Value = { List ℕ };

    ghost view = { λ d. d.0 };

    ghost invariant = { λ d. length d.0 ≡ 32 };

    ghost inverse = { λ bytes. record { 0 = bytes } };
}

impl Digest {
    pub fn new(bytes: [u8; 32]) -> Digest
        ensures same { result ≡ bytes }
        ensures len { length result ≡ 32 }
    {
        Digest(bytes)
    }

    pub fn bytes(&self) -> &[u8; 32]
        ensures same { result.now ≡ self.now }
        ensures len { length self.now ≡ 32 }
    {
        &self.0
    }
}

/// The digest of a chunk, which is that of its leaf (RFC 7574, section 5.1).
pub fn leaf(chunk: &[u8]) -> Digest
    ensures { result ≡ sha256 chunk.now }
{
    Digest(Sha256::digest(chunk))
}
