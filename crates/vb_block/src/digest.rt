// Digests, and references that name a page by its place and digest.
ghost use Rattle.std.specs.Prelude.{◌≡◌, length};

use std::marker::Model;

/// The SHA-256 of some bytes. Contracts see it as the list of its 32 bytes.
#[derive(Clone, Copy, Debug, PartialEq, Eq, PartialOrd, Ord, Hash)]
pub struct Digest {
    bytes: [u8; 32],
}

impl Model for Digest {
    ghost use Rattle.std.specs.Prelude.{List, ℕ};

    ghost Value = { List ℕ };

    ghost view = { λ a. a.bytes };

    ghost inverse = { λ bytes. record { bytes = bytes } };
}

impl Digest {
    /// A digest of these bytes.
    pub fn of(bytes: [u8; 32]) -> Digest
        ensures { result ≡ bytes }
    {
        Digest { bytes }
    }

    /// The 32 bytes.
    pub fn bytes(&self) -> &[u8]
        ensures bytes { result.now ≡ self.now }
        ensures length { length result.now ≡ 32 }
    {
        &self.bytes
    }
}

/// Names a page: the place where it stands, and its digest.
#[derive(Clone, Copy, Debug, PartialEq, Eq)]
pub struct Ref {
    pub place: u32,
    pub digest: Digest,
}
