// The name of a folder.
ghost use Rattle.std.specs.Prelude.{◌≡◌, length};

use std::marker::Model;

/// Names a folder on its disk and in the cloud. Contracts see it as the list of its 16 bytes.
#[derive(Clone, Copy, Debug, PartialEq, Eq)]
pub struct FolderId {
    bytes: [u8; 16],
}

impl Model for FolderId {
    ghost use Rattle.std.specs.Prelude.{List, ℕ};

    ghost Value = { List ℕ };

    ghost view = { λ a. a.bytes };

    ghost inverse = { λ bytes. record { bytes = bytes } };
}

impl FolderId {
    /// A name of these bytes.
    pub fn of(bytes: [u8; 16]) -> FolderId
        ensures { result ≡ bytes }
    {
        FolderId { bytes }
    }

    /// The 16 bytes.
    pub fn bytes(&self) -> &[u8]
        ensures bytes { result.now ≡ self.now }
        ensures length { length result.now ≡ 16 }
    {
        &self.bytes
    }
}
