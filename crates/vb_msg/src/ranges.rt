// What the fields of messages are, each in its range.
ghost use Rattle.std.specs.Prelude.{◌≡◌, ◌<◌, ◌≤◌, ◌^◌, ◌⊎◌, length, true, false, IfOk, IfSome, IsNone, ◌↔◌};
ghost use Rattle.vb_path.specs.Paths.{IsPath};
ghost use Rattle.vb_tree.specs.Trees.{is_root};
ghost use Rattle.vb_msg.specs.Ranges.{are_zeros};

use std::alloc::{AllocError, Global};
use vb_block::FolderId;
use vb_tree::{Bytes, Path};

/// An epoch that a message may name: below 2^63.
#[derive(Clone, Copy, Debug, PartialEq, Eq)]
pub struct Epoch {
    pub number: u64,
    pub ghost small: { number < 2 ^ 63 },
}

/// The name of a folder, which isn't all zeros: those stand for a cloud without a name.
#[derive(Clone, Copy, Debug, PartialEq, Eq)]
pub struct CloudId {
    pub id: FolderId,
    pub ghost whole: { length id ≡ 16 },
    pub ghost named: { are_zeros id ≡ false },
}

/// A part of a file's content: 1 to 4,096 bytes.
#[derive(Debug, PartialEq, Eq, Drop)]
pub struct PartBytes {
    pub bytes: Bytes,
    pub ghost some: { 1 ≤ length bytes },
    pub ghost few: { length bytes ≤ 4096 },
}

/// The path of an entry: any but the root.
#[derive(Debug, PartialEq, Eq, Drop)]
pub struct EntryPath {
    pub path: Path,
    pub ghost valid: { IsPath path },
    pub ghost below: { is_root path ≡ false },
}

impl Epoch {
    /// The epoch of a number, and None where it is out of the range.
    pub fn of(number: u64) -> Option<Epoch>
        ensures some { IfSome result (λ epoch. epoch.number ≡ number) }
        ensures none { IsNone result ↔ (2 ^ 63 ≤ number) }
    {
        if number < 1 << 63 {
            Some(Epoch { number })
        } else {
            None
        }
    }
}

impl CloudId {
    /// The name of a folder, and None where it is all zeros.
    pub fn of(id: FolderId) -> Option<CloudId>
        ensures some { IfSome result (λ named. named.id ≡ id) }
        ensures none { IsNone result ↔ (are_zeros id ≡ true) }
    {
        if are_zeros(id.bytes()) {
            None
        } else {
            Some(CloudId { id })
        }
    }
}

impl PartBytes {
    /// A part of these bytes, and None where there are none or more than 4,096.
    pub fn of(bytes: Bytes) -> Option<PartBytes>
        ensures some { IfSome result (λ part. part.bytes ≡ bytes) }
        ensures none { IsNone result → (length bytes ≡ 0) ⊎ (4096 < length bytes) }
    {
        if bytes.is_empty() || bytes.len() > 4096 {
            None
        } else {
            Some(PartBytes { bytes })
        }
    }

    /// An equal part.
    pub fn copy(&self, alloc: Global) -> Result<PartBytes, AllocError>
        ensures { IfOk result (λ copied. copied ≡ self.now) }
    {
        Ok(PartBytes {
            bytes: Bytes::of(alloc, self.bytes.slice())?,
        })
    }
}

impl EntryPath {
    /// The path of an entry, and None for the root.
    pub fn of(path: Path) -> Option<EntryPath>
        ensures some { IfSome result (λ entry. entry.path ≡ path) }
        ensures none { IsNone result ↔ (is_root path ≡ true) }
    {
        let _ = path.text();
        if path.parts().is_empty() {
            None
        } else {
            Some(EntryPath { path })
        }
    }

    /// An equal path.
    pub fn copy(&self, alloc: Global) -> Result<EntryPath, AllocError>
        ensures { IfOk result (λ copied. copied ≡ self.now) }
    {
        Ok(EntryPath {
            path: self.path.copy(alloc)?,
        })
    }
}

// Whether each byte is zero.
fn are_zeros(bytes: &[u8]) -> bool
    ensures { result ≡ are_zeros bytes.now }
{
    bytes.iter().all(|&byte| byte == 0)
}
