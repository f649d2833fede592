// Reads values from the front of some bytes.
ghost use Rattle.std.specs.Prelude.{◌≡◌, ◌+◌, ◌≤◌, ◌++◌, length, take, drop};
ghost use Rattle.vb_block.specs.Numbers.{four_bytes, eight_bytes};
ghost use Rattle.vb_inode.specs.Layout.{ref_bytes};
ghost use Rattle.vb_inode.specs.Checks.{are_zeros};

use vb_block::{Digest, Ref};

/// The number in the first four bytes, and the bytes after it.
#[tactic(auto, unfolding(vb_block::specs::Numbers::four_bytes))]
pub(crate) fn split_u32(bytes: &[u8]) -> (u32, &[u8])
    requires { 4 ≤ length bytes.now }
    ensures parts { bytes.now ≡ four_bytes result.0 ++ result.1.now }
    ensures length { length result.1.now + 4 ≡ length bytes.now }
{
    let (front, rest) = bytes.split_at(4);
    let number = u32::from_le_bytes([front[0], front[1], front[2], front[3]]);
    (number, rest)
}

/// The number in the first eight bytes, and the bytes after it.
#[tactic(auto, unfolding(vb_block::specs::Numbers::eight_bytes))]
pub(crate) fn split_u64(bytes: &[u8]) -> (u64, &[u8])
    requires { 8 ≤ length bytes.now }
    ensures parts { bytes.now ≡ eight_bytes result.0 ++ result.1.now }
    ensures length { length result.1.now + 8 ≡ length bytes.now }
{
    let (front, rest) = bytes.split_at(8);
    let number = u64::from_le_bytes([
        front[0], front[1], front[2], front[3], front[4], front[5], front[6], front[7],
    ]);
    (number, rest)
}

/// The digest in the first 32 bytes, and the bytes after it.
fn split_digest(bytes: &[u8]) -> (Digest, &[u8])
    requires { 32 ≤ length bytes.now }
    ensures parts { bytes.now ≡ result.0 ++ result.1.now }
    ensures digest { length result.0 ≡ 32 }
    ensures length { length result.1.now + 32 ≡ length bytes.now }
{
    let (front, rest) = bytes.split_at(32);
    let mut digest = [0; 32];
    digest.copy_from_slice(front);
    (Digest::of(digest), rest)
}

/// The reference in the first 36 bytes, and the bytes after it.
pub(crate) fn split_ref(bytes: &[u8]) -> (Ref, &[u8])
    requires { 36 ≤ length bytes.now }
    ensures parts { bytes.now ≡ ref_bytes result.0 ++ result.1.now }
    ensures digest { length result.0.digest ≡ 32 }
    ensures length { length result.1.now + 36 ≡ length bytes.now }
{
    let (place, rest) = split_u32(bytes);
    let (digest, rest) = split_digest(rest);
    (Ref { place, digest }, rest)
}

/// The bytes before a place and those from it on, the place being the end where it lies past that.
pub(crate) fn split_within(bytes: &[u8], at: usize) -> (&[u8], &[u8])
    ensures front { result.0.now ≡ take at bytes.now }
    ensures back { result.1.now ≡ drop at bytes.now }
{
    bytes.split_at(at.min(bytes.len()))
}

/// Whether each byte is zero.
pub(crate) fn are_zeros(bytes: &[u8]) -> bool
    ensures { result ≡ are_zeros bytes.now }
{
    bytes.iter().all(|&byte| byte == 0)
}
