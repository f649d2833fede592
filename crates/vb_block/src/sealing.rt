// Seals: the last 32 bytes of a metadata block are the SHA-256 of all before them.
ghost use Rattle.std.specs.Prelude.{◌≡◌, ◌↔◌, IsTrue};
ghost use Rattle.sha2.specs.Sha256.{sha256};
ghost use Rattle.vb_block.specs.Pages.{seal_of, sealed_page, sealed_part, IsSealed};

use crate::{Digest, Page};
use sha2::{Digest as Hasher, Sha256};

/// Where the seal begins.
const SEALED: usize = 4064;

/// The SHA-256 of the 4,096 bytes.
pub fn page_digest(page: &Page) -> Digest
    ensures { result ≡ sha256 page.now }
{
    Digest::of(Sha256::digest(page.bytes()))
}

/// Writes the last 32 bytes, so that the page is sealed. The others stay.
pub fn seal(page: &mut Page)
    ensures sealed_bytes { page.new ≡ sealed_page page.old }
    ensures sealed { IsSealed page.new }
{
    let digest: [u8; 32] = Sha256::digest(&page.bytes()[..SEALED]);
    page.set(SEALED, &digest);
}

/// Tests the last 32 bytes.
pub fn is_sealed(page: &Page) -> bool
    ensures { IsTrue result ↔ IsSealed page.now }
{
    let (sealed, last) = page.bytes().split_at(SEALED);
    let digest: [u8; 32] = Sha256::digest(sealed);
    digest.as_slice() == last
}

/// The seal that a page has: its last 32 bytes.
pub fn kept_seal(page: &Page) -> Digest
    ensures { result ≡ seal_of page.now }
{
    let mut kept = [0; 32];
    kept.copy_from_slice(&page.bytes()[SEALED..]);
    Digest::of(kept)
}

/// The seal that a page has to have: the SHA-256 of all bytes before the last 32.
pub fn due_seal(page: &Page) -> Digest
    ensures { result ≡ sha256 (sealed_part page.now) }
{
    Digest::of(Sha256::digest(&page.bytes()[..SEALED]))
}
