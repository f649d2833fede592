// Which pages a damaged place may read as.
ghost use Rattle.std.specs.Prelude.{◌≡◌, not};
ghost use Rattle.std.specs.Bool.{OnTrue, OnFalse};
ghost use Rattle.std.specs.List.{list_all};
ghost use Rattle.std.specs.Str.{bytes_eq};
ghost use Rattle.sha2.specs.Sha256.{sha256};
ghost use Rattle.vb_disk.specs.Misses.{is_miss, IsFirstMiss, IsAllTaken};

use crate::Cell;
use vb_block::{Digest, Page, is_sealed, page_digest};

/// The byte that is tried first for a miss.
const FIRST_TRIED: u8 = 0xEE;

/// Whether a page is a miss at a place: it isn't sealed, and no candidate has its digest.
pub(crate) fn is_miss(cell: &Cell, page: &Page) -> bool
    ensures { result ≡ is_miss cell.now page.now }
{
    if is_sealed(page) {
        return false;
    }
    let digest = page_digest(page);
    if cell.first.digest() == digest {
        return false;
    }
    all_unlike(cell.later.slice(), digest)
}

/// Makes the page the first miss of equal bytes, and says whether there is one. The bytes are tried from 0xEE
/// downwards.
pub(crate) fn first_miss(cell: &Cell, page: &mut Page) -> bool
    ensures found { OnTrue result (IsFirstMiss cell.now page.new) }
    ensures none { OnFalse result (IsAllTaken cell.now) }
{
    for tried in 0..=FIRST_TRIED {
        page.fill(FIRST_TRIED - tried);
        if is_miss(cell, page) {
            return true;
        }
    }
    false
}

// Whether none of the pages has this digest.
fn all_unlike(pages: &[Page], digest: Digest) -> bool
    ensures { result ≡ list_all (λ page. not (bytes_eq (sha256 page) digest)) pages.now }
{
    for page in pages {
        if page_digest(page) == digest {
            return false;
        }
    }
    true
}
