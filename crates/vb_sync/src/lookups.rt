// Look-ups in a listing.
ghost use Rattle.std.specs.Prelude.{◌≡◌, Some, IfSome, IfNone};
ghost use Rattle.vb_sync.specs.Indexes.{IsIndex};
ghost use Rattle.vb_sync.specs.Published.{first_page, first_file, digest_at, same_key, IsPublished};
ghost use Rattle.std.specs.Map.{lookup};

use crate::{FileKey, Listing, PublishedPage};
use vb_block::Digest;

/// The first page of a digest.
pub fn page_of(listing: &Listing, digest: &Digest) -> Option<PublishedPage>
    requires { IsIndex listing.now.entries listing.now.pages.entries listing.now.contents.entries listing.now.files.entries }
    ensures first { result ≡ first_page digest.now listing.now.entries }
    ensures there { IfSome result (λ at. digest_at at.entry at.page listing.now.entries ≡ Some digest.now) }
    ensures nowhere { IfNone result (IsPublished digest.now listing.now.entries → ⊥) }
{
    match listing.pages.get(digest) {
        Some(place) => Some(*place),
        None => None,
    }
}

/// The first file of a length and these digests.
pub fn file_of(listing: &Listing, length: u64, digests: &[Digest]) -> Option<u32>
    requires { IsIndex listing.now.entries listing.now.pages.entries listing.now.contents.entries listing.now.files.entries }
    ensures { result ≡ first_file length digests.now listing.now.entries }
{
    match listing.contents.get(digests) {
        Some(first) => {
            let first = *first;
            file_with(listing, FileKey { first, length })
        }
        None => None,
    }
}

/// The first file of a key.
fn file_with(listing: &Listing, key: FileKey) -> Option<u32>
    ensures { result ≡ lookup (same_key key) listing.now.files.entries }
{
    match listing.files.get(&key) {
        Some(file) => Some(*file),
        None => None,
    }
}
