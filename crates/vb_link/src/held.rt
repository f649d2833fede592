// What a cloud holds at a place of the view that it shows.
ghost use Rattle.std.specs.Prelude.{◌≡◌, ◌<◌, ◌≤◌, ◌*◌, length, IfOk, IfSome, IsNone, Some, None};
ghost use Rattle.sha2.specs.Sha256.{sha256};
ghost use Rattle.vb_cloud.specs.Pages.{page_at};
ghost use Rattle.vb_link.specs.Views.{view_of, entry_in, page_in};

use crate::ViewEntry;
use std::alloc::{AllocError, Global};
use vb_block::Digest;
use vb_cloud::Cloud;
use vb_list::Items;

/// What is told of the entry at a place.
#[tactic(auto, using(crate::proofs::Places::telling))]
pub fn told_entry(alloc: Global, cloud: &Cloud, i: u32) -> Result<ViewEntry, AllocError>
    requires { i < length cloud.now.tree }
    ensures { IfOk result (λ entry. entry_in i (view_of cloud.now) ≡ Some entry) }
{
    let (path, kind, bytes) = cloud.entry(i);
    Ok(ViewEntry {
        path: path.copy(alloc)?,
        kind,
        length: bytes.len() as u64,
        digests: Items::of(alloc, cloud.digests(i))?,
    })
}

/// The bytes of the entry at a place, and the digest of its page with this number. None past the end of either.
#[tactic(auto, using(crate::proofs::Places::holding))]
pub fn held_page(cloud: &Cloud, i: u32, page: u32) -> Option<(&[u8], Digest)>
    ensures none { IsNone result → page_in i page cloud.now ≡ None }
    ensures within { IfSome result (λ held. 4096 * page ≤ length held.0.now) }
    ensures page { IfSome result (λ held. page_in i page cloud.now ≡ Some (page_at page held.0.now)) }
    ensures digest { IfSome result (λ held. sha256 (page_at page held.0.now) ≡ held.1) }
{
    if i >= cloud.len() {
        return None;
    }
    let (_, _, bytes) = cloud.entry(i);
    let digests = cloud.digests(i);
    if page as usize >= digests.len() {
        return None;
    }
    Some((bytes, digests[page as usize]))
}
