// Map pages, as a mount reads them.
ghost use Rattle.std.specs.Prelude.{◌≡◌, ◌+◌, ◌^◌, ◌≤◌, ◌<◌, All, length, unwrap_or, [], IfOk, OnOk, OnErr, Ok, Err};
ghost use Rattle.vb_index.specs.Nodes.{refs_at};
ghost use Rattle.vb_store.specs.Maps.{IsMapPage, IsOfFile};
ghost use Rattle.vb_store.specs.Metadata.{all_claimed_by, map_checked, with_refs_at};
ghost use Rattle.vb_store.specs.Mounting.{refusal_of_map, IsClaimed, IsDue};

use crate::map_page::MapPage;
use std::alloc::Global;
use vb_block::{Page, Ref, Why, page_digest};
use vb_inode::{MapError, Refs, decode_map};
use vb_journal::RecoverError;
use vb_nodes::{Claims, Index};

/// The references in a map page, which has the digest that names it.
#[tactic(auto, unfolding(vb_inode::specs::Reading::map_read))]
pub(crate) fn check_map(alloc: Global, map: &MapPage, page: &Page) -> Result<Refs, RecoverError>
    requires { IsMapPage map.now }
    ensures due { IsDue (map_checked map.now page.now) result }
    ensures as_many { IfOk result (λ refs. length refs ≡ map.now.count) }
{
    let reference = map.reference;
    let found = page_digest(page);
    if reference.digest != found {
        return Err(RecoverError::Damaged {
            place: reference.place,
            kept: reference.digest,
            found,
        });
    }
    match decode_map(alloc, page, map.count) {
        Ok(refs) => Ok(refs),
        Err(error) => Err(refusal(error, reference.place)),
    }
}

// Why a map page at this place is refused.
fn refusal(error: MapError, place: u32) -> RecoverError
    ensures { result ≡ refusal_of_map place error }
{
    match error {
        MapError::Wrong(why) => RecoverError::Unfit { place, why },
        MapError::Memory => RecoverError::Memory,
    }
}

/// Claims the places that these references in the block at a place name.
pub(crate) fn claim_all(claims: &mut Claims, block: u32, refs: &[Ref]) -> Result<(), Why>
    ensures claimed { IsClaimed block (all_claimed_by block claims.old refs.now) claims.new result }
    ensures first { claims.new.first ≡ claims.old.first }
    ensures range { length claims.new.taken ≡ length claims.old.taken }
{
    for reference in refs {
        claims.claim(reference.place)?;
    }
    Ok(())
}

/// Gives the pages of a file these references, from one of its pages on.
pub(crate) fn set_refs(index: &mut Index, slot: u32, first: u32, refs: &[Ref])
    requires there { first + length refs.now ≤ length (unwrap_or (refs_at index.old.nodes slot) []) }
    requires few { first + length refs.now < 2 ^ 32 }
    ensures nodes { index.new.nodes ≡ with_refs_at index.old.nodes slot first refs.now }
    ensures limits { index.new.limits ≡ index.old.limits }
{
    let mut page = first;
    for reference in refs {
        index.set_ref(slot, page, *reference);
        page += 1;
    }
}
