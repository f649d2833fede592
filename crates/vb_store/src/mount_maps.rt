// The steps of a mount that read map pages.
ghost use Rattle.std.specs.Prelude.{◌≡◌, ◌≢◌, ◌<◌, ◌≤◌, ℕ, List, [], false, drop, length, Some, Ok, Err, IfErr, IsErrOf, OnOk};
ghost use Rattle.vb_store.specs.Metadata.{map_checked};
ghost use Rattle.vb_store.specs.MountMoves.{IsStageLike};
ghost use Rattle.vb_store.specs.MountFalls.{FallsTo, LeavesMaps};
ghost use Rattle.vb_store.specs.MountLists.{map_places, places_left, ComesAfter, ReadsFirst};
ghost use Rattle.vb_store.specs.MountStages.{blocks_of, due_place, rest_of, rest_of_maps, HasEnded, IsNoFault, IsSameAnswer, IsStopped, StandsAfter};
ghost use Rattle.vb_store.specs.Settled.{PassesRead};
ghost use Rattle.vb_store.specs.Namings.{AreBlanksNamed};
ghost use Rattle.vb_store.specs.NodesRead.{is_retried};

use crate::map_reads::{check_map, claim_all, set_refs};
use crate::mount_parts::{Claimed, Refusal, Tree, Whole};
use crate::mount_stage::MountStage;
use crate::node_blocks::block_place;
use std::alloc::Global;
use vb_block::{Page, Why};
use vb_inode::Refs;
use vb_journal::RecoverError;

/// The stage after a step, and what it answers.
pub(crate) type Stepped = (MountStage, Result<(), RecoverError>);

/// The end, for this reason.
pub(crate) fn refused(refusal: Refusal) -> Stepped
    ensures stage { result.0 ≡ MountStage.Refused refusal }
    ensures error { result.1 ≡ Err refusal.error }
{
    let error = refusal.error;
    (MountStage::Refused(refusal), Err(error))
}

/// Whether the same call is made again after it.
pub(crate) fn is_retried(error: &RecoverError) -> bool
    ensures { result ≡ is_retried error.now }
{
    matches!(error, RecoverError::DiskFault | RecoverError::Memory)
}

/// A stage after an error.
pub(crate) fn stopped(stage: MountStage, error: RecoverError) -> Stepped
    requires { (place : ℕ) (kept found : List ℕ) → error ≡ RecoverError.Damaged place kept found → kept ≢ found }
    ensures stage { IsStopped stage error result.0 }
    ensures error { result.1 ≡ Err error }
{
    if is_retried(&error) {
        (stage, Err(error))
    } else {
        refused(Refusal { error })
    }
}

/// Goes on with the next map page of a tree, after a read of this place.
pub(crate) fn go_on(mut tree: Tree, last: u32) -> Stepped
    requires within { last < tree.head.blocks }
    requires blanks { AreBlanksNamed tree.index.nodes (drop tree.next tree.maps.items) }
    ensures rest { (reads : ℕ → List ℕ) → rest_of reads result.0
        ≡ rest_of_maps reads tree.head tree.slots.items (drop tree.next tree.maps.items)
        (record { slots = tree.index.nodes; claims = tree.claims }) }
    ensures list { OnOk result.1 ((reads : ℕ → List ℕ) → places_left reads result.0 ≡ map_places (drop tree.next tree.maps.items)) }
    ensures after { OnOk result.1 (ComesAfter last result.0) }
    ensures blocks { blocks_of result.0 ≤ tree.head.blocks }
    ensures error { IfErr result.1 (λ error. HasEnded result.0 error × (is_retried error ≡ false)) }
    ensures maps { OnOk result.1 (LeavesMaps (length (drop tree.next tree.maps.items)) tree.head last result.0) }
{
    if tree.next >= tree.maps.len() {
        return whole(tree, last);
    }
    let map = tree.maps[tree.next];
    match tree.claims.claim(map.reference.place) {
        Ok(()) => {
            tree.next += 1;
            (MountStage::ReadMap(Claimed { tree, map }), Ok(()))
        }
        Err(why) => {
            let place = block_place(&tree.slots, tree.head.nodes, map.slot);
            refused(Refusal {
                error: RecoverError::Unfit { place, why },
            })
        }
    }
}

/// All of a tree was read, and this place last.
fn whole(tree: Tree, place: u32) -> Stepped
    requires within { place < tree.head.blocks }
    requires end { length tree.maps.items ≤ tree.next }
    requires blanks { AreBlanksNamed tree.index.nodes (drop tree.next tree.maps.items) }
    ensures rest { (reads : ℕ → List ℕ) → rest_of reads result.0 ≡ Ok (record { head = tree.head; held = tree.index.nodes }) }
    ensures list { (reads : ℕ → List ℕ) → places_left reads result.0 ≡ [] }
    ensures after { ComesAfter place result.0 }
    ensures blocks { blocks_of result.0 ≤ tree.head.blocks }
    ensures maps { LeavesMaps (length (drop tree.next tree.maps.items)) tree.head place result.0 }
    ensures ok { result.1 ≡ Ok tt }
{
    let Tree {
        head,
        index,
        slots: _,
        claims: _,
        maps: _,
        next: _,
    } = tree;
    (MountStage::Finish(Whole { head, index, place }), Ok(()))
}

/// Takes in the map page that was read.
pub(crate) fn take_map(alloc: Global, claimed: Claimed, page: &Page) -> Stepped
    ensures rest { IsSameAnswer claimed.map.reference.place page.now (MountStage.ReadMap claimed) result.0 }
    ensures list { (reads : ℕ → List ℕ) → reads claimed.map.reference.place ≡ page.now
        → ReadsFirst reads claimed.map.reference.place (MountStage.ReadMap claimed) result.0 result.1 }
    ensures after { OnOk result.1 (ComesAfter claimed.map.reference.place result.0) }
    ensures passes { OnOk result.1 (PassesRead page.now (MountStage.ReadMap claimed)) }
    ensures blocks { blocks_of result.0 ≤ claimed.tree.head.blocks }
    ensures error { IfErr result.1 (StandsAfter (MountStage.ReadMap claimed) result.0) }
    ensures no_fault { IfErr result.1 IsNoFault }
    ensures falls { OnOk result.1 (FallsTo (MountStage.ReadMap claimed) result.0) }
    ensures stays { IsErrOf result.1 RecoverError.Memory → IsStageLike (MountStage.ReadMap claimed) result.0 }
{
    match check_map(alloc, &claimed.map, page) {
        Ok(refs) => take_refs(claimed, &refs),
        Err(error) => stopped(MountStage::ReadMap(claimed), error),
    }
}

/// Takes in the references of the map page that was read.
fn take_refs(claimed: Claimed, refs: &Refs) -> Stepped
    requires { length refs.now ≡ claimed.map.count }
    ensures rest { (reads : ℕ → List ℕ) → map_checked claimed.map (reads claimed.map.reference.place) ≡ Ok refs.now
        → rest_of reads result.0 ≡ rest_of reads (MountStage.ReadMap claimed) }
    ensures list { (reads : ℕ → List ℕ) → ReadsFirst reads claimed.map.reference.place (MountStage.ReadMap claimed) result.0 result.1 }
    ensures after { OnOk result.1 (ComesAfter claimed.map.reference.place result.0) }
    ensures blocks { blocks_of result.0 ≤ claimed.tree.head.blocks }
    ensures error { IfErr result.1 (λ error. HasEnded result.0 error × (is_retried error ≡ false)) }
    ensures falls { OnOk result.1 (FallsTo (MountStage.ReadMap claimed) result.0) }
{
    let Claimed { mut tree, map } = claimed;
    let place = map.reference.place;
    match claim_all(&mut tree.claims, place, refs.slice()) {
        Ok(()) => {
            set_refs(&mut tree.index, map.slot, map.first, refs.slice());
            go_on(tree, place)
        }
        Err(why) => refused(Refusal {
            error: RecoverError::Unfit { place, why },
        }),
    }
}
