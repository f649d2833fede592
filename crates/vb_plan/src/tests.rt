// A plan, made and read to its end.
ghost use Rattle.std.specs.Prelude.{◌≡◌, ◌∷◌, [], ◌≤◌, replicate, length, Some, None, IfOk};
ghost use Rattle.vb_inode.specs.declared.next_view.PageSource.TheVariants.{Fresh};
ghost use Rattle.vb_index.specs.Nodes.{root_held};
ghost use Rattle.vb_space.specs.Spaces.{free_count};
ghost use Rattle.vb_plan.specs.Worked.{file_next, root_next};

use super::*;
use std::alloc::{AllocError, Global};
use std::test::Fail;
use vb_block::{Digest, is_sealed};
use vb_index::{Bytes, Index, Limits, Node, NodeKind, Refs};
use vb_inode::{NextNode, NextView, PageSource, Sources};
use vb_path::is_part;
use vb_space::Space;

/// A node of the next view, right below the root.
fn next_node(
    alloc: Global,
    slot: u32,
    kind: NodeKind,
    name: &[u8],
    length: u64,
    pages: Sources,
) -> Result<NextNode, AllocError>
    ensures { IfOk result (λ x. x ≡ record {
      node = record { slot = slot; kind = kind; parent = 0; name = name.now; length = length; maps = [] };
      pages = pages;
    }) }
{
    let name = Bytes::of(alloc, name)?;
    Ok(NextNode {
        node: Node {
            slot,
            kind,
            parent: 0,
            name,
            length,
            maps: Refs::new(alloc),
        },
        pages,
    })
}

/// A root, and a file of five bytes in slot 1, whose page has this digest.
fn small_view(alloc: Global, digest: Digest) -> Result<NextView, AllocError>
    ensures { IfOk result (λ next. next ≡ root_next ∷ file_next 1 (97 ∷ []) 5 (Fresh digest ∷ []) ∷ []) }
{
    let mut next = NextView::new(alloc);
    next.add(next_node(alloc, 0, NodeKind::Folder, &[], 0, Sources::new(alloc))?)?;
    let pages = Sources::of(alloc, &[PageSource::Fresh(digest)])?;
    next.add(next_node(alloc, 1, NodeKind::File, &[97], 5, pages)?)?;
    Ok(next)
}

/// The plan of a commit to that view in an empty store.
fn small_plan(alloc: Global) -> Result<Plan, Fail> {
    let limits = Limits {
        pages: 15,
        nodes: 16,
    };
    let index = Index::new(alloc, limits)?;
    let space = Space::of(alloc, 34, 64, &[])?;
    let next = small_view(alloc, Digest::of([7; 32]))?;
    if space.free() < 2 {
        return Err(Fail::new("too few places"));
    }
    if !is_part(&[97]) {
        return Err(Fail::new("no part of a path"));
    }
    Ok(Plan::of(alloc, 16, &index, &space, &next)?)
}

/// The place of a page to write.
fn place_of(page: &PlanPage) -> u32 {
    match page {
        PlanPage::Data { reference, .. } => reference.place,
        PlanPage::Map { place, .. } => *place,
    }
}

/// The places of the next two pages.
fn next_places(plan: &mut Plan) -> Option<(u32, u32)> {
    let first = plan.next_page()?;
    let second = plan.next_page()?;
    Some((place_of(&first), place_of(&second)))
}

/// The images, where no page is left.
fn images_left(mut plan: Plan) -> Option<Images> {
    match plan.next_page() {
        None => Some(plan.images()),
        Some(_) => None,
    }
}

#[test]
fn plans_a_file_of_one_page(rt: HostRuntime) -> Result<(), Fail> {
    let mut plan = small_plan(rt.alloc())?;
    assert_eq!(rt; plan.steps_due(), 14);
    assert_eq!(rt; plan.take_nodes(rt.alloc()).len(), 2);
    assert_eq!(rt; next_places(&mut plan), Some((34, 35)));
    let Some(images) = images_left(plan) else {
        return Err(Fail::new("a page is left"));
    };
    assert_eq!(rt; images.len(), 1);
    assert!(rt; is_sealed(images.get(0)));
    Ok(())
}
