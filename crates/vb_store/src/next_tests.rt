// Commits over a view of 64 places and 16 nodes, one after the other.
ghost use Rattle.std.specs.Prelude.{◌≡◌, [], ◌∷◌, IsSome, IfSome, IfOk, OnOk};
ghost use Rattle.std.specs.List.{flat_map, Contains};
ghost use Rattle.vb_head.specs.Heads.{IsInRange};
ghost use Rattle.vb_inode.specs.declared.next_view.PageSource.TheVariants.{Fresh, Kept};
ghost use Rattle.vb_plan.specs.Conditions.{refs_held};
ghost use Rattle.vb_plan.specs.Following.{CanFollow};
ghost use Rattle.vb_plan.specs.Worked.{file_next, folder_next, root_next};
ghost use Rattle.vb_tree.specs.Trees.{data_pages_of};
ghost use Rattle.vb_store.specs.NextViews.{IsHeadAfter};
ghost use Rattle.vb_store.specs.SmallViews.{IsSmallView};
ghost use Rattle.vb_store.specs.Views.{empty_index, limits_of, CanView};

use super::*;
use std::alloc::{AllocError, Global};
use std::test::Fail;
use vb_block::{Digest, FolderId};
use vb_head::{Head, State};
use vb_index::{Bytes, Index, Limits, Node, NodeKind, Ref, Refs};
use vb_inode::{NextNode, NextView, PageSource, Sources};
use vb_path::is_part;

/// The places of the first two pages that a commit writes, how many pages are left then, and how many steps it takes.
type Row = (Option<u32>, Option<u32>, usize, u64);

// A node of the next view, right below the root.
fn next_node(
    alloc: Global,
    slot: u32,
    kind: NodeKind,
    name: &[u8],
    length: u64,
    pages: Sources,
) -> Result<NextNode, AllocError>
    ensures { IfOk result (λ x. x ≡ record {
      node = record { slot = slot; kind = kind; parent = 0; name = name.now; length = length; maps = [] };
      pages = pages;
    }) }
{
    let name = Bytes::of(alloc, name)?;
    Ok(NextNode {
        node: Node {
            slot,
            kind,
            parent: 0,
            name,
            length,
            maps: Refs::new(alloc),
        },
        pages,
    })
}

// A root, and a file of one page in slot 1.
fn one_file(
    alloc: Global,
    name: u8,
    length: u64,
    source: PageSource,
) -> Result<NextView, AllocError>
    ensures { IfOk result (λ next. next ≡ root_next ∷ file_next 1 (name ∷ []) length (source ∷ []) ∷ []) }
{
    let mut next = NextView::new(alloc);
    next.add(next_node(alloc, 0, NodeKind::Folder, &[], 0, Sources::new(alloc))?)?;
    let pages = Sources::of(alloc, &[source])?;
    next.add(next_node(alloc, 1, NodeKind::File, &[name], length, pages)?)?;
    Ok(next)
}

// A root, and a folder in slot 2.
fn one_folder(alloc: Global) -> Result<NextView, AllocError>
    ensures { IfOk result (λ next. next ≡ root_next ∷ folder_next 2 (100 ∷ []) ∷ []) }
{
    let mut next = NextView::new(alloc);
    next.add(next_node(alloc, 0, NodeKind::Folder, &[], 0, Sources::new(alloc))?)?;
    next.add(next_node(alloc, 2, NodeKind::Folder, b"d", 0, Sources::new(alloc))?)?;
    Ok(next)
}

// A root, and two files of a byte, of which the one in slot 2 has the first path.
fn two_files(alloc: Global, first: Digest, second: Digest) -> Result<NextView, AllocError>
    ensures { IfOk result (λ next. next ≡ root_next ∷ file_next 2 (97 ∷ []) 1 (Fresh first ∷ [])
        ∷ file_next 1 (98 ∷ []) 1 (Fresh second ∷ []) ∷ []) }
{
    let mut next = NextView::new(alloc);
    next.add(next_node(alloc, 0, NodeKind::Folder, &[], 0, Sources::new(alloc))?)?;
    let pages = Sources::of(alloc, &[PageSource::Fresh(first)])?;
    next.add(next_node(alloc, 2, NodeKind::File, b"a", 1, pages)?)?;
    let pages = Sources::of(alloc, &[PageSource::Fresh(second)])?;
    next.add(next_node(alloc, 1, NodeKind::File, b"b", 1, pages)?)?;
    Ok(next)
}

// The head that counts out the commit of the next epoch.
fn head_after(head: Head) -> Option<Head>
    requires { IsInRange head }
    ensures { IfSome result (λ after. IsHeadAfter head after) }
{
    if head.sequence > 1000 || head.epoch > 1000 {
        return None;
    }
    Some(Head {
        sequence: head.sequence + 2,
        epoch: head.epoch + 1,
        state: State::Closed,
        ..head
    })
}

// Ends the commit to the next view.
fn finish(view: &mut View) -> Result<(), Fail>
    requires begun { IsSome view.old.next }
    requires blocks { view.old.head.blocks ≡ 64 }
    requires nodes { view.old.head.nodes ≡ 16 }
    ensures { OnOk result (IsSmallView view.new) }
{
    let head = head_after(view.head()).ok_or("a head")?;
    view.commit_done(head);
    Ok(())
}

// The place of a page to write.
fn place_of(page: &PlanPage) -> u32 {
    match page {
        PlanPage::Data { reference, .. } => reference.place,
        PlanPage::Map { place, .. } => *place,
    }
}

// The place of the next page that a plan writes.
fn next_place(plan: &mut CommitPlan) -> Option<u32> {
    let page = plan.next_page()?;
    Some(place_of(&page))
}

// What a plan writes first.
fn row_of(plan: &mut CommitPlan) -> Row {
    let steps = plan.steps_due();
    let first = next_place(plan);
    let second = next_place(plan);
    (first, second, plan.pages_left(), steps)
}

// Commits these nodes.
fn commit(alloc: Global, view: &mut View, next: &NextView) -> Result<Row, Fail>
    requires small { IsSmallView view.old }
    requires can { CanFollow view.old.index next.now }
    ensures { OnOk result (IsSmallView view.new) }
{
    let mut plan = view.plan_commit(alloc, next)?;
    let row = row_of(&mut plan);
    finish(view)?;
    Ok(row)
}

// Commits a file whose page has a digest of this byte.
fn commit_fresh(
    alloc: Global,
    view: &mut View,
    name: u8,
    length: u64,
    byte: u8,
) -> Result<Row, Fail>
    requires small { IsSmallView view.old }
    requires one_page { data_pages_of length ≡ 1 }
    ensures { OnOk result (IsSmallView view.new) }
{
    if !is_part(&[name]) {
        return Err(Fail::from("no name"));
    }
    let source = PageSource::Fresh(Digest::of([byte; 32]));
    let next = one_file(alloc, name, length, source)?;
    commit(alloc, view, &next)
}

// The reference of the page in slot 1.
fn first_page(view: &View) -> Option<Ref>
    ensures { IfSome result (λ r. Contains (flat_map refs_held view.now.index.nodes) r) }
{
    match view.index().refs(1) {
        Some(refs) if refs.len() > 0 => Some(*refs.get(0)),
        _ => None,
    }
}

// Commits a file whose page stays.
fn commit_kept(alloc: Global, view: &mut View, name: u8, length: u64) -> Result<Row, Fail>
    requires small { IsSmallView view.old }
    requires one_page { data_pages_of length ≡ 1 }
    ensures { OnOk result (IsSmallView view.new) }
{
    if !is_part(&[name]) {
        return Err(Fail::from("no name"));
    }
    let reference = first_page(view).ok_or("a page")?;
    let next = one_file(alloc, name, length, PageSource::Kept(reference))?;
    commit(alloc, view, &next)
}

// Commits a folder alone.
fn commit_folder(alloc: Global, view: &mut View) -> Result<Row, Fail>
    requires { IsSmallView view.old }
    ensures { OnOk result (IsSmallView view.new) }
{
    if !is_part(&[100]) {
        return Err(Fail::from("no name"));
    }
    let next = one_folder(alloc)?;
    commit(alloc, view, &next)
}

// Commits two files.
fn commit_two(alloc: Global, view: &mut View) -> Result<Row, Fail>
    requires { IsSmallView view.old }
    ensures { OnOk result (IsSmallView view.new) }
{
    if !is_part(&[97]) || !is_part(&[98]) {
        return Err(Fail::from("no name"));
    }
    let next = two_files(alloc, Digest::of([1; 32]), Digest::of([2; 32]))?;
    commit(alloc, view, &next)
}

// The head of an empty store of 64 places and 16 nodes.
fn wide_head() -> Head
    ensures viewed { CanView result (empty_index result) }
    ensures limits { limits_of result ≡ record { pages = 15; nodes = 16 } }
    ensures blocks { result.blocks ≡ 64 }
    ensures nodes { result.nodes ≡ 16 }
{
    Head {
        id: FolderId::of([7; 16]),
        blocks: 64,
        nodes: 16,
        sequence: 2,
        epoch: 0,
        state: State::Closed,
    }
}

// The view of an empty store.
fn empty_view(alloc: Global) -> Result<View, Fail>
    ensures { IfOk result IsSmallView }
{
    let limits = Limits {
        pages: 15,
        nodes: 16,
    };
    let head = wide_head();
    Ok(View::of(alloc, head, Index::new(alloc, limits)?)?)
}

// A file is made, written, written again and renamed; it is removed and a folder made; and nothing changes.
fn commit_all(alloc: Global, view: &mut View) -> Result<[Row; 6], Fail>
    requires { IsSmallView view.old }
{
    let made = commit_fresh(alloc, view, b'a', 5, 1)?;
    let written = commit_fresh(alloc, view, b'a', 6, 2)?;
    let again = commit_fresh(alloc, view, b'a', 6, 3)?;
    let renamed = commit_kept(alloc, view, b'b', 6)?;
    let removed = commit_folder(alloc, view)?;
    let unchanged = commit_folder(alloc, view)?;
    Ok([made, written, again, renamed, removed, unchanged])
}

#[test]
fn commits_follow_each_other(rt: HostRuntime) -> Result<(), Fail> {
    let mut view = empty_view(rt.alloc())?;
    let rows = commit_all(rt.alloc(), &mut view)?;
    assert_eq!(rt; rows[0], (Some(34), Some(35), 0, 14));
    assert_eq!(rt; rows[1], (Some(36), Some(37), 0, 14));
    assert_eq!(rt; rows[2], (Some(34), Some(35), 0, 14));
    assert_eq!(rt; rows[3], (None, None, 0, 12));
    assert_eq!(rt; rows[4], (None, None, 0, 14));
    assert_eq!(rt; rows[5], (None, None, 0, 10));
    assert!(rt; view.next().is_none());
    assert_eq!(rt; view.index().count(), 2);
    assert_eq!(rt; view.head().epoch, 6);
    Ok(())
}

#[test]
fn two_files_are_committed_at_once(rt: HostRuntime) -> Result<(), Fail> {
    let mut view = empty_view(rt.alloc())?;
    let row = commit_two(rt.alloc(), &mut view)?;
    assert_eq!(rt; row, (Some(34), Some(35), 2, 18));
    assert_eq!(rt; view.index().count(), 3);
    assert_eq!(rt; view.index().pages(), 4);
    Ok(())
}
