// Outside examples: what an index holds after some changes.
ghost use Rattle.std.specs.Prelude.{◌≡◌, [], nat_lt, length, unwrap_or};
ghost use Rattle.vb_index.specs.Nodes.{refs_at};

use super::*;
use crate::change_tests::{Change, LIMITS, refusal_in};
use std::alloc::Global;
use std::test::Fail;

/// Entries that are added, the first in slot 1.
const ENTRIES: [(&[u8], Kind); 4] = [
    (b"/d", Kind::Folder),
    (b"/d/a", Kind::File),
    (b"/a!", Kind::File),
    (b"/d/A", Kind::File),
];

/// An index with these entries.
fn small_index(alloc: Global) -> Result<Index, Fail> {
    let mut index = Index::new(alloc, LIMITS)?;
    for (text, kind) in ENTRIES {
        refusal_in(&mut index, alloc, text, Change::Add(kind));
    }
    Ok(index)
}

/// The slot to which a path leads, None where the path isn't had.
pub(crate) fn slot_at(index: &Index, alloc: Global, text: &[u8]) -> Option<Result<u32, Refusal>> {
    let path = Path::parse(alloc, text).ok()?;
    Some(index.walk(&path))
}

#[test]
fn slots_are_listed_in_order(rt: HostRuntime) -> Result<(), Fail> {
    let alloc = rt.alloc();
    let index = small_index(alloc)?;
    assert_eq!(rt; index.children(alloc, 1), Slots::of(alloc, &[4, 2]));
    assert_eq!(rt;
        index.in_path_order(alloc),
        Slots::of(alloc, &[0, 3, 1, 4, 2])
    );
    Ok(())
}

#[test]
fn a_file_takes_the_place_of_another(rt: HostRuntime) -> Result<(), Fail> {
    let alloc = rt.alloc();
    let mut index = small_index(alloc)?;
    let onto = Change::MoveTo(b"/d/a");
    assert_eq!(rt; refusal_in(&mut index, alloc, b"/a!", onto), None);
    assert_eq!(rt; slot_at(&index, alloc, b"/d/a"), Some(Ok(3)));
    assert_eq!(rt; slot_at(&index, alloc, b"/a!"), Some(Err(Refusal::NoEntry)));
    assert!(rt; index.node(2).is_none());
    assert!(rt; index.refs(1).is_none());
    assert_eq!(rt; index.count(), 4);
    Ok(())
}

/// An index that a node was put into.
fn index_of_node(alloc: Global) -> Result<Index, Fail> {
    let mut index = Index::new(alloc, LIMITS)?;
    let node = Node {
        slot: 7,
        kind: NodeKind::Folder,
        parent: 0,
        name: Bytes::of(alloc, b"a")?,
        length: 0,
        maps: Refs::new(alloc),
    };
    index.put(alloc, node, Refs::new(alloc))?;
    Ok(index)
}

#[test]
fn a_node_is_put_into_its_own_slot(rt: HostRuntime) -> Result<(), Fail> {
    let index = index_of_node(rt.alloc())?;
    assert_eq!(rt; slot_at(&index, rt.alloc(), b"/a"), Some(Ok(7)));
    assert_eq!(rt; index.count(), 2);
    Ok(())
}

/// A reference that no page has from the start.
fn reference() -> Ref {
    Ref {
        place: 34,
        digest: Digest::of([7; 32]),
    }
}

/// Whether a file has a page.
fn has_page(index: &Index, slot: u32, page: u32) -> bool
    ensures { result ≡ nat_lt page (length (unwrap_or (refs_at index.now.nodes slot) [])) }
{
    match index.refs(slot) {
        Some(refs) => (page as usize) < refs.len(),
        None => false,
    }
}

/// A copy of an index in which the file in slot 2 has one page, with a reference of its own.
fn copied_index(alloc: Global) -> Result<Index, Fail> {
    let mut index = small_index(alloc)?;
    refusal_in(&mut index, alloc, b"/d/a", Change::Resize(4096));
    if has_page(&index, 2, 0) {
        index.set_ref(2, 0, reference());
    }
    Ok(index.copy(alloc)?)
}

#[test]
fn a_copy_has_the_references_of_each_page(rt: HostRuntime) -> Result<(), Fail> {
    let copied = copied_index(rt.alloc())?;
    assert_eq!(rt; copied.pages(), 2);
    let refs = copied.refs(2).ok_or("a file")?;
    assert_eq!(rt; refs.slice(), [reference()].as_slice());
    Ok(())
}
