// The next view of a frozen one.
ghost use Rattle.std.specs.Prelude.{◌≡◌, ◌≤◌, length, IfOk};
ghost use Rattle.vb_tree.specs.Trees.{name_of};
ghost use Rattle.vb_index.specs.Indexes.{node_kind};
ghost use Rattle.vb_frozen.specs.Sources.{next_node, next_of, next_root, source_of, sources_from};
ghost use Rattle.vb_pages.specs.Tables.{kept_page};

use crate::{FrozenEntry, Order};
use std::alloc::{AllocError, Global};
use vb_block::{Ref, page_digest};
use vb_inode::{NextNode, NextView, Node, NodeKind, PageSource, Refs, Sources};
use vb_pages::PageTable;
use vb_path::Bytes;
use vb_tree::Kind;

/// The next view: the root, and then the entries in path order.
pub(crate) fn next_of(
    alloc: Global,
    order: &Order,
    pages: &PageTable,
) -> Result<NextView, AllocError>
    ensures { IfOk result (λ next. next ≡ next_of order.now pages.now) }
{
    let mut next = NextView::new(alloc);
    next.add(next_root(alloc))?;
    for entry in order.slice() {
        next.add(next_node(alloc, entry, pages)?)?;
    }
    Ok(next)
}

/// The root.
fn next_root(alloc: Global) -> NextNode
    ensures { result ≡ next_root }
{
    NextNode {
        node: Node {
            slot: 0,
            kind: NodeKind::Folder,
            parent: 0,
            name: Bytes::new(alloc),
            length: 0,
            maps: Refs::new(alloc),
        },
        pages: Sources::new(alloc),
    }
}

/// The node of an entry, and the sources of its pages.
fn next_node(alloc: Global, entry: &FrozenEntry, pages: &PageTable) -> Result<NextNode, AllocError>
    requires { length entry.now.refs ≤ 10848 }
    ensures { IfOk result (λ next. next ≡ next_node pages.now entry.now) }
{
    let node = Node {
        slot: entry.slot,
        kind: node_kind(entry.kind),
        parent: entry.parent,
        name: last_part(alloc, entry.path.slice())?,
        length: entry.len,
        maps: Refs::new(alloc),
    };
    let pages = sources_of(alloc, entry.slot, entry.refs.slice(), pages)?;
    Ok(NextNode { node, pages })
}

/// The last part of a path, and no bytes for the root.
fn last_part(alloc: Global, parts: &[Bytes]) -> Result<Bytes, AllocError>
    ensures { IfOk result (λ name. name ≡ name_of parts.now) }
{
    match parts.last() {
        Some(name) => Bytes::of(alloc, name.slice()),
        None => Ok(Bytes::new(alloc)),
    }
}

/// What an entry's node is.
fn node_kind(kind: Kind) -> NodeKind
    ensures { result ≡ node_kind kind }
{
    match kind {
        Kind::Folder => NodeKind::Folder,
        Kind::File => NodeKind::File,
    }
}

/// Where the pages of a slot come from.
fn sources_of(
    alloc: Global,
    slot: u32,
    refs: &[Ref],
    pages: &PageTable,
) -> Result<Sources, AllocError>
    requires { length refs.now ≤ 10848 }
    ensures { IfOk result (λ sources. sources ≡ sources_from pages.now slot 0 refs.now) }
{
    let mut sources = Sources::new(alloc);
    for page in 0..refs.len() {
        sources.add(source_of(pages, slot, page as u32, refs[page]))?;
    }
    Ok(sources)
}

/// Where a page comes from. A page in memory has its digest taken.
fn source_of(pages: &PageTable, slot: u32, page: u32, reference: Ref) -> PageSource
    ensures { result ≡ source_of (kept_page pages.now slot page) reference }
{
    match pages.get(slot, page) {
        Some(kept) => PageSource::Fresh(page_digest(kept)),
        None => PageSource::Kept(reference),
    }
}
