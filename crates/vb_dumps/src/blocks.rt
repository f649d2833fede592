// The blocks that are shown.
ghost use Rattle.std.specs.Prelude.{IfOk};
ghost use Rattle.vb_inode.specs.Nodes.{IsInRange};
ghost use Rattle.vb_path.specs.Parts.{IsPart};

use std::alloc::{AllocError, Global};
use std::io;
use vb_block::{FolderId, Page, Ref, page_digest};
use vb_head::{Head, State, write_head};
use vb_inode::{Node, NodeKind, Refs, encode_map};
use vb_path::{Bytes, is_part};

/// The head of a store of 64 blocks and 16 nodes in the midst of the commit of epoch 2, with two images in its journal.
pub fn opened_head(alloc: Global) -> Result<Page, AllocError> {
    let head = Head {
        id: FolderId::of([1; 16]),
        blocks: 64,
        nodes: 16,
        sequence: 5,
        epoch: 2,
        state: State::Opened { count: 2 },
    };
    write_head(alloc, &head)
}

/// The reference of a page whose bytes are all this one.
fn reference(alloc: Global, place: u32, byte: u8) -> Result<Ref, AllocError> {
    let mut page = Page::zero(alloc)?;
    page.fill(byte);
    Ok(Ref {
        place,
        digest: page_digest(&page),
    })
}

/// The map page of a file of two pages, at places 34 and 35.
pub fn map_page(alloc: Global) -> Result<Page, AllocError> {
    let refs = [reference(alloc, 34, 1)?, reference(alloc, 35, 2)?];
    encode_map(alloc, &refs)
}

/// A name that may be a part of a path.
fn part(alloc: Global, name: &[u8]) -> io::Result<Bytes>
    ensures { IfOk result IsPart }
{
    if !is_part(name) {
        return Err(io::Error::from(io::ErrorKind::InvalidInput));
    }
    Ok(Bytes::of(alloc, name)?)
}

/// Slot 1: the file `/a` of two pages, with its map page at place 36.
#[tactic(auto, unfolding(vb_inode::specs::Nodes::may_be_named))]
pub fn file_node(alloc: Global, map: &Page) -> io::Result<Node>
    ensures { IfOk result IsInRange }
{
    let mut maps = Refs::new(alloc);
    maps.add(Ref {
        place: 36,
        digest: page_digest(map),
    })?;
    Ok(Node {
        slot: 1,
        kind: NodeKind::File,
        parent: 0,
        name: part(alloc, b"a")?,
        length: 8192,
        maps,
    })
}

/// Slot 2: the folder `/d`.
#[tactic(auto, unfolding(vb_inode::specs::Nodes::may_be_named))]
pub fn folder_node(alloc: Global) -> io::Result<Node>
    ensures { IfOk result IsInRange }
{
    Ok(Node {
        slot: 2,
        kind: NodeKind::Folder,
        parent: 0,
        name: part(alloc, b"d")?,
        length: 0,
        maps: Refs::new(alloc),
    })
}
