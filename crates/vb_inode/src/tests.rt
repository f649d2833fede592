// Blocks that were written out by hand, and blocks with one byte changed.
use super::*;
use std::alloc::{AllocError, Global};
use std::test::Fail;
use vb_block::{Digest, Page, Ref, Why, seal};

const NODES: u32 = 16;

/// Slot 5: a file `ab` of 500,000 bytes, and so of two map pages, in the folder at slot 3.
fn file_block(alloc: Global) -> Result<Page, AllocError> {
    let mut page = Page::zero(alloc)?;
    page.set(0, &[5, 0, 0, 0, 2, 0, 0, 0, 3, 0, 0, 0, 2, 0, 0, 0]);
    page.set(16, &[0x20, 0xa1, 7, 0, 0, 0, 0, 0, 2, 0, 0, 0]);
    page.set(32, b"ab");
    page.set(288, &[100, 0, 0, 0]);
    page.set(292, &[7; 32]);
    page.set(324, &[101, 0, 0, 0]);
    page.set(328, &[8; 32]);
    seal(&mut page);
    Ok(page)
}

fn set_byte(page: &mut Page, at: usize, byte: u8) {
    if at < 4096 {
        page.set(at, &[byte]);
    }
}

/// What is wrong with a block, and nothing where it is the one block of the node that it reads as.
fn fault_in(alloc: Global, page: &Page) -> Option<NodeError> {
    match decode_node(alloc, page, NODES) {
        Err(error) => Some(error),
        Ok(node) => match encode_node(alloc, &node) {
            Ok(written) if written.bytes() == page.bytes() => None,
            _ => Some(NodeError::Memory),
        },
    }
}

#[test]
fn a_node_has_what_its_block_says(rt: HostRuntime) -> Result<(), Fail> {
    let page = file_block(rt.alloc())?;
    let node = decode_node(rt.alloc(), &page, NODES).ok().ok_or("a node")?;
    assert_eq!(rt; node.slot, 5);
    assert_eq!(rt; node.kind, NodeKind::File);
    assert_eq!(rt; node.parent, 3);
    assert_eq!(rt; node.name.slice(), b"ab".as_slice());
    assert_eq!(rt; node.length, 500_000);
    let maps = [
        Ref {
            place: 100,
            digest: Digest::of([7; 32]),
        },
        Ref {
            place: 101,
            digest: Digest::of([8; 32]),
        },
    ];
    assert_eq!(rt; node.maps.slice(), maps.as_slice());
    assert_eq!(rt; fault_in(rt.alloc(), &page), None);
    Ok(())
}

/// One byte changed at the ends of each field, and what the block then is.
const CHANGES: [(usize, u8, Option<Why>); 36] = [
    (0, 6, None),
    (0, 0, Some(Why::Name)),
    (3, 1, None),
    (4, 0, Some(Why::Name)),
    (4, 1, Some(Why::Length)),
    (4, 3, Some(Why::Kind)),
    (7, 1, Some(Why::Kind)),
    (8, 15, None),
    (8, 16, Some(Why::Parent)),
    (11, 1, Some(Why::Parent)),
    (12, 0, Some(Why::Name)),
    (12, 1, Some(Why::Rest)),
    (12, 3, Some(Why::Name)),
    (13, 1, Some(Why::Name)),
    (15, 1, Some(Why::Name)),
    (16, 0x21, None),
    (18, 0, Some(Why::Maps)),
    (19, 2, Some(Why::Maps)),
    (19, 3, Some(Why::Length)),
    (23, 1, Some(Why::Length)),
    (24, 1, Some(Why::Maps)),
    (27, 1, Some(Why::Maps)),
    (28, 1, Some(Why::Rest)),
    (31, 1, Some(Why::Rest)),
    (32, b'/', Some(Why::Name)),
    (33, 0, Some(Why::Name)),
    (33, 0xff, Some(Why::Name)),
    (34, 1, Some(Why::Rest)),
    (286, 1, Some(Why::Rest)),
    (287, 1, Some(Why::Rest)),
    (288, 1, None),
    (359, 1, None),
    (360, 1, Some(Why::Rest)),
    (3743, 1, Some(Why::Rest)),
    (3744, 1, Some(Why::Rest)),
    (4063, 1, Some(Why::Rest)),
];

#[test]
fn a_changed_byte_is_refused_by_name(rt: HostRuntime) -> Result<(), Fail> {
    for (at, byte, why) in CHANGES {
        let mut page = file_block(rt.alloc())?;
        set_byte(&mut page, at, byte);
        seal(&mut page);
        assert_eq!(rt; node_fault(&page, NODES), why);
        assert_eq!(rt; fault_in(rt.alloc(), &page), why.map(NodeError::Wrong));
    }
    Ok(())
}

#[test]
fn a_changed_byte_breaks_the_seal(rt: HostRuntime) -> Result<(), Fail> {
    for at in [0, 4063, 4064, 4095] {
        let mut page = file_block(rt.alloc())?;
        set_byte(&mut page, at, 0xaa);
        let fault = fault_in(rt.alloc(), &page);
        assert!(rt; matches!(fault, Some(NodeError::Unsealed { .. })));
    }
    Ok(())
}

/// One byte changed in a free node, and in a root of length 0.
#[test]
fn free_nodes_and_the_root_have_no_name(rt: HostRuntime) -> Result<(), Fail> {
    let rows = [
        (0, 1, None),
        (4, 1, None),
        (8, 1, Some(Why::Rest)),
        (12, 1, Some(Why::Name)),
        (16, 1, Some(Why::Length)),
        (24, 1, Some(Why::Maps)),
        (32, 1, Some(Why::Rest)),
        (288, 1, Some(Why::Rest)),
    ];
    for (at, byte, why) in rows {
        let mut page = Page::zero(rt.alloc())?;
        set_byte(&mut page, at, byte);
        seal(&mut page);
        assert_eq!(rt; fault_in(rt.alloc(), &page), why.map(NodeError::Wrong));
    }
    Ok(())
}

#[test]
fn a_node_may_have_96_map_references(rt: HostRuntime) -> Result<(), Fail> {
    let mut page = file_block(rt.alloc())?;
    page.set(16, &[0, 0x00, 0xa6, 2, 0, 0, 0, 0, 96, 0, 0, 0]);
    page.set(3743, &[9]);
    seal(&mut page);
    assert_eq!(rt; fault_in(rt.alloc(), &page), None);
    let node = decode_node(rt.alloc(), &page, NODES).ok().ok_or("a node")?;
    assert_eq!(rt; node.length, 44_433_408);
    assert_eq!(rt; node.maps.len(), 96);
    Ok(())
}

/// What is wrong with a map page, and nothing where it is the one map page of what it reads as.
fn map_fault_in(alloc: Global, page: &Page, count: u32) -> Option<MapError> {
    if count < 1 || count > 113 {
        return None;
    }
    match decode_map(alloc, page, count) {
        Err(error) => Some(error),
        Ok(refs) => match encode_map(alloc, refs.slice()) {
            Ok(written) if written.bytes() == page.bytes() => None,
            _ => Some(MapError::Memory),
        },
    }
}

#[test]
fn a_map_page_has_1_to_113_references(rt: HostRuntime) -> Result<(), Fail> {
    let rows = [
        (35, 1, None),
        (36, 1, Some(MapError::Wrong(Why::Rest))),
        (36, 2, None),
        (4067, 112, Some(MapError::Wrong(Why::Rest))),
        (4067, 113, None),
        (4068, 113, Some(MapError::Wrong(Why::Rest))),
        (4095, 113, Some(MapError::Wrong(Why::Rest))),
    ];
    for (at, count, fault) in rows {
        let mut page = Page::zero(rt.alloc())?;
        page.set(0, &[3, 1]);
        set_byte(&mut page, at, 9);
        assert_eq!(rt; map_fault_in(rt.alloc(), &page, count), fault);
    }
    let mut page = Page::zero(rt.alloc())?;
    page.set(0, &[3, 1]);
    page.set(4, &[5; 32]);
    let refs = decode_map(rt.alloc(), &page, 1).ok().ok_or("a map page")?;
    let expected = [Ref {
        place: 259,
        digest: Digest::of([5; 32]),
    }];
    assert_eq!(rt; refs.slice(), expected.as_slice());
    Ok(())
}

/// What the block of a node is in a page that held other bytes, and None where the block is none of a node.
fn written_over(alloc: Global, page: &Page, mut old: Page) -> Option<Page> {
    old.fill(0xff);
    match decode_node(alloc, page, NODES) {
        Ok(node) => Some(encode_node_in(old, &node)),
        Err(_) => None,
    }
}

#[test]
fn blocks_are_written_over_what_a_page_held(rt: HostRuntime) -> Result<(), Fail> {
    let page = file_block(rt.alloc())?;
    let written = written_over(rt.alloc(), &page, Page::zero(rt.alloc())?).ok_or("a node")?;
    assert_eq!(rt; written.bytes(), page.bytes());
    let reference = Ref {
        place: 3,
        digest: Digest::of([1; 32]),
    };
    let mut old = Page::zero(rt.alloc())?;
    old.fill(0xff);
    let map = encode_map_in(old, &[reference]);
    let fresh = encode_map(rt.alloc(), &[reference])?;
    assert_eq!(rt; map.bytes(), fresh.bytes());
    Ok(())
}
