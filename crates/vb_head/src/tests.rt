// Heads: their bytes, written and read.
ghost use Rattle.vb_head.specs.Heads.{IsInRange};

use super::*;
use std::test::Fail;
use vb_block::{FolderId, Page, Why, put_u32, seal};

// The closed head of a store of 38 places and 16 nodes.
fn small_head() -> Head
    ensures { IsInRange result }
{
    Head {
        id: FolderId::of([7; 16]),
        blocks: 38,
        nodes: 16,
        sequence: 2,
        epoch: 0,
        state: State::Closed,
    }
}

// The first 60 bytes of that head: the text `ViewBox1`, version 1, the id, 38, 16, 2, 0, and no state.
const SMALL_HEAD: [u8; 60] = [
    0x56, 0x69, 0x65, 0x77, 0x42, 0x6f, 0x78, 0x31, 1, 0, 0, 0, 7, 7, 7, 7, 7, 7, 7, 7, 7, 7, 7, 7,
    7, 7, 7, 7, 38, 0, 0, 0, 16, 0, 0, 0, 2, 0, 0, 0, 0, 0, 0, 0, 0, 0, 0, 0, 0, 0, 0, 0, 0, 0, 0,
    0, 0, 0, 0, 0,
];

#[test]
fn a_head_is_its_fields_in_order(rt: HostRuntime) -> Result<(), Fail> {
    let page = write_head(rt.alloc(), &small_head())?;
    assert_eq!(rt; page.bytes().len(), 4096);
    let begins = page.bytes().starts_with(SMALL_HEAD.as_slice());
    assert!(rt; begins);
    assert_eq!(rt; read_head(&page), HeadRead::Good(small_head()));
    Ok(())
}

#[test]
fn too_few_places_are_bad(rt: HostRuntime) -> Result<(), Fail> {
    let mut page = write_head(rt.alloc(), &small_head())?;
    put_u32(&mut page, 28, 37);
    seal(&mut page);
    assert_eq!(rt; read_head(&page), HeadRead::Bad(Why::Space));
    Ok(())
}

#[test]
fn other_pages_are_no_heads(rt: HostRuntime) -> Result<(), Fail> {
    let mut page = Page::zero(rt.alloc())?;
    assert_eq!(rt; read_head(&page), HeadRead::Blank);
    page.set(0, &[1]);
    let is_unsealed = matches!(read_head(&page), HeadRead::Unsealed { .. });
    assert!(rt; is_unsealed);
    seal(&mut page);
    assert_eq!(rt; read_head(&page), HeadRead::Alien);
    Ok(())
}
