// The places of the least store, and how many pages the usual one has room for.
use super::*;
use std::test::Fail;

#[test]
fn a_store_of_38_blocks_has_two_pages(rt: HostRuntime) -> Result<(), Fail> {
    let least = Geometry::new(38, 16);
    assert_eq!(rt; (least.blocks(), least.nodes()), (38, 16));
    assert_eq!(rt; (least.home_place(0), least.home_place(15)), (2, 17));
    assert_eq!(rt; (least.journal_place(0), least.journal_place(15)), (18, 33));
    assert_eq!(rt; (least.data_start(), least.page_limit()), (34, 2));
    assert!(rt; !is_store_size(37, 16) && !is_store_size(38, 15) && !is_store_size(262_145, 16));
    Ok(())
}

#[test]
fn the_usual_store_has_room_for_7167_pages(rt: HostRuntime) -> Result<(), Fail> {
    assert_eq!(rt; Geometry::new(16_384, 1024).page_limit(), 7167);
    Ok(())
}
