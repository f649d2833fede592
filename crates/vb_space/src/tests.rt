use crate::space::Space;
use crate::users::Users;
use std::test::Fail;

// Takes a place, where one is free.
fn taken(space: &mut Space) -> Option<u32> {
    if space.free() >= 1 {
        Some(space.take())
    } else {
        None
    }
}

// The place that the take after so many more takes gives, where that many are free.
fn peeked(space: &Space, ahead: u32) -> Option<u32> {
    if ahead < space.free() {
        Some(space.peek(ahead))
    } else {
        None
    }
}

// Keeps a place, where the committed view uses it.
fn keep(space: &mut Space, place: u32) -> bool {
    if space.is_committed(place) {
        space.keep(place);
        true
    } else {
        false
    }
}

// Places 10 to 15, of which the committed view uses 11 and 13.
#[test]
fn takes_keeps_and_commits(rt: HostRuntime) -> Result<(), Fail> {
    let mut space = Space::of(rt.alloc(), 10, 16, &[13, 11])?;
    assert_eq!(rt; space.free(), 4);
    assert_eq!(rt; peeked(&space, 2), Some(14));
    assert_eq!(rt; peeked(&space, 4), None);
    assert_eq!(rt; taken(&mut space), Some(10));
    assert!(rt; keep(&mut space, 11));
    assert_eq!(rt; peeked(&space, 1), Some(14));
    assert_eq!(rt; taken(&mut space), Some(12));
    assert_eq!(rt; taken(&mut space), Some(14));
    assert_eq!(rt; space.free(), 1);

    // Now 10, 11, 12 and 14 are used.
    space.commit_done();
    assert_eq!(rt; space.free(), 2);
    assert_eq!(rt; taken(&mut space), Some(13));
    assert!(rt; keep(&mut space, 14));
    assert!(rt; !keep(&mut space, 13));
    assert_eq!(rt; taken(&mut space), Some(15));
    assert_eq!(rt; taken(&mut space), None);

    // Now 13, 14 and 15 are used.
    space.commit_done();
    assert_eq!(rt; taken(&mut space), Some(10));
    assert_eq!(rt; taken(&mut space), Some(11));
    assert_eq!(rt; taken(&mut space), Some(12));
    assert_eq!(rt; taken(&mut space), None);

    // Now 10, 11 and 12, and then none.
    space.commit_done();
    space.commit_done();
    assert_eq!(rt; space.free(), 6);
    Ok(())
}

#[test]
fn has_no_place(rt: HostRuntime) -> Result<(), Fail> {
    let mut space = Space::of(rt.alloc(), 7, 7, &[])?;
    space.commit_done();
    assert_eq!(rt; space.free(), 0);
    assert!(rt; !space.is_committed(6) && !space.is_committed(7));
    Ok(())
}

#[test]
fn names_the_users(rt: HostRuntime) -> Result<(), Fail> {
    assert!(rt; Users::Neither.is_neither() && !Users::Both.is_neither());
    assert_eq!(rt; Users::Both.settled(), Users::Committed);
    assert_eq!(rt; Users::Committed.settled(), Users::Neither);
    Ok(())
}
