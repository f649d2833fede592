// A history that grows, and entries that are copied.
use super::*;
use std::test::Fail;
use vb_tree::Limits;

#[test]
fn entries_are_kept_in_order(rt: HostRuntime) -> Result<(), Fail> {
    let alloc = rt.alloc();
    let limits = Limits {
        pages: 2,
        nodes: 16,
    };
    let mut history = History::new(alloc);
    assert!(rt; history.is_empty());
    history.reserve(2)?;
    assert!(rt; history.spare() == 2);
    history.push(Entry::Freeze { by: 1, epoch: 1 });
    history.push(Entry::Cut { epoch: 1, limits });
    assert!(rt; history.len() == 2);
    assert_eq!(rt; *history.get(0), Entry::Freeze { by: 1, epoch: 1 });
    assert_eq!(rt;
        history.entries()[1].copy(alloc)?,
        Entry::Cut { epoch: 1, limits }
    );
    history.reserve(3)?;
    history.forget_spare(1);
    assert_eq!(rt; history.spare(), 1);
    Ok(())
}

#[test]
fn a_cut_keeps_a_publication(rt: HostRuntime) -> Result<(), Fail> {
    let alloc = rt.alloc();
    let limits = Limits {
        pages: 2,
        nodes: 16,
    };
    let mut history = History::new(alloc);
    history.reserve(4)?;
    history.push(Entry::Freeze { by: 1, epoch: 1 });
    history.push(Entry::Commit { epoch: 1 });
    history.push(Entry::Publish { epoch: 1 });
    history.push(Entry::Cut { epoch: 1, limits });
    let line = surviving_entries(alloc, 0, history.entries())?;
    assert_eq!(rt; line.len(), 3);
    assert_eq!(rt; line[2], Entry::Publish { epoch: 1 });
    let marks = Marks::at_start(limits, 0, 0).after_all(line.as_slice());
    assert_eq!(rt; marks.standing, None);
    assert_eq!(rt; marks.published, 1);
    Ok(())
}
