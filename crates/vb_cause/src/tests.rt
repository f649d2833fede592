// A list of failures, each call once.
use super::*;
use std::test::Fail;

#[test]
fn the_first_listed_failure_of_a_call_counts(rt: HostRuntime) -> Result<(), Fail> {
    let mut fails = Failures::new(rt.alloc());
    fails.add(0, 'z')?;
    fails.add(2, 'a')?;
    fails.add(2, 'b')?;
    fails.add(3, 'c')?;
    assert_eq!(rt; fails.due(), None);
    fails.pass();
    assert_eq!(rt; fails.due(), Some('a'));
    fails.pass();
    assert_eq!(rt; fails.due(), Some('c'));
    fails.clear();
    assert_eq!(rt; fails.due(), None);
    Ok(())
}
