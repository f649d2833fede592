// A full index with a deep chain of folders, and a folder with many entries.
ghost use Rattle.std.specs.Prelude.{◌<◌, ◌≤◌};

use super::*;
use crate::change_tests::{Change, refusal_in};
use crate::tests::slot_at;
use std::alloc::Global;
use std::test::Fail;

const LIMITS: Limits = Limits {
    pages: 2,
    nodes: 1000,
};

/// A path of as many parts as there may be.
const DEEPEST: &[u8] = b"/e/e/e/e/e/e/e/e/e/e/e/e/e/e/e/e/e/e/e/e/e/e/e/e/e/e/e/e/e/e/e/e";

/// Adds 31 folders, each in the one before.
fn add_chain(index: &mut Index, alloc: Global) {
    for parts in 1..32 {
        refusal_in(
            index,
            alloc,
            &DEEPEST[..2 * parts],
            Change::Add(Kind::Folder),
        );
    }
}

/// The last two digits of a number.
fn last_digits(number: u32) -> [u8; 2] {
    [b'0' + (number / 10 % 10) as u8, b'0' + (number % 10) as u8]
}

/// Adds 967 files to a folder.
fn fill(index: &mut Index, alloc: Global) {
    for number in 0..967 {
        let hundreds = b'0' + (number / 100) as u8;
        let [tens, ones] = last_digits(number);
        let text = [b'/', b'd', b'/', hundreds, tens, ones];
        refusal_in(index, alloc, &text, Change::Add(Kind::File));
    }
}

/// Changes of an index whose slots are all taken, and their refusals.
const CHANGES: [(&[u8], Change, Option<Refusal>); 4] = [
    (
        b"/x",
        Change::Add(Kind::File),
        Some(Refusal::TooManyNodes {
            nodes: 1001,
            limit: 1000,
        }),
    ),
    (b"/d", Change::MoveTo(DEEPEST), Some(Refusal::DeepTree)),
    (b"/d/000", Change::MoveTo(DEEPEST), None),
    (b"/d", Change::MoveTo(b"/e/d"), None),
];

#[test]
fn a_full_index_moves_a_folder_with_its_entries(rt: HostRuntime) -> Result<(), Fail> {
    let alloc = rt.alloc();
    let mut index = Index::new(alloc, LIMITS)?;
    add_chain(&mut index, alloc);
    refusal_in(&mut index, alloc, b"/d", Change::Add(Kind::Folder));
    fill(&mut index, alloc);
    for (text, change, due) in CHANGES {
        let refused = due.map(IndexError::Refused);
        assert_eq!(rt; refusal_in(&mut index, alloc, text, change), refused);
    }
    assert_eq!(rt; slot_at(&index, alloc, DEEPEST), Some(Ok(33)));
    assert_eq!(rt; slot_at(&index, alloc, b"/e/d/966"), Some(Ok(999)));
    Ok(())
}
