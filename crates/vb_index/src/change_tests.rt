// Changes of an index and of the plain tree, one after the other, with what they answer.
ghost use Rattle.std.specs.Prelude.{◌≡◌, IfOk};
ghost use Rattle.vb_tree.specs.Operations.{IsInRange};

use super::*;
use std::alloc::Global;
use std::test::Fail;
use vb_path::PathError;
use vb_tree::{LONGEST_FILE, Op, Plain, Reply};

pub(crate) const LIMITS: Limits = Limits {
    pages: 2,
    nodes: 16,
};

/// A change of what stands at a path.
#[derive(Clone, Copy)]
pub(crate) enum Change {
    Add(Kind),
    Detach(Kind),
    Resize(u64),
    MoveTo(&'static [u8]),
}

use Change::{Add, Detach, MoveTo, Resize};
use Kind::{File, Folder};

/// Changes, one after the other, with their refusals.
const CHANGES: [(&[u8], Change, Option<Refusal>); 17] = [
    (b"/d", Add(Folder), None),
    (b"/d/a", Add(File), None),
    (b"/", Add(File), Some(Refusal::RootFixed)),
    (b"/e/a", Add(File), Some(Refusal::NoParent)),
    (b"/d/a/b", Add(File), Some(Refusal::ParentNotDir)),
    (b"/d/a", Add(Folder), Some(Refusal::Exists)),
    (b"/d/a", Resize(4096), None),
    (
        b"/d/a",
        Resize(4097),
        Some(Refusal::NoSpace { pages: 3, limit: 2 }),
    ),
    (
        b"/d/a",
        Resize(44433409),
        Some(Refusal::TooLong { length: 44433409 }),
    ),
    (b"/e", Detach(File), Some(Refusal::NoEntry)),
    (b"/d", Detach(File), Some(Refusal::NotAFile)),
    (b"/d/a", Detach(Folder), Some(Refusal::NotADir)),
    (b"/d", Detach(Folder), Some(Refusal::NotEmpty)),
    (b"/d", MoveTo(b"/d/e"), Some(Refusal::IntoItself)),
    (b"/d/a", MoveTo(b"/a"), None),
    (b"/a", Detach(File), None),
    (b"/d", Detach(Folder), None),
];

/// Why an index doesn't make a change, None where it makes it.
pub(crate) fn refusal_in(
    index: &mut Index,
    alloc: Global,
    text: &[u8],
    change: Change,
) -> Option<IndexError> {
    let Ok(path) = Path::parse(alloc, text) else {
        return Some(IndexError::Memory);
    };
    match change {
        Add(kind) => index.add(alloc, &path, kind).err(),
        Detach(kind) => index.detach(&path, kind).err(),
        Resize(len) => index.resize(&path, len).err(),
        MoveTo(target) => match Path::parse(alloc, target) {
            Ok(target) => index.rename(alloc, &path, &target).err(),
            Err(_) => Some(IndexError::Memory),
        },
    }
}

/// The operation that makes a change.
fn operation(alloc: Global, text: &[u8], change: Change) -> Result<Op, PathError>
    ensures { IfOk result IsInRange }
{
    let path = Path::parse(alloc, text)?;
    Ok(match change {
        Add(File) => Op::Create { path },
        Add(Folder) => Op::MakeDir { path },
        Detach(File) => Op::Remove { path },
        Detach(Folder) => Op::RemoveDir { path },
        Resize(len) => Op::Truncate {
            path,
            length: len.min(LONGEST_FILE + 1),
        },
        MoveTo(target) => Op::Rename {
            source: path,
            target: Path::parse(alloc, target)?,
        },
    })
}

/// Why the plain tree doesn't perform an operation, None where it does.
fn refusal_of_operation(plain: &mut Plain, alloc: Global, op: &Op) -> Option<IndexError>
    requires { IsInRange op.now }
{
    match plain.perform(alloc, op) {
        Ok(Reply::Refused(reason)) => Some(IndexError::Refused(reason)),
        Ok(_) => None,
        Err(_) => Some(IndexError::Memory),
    }
}

/// Why the plain tree doesn't make a change, None where it makes it.
fn refusal_of(plain: &mut Plain, alloc: Global, text: &[u8], change: Change) -> Option<IndexError> {
    match operation(alloc, text, change) {
        Ok(op) => refusal_of_operation(plain, alloc, &op),
        Err(_) => Some(IndexError::Memory),
    }
}

#[test]
fn changes_are_refused_as_the_plain_tree_refuses_them(rt: HostRuntime) -> Result<(), Fail> {
    let alloc = rt.alloc();
    let mut index = Index::new(alloc, LIMITS)?;
    let mut plain = Plain::new(alloc, LIMITS);
    for (text, change, due) in CHANGES {
        let refused = due.map(IndexError::Refused);
        assert_eq!(rt; refusal_of(&mut plain, alloc, text, change), refused);
        assert_eq!(rt; refusal_in(&mut index, alloc, text, change), refused);
    }
    assert_eq!(rt; index.count(), 1);
    Ok(())
}
