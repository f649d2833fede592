// Reads references from the front of some bytes.
ghost use Rattle.std.specs.Prelude.{◌*◌, ◌≤◌, length, IfOk};
ghost use Rattle.vb_inode.specs.Reading.{AreRefsIn};

use crate::Refs;
use crate::bytes::split_ref;
use std::alloc::{AllocError, Global};

/// So many references, from the front of the bytes on.
pub(crate) fn read_refs(alloc: Global, count: u32, bytes: &[u8]) -> Result<Refs, AllocError>
    requires { 36 * count ≤ length bytes.now }
    ensures { IfOk result (λ refs. AreRefsIn count bytes.now refs) }
{
    let mut refs = Refs::new(alloc);
    let mut rest = bytes;
    for _ in 0..count {
        let (reference, after) = split_ref(rest);
        refs.add(reference)?;
        rest = after;
    }
    Ok(refs)
}
