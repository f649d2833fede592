// Writes a head to its block.
ghost use Rattle.std.specs.Prelude.{◌≡◌, ◌++◌, IfOk, replicate};
ghost use Rattle.vb_head.specs.Heads.{count_of, fields_from, head_page, number_of, IsInRange};

use crate::reading::{SIGNATURE, VERSION};
use crate::{Head, State};
use std::alloc::{AllocError, Global};
use vb_block::{Page, put_u32, put_u64, seal};

/// The one page of a head.
pub fn write_head(alloc: Global, head: &Head) -> Result<Page, AllocError>
    requires { IsInRange head.now }
    ensures { IfOk result (λ page. page ≡ head_page head.now) }
{
    let mut page = Page::zero(alloc)?;
    page.set(0, &SIGNATURE);
    put_u32(&mut page, 8, VERSION);
    page.set(12, head.id.bytes());
    put_u32(&mut page, 28, head.blocks);
    put_u32(&mut page, 32, head.nodes);
    put_u64(&mut page, 36, head.sequence);
    put_u64(&mut page, 44, head.epoch);
    put_u32(&mut page, 52, state_number(head.state));
    put_u32(&mut page, 56, image_count(head.state));
    seal(&mut page);
    Ok(page)
}

// The number of a state.
fn state_number(state: State) -> u32
    ensures { result ≡ number_of state }
{
    match state {
        State::Closed => 0,
        State::Opened { count: _ } => 1,
        State::Rebuilding => 2,
    }
}

// The count of journal images, 0 unless Opened.
fn image_count(state: State) -> u32
    ensures { result ≡ count_of state }
{
    match state {
        State::Opened { count } => count,
        _ => 0,
    }
}
