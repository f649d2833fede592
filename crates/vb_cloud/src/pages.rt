// The pages of a content, each filled up to 4,096 bytes with zeros.
ghost use Rattle.std.specs.Prelude.{◌≡◌, ◌*◌, ◌≤◌, length, take, drop, IfOk};
ghost use Rattle.vb_cloud.specs.Pages.{page_at};

use std::alloc::{AllocError, Global};
use vb_block::Page;

/// How many bytes a page has.
pub(crate) const PAGE: usize = 4096;

/// The page of some bytes with this number, counted from 0.
#[tactic(auto, using(crate::proofs::Digests::filling))]
pub fn page_at(alloc: Global, bytes: &[u8], number: usize) -> Result<Page, AllocError>
    requires { 4096 * number ≤ length bytes.now }
    ensures { IfOk result (λ page. page ≡ page_at number bytes.now) }
{
    let mut page = Page::zero(alloc)?;
    page.set(0, part(bytes, PAGE * number, PAGE));
    Ok(page)
}

/// The bytes from a place on, at most so many.
fn part(bytes: &[u8], start: usize, most: usize) -> &[u8]
    requires { start ≤ length bytes.now }
    ensures part { result.now ≡ take most (drop start bytes.now) }
    ensures most { length result.now ≤ most }
{
    let rest = &bytes[start..];
    &rest[..rest.len().min(most)]
}
