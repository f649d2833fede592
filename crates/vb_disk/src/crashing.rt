// The steps of a crash, once nothing is refused any more. They take no memory.
ghost use Rattle.std.specs.Prelude.{◌≡◌, ℕ, None, map, IfOk};
ghost use Rattle.std.specs.List.{All};
ghost use Rattle.vb_block.specs.Pages.{IsPage};
ghost use Rattle.vb_disk.specs.Crashes.{page_of, pick_at, pick_refusal, tear_at, tear_refusal, with_pick, with_tear};
ghost use Rattle.vb_disk.specs.Sparse.{cell_in, cells_of};

use crate::table::Table;
use crate::{Pick, Tear};
use std::alloc::{AllocError, Global};
use vb_block::Page;

/// Copies of the pages of the tears.
pub(crate) fn copies(alloc: Global, torn: &[Tear]) -> Result<Vec<Page>, AllocError>
    ensures copied { IfOk result (λ pages. pages.items ≡ map page_of torn.now) }
    ensures pages { IfOk result (λ pages. All IsPage pages.items) }
{
    let mut pages = Vec::new(alloc);
    for tear in torn {
        pages.push(tear.page.copy(alloc)?)?;
    }
    Ok(pages)
}

/// Makes each place of a tear read as its page. Where a place has several, the first counts, so they are made
/// from the last to the first.
pub(crate) fn tear_all(table: &mut Table, torn: &[Tear], mut pages: Vec<Page>)
    requires pages { pages.items ≡ map page_of torn.now }
    requires allowed { tear_refusal (cells_of table.old.cells) torn.now ≡ None }
    ensures torn { (place : ℕ) → cell_in table.new.cells place ≡ with_tear (tear_at place torn.now) (cell_in table.old.cells place) }
    ensures size { table.new.size ≡ table.old.size }
{
    while let Some(page) = pages.pop() {
        let place = torn[pages.len()].place;
        table.tear(place, page);
    }
}

/// Leaves the picked candidate of each place of a pick alone. Where a place has several, the first counts, and
/// then it has no other candidate left.
pub(crate) fn pick_all(table: &mut Table, picks: &[Pick])
    requires { pick_refusal table.old.size (cells_of table.old.cells) picks.now ≡ None }
    ensures picked { (place : ℕ) → cell_in table.new.cells place ≡ with_pick (pick_at place picks.now) (cell_in table.old.cells place) }
    ensures size { table.new.size ≡ table.old.size }
{
    for pick in picks {
        table.pick(pick.place, pick.index as usize);
    }
}
