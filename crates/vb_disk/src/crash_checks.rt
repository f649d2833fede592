// Which crashes and which damage are refused.
ghost use Rattle.std.specs.Prelude.{◌≡◌, nat_lt, length, unwrap_or, option_copied};
ghost use Rattle.std.specs.Bool.{OnTrue, OnFalse};
ghost use Rattle.vb_disk.specs.Cells.{blank_cell, candidates};
ghost use Rattle.vb_disk.specs.Crashes.{pick_refusal, tear_refusal, AnswersCrash};
ghost use Rattle.vb_disk.specs.Misses.{is_miss, IsAllTaken, IsFirstMiss};
ghost use Rattle.vb_disk.specs.Sparse.{cell_in, cells_of};

use crate::misses::{first_miss, is_miss};
use crate::table::Table;
use crate::{Cell, CrashRefused, Pick, Tear};
use vb_block::Page;

/// Refuses the first pick of a candidate that isn't there.
pub(crate) fn check_picks(table: &Table, picks: &[Pick]) -> Result<(), CrashRefused>
    ensures { AnswersCrash (pick_refusal table.now.size (cells_of table.now.cells) picks.now) result }
{
    for pick in picks {
        if pick.place >= table.size || !has_candidate(table.cell(pick.place), pick.index) {
            return Err(CrashRefused::NoSuchCandidate { place: pick.place });
        }
    }
    Ok(())
}

/// Refuses the first tear of a place that can't be torn so.
pub(crate) fn check_tears(table: &Table, torn: &[Tear]) -> Result<(), CrashRefused>
    ensures { AnswersCrash (tear_refusal (cells_of table.now.cells) torn.now) result }
{
    for tear in torn {
        match table.cell(tear.place) {
            Some(cell) if !cell.later.is_empty() => {
                if !is_miss(cell, &tear.page) {
                    return Err(CrashRefused::NotAMiss { place: tear.place });
                }
            }
            _ => return Err(CrashRefused::NotOpen { place: tear.place }),
        }
    }
    Ok(())
}

/// Whether a page is a miss at a place.
pub(crate) fn is_miss_at(table: &Table, place: u32, page: &Page) -> bool
    ensures { result ≡ is_miss (cell_in table.now.cells place) page.now }
{
    match table.cell(place) {
        Some(cell) => is_miss(cell, page),
        None => is_miss(&Cell::blank(table.alloc), page),
    }
}

/// Makes the page the first miss of equal bytes at a place, and says whether there is one.
pub(crate) fn first_miss_at(table: &Table, place: u32, page: &mut Page) -> bool
    ensures found { OnTrue result (IsFirstMiss (cell_in table.now.cells place) page.new) }
    ensures none { OnFalse result (IsAllTaken (cell_in table.now.cells place)) }
{
    match table.cell(place) {
        Some(cell) => first_miss(cell, page),
        None => first_miss(&Cell::blank(table.alloc), page),
    }
}

// Whether the candidate is there. A place that was never written has one.
fn has_candidate(cell: Option<&Cell>, index: u32) -> bool
    ensures { result ≡ nat_lt index (length (candidates (unwrap_or (option_copied cell.entry) blank_cell))) }
{
    match cell {
        Some(cell) => index as usize <= cell.later.len(),
        None => index == 0,
    }
}
