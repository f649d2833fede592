// The places of a disk that hold something else than zeros, as a map from their numbers. A place that isn't
// there is blank.
ghost use Rattle.std.specs.Prelude.{◌≡◌, ◌≤◌, [], ℕ, None, true, false, OnOk, OnErr, nat_eq, nat_lt, is_some, if◌then◌else◌, length};
ghost use Rattle.std.specs.List.{filter, list_any};
ghost use Rattle.std.specs.Ordering.{nat_cmp};
ghost use Rattle.std.specs.BTreeMap.{get};
ghost use Rattle.vb_disk.specs.Cells.{blank_cell, settled_cell, picked_cell, written_cell, hurt_cell, is_settled};
ghost use Rattle.vb_disk.specs.Sparse.{cell_in, IsListed, IsGrown, ChangesOne, KeepsAll};

use crate::{Cell, Side};
use std::alloc::{AllocError, Global};
use std::collections::BTreeMap;
use vb_block::Page;

/// Adds a candidate to a place, and makes it whole. A place with more than one is listed.
pub(crate) fn write(
    cells: &mut BTreeMap<u32, Cell>,
    alloc: Global,
    listed: &mut Vec<u32>,
    place: u32,
    page: Page,
) -> Result<(), AllocError>
    ensures ok { OnOk result (ChangesOne cells.old cells.new place (written_cell (cell_in cells.old place) page)) }
    ensures err { OnErr result (KeepsAll cells.old cells.new) }
    ensures listed { IsListed cells.old listed.old.items → IsListed cells.new listed.new.items }
{
    match cells.get_mut(&place) {
        Some(cell) => write_known(cell, listed, place, page),
        None => write_new(cells, alloc, listed, place, page),
    }
}

/// Leaves the candidate on one side of each listed place alone.
pub(crate) fn settle(
    cells: &mut BTreeMap<u32, Cell>,
    alloc: Global,
    listed: &mut Vec<u32>,
    side: Side,
)
    requires { IsListed cells.old listed.old.items }
    ensures settled { (place : ℕ) → cell_in cells.new place ≡ settled_cell side (cell_in cells.old place) }
    ensures same_keys { (place : ℕ) → is_some (get nat_cmp cells.new place) ≡ is_some (get nat_cmp cells.old place) }
    ensures empty { listed.new.items ≡ [] }
{
    while let Some(place) = listed.pop() {
        settle_one(cells, alloc, place, side);
    }
}

fn settle_one(cells: &mut BTreeMap<u32, Cell>, alloc: Global, place: u32, side: Side)
    ensures changed { ChangesOne cells.old cells.new place (settled_cell side (cell_in cells.old place)) }
    ensures same_key { is_some (get nat_cmp cells.new place) ≡ is_some (get nat_cmp cells.old place) }
{
    if let Some(cell) = cells.get_mut(&place) {
        let index = match side {
            Side::First => 0,
            Side::Last => cell.later.len(),
        };
        cell.keep(alloc, index);
    }
}

/// Leaves one candidate of a place alone, where it has more than one.
pub(crate) fn pick(cells: &mut BTreeMap<u32, Cell>, alloc: Global, place: u32, index: usize)
    requires { is_settled (cell_in cells.old place) ≡ false → index ≤ length (cell_in cells.old place).later }
    ensures changed { ChangesOne cells.old cells.new place (picked_cell index (cell_in cells.old place)) }
    ensures same_key { is_some (get nat_cmp cells.new place) ≡ is_some (get nat_cmp cells.old place) }
{
    if let Some(cell) = cells.get_mut(&place) {
        if !cell.later.is_empty() {
            cell.keep(alloc, index);
        }
    }
}

/// Makes a place read as this page.
pub(crate) fn hurt(
    cells: &mut BTreeMap<u32, Cell>,
    alloc: Global,
    place: u32,
    page: Page,
) -> Result<(), AllocError>
    ensures ok { OnOk result (ChangesOne cells.old cells.new place (hurt_cell (cell_in cells.old place) page)) }
    ensures err { OnErr result (KeepsAll cells.old cells.new) }
{
    match cells.get_mut(&place) {
        Some(cell) => {
            cell.hurt = Some(page);
            Ok(())
        }
        None => hurt_new(cells, alloc, place, page),
    }
}

/// Makes a place that is there read as this page. It takes no memory.
pub(crate) fn tear(cells: &mut BTreeMap<u32, Cell>, place: u32, page: Page)
    requires { is_some (get nat_cmp cells.old place) ≡ true }
    ensures changed { ChangesOne cells.old cells.new place (hurt_cell (cell_in cells.old place) page) }
    ensures same_key { is_some (get nat_cmp cells.new place) ≡ is_some (get nat_cmp cells.old place) }
{
    if let Some(cell) = cells.get_mut(&place) {
        cell.hurt = Some(page);
    }
}

/// Takes away all places from this one on.
pub(crate) fn cut(cells: &mut BTreeMap<u32, Cell>, blocks: u32)
    ensures { (place : ℕ) → get nat_cmp cells.new place ≡ (if nat_lt place blocks then get nat_cmp cells.old place else None) }
{
    cells.retain(|place, _| *place < blocks);
}

/// Takes all places from this one on off the list.
pub(crate) fn unlist(listed: &mut Vec<u32>, blocks: u32)
    ensures { listed.new.items ≡ filter (λ place. nat_lt place blocks) listed.old.items }
{
    listed.retain(|place| *place < blocks);
}

// A candidate more for a place that is there.
fn write_known(
    cell: &mut Cell,
    listed: &mut Vec<u32>,
    place: u32,
    page: Page,
) -> Result<(), AllocError>
    ensures ok { OnOk result (cell.new ≡ written_cell cell.old page) }
    ensures err { OnErr result (cell.new ≡ cell.old) }
    ensures grown { IsGrown listed.old.items listed.new.items }
    ensures listed { is_settled cell.old ≡ true → OnOk result (list_any (nat_eq place) listed.new.items ≡ true) }
{
    if cell.later.is_empty() {
        listed.push(place)?;
    }
    cell.later.add(page)?;
    cell.hurt = None;
    Ok(())
}

// The first write of a place.
fn write_new(
    cells: &mut BTreeMap<u32, Cell>,
    alloc: Global,
    listed: &mut Vec<u32>,
    place: u32,
    page: Page,
) -> Result<(), AllocError>
    requires { get nat_cmp cells.old place ≡ None }
    ensures ok { OnOk result (ChangesOne cells.old cells.new place (written_cell blank_cell page)) }
    ensures err { OnErr result (KeepsAll cells.old cells.new) }
    ensures grown { IsGrown listed.old.items listed.new.items }
    ensures listed { OnOk result (list_any (nat_eq place) listed.new.items ≡ true) }
{
    let mut cell = Cell::blank(alloc);
    cell.later.add(page)?;
    listed.push(place)?;
    cells.insert(place, cell)?;
    Ok(())
}

// Damage of a place that was never written.
fn hurt_new(
    cells: &mut BTreeMap<u32, Cell>,
    alloc: Global,
    place: u32,
    page: Page,
) -> Result<(), AllocError>
    requires { get nat_cmp cells.old place ≡ None }
    ensures ok { OnOk result (ChangesOne cells.old cells.new place (hurt_cell blank_cell page)) }
    ensures err { OnErr result (KeepsAll cells.old cells.new) }
{
    let mut cell = Cell::blank(alloc);
    cell.hurt = Some(page);
    cells.insert(place, cell)?;
    Ok(())
}
