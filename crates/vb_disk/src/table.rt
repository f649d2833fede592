// The places of a disk in memory, with what a crash asks of them.
ghost use Rattle.std.specs.Prelude.{◌≡◌, ◌<◌, ◌≤◌, ◌==◌, ℕ, List, Some, None, true, false, nat_lt, is_some, length, option_copied, if◌then◌else◌, OnOk, OnErr};
ghost use Rattle.std.specs.Ordering.{nat_cmp};
ghost use Rattle.std.specs.BTreeMap.{get};
ghost use Rattle.vb_disk.specs.Cells.{blank_cell, settled_cell, picked_cell, written_cell, hurt_cell, is_settled};
ghost use Rattle.vb_disk.specs.Misses.{is_miss};
ghost use Rattle.vb_disk.specs.Sparse.{cell_in, ChangesOne, IsTable, KeepsAll};

use crate::{Cell, Side, cells};
use std::alloc::{AllocError, Global};
use std::collections::BTreeMap;
use vb_block::Page;

/// The places of a disk in memory. A place that was never written holds no page.
#[derive(Drop)]
pub(crate) struct Table {
    pub(crate) alloc: Global,
    pub(crate) size: u32,
    pub(crate) cells: BTreeMap<u32, Cell>,
    pub(crate) listed: Vec<u32>,
    ghost sound: { IsTable size cells listed.items },
}

impl Table {
    /// A disk of this many places, all blank.
    pub(crate) fn new(alloc: Global, size: u32) -> Table
        ensures size { result.size ≡ size }
        ensures blank { (place : ℕ) → cell_in result.cells place ≡ blank_cell }
    {
        Table {
            alloc,
            size,
            cells: BTreeMap::new(alloc),
            listed: Vec::new(alloc),
        }
    }

    /// What stands at a place, and None where it was never written.
    pub(crate) fn cell(&self, place: u32) -> Option<&Cell>
        ensures { option_copied result ≡ get nat_cmp self.now.cells place }
    {
        self.cells.get(&place)
    }

    /// Adds a candidate to a place, and makes it whole.
    pub(crate) fn write(&mut self, place: u32, page: Page) -> Result<(), AllocError>
        requires { place < self.old.size }
        ensures ok { OnOk result (ChangesOne self.old.cells self.new.cells place (written_cell (cell_in self.old.cells place) page)) }
        ensures err { OnErr result (KeepsAll self.old.cells self.new.cells) }
        ensures size { self.new.size ≡ self.old.size }
    {
        let _ = page.bytes();
        cells::write(&mut self.cells, self.alloc, &mut self.listed, place, page)
    }

    /// Leaves the candidate on one side of each place alone.
    pub(crate) fn settle(&mut self, side: Side)
        ensures settled { (place : ℕ) → cell_in self.new.cells place ≡ settled_cell side (cell_in self.old.cells place) }
        ensures size { self.new.size ≡ self.old.size }
    {
        cells::settle(&mut self.cells, self.alloc, &mut self.listed, side);
    }

    /// Makes the disk this long. What lies past its end is blank.
    pub(crate) fn resize(&mut self, blocks: u32)
        ensures cut { (place : ℕ) → cell_in self.new.cells place ≡ (if nat_lt place blocks then cell_in self.old.cells place else blank_cell) }
        ensures size { self.new.size ≡ blocks }
    {
        cells::cut(&mut self.cells, blocks);
        cells::unlist(&mut self.listed, blocks);
        self.size = blocks;
    }

    /// Makes a place read as this page. It may have none yet, and then takes memory.
    pub(crate) fn damage(&mut self, place: u32, page: Page) -> Result<(), AllocError>
        requires within { place < self.old.size }
        requires miss { is_miss (cell_in self.old.cells place) page ≡ true }
        ensures ok { OnOk result (ChangesOne self.old.cells self.new.cells place (hurt_cell (cell_in self.old.cells place) page)) }
        ensures err { OnErr result (KeepsAll self.old.cells self.new.cells) }
        ensures size { self.new.size ≡ self.old.size }
    {
        let _ = page.bytes();
        cells::hurt(&mut self.cells, self.alloc, place, page)
    }

    /// Makes a place with two candidates or more read as this page. It takes no memory.
    pub(crate) fn tear(&mut self, place: u32, page: Page)
        requires several { is_settled (cell_in self.old.cells place) ≡ false }
        requires miss { is_miss (cell_in self.old.cells place) page ≡ true }
        ensures changed { ChangesOne self.old.cells self.new.cells place (hurt_cell (cell_in self.old.cells place) page) }
        ensures size { self.new.size ≡ self.old.size }
    {
        let _ = page.bytes();
        cells::tear(&mut self.cells, place, page);
    }

    /// Leaves the candidate at this position alone, where the place has more than one.
    pub(crate) fn pick(&mut self, place: u32, index: usize)
        requires within { place < self.old.size }
        requires there { is_settled (cell_in self.old.cells place) ≡ false → index ≤ length (cell_in self.old.cells place).later }
        ensures changed { ChangesOne self.old.cells self.new.cells place (picked_cell index (cell_in self.old.cells place)) }
        ensures size { self.new.size ≡ self.old.size }
    {
        cells::pick(&mut self.cells, self.alloc, place, index);
    }
}
