// One place of a disk.
use crate::Oldest;
use std::alloc::Global;
use std::mem;
use vb_block::Page;
use vb_list::Items;

/// What is known of one place of a disk. A write adds a candidate, a sync leaves the newest alone, and a
/// crash picks one of them.
#[derive(Debug, Drop)]
pub struct Cell {
    /// The oldest candidate.
    pub first: Oldest,
    /// The other candidates, in the order in which they were written.
    pub later: Items<Page>,
    /// What a hurt place reads as.
    pub hurt: Option<Page>,
}

impl Cell {
    ghost use Rattle.std.specs.Prelude.{◌≡◌, ◌≤◌, length};
    ghost use Rattle.vb_disk.specs.Cells.{blank_cell, kept_cell, read_of};

    /// A place that was never written: zeros alone. It takes no memory.
    pub fn blank(alloc: Global) -> Cell
        ensures { result ≡ blank_cell }
    {
        Cell {
            first: Oldest::zeros(),
            later: Items::new(alloc),
            hurt: None,
        }
    }

    /// Makes a page what a read gives.
    pub fn read(&self, into: &mut Page)
        ensures { into.new ≡ read_of self.now }
    {
        if let Some(page) = &self.hurt {
            into.copy_from(page);
            return;
        }
        match self.later.slice().last() {
            Some(page) => into.copy_from(page),
            None => self.first.copy_into(into),
        }
    }

    /// Leaves one candidate alone, counted from the oldest. It takes no memory.
    pub fn keep(&mut self, alloc: Global, index: usize)
        requires { index ≤ length self.old.later }
        ensures { self.new ≡ kept_cell self.old index }
    {
        let mut later = mem::replace(&mut self.later, Items::new(alloc)).into_vec();
        if index > 0 {
            self.first = Oldest::page(later.swap_remove(index - 1));
        }
    }
}
