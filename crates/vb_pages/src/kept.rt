// The entries of a table of pages.
ghost use Rattle.std.specs.Prelude.{◌≡◌, IfOk};

use std::alloc::{AllocError, Global};
use vb_block::Page;

/// Which page of which slot. Keys are ordered by slot, and by page within a slot.
#[derive(Clone, Copy, Debug, PartialEq, Eq, PartialOrd, Ord)]
pub struct PageKey {
    pub slot: u32,
    pub page: u32,
}

/// A page that is kept in memory.
#[derive(Debug, Drop)]
pub struct KeptPage {
    pub page: Page,
}

impl KeptPage {
    // An equal one.
    pub(crate) fn copy(&self, alloc: Global) -> Result<KeptPage, AllocError>
        ensures { IfOk result (λ kept. kept ≡ self.now) }
    {
        Ok(KeptPage {
            page: self.page.copy(alloc)?,
        })
    }
}
