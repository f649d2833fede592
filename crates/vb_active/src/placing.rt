// How a file gets another length together with new pages, or stays as it is.
ghost use Rattle.std.specs.Prelude.{◌≡◌, ◌+◌, ◌<◌, ◌≤◌, ℕ, List, length, OnOk, OnErr};
ghost use Rattle.vb_tree.specs.Trees.{longest_file, data_pages_of};
ghost use Rattle.vb_active.specs.Files.{IsFileOf};
ghost use Rattle.vb_active.specs.Replacing.{Replaces};

use crate::Active;
use crate::files::{FoundFile, pages_of};
use std::alloc::{AllocError, Global};
use vb_block::Page;

impl Active {
    // Gives a file more pages, the new ones at the end of a run.
    fn grow(
        &mut self,
        alloc: Global,
        file: FoundFile,
        len: u64,
        first: u32,
        run: Vec<Page>,
    ) -> Result<(), AllocError>
        requires file { (path : List (List ℕ)) × IsFileOf self.old.index.nodes path file.slot file.length }
        requires short { len ≤ longest_file }
        requires more { data_pages_of file.length < data_pages_of len }
        requires ends { first + length run.items ≡ data_pages_of len }
        ensures ok { OnOk result (Replaces self.old self.new file.slot len first run.items) }
        ensures err { OnErr result (self.new ≡ self.old) }
    {
        self.index.set_length(file.slot, len)?;
        match self.table.put_run(alloc, file.slot, first, run) {
            Ok(()) => Ok(()),
            Err(error) => {
                let _ = self.index.set_length(file.slot, file.length);
                Err(error)
            }
        }
    }

    // Gives a file as many pages or fewer, and puts a run among them. Only the run takes memory.
    fn shrink(
        &mut self,
        alloc: Global,
        file: FoundFile,
        len: u64,
        first: u32,
        run: Vec<Page>,
    ) -> Result<(), AllocError>
        requires file { (path : List (List ℕ)) × IsFileOf self.old.index.nodes path file.slot file.length }
        requires short { len ≤ longest_file }
        requires fewer { data_pages_of len ≤ data_pages_of file.length }
        requires within { first + length run.items ≤ data_pages_of len }
        ensures ok { OnOk result (Replaces self.old self.new file.slot len first run.items) }
        ensures err { OnErr result (self.new ≡ self.old) }
    {
        self.table.put_run(alloc, file.slot, first, run)?;
        let _ = self.index.set_length(file.slot, len);
        self.table.cut(file.slot, pages_of(len));
        Ok(())
    }

    /// Gives a file another length, and puts a run of pages into the table, all of it or nothing. Where the file gets
    /// more pages, the run ends with its last one.
    pub(crate) fn replace(
        &mut self,
        alloc: Global,
        file: FoundFile,
        len: u64,
        first: u32,
        run: Vec<Page>,
    ) -> Result<(), AllocError>
        requires file { (path : List (List ℕ)) × IsFileOf self.old.index.nodes path file.slot file.length }
        requires short { len ≤ longest_file }
        requires within { first + length run.items ≤ data_pages_of len }
        requires ends { data_pages_of file.length < data_pages_of len → first + length run.items ≡ data_pages_of len }
        ensures ok { OnOk result (Replaces self.old self.new file.slot len first run.items) }
        ensures err { OnErr result (self.new ≡ self.old) }
    {
        if pages_of(file.length) < pages_of(len) {
            return self.grow(alloc, file, len, first, run);
        }
        self.shrink(alloc, file, len, first, run)
    }
}
