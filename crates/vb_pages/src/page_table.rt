// The pages that are kept in memory.
ghost use Rattle.std.specs.Prelude.{◌≡◌, ◌+◌, ◌^◌, ◌≤◌, [], ℕ, length, None, OnOk, OnErr, IfOk, IfSome, IfNone, IsSome, option_copied};
ghost use Rattle.vb_pages.specs.Tables.{key_of, kept_at, kept_page, Cuts, Forgets, Puts, PutsRun};

use crate::{KeptPage, PageKey, runs};
use std::alloc::{AllocError, Global};
use std::collections::BTreeMap;
use std::marker::Model;
use vb_block::Page;

/// The pages of a tree's files that are kept in memory, by slot and page. Contracts see its entries in the order of
/// their keys, so that equal entries are equal tables.
#[derive(Drop)]
pub struct PageTable {
    entries: BTreeMap<PageKey, KeptPage>,
}

impl Model for PageTable {
    ghost use Rattle.std.specs.Prelude.{List};
    ghost use Rattle.vb_pages.specs.declared.kept.KeptPage.{KeptPage};
    ghost use Rattle.vb_pages.specs.declared.kept.PageKey.{PageKey};

    ghost Value = { List (PageKey × KeptPage) };

    ghost view = { λ a. a.entries.entries };
}

impl PageTable {
    /// A table with no pages. It takes no memory.
    pub fn new(alloc: Global) -> PageTable
        ensures { result ≡ [] }
    {
        PageTable {
            entries: BTreeMap::new(alloc),
        }
    }

    /// Keeps a page of a slot, in place of the one that was kept there. For want of memory the table stays.
    pub fn put(&mut self, slot: u32, page: u32, value: Page) -> Result<(), AllocError>
        ensures ok { OnOk result (Puts self.old self.new slot page value) }
        ensures err { OnErr result (self.new ≡ self.old) }
    {
        let key = PageKey { slot, page };
        self.entries.insert(key, KeptPage { page: value })?;
        Ok(())
    }

    /// Keeps all pages of a run of a slot, which begins with the first one, in place of those that were kept there. For
    /// want of memory it keeps none of them, and the table stays. The numbers of the pages have to fit their type.
    pub fn put_run(
        &mut self,
        alloc: Global,
        slot: u32,
        first: u32,
        run: Vec<Page>,
    ) -> Result<(), AllocError>
        requires { first + length run.items ≤ 2 ^ 32 }
        ensures ok { OnOk result (PutsRun self.old self.new slot first run.items) }
        ensures err { OnErr result (self.new ≡ self.old) }
    {
        runs::put_run(&mut self.entries, alloc, slot, first, run)
    }

    /// The page of a slot that is kept, and None where there is none.
    pub fn get(&self, slot: u32, page: u32) -> Option<&Page>
        ensures { option_copied result ≡ kept_page self.now slot page }
    {
        match self.entries.get(&PageKey { slot, page }) {
            Some(kept) => Some(&kept.page),
            None => None,
        }
    }

    /// The key of the first page that is kept, and None where none is.
    pub fn first(&self) -> Option<PageKey>
        ensures found { IfSome result (λ key. IsSome (kept_page self.now key.slot key.page)) }
        ensures none { IfNone result (self.now ≡ []) }
    {
        match self.entries.first_key_value() {
            Some((key, _)) => Some(*key),
            None => None,
        }
    }

    /// Forgets all pages of a slot from this one on. It takes no memory.
    pub fn cut(&mut self, slot: u32, first: u32)
        ensures { Cuts self.old self.new slot first }
    {
        while let Some(key) = next_key(&self.entries, slot, first) {
            self.entries.remove(&key);
        }
    }

    /// Forgets one page of a slot. It takes no memory.
    pub fn forget(&mut self, slot: u32, page: u32)
        ensures forgotten { Forgets self.old self.new slot page }
        ensures fewer { IsSome (kept_page self.old slot page) → length self.old ≡ length self.new + 1 }
    {
        self.entries.remove(&PageKey { slot, page });
    }

    /// An equal table.
    pub fn copy(&self, alloc: Global) -> Result<PageTable, AllocError>
        ensures { IfOk result (λ table. table ≡ self.now) }
    {
        let mut entries = BTreeMap::new(alloc);
        for (key, kept) in self.entries.iter() {
            entries.insert(*key, kept.copy(alloc)?)?;
        }
        Ok(PageTable { entries })
    }

    /// Forgets all pages.
    pub fn clear(&mut self)
        ensures { self.new ≡ [] }
    {
        self.entries.clear();
    }
}

// The key of the first page of a slot from this one on.
fn next_key(entries: &BTreeMap<PageKey, KeptPage>, slot: u32, first: u32) -> Option<PageKey>
    ensures found { IfSome result (λ key. (key.slot ≡ slot) × (first ≤ key.page) × IsSome (kept_at entries.now.entries key)) }
    ensures none { IfNone result ((page : ℕ) → first ≤ page → kept_at entries.now.entries (key_of slot page) ≡ None) }
{
    let mut later = entries.range(PageKey { slot, page: first }..);
    match later.next() {
        Some((key, _)) if key.slot == slot => Some(*key),
        _ => None,
    }
}
