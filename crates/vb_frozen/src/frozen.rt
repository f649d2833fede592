// A view as it was when it was frozen.
ghost use Rattle.std.specs.Prelude.{◌≡◌, ◌+◌, ◌<◌, [], List, Some, length, slice_get, is_none, option_copied, IfNone, IfOk, IfSome, IsSome};
ghost use Rattle.vb_cause.specs.Causes.{HasCause, UsesFailures};
ghost use Rattle.vb_block.specs.declared.digest.Ref.{Ref};
ghost use Rattle.vb_disk.specs.States.{DiskState};
ghost use Rattle.vb_steps.specs.Steps.{CallsOnce};
ghost use Rattle.vb_tree.specs.declared.tree.TreeEntry.{TreeEntry};
ghost use Rattle.vb_tree.specs.Trees.{IsTree};
ghost use Rattle.vb_index.specs.Contents.{HasTree};
ghost use Rattle.vb_index.specs.Indexes.{HasShapeOf};
ghost use Rattle.vb_pages.specs.Tables.{kept_page, Forgets};
ghost use Rattle.vb_frozen.specs.Orders.{entry_in, order_of, refs_in, with_reference};
ghost use Rattle.vb_frozen.specs.Sources.{next_of};
ghost use Rattle.vb_frozen.specs.Views.{live_page, page_kept, page_ref, GivesPage, HasFrozenTree, IsOnDisk};

use crate::reading::page_of_entry;
use crate::sources::next_of;
use crate::{FrozenEntry, Order};
use std::alloc::{AllocError, Global};
use vb_block::{Page, Ref};
use vb_disk::Disk;
use vb_index::Index;
use vb_inode::NextView;
use vb_pages::{PageError, PageKey, PageTable};

/// A view as it was when it was frozen: its entries in path order, and the pages that it keeps in memory. Nothing that
/// happens to the live view changes it.
#[derive(Drop)]
pub struct Frozen {
    order: Order,
    pages: PageTable,
}

impl Frozen {
    /// Freezes the view of an index and of the pages that are kept in memory beside it, in one pass over the entries.
    /// It says nothing of an index that has no tree.
    pub fn of(alloc: Global, index: &Index, pages: &PageTable) -> Result<Frozen, AllocError>
        ensures order { (tree : List TreeEntry) → IsTree tree → HasShapeOf index.now.nodes tree
            → IfOk result (λ frozen. frozen.order ≡ order_of index.now.nodes tree) }
        ensures pages { IfOk result (λ frozen. frozen.pages ≡ pages.now) }
        ensures tree { (d : DiskState) (tree : List TreeEntry)
            → HasTree index.now.nodes (live_page index.now.nodes pages.now d) tree
            → IfOk result (λ frozen. HasFrozenTree frozen.order frozen.pages d tree) }
    {
        Ok(Frozen {
            order: Order::of(alloc, index)?,
            pages: pages.copy(alloc)?,
        })
    }

    /// How many entries there are. The root is none.
    pub fn count(&self) -> usize
        ensures { result ≡ length self.now.order }
    {
        self.order.count()
    }

    /// The entry at a place in path order, counted from 0.
    pub fn entry(&self, i: usize) -> &FrozenEntry
        requires { i < length self.now.order }
        ensures { slice_get self.now.order i ≡ Some result.now }
    {
        self.order.entry(i)
    }

    /// The entry of a slot, None where there is none.
    pub fn find(&self, slot: u32) -> Option<&FrozenEntry>
        ensures { option_copied result ≡ entry_in self.now.order slot }
    {
        self.order.find(slot)
    }

    /// A page of the entry at a place in path order: from memory, without a call of the disk, where it is kept there, and
    /// else read from its place, which has to lie below the size that the disk was seen to have.
    pub fn page<D: Disk>(
        &self,
        alloc: Global,
        disk: &mut D,
        i: usize,
        page: u32,
    ) -> Result<Page, PageError>
        requires there { IsSome (page_ref self.now.order i page) }
        requires below { (reference : Ref) → IsOnDisk self.now.order self.now.pages i page reference → reference.place < D.seen disk.old }
        ensures given { GivesPage self.now.order self.now.pages (D.told disk.old) i page result }
        ensures told { D.told disk.new ≡ D.told disk.old }
        ensures seen { D.seen disk.new ≡ D.seen disk.old }
        ensures cause { HasCause PageError.DiskFault (D.faults disk.old) (D.faults disk.new) result }
        ensures left { UsesFailures PageError.DiskFault (D.failures_left disk.old) (D.failures_left disk.new) result }

        // None where it is kept in memory, and else one call, unless memory ran out before it.
        ensures called { CallsOnce PageError.Memory (is_none (page_kept self.now.order self.now.pages i page))
            (D.calls disk.old) (D.calls disk.new) result }
    {
        page_of_entry(alloc, disk, &self.pages, self.order.entry(i), page)
    }

    /// The next view that a commit makes: the root and then the entries in path order, each with the sources of its
    /// pages. It takes a digest of each page that is kept in memory.
    pub fn next_view(&self, alloc: Global) -> Result<NextView, AllocError>
        ensures { IfOk result (λ next. next ≡ next_of self.now.order self.now.pages) }
    {
        next_of(alloc, &self.order, &self.pages)
    }

    /// A page of a slot that is kept in memory, and None where it isn't.
    pub fn dirty_page(&self, slot: u32, page: u32) -> Option<&Page>
        ensures { option_copied result ≡ kept_page self.now.pages slot page }
    {
        self.pages.get(slot, page)
    }

    /// The first page that is kept in memory, and None where none is.
    pub fn first_dirty(&self) -> Option<PageKey>
        ensures found { IfSome result (λ key. IsSome (kept_page self.now.pages key.slot key.page)) }
        ensures none { IfNone result (self.now.pages ≡ []) }
    {
        self.pages.first()
    }

    /// Forgets a page that is kept in memory, and puts this reference in its place. It takes no memory.
    pub fn settle(&mut self, slot: u32, page: u32, reference: Ref)
        requires { page < length (refs_in self.old.order slot) }
        ensures referred { self.new.order ≡ with_reference slot page reference self.old.order }
        ensures forgotten { Forgets self.old.pages self.new.pages slot page }
        ensures fewer { IsSome (kept_page self.old.pages slot page) → length self.old.pages ≡ length self.new.pages + 1 }
    {
        self.order.set_ref(slot, page, reference);
        self.pages.forget(slot, page);
    }
}
