// The plan of a commit.
ghost use Rattle.std.specs.Prelude.{◌≡◌, [], ◌∷◌, length, IfOk, IfSome, IfNone};
ghost use Rattle.vb_plan.specs.Conditions.{CanPlan};
ghost use Rattle.vb_plan.specs.Plans.{plan_of, steps_due};
ghost use Rattle.vb_plan.specs.Seen.{basis_of};

use crate::images::images_of;
use crate::nodes::plan_nodes;
use crate::{HeldNodes, Images, PlanPage};
use std::alloc::{AllocError, Global};
use std::marker::Model;
use vb_index::Index;
use vb_inode::NextView;
use vb_space::Space;

/// What a commit to a next view writes: its pages and where, one after the other, and the images of the journal; and
/// what each slot holds afterwards. Contracts see the pages that are left, these nodes, and the images.
///
/// It names places and takes none of them. Of a page of data it has the reference alone, and its bytes stay where
/// they are.
#[derive(Drop)]
pub struct Plan {
    // the next page is the last one
    pages: Vec<PlanPage>,
    nodes: HeldNodes,
    images: Images,
}

impl Model for Plan {
    ghost use Rattle.vb_plan.specs.Plans.{PlanState};
    ghost use Rattle.vb_plan.specs.Shown.{shown, IsFew};

    ghost Value = { PlanState };

    ghost view = { shown };

    ghost invariant = { IsFew };
}

impl Plan {
    /// The plan of a commit to these nodes, over the committed ones, in a store of so many slots. It takes one pass
    /// over the nodes and the references of both, and one digest for each map page to write and for each image.
    pub fn of(
        alloc: Global,
        slots: u32,
        committed: &Index,
        space: &Space,
        next: &NextView,
    ) -> Result<Plan, AllocError>
        requires slots { length committed.now.nodes ≡ slots }
        requires can { CanPlan (basis_of committed.now space.now) next.now }
        ensures { IfOk result (λ plan. plan ≡ plan_of (basis_of committed.now space.now) next.now) }
    {
        let mut pages = Vec::new(alloc);
        let nodes = plan_nodes(alloc, committed, space, &mut pages, next.slice())?;
        let images = images_of(alloc, committed, slots, nodes.slice())?;
        pages.reverse();
        Ok(Plan {
            pages,
            nodes,
            images,
        })
    }

    /// The next page to write. It takes no memory.
    pub fn next_page(&mut self) -> Option<PlanPage>
        ensures next { IfSome result (λ page. self.old ≡ record self.new { pages = page ∷ self.new.pages }) }
        ensures none { IfNone result ((self.old.pages ≡ []) × (self.new ≡ self.old)) }
    {
        self.pages.pop()
    }

    /// How many pages are left to be written.
    pub fn pages_left(&self) -> usize
        ensures { result ≡ length self.now.pages }
    {
        self.pages.len()
    }

    /// What the slots of the next view hold, in its order. The plan has them no longer. It takes no memory.
    pub fn take_nodes(&mut self, alloc: Global) -> HeldNodes
        ensures taken { result ≡ self.old.nodes }
        ensures left { self.new ≡ record self.old { nodes = [] } }
    {
        std::mem::replace(&mut self.nodes, HeldNodes::new(alloc))
    }

    /// How many steps the commit takes from here: one for each page that is left, two for each image, and ten.
    pub fn steps_due(&self) -> u64
        ensures { result ≡ steps_due self.now }
    {
        self.pages_left() as u64 + 2 * self.images.len() as u64 + 10
    }

    /// The images of the journal, sealed, by slot. No page is left to be written.
    pub fn images(self) -> Images
        requires { self.pages ≡ [] }
        ensures { result ≡ self.images }
    {
        self.images
    }
}
