// The pages of one file: which are to be written, and the references that they have next.
ghost use Rattle.std.specs.Prelude.{◌≡◌, ◌+◌, ◌<◌, ◌≤◌, ◌++◌, length, get_or, IfOk, OnOk};
ghost use Rattle.vb_space.specs.Spaces.{free_count, free_places};
ghost use Rattle.vb_plan.specs.Plans.{data_page};
ghost use Rattle.vb_plan.specs.Sources.{fresh_count, is_fresh, page_written, pages_written, ref_from, refs_from, taken_after};

use crate::PlanPage;
use std::alloc::{AllocError, Global};
use vb_block::Ref;
use vb_inode::{PageSource, Refs};
use vb_space::Space;

/// The free place after so many that are taken.
pub(crate) fn place_after(space: &Space, taken: usize) -> u32
    requires { taken < free_count space.now }
    ensures { result ≡ get_or (free_places space.now) taken 0 }
{
    let free = space.free();
    prove!(taken < free as usize);
    space.peek(taken as u32)
}

// The reference that a page has next. Where it is yet to be written it is added to the pages to write.
fn plan_page(
    space: &Space,
    pages: &mut Vec<PlanPage>,
    slot: u32,
    page: u32,
    source: PageSource,
) -> Result<Ref, AllocError>
    requires { taken_after (length pages.old.items) source ≤ free_count space.now }
    ensures reference { IfOk result (λ r. r ≡ ref_from (free_places space.now) (length pages.old.items) source) }
    ensures written { OnOk result (pages.new.items ≡ pages.old.items
        ++ page_written (data_page slot page) (free_places space.now) (length pages.old.items) source) }
{
    match source {
        PageSource::Kept(reference) => Ok(reference),
        PageSource::Fresh(digest) => {
            let place = place_after(space, pages.len());
            pages.push(PlanPage::Data {
                slot,
                page,
                reference: Ref { place, digest },
            })?;
            Ok(Ref { place, digest })
        }
    }
}

/// The references that a file's pages have next, as many free places being taken as there are pages to
/// write. Its pages that are yet to be written are added to these.
pub(crate) fn plan_data(
    alloc: Global,
    space: &Space,
    pages: &mut Vec<PlanPage>,
    slot: u32,
    sources: &[PageSource],
) -> Result<Refs, AllocError>
    requires room { length pages.old.items + fresh_count sources.now ≤ free_count space.now }
    requires few { length sources.now ≤ 10848 }
    ensures refs { IfOk result (λ refs. refs ≡ refs_from (free_places space.now) (length pages.old.items) sources.now) }
    ensures written { OnOk result (pages.new.items ≡ pages.old.items
        ++ pages_written (data_page slot) (free_places space.now) (length pages.old.items) 0 sources.now) }
    ensures taken { OnOk result (length pages.new.items ≡ length pages.old.items + fresh_count sources.now) }
{
    let mut refs = Refs::new(alloc);
    for (i, source) in sources.iter().enumerate() {
        let reference = plan_page(space, pages, slot, i as u32, *source)?;
        refs.add(reference)?;
    }
    Ok(refs)
}
