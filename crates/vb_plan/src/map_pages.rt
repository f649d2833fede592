// The map pages of one file: which stay, and which are to be written.
ghost use Rattle.std.specs.Prelude.{◌≡◌, ◌+◌, ◌*◌, ◌<◌, ◌≤◌, ◌++◌, None, length, take, drop, map, IfOk, OnOk};
ghost use Rattle.std.specs.Option.{option_copied};
ghost use Rattle.vb_space.specs.Spaces.{free_count, free_places};
ghost use Rattle.vb_plan.specs.Maps.{group_at, group_count, map_source, map_sources, same_refs, source_of_map, standing_map};
ghost use Rattle.vb_plan.specs.Plans.{map_image, map_of};
ghost use Rattle.vb_plan.specs.Seen.{seen_refs};
ghost use Rattle.vb_plan.specs.Sources.{fresh_count, page_written, pages_written, ref_from, refs_from, taken_after};

use crate::PlanPage;
use crate::pages::place_after;
use std::alloc::{AllocError, Global};
use vb_block::{Ref, page_digest};
use vb_inode::{Refs, encode_map};
use vb_space::Space;

/// The most references that a map page has.
const GROUP: usize = 113;

/// The references of the committed file in a slot: those of its map pages, and those of its pages.
#[derive(Clone, Copy)]
pub(crate) struct OldRefs<'a> {
    pub(crate) maps: &'a [Ref],
    pub(crate) refs: &'a [Ref],
}

// The references before a place and those from it on, the place being the end where it lies past that.
fn split_within(refs: &[Ref], at: usize) -> (&[Ref], &[Ref])
    ensures front { result.0.now ≡ take at refs.now }
    ensures back { result.1.now ≡ drop at refs.now }
{
    refs.split_at(at.min(refs.len()))
}

// The references in a file's map page of this number.
fn group_at(refs: &[Ref], number: usize) -> &[Ref]
    requires { number < 4096 }
    ensures group { result.now ≡ group_at number refs.now }
    ensures few { length result.now ≤ 113 }
{
    let (_, rest) = split_within(refs, GROUP * number);
    let (group, _) = split_within(rest, GROUP);
    group
}

// Whether two lists of references are one.
fn same_refs(a: &[Ref], b: &[Ref]) -> bool
    ensures { result ≡ same_refs a.now b.now }
{
    a == b
}

// The committed map page of this number, where it has just these references.
fn standing_map(old: &OldRefs<'_>, number: usize, group: &[Ref]) -> Option<Ref>
    requires { number < 4096 }
    ensures { result ≡ standing_map (seen_refs old.now) number group.now }
{
    if same_refs(group, group_at(old.refs, number)) {
        old.maps.get(number).copied()
    } else {
        None
    }
}

// Plans a map page with these references, which is added to the pages to write.
fn write_map(
    alloc: Global,
    space: &Space,
    pages: &mut Vec<PlanPage>,
    group: &[Ref],
) -> Result<Ref, AllocError>
    requires some { 1 ≤ length group.now }
    requires few { length group.now ≤ 113 }
    requires room { length pages.old.items + 1 ≤ free_count space.now }
    ensures reference { IfOk result (λ r. r ≡ ref_from (free_places space.now) (length pages.old.items) (source_of_map group.now None)) }
    ensures written { OnOk result (pages.new.items ≡ pages.old.items
        ++ page_written (map_of group.now) (free_places space.now) (length pages.old.items) (source_of_map group.now None)) }
{
    let image = encode_map(alloc, group)?;
    let digest = page_digest(&image);
    let place = place_after(space, pages.len());
    pages.push(PlanPage::Map { place, image })?;
    Ok(Ref { place, digest })
}

// The reference that the map page of this number has next. Where it is yet to be written it is added to the
// pages to write.
fn plan_map(
    alloc: Global,
    space: &Space,
    pages: &mut Vec<PlanPage>,
    old: &OldRefs<'_>,
    refs: &[Ref],
    number: usize,
) -> Result<Ref, AllocError>
    requires number { number < group_count refs.now }
    requires few { length refs.now ≤ 10848 }
    requires room { taken_after (length pages.old.items) (map_source (seen_refs old.now) refs.now number) ≤ free_count space.now }
    ensures reference { IfOk result (λ r. r ≡ ref_from (free_places space.now) (length pages.old.items)
        (map_source (seen_refs old.now) refs.now number)) }
    ensures written { OnOk result (pages.new.items ≡ pages.old.items
        ++ page_written (map_image refs.now number) (free_places space.now) (length pages.old.items)
        (map_source (seen_refs old.now) refs.now number)) }
{
    let group = group_at(refs, number);
    match standing_map(old, number, group) {
        Some(reference) => Ok(reference),
        None => write_map(alloc, space, pages, group),
    }
}

/// The references that a file's map pages have next, where its pages have these, as many free places being
/// taken as there are pages to write. Its map pages that are yet to be written are added to these.
pub(crate) fn plan_maps(
    alloc: Global,
    space: &Space,
    pages: &mut Vec<PlanPage>,
    old: &OldRefs<'_>,
    refs: &[Ref],
) -> Result<Refs, AllocError>
    requires few { length refs.now ≤ 10848 }
    requires room { length pages.old.items + fresh_count (map_sources (seen_refs old.now) refs.now) ≤ free_count space.now }
    ensures maps { IfOk result (λ maps. maps ≡ refs_from (free_places space.now) (length pages.old.items)
        (map_sources (seen_refs old.now) refs.now)) }
    ensures written { OnOk result (pages.new.items ≡ pages.old.items
        ++ pages_written (map_image refs.now) (free_places space.now) (length pages.old.items) 0
        (map_sources (seen_refs old.now) refs.now)) }
    ensures taken { OnOk result (length pages.new.items
        ≡ length pages.old.items + fresh_count (map_sources (seen_refs old.now) refs.now)) }
{
    let mut maps = Refs::new(alloc);
    for number in 0..refs.len().div_ceil(GROUP) {
        let reference = plan_map(alloc, space, pages, old, refs, number)?;
        maps.add(reference)?;
    }
    Ok(maps)
}
