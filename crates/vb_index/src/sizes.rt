// Files that get another length: whether one may, and what is held of it then.
ghost use Rattle.std.specs.Prelude.{◌≡◌, ◌+◌, ◌++◌, ◌-◌, ◌^◌, ◌<◌, ◌≤◌, true, List, length, take, replicate, slice_set, Some, None, IfOk, IfErr, IsOk, OnOk, OnErr};
ghost use Rattle.std.specs.Option.{option_map, ForSome};
ghost use Rattle.std.specs.Result.{result_err};
ghost use Rattle.vb_tree.specs.declared.reply.Refusal.TheVariants as refusals;
ghost use Rattle.vb_tree.specs.declared.tree.TreeEntry.{TreeEntry};
ghost use Rattle.vb_tree.specs.Trees.{longest_file, data_pages_of, pages_of_length};
ghost use Rattle.vb_tree.specs.Refusals.{refuse_length, refuse_unless_file, refuse_resize};
ghost use Rattle.vb_index.specs.Indexes.{HasShapeOf};
ghost use Rattle.vb_index.specs.declared.held.Held.{Held};
ghost use Rattle.vb_index.specs.Nodes.{is_file_node, held_at, pages_in, refs_at};
ghost use Rattle.vb_index.specs.Changes.{blank_ref, resized, with_ref, IsFileAt};

use crate::table::Table;
use crate::walk::slot_of;
use crate::{Bytes, Digest, Held, Limits, NodeKind, Ref, Refs, Refusal};
use std::alloc::AllocError;
use vb_tree::{LONGEST_FILE, pages_of};

/// The length of the file in a slot.
fn file_length(table: &Table, slot: u32) -> Result<u64, Refusal>
    ensures file { IfOk result (λ len. (held : Held) × (held_at table.now slot ≡ Some held)
        × (is_file_node held.node.kind ≡ true) × (held.node.length ≡ len)) }
    ensures other { IfErr result (λ reason. (reason ≡ refusals.NotAFile)
        × (refs_at table.now slot ≡ None)) }
{
    match table.held(slot) {
        Some(held) if held.node.kind == NodeKind::File => Ok(held.node.length),
        _ => Err(Refusal::NotAFile),
    }
}

/// There is room for a file of another length, where all files take so many pages.
fn check_room(limits: Limits, pages: u64, old: u64, new: u64) -> Result<(), Refusal>
    requires old_in { old ≤ longest_file }
    requires among { pages_of_length old ≤ pages }
    requires few { pages < 2 ^ 32 }
    ensures { refuse_length limits pages (pages - pages_of_length old + pages_of_length new) new
        ≡ result_err result }
{
    if new > LONGEST_FILE {
        return Err(Refusal::TooLong { length: new });
    }
    let after = pages - pages_of(old) + pages_of(new);
    if after > limits.pages && after > pages {
        return Err(Refusal::NoSpace {
            pages: after,
            limit: limits.pages,
        });
    }
    Ok(())
}

/// The slot of the file at a path that may get a length.
pub(crate) fn resizable(
    limits: Limits,
    table: &Table,
    parts: &[Bytes],
    len: u64,
) -> Result<u32, Refusal>
    ensures refused { (tree : List TreeEntry) → HasShapeOf table.now tree
        → refuse_unless_file tree parts.now (refuse_resize limits tree parts.now len)
        ≡ result_err result }
    ensures found { IfOk result (λ slot. IsFileAt table.now parts.now slot) }
    ensures short { OnOk result (len ≤ longest_file) }
    ensures room { IfOk result (λ slot. (held : Held) → held_at table.now slot ≡ Some held → pages_in table.now ≤ limits.pages
        → pages_in (slice_set table.now slot (Some (resized len held))) ≤ limits.pages) }
{
    let slot = slot_of(table, parts)?;
    let pages = table.pages();
    let old = file_length(table, slot)?;
    check_room(limits, pages, old, len)?;
    Ok(slot)
}

/// Cuts references to so many, or adds ones that were never committed. Fewer take no memory.
fn resize_refs(refs: &mut Refs, pages: usize) -> Result<(), AllocError>
    ensures ok { OnOk result (refs.new
        ≡ take pages refs.old ++ replicate (pages - length refs.old) blank_ref) }
    ensures shorter { pages ≤ length refs.old → IsOk result }
    ensures err { OnErr result (refs.new ≡ refs.old) }
{
    if pages <= refs.len() {
        refs.truncate(pages);
        return Ok(());
    }
    let blank = Ref {
        place: 0,
        digest: Digest::of([0; 32]),
    };
    refs.resize(pages, blank)
}

/// Gives a file another length, and one reference for each page.
fn resize_held(held: &mut Held, len: u64) -> Result<(), AllocError>
    requires { len ≤ longest_file }
    ensures ok { OnOk result (held.new ≡ resized len held.old) }
    ensures shorter { data_pages_of len ≤ length held.old.refs → IsOk result }
    ensures err { OnErr result (held.new ≡ held.old) }
{
    resize_refs(&mut held.refs, len.div_ceil(4096) as usize)?;
    held.node.length = len;
    Ok(())
}

/// Gives what a slot holds another length, where it holds a file.
pub(crate) fn resize_slot(slot: &mut Option<Held>, len: u64) -> Result<(), AllocError>
    requires { len ≤ longest_file }
    ensures ok { OnOk result (slot.new ≡ option_map (resized len) slot.old) }
    ensures shorter { (held : Held) → slot.old ≡ Some held
        → data_pages_of len ≤ length held.refs → IsOk result }
    ensures err { OnErr result (slot.new ≡ slot.old) }
{
    match slot {
        Some(held) => resize_held(held, len),
        None => Ok(()),
    }
}

/// Replaces the reference of a page.
fn replace_ref(held: &mut Held, page: usize, reference: Ref)
    requires { page < length held.old.refs }
    ensures { held.new ≡ with_ref page reference held.old }
{
    held.refs.overwrite(page, &[reference]);
}

/// Replaces the reference of a page of what a slot holds.
pub(crate) fn replace_in_slot(slot: &mut Option<Held>, page: usize, reference: Ref)
    requires { ForSome slot.old (λ held. page < length held.refs) }
    ensures { slot.new ≡ option_map (with_ref page reference) slot.old }
{
    if let Some(held) = slot {
        replace_ref(held, page, reference);
    }
}
