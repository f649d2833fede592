// Makes a disk an empty store.
ghost use Rattle.std.specs.Prelude.{◌≡◌, ◌+◌, ◌∷◌, [], ◌<◌, ◌≤◌, false, min, Some, IsSome, IfOk, OnOk};
ghost use Rattle.vb_cause.specs.Causes.{HasCause, UsesFailures};
ghost use Rattle.vb_cause.specs.Faults.{counted, greatest_count};
ghost use Rattle.vb_disk.specs.States.{DiskState, Write, Sync, read_at};
ghost use Rattle.vb_head.specs.Heads.{IsInRange, head_page, head_read};
ghost use Rattle.vb_journal.specs.declared.commit_stage.Turn.TheVariants.{First};
ghost use Rattle.vb_journal.specs.Calls.{turn_calls};
ghost use Rattle.vb_store.specs.Formats.{format_calls, is_store, store_place, AnswersFormat, CanFormat, LooksAndMakes};
ghost use Rattle.vb_store.specs.OneOf.{empty_view, RecoversOneOf};
ghost use Rattle.vb_store.specs.Runs.{MakesAll};

use crate::FormatError;
use crate::new_homes::write_homes;
use std::alloc::Global;
use vb_block::{FolderId, Page};
use vb_disk::{Disk, DiskError};
use vb_head::{Head, HeadRead, State, read_head, write_head};

/// Makes a disk an empty store for a folder, at epoch 0, with so many places and nodes. It refuses a disk on which
/// a store stands that can be read. After an error of the disk or of memory what was written stands, and the seen
/// size is left open.
pub fn format<D: Disk>(
    alloc: Global,
    disk: &mut D,
    id: FolderId,
    blocks: u32,
    nodes: u32,
) -> Result<(), FormatError>
    requires { CanFormat id blocks nodes }
    ensures answer { (d : DiskState) → D.told disk.old ≡ Some d → AnswersFormat (store_place d) result }
    ensures makes { MakesAll (format_calls id blocks nodes) (D.told disk.old) (D.told disk.new) result }

    // It leaves the view of the empty store alone to be recovered, whatever damage the disk had or gets.
    ensures recovers { (d : DiskState) → D.told disk.new ≡ Some d
        → OnOk result (RecoversOneOf (empty_view id blocks nodes ∷ []) false d) }

    // A store that stands there stays, whatever fails.
    ensures stays { (d : DiskState) → D.told disk.old ≡ Some d → IsSome (store_place d)
        → D.told disk.new ≡ D.told disk.old }
    ensures seen { OnOk result (D.seen disk.new ≡ blocks) }
    ensures cause { HasCause FormatError.DiskFault (D.faults disk.old) (D.faults disk.new) result }
    ensures left { UsesFailures FormatError.DiskFault (D.failures_left disk.old) (D.failures_left disk.new) result }

    // A size, both heads where there are places for them, and its calls.
    ensures called { OnOk result (LooksAndMakes (D.told disk.old) (nodes + 10) (D.calls disk.old) (D.calls disk.new)) }
{
    if let Some(place) = store_place(alloc, disk)? {
        return Err(FormatError::Formatted { place });
    }
    // A name has 16 bytes: so the head that is written reads as itself.
    let _name = id.bytes();
    make_store(alloc, disk, id, blocks, nodes)?;
    Ok(())
}

// Makes the calls of the disk that make it an empty store.
fn make_store<D: Disk>(
    alloc: Global,
    disk: &mut D,
    id: FolderId,
    blocks: u32,
    nodes: u32,
) -> Result<(), DiskError>
    requires { CanFormat id blocks nodes }
    ensures makes { MakesAll (format_calls id blocks nodes) (D.told disk.old) (D.told disk.new) result }
    ensures seen { OnOk result (D.seen disk.new ≡ blocks) }
    ensures cause { HasCause DiskError.Failed (D.faults disk.old) (D.faults disk.new) result }
    ensures left { UsesFailures DiskError.Failed (D.failures_left disk.old) (D.failures_left disk.new) result }
    ensures called { OnOk result (D.calls disk.new ≡ min (D.calls disk.old + (nodes + 10)) greatest_count) }
{
    let making = Head {
        id,
        blocks,
        nodes,
        sequence: 1,
        epoch: 0,
        state: State::Rebuilding,
    };
    let made = Head {
        sequence: 2,
        state: State::Closed,
        ..making
    };
    disk.resize(blocks)?;
    write_heads(alloc, disk, &making)?;
    write_homes(alloc, disk, nodes)?;
    disk.sync()?;
    write_heads(alloc, disk, &made)
}

// Writes the two copies of a head, with a sync after each.
fn write_heads<D: Disk>(alloc: Global, disk: &mut D, head: &Head) -> Result<(), DiskError>
    requires range { IsInRange head.now }
    requires places { 2 ≤ D.seen disk.old }
    ensures makes { MakesAll (turn_calls (head_page head.now) First) (D.told disk.old) (D.told disk.new) result }
    ensures seen { D.seen disk.new ≡ D.seen disk.old }
    ensures cause { HasCause DiskError.Failed (D.faults disk.old) (D.faults disk.new) result }
    ensures left { UsesFailures DiskError.Failed (D.failures_left disk.old) (D.failures_left disk.new) result }
    ensures called { OnOk result (D.calls disk.new ≡ min (D.calls disk.old + 4) greatest_count) }
{
    let page = write_head(alloc, head)?;
    write_synced(disk, 0, &page)?;
    write_synced(disk, 1, &page)
}

// Writes a page, and makes a sync.
fn write_synced<D: Disk>(disk: &mut D, place: u32, page: &Page) -> Result<(), DiskError>
    requires { place < D.seen disk.old }
    ensures makes { MakesAll (Write place page.now ∷ Sync ∷ []) (D.told disk.old) (D.told disk.new) result }
    ensures seen { D.seen disk.new ≡ D.seen disk.old }
    ensures cause { HasCause DiskError.Failed (D.faults disk.old) (D.faults disk.new) result }
    ensures left { UsesFailures DiskError.Failed (D.failures_left disk.old) (D.failures_left disk.new) result }
    ensures called { OnOk result (D.calls disk.new ≡ min (D.calls disk.old + 2) greatest_count) }
{
    disk.write(place, page)?;
    disk.sync()
}

// The place of a head that says that a store stands on the disk. It reads both heads.
fn store_place<D: Disk>(alloc: Global, disk: &mut D) -> Result<Option<u32>, DiskError>
    ensures found { (d : DiskState) → D.told disk.old ≡ Some d → IfOk result (λ found. found ≡ store_place d) }
    ensures told { D.told disk.new ≡ D.told disk.old }
    ensures cause { HasCause DiskError.Failed (D.faults disk.old) (D.faults disk.new) result }
    ensures left { UsesFailures DiskError.Failed (D.failures_left disk.old) (D.failures_left disk.new) result }
    ensures called { OnOk result (LooksAndMakes (D.told disk.old) 0 (D.calls disk.old) (D.calls disk.new)) }
{
    if disk.size()? < 2 {
        return Ok(None);
    }
    let first = is_store_at(alloc, disk, 0)?;
    let second = is_store_at(alloc, disk, 1)?;
    if first {
        Ok(Some(0))
    } else if second {
        Ok(Some(1))
    } else {
        Ok(None)
    }
}

// Whether a place has the head of a store that can be read.
fn is_store_at<D: Disk>(alloc: Global, disk: &mut D, place: u32) -> Result<bool, DiskError>
    requires { place < D.seen disk.old }
    ensures found { (d : DiskState) → D.told disk.old ≡ Some d
        → IfOk result (λ found. found ≡ is_store (head_read (read_at d place))) }
    ensures told { D.told disk.new ≡ D.told disk.old }
    ensures seen { D.seen disk.new ≡ D.seen disk.old }
    ensures cause { HasCause DiskError.Failed (D.faults disk.old) (D.faults disk.new) result }
    ensures left { UsesFailures DiskError.Failed (D.failures_left disk.old) (D.failures_left disk.new) result }
    ensures called { OnOk result (D.calls disk.new ≡ counted (D.calls disk.old)) }
{
    let mut page = Page::zero(alloc)?;
    disk.read(place, &mut page)?;
    Ok(is_store(read_head(&page)))
}

// Whether a page is the head of a store that can be read.
fn is_store(read: HeadRead) -> bool
    ensures { result ≡ is_store read }
{
    match read {
        HeadRead::Good(head) => !matches!(head.state, State::Rebuilding),
        _ => false,
    }
}
