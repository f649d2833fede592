// Runs: pages of a slot that follow each other, which a table keeps all or none of.
ghost use Rattle.std.specs.Prelude.{◌≡◌, ◌+◌, ◌^◌, ◌<◌, ◌≤◌, [], ℕ, Option, Some, OnOk, OnErr, IsSome, length, vec_capacity, unwrap_or, if◌then◌else◌};
ghost use Rattle.std.specs.Ordering.{is_eq};
ghost use Rattle.std.specs.Option.{option_map, option_or};
ghost use Rattle.vb_pages.specs.declared.kept.KeptPage.{KeptPage};
ghost use Rattle.vb_pages.specs.declared.kept.PageKey.{PageKey};
ghost use Rattle.vb_pages.specs.Tables.{key_order, kept_at, kept_of, run_at};

use crate::{KeptPage, PageKey};
use std::alloc::{AllocError, Global};
use std::collections::BTreeMap;
use vb_block::Page;

/// Keeps the pages of a run, in place of those that were kept there. For want of memory it puts back what they took
/// the place of.
pub(crate) fn put_run(
    entries: &mut BTreeMap<PageKey, KeptPage>,
    alloc: Global,
    slot: u32,
    first: u32,
    run: Vec<Page>,
) -> Result<(), AllocError>
    requires { first + length run.items ≤ 2 ^ 32 }
    ensures ok { OnOk result ((q : PageKey) → kept_at entries.new.entries q ≡ option_or (option_map kept_of (run_at slot first run.items q)) (kept_at entries.old.entries q)) }
    ensures err { OnErr result (entries.new.entries ≡ entries.old.entries) }
{
    let _ = entries.len();
    let mut replaced = Vec::with_capacity(alloc, run.len())?;
    match replace_all(entries, slot, first, run, &mut replaced) {
        Ok(()) => Ok(()),
        Err(error) => {
            put_back(entries, slot, first, replaced);
            let _ = entries.len();
            Err(error)
        }
    }
}

// Keeps the pages of a run as far as there is memory, and notes what each took the place of.
fn replace_all(
    entries: &mut BTreeMap<PageKey, KeptPage>,
    slot: u32,
    first: u32,
    run: Vec<Page>,
    replaced: &mut Vec<Option<KeptPage>>,
) -> Result<(), AllocError>
    requires fits { first + length run.items ≤ 2 ^ 32 }
    requires room { length run.items ≤ vec_capacity replaced.old }
    requires none { replaced.old.items ≡ [] }
    ensures ok { OnOk result ((q : PageKey) → kept_at entries.new.entries q ≡ option_or (option_map kept_of (run_at slot first run.items q)) (kept_at entries.old.entries q)) }
    ensures noted { (q : PageKey) → kept_at entries.old.entries q ≡ unwrap_or (run_at slot first replaced.new.items q) (kept_at entries.new.entries q) }
    ensures there { (q : PageKey) → IsSome (run_at slot first replaced.new.items q) → IsSome (kept_at entries.new.entries q) }
    ensures within { first + length replaced.new.items ≤ 2 ^ 32 }
{
    for page in run {
        let key = PageKey {
            slot,
            page: first + replaced.len() as u32,
        };
        let old = entries.insert(key, KeptPage { page })?;
        replaced.push_reserved(old);
    }
    Ok(())
}

// Puts back what a run took the place of, the last page first. A page in the place of another takes no memory.
fn put_back(
    entries: &mut BTreeMap<PageKey, KeptPage>,
    slot: u32,
    first: u32,
    mut replaced: Vec<Option<KeptPage>>,
)
    requires fits { first + length replaced.items ≤ 2 ^ 32 }
    requires there { (q : PageKey) → IsSome (run_at slot first replaced.items q) → IsSome (kept_at entries.old.entries q) }
    ensures { (q : PageKey) → kept_at entries.new.entries q ≡ unwrap_or (run_at slot first replaced.items q) (kept_at entries.old.entries q) }
{
    while let Some(old) = replaced.pop() {
        let page = first + replaced.len() as u32;
        put_back_one(entries, PageKey { slot, page }, old);
    }
}

// Puts back what stood under a key, where something stands now.
fn put_back_one(entries: &mut BTreeMap<PageKey, KeptPage>, key: PageKey, old: Option<KeptPage>)
    requires { IsSome (kept_at entries.old.entries key) }
    ensures { (q : PageKey) → kept_at entries.new.entries q ≡ (if is_eq (key_order key q) then old else kept_at entries.old.entries q) }
{
    match old {
        Some(kept) => {
            let _ = entries.insert(key, kept);
        }
        None => {
            entries.remove(&key);
        }
    }
}
