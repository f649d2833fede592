// The pages that a commit wrote get their new references, in the frozen and in the live view, and go out of memory.
ghost use Rattle.std.specs.Prelude.{◌≡◌, ◌<◌, ℕ, IsSome, List, Some, length};
ghost use Rattle.vb_active.specs.Views.{ref_at};
ghost use Rattle.vb_local.specs.AtRest.{has_bytes, CanSettle, Settling, SettlesAll, SettlesFrozen, SettlesLive};
ghost use Rattle.vb_local.specs.States.{frozen_state};
ghost use Rattle.vb_local.specs.Ties.{KeepsEntries};
ghost use Rattle.vb_pages.specs.Tables.{kept_page};

use vb_active::Active;
use vb_block::Ref;
use vb_frozen::Frozen;
use vb_index::Index;
use vb_pages::PageKey;

/// Settles each page that the frozen view keeps in memory, with its reference in the index: in the frozen view, and in
/// the live one where it has the same bytes. It takes no memory.
pub(crate) fn settle_views(live: &mut Active, frozen: &mut Frozen, index: &Index)
    requires { CanSettle index.now.nodes live.old (frozen_state frozen.old) }
    ensures { SettlesAll index.now.nodes live.old (frozen_state frozen.old) live.new (frozen_state frozen.new) }
{
    while let Some(key) = frozen.first_dirty() {
        settle_page(live, frozen, index, key);
    }
}

// Settles one page that the frozen view keeps in memory.
fn settle_page(live: &mut Active, frozen: &mut Frozen, index: &Index, key: PageKey)
    requires can { CanSettle index.now.nodes live.old (frozen_state frozen.old) }
    requires kept { IsSome (kept_page frozen.old.pages key.slot key.page) }
    ensures settles { Settling index.now.nodes live.old (frozen_state frozen.old) live.new (frozen_state frozen.new) }
    ensures fewer { length frozen.new.pages < length frozen.old.pages }
{
    settle_live(live, frozen, index, key);
    settle_frozen(frozen, index, key);
}

// Settles the page in the live view, where it has the bytes of the frozen one there.
fn settle_live(live: &mut Active, frozen: &Frozen, index: &Index, key: PageKey)
    requires kept { IsSome (kept_page frozen.now.pages key.slot key.page) }
    requires at { IsSome (ref_at index.now.nodes key.slot key.page) }
    ensures { (bytes : List ℕ) → kept_page frozen.now.pages key.slot key.page ≡ Some bytes
        → SettlesLive index.now.nodes (frozen_state frozen.now) key.slot key.page bytes live.old live.new }
{
    if has_same(live, frozen, key) {
        let _count = live.index().count();
        let _pages = live.pages();
        live.settle(key.slot, key.page, reference_of(index, key));
    }
}

// Whether the live view keeps the page with the bytes of the frozen one.
fn has_same(live: &Active, frozen: &Frozen, key: PageKey) -> bool
    requires { IsSome (kept_page frozen.now.pages key.slot key.page) }
    ensures { (bytes : List ℕ) → kept_page frozen.now.pages key.slot key.page ≡ Some bytes
        → result ≡ has_bytes bytes (kept_page live.now.pages key.slot key.page) }
{
    match (
        live.pages().get(key.slot, key.page),
        frozen.dirty_page(key.slot, key.page),
    ) {
        (Some(kept), Some(page)) => kept.bytes() == page.bytes(),
        _ => false,
    }
}

// Settles the page in the frozen view.
fn settle_frozen(frozen: &mut Frozen, index: &Index, key: PageKey)
    requires kept { IsSome (kept_page frozen.old.pages key.slot key.page) }
    requires entries { KeepsEntries (frozen_state frozen.old) }
    requires at { IsSome (ref_at index.now.nodes key.slot key.page) }
    ensures { SettlesFrozen index.now.nodes key.slot key.page (frozen_state frozen.old) (frozen_state frozen.new) }
{
    frozen.settle(key.slot, key.page, reference_of(index, key));
}

// The reference of a page in an index.
fn reference_of(index: &Index, key: PageKey) -> Ref
    requires { IsSome (ref_at index.now.nodes key.slot key.page) }
    ensures { ref_at index.now.nodes key.slot key.page ≡ Some result }
{
    match index.refs(key.slot) {
        Some(refs) => *refs.get(key.page as usize),
        None => unreachable!(),
    }
}
