// Laws of the frozen view's pages, each the contract of a function that does nothing.
ghost use Rattle.std.specs.Prelude.{◌≡◌, ◌<◌, ◌≤◌, ℕ, Some, length};
ghost use Rattle.vb_block.specs.declared.digest.Ref.{Ref};
ghost use Rattle.vb_disk.specs.States.{DiskState};
ghost use Rattle.vb_frozen.specs.Orders.{AreApart};
ghost use Rattle.vb_frozen.specs.Views.{HasFrozenTree, IsBacked, IsOnDisk};
ghost use Rattle.vb_local.specs.Phases.{AreTied};
ghost use Rattle.vb_local.specs.Shown.{LocalTrees, ShowsOn};
ghost use Rattle.vb_local.specs.States.{frozen_in, LocalState};
ghost use Rattle.vb_local.specs.Ties.{FrozenState};

/// The frozen view has fewer entries than a store may have nodes, and those of its pages that aren't in memory lie below
/// the store's size. Each disk that shows the folder has the frozen tree, and backs each of these pages, in every phase of
/// the commit. It does nothing.
pub fn frozen_pages_are_on_the_disk()
    ensures few { (s : LocalState) (frozen : FrozenState) → AreTied s → frozen_in s.phase ≡ Some frozen
        → length frozen.order ≤ 65535 }
    ensures below { (s : LocalState) (frozen : FrozenState) (i page : ℕ) (reference : Ref) → AreTied s
        → frozen_in s.phase ≡ Some frozen → AreApart frozen.order → IsOnDisk frozen.order frozen.pages i page reference
        → reference.place < s.view.head.blocks }
    ensures tree { (d : DiskState) (s : LocalState) (t : LocalTrees) (frozen : FrozenState) → ShowsOn d s t
        → frozen_in s.phase ≡ Some frozen → HasFrozenTree frozen.order frozen.pages d t.frozen }
    ensures backed { (d : DiskState) (s : LocalState) (t : LocalTrees) (frozen : FrozenState) (i page : ℕ) → AreTied s
        → ShowsOn d s t → frozen_in s.phase ≡ Some frozen → IsBacked frozen.order frozen.pages d i page }
{}
