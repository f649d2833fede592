// What a settled page leaves.
ghost use Rattle.std.specs.Prelude.{◌≡◌, ◌<◌, ℕ, List, Some, length};
ghost use Rattle.vb_block.specs.declared.digest.Ref.{Ref};
ghost use Rattle.vb_disk.specs.States.{DiskState};
ghost use Rattle.vb_tree.specs.declared.tree.TreeEntry.{TreeEntry};
ghost use Rattle.vb_pages.specs.declared.kept.KeptPage.{KeptPage};
ghost use Rattle.vb_pages.specs.declared.kept.PageKey.{PageKey};
ghost use Rattle.vb_pages.specs.Tables.{kept_page, Forgets};
ghost use Rattle.vb_frozen.specs.declared.entry.FrozenEntry.{FrozenEntry};
ghost use Rattle.vb_frozen.specs.Orders.{refs_in, with_reference};
ghost use Rattle.vb_frozen.specs.Views.{HasFrozenTree};

/// A page that is settled leaves the tree, where the disk has it at its new place.
pub fn a_settled_page_stays()
    ensures { (order : List FrozenEntry) (pages left : List (PageKey × KeptPage)) (d : DiskState)
        (tree : List TreeEntry) (slot page : ℕ) (reference : Ref) (bytes : List ℕ)
        → HasFrozenTree order pages d tree → page < length (refs_in order slot)
        → kept_page pages slot page ≡ Some bytes → (d.cells reference.place).first ≡ bytes
        → Forgets pages left slot page
        → HasFrozenTree (with_reference slot page reference order) left d tree }
{}
