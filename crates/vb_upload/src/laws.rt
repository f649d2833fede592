// Laws of uploads, each the contract of a function that does nothing.
ghost use Rattle.std.specs.Prelude.{◌≡◌, ◌<◌, ℕ, List, Option};
ghost use Rattle.vb_block.specs.declared.digest.Ref.{Ref};
ghost use Rattle.vb_disk.specs.States.{DiskState};
ghost use Rattle.vb_frozen.specs.declared.entry.FrozenEntry.{FrozenEntry};
ghost use Rattle.vb_frozen.specs.Orders.{order_of, with_reference, AreApart};
ghost use Rattle.vb_frozen.specs.Views.{HasFrozenTree};
ghost use Rattle.vb_index.specs.declared.held.Held.{Held};
ghost use Rattle.vb_index.specs.Indexes.{HasShapeOf};
ghost use Rattle.vb_index.specs.Nodes.{IsTable};
ghost use Rattle.vb_pages.specs.declared.kept.KeptPage.{KeptPage};
ghost use Rattle.vb_pages.specs.declared.kept.PageKey.{PageKey};
ghost use Rattle.vb_publish.specs.Plans.{counts_of_tree, plan_length};
ghost use Rattle.vb_tree.specs.Trees.{IsTree};
ghost use Rattle.vb_tree.specs.declared.tree.TreeEntry.{TreeEntry};
ghost use Rattle.vb_upload.specs.declared.cursor.Cursor.{Cursor};
ghost use Rattle.vb_upload.specs.Cursors.{counts_of, sent_at, AllCanBeSent, StandsIn};

/// At each place where an upload may stand fewer messages were sent than its plan has, and a frozen view takes as many
/// messages as the tree that it has. It does nothing.
#[tactic(auto, using(crate::proofs::Within::within))]
pub fn a_message_is_due_at_each_cursor()
    ensures within { (order : List FrozenEntry) (cursor : Cursor) → StandsIn order cursor
        → sent_at (counts_of order) cursor < plan_length (counts_of order) }
    ensures counts { (order : List FrozenEntry) (pages : List (PageKey × KeptPage)) (d : DiskState) (tree : List TreeEntry)
        → HasFrozenTree order pages d tree → counts_of order ≡ counts_of_tree tree }
{}

/// A settled page leaves where an upload stands: each entry can be sent as before and has a slot of its own, each takes as
/// many messages, and a cursor stands where it stood. It does nothing.
#[tactic(auto, using(crate::proofs::Standing::settled))]
pub fn uploads_stand_while_pages_settle()
    ensures sendable { (order : List FrozenEntry) (slot page : ℕ) (reference : Ref)
        → AllCanBeSent order → AllCanBeSent (with_reference slot page reference order) }
    ensures apart { (order : List FrozenEntry) (slot page : ℕ) (reference : Ref)
        → AreApart order → AreApart (with_reference slot page reference order) }
    ensures counts { (order : List FrozenEntry) (slot page : ℕ) (reference : Ref)
        → counts_of (with_reference slot page reference order) ≡ counts_of order }
    ensures stands { (order : List FrozenEntry) (slot page : ℕ) (reference : Ref) (cursor : Cursor)
        → StandsIn order cursor → StandsIn (with_reference slot page reference order) cursor }
{}

/// The order of an index that has a tree is one whose entries can be sent, and no two of which have one slot. It does
/// nothing.
pub fn indexes_can_be_sent()
    ensures sendable { (nodes : List (Option Held)) (tree : List TreeEntry)
        → IsTable nodes → IsTree tree → HasShapeOf nodes tree → AllCanBeSent (order_of nodes tree) }
    ensures apart { (nodes : List (Option Held)) (tree : List TreeEntry)
        → IsTable nodes → IsTree tree → HasShapeOf nodes tree → AreApart (order_of nodes tree) }
{}
