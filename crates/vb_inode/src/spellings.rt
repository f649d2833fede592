// Laws of pages that read as nodes or references, each the contract of a function that does nothing.
ghost use Rattle.std.specs.Prelude.{◌≡◌, ◌*◌, ◌≤◌, ◌^◌, ℕ, List, Ok, length};
ghost use Rattle.vb_block.specs.declared.digest.Ref.{Ref};
ghost use Rattle.vb_block.specs.Pages.{IsSealed};
ghost use Rattle.vb_inode.specs.declared.node.Node.{Node};
ghost use Rattle.vb_inode.specs.Layout.{map_page, node_page, number4_at, AreRefs};
ghost use Rattle.vb_inode.specs.Reading.{map_read, node_read, IsNodeOf};
ghost use Rattle.vb_inode.specs.Spellings.{IsBytePage};

/// A page that reads as a node is that node's one page, and the node is one of the store. A page that
/// reads as so many references is their one map page.
pub fn a_page_has_one_spelling()
    ensures node { (nodes : ℕ) (page : List ℕ) (node : Node) → IsBytePage page → node_read nodes page ≡ Ok node
        → IsNodeOf nodes node × (page ≡ node_page node) }
    ensures map { (count : ℕ) (page : List ℕ) (refs : List Ref) → 36 * count ≤ 4096 → IsBytePage page
        → map_read count page ≡ Ok refs → (length refs ≡ count) × AreRefs refs × (page ≡ map_page refs) }
{}

/// The page of a node is sealed, and has the node's slot in its first four bytes.
pub fn a_node_page_is_sealed()
    ensures sealed { (nodes : ℕ) (node : Node) → nodes ≤ 2 ^ 32 → IsNodeOf nodes node → IsSealed (node_page node) }
    ensures slot { (nodes : ℕ) (node : Node) → nodes ≤ 2 ^ 32 → IsNodeOf nodes node
        → number4_at 0 (node_page node) ≡ node.slot }
{}
