// Laws of blocks, each the contract of a function that does nothing.
ghost use Rattle.std.specs.Prelude.{◌≡◌, ◌≤◌, ◌^◌, ℕ, List, Ok, length};
ghost use Rattle.vb_block.specs.declared.digest.Ref.{Ref};
ghost use Rattle.vb_inode.specs.declared.node.Node.{Node};
ghost use Rattle.vb_inode.specs.Layout.{map_page, node_page, AreRefs};
ghost use Rattle.vb_inode.specs.Reading.{map_read, node_read, IsNodeOf};

/// What was written is what is read; so no two nodes have one block, and no two lists of as many
/// references one map page. It does nothing.
#[tactic(auto, using(crate::proofs::PagesRead::pages_read))]
pub fn blocks_tell_what_was_written()
    ensures nodes { (nodes : ℕ) (a b : Node) → nodes ≤ 2 ^ 32 → IsNodeOf nodes a → IsNodeOf nodes b
        → node_page a ≡ node_page b → a ≡ b }
    ensures maps { (a b : List Ref) → AreRefs a → AreRefs b → length a ≡ length b
        → map_page a ≡ map_page b → a ≡ b }
    ensures node_read { (nodes : ℕ) (node : Node) → nodes ≤ 2 ^ 32 → IsNodeOf nodes node
        → node_read nodes (node_page node) ≡ Ok node }
    ensures map_read { (refs : List Ref) → AreRefs refs
        → map_read (length refs) (map_page refs) ≡ Ok refs }
{}
