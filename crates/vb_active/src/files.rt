// Files by their paths.
ghost use Rattle.std.specs.Prelude.{◌≡◌, ◌≤◌, true, List, Option, Some, None, IfOk, IfErr};
ghost use Rattle.std.specs.Option.{option_or};
ghost use Rattle.std.specs.Result.{result_err};
ghost use Rattle.vb_tree.specs.declared.reply.Refusal.{Refusal};
ghost use Rattle.vb_tree.specs.declared.reply.Refusal.TheVariants as refusals;
ghost use Rattle.vb_tree.specs.declared.tree.TreeEntry.{TreeEntry};
ghost use Rattle.vb_tree.specs.Trees.{data_pages_of, longest_file};
ghost use Rattle.vb_tree.specs.Refusals.{refuse_unless_file};
ghost use Rattle.vb_index.specs.declared.held.Held.{Held};
ghost use Rattle.vb_index.specs.Indexes.{HasShapeOf};
ghost use Rattle.vb_index.specs.Nodes.{held_at, is_file_node, refs_at};
ghost use Rattle.vb_active.specs.Files.{IsFileOf};

use vb_index::{Index, NodeKind, Path, Refusal};

/// A file: its slot, and how long it is.
#[derive(Clone, Copy)]
pub(crate) struct FoundFile {
    pub slot: u32,
    pub length: u64,
}

/// How many pages a file of this length has.
pub(crate) fn pages_of(length: u64) -> u32
    requires { length ≤ longest_file }
    ensures { result ≡ data_pages_of length }
{
    length.div_ceil(4096) as u32
}

// How long the file in a slot is.
fn file_length(index: &Index, slot: u32) -> Result<u64, Refusal>
    ensures file { IfOk result (λ len. (held : Held) × (held_at index.now.nodes slot ≡ Some held)
        × (is_file_node held.node.kind ≡ true) × (held.node.length ≡ len)) }
    ensures other { IfErr result (λ reason. (reason ≡ refusals.NotAFile)
        × (refs_at index.now.nodes slot ≡ None)) }
{
    match index.node(slot) {
        Some(node) if node.kind == NodeKind::File => Ok(node.length),
        _ => Err(Refusal::NotAFile),
    }
}

/// The file at a path.
pub(crate) fn find_file(index: &Index, path: &Path) -> Result<FoundFile, Refusal>
    ensures refused { (tree : List TreeEntry) (next : Option Refusal)
        → HasShapeOf index.now.nodes tree
        → refuse_unless_file tree path.now next ≡ option_or (result_err result) next }
    ensures found { IfOk result (λ file. IsFileOf index.now.nodes path.now file.slot file.length) }
{
    let _ = index.count();
    let slot = index.walk(path)?;
    let length = file_length(index, slot)?;
    Ok(FoundFile { slot, length })
}
