// The plain tree: a list of entries in path order, on which each operation is played as its meaning says.
ghost use Rattle.std.specs.Prelude.{◌≡◌, ◌<◌, [], length, IfOk, OnOk, OnErr, slice_get, Some};
ghost use Rattle.vb_tree.specs.Trees.{LimitedTree, AreInLimits, IsTree, IsWithin};
ghost use Rattle.vb_tree.specs.Operations.{HasPaths, IsInRange, reply_of, tree_after};

use crate::play::play;
use crate::{Kind, Limits, Op, Path, Reply, TreeEntry};
use std::alloc::{AllocError, Global};
use std::marker::Model;

/// A tree and its limits. Contracts see both, the tree as the list of its entries in path order.
#[derive(Debug, Drop)]
pub struct Plain {
    limits: Limits,
    entries: Vec<TreeEntry>,
}

impl Model for Plain {
    ghost use Rattle.vb_tree.specs.Trees.{LimitedTree, IsTree, IsWithin};

    ghost Value = { LimitedTree };

    ghost view = { λ a. record { limits = a.limits; tree = a.entries.items } };

    ghost invariant = { λ a. IsWithin a.limits a.entries.items × IsTree a.entries.items };
}

impl Plain {
    /// The empty tree under these limits.
    pub fn new(alloc: Global, limits: Limits) -> Plain
        requires { AreInLimits limits }
        ensures { result ≡ record { limits = limits; tree = [] } }
    {
        Plain {
            limits,
            entries: Vec::new(alloc),
        }
    }

    /// The tree of these entries under these limits.
    pub fn of(limits: Limits, entries: Vec<TreeEntry>) -> Plain
        requires tree_in { IsTree entries.items }
        requires within { IsWithin limits entries.items }
        ensures { result ≡ record { limits = limits; tree = entries.items } }
    {
        Plain { limits, entries }
    }

    /// Plays an operation, and answers its reply. Where the reply isn't Done, the tree stays.
    #[tactic(auto, using(crate::proofs::Allowed::keeps))]
    pub fn perform(&mut self, alloc: Global, op: &Op) -> Result<Reply, AllocError>
        requires { IsInRange op.now }
        ensures reply { IfOk result (λ reply. reply ≡ reply_of self.old.limits self.old.tree op.now) }
        ensures tree { OnOk result (self.new ≡ record self.old { tree = tree_after self.old.limits self.old.tree op.now }) }
        ensures err { OnErr result (self.new ≡ self.old) }
        ensures paths { HasPaths op.now }
    {
        play(self.limits, &mut self.entries, alloc, op)
    }

    /// An equal tree under the same limits.
    pub fn copy(&self, alloc: Global) -> Result<Plain, AllocError>
        ensures { IfOk result (λ copied. copied ≡ self.now) }
    {
        let mut entries = Vec::new(alloc);
        for entry in &self.entries {
            entries.push(entry.copy(alloc)?)?;
        }
        Ok(Plain {
            limits: self.limits,
            entries,
        })
    }

    /// How many entries there are.
    pub fn len(&self) -> usize
        ensures len { result ≡ length self.now.tree }
        ensures few { result < 65536 }
        ensures tree { IsTree self.now.tree }
        ensures within { IsWithin self.now.limits self.now.tree }
    {
        self.entries.len()
    }

    /// The entry at a place in path order, counted from 0: its path, what it is, and its bytes.
    pub fn entry(&self, i: usize) -> (&Path, Kind, &[u8])
        requires { i < length self.now.tree }
        ensures { slice_get self.now.tree i ≡ Some (record { path = result.0.now; kind = result.1; bytes = result.2.now }) }
    {
        let entry = &self.entries[i];
        (&entry.path, entry.kind, entry.bytes.slice())
    }
}
