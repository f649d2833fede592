// The view of a store's committed state.
ghost use Rattle.std.specs.Prelude.{◌≡◌, length, None, IfOk};
ghost use Rattle.vb_store.specs.Views.{CanView, IsSpaceOf};

mod next_view;

use crate::geometry::data_start_of;
use crate::used_places::used_places;
use std::alloc::{AllocError, Global};
use std::marker::Model;
use vb_head::Head;
use vb_index::Index;
use vb_space::Space;

/// The committed state of a store in memory: its head, its nodes with the references of their pages, and which of
/// its data places are used; and beside it the nodes of the next view, while a commit to one goes on. Contracts see
/// these four.
#[derive(Drop)]
pub struct View {
    head: Head,
    index: Index,
    next: Option<Index>,
    space: Space,
}

impl Model for View {
    ghost use Rattle.vb_store.specs.Views.{ViewState, IsView};

    ghost Value = { ViewState };

    ghost view = { λ a. record { head = a.head; index = a.index; next = a.next; space = a.space } };

    ghost invariant = { λ a. IsView (record { head = a.head; index = a.index; next = a.next; space = a.space }) };
}

impl View {
    ghost use Rattle.std.specs.Option.{option_copied};
    ghost use Rattle.vb_store.specs.Views.{IsView};

    /// The view of a store at rest with this head, whose nodes the index has. No next view is begun.
    pub fn of(alloc: Global, head: Head, index: Index) -> Result<View, AllocError>
        requires { CanView head index }
        ensures head { IfOk result (λ view. view.head ≡ head) }
        ensures index { IfOk result (λ view. view.index ≡ index) }

        // The committed view uses exactly the places that the references name, at most half of the data places.
        ensures view { IfOk result (λ view. IsView view) }
        ensures none_begun { IfOk result (λ view. view.next ≡ None) }
    {
        let space = space_of(alloc, &head, &index)?;
        Ok(View::with_space(head, index, space))
    }

    /// The view of a store at rest, whose data places these are.
    pub(crate) fn with_space(head: Head, index: Index, space: Space) -> View
        requires can { CanView head index }
        requires slots { length index.nodes ≡ head.nodes }
        requires space { IsSpaceOf head index space }
        ensures head { result.head ≡ head }
        ensures index { result.index ≡ index }
        ensures space { result.space ≡ space }
        ensures none_begun { result.next ≡ None }
        ensures view { IsView result }
    {
        View {
            head,
            index,
            next: None,
            space,
        }
    }

    /// The committed nodes, with the references of their pages.
    pub fn index(&self) -> &Index
        ensures index { result.now ≡ self.now.index }
        ensures view { IsView self.now }
    {
        &self.index
    }

    /// The nodes of the next view, with the references of their pages, where one is begun.
    pub fn next(&self) -> Option<&Index>
        ensures { option_copied result ≡ self.now.next }
    {
        self.next.as_ref()
    }

    /// The head of the committed state.
    pub fn head(&self) -> Head
        ensures head { result ≡ self.now.head }
        ensures view { IsView self.now }
    {
        self.head
    }
}

/// The data places of a store at rest with this head, whose nodes the index has.
pub(crate) fn space_of(alloc: Global, head: &Head, index: &Index) -> Result<Space, AllocError>
    requires can { CanView head.now index.now }
    requires slots { length index.now.nodes ≡ head.now.nodes }
    ensures { IfOk result (λ space. IsSpaceOf head.now index.now space) }
{
    let used = used_places(alloc, index, head.nodes)?;
    Space::of(alloc, data_start_of(head), head.blocks, &used)
}

/// A disk, and the view of the store that stands on it.
#[derive(Drop)]
pub struct Mounted<D> {
    pub disk: D,
    pub view: View,
}
