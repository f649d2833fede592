// What is read of a file, by what its pages hold.
ghost use Rattle.std.specs.Prelude.{◌≡◌, ℕ, List, length, map, Ok};
ghost use Rattle.vb_block.specs.declared.digest.Ref.{Ref};
ghost use Rattle.vb_block.specs.Pages.{IsPage};
ghost use Rattle.vb_store.specs.Recovered.{bytes_read};
ghost use Rattle.vb_tree.specs.Contents.{bytes_held};

/// The bytes that are read of a file are those that its pages hold: the way back from bytes to pages. It does nothing.
#[tactic(auto, using(crate::proofs::FileBytes::bytes_held_by_pages))]
pub fn what_is_read_is_what_the_pages_hold()
    ensures { (reads : ℕ → List ℕ) (len : ℕ) (refs : List Ref) (bytes : List ℕ) → ((place : ℕ) → IsPage (reads place))
        → bytes_read reads len refs ≡ Ok bytes → bytes ≡ bytes_held len (map (λ r. reads r.place) refs) }
{}
