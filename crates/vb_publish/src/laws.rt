// Laws of plans, each the contract of a function that does nothing.
ghost use Rattle.std.specs.Prelude.{◌≡◌, ◌+◌, ◌*◌, ◌++◌, ◌<◌, ◌≤◌, ℕ, List, [], ◌∷◌, length, take, slice_get, Ok, Some, IsOk, IsSome};
ghost use Rattle.vb_tree.specs.Trees.{data_pages_of};
ghost use Rattle.vb_tree.specs.declared.tree.TreeEntry.{TreeEntry};
ghost use Rattle.vb_msg.specs.declared.message.Msg.{Msg};
ghost use Rattle.vb_cloud.specs.Machine.{CloudState, cloud_step};
ghost use Rattle.vb_publish.specs.Clouds.{cloud_through, drafting, growing, sealed, showing, HasTaken, MayUpload};
ghost use Rattle.vb_publish.specs.Messages.{epoch_named};
ghost use Rattle.vb_publish.specs.Plans.{counts_of_tree, plan_length, total_of, upload_plan};
ghost use Rattle.vb_publish.specs.Worked.{empty_plan, entry_with, file_plan, folder_plan};

use vb_tree::Kind;

/// A plan has two messages, one for each folder, and three and its pages for each file; at each place below that number
/// there is one. It does nothing.
#[tactic(auto, using(crate::proofs::Lengths::lengths))]
pub fn plans_have_lengths()
    ensures length { (epoch : ℕ) (tree published : List TreeEntry) → length (upload_plan epoch tree published) ≡ plan_length (counts_of_tree tree) }
    ensures there { (epoch place : ℕ) (tree published : List TreeEntry) → place < plan_length (counts_of_tree tree)
        → IsSome (slice_get (upload_plan epoch tree published) place) }
{}

/// A cloud that shows an earlier epoch takes each message of a plan, and shows the tree at the end. Behind the messages of
/// the first entries, its draft has these. It does nothing.
#[tactic(auto, using(crate::proofs::Taken::taken))]
pub fn plans_are_taken()
    ensures shown { (k : CloudState) (epoch : ℕ) (tree published : List TreeEntry) → MayUpload k epoch tree
        → cloud_through k (upload_plan epoch tree published) ≡ Ok (showing k epoch tree) }
    ensures drafted { (k : CloudState) (epoch : ℕ) (tree published : List TreeEntry) (i : ℕ) → MayUpload k epoch tree → i ≤ length tree
        → cloud_through k (take (1 + total_of (take i (counts_of_tree tree))) (upload_plan epoch tree published))
        ≡ Ok (drafting k epoch (take i tree)) }
    ensures next { (k now : CloudState) (epoch place : ℕ) (tree published : List TreeEntry) (m : Msg) → MayUpload k epoch tree
        → cloud_through k (take place (upload_plan epoch tree published)) ≡ Ok now
        → slice_get (upload_plan epoch tree published) place ≡ Some m
        → (cloud_step now m ≡ cloud_through k (take (place + 1) (upload_plan epoch tree published))) × IsOk (cloud_step now m) }
{}

/// Within the messages of a file, the draft has the entries before it, and an object of the bytes of the pages that were
/// sent, which is whole once it is sealed. It does nothing.
#[tactic(auto, using(crate::proofs::Growing::drafts))]
pub fn contents_grow_by_pages()
    ensures grows { (k : CloudState) (epoch pages : ℕ) (published front : List TreeEntry) (path : List (List ℕ)) (bytes : List ℕ)
        (back : List TreeEntry) → MayUpload k epoch (front ++ entry_with path Kind.File bytes ∷ back) → pages ≤ data_pages_of (length bytes)
        → cloud_through k (take (2 + total_of (counts_of_tree front) + pages)
        (upload_plan epoch (front ++ entry_with path Kind.File bytes ∷ back) published)) ≡ Ok (growing k epoch front (take (4096 * pages) bytes)) }
    ensures whole { (k : CloudState) (epoch : ℕ) (published front : List TreeEntry) (path : List (List ℕ)) (bytes : List ℕ)
        (back : List TreeEntry) → MayUpload k epoch (front ++ entry_with path Kind.File bytes ∷ back)
        → cloud_through k (take (3 + total_of (counts_of_tree front) + data_pages_of (length bytes))
        (upload_plan epoch (front ++ entry_with path Kind.File bytes ∷ back) published)) ≡ Ok (sealed k epoch front bytes) }
{}

/// Begin leaves the empty draft, whatever draft there was. As long as not all of a plan was taken, the cloud shows what it
/// showed; the last message shows the tree. It does nothing.
#[tactic(auto, using(crate::proofs::Shown::shown))]
pub fn plans_show_nothing_before_their_end()
    ensures begun { (k : CloudState) (epoch : ℕ) (tree : List TreeEntry) → MayUpload k epoch tree
        → cloud_step k (Msg.Begin (epoch_named epoch)) ≡ Ok (drafting k epoch []) }
    ensures meanwhile { (k now : CloudState) (epoch place : ℕ) (tree published : List TreeEntry) → place < plan_length (counts_of_tree tree)
        → cloud_through k (take place (upload_plan epoch tree published)) ≡ Ok now
        → (now.id ≡ k.id) × (now.epoch ≡ k.epoch) × (now.tree ≡ k.tree) }
    ensures last { (k now : CloudState) (epoch place : ℕ) (tree published : List TreeEntry) (m : Msg) → MayUpload k epoch tree
        → cloud_through k (take place (upload_plan epoch tree published)) ≡ Ok now
        → slice_get (upload_plan epoch tree published) place ≡ Some m → place + 1 ≡ plan_length (counts_of_tree tree)
        → cloud_step now m ≡ Ok (showing k epoch tree) }
{}

/// A cloud that has taken the first messages of a plan takes the next one: it has then taken one more and shows what it
/// showed, or it shows the tree where that was the last. It does nothing.
pub fn clouds_take_plans_message_by_message()
    ensures taken { (k : CloudState) (epoch n : ℕ) (tree : List TreeEntry) (m : Msg) → MayUpload k epoch tree → HasTaken n epoch tree k
        → slice_get (upload_plan epoch tree k.tree) n ≡ Some m → IsOk (cloud_step k m) }
    ensures goes_on { (k after : CloudState) (epoch n : ℕ) (tree : List TreeEntry) (m : Msg) → MayUpload k epoch tree
        → HasTaken n epoch tree k → slice_get (upload_plan epoch tree k.tree) n ≡ Some m → cloud_step k m ≡ Ok after
        → n + 1 < plan_length (counts_of_tree tree)
        → HasTaken (n + 1) epoch tree after × (after.id ≡ k.id) × (after.epoch ≡ k.epoch) × (after.tree ≡ k.tree) }
    ensures shown { (k after : CloudState) (epoch n : ℕ) (tree : List TreeEntry) (m : Msg) → MayUpload k epoch tree
        → HasTaken n epoch tree k → slice_get (upload_plan epoch tree k.tree) n ≡ Some m → cloud_step k m ≡ Ok after
        → n + 1 ≡ plan_length (counts_of_tree tree) → after ≡ showing k epoch tree }
{}

/// The plans of the empty tree, of one folder, and of one file of 12,288 bytes, message by message. It does nothing.
#[tactic(auto, using(crate::proofs::Rows::rows))]
pub fn small_plans_are_these()
    ensures empty { (epoch : ℕ) (published : List TreeEntry) → upload_plan epoch [] published ≡ empty_plan epoch }
    ensures folder { (epoch : ℕ) (path : List (List ℕ)) (published : List TreeEntry)
        → upload_plan epoch (entry_with path Kind.Folder [] ∷ []) published ≡ folder_plan epoch path }
    ensures file { (epoch : ℕ) (path : List (List ℕ)) (bytes : List ℕ) (published : List TreeEntry) → length bytes ≡ 12288
        → upload_plan epoch (entry_with path Kind.File bytes ∷ []) published ≡ file_plan epoch path bytes }
{}
