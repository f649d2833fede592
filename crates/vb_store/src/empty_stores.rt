// What a format leaves, said once for all disks: laws, each the contract of a function that does nothing.
ghost use Rattle.std.specs.Prelude.{◌≡◌, ◌+◌, ℕ, List, [], Ok, length};
ghost use Rattle.vb_disk.specs.Crashes.{MayCrashTo};
ghost use Rattle.vb_disk.specs.States.{DiskState, after_calls, read_at};
ghost use Rattle.vb_journal.specs.Outcomes.{RecoversWholly};
ghost use Rattle.vb_journal.specs.Progress.{IsAtRest};
ghost use Rattle.vb_store.specs.Clear.{last_candidates, IsClear};
ghost use Rattle.vb_store.specs.EmptyStores.{empty_home, HoldsEmptyStore, IsMadeEmpty};
ghost use Rattle.vb_store.specs.Formats.{format_calls, made_head, CanFormat};
ghost use Rattle.vb_store.specs.Metadata.{metadata_of};
ghost use Rattle.vb_store.specs.Recovered.{recovered, Recovers};
ghost use Rattle.vb_store.specs.Views.{empty_index, CanView};

/// The calls of a format leave the empty store, whatever stood on the disk, and each crash leaves all as it is.
pub fn a_format_leaves_an_empty_store()
    ensures leaves { (id : List ℕ) (blocks nodes : ℕ) (d : DiskState) → CanFormat id blocks nodes
        → IsMadeEmpty id blocks nodes d (after_calls d (format_calls id blocks nodes)) }
    ensures stands { (id : List ℕ) (blocks nodes : ℕ) (d new : DiskState) → CanFormat id blocks nodes
        → MayCrashTo (after_calls d (format_calls id blocks nodes)) new
        → new ≡ after_calls d (format_calls id blocks nodes) }

    // The next commit may start over it, and its tree never goes away by crashes alone.
    ensures at_rest { (id : List ℕ) (blocks nodes : ℕ) (d : DiskState) → CanFormat id blocks nodes → length id ≡ 16
        → IsAtRest (made_head id blocks nodes) empty_home (λ i. last_candidates d (2 + nodes + i)) (after_calls d (format_calls id blocks nodes)) }
    ensures clear { (id : List ℕ) (blocks nodes : ℕ) (d : DiskState) → CanFormat id blocks nodes → length id ≡ 16
        → IsClear (after_calls d (format_calls id blocks nodes)) }
{}

/// A disk that holds an empty store recovers to it, and each crash leaves one that holds it, whatever its other places hold.
pub fn an_empty_store_is_shown()
    ensures recovers { (id : List ℕ) (blocks nodes : ℕ) (d : DiskState) → CanFormat id blocks nodes → length id ≡ 16
        → HoldsEmptyStore id blocks nodes d → RecoversWholly d (made_head id blocks nodes) empty_home }
    ensures crash { (id : List ℕ) (blocks nodes : ℕ) (old new : DiskState) → HoldsEmptyStore id blocks nodes old
        → MayCrashTo old new → HoldsEmptyStore id blocks nodes new }
{}

/// From a disk that holds an empty store epoch 0 and the empty tree are recovered, whatever its other places hold, and
/// crashes alone never take them away.
pub fn an_empty_store_recovers_the_empty_tree()
    ensures metadata { (id : List ℕ) (blocks nodes : ℕ) (d : DiskState) → CanFormat id blocks nodes → length id ≡ 16
        → HoldsEmptyStore id blocks nodes d → metadata_of d.size (read_at d)
        ≡ Ok (record { head = made_head id blocks nodes; held = (empty_index (made_head id blocks nodes)).nodes }) }
    ensures recovers { (id : List ℕ) (blocks nodes : ℕ) (d : DiskState) → CanFormat id blocks nodes → length id ≡ 16
        → HoldsEmptyStore id blocks nodes d → recovered d.size (read_at d) ≡ Recovers 0 [] }
    ensures clear { (id : List ℕ) (blocks nodes : ℕ) (d : DiskState) → CanFormat id blocks nodes → length id ≡ 16
        → HoldsEmptyStore id blocks nodes d → IsClear d }
{}

/// The nodes of an empty store are those of a view.
pub fn an_empty_store_can_be_viewed()
    ensures { (id : List ℕ) (blocks nodes : ℕ) → CanFormat id blocks nodes
        → CanView (made_head id blocks nodes) (empty_index (made_head id blocks nodes)) }
{}
