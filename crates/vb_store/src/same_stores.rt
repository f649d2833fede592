// Stores that are the same, whatever else a disk holds.
ghost use Rattle.std.specs.Prelude.{◌≡◌, ℕ, List, All, Ok};
ghost use Rattle.vb_store.specs.Metadata.{Metadata, metadata_of};
ghost use Rattle.vb_store.specs.Recovered.{recovered};
ghost use Rattle.vb_store.specs.Sameness.{HasSamePages, IsSameStore};

/// The same head and node images with the same map pages have the same metadata, whether the images stand in the
/// journal or at home.
pub fn the_same_store_has_the_same_metadata()
    ensures { (size : ℕ) (m : Metadata) (old new : ℕ → List ℕ) → metadata_of size old ≡ Ok m → IsSameStore size m old new
        → metadata_of size new ≡ Ok m }
{}

/// The same store whose data pages read the same recovers to the same tree, or is unreadable at the same place.
pub fn the_same_pages_recover_the_same_tree()
    ensures { (size : ℕ) (m : Metadata) (old new : ℕ → List ℕ) → metadata_of size old ≡ Ok m → IsSameStore size m old new
        → All (HasSamePages old new) m.held → recovered size new ≡ recovered size old }
{}
