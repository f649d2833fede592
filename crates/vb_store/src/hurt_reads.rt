// Metadata by reads of which some are hurt.
ghost use Rattle.std.specs.Prelude.{◌≡◌, ◌⊎◌, ℕ, List, Ok};
ghost use Rattle.vb_store.specs.Metadata.{Metadata, metadata_of};
ghost use Rattle.vb_store.specs.OneOf.{DifferWhereHurt, IsFoundHurt};

/// Reads that differ from others only at places other than the heads, and there aren't sealed and have other digests,
/// have the same metadata, or are refused as damaged at such a place.
pub fn hurt_places_keep_the_metadata_or_are_found()
    ensures { (size : ℕ) (m : Metadata) (old new : ℕ → List ℕ) → metadata_of size old ≡ Ok m → DifferWhereHurt old new
        → (metadata_of size new ≡ Ok m) ⊎ IsFoundHurt old new (metadata_of size new) }
{}
