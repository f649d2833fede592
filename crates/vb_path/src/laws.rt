// A law of paths, the contract of a function that does nothing.
ghost use Rattle.std.specs.Prelude.{List, ℕ, [], ◌∷◌};
ghost use Rattle.std.specs.List.{AllByRecursion};
ghost use Rattle.vb_path.specs.Parts.{IsPart, MakePath};
ghost use Rattle.vb_path.specs.Paths.{IsPath};

/// Each part of a path is a part, and each part alone is a path. Parts are those of a path just
/// where each is a part and they are within the limits of a path. It does nothing.
#[tactic(auto, using(crate::proofs::PartLaws::part_laws))]
pub fn paths_have_parts()
    ensures parts { (parts : List (List ℕ)) → IsPath parts → AllByRecursion IsPart parts }
    ensures alone { (part : List ℕ) → IsPart part → IsPath (part ∷ []) }
    ensures made { (parts : List (List ℕ)) → MakePath parts → IsPath parts }
    ensures within { (parts : List (List ℕ)) → IsPath parts → MakePath parts }
{}
