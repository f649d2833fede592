// Which bytes may be a part of a path.
ghost use Rattle.std.specs.Prelude.{◌≡◌};
ghost use Rattle.vb_path.specs.Parts.{is_part};

use crate::parse::{bad_utf8, part_fault, place_of};

/// Whether bytes may be a part of a path, and so the name of an entry: they aren't empty, `.` or
/// `..`, are at most 255, are UTF-8, and none of them is zero or a slash.
#[tactic(auto, unfolding(crate::specs::Parts::is_part))]
pub fn is_part(bytes: &[u8]) -> bool
    ensures { result ≡ is_part bytes.now }
{
    part_fault(bytes).is_none()
        && bad_utf8(bytes).is_none()
        && place_of(bytes, 0).is_none()
        && place_of(bytes, b'/').is_none()
}
