// A text and its separators.
ghost use Rattle.std.specs.Prelude.{◌≡◌, ◌+◌, ◌<◌, ◌==◌, [], ◌∷◌, length, take, drop, position, MatchOption};
ghost use Rattle.std.specs.List.{slice_split};

/// The place of the first of these bytes.
fn place_of(text: &[u8], byte: u8) -> Option<usize>
    ensures { result ≡ position (λ b. b == byte) text.now }
{
    text.iter().position(|b| *b == byte)
}

/// The place of the first separator, which ends the first piece.
fn first_end(text: &[u8], separator: u8) -> Option<usize>
    ensures { MatchOption result
        (slice_split (λ b. b == separator) text.now ≡ text.now ∷ [])
        (λ i. (i < length text.now)
        × (slice_split (λ b. b == separator) text.now
        ≡ take i text.now ∷ slice_split (λ b. b == separator) (drop (i + 1) text.now))) }
{
    place_of(text, separator)
}

/// What stands before the first separator and after it.
pub(crate) fn split_once(text: &[u8], separator: u8) -> Option<(&[u8], &[u8])>
    ensures { MatchOption result
        (slice_split (λ b. b == separator) text.now ≡ text.now ∷ [])
        (λ parts. (length parts.1.now < length text.now)
        × (slice_split (λ b. b == separator) text.now
        ≡ parts.0.now ∷ slice_split (λ b. b == separator) parts.1.now)) }
{
    match first_end(text, separator) {
        None => None,
        Some(end) => Some((&text[..end], &text[end + 1..])),
    }
}
