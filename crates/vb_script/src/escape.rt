// Escapes: `%` and two hexadecimal digits stand for a byte.
ghost use Rattle.std.specs.Prelude.{◌≡◌, ◌<◌, ◌∷◌, [], length, MatchOption, IfOk};
ghost use Rattle.hex.specs.Hex.{hex_digit_value};
ghost use Rattle.vb_script.specs.Words.{byte_of_digits, escape_of, unescaped};

use std::alloc::{AllocError, Global};

/// The value of a hexadecimal digit of either case.
fn digit_value(digit: u8) -> Option<u8>
    ensures { result ≡ hex_digit_value digit }
{
    match digit {
        b'A'..=b'F' => Some(digit - b'A' + 10),
        b'a'..=b'f' => Some(digit - b'a' + 10),
        b'0'..=b'9' => Some(digit - b'0'),
        _ => None,
    }
}

/// The byte of two hexadecimal digits.
fn byte_of_digits(high: u8, low: u8) -> Option<u8>
    ensures { result ≡ byte_of_digits (hex_digit_value high) (hex_digit_value low) }
{
    let high = digit_value(high)?;
    let low = digit_value(low)?;
    Some(16 * high + low)
}

/// The byte that three bytes escape.
fn escaped(first: u8, high: u8, low: u8) -> Option<u8>
    ensures { result ≡ escape_of first high low }
{
    if first != b'%' {
        return None;
    }
    byte_of_digits(high, low)
}

/// The first byte that a word stands for, and what follows it in the word.
fn next_byte(word: &[u8]) -> Option<(u8, &[u8])>
    ensures { MatchOption result
        (unescaped word.now ≡ [])
        (λ next. (length next.1.now < length word.now)
        × (unescaped word.now ≡ next.0 ∷ unescaped next.1.now)) }
{
    match word {
        [] => None,
        [first, high, low, rest @ ..] => match escaped(*first, *high, *low) {
            Some(byte) => Some((byte, rest)),
            None => Some((*first, &word[1..])),
        },
        [first, rest @ ..] => Some((*first, rest)),
    }
}

/// The bytes that a word stands for.
pub(crate) fn unescape(alloc: Global, word: &[u8]) -> Result<Vec<u8>, AllocError>
    ensures { IfOk result (λ bytes. bytes.items ≡ unescaped word.now) }
{
    let mut bytes = Vec::with_capacity(alloc, word.len())?;
    let mut rest = word;
    while let Some((byte, after)) = next_byte(rest) {
        bytes.push(byte)?;
        rest = after;
    }
    Ok(bytes)
}
