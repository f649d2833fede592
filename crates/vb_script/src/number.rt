// Numbers in decimal digits.
ghost use Rattle.std.specs.Prelude.{◌≡◌};
ghost use Rattle.std.specs.Char.{is_ascii_digit};
ghost use Rattle.std.specs.List.{list_all};
ghost use Rattle.vb_script.specs.Reader.{found};
ghost use Rattle.vb_script.specs.Words.{is_numeral, number_of, a_number};

use crate::error::LineKind;
use std::str;

/// The most digits that a number has.
const MOST_DIGITS: usize = 20;

/// Whether each of these bytes is a decimal digit.
fn are_digits(word: &[u8]) -> bool
    ensures { result ≡ list_all is_ascii_digit word.now }
{
    word.iter().all(|b| b.is_ascii_digit())
}

/// Whether a word is spelled as a number.
fn is_numeral(word: &[u8]) -> bool
    ensures { result ≡ is_numeral word.now }
{
    if word.is_empty() || word.len() > MOST_DIGITS || !are_digits(word) {
        return false;
    }
    word.len() == 1 || word[0] != b'0'
}

/// The number that a word stands for.
#[tactic(auto, unfolding(crate::specs::Words::number_of))]
fn number_in(word: &[u8]) -> Option<u64>
    ensures { result ≡ number_of word.now }
{
    if !is_numeral(word) {
        return None;
    }
    match str::from_utf8(word) {
        Ok(digits) => digits.parse().ok(),
        Err(_) => None,
    }
}

/// Reads a number.
pub(crate) fn read_number(word: &[u8]) -> Result<u64, LineKind>
    ensures { found result ≡ a_number word.now }
{
    number_in(word).ok_or(LineKind::Number)
}
