// The words of a line.
ghost use Rattle.std.specs.Prelude.{◌≡◌, ◌∷◌, MatchResult, Ok, Err};
ghost use Rattle.vb_script.specs.Steps.{Wrong};
ghost use Rattle.vb_script.specs.Reader.{found};
ghost use Rattle.vb_script.specs.Words.{words_of, next_word, no_word, one_word, two_words, three_words};

use crate::error::LineKind;
use crate::split::split_once;
use std::marker::Model;

/// The words of a line that are left. Contracts see their list.
#[derive(Drop)]
pub(crate) struct Words<'a> {
    rest: Option<&'a [u8]>,
}

impl<'a> Model for Words<'a> {
    ghost use Rattle.std.specs.Prelude.{List, ℕ};
    ghost use Rattle.std.specs.Option.{option_copied};
    ghost use Rattle.vb_script.specs.Words.{words_in};

    ghost Value = { List (List ℕ) };

    ghost view = { λ a. words_in (option_copied a.rest) };
}

impl<'a> Words<'a> {
    /// The first word of a line, which may be empty, and the words after it.
    pub(crate) fn split(line: &'a [u8]) -> (&'a [u8], Words<'a>)
        ensures { words_of line.now ≡ result.0.now ∷ result.1 }
    {
        match split_once(line, b' ') {
            None => (line, Words { rest: None }),
            Some((word, rest)) => (word, Words { rest: Some(rest) }),
        }
    }

    /// Takes the next word, which is there and isn't empty.
    pub(crate) fn take(&mut self) -> Result<&'a [u8], LineKind>
        ensures { MatchResult result
            (λ word. next_word self.old ≡ Ok (word.now, self.new))
            (λ kind. next_word self.old ≡ Err (Wrong kind)) }
    {
        let Some(text) = self.rest else {
            return Err(LineKind::Words);
        };
        let word = match split_once(text, b' ') {
            None => {
                self.rest = None;
                text
            }
            Some((word, rest)) => {
                self.rest = Some(rest);
                word
            }
        };
        if word.is_empty() {
            return Err(LineKind::Words);
        }
        Ok(word)
    }

    /// No word is left.
    #[tactic(auto, using(crate::proofs::Pieces::some_words))]
    pub(crate) fn end(&self) -> Result<(), LineKind>
        ensures { found result ≡ no_word self.now }
    {
        match self.rest {
            None => Ok(()),
            Some(_) => Err(LineKind::Words),
        }
    }

    /// Exactly one word.
    #[tactic(auto, unfolding(crate::specs::Words::one_word))]
    pub(crate) fn one(mut self) -> Result<&'a [u8], LineKind>
        ensures { MatchResult result
            (λ word. one_word self.entry ≡ Ok word.now)
            (λ kind. one_word self.entry ≡ Err (Wrong kind)) }
    {
        let word = self.take()?;
        self.end()?;
        Ok(word)
    }

    /// Exactly two words.
    #[tactic(auto, unfolding(crate::specs::Words::two_words))]
    pub(crate) fn two(mut self) -> Result<(&'a [u8], &'a [u8]), LineKind>
        ensures { MatchResult result
            (λ words. two_words self.entry ≡ Ok (words.0.now, words.1.now))
            (λ kind. two_words self.entry ≡ Err (Wrong kind)) }
    {
        let first = self.take()?;
        let second = self.take()?;
        self.end()?;
        Ok((first, second))
    }

    /// Exactly three words.
    #[tactic(auto, unfolding(crate::specs::Words::three_words))]
    pub(crate) fn three(mut self) -> Result<(&'a [u8], &'a [u8], &'a [u8]), LineKind>
        ensures { MatchResult result
            (λ words. three_words self.entry ≡ Ok (words.0.now, words.1.now, words.2.now))
            (λ kind. three_words self.entry ≡ Err (Wrong kind)) }
    {
        let first = self.take()?;
        let second = self.take()?;
        let third = self.take()?;
        self.end()?;
        Ok((first, second, third))
    }
}
