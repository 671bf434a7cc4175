// The words of a line, taken one by one.
ghost use Rattle.std.specs.Prelude.{◌≡◌, ℕ, List, [], ◌∷◌, MatchOption, MatchResult};
ghost use Rattle.job.specs.Words.{before_comment, words_of, Cut};
ghost use Rattle.job.specs.Commands.{end_of};
ghost use Rattle.job.specs.declared.wrong.Wrong.TheVariants.{MissingWord};

use super::wrong::Wrong;
use std::marker::Model;

// The part of a line that is still to be read.
#[derive(Drop)]
pub struct Words<'a> {
    rest: &'a [u8],
}

// Clauses see the words.
impl<'a> Model for Words<'a> {
    ghost Value = { List (List ℕ) };

    ghost view = { λ s. words_of s.rest.now };
}

impl<'a> Words<'a> {
    // The words that stand before the comment.
    pub fn new(line: &'a [u8]) -> Words<'a>
        ensures words { result ≡ words_of (before_comment line.now) }
        ensures cut { Cut (before_comment line.now) (words_of (before_comment line.now)) }
    {
        let comment = line.iter().position(|b| *b == b'#').unwrap_or(line.len());
        Words {
            rest: &line[..comment],
        }
    }

    // Takes the next word of a command that is not complete without it.
    pub fn needed_word(&mut self) -> Result<&'a [u8], Wrong>
        ensures { MatchResult result (λ w. self.old ≡ w.now ∷ self.new) (λ e. (e ≡ MissingWord) × (self.old ≡ [])) }
    {
        self.next().ok_or(Wrong::MissingWord)
    }

    // Ends a command that takes no further word.
    pub fn end(&mut self) -> Result<(), Wrong>
        ensures { result ≡ end_of self.old }
    {
        match self.next() {
            Some(_) => Err(Wrong::WordTooMany),
            None => Ok(()),
        }
    }
}

impl<'a> Iterator for Words<'a> {
    type Item = &'a [u8];

    ghost next_gives = { λ s word t. MatchOption word ((s ≡ []) × (t ≡ [])) (λ w. s ≡ w.now ∷ t) };

    fn next(&mut self) -> Option<&'a [u8]> {
        let start = self.rest.iter().position(|b| *b != b' ')?;
        let text = &self.rest[start..];
        let end = text.iter().position(|b| *b == b' ').unwrap_or(text.len());
        let (word, rest) = text.split_at(end);
        self.rest = rest;
        Some(word)
    }
}
