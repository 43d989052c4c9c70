// A line: a text that is no longer than a line may be. Its words are read from it.
ghost use Rattle.std.specs.Prelude.{◌≡◌};
ghost use Rattle.text.specs.Words as words;
ghost use Rattle.text.specs.Meanings.{Means, Readable};

use crate::words;
use std::marker::Model;

// Contracts see it as its bytes. It is lent and not `Copy`, which a type with a model and a lifetime cannot be.
#[derive(Drop)]
pub struct Line<'a> {
    text: &'a [u8],
}

impl<'a> Model for Line<'a> {
    ghost use Rattle.std.specs.Prelude.{◌≡◌, true, List, ℕ};
    ghost use Rattle.text.specs.Words.{is_line};

    ghost Value = { List ℕ };

    ghost view = { λ line. line.text.now };

    ghost invariant = { λ line. is_line line.text.now ≡ true };
}

impl<'a> Line<'a> {
    // None where the text is too long.
    pub fn new(text: &'a [u8]) -> Option<Line<'a>>
        ensures { result ≡ words.line_of text.now }
    {
        if text.len() > words::LINE {
            return None;
        }
        Some(Line { text })
    }

    // The word k, counted from 0; empty where the line has not so many.
    pub fn word(&self, k: usize) -> &'a [u8]
        ensures { result.now ≡ words.word_at k self.now }
    {
        words::word(self.text, k)
    }

    // Whether the line has n words. Of 0 the answer is no, even of an empty line.
    pub fn has_words(&self, n: usize) -> bool
        ensures { result ≡ words.has_words n self.now }
    {
        words::has_words(self.text, n)
    }

    // The word k as a number.
    pub fn number(&self, k: usize) -> u64
        ensures { result ≡ words.number_of (words.word_at k self.now) }
    {
        words::number(self.word(k))
    }

    // The word k, where it means bytes: what has to read two words looks at both before it makes room for either.
    pub fn digits(&self, k: usize) -> Option<&'a [u8]>
        ensures { Readable result (words.word_at k self.now) }
    {
        // From the field, and not by `word`: that is how the proof comes to know how long the line is.
        let word = words::word(self.text, k);
        if !words::is_bytes(word) {
            return None;
        }
        Some(word)
    }

    // The bytes that the word k means, put at the start of `space`; none where it means no bytes.
    pub fn bytes<'s>(&self, k: usize, space: &'s mut [u8; words::BYTES]) -> Option<&'s [u8]>
        ensures { Means result (words.word_at k self.now) }
    {
        let digits = self.digits(k)?;
        let n = words::read_bytes(space, digits);
        Some(octets::cut(space, 0, n))
    }
}
