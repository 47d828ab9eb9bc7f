//! What is still to read, over a text.

ghost use Rattle.std.specs.Prelude.{◌≡◌, ◌∷◌, [], MatchOption, chars};
ghost use Rattle.reading.specs.Codes.{codes_of};
ghost use Rattle.reading.specs.Reading.{first, turns};

use std::marker::Model;

/// A place in a text from where it is still to read. Contracts see it as the characters from there on.
#[derive(Drop)]
pub struct CharCursor<'a> {
    text: &'a str,
}

impl<'a> Model for CharCursor<'a> {
    ghost use Rattle.std.specs.Prelude.{ℕ, List, chars, IsUtf8};
    ghost use Rattle.std.specs.Coded.{coded_list, coded_ℕ};

    ghost Value = { List ℕ };

    ghost coded = { coded_list coded_ℕ };

    ghost view = { λ cursor. chars cursor.text.now };

    ghost invariant = { λ cursor. IsUtf8 cursor.text.now };
}

impl<'a> CharCursor<'a> {
    /// All of the text is still to read.
    pub fn new(text: &'a str) -> CharCursor<'a>
        ensures { result ≡ chars text.now }
    {
        CharCursor { text }
    }

    /// The bytes that are still to read. They name the place where the cursor stands.
    #[inline]
    #[tactic(auto, using(crate::proofs::Says::says_chars))]
    pub fn rest(&self) -> &'a [u8]
        ensures { codes_of result.now ≡ self.now }
    {
        self.text.as_bytes()
    }

    /// Takes the next character. At the end there is none, and the cursor stays. `O(1)`.
    #[inline]
    pub fn next(&mut self) -> Option<char>
        ensures { MatchOption result ((self.old ≡ []) × (self.new ≡ [])) (λ c. self.old ≡ c ∷ self.new) }
    {
        let mut chars = self.text.chars();
        let first = chars.next()?;
        self.text = chars.as_str();
        Some(first)
    }

    /// The next character; the cursor stays. `O(1)`.
    #[inline]
    pub fn peek(&self) -> Option<char>
        ensures { result ≡ first self.now }
    {
        self.text.chars().next()
    }

    /// One more than there are bytes still to read, so more than there are characters: as many turns as a loop may need.
    #[inline]
    #[tactic(auto, using(crate::proofs::Says::size_chars), unfolding(crate::specs::Reading::turns))]
    pub fn turns(&self) -> usize
        ensures { result ≡ turns self.now }
    {
        self.text.len() + 1
    }
}
