use sqlite_items::{Boxed, Items};

/// A named class of characters, or all characters that are outside it.
#[derive(Clone, Copy, Debug, PartialEq, Eq)]
pub enum Class {
    /// `\d`: the digits 0 to 9.
    Digit,
    /// `\w`: the ASCII letters and digits, and `$ + < = > ^ | ~` and the grave accent.
    Word,
    /// `\s`: space, tab, line feed, carriage return.
    Space,
    /// `\D`: all characters but the digits.
    NotDigit,
    /// `\W`: all characters but those of `\w`.
    NotWord,
    /// `\S`: all characters but those of `\s`.
    NotSpace,
}

/// A part of a set of characters.
#[derive(Clone, Copy, Debug, PartialEq, Eq)]
pub enum Part {
    /// The characters from the first to the last, both among them; none where the first is above the
    /// last. One character is a range from itself to itself.
    Range(char, char),
    /// The characters of a named class.
    Class(Class),
}

/// A set of characters: those that are in one of the parts, or, where negated, all others.
#[derive(Debug, Drop)]
pub struct Set {
    /// Whether the set holds the characters that are in none of the parts.
    pub negated: bool,
    /// The parts, in any order.
    pub parts: Items<Part>,
}

/// How often a repeated part may stand.
#[derive(Clone, Copy, Debug, PartialEq, Eq)]
pub struct Times {
    /// The least number.
    pub least: u32,
    /// The greatest number, if there is one; none is permitted where it is below the least.
    pub most: Option<u32>,
}

/// A pattern. It matches a text as a whole or not at all.
#[derive(Debug, Drop)]
pub enum Tree {
    /// One character of the set.
    Set(Set),
    /// The parts, one behind the other; without parts, the empty text.
    Sequence(Items<Tree>),
    /// What one of the sides matches; without sides, nothing.
    Choice(Items<Tree>),
    /// Texts of the part, one behind the other, in a permitted number.
    Repeat(Boxed<Tree>, Times),
}
