//! The words of a file's structure.

ghost use Rattle.std.specs.Prelude.{◌≡◌, encode_utf8_all};
ghost use Rattle.std.specs.Str.{bytes_eq};
ghost use Rattle.reading.specs.Reading.{Gives};
ghost use Rattle.p21_read.specs.Headers as spec;

use crate::fault::P21Cause;
use crate::token::{Lexed, Token, next_token};
use crate::value::misplaced;
use crate::word::Word;
use ifc_base::Name;
use reading::{Cursor, Stop};
use std::alloc::Global;

/// A word of a file's structure.
#[derive(Clone, Copy)]
pub(crate) enum SectionWord {
    /// `ISO-10303-21`.
    Opening,
    Header,
    Data,
    /// `ENDSEC`.
    EndSection,
    /// `END-ISO-10303-21`.
    Closing,
    /// A section that isn't read: `ANCHOR`, `REFERENCE`, `SIGNATURE`.
    Foreign,
    /// No such word.
    Nothing,
}

/// A word where one of a file's structure must stand, and the bytes from where it begins.
#[derive(Clone, Copy)]
pub(crate) struct Heading<'a> {
    pub word: SectionWord,
    pub at: &'a [u8],
}

/// Whether these are the name's characters, which are ASCII.
#[tactic(auto, using(crate::proofs::Ascii::same_laws))]
pub(crate) fn is_named(name: &Name, text: &str) -> bool
    requires { encode_utf8_all text.now ≡ text.now }
    ensures { result ≡ bytes_eq name.now text.now }
{
    name.as_str() == text
}

/// Whether this is the word of a section that isn't read.
#[tactic(auto, unfolding(crate::specs::Headers::is_foreign))]
fn is_foreign(name: &Name) -> bool
    ensures { result ≡ spec.is_foreign name.now }
{
    is_named(name, "ANCHOR") || is_named(name, "REFERENCE") || is_named(name, "SIGNATURE")
}

/// Which word of a file's structure this name is.
#[tactic(auto, unfolding(crate::specs::Headers::section_named))]
fn section_named(name: &Name) -> SectionWord
    ensures { result ≡ spec.section_named name.now }
{
    if is_named(name, "ENDSEC") {
        return SectionWord::EndSection;
    }
    if is_named(name, "DATA") {
        return SectionWord::Data;
    }
    if is_named(name, "HEADER") {
        return SectionWord::Header;
    }
    if is_named(name, "ISO-10303-21") {
        return SectionWord::Opening;
    }
    if is_named(name, "END-ISO-10303-21") {
        return SectionWord::Closing;
    }
    if is_foreign(name) {
        return SectionWord::Foreign;
    }
    SectionWord::Nothing
}

/// Which word of a file's structure this is.
#[tactic(auto, unfolding(crate::specs::Headers::section_word))]
pub(crate) fn section_word(word: &Word) -> SectionWord
    ensures { result ≡ spec.section_word word.now }
{
    if word.capitals {
        return section_named(&word.name);
    }
    SectionWord::Nothing
}

/// Takes a word where one of a file's structure must stand.
#[tactic(auto, unfolding(crate::specs::Headers::heading))]
pub(crate) fn next_heading<'a>(
    alloc: Global,
    cursor: &mut Cursor<'a>,
) -> Result<Heading<'a>, Stop<'a, P21Cause>>
    ensures { Gives spec.heading_view result cursor.new (spec.heading cursor.old) }
{
    let Lexed { token, at } = next_token(alloc, cursor)?;
    match token {
        Token::Word(word) => Ok(Heading {
            word: section_word(&word),
            at,
        }),
        other => Err(misplaced(None, &other, at)),
    }
}
