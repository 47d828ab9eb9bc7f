//! Keywords, names of enumeration values, and binaries.

ghost use Rattle.std.specs.Prelude.{◌≡◌, ◌∷◌, [], IfOk, IfErr, OnOk};
ghost use Rattle.std.specs.Char.{is_ascii_hexdigit, to_ascii_uppercase};
ghost use Rattle.reading.specs.Codes.{codes_of, code_of};
ghost use Rattle.reading.specs.Reading.{Gives};
ghost use Rattle.reading.specs.declared.stop.Stop.TheVariants as stop;
ghost use Rattle.p21_read.specs.Words as spec;

use crate::fault::P21Cause;
use crate::quoted::add;
use ifc_base::{Memory, Name};
use reading::{Code, Cursor, Stop};
use std::alloc::Global;

/// A run of letters, digits, `_` and hyphens that begins with a letter or `_`.
#[derive(Drop)]
pub(crate) struct Word {
    /// The word in upper case.
    pub name: Name,
    /// Whether no letter was written small.
    pub capitals: bool,
    /// Whether there is no hyphen in it.
    pub plain: bool,
}

pub(crate) fn is_letter(c: char) -> bool
    ensures { result ≡ spec.is_letter c }
{
    c.is_ascii_alphabetic() || c == '_'
}

/// The character, if a name goes on with it.
fn in_name(code: Code) -> Option<char>
    ensures { result ≡ spec.of_class spec.is_name (code_of code) }
{
    let c = code.char()?;
    if is_letter(c) || c.is_ascii_digit() {
        return Some(c);
    }
    None
}

/// The character, if a word goes on with it.
fn in_word(code: Code) -> Option<char>
    ensures { result ≡ spec.of_class spec.is_word (code_of code) }
{
    let c = code.char()?;
    if is_letter(c) || c.is_ascii_digit() || c == '-' {
        return Some(c);
    }
    None
}

/// The character, if it is a hexadecimal digit.
fn in_binary(code: Code) -> Option<char>
    ensures { result ≡ spec.of_class is_ascii_hexdigit (code_of code) }
{
    let c = code.char()?;
    if c.is_ascii_hexdigit() {
        return Some(c);
    }
    None
}

/// Adds a letter to the word.
fn add_letter(word: &mut Word, c: char) -> Result<(), Memory>
    ensures { OnOk result (word.new ≡ spec.with_letter word.old c) }
{
    add(&mut word.name, c.to_ascii_uppercase())?;
    word.capitals = word.capitals && !c.is_ascii_lowercase();
    word.plain = word.plain && c != '-';
    Ok(())
}

/// The word whose first letter is `first`.
#[tactic(auto, unfolding(crate::specs::Words::word))]
pub(crate) fn read_word(alloc: Global, cursor: &mut Cursor<'_>, first: char) -> Result<Word, Memory>
    ensures { IfOk result (λ word. spec.word (spec.with_letter spec.no_word first) cursor.old ≡ (word, cursor.new)) }
{
    let mut word = Word {
        name: Name::new(alloc),
        capitals: true,
        plain: true,
    };
    add_letter(&mut word, first)?;
    while let Some(code) = cursor.peek() {
        let Some(c) = in_word(code) else {
            return Ok(word);
        };
        let _ = cursor.next();
        add_letter(&mut word, c)?;
    }
    Ok(word)
}

/// Adds the letters that a name goes on with, in upper case.
#[tactic(auto, unfolding(crate::specs::Words::gather))]
fn rest_of_name(cursor: &mut Cursor<'_>, name: &mut Name) -> Result<(), Memory>
    ensures { OnOk result (spec.gather spec.is_name to_ascii_uppercase name.old cursor.old ≡ (name.new, cursor.new)) }
{
    while let Some(code) = cursor.peek() {
        let Some(c) = in_name(code) else {
            return Ok(());
        };
        let _ = cursor.next();
        add(name, c.to_ascii_uppercase())?;
    }
    Ok(())
}

/// The name of an enumeration value, behind the point at `at`.
#[tactic(auto, unfolding(crate::specs::Words::enumer, crate::specs::Words::enumer_end))]
pub(crate) fn enumer<'a>(
    alloc: Global,
    cursor: &mut Cursor<'a>,
    at: &'a [u8],
) -> Result<Name, Stop<'a, P21Cause>>
    ensures { Gives (λ name. name) result cursor.new (spec.enumer (codes_of at.now) cursor.old) }
{
    let Some(first) = cursor.next() else {
        return Err(Stop::Refused(P21Cause::BadToken, at));
    };
    let Some(letter) = in_name(first) else {
        return Err(Stop::Refused(P21Cause::BadToken, at));
    };
    if !is_letter(letter) {
        return Err(Stop::Refused(P21Cause::BadToken, at));
    }
    let mut name = Name::new(alloc);
    add(&mut name, letter.to_ascii_uppercase())?;
    rest_of_name(cursor, &mut name)?;
    let Some(end) = cursor.next() else {
        return Err(Stop::Refused(P21Cause::BadToken, at));
    };
    if !end.is('.') {
        return Err(Stop::Refused(P21Cause::BadToken, at));
    }
    Ok(name)
}

/// Adds the hexadecimal digits that come next.
#[tactic(auto, unfolding(crate::specs::Words::gather))]
fn rest_of_binary(cursor: &mut Cursor<'_>, digits: &mut Name) -> Result<(), Memory>
    ensures { OnOk result (spec.gather is_ascii_hexdigit (λ c. c) digits.old cursor.old ≡ (digits.new, cursor.new)) }
{
    while let Some(code) = cursor.peek() {
        let Some(c) = in_binary(code) else {
            return Ok(());
        };
        let _ = cursor.next();
        add(digits, c)?;
    }
    Ok(())
}

/// The digits of a binary, behind the quotation mark at `at`.
#[tactic(auto, unfolding(crate::specs::Words::binary, crate::specs::Words::binary_end))]
pub(crate) fn binary<'a>(
    alloc: Global,
    cursor: &mut Cursor<'a>,
    at: &'a [u8],
) -> Result<Name, Stop<'a, P21Cause>>
    ensures { Gives (λ name. name) result cursor.new (spec.binary (codes_of at.now) cursor.old) }
{
    let Some(first) = cursor.next() else {
        return Err(Stop::Refused(P21Cause::Unclosed, at));
    };
    let Some(surplus) = first.char() else {
        return Err(Stop::Refused(P21Cause::BadToken, at));
    };
    if !('0'..='3').contains(&surplus) {
        return Err(Stop::Refused(P21Cause::BadToken, at));
    }
    let mut digits = Name::new(alloc);
    add(&mut digits, surplus)?;
    rest_of_binary(cursor, &mut digits)?;
    let Some(end) = cursor.next() else {
        return Err(Stop::Refused(P21Cause::Unclosed, at));
    };
    if !end.is('"') {
        return Err(Stop::Refused(P21Cause::BadToken, at));
    }
    Ok(digits)
}
