//! The header of a file, and its schema id.

ghost use Rattle.std.specs.Prelude.{◌≡◌, IfOk, chars, encode_utf8_all};
ghost use Rattle.std.specs.Option.{option_copied};
ghost use Rattle.reading.specs.Codes.{codes_of};
ghost use Rattle.reading.specs.Reading.{Gives};
ghost use Rattle.p21_read.specs.Headers as spec;

use crate::fault::P21Cause;
use crate::instance::{closed, opening, semicolon};
use crate::quoted::add;
use crate::section::{SectionWord, is_named, next_heading, section_word};
use crate::token::{Lexed, Token, next_token};
use crate::value::misplaced;
use crate::word::Word;
use ifc_base::{Memory, Name, Value, ValueNode};
use reading::{CharCursor, Cursor, Stop};
use std::alloc::Global;

/// Takes `ISO-10303-21;`.
#[tactic(auto, unfolding(crate::specs::Headers::opened))]
fn opened<'a>(alloc: Global, cursor: &mut Cursor<'a>) -> Result<(), Stop<'a, P21Cause>>
    ensures { Gives (λ _. tt) result cursor.new (spec.opened cursor.old) }
{
    let first = next_heading(alloc, cursor)?;
    match first.word {
        SectionWord::Opening => semicolon(alloc, cursor),
        _ => Err(Stop::Refused(P21Cause::BadToken, first.at)),
    }
}

/// Takes `HEADER;`.
#[tactic(auto, unfolding(crate::specs::Headers::header_opened))]
fn header_opened<'a>(alloc: Global, cursor: &mut Cursor<'a>) -> Result<(), Stop<'a, P21Cause>>
    ensures { Gives (λ _. tt) result cursor.new (spec.header_opened cursor.old) }
{
    let section = next_heading(alloc, cursor)?;
    match section.word {
        SectionWord::Header => semicolon(alloc, cursor),
        SectionWord::Foreign => Err(Stop::Refused(P21Cause::OtherSection, section.at)),
        _ => Err(Stop::Refused(P21Cause::BadToken, section.at)),
    }
}

/// Takes `(parameters);`.
#[tactic(auto, unfolding(crate::specs::Headers::parameters))]
fn parameters<'a>(alloc: Global, cursor: &mut Cursor<'a>) -> Result<Vec<Value>, Stop<'a, P21Cause>>
    ensures { Gives (λ params. params.items) result cursor.new (spec.parameters cursor.old) }
{
    let start = opening(alloc, cursor)?;
    let params = closed(alloc, start, cursor)?;
    match params.late {
        None => Ok(params.values),
        Some(at) => Err(Stop::Refused(P21Cause::IdRange, at)),
    }
}

/// Takes the header entity of this name, in upper case.
#[tactic(auto, unfolding(crate::specs::Headers::named))]
fn named<'a>(
    alloc: Global,
    name: &str,
    cursor: &mut Cursor<'a>,
) -> Result<Vec<Value>, Stop<'a, P21Cause>>
    requires { encode_utf8_all name.now ≡ name.now }
    ensures { Gives (λ params. params.items) result cursor.new (spec.named name.now cursor.old) }
{
    let Lexed { token, at } = next_token(alloc, cursor)?;
    match token {
        Token::Word(word) => {
            if !is_named(&word.name, name) {
                return Err(Stop::Refused(P21Cause::BadToken, at));
            }
            parameters(alloc, cursor)
        }
        other => Err(misplaced(None, &other, at)),
    }
}

/// Takes what stands behind the word at `at`, a further header entity or the end of the section; whether to go on.
#[tactic(auto, unfolding(crate::specs::Headers::further_turn))]
fn further_word<'a>(
    alloc: Global,
    word: &Word,
    at: &'a [u8],
    cursor: &mut Cursor<'a>,
) -> Result<bool, Stop<'a, P21Cause>>
    ensures { Gives (λ more. (more, tt)) result cursor.new
        (spec.further_word word.now.plain (spec.section_word word.now) (codes_of at.now) cursor.old) }
{
    match section_word(word) {
        SectionWord::EndSection => {
            semicolon(alloc, cursor)?;
            Ok(false)
        }
        _ => {
            if !word.plain {
                return Err(Stop::Refused(P21Cause::BadToken, at));
            }
            let _ = parameters(alloc, cursor)?;
            Ok(true)
        }
    }
}

/// Passes a further header entity, or the end of the section; whether to go on.
#[tactic(auto, unfolding(crate::specs::Headers::further_turn))]
fn further<'a>(alloc: Global, cursor: &mut Cursor<'a>) -> Result<bool, Stop<'a, P21Cause>>
    ensures { Gives (λ more. (more, tt)) result cursor.new (spec.further_turn tt cursor.old) }
{
    let Lexed { token, at } = next_token(alloc, cursor)?;
    match token {
        Token::Word(word) => further_word(alloc, &word, at, cursor),
        other => Err(misplaced(None, &other, at)),
    }
}

/// Passes all further header entities and the end of the section.
#[tactic(auto, using(reading::proofs::Each::each_laws), unfolding(crate::specs::Headers::rest))]
fn rest_of_header<'a>(alloc: Global, cursor: &mut Cursor<'a>) -> Result<(), Stop<'a, P21Cause>>
    ensures { Gives (λ _. tt) result cursor.new (spec.rest cursor.old) }
{
    for _ in 0..cursor.turns() {
        if !further(alloc, cursor)? {
            return Ok(());
        }
    }
    Err(Stop::Refused(P21Cause::BadToken, cursor.rest()))
}

/// The text up to its first space, in upper case.
#[tactic(auto, using(std::proofs::lemmas::Grind::common_steps), unfolding(crate::specs::Headers::upper_word))]
fn upper_word(alloc: Global, text: &str) -> Result<Name, Memory>
    ensures { IfOk result (λ name. name ≡ spec.upper_word (chars text.now)) }
{
    let mut name = Name::new(alloc);
    let mut cursor = CharCursor::new(text);
    while let Some(c) = cursor.next() {
        if c == ' ' {
            return Ok(name);
        }
        add(&mut name, c.to_ascii_uppercase())?;
    }
    Ok(name)
}

/// The characters, where the value is a text.
fn text_of(value: &Value) -> Option<&Name>
    ensures { option_copied result ≡ spec.text_of value.now.node }
{
    match &value.node {
        ValueNode::Text(text) => Some(text),
        _ => None,
    }
}

/// The first text among the values, up to its first space, in upper case; empty where there is no text.
#[tactic(auto, unfolding(crate::specs::Headers::first_text, crate::specs::Headers::upper_word))]
fn first_text(alloc: Global, values: &[Value]) -> Result<Name, Memory>
    ensures { IfOk result (λ name. name ≡ spec.upper_word (spec.first_text values.now)) }
{
    let mut left = values;
    while let Some((first, behind)) = left.split_first() {
        if let Some(text) = text_of(first) {
            return upper_word(alloc, text.as_str());
        }
        left = behind;
    }
    Ok(Name::new(alloc))
}

/// The items, where the value is a list, else none.
#[tactic(auto, using(crate::proofs::Nodes::node_laws))]
fn items_of(value: &Value) -> &[Value]
    ensures { result.now ≡ spec.items_of value.now.node }
{
    match &value.node {
        ValueNode::List(items) => items.as_slice(),
        _ => &[],
    }
}

/// The schema id that the parameters of FILE_SCHEMA name.
#[tactic(auto, unfolding(crate::specs::Headers::schema_id))]
fn schema_id(alloc: Global, params: &[Value]) -> Result<Name, Memory>
    ensures { IfOk result (λ name. name ≡ spec.schema_id params.now) }
{
    match params.split_first() {
        None => Ok(Name::new(alloc)),
        Some((first, _)) => first_text(alloc, items_of(first)),
    }
}

/// The parameters of FILE_SCHEMA, behind the other two entities that a header must have.
#[tactic(auto, unfolding(crate::specs::Headers::entities))]
fn entities<'a>(alloc: Global, cursor: &mut Cursor<'a>) -> Result<Vec<Value>, Stop<'a, P21Cause>>
    ensures { Gives (λ params. params.items) result cursor.new (spec.entities cursor.old) }
{
    let _ = named(alloc, "FILE_DESCRIPTION", cursor)?;
    let _ = named(alloc, "FILE_NAME", cursor)?;
    named(alloc, "FILE_SCHEMA", cursor)
}

/// The header from the opening word on, up to the end of its section; it gives the schema id.
#[tactic(auto, unfolding(crate::specs::Headers::header))]
pub(crate) fn header<'a>(alloc: Global, cursor: &mut Cursor<'a>) -> Result<Name, Stop<'a, P21Cause>>
    ensures { Gives (λ name. name) result cursor.new (spec.header cursor.old) }
{
    opened(alloc, cursor)?;
    header_opened(alloc, cursor)?;
    let schema = entities(alloc, cursor)?;
    rest_of_header(alloc, cursor)?;
    Ok(schema_id(alloc, schema.as_slice())?)
}
