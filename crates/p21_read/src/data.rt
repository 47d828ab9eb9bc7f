//! The data sections of a file.

ghost use Rattle.std.specs.Prelude.{◌≡◌, []};
ghost use Rattle.reading.specs.Codes.{codes_of};
ghost use Rattle.reading.specs.Reading.{Gives};
ghost use Rattle.p21_read.specs.Files as spec;
ghost use Rattle.p21_read.specs.Headers.{section_word};

use crate::fault::P21Cause;
use crate::gathered::Gathered;
use crate::instance::{closed, instance_of, read_row, semicolon};
use crate::section::{SectionWord, next_heading, section_word};
use crate::token::{Lexed, Token, next_token};
use crate::value::misplaced;
use crate::word::Word;
use reading::{Cursor, Stop};
use std::alloc::Global;

/// Adds the instance behind whose number, at `at`, the cursor stands.
#[tactic(auto, unfolding(crate::specs::Files::instance))]
fn instance<'a>(
    alloc: Global,
    most: u32,
    number: u32,
    at: &'a [u8],
    cursor: &mut Cursor<'a>,
    gathered: &mut Gathered,
) -> Result<(), Stop<'a, P21Cause>>
    ensures { Gives (λ _. gathered.new) result cursor.new
        (spec.instance most gathered.old number (codes_of at.now) cursor.old) }
{
    let row = read_row(alloc, number, at, cursor)?;
    let instance = instance_of(row)?;
    gathered.add(most, at, instance)
}

/// Takes the end of the section, whose word stands at `at`.
fn section_end<'a>(
    alloc: Global,
    word: &Word,
    at: &'a [u8],
    cursor: &mut Cursor<'a>,
    gathered: &Gathered,
) -> Result<bool, Stop<'a, P21Cause>>
    ensures { Gives (λ more. (more, gathered.now)) result cursor.new
        (spec.data_word gathered.now (section_word word.now) (codes_of at.now) cursor.old) }
{
    match section_word(word) {
        SectionWord::EndSection => {
            semicolon(alloc, cursor)?;
            Ok(false)
        }
        _ => Err(Stop::Refused(P21Cause::BadToken, at)),
    }
}

/// Adds a further instance, or takes the end of the section; whether to go on.
#[tactic(auto, unfolding(crate::specs::Files::data_turn))]
fn data_turn<'a>(
    alloc: Global,
    most: u32,
    cursor: &mut Cursor<'a>,
    gathered: &mut Gathered,
) -> Result<bool, Stop<'a, P21Cause>>
    ensures { Gives (λ more. (more, gathered.new)) result cursor.new (spec.data_turn most gathered.old cursor.old) }
{
    let Lexed { token, at } = next_token(alloc, cursor)?;
    match token {
        Token::Id(number) => {
            instance(alloc, most, number, at, cursor, gathered)?;
            Ok(true)
        }
        Token::Word(word) => section_end(alloc, &word, at, cursor, gathered),
        other => Err(misplaced(None, &other, at)),
    }
}

/// Takes the parameters of a data section, whose parenthesis stands at `at`.
#[tactic(auto, unfolding(crate::specs::Files::data_parameters))]
fn data_parameters<'a>(
    alloc: Global,
    at: &'a [u8],
    cursor: &mut Cursor<'a>,
) -> Result<(), Stop<'a, P21Cause>>
    ensures { Gives (λ _. tt) result cursor.new (spec.data_parameters (codes_of at.now) cursor.old) }
{
    let params = closed(alloc, at, cursor)?;
    match params.late {
        None => Ok(()),
        Some(reference) => Err(Stop::Refused(P21Cause::IdRange, reference)),
    }
}

/// Takes what stands between `DATA` and the first instance.
#[tactic(auto, unfolding(crate::specs::Files::data_open))]
fn data_open<'a>(alloc: Global, cursor: &mut Cursor<'a>) -> Result<(), Stop<'a, P21Cause>>
    ensures { Gives (λ _. tt) result cursor.new (spec.data_open cursor.old) }
{
    let next = next_token(alloc, cursor)?;
    match next.token {
        Token::Semicolon => Ok(()),
        Token::Open => data_parameters(alloc, next.at, cursor),
        other => Err(misplaced(None, &other, next.at)),
    }
}

/// Adds the instances of the section behind whose word `DATA` the cursor stands.
#[tactic(auto, using(reading::proofs::Each::each_laws), unfolding(crate::specs::Files::data_section))]
fn data_section<'a>(
    alloc: Global,
    most: u32,
    cursor: &mut Cursor<'a>,
    gathered: &mut Gathered,
) -> Result<(), Stop<'a, P21Cause>>
    ensures { Gives (λ _. gathered.new) result cursor.new (spec.data_section most gathered.old cursor.old) }
{
    data_open(alloc, cursor)?;
    for _ in 0..cursor.turns() {
        if !data_turn(alloc, most, cursor, gathered)? {
            return Ok(());
        }
    }
    Err(Stop::Refused(P21Cause::BadToken, cursor.rest()))
}

/// Adds the instances of the first data section.
#[tactic(auto, unfolding(crate::specs::Files::first_section))]
fn first_section<'a>(
    alloc: Global,
    most: u32,
    cursor: &mut Cursor<'a>,
    gathered: &mut Gathered,
) -> Result<(), Stop<'a, P21Cause>>
    requires { gathered.old ≡ [] }
    ensures { Gives (λ _. gathered.new) result cursor.new (spec.first_section most cursor.old) }
{
    let section = next_heading(alloc, cursor)?;
    match section.word {
        SectionWord::Data => data_section(alloc, most, cursor, gathered),
        SectionWord::Foreign => Err(Stop::Refused(P21Cause::OtherSection, section.at)),
        _ => Err(Stop::Refused(P21Cause::BadToken, section.at)),
    }
}

/// Adds the instances of a further data section, or takes the closing word; whether to go on.
#[tactic(auto, unfolding(crate::specs::Files::section_turn))]
fn section_turn<'a>(
    alloc: Global,
    most: u32,
    cursor: &mut Cursor<'a>,
    gathered: &mut Gathered,
) -> Result<bool, Stop<'a, P21Cause>>
    ensures { Gives (λ more. (more, gathered.new)) result cursor.new (spec.section_turn most gathered.old cursor.old) }
{
    let section = next_heading(alloc, cursor)?;
    match section.word {
        SectionWord::Data => {
            data_section(alloc, most, cursor, gathered)?;
            Ok(true)
        }
        SectionWord::Closing => {
            semicolon(alloc, cursor)?;
            Ok(false)
        }
        SectionWord::Foreign => Err(Stop::Refused(P21Cause::OtherSection, section.at)),
        _ => Err(Stop::Refused(P21Cause::BadToken, section.at)),
    }
}

/// The instances of all data sections, up to the closing word.
#[tactic(auto, using(reading::proofs::Each::each_laws), unfolding(crate::specs::Files::sections))]
pub(crate) fn sections<'a>(
    alloc: Global,
    most: u32,
    cursor: &mut Cursor<'a>,
) -> Result<Gathered, Stop<'a, P21Cause>>
    ensures { Gives (λ gathered. gathered) result cursor.new (spec.sections most cursor.old) }
{
    let mut gathered = Gathered::new(alloc);
    first_section(alloc, most, cursor, &mut gathered)?;
    for _ in 0..cursor.turns() {
        if !section_turn(alloc, most, cursor, &mut gathered)? {
            return Ok(gathered);
        }
    }
    Err(Stop::Refused(P21Cause::BadToken, cursor.rest()))
}
