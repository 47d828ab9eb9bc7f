//! Instances of one entity, over tokens.

ghost use Rattle.std.specs.Prelude.{◌≡◌};
ghost use Rattle.reading.specs.Codes.{codes_of};
ghost use Rattle.reading.specs.Reading.{Gives, Yields};
ghost use Rattle.p21_read.specs.Instances as spec;
ghost use Rattle.p21_read.specs.Values.{series_view};

use crate::fault::P21Cause;
use crate::token::{Lexed, Token, next_token};
use crate::value::{MAX_DEPTH, Series, misplaced, read_series};
use ifc_base::{InstId, Instance, Listed, Name, Value};
use reading::{Cursor, Stop};
use std::alloc::Global;

/// An instance that was read, whose number and references may be out of range.
#[derive(Drop)]
pub(crate) struct Row<'a> {
    pub number: u32,
    /// Where its `#` stands.
    pub at: &'a [u8],
    pub entity: Name,
    pub params: Vec<Value>,
    /// Where the first reference in it begins that is out of range.
    pub late: Option<&'a [u8]>,
}

/// Takes a semicolon.
#[tactic(auto, unfolding(crate::specs::Instances::semicolon))]
pub(crate) fn semicolon<'a>(
    alloc: Global,
    cursor: &mut Cursor<'a>,
) -> Result<(), Stop<'a, P21Cause>>
    ensures { Gives (λ _. tt) result cursor.new (spec.semicolon cursor.old) }
{
    let next = next_token(alloc, cursor)?;
    match next.token {
        Token::Semicolon => Ok(()),
        other => Err(misplaced(None, &other, next.at)),
    }
}

/// Takes an equals sign.
#[tactic(auto, unfolding(crate::specs::Instances::equals))]
fn equals<'a>(alloc: Global, cursor: &mut Cursor<'a>) -> Result<(), Stop<'a, P21Cause>>
    ensures { Gives (λ _. tt) result cursor.new (spec.equals cursor.old) }
{
    let next = next_token(alloc, cursor)?;
    match next.token {
        Token::Equals => Ok(()),
        other => Err(misplaced(None, &other, next.at)),
    }
}

/// Takes an opening parenthesis, and says where it stands.
#[tactic(auto, unfolding(crate::specs::Instances::opening))]
pub(crate) fn opening<'a>(
    alloc: Global,
    cursor: &mut Cursor<'a>,
) -> Result<&'a [u8], Stop<'a, P21Cause>>
    ensures { Gives (λ at. codes_of at.now) result cursor.new (spec.opening cursor.old) }
{
    let next = next_token(alloc, cursor)?;
    match next.token {
        Token::Open => Ok(next.at),
        other => Err(misplaced(None, &other, next.at)),
    }
}

/// The keyword of an instance.
#[tactic(auto, unfolding(crate::specs::Instances::entity))]
fn entity<'a>(alloc: Global, cursor: &mut Cursor<'a>) -> Result<Name, Stop<'a, P21Cause>>
    ensures { Gives (λ name. name) result cursor.new (spec.entity cursor.old) }
{
    let Lexed { token, at } = next_token(alloc, cursor)?;
    match token {
        Token::Word(word) => {
            if !word.plain {
                return Err(Stop::Refused(P21Cause::BadToken, at));
            }
            Ok(word.name)
        }
        Token::Open => Err(Stop::Refused(P21Cause::ComplexInstance, at)),
        other => Err(misplaced(None, &other, at)),
    }
}

/// The parameters behind the parenthesis at `at`, and the semicolon behind them.
#[tactic(auto, unfolding(crate::specs::Instances::closed))]
pub(crate) fn closed<'a>(
    alloc: Global,
    at: &'a [u8],
    cursor: &mut Cursor<'a>,
) -> Result<Series<'a>, Stop<'a, P21Cause>>
    ensures { Gives series_view result cursor.new (spec.closed (codes_of at.now) cursor.old) }
{
    let params = read_series(alloc, MAX_DEPTH, at, cursor)?;
    semicolon(alloc, cursor)?;
    Ok(params)
}

/// The instance behind whose number, at `at`, the cursor stands.
#[tactic(auto, unfolding(crate::specs::Instances::row))]
pub(crate) fn read_row<'a>(
    alloc: Global,
    number: u32,
    at: &'a [u8],
    cursor: &mut Cursor<'a>,
) -> Result<Row<'a>, Stop<'a, P21Cause>>
    ensures { Gives spec.row_view result cursor.new (spec.row number (codes_of at.now) cursor.old) }
{
    equals(alloc, cursor)?;
    let entity = entity(alloc, cursor)?;
    let start = opening(alloc, cursor)?;
    let params = closed(alloc, start, cursor)?;
    Ok(Row {
        number,
        at,
        entity,
        params: params.values,
        late: params.late,
    })
}

/// The instance, if its number and the references in it are in range.
#[tactic(auto, unfolding(crate::specs::Instances::instance_of))]
pub(crate) fn instance_of<'a>(row: Row<'a>) -> Result<Instance, Stop<'a, P21Cause>>
    ensures { Yields (λ x. x) result (spec.instance_of (spec.row_view row.entry)) }
{
    let Row {
        number,
        at,
        entity,
        params,
        late,
    } = row;
    let Some(id) = InstId::new(number) else {
        return Err(Stop::Refused(P21Cause::IdRange, at));
    };
    match late {
        None => Ok(Instance {
            id,
            entity,
            params: Listed::from_vec(params),
        }),
        Some(reference) => Err(Stop::Refused(P21Cause::IdRange, reference)),
    }
}

/// One instance and nothing else.
#[tactic(auto, unfolding(crate::specs::Instances::whole_instance))]
pub(crate) fn whole_instance(alloc: Global, bytes: &[u8]) -> Result<Instance, Stop<'_, P21Cause>>
    ensures { Yields (λ x. x) result (spec.whole_instance (codes_of bytes.now)) }
{
    let mut cursor = Cursor::new(bytes);
    let first = next_token(alloc, &mut cursor)?;
    let row = match first.token {
        Token::Id(number) => read_row(alloc, number, first.at, &mut cursor)?,
        other => return Err(misplaced(None, &other, first.at)),
    };
    let end = next_token(alloc, &mut cursor)?;
    match end.token {
        Token::End => instance_of(row),
        other => Err(misplaced(None, &other, end.at)),
    }
}
