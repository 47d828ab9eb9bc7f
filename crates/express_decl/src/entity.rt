//! Entities, from the word ENTITY to the semicolon behind END_ENTITY.

ghost use Rattle.reading.specs.Codes.{codes_of};
ghost use Rattle.reading.specs.Reading.{Gives};
ghost use Rattle.express_decl.specs.Entities as spec;
ghost use Rattle.express_decl.specs.Tokens.{lexed_view};

use crate::decl::DeclCause;
use crate::section::entity_body;
use crate::step::{in_parentheses, keyword, next, sign, word};
use crate::token::Lexed;
use crate::word::{is_sign, says, upper};
use ifc_base::{EntityDecl, Name};
use reading::{Cursor, Stop};
use std::alloc::Global;

/// Reads `[ABSTRACT]`, of which `found` is the first token or the one behind it: whether it is there, and the token behind it.
#[tactic(auto, unfolding(crate::specs::Entities::abstract_part))]
fn abstract_part<'a>(
    alloc: Global,
    cursor: &mut Cursor<'a>,
    opened: &'a [u8],
    found: Lexed<'a>,
) -> Result<(bool, Lexed<'a>), Stop<'a, DeclCause>>
    ensures { Gives (λ part. (part.0, lexed_view part.1)) result cursor.new (spec.abstract_part (codes_of opened.now)
        (lexed_view found.entry) cursor.old) }
{
    if says(found.token, b"ABSTRACT") {
        return Ok((true, next(alloc, cursor, opened)?));
    }
    Ok((false, found))
}

/// Reads `[OF (text)]`; gives the token behind it.
#[tactic(auto, unfolding(crate::specs::Entities::subtypes_part))]
fn subtypes_part<'a>(
    alloc: Global,
    cursor: &mut Cursor<'a>,
    opened: &'a [u8],
    found: Lexed<'a>,
) -> Result<Lexed<'a>, Stop<'a, DeclCause>>
    ensures { Gives lexed_view result cursor.new (spec.subtypes_part (codes_of opened.now) (lexed_view found.entry) cursor.old) }
{
    if !says(found.token, b"OF") {
        return Ok(found);
    }
    sign(alloc, cursor, opened, '(')?;
    in_parentheses(alloc, cursor, opened)?;
    next(alloc, cursor, opened)
}

/// Reads `[SUPERTYPE [OF (text)]]`; gives the token behind it.
#[tactic(auto, unfolding(crate::specs::Entities::supertype_part))]
fn supertype_part<'a>(
    alloc: Global,
    cursor: &mut Cursor<'a>,
    opened: &'a [u8],
    found: Lexed<'a>,
) -> Result<Lexed<'a>, Stop<'a, DeclCause>>
    ensures { Gives lexed_view result cursor.new (spec.supertype_part (codes_of opened.now) (lexed_view found.entry) cursor.old) }
{
    if !says(found.token, b"SUPERTYPE") {
        return Ok(found);
    }
    let behind = next(alloc, cursor, opened)?;
    subtypes_part(alloc, cursor, opened, behind)
}

/// Reads `OF (m);` behind SUBTYPE; gives the supertype m.
#[tactic(auto, unfolding(crate::specs::Entities::parent))]
fn parent<'a>(
    alloc: Global,
    cursor: &mut Cursor<'a>,
    opened: &'a [u8],
) -> Result<Name, Stop<'a, DeclCause>>
    ensures { Gives (λ name. name) result cursor.new (spec.parent (codes_of opened.now) cursor.old) }
{
    let _ = keyword(alloc, cursor, opened, b"OF")?;
    sign(alloc, cursor, opened, '(')?;
    let parent = word(alloc, cursor, opened)?;
    let found = next(alloc, cursor, opened)?;
    if is_sign(found.token, ')') {
        sign(alloc, cursor, opened, ';')?;
        return Ok(upper(alloc, parent)?);
    }
    if is_sign(found.token, ',') {
        return Err(Stop::Refused(DeclCause::ManySupertypes, found.at));
    }
    Err(Stop::Refused(DeclCause::Unexpected, found.at))
}

/// Reads `[SUBTYPE OF (m)];`, of which `found` is the first token; gives the supertype m, if there is one.
#[tactic(auto, unfolding(crate::specs::Entities::parent_part))]
fn parent_part<'a>(
    alloc: Global,
    cursor: &mut Cursor<'a>,
    opened: &'a [u8],
    found: Lexed<'a>,
) -> Result<Option<Name>, Stop<'a, DeclCause>>
    ensures { Gives (λ name. name) result cursor.new (spec.parent_part (codes_of opened.now)
        (lexed_view found.entry) cursor.old) }
{
    if says(found.token, b"SUBTYPE") {
        return Ok(Some(parent(alloc, cursor, opened)?));
    }
    if is_sign(found.token, ';') {
        return Ok(None);
    }
    Err(Stop::Refused(DeclCause::Unexpected, found.at))
}

/// Reads an entity behind the word ENTITY, which stands at `opened`.
#[tactic(auto, unfolding(crate::specs::Entities::entity))]
pub(crate) fn entity<'a>(
    alloc: Global,
    cursor: &mut Cursor<'a>,
    opened: &'a [u8],
) -> Result<EntityDecl, Stop<'a, DeclCause>>
    ensures { Gives (λ entity. entity) result cursor.new (spec.entity (codes_of opened.now) cursor.old) }
{
    let name = word(alloc, cursor, opened)?;
    let found = next(alloc, cursor, opened)?;
    let (is_abstract, found) = abstract_part(alloc, cursor, opened, found)?;
    let found = supertype_part(alloc, cursor, opened, found)?;
    let parent = parent_part(alloc, cursor, opened, found)?;
    let body = entity_body(alloc, cursor, opened)?;
    sign(alloc, cursor, opened, ';')?;
    Ok(EntityDecl {
        name: upper(alloc, name)?,
        parent,
        is_abstract,
        own: body.own,
        derived: body.derived,
    })
}
