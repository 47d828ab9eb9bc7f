//! The attributes of an entity and its sections.

ghost use Rattle.std.specs.Prelude.{◌≡◌, ◌++◌, ◌∷◌, [], MatchResult};
ghost use Rattle.reading.specs.Codes.{codes_of};
ghost use Rattle.reading.specs.Reading.{Gives};
ghost use Rattle.reading.specs.declared.stop.Stop.TheVariants as stop;
ghost use Rattle.express_decl.specs.Entities as spec;
ghost use Rattle.express_decl.specs.Tokens.{lexed_view, token_view};

use crate::decl::DeclCause;
use crate::step::{next, sign, type_text, word};
use crate::token::{Lexed, Token};
use crate::word::{is_sign, keep, says, written};
use ifc_base::Names;
use reading::{Cursor, Stop};
use std::alloc::Global;

/// What a token begins.
#[derive(Clone, Copy)]
pub(crate) enum Heading {
    /// The end of the entity.
    End,
    /// The section DERIVE.
    Derive,
    /// The section INVERSE, UNIQUE or WHERE.
    Other,
    /// None of these.
    Plain,
}

/// How far a line of DERIVE has begun with `SELF\E.a`.
#[derive(Clone, Copy)]
pub(crate) enum Line {
    /// The line is to begin.
    Start,
    /// Behind `SELF`.
    AfterSelf,
    /// Behind `SELF\`.
    AfterBackslash,
    /// Behind `SELF\E`.
    AfterEntity,
    /// Behind `SELF\E.`.
    AfterDot,
    /// Behind `SELF\E.a`, or it doesn't begin so.
    Rest,
}

/// The part of an entity's body that is read.
#[derive(Clone, Copy)]
pub(crate) enum Section {
    Attributes,
    Derive(Line),
    Other,
}

/// What was read of an entity's body, and the part that is read.
#[derive(Drop)]
pub(crate) struct Body {
    pub own: Names,
    pub derived: Names,
    pub section: Section,
}

/// What the token begins.
#[tactic(auto, unfolding(crate::specs::Entities::heading_of))]
fn heading_of(token: Token<'_>) -> Heading
    ensures { result ≡ spec.heading_of (token_view token.entry) }
{
    if says(token, b"END_ENTITY") {
        return Heading::End;
    }
    if says(token, b"DERIVE") {
        return Heading::Derive;
    }
    if says(token, b"INVERSE") || says(token, b"UNIQUE") || says(token, b"WHERE") {
        return Heading::Other;
    }
    Heading::Plain
}

/// Passes a comma and adds the name behind it, or passes the colon behind the names; whether to go on.
#[tactic(auto, unfolding(crate::specs::Entities::name_turn))]
fn name_turn<'a>(
    alloc: Global,
    cursor: &mut Cursor<'a>,
    opened: &'a [u8],
    own: &mut Names,
) -> Result<bool, Stop<'a, DeclCause>>
    ensures { Gives (λ more. (more, own.new)) result cursor.new (spec.name_turn (codes_of opened.now) own.old cursor.old) }
{
    let found = next(alloc, cursor, opened)?;
    if is_sign(found.token, ',') {
        let name = word(alloc, cursor, opened)?;
        keep(own, written(alloc, name)?)?;
        return Ok(true);
    }
    if is_sign(found.token, ':') {
        return Ok(false);
    }
    Err(Stop::Refused(DeclCause::Unexpected, found.at))
}

/// Adds the names of a line of attributes, behind its first name.
#[tactic(auto, using(reading::proofs::Each::each_laws), unfolding(crate::specs::Entities::attributes))]
fn attributes<'a>(
    alloc: Global,
    cursor: &mut Cursor<'a>,
    opened: &'a [u8],
    own: &mut Names,
    first: &[u8],
) -> Result<(), Stop<'a, DeclCause>>
    ensures { Gives (λ _. own.new) result cursor.new (spec.attributes (codes_of opened.now) own.old first.now cursor.old) }
{
    keep(own, written(alloc, first)?)?;
    for _ in 0..cursor.turns() {
        if !name_turn(alloc, cursor, opened, own)? {
            return type_text(alloc, cursor, opened);
        }
    }
    Err(Stop::Refused(DeclCause::Unexpected, cursor.rest()))
}

/// Passes a line that redeclares an attribute, behind `SELF\`.
#[tactic(auto, unfolding(crate::specs::Entities::redeclared))]
fn redeclared<'a>(
    alloc: Global,
    cursor: &mut Cursor<'a>,
    opened: &'a [u8],
    own: &Names,
) -> Result<(), Stop<'a, DeclCause>>
    ensures { Gives (λ _. own.now) result cursor.new (spec.redeclared (codes_of opened.now) own.now cursor.old) }
{
    let _ = word(alloc, cursor, opened)?;
    sign(alloc, cursor, opened, '.')?;
    let _ = word(alloc, cursor, opened)?;
    sign(alloc, cursor, opened, ':')?;
    type_text(alloc, cursor, opened)
}

/// Reads a line behind its first word SELF, which is a name where no backslash follows.
#[tactic(auto, unfolding(crate::specs::Entities::self_line))]
fn self_line<'a>(
    alloc: Global,
    cursor: &mut Cursor<'a>,
    opened: &'a [u8],
    own: &mut Names,
    first: &[u8],
) -> Result<(), Stop<'a, DeclCause>>
    ensures { Gives (λ _. own.new) result cursor.new (spec.self_line (codes_of opened.now) own.old first.now cursor.old) }
{
    let mut ahead = Cursor::new(cursor.rest());
    let found = next(alloc, &mut ahead, opened)?;
    if is_sign(found.token, '\\') {
        *cursor = ahead;
        return redeclared(alloc, cursor, opened, own);
    }
    attributes(alloc, cursor, opened, own, first)
}

/// Reads a line of the attributes that begins with this token.
#[tactic(auto, unfolding(crate::specs::Entities::attribute_line))]
fn attribute_line<'a>(
    alloc: Global,
    cursor: &mut Cursor<'a>,
    opened: &'a [u8],
    own: &mut Names,
    first: Lexed<'a>,
) -> Result<(), Stop<'a, DeclCause>>
    ensures { Gives (λ _. own.new) result cursor.new (spec.attribute_line (codes_of opened.now) own.old
        (lexed_view first.entry) cursor.old) }
{
    match first.token {
        Token::Word(word) => {
            if says(first.token, b"SELF") {
                return self_line(alloc, cursor, opened, own, word);
            }
            attributes(alloc, cursor, opened, own, word)
        }
        _ => Err(Stop::Refused(DeclCause::Unexpected, first.at)),
    }
}

/// How far a line of DERIVE has begun with `SELF\E.a`, behind one token more.
#[tactic(auto, unfolding(crate::specs::Entities::line_after))]
fn line_after(line: Line, token: Token<'_>) -> Line
    ensures { result ≡ spec.line_after line (token_view token.entry) }
{
    if is_sign(token, ';') {
        return Line::Start;
    }
    match (line, token) {
        (Line::Start, _) if says(token, b"SELF") => Line::AfterSelf,
        (Line::AfterSelf, _) if is_sign(token, '\\') => Line::AfterBackslash,
        (Line::AfterBackslash, Token::Word(_)) => Line::AfterEntity,
        (Line::AfterEntity, _) if is_sign(token, '.') => Line::AfterDot,
        _ => Line::Rest,
    }
}

/// Reads one token more of DERIVE.
#[tactic(auto, unfolding(crate::specs::Entities::derive_step))]
fn derive_step<'a>(
    alloc: Global,
    body: &mut Body,
    line: Line,
    token: Token<'_>,
) -> Result<(), Stop<'a, DeclCause>>
    ensures { MatchResult result (λ _. body.new ≡ spec.derive_step body.old line (token_view token.entry))
        (λ stopped. stopped ≡ stop.Memory) }
{
    if let (Line::AfterDot, Token::Word(word)) = (line, token) {
        keep(&mut body.derived, written(alloc, word)?)?;
    }
    body.section = Section::Derive(line_after(line, token));
    Ok(())
}

/// Reads a line of the attributes, or a token of a section, or a word that begins a section or ends the entity; whether to go on.
#[tactic(auto, unfolding(crate::specs::Entities::body_turn))]
fn body_turn<'a>(
    alloc: Global,
    cursor: &mut Cursor<'a>,
    opened: &'a [u8],
    body: &mut Body,
) -> Result<bool, Stop<'a, DeclCause>>
    ensures { Gives (λ more. (more, body.new)) result cursor.new (spec.body_turn (codes_of opened.now) body.old cursor.old) }
{
    let first = next(alloc, cursor, opened)?;
    match heading_of(first.token) {
        Heading::End => return Ok(false),
        Heading::Derive => body.section = Section::Derive(Line::Start),
        Heading::Other => body.section = Section::Other,
        Heading::Plain => match body.section {
            Section::Attributes => attribute_line(alloc, cursor, opened, &mut body.own, first)?,
            Section::Derive(line) => derive_step(alloc, body, line, first.token)?,
            Section::Other => {}
        },
    }
    Ok(true)
}

/// Reads the attributes and sections of an entity, up to END_ENTITY.
#[tactic(auto, using(reading::proofs::Each::each_laws), unfolding(crate::specs::Entities::body))]
pub(crate) fn entity_body<'a>(
    alloc: Global,
    cursor: &mut Cursor<'a>,
    opened: &'a [u8],
) -> Result<Body, Stop<'a, DeclCause>>
    ensures { Gives (λ body. body) result cursor.new (spec.body (codes_of opened.now) cursor.old) }
{
    let mut body = Body {
        own: Names::new(alloc),
        derived: Names::new(alloc),
        section: Section::Attributes,
    };
    for _ in 0..cursor.turns() {
        if !body_turn(alloc, cursor, opened, &mut body)? {
            return Ok(body);
        }
    }
    Err(Stop::Refused(DeclCause::Unexpected, cursor.rest()))
}
