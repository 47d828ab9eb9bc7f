//! Schemas, from bytes to declarations.

ghost use Rattle.std.specs.Prelude.{◌≡◌, Ok, IfOk};
ghost use Rattle.std.specs.Option.{option_map};
ghost use Rattle.reading.specs.Codes.{codes_of};
ghost use Rattle.reading.specs.Lines.{Answers};
ghost use Rattle.reading.specs.Reading.{Gives, Yields};
ghost use Rattle.express_decl.specs.declared.decl.Decls.{Decls};
ghost use Rattle.express_decl.specs.Grammar.{Declares};
ghost use Rattle.express_decl.specs.Schemas as spec;
ghost use Rattle.express_decl.specs.Tokens.{lexed_view, token_view};

use crate::decl::{DeclCause, DeclFault, Decls};
use crate::entity::entity;
use crate::step::{keyword, next, sign, to_word, type_text, word};
use crate::token::{Lexed, Token, next_token};
use crate::word::{keep, says, upper};
use ifc_base::{EntityDecls, Refusal, TypeDecl, TypeDecls};
use reading::{Cursor, Stop, answer};
use std::alloc::Global;

/// Reads `[WHERE text] END_TYPE`, of which `found` is the first token.
#[tactic(auto, unfolding(crate::specs::Schemas::type_end))]
fn type_end<'a>(
    alloc: Global,
    cursor: &mut Cursor<'a>,
    opened: &'a [u8],
    found: Lexed<'a>,
) -> Result<(), Stop<'a, DeclCause>>
    ensures { Gives (λ _. tt) result cursor.new (spec.type_end (codes_of opened.now) (lexed_view found.entry) cursor.old) }
{
    if says(found.token, b"END_TYPE") {
        return Ok(());
    }
    if says(found.token, b"WHERE") {
        return to_word(alloc, cursor, opened, b"END_TYPE");
    }
    Err(Stop::Refused(DeclCause::Unexpected, found.at))
}

/// Reads a type behind the word TYPE, which stands at `opened`.
#[tactic(auto, unfolding(crate::specs::Schemas::type_decl))]
fn type_decl<'a>(
    alloc: Global,
    cursor: &mut Cursor<'a>,
    opened: &'a [u8],
) -> Result<TypeDecl, Stop<'a, DeclCause>>
    ensures { Gives (λ type_. type_) result cursor.new (spec.type_decl (codes_of opened.now) cursor.old) }
{
    let name = word(alloc, cursor, opened)?;
    sign(alloc, cursor, opened, '=')?;
    type_text(alloc, cursor, opened)?;
    let found = next(alloc, cursor, opened)?;
    type_end(alloc, cursor, opened, found)?;
    sign(alloc, cursor, opened, ';')?;
    Ok(TypeDecl {
        name: upper(alloc, name)?,
    })
}

/// The word that ends the block which this token begins, if it begins one that is skipped.
#[tactic(auto, unfolding(crate::specs::Schemas::block_end))]
fn block_end(token: Token<'_>) -> Option<&'static [u8]>
    ensures { option_map (λ word. word.now) result ≡ spec.block_end (token_view token.entry) }
{
    if says(token, b"FUNCTION") {
        return Some(b"END_FUNCTION");
    }
    if says(token, b"RULE") {
        return Some(b"END_RULE");
    }
    if says(token, b"PROCEDURE") {
        return Some(b"END_PROCEDURE");
    }
    if says(token, b"CONSTANT") {
        return Some(b"END_CONSTANT");
    }
    None
}

/// Skips the block that begins with this token.
#[tactic(auto, unfolding(crate::specs::Schemas::block))]
fn block<'a>(
    alloc: Global,
    cursor: &mut Cursor<'a>,
    first: Lexed<'a>,
) -> Result<(), Stop<'a, DeclCause>>
    ensures { Gives (λ _. tt) result cursor.new (spec.block_or_none (spec.block_end (lexed_view first.entry).token)
        (lexed_view first.entry).at cursor.old) }
{
    let Some(end) = block_end(first.token) else {
        return Err(Stop::Refused(DeclCause::Unexpected, first.at));
    };
    to_word(alloc, cursor, first.at, end)?;
    sign(alloc, cursor, first.at, ';')
}

/// Reads one declaration that begins with this token, or the word that ends the schema; whether to go on.
#[tactic(auto, unfolding(crate::specs::Schemas::declaration))]
fn declaration<'a>(
    alloc: Global,
    cursor: &mut Cursor<'a>,
    decls: &mut Decls,
    first: Lexed<'a>,
) -> Result<bool, Stop<'a, DeclCause>>
    ensures { Gives (λ more. (more, decls.new)) result cursor.new (spec.declaration decls.old
        (lexed_view first.entry) cursor.old) }
{
    if says(first.token, b"ENTITY") {
        keep(&mut decls.entities, entity(alloc, cursor, first.at)?)?;
        return Ok(true);
    }
    if says(first.token, b"TYPE") {
        keep(&mut decls.types, type_decl(alloc, cursor, first.at)?)?;
        return Ok(true);
    }
    if says(first.token, b"END_SCHEMA") {
        return Ok(false);
    }
    block(alloc, cursor, first)?;
    Ok(true)
}

/// Reads the declarations of the schema that began at `opened`, up to END_SCHEMA.
#[tactic(auto, using(reading::proofs::Each::each_laws), unfolding(crate::specs::Schemas::declarations))]
fn declarations<'a>(
    alloc: Global,
    cursor: &mut Cursor<'a>,
    opened: &'a [u8],
) -> Result<Decls, Stop<'a, DeclCause>>
    ensures { Gives (λ decls. decls) result cursor.new (spec.declarations (codes_of opened.now) cursor.old) }
{
    let mut decls = Decls {
        entities: EntityDecls::new(alloc),
        types: TypeDecls::new(alloc),
    };
    for _ in 0..cursor.turns() {
        let first = next(alloc, cursor, opened)?;
        if !declaration(alloc, cursor, &mut decls, first)? {
            return Ok(decls);
        }
    }
    Err(Stop::Refused(DeclCause::Unexpected, cursor.rest()))
}

/// Reads a whole text.
#[tactic(auto, using(reading::proofs::Codes::at_end), unfolding(crate::specs::Schemas::whole))]
fn whole(alloc: Global, bytes: &[u8]) -> Result<Decls, Stop<'_, DeclCause>>
    ensures { Yields (λ decls. decls) result (spec.whole (codes_of bytes.now)) }
{
    let end = &bytes[bytes.len()..];
    let mut cursor = Cursor::new(bytes);
    let opened = keyword(alloc, &mut cursor, end, b"SCHEMA")?;
    let _ = word(alloc, &mut cursor, end)?;
    sign(alloc, &mut cursor, end, ';')?;
    let decls = declarations(alloc, &mut cursor, opened)?;
    sign(alloc, &mut cursor, opened, ';')?;
    match next_token(alloc, &mut cursor)? {
        None => Ok(decls),
        Some(found) => Err(Stop::Refused(DeclCause::Unexpected, found.at)),
    }
}

/// Reads the declarations of a schema: `SCHEMA name;`, entities, types and blocks that are skipped, `END_SCHEMA;`. `O(n)`.
///
/// Names of entities and types are kept in upper case, names of attributes as written. What blocks, types and sections say is
/// passed over, but for the names that DERIVE redeclares. Words are the same in either case. Remarks and parentheses may nest as
/// deep as memory allows. The grammar is that of ISO 10303-11 (schema, entity and type declarations), cut to what is kept.
pub fn read_declarations(alloc: Global, bytes: &[u8]) -> Result<Decls, Refusal<DeclFault>>
    // What is read is what the bytes declare.
    ensures found { IfOk result (λ decls. Declares bytes.now decls) }
    // What the bytes declare is read, unless memory runs out.
    ensures only { (declared : Decls) → Declares bytes.now declared → Answers (λ decls. decls) result (Ok declared) }
    // Which fault it is, and in which line.
    ensures exact { Answers (λ decls. decls) result (spec.reading bytes.now) }
{
    answer(bytes, whole(alloc, bytes))
}
