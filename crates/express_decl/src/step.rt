//! Steps that the grammar of declarations is made of. Each stands within a construct that began at `opened`, which is what is
//! unclosed where the input ends.

ghost use Rattle.std.specs.Prelude.{◌≡◌, ◌+◌, ◌^◌, ◌<◌, ◌≤◌, true, false};
ghost use Rattle.reading.specs.Codes.{codes_of};
ghost use Rattle.reading.specs.Reading.{Gives};
ghost use Rattle.express_decl.specs.Steps as spec;
ghost use Rattle.express_decl.specs.Tokens.{lexed_view};

use crate::decl::DeclCause;
use crate::token::{Lexed, Token, next_token};
use crate::word::{is_sign, says};
use reading::{Cursor, Stop};
use std::alloc::Global;

/// The next token.
#[tactic(auto, unfolding(crate::specs::Steps::next))]
pub(crate) fn next<'a>(
    alloc: Global,
    cursor: &mut Cursor<'a>,
    opened: &'a [u8],
) -> Result<Lexed<'a>, Stop<'a, DeclCause>>
    ensures { Gives lexed_view result cursor.new (spec.next (codes_of opened.now) cursor.old) }
{
    match next_token(alloc, cursor)? {
        Some(lexed) => Ok(lexed),
        None => Err(Stop::Refused(DeclCause::Unclosed, opened)),
    }
}

/// The next token, which must be a word.
#[tactic(auto, unfolding(crate::specs::Steps::word))]
pub(crate) fn word<'a>(
    alloc: Global,
    cursor: &mut Cursor<'a>,
    opened: &'a [u8],
) -> Result<&'a [u8], Stop<'a, DeclCause>>
    ensures { Gives (λ word. word.now) result cursor.new (spec.word (codes_of opened.now) cursor.old) }
{
    let found = next(alloc, cursor, opened)?;
    match found.token {
        Token::Word(word) => Ok(word),
        _ => Err(Stop::Refused(DeclCause::Unexpected, found.at)),
    }
}

/// Where the next token begins, which must be this word.
#[tactic(auto, unfolding(crate::specs::Steps::keyword))]
pub(crate) fn keyword<'a>(
    alloc: Global,
    cursor: &mut Cursor<'a>,
    opened: &'a [u8],
    wanted: &[u8],
) -> Result<&'a [u8], Stop<'a, DeclCause>>
    ensures { Gives (λ at. codes_of at.now) result cursor.new (spec.keyword wanted.now (codes_of opened.now) cursor.old) }
{
    let found = next(alloc, cursor, opened)?;
    if says(found.token, wanted) {
        return Ok(found.at);
    }
    Err(Stop::Refused(DeclCause::Unexpected, found.at))
}

/// Passes this character, which must come next.
#[tactic(auto, unfolding(crate::specs::Steps::sign))]
pub(crate) fn sign<'a>(
    alloc: Global,
    cursor: &mut Cursor<'a>,
    opened: &'a [u8],
    wanted: char,
) -> Result<(), Stop<'a, DeclCause>>
    ensures { Gives (λ _. tt) result cursor.new (spec.sign wanted (codes_of opened.now) cursor.old) }
{
    let found = next(alloc, cursor, opened)?;
    if is_sign(found.token, wanted) {
        return Ok(());
    }
    Err(Stop::Refused(DeclCause::Unexpected, found.at))
}

/// Passes tokens up to this word.
#[tactic(auto, using(reading::proofs::Each::each_laws), unfolding(crate::specs::Steps::to_word))]
pub(crate) fn to_word<'a>(
    alloc: Global,
    cursor: &mut Cursor<'a>,
    opened: &'a [u8],
    wanted: &[u8],
) -> Result<(), Stop<'a, DeclCause>>
    ensures { Gives (λ _. tt) result cursor.new (spec.to_word wanted.now (codes_of opened.now) cursor.old) }
{
    for _ in 0..cursor.turns() {
        if says(next(alloc, cursor, opened)?.token, wanted) {
            return Ok(());
        }
    }
    Err(Stop::Refused(DeclCause::Unexpected, cursor.rest()))
}

/// Passes tokens up to a semicolon.
#[tactic(auto, using(reading::proofs::Each::each_laws), unfolding(crate::specs::Steps::to_semicolon))]
pub(crate) fn to_semicolon<'a>(
    alloc: Global,
    cursor: &mut Cursor<'a>,
    opened: &'a [u8],
) -> Result<(), Stop<'a, DeclCause>>
    ensures { Gives (λ _. tt) result cursor.new (spec.to_semicolon (codes_of opened.now) cursor.old) }
{
    for _ in 0..cursor.turns() {
        if is_sign(next(alloc, cursor, opened)?.token, ';') {
            return Ok(());
        }
    }
    Err(Stop::Refused(DeclCause::Unexpected, cursor.rest()))
}

/// Passes a type, of one or more tokens, up to a semicolon.
#[tactic(auto, unfolding(crate::specs::Steps::type_text))]
pub(crate) fn type_text<'a>(
    alloc: Global,
    cursor: &mut Cursor<'a>,
    opened: &'a [u8],
) -> Result<(), Stop<'a, DeclCause>>
    ensures { Gives (λ _. tt) result cursor.new (spec.type_text (codes_of opened.now) cursor.old) }
{
    let found = next(alloc, cursor, opened)?;
    if is_sign(found.token, ';') {
        return Err(Stop::Refused(DeclCause::Unexpected, found.at));
    }
    to_semicolon(alloc, cursor, opened)
}

/// Behind a closing parenthesis, whether one is still open.
fn close(around: &mut usize) -> bool
    ensures { (result, around.new) ≡ spec.parenthesis_closed around.old }
{
    if *around == 0 {
        return false;
    }
    *around -= 1;
    true
}

/// Passes one token within parentheses, of which so many are open around the innermost; whether one is still open.
#[tactic(auto, unfolding(crate::specs::Steps::parenthesis_turn))]
fn parenthesis_turn<'a>(
    alloc: Global,
    cursor: &mut Cursor<'a>,
    opened: &'a [u8],
    around: &mut usize,
) -> Result<bool, Stop<'a, DeclCause>>
    requires { around.old + 1 < 2 ^ 64 }
    ensures value { Gives (λ more. (more, around.new)) result cursor.new (spec.parenthesis_turn (codes_of opened.now)
        around.old cursor.old) }
    ensures bound { around.new ≤ around.old + 1 }
{
    let found = next(alloc, cursor, opened)?;
    if is_sign(found.token, '(') {
        *around += 1;
        return Ok(true);
    }
    if is_sign(found.token, ')') {
        return Ok(close(around));
    }
    Ok(true)
}

/// Passes tokens up to the parenthesis that closes the one before them.
#[tactic(auto, using(reading::proofs::Each::each_laws), unfolding(crate::specs::Steps::in_parentheses))]
pub(crate) fn in_parentheses<'a>(
    alloc: Global,
    cursor: &mut Cursor<'a>,
    opened: &'a [u8],
) -> Result<(), Stop<'a, DeclCause>>
    ensures { Gives (λ _. tt) result cursor.new (spec.in_parentheses (codes_of opened.now) cursor.old) }
{
    let mut around = 0;
    for turn in 0..cursor.turns() {
        if !parenthesis_turn(alloc, cursor, opened, &mut around)? {
            return Ok(());
        }
    }
    Err(Stop::Refused(DeclCause::Unexpected, cursor.rest()))
}
