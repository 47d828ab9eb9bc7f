//! Tokens, with where they begin.

ghost use Rattle.std.specs.Prelude.{◌≡◌};
ghost use Rattle.std.specs.Char.{is_ascii_digit};
ghost use Rattle.reading.specs.Codes.{codes_of, code_of};
ghost use Rattle.reading.specs.Reading.{Gives};
ghost use Rattle.reading.specs.Runs.{begins};
ghost use Rattle.p21_read.specs.Tokens as spec;

use crate::fault::P21Cause;
use crate::gap::gap;
use crate::number::{NO_DIGITS, Number, id, read_number, real, with_digit};
use crate::quoted::text;
use crate::word::{Word, binary, enumer, is_letter, read_word};
use ifc_base::Name;
use reading::{Code, Cursor, Stop};
use std::alloc::Global;

#[derive(Drop)]
pub(crate) enum Token {
    End,
    Dollar,
    Star,
    Open,
    Close,
    Comma,
    Equals,
    Semicolon,
    Number(Number),
    /// A number past `u32::MAX` is `u32::MAX`.
    Id(u32),
    Word(Word),
    Enumer(Name),
    Binary(Name),
    Quoted(Name),
}

/// A token, and the bytes from where it begins.
#[derive(Drop)]
pub(crate) struct Lexed<'a> {
    pub token: Token,
    pub at: &'a [u8],
}

/// Whether a digit comes next.
#[tactic(auto, using(reading::proofs::RunLaws::run_laws))]
fn digit_comes(cursor: &Cursor<'_>) -> bool
    ensures { result ≡ begins is_ascii_digit cursor.now }
{
    let Some(code) = cursor.peek() else {
        return false;
    };
    match code.char() {
        None => false,
        Some(c) => c.is_ascii_digit(),
    }
}

/// The token behind the point at `at`.
#[tactic(auto, unfolding(crate::specs::Tokens::pointed))]
fn pointed<'a>(
    alloc: Global,
    cursor: &mut Cursor<'a>,
    at: &'a [u8],
) -> Result<Token, Stop<'a, P21Cause>>
    ensures { Gives (λ token. token) result cursor.new (spec.pointed (codes_of at.now) cursor.old) }
{
    if digit_comes(cursor) {
        return Ok(Token::Number(real(alloc, cursor, at)?));
    }
    Ok(Token::Enumer(enumer(alloc, cursor, at)?))
}

/// The number or the word that begins at `at` with this character, behind which the cursor stands.
#[tactic(auto, unfolding(crate::specs::Tokens::word_or_number))]
fn word_or_number<'a>(
    alloc: Global,
    cursor: &mut Cursor<'a>,
    at: &'a [u8],
    first: char,
) -> Result<Token, Stop<'a, P21Cause>>
    ensures { Gives (λ token. token) result cursor.new (spec.word_or_number (codes_of at.now) first cursor.old) }
{
    if first == '+' || first == '-' {
        let number = read_number(alloc, cursor, at, first == '-', NO_DIGITS)?;
        return Ok(Token::Number(number));
    }
    if first.is_ascii_digit() {
        let digit = with_digit(NO_DIGITS, first);
        return Ok(Token::Number(read_number(alloc, cursor, at, false, digit)?));
    }
    if is_letter(first) {
        return Ok(Token::Word(read_word(alloc, cursor, first)?));
    }
    Err(Stop::Refused(P21Cause::BadToken, at))
}

/// The token that begins at `at` with this character, behind which the cursor stands.
#[tactic(auto, unfolding(crate::specs::Tokens::token_of))]
fn token_of<'a>(
    alloc: Global,
    cursor: &mut Cursor<'a>,
    at: &'a [u8],
    code: Code,
) -> Result<Token, Stop<'a, P21Cause>>
    ensures { Gives (λ token. token) result cursor.new (spec.token_of (codes_of at.now) (code_of code) cursor.old) }
{
    let Some(c) = code.char() else {
        return Err(Stop::Refused(P21Cause::BadToken, at));
    };
    match c {
        '$' => Ok(Token::Dollar),
        '*' => Ok(Token::Star),
        '(' => Ok(Token::Open),
        ')' => Ok(Token::Close),
        ',' => Ok(Token::Comma),
        '=' => Ok(Token::Equals),
        ';' => Ok(Token::Semicolon),
        '\'' => Ok(Token::Quoted(text(alloc, cursor, at)?)),
        '"' => Ok(Token::Binary(binary(alloc, cursor, at)?)),
        '#' => Ok(Token::Id(id(cursor, at)?)),
        '.' => pointed(alloc, cursor, at),
        _ => word_or_number(alloc, cursor, at, c),
    }
}

/// The token at `at`, where the cursor stands.
#[tactic(auto, unfolding(crate::specs::Tokens::token_here))]
fn token_here<'a>(
    alloc: Global,
    cursor: &mut Cursor<'a>,
    at: &'a [u8],
) -> Result<Token, Stop<'a, P21Cause>>
    requires { codes_of at.now ≡ cursor.old }
    ensures { Gives (λ token. token) result cursor.new (spec.token_here cursor.old) }
{
    match cursor.next() {
        None => Ok(Token::End),
        Some(code) => token_of(alloc, cursor, at, code),
    }
}

/// The next token.
#[tactic(auto, unfolding(crate::specs::Tokens::token))]
pub(crate) fn next_token<'a>(
    alloc: Global,
    cursor: &mut Cursor<'a>,
) -> Result<Lexed<'a>, Stop<'a, P21Cause>>
    ensures { Gives spec.lexed_view result cursor.new (spec.token cursor.old) }
{
    gap(cursor)?;
    let at = cursor.rest();
    let token = token_here(alloc, cursor, at)?;
    Ok(Lexed { token, at })
}
