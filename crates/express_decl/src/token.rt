//! Tokens, with where they begin.

ghost use Rattle.std.specs.Prelude.{◌≡◌, ◌≤◌, Some, length, take, drop, true, false};
ghost use Rattle.std.specs.List.{prefix_len};
ghost use Rattle.std.specs.Option.{option_map};
ghost use Rattle.reading.specs.Codes.{codes_of, code_of};
ghost use Rattle.reading.specs.Reading.{first, Gives};
ghost use Rattle.reading.specs.Runs.{run};
ghost use Rattle.express_decl.specs.Tokens as spec;

use crate::decl::DeclCause;
use crate::remark::gap;
use reading::{Code, Cursor, Stop};
use std::alloc::Global;

/// A word of letters, digits and `_`, a string, or one other character.
#[derive(Clone, Copy)]
pub(crate) enum Token<'a> {
    Word(&'a [u8]),
    Quoted,
    Sign(char),
}

/// A token, and the bytes from where it begins.
#[derive(Clone, Copy)]
pub(crate) struct Lexed<'a> {
    pub token: Token<'a>,
    pub at: &'a [u8],
}

/// Whether the byte belongs to words.
fn is_word_byte(byte: u8) -> bool
    ensures { result ≡ spec.is_word byte }
{
    byte.is_ascii_alphanumeric() || byte == b'_'
}

/// Whether the character belongs to words.
fn is_word(code: Code) -> bool
    ensures { result ≡ spec.is_word (code_of code) }
{
    match code {
        Code::Char(found) => found.is_ascii_alphanumeric() || found == '_',
        Code::Byte(_) => false,
    }
}

/// How many letters, digits and `_` the bytes begin with. `O(n)`.
fn word_length(bytes: &[u8]) -> usize
    ensures length { result ≡ prefix_len spec.is_word bytes.now }
    ensures within { result ≤ length bytes.now }
{
    let mut length = 0;
    while length < bytes.len() && is_word_byte(bytes[length]) {
        length += 1;
    }
    length
}

/// Takes the word with which the bytes at the cursor begin.
fn word<'a>(cursor: &mut Cursor<'a>) -> &'a [u8]
    ensures word { result.now ≡ (run spec.is_word cursor.old).0 }
    ensures left { cursor.new ≡ (run spec.is_word cursor.old).1 }
{
    let bytes = cursor.rest();
    let length = word_length(bytes);
    *cursor = Cursor::new(&bytes[length..]);
    &bytes[..length]
}

/// Passes the rest of the string that began at `start`.
#[tactic(auto, unfolding(crate::specs::Tokens::quoted))]
fn quoted<'a>(cursor: &mut Cursor<'a>, start: &'a [u8]) -> Result<(), Stop<'a, DeclCause>>
    ensures { Gives (λ _. tt) result cursor.new (spec.quoted false (codes_of start.now) cursor.old) }
{
    let mut quote = false;
    while let Some(code) = cursor.peek() {
        if quote && !code.is('\'') {
            return Ok(());
        }
        let _ = cursor.next();
        quote = !quote && code.is('\'');
    }
    if quote {
        return Ok(());
    }
    Err(Stop::Refused(DeclCause::Unclosed, start))
}

/// The token that begins at `at` with this character, before which the cursor stands.
#[tactic(auto, using(crate::proofs::Words::first_behind), unfolding(crate::specs::Tokens::token_of))]
fn token_at<'a>(
    cursor: &mut Cursor<'a>,
    at: &'a [u8],
    code: Code,
) -> Result<Token<'a>, Stop<'a, DeclCause>>
    requires place { codes_of at.now ≡ cursor.old }
    requires next { first cursor.old ≡ Some (code_of code) }
    ensures { Gives spec.token_view result cursor.new (spec.token_of (codes_of at.now) (code_of code) (spec.behind cursor.old)) }
{
    if is_word(code) {
        return Ok(Token::Word(word(cursor)));
    }
    let _ = cursor.next();
    if code.is('\'') {
        quoted(cursor, at)?;
        return Ok(Token::Quoted);
    }
    match code.char() {
        Some(found) if found.is_ascii_graphic() => Ok(Token::Sign(found)),
        _ => Err(Stop::Refused(DeclCause::BadToken, at)),
    }
}

#[tactic(auto, using(crate::proofs::Words::first_behind), unfolding(crate::specs::Tokens::token_here))]
fn token_here<'a>(cursor: &mut Cursor<'a>) -> Result<Option<Lexed<'a>>, Stop<'a, DeclCause>>
    ensures { Gives (option_map spec.lexed_view) result cursor.new (spec.token_here cursor.old) }
{
    let at = cursor.rest();
    match cursor.peek() {
        None => Ok(None),
        Some(code) => {
            let token = token_at(cursor, at, code)?;
            Ok(Some(Lexed { token, at }))
        }
    }
}

/// The next token behind blanks and remarks, none at the end of the input.
#[tactic(auto, unfolding(crate::specs::Tokens::token))]
pub(crate) fn next_token<'a>(
    alloc: Global,
    cursor: &mut Cursor<'a>,
) -> Result<Option<Lexed<'a>>, Stop<'a, DeclCause>>
    ensures { Gives (option_map spec.lexed_view) result cursor.new (spec.token cursor.old) }
{
    gap(alloc, cursor)?;
    token_here(cursor)
}
