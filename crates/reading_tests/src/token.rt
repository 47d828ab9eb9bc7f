//! Tokens, with where they begin.

ghost use Rattle.std.specs.Prelude.{◌≡◌, ◌≤◌, ◌<◌, None, Ok, MatchOption};
ghost use Rattle.reading.specs.Codes.{codes_of};
ghost use Rattle.reading.specs.Reading.{Gives, refuse, ascii};
ghost use Rattle.reading.specs.Runs.{run};
ghost use Rattle.reading_tests.specs.declared.token.Token.TheVariants.{End};
ghost use Rattle.reading_tests.specs.Nest as spec;
ghost use Rattle.reading_tests.specs.Nest.{is_digit};

use crate::gap::gap;
use crate::tree::Cause;
use reading::{Cursor, Stop};

#[derive(Clone, Copy)]
pub(crate) enum Token {
    End,
    Open,
    Close,
    Comma,
    Number(u32),
}

/// A token, and the bytes from where it begins.
#[derive(Clone, Copy)]
pub(crate) struct Lexed<'a> {
    pub token: Token,
    pub at: &'a [u8],
}

const MOST: u32 = 999_999_999;

/// The number whose digits so far are `so_far`.
#[inline(always)]
#[tactic(auto, using(crate::proofs::Numbers::number_laws, reading::proofs::RunLaws::run_laws))]
fn number<'a>(cursor: &mut Cursor<'a>, at: &'a [u8], so_far: u32) -> Result<u32, Stop<'a, Cause>>
    requires { so_far ≤ 999999999 }
    ensures { Gives (λ n. n) result cursor.new (spec.number (codes_of at.now) so_far (run is_digit cursor.old)) }
{
    let mut here = Cursor::new(cursor.rest());
    let mut found = so_far;
    while let Some(byte) = here.next_digit() {
        if found > MOST / 10 {
            return Err(Stop::Refused(Cause::BadNumber, at));
        }
        found = 10 * found + u32::from(byte - b'0');
    }
    *cursor = here;
    Ok(found)
}

/// The token that begins at `at` with this character of ASCII, behind which the cursor stands.
#[inline(always)]
#[tactic(auto, using(crate::proofs::Numbers::token_laws), unfolding(crate::specs::Nest::token_of))]
fn token_of<'a>(cursor: &mut Cursor<'a>, at: &'a [u8], byte: u8) -> Result<Token, Stop<'a, Cause>>
    ensures { Gives (λ token. token) result cursor.new (spec.token_of (codes_of at.now) byte cursor.old) }
{
    if matches!(byte, b'0'..=b'9') {
        return Ok(Token::Number(number(cursor, at, u32::from(byte - b'0'))?));
    }
    match byte {
        b',' => Ok(Token::Comma),
        b'(' => Ok(Token::Open),
        b')' => Ok(Token::Close),
        _ => Err(Stop::Refused(Cause::BadToken, at)),
    }
}

/// Why no token begins at `at`, where no character of ASCII stands; at the end of the text nothing is wrong.
#[cold]
#[inline(never)]
#[tactic(auto, using(crate::proofs::Numbers::wide_laws))]
fn no_token(at: &[u8]) -> Option<Cause>
    requires { ascii (codes_of at.now) ≡ None }
    ensures { MatchOption result (spec.token_here (codes_of at.now) ≡ Ok (End, codes_of at.now))
        (λ why. spec.token_here (codes_of at.now) ≡ refuse why (codes_of at.now)) }
{
    let code = Cursor::new(at).peek()?;
    match code.char() {
        None => Some(Cause::BadByte),
        Some(_) => Some(Cause::BadToken),
    }
}

/// What stands at `at`, where no character of ASCII does: the end, or what begins no token.
#[inline(always)]
fn no_ascii<'a>(at: &'a [u8]) -> Result<Token, Stop<'a, Cause>>
    requires { ascii (codes_of at.now) ≡ None }
    ensures { Gives (λ token. token) result (codes_of at.now) (spec.token_here (codes_of at.now)) }
{
    match no_token(at) {
        None => Ok(Token::End),
        Some(why) => Err(Stop::Refused(why, at)),
    }
}

/// The token at `at`, where the cursor stands and `next` is the character of ASCII.
#[inline(always)]
#[tactic(auto, using(reading::proofs::Ascii::ascii_laws), unfolding(crate::specs::Nest::token_here))]
fn token_here<'a>(
    cursor: &mut Cursor<'a>,
    at: &'a [u8],
    next: Option<u8>,
) -> Result<Token, Stop<'a, Cause>>
    requires place { codes_of at.now ≡ cursor.old }
    requires next { next ≡ ascii cursor.old }
    ensures { Gives (λ token. token) result cursor.new (spec.token_here cursor.old) }
{
    let Some(byte) = next else {
        return no_ascii(at);
    };
    cursor.pass_ascii();
    token_of(cursor, at, byte)
}

/// The next token.
#[inline(always)]
#[tactic(auto, unfolding(crate::specs::Nest::token))]
pub(crate) fn next_token<'a>(cursor: &mut Cursor<'a>) -> Result<Lexed<'a>, Stop<'a, Cause>>
    ensures { Gives spec.lexed_view result cursor.new (spec.token cursor.old) }
{
    let next = gap(cursor)?;
    let at = cursor.rest();
    let token = token_here(cursor, at, next)?;
    Ok(Lexed { token, at })
}
