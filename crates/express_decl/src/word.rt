//! Words, and names made of them.

ghost use Rattle.std.specs.Prelude.{◌≡◌, ◌++◌, ◌∷◌, [], map, IfOk, MatchResult};
ghost use Rattle.reading.specs.declared.stop.Stop.TheVariants as stop;
ghost use Rattle.std.specs.Char.{to_ascii_uppercase};
ghost use Rattle.express_decl.specs.Tokens as spec;

use crate::decl::DeclCause;
use crate::token::Token;
use ifc_base::{Listed, Memory, Name};
use reading::Stop;
use std::alloc::Global;

/// The name of these letters, as they are written. `O(n)`.
pub(crate) fn written(alloc: Global, word: &[u8]) -> Result<Name, Memory>
    ensures { IfOk result (λ name. name ≡ word.now) }
{
    let mut name = Name::new(alloc);
    for byte in word {
        if name.push(char::from(*byte)).is_err() {
            return Err(Memory);
        }
    }
    Ok(name)
}

/// The name of these letters in upper case. `O(n)`.
pub(crate) fn upper(alloc: Global, word: &[u8]) -> Result<Name, Memory>
    ensures { IfOk result (λ name. name ≡ map to_ascii_uppercase word.now) }
{
    let mut name = Name::new(alloc);
    for byte in word {
        if name.push(char::from(byte.to_ascii_uppercase())).is_err() {
            return Err(Memory);
        }
    }
    Ok(name)
}

/// Whether the token is this word, in letters of either case.
#[tactic(auto, unfolding(crate::specs::Tokens::says))]
pub(crate) fn says(token: Token<'_>, wanted: &[u8]) -> bool
    ensures { result ≡ spec.says wanted.now (spec.token_view token.entry) }
{
    match token {
        Token::Word(word) => word.eq_ignore_ascii_case(wanted),
        _ => false,
    }
}

/// Whether the token is this character.
#[tactic(auto, unfolding(crate::specs::Tokens::is_sign))]
pub(crate) fn is_sign(token: Token<'_>, wanted: char) -> bool
    ensures { result ≡ spec.is_sign wanted (spec.token_view token.entry) }
{
    match token {
        Token::Sign(found) => found == wanted,
        _ => false,
    }
}

/// Adds the item at the end. For want of memory the list is as before.
pub(crate) fn keep<'a, T: Drop>(list: &mut Listed<T>, item: T) -> Result<(), Stop<'a, DeclCause>>
    ensures { MatchResult result (λ _. list.new ≡ list.old ++ item ∷ [])
        (λ stopped. (list.new ≡ list.old) × (stopped ≡ stop.Memory)) }
{
    match list.push(item) {
        Ok(()) => Ok(()),
        Err(_) => Err(Stop::Memory),
    }
}
