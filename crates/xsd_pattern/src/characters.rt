//! What single characters and backslashes stand for.

ghost use Rattle.std.specs.Prelude.{◌≡◌, ◌<◌, IfSome};
ghost use Rattle.xsd_pattern.specs.Characters as spec;

use pattern_tree::Class;

/// Whether a pattern uses the character for itself: one of `\ | . ? * + { } ( ) [ ]`.
#[tactic(auto, unfolding(crate::specs::Characters::is_reserved))]
pub(crate) fn is_reserved(found: char) -> bool
    ensures { result ≡ spec.is_reserved found }
{
    matches!(
        found,
        '\\' | '|' | '.' | '?' | '*' | '+' | '{' | '}' | '(' | ')' | '[' | ']'
    )
}

/// The character that a backslash and this letter stand for, if for one.
#[tactic(auto, unfolding(crate::specs::Characters::escaped, crate::specs::Characters::is_escapable))]
pub(crate) fn escaped(letter: char) -> Option<char>
    ensures { result ≡ spec.escaped letter }
{
    match letter {
        'n' => Some('\n'),
        'r' => Some('\r'),
        't' => Some('\t'),
        '-' | '^' => Some(letter),
        _ if is_reserved(letter) => Some(letter),
        _ => None,
    }
}

/// The class that a backslash and this letter stand for, if for one.
#[tactic(auto, unfolding(crate::specs::Characters::class_of))]
pub(crate) fn class_of(letter: char) -> Option<Class>
    ensures { result ≡ spec.class_of letter }
{
    match letter {
        'd' => Some(Class::Digit),
        'w' => Some(Class::Word),
        's' => Some(Class::Space),
        'D' => Some(Class::NotDigit),
        'W' => Some(Class::NotWord),
        'S' => Some(Class::NotSpace),
        _ => None,
    }
}

/// Whether the character stands for itself in a class between brackets: any but `\ [ ] -`.
pub(crate) fn is_plain(found: char) -> bool
    ensures { result ≡ spec.is_plain found }
{
    !matches!(found, '\\' | '[' | ']' | '-')
}

/// The digit, as a number.
pub(crate) fn digit(found: char) -> Option<u32>
    ensures value { result ≡ spec.digit found }
    ensures small { IfSome result (λ n. n < 10) }
{
    found.to_digit(10)
}
