//! The parts of a numeral, each read from the front of a text in one pass.

ghost use Rattle.std.specs.Prelude.{◌≡◌, ◌≤◌, ◌<◌, ◌+◌, ◌^◌, ℕ, List, ◌++◌, length, option_map, ℤ, pos, negsuc, ◌≤ℤ◌, IfSome};
ghost use Rattle.decimal_fix.specs.Leading.{IsLeading, cut};
ghost use Rattle.decimal_fix.specs.Numerals.{digits};
ghost use Rattle.decimal_fix.specs.Reading.{run, sign, fraction, exponent};

use crate::leading::Leading;

/// The digits at the front, put behind those before them, how many they are, and what follows them.
pub(crate) fn run(before: Leading, bytes: &[u8]) -> (Leading, usize, &[u8])
    requires room { before.more + length bytes.now < 2 ^ 64 }
    ensures leading { (ds : List ℕ) → IsLeading before ds → IsLeading result.0 (ds ++ digits (run bytes.now).0) }
    ensures more { result.0.more ≤ before.more + length bytes.now }
    ensures count { result.1 ≡ length (run bytes.now).0 }
    ensures rest { result.2.now ≡ (run bytes.now).1 }
{
    let mut leading = before;
    for (at, byte) in bytes.iter().enumerate() {
        if !byte.is_ascii_digit() {
            return (leading, at, &bytes[at..]);
        }
        leading = leading.with(*byte - b'0');
    }
    (leading, bytes.len(), &[])
}

/// Whether a minus stands at the front, and what follows the sign.
#[tactic(auto, unfolding(crate::specs::Reading::sign))]
pub(crate) fn sign(bytes: &[u8]) -> (bool, &[u8])
    ensures { (result.0, result.1.now) ≡ sign bytes.now }
{
    match bytes {
        [b'+', rest @ ..] => (false, rest),
        [b'-', rest @ ..] => (true, rest),
        _ => (false, bytes),
    }
}

/// The digits behind a point at the front, put behind those before it, how many they are, and what follows them.
#[tactic(auto, unfolding(crate::specs::Reading::fraction))]
pub(crate) fn fraction(before: Leading, bytes: &[u8]) -> (Leading, usize, &[u8])
    requires room { before.more + length bytes.now < 2 ^ 64 }
    ensures leading { (ds : List ℕ) → IsLeading before ds → IsLeading result.0 (ds ++ digits (fraction bytes.now).0) }
    ensures count { result.1 ≡ length (fraction bytes.now).0 }
    ensures rest { result.2.now ≡ (fraction bytes.now).1 }
{
    match bytes {
        [b'.', rest @ ..] => run(before, rest),
        _ => (before, 0, bytes),
    }
}

/// 10^30, at which exponents are cut.
const MOST: u128 = 1_000_000_000_000_000_000_000_000_000_000;

/// The exponent that the text is, cut at 10^30 on either side, and 0 where the text is empty.
#[tactic(auto, unfolding(crate::specs::Reading::exponent))]
pub(crate) fn exponent(bytes: &[u8]) -> Option<i128>
    ensures value { result ≡ option_map cut (exponent bytes.now) }
    ensures least { IfSome result (λ e. negsuc (10 ^ 30) ≤ℤ e) }
    ensures most { IfSome result (λ e. e ≤ℤ pos (10 ^ 30)) }
{
    match bytes {
        [] => Some(0),
        [b'E' | b'e', rest @ ..] => {
            let (negative, rest) = sign(rest);
            let (digits, count, rest) = run(Leading::none(), rest);
            if count == 0 || !rest.is_empty() {
                return None;
            }
            let number = digits.number.min(MOST) as i128;
            Some(if negative { 0 - number } else { number })
        }
        _ => None,
    }
}
