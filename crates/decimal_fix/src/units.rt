//! The number of units that digits of any length write, by the leading ones alone.

ghost use Rattle.std.specs.Prelude.{◌≡◌, ◌≤◌, ◌<◌, ◌^◌, ◌*◌, ◌+◌, ℕ, List, [], ◌∷◌, ◌++◌, min, ℤ, pos, negsuc, ◌≤ℤ◌};
ghost use Rattle.decimal_fix.specs.Leading.{IsLeading, shift, moved};
ghost use Rattle.decimal_fix.specs.Numerals.{scale};
ghost use Rattle.decimal_fix.specs.Rounding.{number, rounded};

use crate::leading::Leading;

/// 10^32, the least number of 33 digits.
const FULL: u128 = 100_000_000_000_000_000_000_000_000_000_000;

/// 10^33, at which moved numbers are cut.
const CAP: u128 = 1_000_000_000_000_000_000_000_000_000_000_000;

/// 10^31 units, from which on a number is Beyond.
pub(crate) const BEYOND: u128 = 10_000_000_000_000_000_000_000_000_000_000;

impl Leading {
    /// Of no digits.
    pub(crate) fn none() -> Leading
        ensures leading { IsLeading result [] }
        ensures more { result.more ≡ 0 }
    {
        Leading { number: 0, more: 0 }
    }

    /// With one more digit at the end.
    pub(crate) fn with(self, last: u8) -> Leading
        requires digit { last ≤ 9 }
        requires room { self.more + 1 < 2 ^ 64 }
        ensures leading { (ds : List ℕ) → IsLeading self ds → IsLeading result (ds ++ last ∷ []) }
        ensures more { result.more ≤ self.more + 1 }
    {
        if self.number >= FULL {
            return Leading {
                number: self.number,
                more: self.more + 1,
            };
        }
        Leading {
            number: 10 * self.number + u128::from(last),
            more: self.more,
        }
    }
}

fn shift(exponent: i128, places: usize, more: usize) -> i128
    requires least { negsuc (10 ^ 30) ≤ℤ exponent }
    requires most { exponent ≤ℤ pos (10 ^ 30) }
    ensures { result ≡ shift exponent places more }
{
    exponent + 16 + more as i128 - places as i128
}

fn moved(number: u128, by: i128) -> u128
    requires { number < 10 ^ 33 }
    ensures { result ≡ moved number by }
{
    let places = by.unsigned_abs();
    if places > 33 {
        return if by < 0 || number == 0 { 0 } else { CAP };
    }
    let power = 10u128.pow(places as u32);
    if by < 0 {
        number / power
    } else {
        number.saturating_mul(power).min(CAP)
    }
}

/// The number of units of 10^-15 that digits write of which so many stand behind the point, with this exponent: rounded
/// half up, and cut at 10^31, from which on a number is Beyond.
pub(crate) fn units(leading: Leading, places: usize, exponent: i128) -> u128
    requires least { negsuc (10 ^ 30) ≤ℤ exponent }
    requires most { exponent ≤ℤ pos (10 ^ 30) }
    ensures value { (ds : List ℕ) → IsLeading leading ds → result ≡ min (rounded (number ds)
        (scale exponent places)) (10 ^ 31) }
    ensures most { result ≤ 10 ^ 31 }
{
    let moved = moved(leading.number, shift(exponent, places, leading.more));
    ((moved + 5) / 10).min(BEYOND)
}
