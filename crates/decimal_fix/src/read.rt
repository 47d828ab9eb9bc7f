//! From a text to a decimal.

ghost use Rattle.std.specs.Prelude.{◌≡◌, ◌≤◌, ◌^◌, IfSome, MatchOption};
ghost use Rattle.decimal_fix.specs.Numerals.{Numeral, Spells, value, decimal_of};
ghost use Rattle.decimal_fix.specs.Reading.{IsRead, reading};

use crate::leading::Leading;
use crate::numeral::{exponent, fraction, run, sign};
use crate::units::{BEYOND, units};
use ifc_base::Decimal;

fn decimal_of(negative: bool, units: u128) -> Decimal
    requires { units ≤ 10 ^ 31 }
    ensures { result ≡ decimal_of negative units }
{
    let beyond = units >= BEYOND;
    let size = if beyond { 1 } else { units as i128 };
    Decimal {
        units: if negative { 0 - size } else { size },
        beyond,
    }
}

#[tactic(auto, unfolding(crate::specs::Reading::numeral, crate::specs::Reading::reading))]
fn read(text: &str) -> Option<Decimal>
    ensures { result ≡ reading text.now }
{
    let (negative, rest) = sign(text.as_bytes());
    let (whole, before, rest) = run(Leading::none(), rest);
    let (digits, behind, rest) = fraction(whole, rest);
    if before == 0 && behind == 0 {
        return None;
    }
    let exponent = exponent(rest)?;
    Some(decimal_of(negative, units(digits, behind, exponent)))
}

/// The decimal that a text writes, or None exactly where the text is no numeral.
///
/// A numeral is an optional sign, then one or more digits that may be followed by `.` and zero or more digits, or `.`
/// and one or more digits, then an optional exponent: `E` or `e`, an optional sign, and one or more digits. Blanks are no
/// part of it. Its value is rounded to 10^-15, half away from zero. From a rounded size of 10^16 on the number is Beyond,
/// with units 1 or -1 by its sign.
///
/// Reads a text of any length in one pass, in constant memory, with digits and an exponent of any number of places.
/// `O(n)`.
pub fn read_decimal(text: &str) -> Option<Decimal>
    // What is read is a numeral of that value, and what isn't read is no numeral.
    ensures found { MatchOption result ((n : Numeral) → Spells text.now n → ⊥)
        (λ d. (n : Numeral) × Spells text.now n × (value n ≡ d)) }
    // Which decimal it is.
    ensures exact { result ≡ reading text.now }
    // Beyond with units 1 or -1, or a size below 10^31 units.
    ensures in_range { IfSome result IsRead }
{
    read(text)
}
