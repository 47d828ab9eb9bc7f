//! Equality of a number with a literal, and their order.

ghost use Rattle.std.specs.Prelude.{◌≡◌, ◌↔◌, IsTrue, false};
ghost use Rattle.std.specs.declared.cmp.Ordering.TheVariants.{Less};
ghost use Rattle.decimal_fix.specs.Comparing.{Before, Equal, comparison, is_near};

use ifc_base::Decimal;
use std::cmp::Ordering;

/// The literal and one are divided by this for the tolerance.
const MILLION: u128 = 1_000_000;

/// The units of 10^-15 in one.
const ONE: u128 = 1_000_000_000_000_000;

/// Whether a number equals a literal within a tolerance of a millionth of the literal and a millionth of one,
/// `|a - v| * 10^6 <= |v| + 10^15` in units of 10^-15.
///
/// A number that is Beyond equals nothing. The two arguments aren't interchangeable: the literal alone sets the
/// tolerance. `O(1)`.
#[tactic(auto, unfolding(crate::specs::Comparing::is_near))]
pub fn equals_within(a: Decimal, literal: Decimal) -> bool
    ensures means { IsTrue result ↔ Equal a literal }
    ensures exact { result ≡ is_near a literal }
{
    if a.beyond || literal.beyond {
        return false;
    }
    let tolerance = (literal.units.unsigned_abs() + ONE) / MILLION;
    a.units.abs_diff(literal.units) <= tolerance
}

/// Whether a number is less than, equal to or greater than a literal, by their units and without any tolerance.
///
/// A number that is Beyond lies past every literal, on the side of the sign of its units, of which 0 counts as
/// positive. `O(1)`.
#[tactic(auto, unfolding(crate::specs::Comparing::comparison))]
pub fn compare(a: Decimal, literal: Decimal) -> Ordering
    requires { literal.beyond ≡ false }
    ensures exact { result ≡ comparison a literal }
    ensures before { (result ≡ Less) ↔ Before a literal }
{
    if a.beyond {
        return if a.units < 0 {
            Ordering::Less
        } else {
            Ordering::Greater
        };
    }
    a.units.cmp(&literal.units)
}
