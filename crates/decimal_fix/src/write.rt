//! From a decimal to its text.

ghost use Rattle.std.specs.Prelude.{◌≡◌, ◌<◌, ◌^◌, ◌++◌, IfOk, OnOk};
ghost use Rattle.decimal_fix.specs.Writing.{minus, places, without_zeros, written};

use ifc_base::{Decimal, Memory, Name};
use std::alloc::Global;

/// The units of 10^-15 in one.
const ONE: u128 = 1_000_000_000_000_000;

/// The places behind the point.
const PLACES: u32 = 15;

fn minus(units: i128) -> &'static str
    ensures { result.now ≡ minus units }
{
    if units < 0 { "-" } else { "" }
}

/// Adds the digits of a fraction, in units of 10^-15, without those zeros that close it.
fn push_fraction(name: &mut Name, units: u64) -> Result<(), Memory>
    requires { units < 10 ^ 15 }
    ensures { OnOk result (name.new ≡ name.old ++ without_zeros (places 15 units)) }
{
    let mut rest = units;
    let mut place: u64 = 1_000_000_000_000_000;
    for _ in 0..PLACES {
        if rest == 0 {
            return Ok(());
        }
        place /= 10;
        let digit = (rest / place) as u8;
        match name.push(char::from(b'0' + digit)) {
            Ok(()) => {}
            Err((memory, _)) => return Err(memory),
        }
        rest %= place;
    }
    Ok(())
}

/// The text of a decimal: `-` where the number is below 0, the whole part, `.`, and the fraction without the zeros that
/// close it. A number that is Beyond is `1.E16` or `-1.E16`, by the sign of its units, of which 0 counts as positive.
///
/// `read_decimal` gives the same decimal for this text, where it is one that `read_decimal` gives at all. The one refusal
/// is want of memory, which leaves nothing behind. `O(1)`.
pub fn write_decimal(alloc: Global, a: Decimal) -> Result<Name, Memory>
    ensures { IfOk result (λ name. name ≡ written a) }
{
    let sign = minus(a.units);
    if a.beyond {
        let text = format!(in alloc; "{sign}1.E16")?;
        return Name::from_str(alloc, text.as_str());
    }
    let size = a.units.unsigned_abs();
    let front = format!(in alloc; "{sign}{}.", size / ONE)?;
    let mut name = Name::from_str(alloc, front.as_str())?;
    push_fraction(&mut name, (size % ONE) as u64)?;
    Ok(name)
}
