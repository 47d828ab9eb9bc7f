//! Numbers that are compared with literals and bounds.

ghost use Rattle.std.specs.Prelude.{◌≡◌};
ghost use Rattle.restrictions.specs.Admitting.{amount};

use ifc_base::Decimal;

/// The units of 10^-15 in one.
const ONE: i128 = 1_000_000_000_000_000;

/// A number of a model.
#[derive(Clone, Copy, Debug)]
pub(crate) enum Number {
    /// An integer, which equals a literal exactly or not at all.
    Whole(i64),
    /// A real, which equals a literal within a tolerance.
    Real(Decimal),
}

impl Number {
    /// The number as a decimal. `O(1)`.
    pub(crate) fn amount(self) -> Decimal
        ensures { result ≡ amount self }
    {
        match self {
            Number::Whole(number) => Decimal {
                units: i128::from(number) * ONE,
                beyond: false,
            },
            Number::Real(number) => number,
        }
    }
}
