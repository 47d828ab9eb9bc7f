//! Laws of the definitions of numerals, of their values and of what is written. Nothing runs here.

ghost use Rattle.decimal_fix.specs.Laws.{OneNumeral, PointMoves, ReadsBack, RoundsToNearest, SignTurns};

/// Of numerals: one whose point is moved, with the exponent changed to match, has the same value; the sign turns the
/// value; and a text spells at most one numeral.
pub fn numerals()
    ensures point_moves { PointMoves }
    ensures sign_turns { SignTurns }
    ensures one_numeral { OneNumeral }
{}

/// Values are rounded to the nearest number of units, and a half is rounded away from zero.
pub fn rounding()
    ensures nearest { RoundsToNearest }
{}

/// What `write_decimal` gives reads as the same decimal, where that is Beyond with units 1 or -1, or isn't Beyond and has
/// a size below 10^31 units. What `read_decimal` gives is always of these.
pub fn writing_back()
    ensures reads_back { ReadsBack }
{}
