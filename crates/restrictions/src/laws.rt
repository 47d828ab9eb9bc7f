//! Laws of the definitions. Nothing runs here.

ghost use Rattle.restrictions.specs.Laws.{BoundsNarrow, DecidesMatches, EnumerationsWiden, NamesAreTexts};
ghost use Rattle.restrictions.specs.Laws.{PatternsAreRead, PatternsWiden, SimpleIsOne};

/// The test by splits of a text is true exactly where the pattern matches it.
pub fn decides_matches()
    ensures { DecidesMatches }
{}

/// A condition admits a name as the string of its characters.
pub fn names_are_texts()
    ensures { NamesAreTexts }
{}

/// A simple text admits what an enumeration of that one text admits.
pub fn simple_is_one()
    ensures { SimpleIsOne }
{}

/// A further enumeration or pattern beside others of its kind never admits less, and further bounds and lengths never
/// admit more.
pub fn further_parts()
    ensures enumerations { EnumerationsWiden }
    ensures patterns { PatternsWiden }
    ensures bounds { BoundsNarrow }
{}

/// Where the texts of patterns have no fault, each of them is read, in its order.
pub fn patterns_are_read()
    ensures { PatternsAreRead }
{}
