//! Conditions as plain data.

use crate::literal::Literal;
use ifc_base::Listed;
use xsd_pattern::Pattern;

/// The bounds of a number, in units of 10^-15. It isn't below `min_inclusive` nor above `max_inclusive`, it is above
/// `min_exclusive` and below `max_exclusive`.
#[derive(Clone, Copy, Debug)]
pub(crate) struct Bounds {
    pub(crate) min_inclusive: Option<i128>,
    pub(crate) max_inclusive: Option<i128>,
    pub(crate) min_exclusive: Option<i128>,
    pub(crate) max_exclusive: Option<i128>,
}

/// The number of characters of a text: that number, and the least and the greatest one.
#[derive(Clone, Copy, Debug)]
pub(crate) struct Lengths {
    pub(crate) length: Option<u32>,
    pub(crate) min_length: Option<u32>,
    pub(crate) max_length: Option<u32>,
}

/// What a restriction asks for.
#[derive(Drop)]
pub(crate) struct Constraints {
    /// The texts of which one must be equal, if there are any.
    pub(crate) enumeration: Listed<Literal>,
    /// The patterns of which one must match, if there are any.
    pub(crate) patterns: Listed<Pattern>,
    pub(crate) bounds: Bounds,
    pub(crate) lengths: Lengths,
}

/// A value condition.
#[derive(Drop)]
pub(crate) enum Condition {
    /// One simple text.
    Simple(Literal),
    /// A restriction.
    Restricted(Constraints),
}
