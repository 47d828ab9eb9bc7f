use ifc_base::{InstId, Numbers};

/// A specification, by its number, and an element.
#[derive(Clone, Copy, Debug, PartialEq, Eq)]
pub struct Pair {
    pub spec: u32,
    pub elem: InstId,
}

/// What a specification says of an element: the numbers, ascending from 1, of the requirements that
/// the element doesn't meet. They are none for a prohibited specification.
#[derive(Debug, PartialEq, Eq, Drop)]
pub enum Verdict {
    NotApplicable,
    Applicable(Numbers),
}

/// Whether a facet holds of an element, and whether what it speaks of is there at all.
#[derive(Clone, Copy, Debug, PartialEq, Eq)]
pub struct Weighed {
    pub holds: bool,
    pub subject: bool,
}
