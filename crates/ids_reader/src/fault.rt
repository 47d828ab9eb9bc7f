//! Why specifications were refused.

use thiserror::Error;

/// The first cause for which a document of specifications was refused, and where it lies: `spec` is the number of a
/// specification from 1, or 0 for the document; `place` is that of a facet from 1, those of the applicability first
/// and those of the requirements behind them, or 0 for the specification itself.
#[derive(Clone, Copy, Debug, PartialEq, Eq, Error)]
#[error("specification {spec}, place {place}: {why}")]
pub struct IdsFault {
    pub spec: u32,
    pub place: u32,
    pub why: IdsCause,
}

/// Why a document of specifications was refused.
#[derive(Clone, Copy, Debug, PartialEq, Eq, Error)]
pub enum IdsCause {
    /// The bytes are no text in UTF-8, or no JSON that `serde_json` reads; it reads no more than 127 arrays and
    /// objects within one another.
    #[error("no JSON that is read")]
    Json,
    /// A value is no object where one must stand; a member is missing or of a wrong kind; a condition has none of its
    /// two forms or both; a facet has another word than those of the six facets, or is the second entity facet of an
    /// applicability.
    #[error("a member that is missing, or a value of another kind")]
    Shape,
    /// An object has a member that the form hasn't.
    #[error("a member that the form does not have")]
    UnknownMember,
    /// There are more than 1,000 specifications, 64 facets of one side, or 1,000 enumerations and patterns of one
    /// restriction.
    #[error("too many specifications, facets, or texts of a restriction")]
    TooMany,
    /// `minOccurs` and `maxOccurs` are none of the three pairs.
    #[error("another pair of minOccurs and maxOccurs")]
    Occurs,
    /// A cardinality that the facet may not have where it stands.
    #[error("a cardinality that is not allowed here")]
    Cardinality,
    /// The parts of a restriction are none.
    #[error("a restriction that is none")]
    Restriction,
    /// A simple name of an entity that the schema doesn't declare, in a specification for the model.
    #[error("an entity that is not declared")]
    UnknownEntity,
}
