use crate::facet::{Facet, Facets};
use ifc_base::Listed;

/// One specification of an IDS document: which elements it is for, and what it asks of them.
#[derive(Debug, Drop)]
pub struct Specification {
    /// Its place in the document, from 1.
    pub number: u32,
    /// Whether it names the schema of the model; it is skipped if not.
    pub for_model: bool,
    pub occurs: Occurs,
    pub applicability: Facets,
    pub requirements: Requirements,
}

/// Whether elements that a specification is for may, must or must not be there (IDS 1.0, `minOccurs`
/// and `maxOccurs` of the applicability).
#[derive(Clone, Copy, Debug, PartialEq, Eq)]
pub enum Occurs {
    Optional,
    Required,
    Prohibited,
}

/// What a requirement asks of its facet (IDS 1.0, `cardinality`).
#[derive(Clone, Copy, Debug, PartialEq, Eq)]
pub enum Cardinality {
    Required,
    Optional,
    Prohibited,
}

/// A facet that is asked of the elements to which a specification applies.
#[derive(Debug, Drop)]
pub struct Requirement {
    pub facet: Facet,
    pub cardinality: Cardinality,
}

/// The requirements of a specification, numbered by their places from 1.
pub type Requirements = Listed<Requirement>;

/// The specifications of an IDS document, numbered by their places from 1.
pub type Specifications = Listed<Specification>;
