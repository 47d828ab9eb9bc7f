//! The parts of a restriction as they are written, and why they are none.

use ifc_base::{Name, Names};
use thiserror::Error;
use xsd_pattern::PatternFault;

/// The parts of a restriction, as texts (IDS 1.0, `xs:restriction`).
#[derive(Debug, Drop)]
pub struct RestrictionParts {
    /// One of `xs:string`, `xs:boolean`, `xs:integer`, `xs:double`, `xs:decimal`, `xs:date`, `xs:dateTime`, `xs:time`
    /// and `xs:duration`.
    pub base: Name,
    /// The texts of which one must be equal, if there are any.
    pub enumeration: Names,
    /// The patterns of which one must match, if there are any.
    pub pattern: Names,
    /// The least number.
    pub min_inclusive: Option<Name>,
    /// The greatest number.
    pub max_inclusive: Option<Name>,
    /// The number above which others are admitted.
    pub min_exclusive: Option<Name>,
    /// The number below which others are admitted.
    pub max_exclusive: Option<Name>,
    /// How many characters there are.
    pub length: Option<Name>,
    /// How many characters there are at least.
    pub min_length: Option<Name>,
    /// How many characters there are at most.
    pub max_length: Option<Name>,
}

/// Why parts are no restriction. Of several causes the first is told, in the order in which they stand here.
#[derive(Clone, Copy, Debug, PartialEq, Eq, Error)]
pub enum RestrictionFault {
    /// The base is none of those that are built.
    #[error("the base is none of those that are built")]
    BadBase,
    /// There is no part besides the base.
    #[error("there is no part besides the base")]
    EmptyRestriction,
    /// A bound is no numeral, or one of 10^16 or more; bounds stand with another base than `xs:integer`, `xs:double`
    /// and `xs:decimal`; or both bounds of one side are there.
    #[error("a bound that is none, or that does not belong here")]
    BadBound,
    /// A length isn't 1 to 9 digits, `length` stands beside another, or the least is over the greatest.
    #[error("a length that is none, or that does not belong here")]
    BadLength,
    /// A text is no pattern: the first such text, by its number from 1, and its fault. A number above 4,294,967,295 is
    /// told as 4,294,967,295.
    #[error("pattern {which}, {fault}")]
    Pattern { which: u32, fault: PatternFault },
}
