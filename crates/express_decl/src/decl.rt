//! What is read, and why it can't be.

use ifc_base::{EntityDecls, TypeDecls};
use reading::Fault;
use thiserror::Error;

/// The declarations of a schema: its entities and its types, each in declared order.
#[derive(Debug, PartialEq, Eq, Drop)]
pub struct Decls {
    pub entities: EntityDecls,
    pub types: TypeDecls,
}

/// Why bytes are no declarations.
#[derive(Clone, Copy, Debug, PartialEq, Eq, Error)]
pub enum DeclCause {
    /// Outside strings and remarks: what is none of the characters 33 to 126, blank, tab, carriage return and line feed.
    #[error("a byte that begins no token")]
    BadToken,
    /// The input ends within a remark, a string, a skipped block, an ENTITY, a TYPE or the SCHEMA, or before `SCHEMA name;` is
    /// complete.
    #[error("the input ends within what this line opened")]
    Unclosed,
    /// The comma behind a supertype.
    #[error("an entity with more than one supertype")]
    ManySupertypes,
    /// Any other token that doesn't belong where it stands.
    #[error("a token that does not belong here")]
    Unexpected,
}

/// The first fault: its cause, and the line in which the refused token begins, from 1. For Unclosed it is the line in which the
/// innermost thing that is open begins.
pub type DeclFault = Fault<DeclCause>;
