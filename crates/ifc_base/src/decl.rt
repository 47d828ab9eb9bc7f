use crate::list::Listed;
use crate::name::{Name, Names};

/// An entity's declaration (ISO 10303-11, entity declaration). `==` compares the fields;
/// the order is theirs, from the first on.
#[derive(Debug, PartialEq, Eq, PartialOrd, Ord, Drop)]
pub struct EntityDecl {
    /// The entity's name, in upper case.
    pub name: Name,
    /// Its one direct supertype, in upper case, where it has one.
    pub parent: Option<Name>,
    /// Whether it is declared ABSTRACT, so that no instance is of this very entity.
    pub is_abstract: bool,
    /// Its own explicit attributes in declared order, as written; redeclared ones aren't among them.
    pub own: Names,
    /// The inherited attributes that it redeclares as derived, as written.
    pub derived: Names,
}

/// A type's declaration (ISO 10303-11, type declaration), of which the name is kept. `==` and the
/// order are the name's.
#[derive(Debug, PartialEq, Eq, PartialOrd, Ord, Drop)]
pub struct TypeDecl {
    /// The type's name, in upper case.
    pub name: Name,
}

/// The entities of a schema in declared order.
pub type EntityDecls = Listed<EntityDecl>;

/// The types of a schema in declared order.
pub type TypeDecls = Listed<TypeDecl>;
