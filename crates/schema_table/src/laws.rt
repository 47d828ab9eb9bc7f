//! Laws of schemas. Each function does nothing: its contract is the law.
ghost use Rattle.schema_table.specs.Laws.{AncestryEnds, FittingHasItsParameters, InheritedFirst};
ghost use Rattle.schema_table.specs.Laws.{KindOfItself, KindOfKind, KindOfSupertype};
ghost use Rattle.schema_table.specs.Laws.{OwnAttributesLast, PlacesAreInherited};

/// An entity is a kind of itself.
pub fn kind_of_itself()
    ensures { KindOfItself }
{}

/// In a schema without a fault a kind of a kind of an entity is a kind of it.
pub fn kind_of_kind()
    ensures { KindOfKind }
{}

/// In a schema without a fault an entity is a kind of its supertype.
pub fn kind_of_supertype()
    ensures { KindOfSupertype }
{}

/// In a schema without a fault the way from an entity to its supertypes ends at one that has none.
pub fn ancestry_ends()
    ensures { AncestryEnds }
{}

/// In a schema without a fault an entity's attributes are its supertype's and then its own.
pub fn own_attributes_last()
    ensures { OwnAttributesLast }
{}

/// In a schema without a fault a subtype's attributes begin with its supertype's.
pub fn inherited_first()
    ensures { InheritedFirst }
{}

/// In a schema without a fault an attribute that an entity has stands at the same place in each of its
/// subtypes.
pub fn places_are_inherited()
    ensures { PlacesAreInherited }
{}

/// An instance that fits has as many parameters as its entity has attributes.
pub fn fitting_has_its_parameters()
    ensures { FittingHasItsParameters }
{}
