//! Which members each object of the mapping has: what a reader asks of an object stands here, as data.
ghost use Rattle.std.specs.Prelude.{◌≡◌};
ghost use Rattle.ids_reader.specs.Tables.{rows, table};

/// What stands at a member.
#[derive(Clone, Copy, Debug)]
pub(crate) enum Kind {
    /// Whatever it is; it isn't looked at.
    Any,
    /// A string.
    Text,
    /// A list of strings.
    Texts,
    /// A list, whose items are looked at later.
    List,
    /// A string that names a relation of a partOf facet.
    Relation,
    /// The parts of a restriction.
    Restriction,
    /// A simple value or a restriction.
    Condition,
    /// The entity of a partOf facet.
    Entity,
    /// The applicability of a specification.
    Applicability,
}

/// An object of the mapping.
#[derive(Clone, Copy, Debug)]
pub(crate) enum Object {
    Document,
    Specification,
    Applicability,
    EntityFacet,
    Attribute,
    Property,
    Classification,
    Material,
    PartOf,
    Entity,
    Condition,
    Restriction,
}

/// A kind of facet (IDS 1.0, facets).
#[derive(Clone, Copy, Debug)]
pub(crate) enum FacetKind {
    Entity,
    Attribute,
    Property,
    Classification,
    Material,
    PartOf,
}

/// A member of an object: its name, what stands there, and whether it may not be missing.
#[derive(Clone, Copy, Debug)]
pub(crate) struct Member {
    pub name: &'static str,
    pub kind: Kind,
    pub required: bool,
}

const DOCUMENT: &[Member] = &[
    Member {
        name: "specifications",
        kind: Kind::List,
        required: true,
    },
    Member {
        name: "info",
        kind: Kind::Any,
        required: false,
    },
];

const SPECIFICATION: &[Member] = &[
    Member {
        name: "name",
        kind: Kind::Text,
        required: true,
    },
    Member {
        name: "ifcVersion",
        kind: Kind::Texts,
        required: true,
    },
    Member {
        name: "applicability",
        kind: Kind::Applicability,
        required: true,
    },
    Member {
        name: "requirements",
        kind: Kind::List,
        required: true,
    },
    Member {
        name: "identifier",
        kind: Kind::Text,
        required: false,
    },
    Member {
        name: "description",
        kind: Kind::Text,
        required: false,
    },
    Member {
        name: "instructions",
        kind: Kind::Text,
        required: false,
    },
];

const APPLICABILITY: &[Member] = &[
    Member {
        name: "minOccurs",
        kind: Kind::Text,
        required: true,
    },
    Member {
        name: "maxOccurs",
        kind: Kind::Text,
        required: true,
    },
    Member {
        name: "facets",
        kind: Kind::List,
        required: true,
    },
];

const ENTITY_FACET: &[Member] = &[
    Member {
        name: "facet",
        kind: Kind::Text,
        required: true,
    },
    Member {
        name: "name",
        kind: Kind::Condition,
        required: true,
    },
    Member {
        name: "predefinedType",
        kind: Kind::Condition,
        required: false,
    },
    Member {
        name: "instructions",
        kind: Kind::Text,
        required: false,
    },
];

const ATTRIBUTE: &[Member] = &[
    Member {
        name: "facet",
        kind: Kind::Text,
        required: true,
    },
    Member {
        name: "name",
        kind: Kind::Condition,
        required: true,
    },
    Member {
        name: "value",
        kind: Kind::Condition,
        required: false,
    },
    Member {
        name: "cardinality",
        kind: Kind::Text,
        required: false,
    },
    Member {
        name: "instructions",
        kind: Kind::Text,
        required: false,
    },
];

const PROPERTY: &[Member] = &[
    Member {
        name: "facet",
        kind: Kind::Text,
        required: true,
    },
    Member {
        name: "propertySet",
        kind: Kind::Condition,
        required: true,
    },
    Member {
        name: "baseName",
        kind: Kind::Condition,
        required: true,
    },
    Member {
        name: "dataType",
        kind: Kind::Text,
        required: false,
    },
    Member {
        name: "value",
        kind: Kind::Condition,
        required: false,
    },
    Member {
        name: "cardinality",
        kind: Kind::Text,
        required: false,
    },
    Member {
        name: "uri",
        kind: Kind::Text,
        required: false,
    },
    Member {
        name: "instructions",
        kind: Kind::Text,
        required: false,
    },
];

const CLASSIFICATION: &[Member] = &[
    Member {
        name: "facet",
        kind: Kind::Text,
        required: true,
    },
    Member {
        name: "system",
        kind: Kind::Condition,
        required: false,
    },
    Member {
        name: "value",
        kind: Kind::Condition,
        required: false,
    },
    Member {
        name: "cardinality",
        kind: Kind::Text,
        required: false,
    },
    Member {
        name: "uri",
        kind: Kind::Text,
        required: false,
    },
    Member {
        name: "instructions",
        kind: Kind::Text,
        required: false,
    },
];

const MATERIAL: &[Member] = &[
    Member {
        name: "facet",
        kind: Kind::Text,
        required: true,
    },
    Member {
        name: "value",
        kind: Kind::Condition,
        required: false,
    },
    Member {
        name: "cardinality",
        kind: Kind::Text,
        required: false,
    },
    Member {
        name: "uri",
        kind: Kind::Text,
        required: false,
    },
    Member {
        name: "instructions",
        kind: Kind::Text,
        required: false,
    },
];

const PART_OF: &[Member] = &[
    Member {
        name: "facet",
        kind: Kind::Text,
        required: true,
    },
    Member {
        name: "relation",
        kind: Kind::Relation,
        required: false,
    },
    Member {
        name: "entity",
        kind: Kind::Entity,
        required: false,
    },
    Member {
        name: "cardinality",
        kind: Kind::Text,
        required: false,
    },
    Member {
        name: "instructions",
        kind: Kind::Text,
        required: false,
    },
];

/// The entity of a partOf facet.
const ENTITY: &[Member] = &[
    Member {
        name: "name",
        kind: Kind::Condition,
        required: true,
    },
    Member {
        name: "predefinedType",
        kind: Kind::Condition,
        required: false,
    },
];

const CONDITION: &[Member] = &[
    Member {
        name: "simpleValue",
        kind: Kind::Text,
        required: false,
    },
    Member {
        name: "restriction",
        kind: Kind::Restriction,
        required: false,
    },
];

const RESTRICTION: &[Member] = &[
    Member {
        name: "base",
        kind: Kind::Text,
        required: true,
    },
    Member {
        name: "enumeration",
        kind: Kind::Texts,
        required: false,
    },
    Member {
        name: "pattern",
        kind: Kind::Texts,
        required: false,
    },
    Member {
        name: "minInclusive",
        kind: Kind::Text,
        required: false,
    },
    Member {
        name: "maxInclusive",
        kind: Kind::Text,
        required: false,
    },
    Member {
        name: "minExclusive",
        kind: Kind::Text,
        required: false,
    },
    Member {
        name: "maxExclusive",
        kind: Kind::Text,
        required: false,
    },
    Member {
        name: "length",
        kind: Kind::Text,
        required: false,
    },
    Member {
        name: "minLength",
        kind: Kind::Text,
        required: false,
    },
    Member {
        name: "maxLength",
        kind: Kind::Text,
        required: false,
    },
];

/// The members of the object.
#[tactic(auto, unfolding(crate::specs::Tables::table))]
pub(crate) fn table(object: Object) -> &'static [Member]
    ensures { rows result.now ≡ table object }
{
    match object {
        Object::Document => DOCUMENT,
        Object::Specification => SPECIFICATION,
        Object::Applicability => APPLICABILITY,
        Object::EntityFacet => ENTITY_FACET,
        Object::Attribute => ATTRIBUTE,
        Object::Property => PROPERTY,
        Object::Classification => CLASSIFICATION,
        Object::Material => MATERIAL,
        Object::PartOf => PART_OF,
        Object::Entity => ENTITY,
        Object::Condition => CONDITION,
        Object::Restriction => RESTRICTION,
    }
}
