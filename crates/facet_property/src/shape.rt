ghost use Rattle.std.specs.Prelude.{◌≡◌, chars};
ghost use Rattle.facet_property.specs.Shapes.{shape_of, shape_entity};

use ifc_base::Name;
use schema_table::SchemaTable;

/// A kind of property that has values (ISO 16739-1, IfcSimpleProperty and IfcPhysicalSimpleQuantity), or any
/// other, which has none.
#[derive(Clone, Copy)]
pub(crate) enum Shape {
    Single,
    Enumerated,
    List,
    Bounded,
    Table,
    Length,
    Area,
    Volume,
    Count,
    Weight,
    Time,
    Other,
}

/// The entity of the kind.
#[tactic(auto, unfolding(crate::specs::Words::chars))]
fn shape_entity(shape: Shape) -> &'static str
    ensures { chars result.now ≡ shape_entity shape }
{
    match shape {
        Shape::Single => "IFCPROPERTYSINGLEVALUE",
        Shape::Enumerated => "IFCPROPERTYENUMERATEDVALUE",
        Shape::List => "IFCPROPERTYLISTVALUE",
        Shape::Bounded => "IFCPROPERTYBOUNDEDVALUE",
        Shape::Table => "IFCPROPERTYTABLEVALUE",
        Shape::Length => "IFCQUANTITYLENGTH",
        Shape::Area => "IFCQUANTITYAREA",
        Shape::Volume => "IFCQUANTITYVOLUME",
        Shape::Count => "IFCQUANTITYCOUNT",
        Shape::Weight => "IFCQUANTITYWEIGHT",
        Shape::Time => "IFCQUANTITYTIME",
        Shape::Other => "",
    }
}

/// The kinds that have values, in the order of the table.
const SHAPES: [Shape; 11] = [
    Shape::Single,
    Shape::Enumerated,
    Shape::List,
    Shape::Bounded,
    Shape::Table,
    Shape::Length,
    Shape::Area,
    Shape::Volume,
    Shape::Count,
    Shape::Weight,
    Shape::Time,
];

/// The first kind whose entity this one is a kind of.
#[tactic(auto, unfolding(crate::specs::Shapes::shape_of))]
pub(crate) fn shape_of(schema: &SchemaTable, entity: &Name) -> Shape
    ensures { result ≡ shape_of schema.now entity.now }
{
    for shape in SHAPES {
        if schema.is_kind_named(entity, shape_entity(shape)) {
            return shape;
        }
    }
    Shape::Other
}
