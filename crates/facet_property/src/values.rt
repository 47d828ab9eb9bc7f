ghost use Rattle.std.specs.Prelude.{◌≡◌, chars, IfOk, false, not, ◌&&◌, ◌||◌, ◌++◌, [], bytes_eq};
ghost use Rattle.std.specs.List.{list_any, list_all};
ghost use Rattle.std.specs.Option.{option_map_or};
ghost use Rattle.schema_table.specs.Values.{data_type, is_set};
ghost use Rattle.restrictions.specs.Admitting.{admits};
ghost use Rattle.audit_model.specs.Properties.Source.{Single, Members};
ghost use Rattle.facet_property.specs.Shapes.{values_at, shape_values, is_typed_so};
ghost use Rattle.facet_property.specs.Held.{all_of};

use crate::shape::Shape;
use audit_model::Restriction;
use facet_paths::{attribute_of, is_set, is_word};
use ifc_base::{Instance, Memory, Name, Value, ValueNode};
use schema_table::SchemaTable;
use std::alloc::Global;
use std::slice;

/// The value of the attribute, as a list of one, or none.
fn whole_of<'a>(schema: &SchemaTable, x: &'a Instance, attr: &str) -> &'a [Value]
    ensures { result.now ≡ values_at schema.now x.entry.now (Single (chars attr.now)) }
{
    match attribute_of(schema, x, attr) {
        None => &x.params.as_slice()[..0],
        Some(value) => slice::from_ref(value),
    }
}

/// The members of the list that the attribute is.
fn members_of<'a>(schema: &SchemaTable, x: &'a Instance, attr: &str) -> &'a [Value]
    ensures { result.now ≡ values_at schema.now x.entry.now (Members (chars attr.now)) }
{
    match attribute_of(schema, x, attr) {
        None => &x.params.as_slice()[..0],
        Some(value) => match &value.node {
            ValueNode::List(items) => items.as_slice(),
            _ => &x.params.as_slice()[..0],
        },
    }
}

/// Where a property has its values: up to three lists, one after another. They are borrowed.
#[derive(Clone, Copy)]
pub(crate) struct Values<'a> {
    pub first: &'a [Value],
    pub second: &'a [Value],
    pub third: &'a [Value],
}

/// These values alone.
fn one(first: &[Value]) -> Values<'_>
    ensures { all_of result ≡ first.entry.now ++ [] }
{
    Values {
        first,
        second: &first[..0],
        third: &first[..0],
    }
}

/// Where a property of this shape has its values.
#[tactic(auto, unfolding(crate::specs::Words::chars))]
pub(crate) fn shape_values<'a>(schema: &SchemaTable, shape: Shape, x: &'a Instance) -> Values<'a>
    ensures { all_of result ≡ shape_values schema.now shape x.entry.now }
{
    match shape {
        Shape::Single => one(whole_of(schema, x, "NominalValue")),
        Shape::Enumerated => one(members_of(schema, x, "EnumerationValues")),
        Shape::List => one(members_of(schema, x, "ListValues")),
        Shape::Bounded => Values {
            first: whole_of(schema, x, "UpperBoundValue"),
            second: whole_of(schema, x, "LowerBoundValue"),
            third: whole_of(schema, x, "SetPointValue"),
        },
        Shape::Table => {
            let first = members_of(schema, x, "DefiningValues");
            Values {
                first,
                second: members_of(schema, x, "DefinedValues"),
                third: &first[..0],
            }
        }
        Shape::Length => one(whole_of(schema, x, "LengthValue")),
        Shape::Area => one(whole_of(schema, x, "AreaValue")),
        Shape::Volume => one(whole_of(schema, x, "VolumeValue")),
        Shape::Count => one(whole_of(schema, x, "CountValue")),
        Shape::Weight => one(whole_of(schema, x, "WeightValue")),
        Shape::Time => one(whole_of(schema, x, "TimeValue")),
        Shape::Other => one(&x.params.as_slice()[..0]),
    }
}

/// Whether one of the values is set.
pub(crate) fn some_set(values: &[Value]) -> bool
    ensures { result ≡ list_any is_set values.now }
{
    values.iter().any(|v| is_set(v))
}

/// Whether the value's outermost typed wrapper has this keyword.
fn has_keyword(kind: &Name, value: &Value) -> bool
    ensures { result ≡ option_map_or (bytes_eq kind.now) (data_type value.now) false }
{
    match &value.node {
        ValueNode::Typed(name, _) => *kind == *name,
        _ => false,
    }
}

/// Whether the value of a property of this shape has this data type.
#[tactic(auto, unfolding(crate::specs::Words::chars))]
fn has_type(shape: Shape, kind: &Name, value: &Value) -> bool
    ensures { result ≡ is_typed_so kind.now shape value.now }
{
    match shape {
        Shape::Length => is_word(kind, "IFCLENGTHMEASURE"),
        Shape::Area => is_word(kind, "IFCAREAMEASURE"),
        Shape::Volume => is_word(kind, "IFCVOLUMEMEASURE"),
        Shape::Count => is_word(kind, "IFCCOUNTMEASURE"),
        Shape::Weight => is_word(kind, "IFCMASSMEASURE"),
        Shape::Time => is_word(kind, "IFCTIMEMEASURE"),
        _ => has_keyword(kind, value),
    }
}

/// Whether each of the values that are set has this data type.
pub(crate) fn all_typed(shape: Shape, kind: &Name, values: &[Value]) -> bool
    ensures { result ≡ list_all (λ v. not (is_set v) || is_typed_so kind.now shape v) values.now }
{
    values
        .iter()
        .all(|v| !is_set(v) || has_type(shape, kind, v))
}

/// Whether the condition admits one of the values that are set.
pub(crate) fn some_admitted(
    alloc: Global,
    condition: &Restriction,
    values: &[Value],
) -> Result<bool, Memory>
    ensures { IfOk result (λ b. b ≡ list_any (λ v. is_set v && admits condition.now v) values.now) }
{
    for value in values {
        if is_set(value) && condition.admits(alloc, value)? {
            return Ok(true);
        }
    }
    Ok(false)
}
