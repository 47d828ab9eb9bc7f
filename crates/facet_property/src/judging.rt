ghost use Rattle.std.specs.Prelude.{◌≡◌, IfOk, not, ◌&&◌, ◌||◌, true};
ghost use Rattle.std.specs.List.{list_any, list_all};
ghost use Rattle.std.specs.Option.{option_map_or};
ghost use Rattle.schema_table.specs.Values.{is_set};
ghost use Rattle.restrictions.specs.Admitting.{admits};
ghost use Rattle.facet_property.specs.Shapes.{is_typed_so};
ghost use Rattle.facet_property.specs.Held.{all_of, judged, property_of};

use crate::find::Found;
use crate::shape::{Shape, shape_of};
use crate::values::{Values, all_typed, shape_values, some_admitted, some_set};
use audit_model::{PropertyFacet, Restriction};
use ifc_base::{Memory, Name};
use schema_table::SchemaTable;
use std::alloc::Global;

/// What is said of properties.
#[derive(Clone, Copy)]
pub(crate) struct Judged {
    pub has_value: bool,
    pub is_good: bool,
}

/// Whether a value is set.
fn has_value(values: &Values) -> bool
    ensures { result ≡ list_any is_set (all_of values.now) }
{
    some_set(values.first) || some_set(values.second) || some_set(values.third)
}

/// Whether each value that is set has this data type.
fn are_of_type(shape: Shape, kind: &Name, values: &Values) -> bool
    ensures { result ≡ list_all (λ v. not (is_set v) || is_typed_so kind.now shape v) (all_of values.now) }
{
    all_typed(shape, kind, values.first)
        && all_typed(shape, kind, values.second)
        && all_typed(shape, kind, values.third)
}

/// Whether the condition admits a value that is set.
fn admits_one(alloc: Global, condition: &Restriction, values: &Values) -> Result<bool, Memory>
    ensures { IfOk result (λ b. b ≡ list_any (λ v. is_set v && admits condition.now v) (all_of values.now)) }
{
    if some_admitted(alloc, condition, values.first)? {
        return Ok(true);
    }
    if some_admitted(alloc, condition, values.second)? {
        return Ok(true);
    }
    let last = some_admitted(alloc, condition, values.third)?;
    Ok(last)
}

/// Whether the values are of the data type that is asked for, if one is.
fn is_typed(kind: &Option<Name>, shape: Shape, values: &Values) -> bool
    ensures { result ≡ option_map_or (λ name. list_any is_set (all_of values.now) && list_all (λ v. not (is_set v) || is_typed_so name shape v) (all_of values.now)) kind.now true }
{
    match kind {
        None => true,
        Some(kind) => has_value(values) && are_of_type(shape, kind, values),
    }
}

/// Whether a value is admitted by the condition, if there is one.
fn is_admitted(
    alloc: Global,
    condition: &Option<Restriction>,
    values: &Values,
) -> Result<bool, Memory>
    ensures { IfOk result (λ b. b ≡ option_map_or (λ c. list_any (λ v. is_set v && admits c v) (all_of values.now)) condition.now true) }
{
    match condition {
        None => Ok(true),
        Some(condition) => {
            let admitted = admits_one(alloc, condition, values)?;
            Ok(admitted)
        }
    }
}

/// Whether the property has a value, and whether it is good.
pub(crate) fn judge(
    alloc: Global,
    schema: &SchemaTable,
    facet: &PropertyFacet,
    property: &Found,
) -> Result<Judged, Memory>
    ensures { IfOk result (λ j. j ≡ judged schema.now facet.now (property_of property.now)) }
{
    let shape = shape_of(schema, &property.it.entity);
    let values = shape_values(schema, shape, property.it);
    let has_value = has_value(&values);
    let is_typed = is_typed(&facet.kind, shape, &values);
    let is_admitted = is_admitted(alloc, &facet.value, &values)?;
    Ok(judged_by(has_value, is_typed, is_admitted))
}

/// A property is good where it is of the data type and a value is admitted.
fn judged_by(has_value: bool, is_typed: bool, is_admitted: bool) -> Judged
    ensures { result ≡ record { has_value = has_value; is_good = is_typed && is_admitted } }
{
    Judged {
        has_value,
        is_good: is_typed && is_admitted,
    }
}
