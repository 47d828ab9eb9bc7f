//! One specification, and the list of them.
ghost use Rattle.std.specs.Prelude.{◌≡◌, ◌≤◌, ◌+◌, false, map, codes, length, nat_lt, IfOk};
ghost use Rattle.std.specs.List.{list_any};
ghost use Rattle.serde_json.specs.View.{view};
ghost use Rattle.ids_reader.specs.Members.{items_at};
ghost use Rattle.ids_reader.specs.Reads.{Answers, placed};
ghost use Rattle.ids_reader.specs.Sides as sides;
ghost use Rattle.ids_reader.specs.Sides.{facets_from};
ghost use Rattle.ids_reader.specs.Specifications.{in_applicability, in_requirements, is_for, limited, occurs_of, says};
ghost use Rattle.ids_reader.specs.Specifications.{says_schema, specification_of, specifications_from, stated_by};
ghost use Rattle.ids_reader.specs.Standing.{form_of};

use crate::fault::{IdsCause, IdsFault};
use crate::members::{items_at, text_at};
use crate::side::{alone, facets_of};
use crate::standing::{Setting, Side, form_of};
use crate::tables::Object;
use audit_model::{Occurs, Requirements, Specification, Specifications};
use ifc_base::{Listed, Name, Refusal};
use schema_table::SchemaTable;
use serde_json::Value;
use std::alloc::Global;

/// How many facets one side of a specification may have.
const MOST_FACETS: usize = 64;

// ---- for the model

fn is_text_of(name: &Name, value: &Value) -> bool
    ensures { result ≡ says_schema name.now (view value.now) }
{
    match value.as_str() {
        Some(text) => text == name.as_str(),
        None => false,
    }
}

fn names_schema(schema_id: &Name, items: &[Value]) -> bool
    ensures { result ≡ list_any (λ v. says_schema schema_id.now (view v)) items.now }
{
    items.iter().any(|item| is_text_of(schema_id, item))
}

/// Whether the specification names the schema.
#[tactic(auto, unfolding(crate::specs::Specifications::is_for))]
fn is_for(schema_id: &Name, value: &Value) -> bool
    ensures { result ≡ is_for schema_id.now (view value.now) }
{
    names_schema(schema_id, items_at("ifcVersion", value))
}

// ---- how often elements may be there

fn says(name: &str, text: &str, value: &Value) -> bool
    ensures { result ≡ says name.now text.now (view value.now) }
{
    match text_at(name, value) {
        Some(said) => said == text,
        None => false,
    }
}

/// How often elements may be there, if it is one of the three pairs.
#[tactic(auto, unfolding(crate::specs::Specifications::occurs_of))]
fn occurs_of(applicability: &Value) -> Option<Occurs>
    ensures { result ≡ occurs_of (view applicability.now) }
{
    if says("maxOccurs", "unbounded", applicability) {
        if says("minOccurs", "0", applicability) {
            Some(Occurs::Optional)
        } else if says("minOccurs", "1", applicability) {
            Some(Occurs::Required)
        } else {
            None
        }
    } else if says("maxOccurs", "0", applicability) {
        if says("minOccurs", "0", applicability) {
            Some(Occurs::Prohibited)
        } else {
            None
        }
    } else {
        None
    }
}

// ---- the causes for the specification itself

/// Whether these are more than the facets that a side may have.
fn is_long(items: &[Value]) -> bool
    ensures { result ≡ nat_lt 64 (length (map view items.now)) }
{
    items.len() > MOST_FACETS
}

/// How often elements may be there, where no side has too many facets.
#[tactic(auto, unfolding(crate::specs::Specifications::limited))]
fn limited(value: &Value, applicability: &Value) -> Result<Occurs, Refusal<IdsCause>>
    ensures exact { Answers (limited (view applicability.now) (view value.now)) result }
    ensures few { IfOk result (λ _. length (items_at (codes "facets") (view applicability.now)) ≤ 64) }
    ensures few_required { IfOk result (λ _. length (items_at (codes "requirements") (view value.now)) ≤ 64) }
{
    if is_long(items_at("facets", applicability)) || is_long(items_at("requirements", value)) {
        return Err(Refusal::Fault(IdsCause::TooMany));
    }
    match occurs_of(applicability) {
        Some(occurs) => Ok(occurs),
        None => Err(Refusal::Fault(IdsCause::Occurs)),
    }
}

/// The form of a specification, at place 0.
fn form_at(number: u32, value: &Value) -> Result<(), Refusal<IdsFault>>
    ensures { Answers (placed number 0 (form_of Object.Specification (view value.now))) result }
{
    match form_of(Object::Specification, value) {
        Ok(()) => Ok(()),
        Err(Refusal::Fault(why)) => Err(Refusal::Fault(IdsFault {
            spec: number,
            place: 0,
            why,
        })),
        Err(Refusal::Memory) => Err(Refusal::Memory),
    }
}

/// How often elements may be there, at place 0.
fn limited_at(
    number: u32,
    value: &Value,
    applicability: &Value,
) -> Result<Occurs, Refusal<IdsFault>>
    ensures exact { Answers (placed number 0 (limited (view applicability.now) (view value.now))) result }
    ensures few { IfOk result (λ _. length (items_at (codes "facets") (view applicability.now)) ≤ 64) }
    ensures few_required { IfOk result (λ _. length (items_at (codes "requirements") (view value.now)) ≤ 64) }
{
    match limited(value, applicability) {
        Ok(occurs) => Ok(occurs),
        Err(Refusal::Fault(why)) => Err(Refusal::Fault(IdsFault {
            spec: number,
            place: 0,
            why,
        })),
        Err(Refusal::Memory) => Err(Refusal::Memory),
    }
}

// ---- its facets

/// The facets of the applicability, from place 1.
fn applicable_of(
    alloc: Global,
    schema: &SchemaTable,
    number: u32,
    for_model: bool,
    applicability: &Value,
) -> Result<Requirements, Refusal<IdsFault>>
    requires { length (items_at (codes "facets") (view applicability.now)) ≤ 64 }
    ensures { Answers (facets_from schema.now (in_applicability number for_model) 1 false
        (items_at (codes "facets") (view applicability.now))) result }
{
    let setting = Setting {
        spec: number,
        side: Side::Applicability,
        for_model,
    };
    facets_of(alloc, schema, setting, 1, items_at("facets", applicability))
}

/// The facets of the requirements, behind those of the applicability.
fn required_of(
    alloc: Global,
    schema: &SchemaTable,
    number: u32,
    for_model: bool,
    first: u32,
    value: &Value,
) -> Result<Requirements, Refusal<IdsFault>>
    requires few { length (items_at (codes "requirements") (view value.now)) ≤ 64 }
    requires first { first ≤ 65 }
    ensures { Answers (facets_from schema.now (in_requirements number for_model) first false
        (items_at (codes "requirements") (view value.now))) result }
{
    let setting = Setting {
        spec: number,
        side: Side::Requirements,
        for_model,
    };
    facets_of(
        alloc,
        schema,
        setting,
        first,
        items_at("requirements", value),
    )
}

/// The place behind the applicability's facets.
fn first_required(applicability: &Value) -> u32
    requires { length (items_at (codes "facets") (view applicability.now)) ≤ 64 }
    ensures { result ≡ 1 + length (items_at (codes "facets") (view applicability.now)) }
{
    1 + items_at("facets", applicability).len() as u32
}

/// What a specification of the form says.
#[tactic(auto, unfolding(crate::specs::Specifications::stated_by))]
fn stated_by(
    alloc: Global,
    schema: &SchemaTable,
    number: u32,
    for_model: bool,
    applicability: &Value,
    value: &Value,
) -> Result<Specification, Refusal<IdsFault>>
    ensures { Answers (stated_by schema.now number for_model (view applicability.now) (view value.now)) result }
{
    let occurs = limited_at(number, value, applicability)?;
    let first = first_required(applicability);
    let applicable = applicable_of(alloc, schema, number, for_model, applicability)?;
    let requirements = required_of(alloc, schema, number, for_model, first, value)?;
    Ok(Specification {
        number,
        for_model,
        occurs,
        applicability: alone(alloc, applicable)?,
        requirements,
    })
}

/// What a specification says, or its first fault.
#[tactic(auto, unfolding(crate::specs::Specifications::specification_of))]
fn specification_of(
    alloc: Global,
    schema: &SchemaTable,
    schema_id: &Name,
    number: u32,
    value: &Value,
) -> Result<Specification, Refusal<IdsFault>>
    ensures { Answers (specification_of schema.now schema_id.now number (view value.now)) result }
{
    form_at(number, value)?;
    let for_model = is_for(schema_id, value);
    match value.get("applicability") {
        Some(applicability) => stated_by(alloc, schema, number, for_model, applicability, value),
        None => Err(Refusal::Fault(IdsFault {
            spec: number,
            place: 0,
            why: IdsCause::Shape,
        })),
    }
}

/// The specifications of a list, numbered from 1. `O(n)` in the size of the list.
pub(crate) fn specifications_of(
    alloc: Global,
    schema: &SchemaTable,
    schema_id: &Name,
    items: &[Value],
) -> Result<Specifications, Refusal<IdsFault>>
    requires { length items.now ≤ 1000 }
    ensures { Answers (specifications_from schema.now schema_id.now 1 (map view items.now)) result }
{
    let mut found = Vec::new(alloc);
    let mut number = 1;
    for item in items {
        let read = specification_of(alloc, schema, schema_id, number, item);
        let specification = match read {
            Ok(specification) => specification,
            Err(Refusal::Fault(fault)) => return Err(Refusal::Fault(fault)),
            Err(Refusal::Memory) => return Err(Refusal::Memory),
        };
        found.push(specification)?;
        number += 1;
    }
    Ok(Listed::from_vec(found))
}
