//! The facets of one side of a specification.
ghost use Rattle.std.specs.Prelude.{◌≡◌, ◌+◌, ◌<◌, ◌≤◌, ◌^◌, false, length, map, IfOk};
ghost use Rattle.serde_json.specs.View.{view};
ghost use Rattle.audit_model.specs.Specifications as model;
ghost use Rattle.ids_reader.specs.Reads.{Answers};
ghost use Rattle.ids_reader.specs.Sides as spec;
ghost use Rattle.ids_reader.specs.Sides.{closed_after, declared_of, facet_at, facet_of, facets_from};

use crate::facet::{names_unknown, value_of};
use crate::fault::{IdsCause, IdsFault};
use crate::standing::{Setting, Side, head_of};
use crate::tables::FacetKind;
use audit_model::{Facet, Facets, Requirement, Requirements};
use ifc_base::{Listed, Memory, Refusal};
use schema_table::SchemaTable;
use serde_json::Value;
use std::alloc::Global;

/// The facet, where the entity that it names is declared.
#[tactic(auto, unfolding(crate::specs::Sides::declared_of))]
fn declared_of(
    alloc: Global,
    schema: &SchemaTable,
    for_model: bool,
    kind: FacetKind,
    value: &Value,
) -> Result<Facet, Refusal<IdsCause>>
    ensures { Answers (declared_of schema.now for_model kind (view value.now)) result }
{
    let facet = value_of(alloc, kind, value)?;
    if for_model && names_unknown(alloc, schema, kind, value)? {
        return Err(Refusal::Fault(IdsCause::UnknownEntity));
    }
    Ok(facet)
}

/// What a facet says in its specification, and its cardinality; or the first cause for which it is refused.
#[tactic(auto, unfolding(crate::specs::Sides::facet_of))]
fn facet_of(
    alloc: Global,
    schema: &SchemaTable,
    setting: Setting,
    closed: bool,
    value: &Value,
) -> Result<Requirement, Refusal<IdsCause>>
    ensures { Answers (facet_of schema.now setting closed (view value.now)) result }
{
    let (kind, cardinality) = head_of(setting.side, closed, value)?;
    let facet = declared_of(alloc, schema, setting.for_model, kind, value)?;
    Ok(Requirement { facet, cardinality })
}

/// A facet at its place.
#[tactic(auto, unfolding(crate::specs::Sides::facet_at))]
fn facet_at(
    alloc: Global,
    schema: &SchemaTable,
    setting: Setting,
    place: u32,
    closed: bool,
    value: &Value,
) -> Result<Requirement, Refusal<IdsFault>>
    ensures { Answers (facet_at schema.now setting place closed (view value.now)) result }
{
    match facet_of(alloc, schema, setting, closed, value) {
        Ok(requirement) => Ok(requirement),
        Err(Refusal::Fault(why)) => Err(Refusal::Fault(IdsFault {
            spec: setting.spec,
            place,
            why,
        })),
        Err(Refusal::Memory) => Err(Refusal::Memory),
    }
}

fn is_applicability(side: Side) -> bool
    ensures { result ≡ spec.is_applicability side }
{
    match side {
        Side::Applicability => true,
        Side::Requirements => false,
    }
}

fn is_entity(facet: &Facet) -> bool
    ensures { result ≡ model.is_entity facet.now }
{
    match facet {
        Facet::Entity(_) => true,
        _ => false,
    }
}

/// Whether no entity facet may stand behind this facet.
#[tactic(auto, unfolding(crate::specs::Sides::closed_after))]
fn closed_after(side: Side, closed: bool, facet: &Facet) -> bool
    ensures { result ≡ closed_after side closed facet.now }
{
    closed || (is_applicability(side) && is_entity(facet))
}

/// The facets of a list, the first of which stands at the place `first`. `O(n)` in the size of the list.
pub(crate) fn facets_of(
    alloc: Global,
    schema: &SchemaTable,
    setting: Setting,
    first: u32,
    items: &[Value],
) -> Result<Requirements, Refusal<IdsFault>>
    requires { first + length items.now < 2 ^ 32 }
    ensures { Answers (facets_from schema.now setting first false (map view items.now)) result }
{
    let mut found = Vec::new(alloc);
    let mut place = first;
    let mut closed = false;
    for item in items {
        let read = facet_at(alloc, schema, setting, place, closed, item);
        let requirement = match read {
            Ok(requirement) => requirement,
            Err(Refusal::Fault(fault)) => return Err(Refusal::Fault(fault)),
            Err(Refusal::Memory) => return Err(Refusal::Memory),
        };
        closed = closed_after(setting.side, closed, &requirement.facet);
        found.push(requirement)?;
        place += 1;
    }
    Ok(Listed::from_vec(found))
}

/// The facets of these requirements, in their order.
fn facets_in(alloc: Global, requirements: Vec<Requirement>) -> Result<Vec<Facet>, Memory>
    ensures { IfOk result (λ facets. facets.items ≡ spec.alone requirements.items) }
{
    let mut facets = Vec::new(alloc);
    for requirement in requirements {
        facets.push(requirement.facet)?;
    }
    Ok(facets)
}

/// The facets without their cardinalities.
pub(crate) fn alone(alloc: Global, requirements: Requirements) -> Result<Facets, Memory>
    ensures { IfOk result (λ facets. facets ≡ spec.alone requirements) }
{
    Ok(Listed::from_vec(facets_in(alloc, requirements.into_vec())?))
}
