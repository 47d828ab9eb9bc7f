//! What each facet says, once its form is known.
ghost use Rattle.std.specs.Prelude.{◌≡◌, is_some, IfOk, option_map};
ghost use Rattle.std.specs.Str.{chars};
ghost use Rattle.serde_json.specs.View.{view};
ghost use Rattle.schema_table.specs.Schema.{declaration};
ghost use Rattle.ids_reader.specs.Facets as spec;
ghost use Rattle.ids_reader.specs.Facets.{attribute_of, classification_of, entity_at, entity_of, material_of};
ghost use Rattle.ids_reader.specs.Facets.{part_of_of, property_of, relation_of, value_of};
ghost use Rattle.ids_reader.specs.Reads.{Answers};

use crate::fault::IdsCause;
use crate::members::{relation_named, text_at};
use crate::tables::FacetKind;
use crate::value::{restriction_at, restriction_wanted};
use audit_model::{
    AttributeFacet, ClassificationFacet, EntityFacet, Facet, MaterialFacet, PartOfFacet,
    PropertyFacet, Relation,
};
use ifc_base::{Memory, Name, Refusal};
use schema_table::SchemaTable;
use serde_json::Value;
use std::alloc::Global;

// ---- what each facet says

#[tactic(auto, unfolding(crate::specs::Facets::entity_of))]
fn entity_of(alloc: Global, value: &Value) -> Result<EntityFacet, Refusal<IdsCause>>
    ensures { Answers (entity_of (view value.now)) result }
{
    let name = restriction_wanted(alloc, "name", value)?;
    let predefined = restriction_at(alloc, "predefinedType", value)?;
    Ok(EntityFacet { name, predefined })
}

#[tactic(auto, unfolding(crate::specs::Facets::attribute_of))]
fn attribute_of(alloc: Global, value: &Value) -> Result<AttributeFacet, Refusal<IdsCause>>
    ensures { Answers (attribute_of (view value.now)) result }
{
    let name = restriction_wanted(alloc, "name", value)?;
    let value = restriction_at(alloc, "value", value)?;
    Ok(AttributeFacet { name, value })
}

/// The text in upper case.
fn upper(alloc: Global, text: &str) -> Result<Name, Memory>
    ensures { IfOk result (λ name. name ≡ spec.upper text.now) }
{
    let upper = text.to_ascii_uppercase(alloc)?;
    Name::from_str(alloc, upper.as_str())
}

/// The text of a member in upper case, if it has one.
fn upper_at(alloc: Global, name: &str, value: &Value) -> Result<Option<Name>, Memory>
    ensures { IfOk result (λ found. found ≡ spec.upper_at name.now (view value.now)) }
{
    match text_at(name, value) {
        Some(text) => Ok(Some(upper(alloc, text)?)),
        None => Ok(None),
    }
}

#[tactic(auto, unfolding(crate::specs::Facets::property_of))]
fn property_of(alloc: Global, value: &Value) -> Result<PropertyFacet, Refusal<IdsCause>>
    ensures { Answers (property_of (view value.now)) result }
{
    let kind = upper_at(alloc, "dataType", value)?;
    let set = restriction_wanted(alloc, "propertySet", value)?;
    let base_name = restriction_wanted(alloc, "baseName", value)?;
    let value = restriction_at(alloc, "value", value)?;
    Ok(PropertyFacet {
        set,
        base_name,
        kind,
        value,
    })
}

#[tactic(auto, unfolding(crate::specs::Facets::classification_of))]
fn classification_of(alloc: Global, value: &Value) -> Result<ClassificationFacet, Refusal<IdsCause>>
    ensures { Answers (classification_of (view value.now)) result }
{
    let system = restriction_at(alloc, "system", value)?;
    let value = restriction_at(alloc, "value", value)?;
    Ok(ClassificationFacet { system, value })
}

#[tactic(auto, unfolding(crate::specs::Facets::material_of))]
fn material_of(alloc: Global, value: &Value) -> Result<MaterialFacet, Refusal<IdsCause>>
    ensures { Answers (material_of (view value.now)) result }
{
    let value = restriction_at(alloc, "value", value)?;
    Ok(MaterialFacet { value })
}

/// The relation that a partOf facet names, any where it names none.
#[tactic(auto, unfolding(crate::specs::Facets::relation_of))]
fn relation_of(value: &Value) -> Relation
    ensures { result ≡ relation_of (view value.now) }
{
    match text_at("relation", value) {
        Some(text) => relation_named(text).unwrap_or(Relation::Any),
        None => Relation::Any,
    }
}

/// The entity at a member, if one stands there.
#[tactic(auto, unfolding(crate::specs::Facets::entity_at))]
fn entity_at(
    alloc: Global,
    name: &str,
    value: &Value,
) -> Result<Option<EntityFacet>, Refusal<IdsCause>>
    ensures { Answers (entity_at name.now (view value.now)) result }
{
    match value.get(name) {
        Some(entity) => match entity_of(alloc, entity) {
            Ok(facet) => Ok(Some(facet)),
            Err(refused) => Err(refused),
        },
        None => Ok(None),
    }
}

#[tactic(auto, unfolding(crate::specs::Facets::part_of_of))]
fn part_of_of(alloc: Global, value: &Value) -> Result<PartOfFacet, Refusal<IdsCause>>
    ensures { Answers (part_of_of (view value.now)) result }
{
    let entity = entity_at(alloc, "entity", value)?;
    Ok(PartOfFacet {
        relation: relation_of(value),
        entity,
    })
}

/// What a facet of this kind says.
#[tactic(auto, unfolding(crate::specs::Facets::value_of))]
pub(crate) fn value_of(
    alloc: Global,
    kind: FacetKind,
    value: &Value,
) -> Result<Facet, Refusal<IdsCause>>
    ensures { Answers (value_of kind (view value.now)) result }
{
    match kind {
        FacetKind::Entity => Ok(Facet::Entity(entity_of(alloc, value)?)),
        FacetKind::Attribute => Ok(Facet::Attribute(attribute_of(alloc, value)?)),
        FacetKind::Property => Ok(Facet::Property(property_of(alloc, value)?)),
        FacetKind::Classification => Ok(Facet::Classification(classification_of(alloc, value)?)),
        FacetKind::Material => Ok(Facet::Material(material_of(alloc, value)?)),
        FacetKind::PartOf => Ok(Facet::PartOf(part_of_of(alloc, value)?)),
    }
}

// ---- the entity that it names

/// The simple name of an entity, if it has one.
fn simple_name(value: &Value) -> Option<&str>
    ensures { option_map (λ text. text.now) result ≡ spec.simple_name (view value.now) }
{
    match value.get("name") {
        Some(name) => text_at("simpleValue", name),
        None => None,
    }
}

/// The simple name of the entity that a facet of this kind asks for.
#[tactic(auto, unfolding(crate::specs::Facets::named_entity))]
fn named_entity(kind: FacetKind, value: &Value) -> Option<&str>
    ensures { option_map (λ text. text.now) result ≡ spec.named_entity kind (view value.now) }
{
    match kind {
        FacetKind::Entity => simple_name(value),
        FacetKind::PartOf => match value.get("entity") {
            Some(entity) => simple_name(entity),
            None => None,
        },
        FacetKind::Attribute
        | FacetKind::Property
        | FacetKind::Classification
        | FacetKind::Material => None,
    }
}

/// Whether the schema declares no entity of this name.
fn is_undeclared(alloc: Global, schema: &SchemaTable, text: &str) -> Result<bool, Memory>
    ensures { IfOk result (λ unknown. unknown ≡ spec.is_undeclared schema.now text.now) }
{
    let name = Name::from_str(alloc, text)?;
    Ok(schema.attributes(&name).is_none())
}

/// Whether the facet names an entity that the schema doesn't declare.
pub(crate) fn names_unknown(
    alloc: Global,
    schema: &SchemaTable,
    kind: FacetKind,
    value: &Value,
) -> Result<bool, Memory>
    ensures { IfOk result (λ unknown. unknown ≡ spec.names_unknown schema.now kind (view value.now)) }
{
    match named_entity(kind, value) {
        Some(text) => is_undeclared(alloc, schema, text),
        None => Ok(false),
    }
}
