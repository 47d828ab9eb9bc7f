//! Whether a facet may stand where it stands.
ghost use Rattle.std.specs.Prelude.{◌≡◌, option_and_then};
ghost use Rattle.serde_json.specs.View.{view};
ghost use Rattle.audit_model.specs.Specifications as model;
ghost use Rattle.ids_reader.specs.Reads.{Answers};
ghost use Rattle.ids_reader.specs.Standing.{cardinality_named, cardinality_of, cardinality_said, facet_named};
ghost use Rattle.ids_reader.specs.Standing.{form_of, head_of, is_allowed, is_entity_kind, kind_said};
ghost use Rattle.ids_reader.specs.Standing.{may_require, object_of, size_of, word_of};

use crate::condition::{has_known, is_object_of, is_small};
use crate::fault::IdsCause;
use crate::members::text_at;
use crate::tables::{FacetKind, Object};
use audit_model::Cardinality;
use ifc_base::Refusal;
use serde_json::Value;

/// A side of a specification.
#[derive(Clone, Copy, Debug)]
pub(crate) enum Side {
    Applicability,
    Requirements,
}

/// What the facets of one side have to know of their specification: its number, which side it is, and whether the
/// specification is for the model.
#[derive(Clone, Copy, Debug)]
pub(crate) struct Setting {
    pub spec: u32,
    pub side: Side,
    pub for_model: bool,
}

// ---- its kind

#[tactic(auto, unfolding(crate::specs::Standing::facet_named))]
fn facet_named(text: &str) -> Option<FacetKind>
    ensures { result ≡ facet_named text.now }
{
    match text {
        "entity" => Some(FacetKind::Entity),
        "attribute" => Some(FacetKind::Attribute),
        "property" => Some(FacetKind::Property),
        "classification" => Some(FacetKind::Classification),
        "material" => Some(FacetKind::Material),
        "partOf" => Some(FacetKind::PartOf),
        _ => None,
    }
}

/// The kind of facet that a value says it is.
fn kind_said(value: &Value) -> Option<FacetKind>
    ensures { result ≡ kind_said (view value.now) }
{
    match text_at("facet", value) {
        Some(text) => facet_named(text),
        None => None,
    }
}

#[tactic(auto, unfolding(crate::specs::Standing::is_entity_kind))]
fn is_entity_kind(kind: FacetKind) -> bool
    ensures { result ≡ is_entity_kind kind }
{
    match kind {
        FacetKind::Entity => true,
        FacetKind::Attribute
        | FacetKind::Property
        | FacetKind::Classification
        | FacetKind::Material
        | FacetKind::PartOf => false,
    }
}

/// Its kind, where no entity facet stands on a side that is closed for it.
#[tactic(auto, unfolding(crate::specs::Standing::word_of))]
fn word_of(closed: bool, value: &Value) -> Result<FacetKind, Refusal<IdsCause>>
    ensures { Answers (word_of closed (view value.now)) result }
{
    match kind_said(value) {
        Some(kind) => {
            if closed && is_entity_kind(kind) {
                Err(Refusal::Fault(IdsCause::Shape))
            } else {
                Ok(kind)
            }
        }
        None => Err(Refusal::Fault(IdsCause::Shape)),
    }
}

// ---- its form

/// The object that a facet of this kind is.
#[tactic(auto, unfolding(crate::specs::Standing::object_of))]
fn object_of(kind: FacetKind) -> Object
    ensures { result ≡ object_of kind }
{
    match kind {
        FacetKind::Entity => Object::EntityFacet,
        FacetKind::Attribute => Object::Attribute,
        FacetKind::Property => Object::Property,
        FacetKind::Classification => Object::Classification,
        FacetKind::Material => Object::Material,
        FacetKind::PartOf => Object::PartOf,
    }
}

/// The form of an object: no members besides those of its table, and then those of its table, each of its kind.
#[tactic(auto, unfolding(crate::specs::Standing::form_of))]
pub(crate) fn form_of(object: Object, value: &Value) -> Result<(), Refusal<IdsCause>>
    ensures { Answers (form_of object (view value.now)) result }
{
    if !has_known(object, value) {
        return Err(Refusal::Fault(IdsCause::UnknownMember));
    }
    if !is_object_of(object, value) {
        return Err(Refusal::Fault(IdsCause::Shape));
    }
    Ok(())
}

// ---- its cardinality

#[tactic(auto, unfolding(crate::specs::Standing::cardinality_named))]
fn cardinality_named(text: &str) -> Option<Cardinality>
    ensures { result ≡ cardinality_named text.now }
{
    match text {
        "required" => Some(Cardinality::Required),
        "optional" => Some(Cardinality::Optional),
        "prohibited" => Some(Cardinality::Prohibited),
        _ => None,
    }
}

/// The cardinality that it says, required where it says none.
#[tactic(auto, unfolding(crate::specs::Standing::cardinality_said))]
fn cardinality_said(value: &Value) -> Option<Cardinality>
    ensures { result ≡ cardinality_said (view value.now) }
{
    match text_at("cardinality", value) {
        Some(text) => cardinality_named(text),
        None => Some(Cardinality::Required),
    }
}

fn is_required(cardinality: Cardinality) -> bool
    ensures { result ≡ model.is_required cardinality }
{
    match cardinality {
        Cardinality::Required => true,
        Cardinality::Optional | Cardinality::Prohibited => false,
    }
}

fn is_optional(cardinality: Cardinality) -> bool
    ensures { result ≡ model.is_optional cardinality }
{
    match cardinality {
        Cardinality::Optional => true,
        Cardinality::Required | Cardinality::Prohibited => false,
    }
}

/// Whether a requirement of this kind may have the cardinality.
#[tactic(auto, unfolding(crate::specs::Standing::may_require))]
fn may_require(kind: FacetKind, cardinality: Cardinality) -> bool
    ensures { result ≡ may_require kind cardinality }
{
    match kind {
        FacetKind::Entity => is_required(cardinality),
        FacetKind::PartOf => !is_optional(cardinality),
        FacetKind::Attribute
        | FacetKind::Property
        | FacetKind::Classification
        | FacetKind::Material => true,
    }
}

/// Whether a facet of this kind may have the cardinality on its side.
#[tactic(auto, unfolding(crate::specs::Standing::is_allowed))]
fn is_allowed(side: Side, kind: FacetKind, cardinality: Cardinality) -> bool
    ensures { result ≡ is_allowed side kind cardinality }
{
    match side {
        Side::Applicability => is_required(cardinality),
        Side::Requirements => may_require(kind, cardinality),
    }
}

#[tactic(auto, unfolding(crate::specs::Standing::cardinality_of))]
fn cardinality_of(
    side: Side,
    kind: FacetKind,
    value: &Value,
) -> Result<Cardinality, Refusal<IdsCause>>
    ensures { Answers (cardinality_of side kind (view value.now)) result }
{
    match cardinality_said(value) {
        Some(cardinality) => {
            if is_allowed(side, kind, cardinality) {
                Ok(cardinality)
            } else {
                Err(Refusal::Fault(IdsCause::Cardinality))
            }
        }
        None => Err(Refusal::Fault(IdsCause::Cardinality)),
    }
}

// ---- together

/// Refuses an object with a restriction of too many texts.
#[tactic(auto, unfolding(crate::specs::Standing::size_of))]
fn size_of(object: Object, value: &Value) -> Result<(), Refusal<IdsCause>>
    ensures { Answers (size_of object (view value.now)) result }
{
    if is_small(object, value) {
        Ok(())
    } else {
        Err(Refusal::Fault(IdsCause::TooMany))
    }
}

/// Its kind and its cardinality, or the first cause for which it may not stand there.
#[tactic(auto, unfolding(crate::specs::Standing::head_of))]
pub(crate) fn head_of(
    side: Side,
    closed: bool,
    value: &Value,
) -> Result<(FacetKind, Cardinality), Refusal<IdsCause>>
    ensures { Answers (head_of side closed (view value.now)) result }
{
    let kind = word_of(closed, value)?;
    let object = object_of(kind);
    form_of(object, value)?;
    let cardinality = cardinality_of(side, kind, value)?;
    size_of(object, value)?;
    Ok((kind, cardinality))
}
