//! Objects within objects: whether a value and what stands within its members have the form.
ghost use Rattle.std.specs.Prelude.{◌≡◌, ◌+◌, codes, length, map, nat_lt};
ghost use Rattle.std.specs.List.{list_all};
ghost use Rattle.serde_json.specs.View.{view};
ghost use Rattle.ids_reader.specs.Members.{stands, is_of};
ghost use Rattle.ids_reader.specs.Conditions as spec;
ghost use Rattle.ids_reader.specs.Conditions.{within, fits, has_known, is_small};
ghost use Rattle.ids_reader.specs.Tables.{row};

use crate::members::{has_only, is_plain, items_at, plain_fits};
use crate::tables::{Kind, Member, Object, table};
use serde_json::Value;

/// How many enumerations and patterns a restriction may have together.
const MOST_TEXTS: usize = 1000;

// ---- no member besides those of the tables

#[tactic(auto, unfolding(crate::specs::Conditions::condition_has_known))]
fn condition_has_known(value: &Value) -> bool
    ensures { result ≡ spec.condition_has_known (view value.now) }
{
    has_only(Object::Condition, value)
        && match value.get("restriction") {
            Some(parts) => has_only(Object::Restriction, parts),
            None => true,
        }
}

fn condition_at_has_known(name: &str, value: &Value) -> bool
    ensures { result ≡ spec.at_member spec.condition_has_known name.now (view value.now) }
{
    match value.get(name) {
        Some(condition) => condition_has_known(condition),
        None => true,
    }
}

#[tactic(auto, unfolding(crate::specs::Conditions::entity_has_known))]
fn entity_has_known(value: &Value) -> bool
    ensures { result ≡ spec.entity_has_known (view value.now) }
{
    has_only(Object::Entity, value)
        && condition_at_has_known("name", value)
        && condition_at_has_known("predefinedType", value)
}

#[tactic(auto, unfolding(crate::specs::Conditions::kind_has_known))]
fn kind_has_known(kind: Kind, value: &Value) -> bool
    ensures { result ≡ spec.kind_has_known kind (view value.now) }
{
    match kind {
        Kind::Condition => condition_has_known(value),
        Kind::Entity => entity_has_known(value),
        Kind::Applicability => has_only(Object::Applicability, value),
        _ => true,
    }
}

fn member_has_known(member: &Member, value: &Value) -> bool
    ensures { result ≡ within spec.kind_has_known (view value.now) (row member.now) }
{
    match value.get(member.name) {
        Some(found) => kind_has_known(member.kind, found),
        None => true,
    }
}

/// Whether neither the value nor what stands within its members has a member that the tables have not.
#[tactic(auto, unfolding(crate::specs::Conditions::has_known))]
pub(crate) fn has_known(object: Object, value: &Value) -> bool
    ensures { result ≡ has_known object (view value.now) }
{
    has_only(object, value) && all_have_known(table(object), value)
}

fn all_have_known(members: &[Member], value: &Value) -> bool
    ensures { result ≡ list_all (λ m. within spec.kind_has_known (view value.now) (row m)) members.now }
{
    members.iter().all(|member| member_has_known(member, value))
}

// ---- each member there and of its kind

#[tactic(auto, unfolding(crate::specs::Conditions::condition_fits))]
fn condition_fits(value: &Value) -> bool
    ensures { result ≡ spec.condition_fits (view value.now) }
{
    match (value.get("simpleValue"), value.get("restriction")) {
        (Some(text), None) => text.is_string(),
        (None, Some(parts)) => is_plain(Object::Restriction, parts),
        _ => false,
    }
}

#[tactic(auto, unfolding(crate::specs::Conditions::entity_fits))]
fn entity_fits(value: &Value) -> bool
    ensures { result ≡ spec.entity_fits (view value.now) }
{
    let name = match value.get("name") {
        Some(name) => condition_fits(name),
        None => false,
    };
    let predefined = match value.get("predefinedType") {
        Some(predefined) => condition_fits(predefined),
        None => true,
    };
    name && predefined
}

#[tactic(auto, unfolding(crate::specs::Conditions::fits))]
fn kind_fits(kind: Kind, value: &Value) -> bool
    ensures { result ≡ fits kind (view value.now) }
{
    match kind {
        Kind::Condition => condition_fits(value),
        Kind::Entity => entity_fits(value),
        Kind::Applicability => is_plain(Object::Applicability, value),
        _ => plain_fits(kind, value),
    }
}

fn member_stands(member: &Member, value: &Value) -> bool
    ensures { result ≡ stands fits (view value.now) (row member.now) }
{
    match value.get(member.name) {
        Some(found) => kind_fits(member.kind, found),
        None => !member.required,
    }
}

/// Whether the value is an object with the members of the table, each of its kind.
#[tactic(auto, unfolding(crate::specs::Members::is_of))]
pub(crate) fn is_object_of(object: Object, value: &Value) -> bool
    ensures { result ≡ is_of fits object (view value.now) }
{
    value.is_object() && all_stand(table(object), value)
}

fn all_stand(members: &[Member], value: &Value) -> bool
    ensures { result ≡ list_all (λ m. stands fits (view value.now) (row m)) members.now }
{
    members.iter().all(|member| member_stands(member, value))
}

// ---- not too many texts of a restriction

/// Whether these are more enumerations and patterns together than a restriction may have.
fn are_many(enumerations: &[Value], patterns: &[Value]) -> bool
    ensures { result ≡ nat_lt 1000 (length (map view enumerations.now) + length (map view patterns.now)) }
{
    enumerations.len() + patterns.len() > MOST_TEXTS
}

/// Whether a restriction has no more enumerations and patterns together than it may.
#[tactic(auto, unfolding(crate::specs::Conditions::restriction_is_small))]
fn restriction_is_small(parts: &Value) -> bool
    ensures { result ≡ spec.restriction_is_small (view parts.now) }
{
    !are_many(items_at("enumeration", parts), items_at("pattern", parts))
}

fn condition_is_small(value: &Value) -> bool
    ensures { result ≡ spec.condition_is_small (view value.now) }
{
    match value.get("restriction") {
        Some(parts) => restriction_is_small(parts),
        None => true,
    }
}

fn condition_at_is_small(name: &str, value: &Value) -> bool
    ensures { result ≡ spec.at_member spec.condition_is_small name.now (view value.now) }
{
    match value.get(name) {
        Some(condition) => condition_is_small(condition),
        None => true,
    }
}

#[tactic(auto, unfolding(crate::specs::Conditions::entity_is_small))]
fn entity_is_small(value: &Value) -> bool
    ensures { result ≡ spec.entity_is_small (view value.now) }
{
    condition_at_is_small("name", value) && condition_at_is_small("predefinedType", value)
}

#[tactic(auto, unfolding(crate::specs::Conditions::kind_is_small))]
fn kind_is_small(kind: Kind, value: &Value) -> bool
    ensures { result ≡ spec.kind_is_small kind (view value.now) }
{
    match kind {
        Kind::Condition => condition_is_small(value),
        Kind::Entity => entity_is_small(value),
        _ => true,
    }
}

fn member_is_small(member: &Member, value: &Value) -> bool
    ensures { result ≡ within spec.kind_is_small (view value.now) (row member.now) }
{
    match value.get(member.name) {
        Some(found) => kind_is_small(member.kind, found),
        None => true,
    }
}

fn all_are_small(members: &[Member], value: &Value) -> bool
    ensures { result ≡ list_all (λ m. within spec.kind_is_small (view value.now) (row m)) members.now }
{
    members.iter().all(|member| member_is_small(member, value))
}

/// Whether no restriction within the members of the value has too many enumerations and patterns.
#[tactic(auto, unfolding(crate::specs::Conditions::is_small))]
pub(crate) fn is_small(object: Object, value: &Value) -> bool
    ensures { result ≡ is_small object (view value.now) }
{
    all_are_small(table(object), value)
}
