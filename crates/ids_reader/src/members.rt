//! The members of an object, beside the table of those that it has.
ghost use Rattle.std.specs.Prelude.{◌≡◌, map, option_map, option_and_then};
ghost use Rattle.std.specs.List.{list_all, list_any};
ghost use Rattle.std.specs.Str.{bytes_eq};
ghost use Rattle.serde_json.specs.Find.{get, as_str};
ghost use Rattle.serde_json.specs.View.{view};
ghost use Rattle.ids_reader.specs.Members as spec;
ghost use Rattle.ids_reader.specs.Members.{items_of, items_at, is_in, is_text, are_texts, has_only, stands, is_of, plain_fits};
ghost use Rattle.ids_reader.specs.Tables.{row, table};

use crate::tables::{Kind, Member, Object, table};
use audit_model::Relation;
use serde_json::Value;

/// Whether a member of this name is in the table.
fn is_in(table: &[Member], name: &str) -> bool
    ensures { result ≡ list_any (λ m. bytes_eq m.name.now name.now) table.now }
{
    table.iter().any(|member| member.name == name)
}

/// Whether the object has a member of this name.
fn has_row(object: Object, name: &str) -> bool
    ensures { result ≡ is_in (table object) name.now }
{
    is_in(table(object), name)
}

/// Whether the value, if it is an object, has no member besides those of the table.
#[tactic(auto, unfolding(crate::specs::Members::has_only))]
pub(crate) fn has_only(object: Object, value: &Value) -> bool
    ensures { result ≡ has_only object (view value.now) }
{
    match value.as_object() {
        Some(map) => map.keys().all(|key| has_row(object, key.as_str())),
        None => true,
    }
}

/// The items of a list.
pub(crate) fn items_of(value: &Value) -> Option<&[Value]>
    ensures { option_map (λ items. map view items.now) result ≡ items_of (view value.now) }
{
    match value.as_array() {
        Some(items) => Some(items.as_slice()),
        None => None,
    }
}

/// The items of a member, none where it is no list.
pub(crate) fn items_at<'v>(name: &str, value: &'v Value) -> &'v [Value]
    ensures { map view result.now ≡ items_at name.now (view value.now) }
{
    match value.get(name) {
        Some(found) => match items_of(found) {
            Some(items) => items,
            None => &[],
        },
        None => &[],
    }
}

/// The text of a member that is one.
pub(crate) fn text_at<'v>(name: &str, value: &'v Value) -> Option<&'v str>
    ensures { option_map (λ text. text.now) result ≡ spec.text_at name.now (view value.now) }
{
    value.get(name).and_then(Value::as_str)
}

fn is_text(value: &Value) -> bool
    ensures { result ≡ is_text (view value.now) }
{
    value.is_string()
}

fn all_texts(items: &[Value]) -> bool
    ensures { result ≡ list_all (λ v. is_text (view v)) items.now }
{
    items.iter().all(is_text)
}

/// Whether the value is a list of strings.
#[tactic(auto, unfolding(crate::specs::Members::are_texts))]
fn are_texts(value: &Value) -> bool
    ensures { result ≡ are_texts (view value.now) }
{
    match items_of(value) {
        Some(items) => all_texts(items),
        None => false,
    }
}

/// The relation that the word names.
#[tactic(auto, unfolding(crate::specs::Members::relation_named))]
pub(crate) fn relation_named(text: &str) -> Option<Relation>
    ensures { result ≡ spec.relation_named text.now }
{
    match text {
        "IFCRELAGGREGATES" => Some(Relation::Aggregates),
        "IFCRELNESTS" => Some(Relation::Nests),
        "IFCRELCONTAINEDINSPATIALSTRUCTURE" => Some(Relation::Contained),
        "IFCRELASSIGNSTOGROUP" => Some(Relation::Group),
        "IFCRELVOIDSELEMENT IFCRELFILLSELEMENT" => Some(Relation::VoidsFills),
        _ => None,
    }
}

fn is_relation(value: &Value) -> bool
    ensures { result ≡ spec.is_relation (view value.now) }
{
    match value.as_str() {
        Some(text) => relation_named(text).is_some(),
        None => false,
    }
}

/// Whether the value is of this kind, where no object is asked for.
#[tactic(auto, unfolding(crate::specs::Members::plain_fits))]
pub(crate) fn plain_fits(kind: Kind, value: &Value) -> bool
    ensures { result ≡ plain_fits kind (view value.now) }
{
    match kind {
        Kind::Any => true,
        Kind::Text => is_text(value),
        Kind::Texts => are_texts(value),
        Kind::List => value.is_array(),
        Kind::Relation => is_relation(value),
        _ => false,
    }
}

/// Whether the member is there and of its kind, or is missing and may be; where no object is asked for.
fn plain_stands(member: &Member, value: &Value) -> bool
    ensures { result ≡ stands plain_fits (view value.now) (row member.now) }
{
    match value.get(member.name) {
        Some(found) => plain_fits(member.kind, found),
        None => !member.required,
    }
}

fn all_plain_stand(members: &[Member], value: &Value) -> bool
    ensures { result ≡ list_all (λ m. stands plain_fits (view value.now) (row m)) members.now }
{
    members.iter().all(|member| plain_stands(member, value))
}

/// Whether the value is an object with the members of its table, none of which is an object.
#[tactic(auto, unfolding(crate::specs::Members::is_of))]
pub(crate) fn is_plain(object: Object, value: &Value) -> bool
    ensures { result ≡ is_of plain_fits object (view value.now) }
{
    value.is_object() && all_plain_stand(table(object), value)
}
