ghost use Rattle.std.specs.Prelude.{◌≡◌, ◌∷◌, [], Some, option_copied, chars, codes, map};
ghost use Rattle.std.specs.Option.{option_and_then, unwrap_or};
ghost use Rattle.std.specs.Str.{bytes_eq};
ghost use Rattle.schema_table.specs.Attributes.{attribute, text};
ghost use Rattle.schema_table.specs.Values.{enumeration};
ghost use Rattle.audit_model.specs.Facets.{first_there, predefined_named, own_predefined, predefined_of};

use crate::texts::{attribute_of, is_word, text_at};
use audit_model::Look;
use ifc_base::{InstId, Instance, Name, ValueNode};
use schema_table::SchemaTable;

/// The name of the enumeration value that the attribute is.
fn enumeration_at<'a>(schema: &SchemaTable, x: &'a Instance, attr: &str) -> Option<&'a Name>
    ensures { option_copied result ≡ option_and_then enumeration (attribute schema.now x.entry.now (chars attr.now)) }
{
    match attribute_of(schema, x, attr) {
        None => None,
        Some(value) => match &value.node {
            ValueNode::Enumer(name) => Some(name),
            _ => None,
        },
    }
}

/// The text that says what a user-defined type is, else the name itself.
#[tactic(auto, unfolding(crate::specs::Words::chars))]
fn user_defined<'a>(schema: &SchemaTable, x: &'a Instance, name: &'a Name) -> &'a Name
    ensures { result.now ≡ unwrap_or (first_there (text schema.now x.entry.now (codes "ObjectType") ∷ text schema.now x.entry.now (codes "ElementType") ∷ text schema.now x.entry.now (codes "ProcessType") ∷ [])) name.entry.now }
{
    if let Some(text) = text_at(schema, x, "ObjectType") {
        return text;
    }
    if let Some(text) = text_at(schema, x, "ElementType") {
        return text;
    }
    if let Some(text) = text_at(schema, x, "ProcessType") {
        return text;
    }
    name
}

/// The predefined type that this name of an enumeration value stands for.
#[tactic(auto, unfolding(crate::specs::Words::chars))]
fn predefined_named<'a>(schema: &SchemaTable, x: &'a Instance, name: &'a Name) -> Option<&'a Name>
    ensures { option_copied result ≡ predefined_named schema.now x.entry.now name.entry.now }
{
    if is_word(name, "NOTDEFINED") {
        return None;
    }
    if is_word(name, "USERDEFINED") {
        return Some(user_defined(schema, x, name));
    }
    Some(name)
}

/// The predefined type of the instance by itself.
#[tactic(auto, unfolding(crate::specs::Words::chars))]
fn own_predefined<'a>(schema: &SchemaTable, x: &'a Instance) -> Option<&'a Name>
    ensures { option_copied result ≡ own_predefined schema.now x.entry.now }
{
    match enumeration_at(schema, x, "PredefinedType") {
        None => None,
        Some(name) => predefined_named(schema, x, name),
    }
}

/// The predefined type of the instance with this id, if it is there and has one.
fn predefined_at<'a, L: Look>(schema: &SchemaTable, look: &'a L, id: InstId) -> Option<&'a Name>
    ensures { option_copied result ≡ option_and_then (own_predefined schema.now) ((L.seen look.entry.now).instance id) }
{
    match look.instance(id) {
        None => None,
        Some(x) => own_predefined(schema, x),
    }
}

/// The first predefined type of the instances with these ids.
fn first_predefined<'a, L: Look>(
    schema: &SchemaTable,
    look: &'a L,
    ids: &[InstId],
) -> Option<&'a Name>
    ensures { option_copied result ≡ first_there (map (λ i. option_and_then (own_predefined schema.now) ((L.seen look.entry.now).instance i)) ids.now) }
{
    for id in ids {
        if let Some(name) = predefined_at(schema, look, *id) {
            return Some(name);
        }
    }
    None
}

/// The predefined type of the element with this id: its own, else that of the first of its types that has one.
pub fn predefined_of<'a, L: Look>(
    schema: &SchemaTable,
    look: &'a L,
    elem: InstId,
    types: &[InstId],
) -> Option<&'a Name>
    ensures { option_copied result ≡ predefined_of schema.now (record { itself = (L.seen look.entry.now).instance elem; types = map (L.seen look.entry.now).instance types.now }) }
{
    match predefined_at(schema, look, elem) {
        Some(name) => Some(name),
        None => first_predefined(schema, look, types),
    }
}
