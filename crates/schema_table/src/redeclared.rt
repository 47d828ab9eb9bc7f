ghost use Rattle.std.specs.Prelude.{◌≡◌, ◌<◌, [], length, None, Some, if◌then◌else◌, IfOk, slice_get, slice_set, bytes_eq};
ghost use Rattle.std.specs.List.{list_any};
ghost use Rattle.std.specs.Option.{option_and_then};
ghost use Rattle.schema_table.specs.Schema.{redeclares, upwards};
ghost use Rattle.schema_table.specs.Declarations.{schema_fault};
ghost use Rattle.schema_table.specs.Climbing.{parents_of, step};
ghost use Rattle.schema_table.specs.Order.{HasAll, IsParentsFirst};
ghost use Rattle.schema_table.specs.Redeclared.{AreLinks, redeclares_any, redeclares_this};

use crate::climbs::{further, step};
use ifc_base::{EntityDecl, Memory, Name};
use std::alloc::Global;

/// Whether the name is one of these.
pub(crate) fn is_among(names: &[Name], name: &Name) -> bool
    ensures { result ≡ list_any (bytes_eq name.now) names.now }
{
    names.iter().any(|other| *name == *other)
}

/// Whether the entity redeclares an attribute as derived.
fn redeclares_any(entities: &[EntityDecl], number: u32) -> bool
    ensures { result ≡ redeclares_any entities.now number }
{
    match entities.get(number as usize) {
        Some(entity) => entity.derived.as_slice().len() > 0,
        None => false,
    }
}

/// Whether the entity redeclares this attribute as derived.
fn redeclares_this(entities: &[EntityDecl], number: u32, attr: &Name) -> bool
    ensures { result ≡ redeclares_this entities.now attr.now number }
{
    match entities.get(number as usize) {
        Some(entity) => is_among(entity.derived.as_slice(), attr),
        None => false,
    }
}

/// The link of an entity, by that of its supertype.
fn link_of(
    entities: &[EntityDecl],
    parents: &[Option<u32>],
    links: &[Option<u32>],
    number: u32,
) -> Option<u32>
    ensures { result ≡ (if redeclares_any entities.now number then Some number
        else option_and_then (step links.now) (step parents.now number)) }
{
    if redeclares_any(entities, number) {
        Some(number)
    } else {
        further(links, step(parents, number))
    }
}

/// Sets the link of this number.
fn set_link(links: &mut Vec<Option<u32>>, number: u32, link: Option<u32>)
    ensures { links.new.items ≡ slice_set links.old.items number link }
{
    let place = number as usize;
    if place < links.len() {
        links[place] = link;
    }
}

/// For each entity the nearest of it and its supertypes that redeclares an attribute, where one does.
pub(crate) fn links(
    alloc: Global,
    entities: &[EntityDecl],
    parents: &[Option<u32>],
    order: &[u32],
) -> Result<Vec<Option<u32>>, Memory>
    requires faultless { schema_fault entities.now [] ≡ None }
    requires parents { parents.now ≡ parents_of entities.now }
    requires first { IsParentsFirst parents.now order.now }
    requires all { HasAll parents.now order.now }
    ensures { IfOk result (λ links. AreLinks entities.now links.items) }
{
    let mut links = vec![in alloc; None; entities.len()]?;
    for number in order {
        let link = link_of(entities, parents, &links, *number);
        set_link(&mut links, *number, link);
    }
    Ok(links)
}

/// Whether the entity or a supertype redeclares the attribute as derived.
pub(crate) fn is_redeclared(
    entities: &[EntityDecl],
    parents: &[Option<u32>],
    links: &[Option<u32>],
    number: u32,
    attr: &Name,
) -> bool
    requires faultless { schema_fault entities.now [] ≡ None }
    requires parents { parents.now ≡ parents_of entities.now }
    requires links { AreLinks entities.now links.now }
    requires inside { number < length entities.now }
    ensures { result ≡ redeclares (upwards entities.now (length entities.now) (slice_get entities.now number)) attr.now }
{
    let mut at = step(links, number);
    while let Some(found) = at {
        if redeclares_this(entities, found, attr) {
            return true;
        }
        at = further(links, step(parents, found));
    }
    false
}
