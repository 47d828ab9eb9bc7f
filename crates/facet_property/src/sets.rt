ghost use Rattle.std.specs.Prelude.{◌≡◌, ◌++◌, OnOk, filter, map, option_copied};
ghost use Rattle.std.specs.Option.{option_to_list};
ghost use Rattle.restrictions.specs.Admitting.{admits_text};
ghost use Rattle.audit_model.specs.Reading.{visit};
ghost use Rattle.audit_model.specs.Paths.{set_path};
ghost use Rattle.audit_model.specs.Properties.{set_name, properties_in};
ghost use Rattle.facet_property.specs.Held.{properties_of, texts_of, Finds, is_asked, own_seen, types_seen};

use crate::find::{Found, find_all, name_of};
use audit_model::{Look, PropertyFacet};
use facet_paths::{admits_name, held_ids, push_own_sets, push_sets_of_types, stand_all};
use ifc_base::{InstId, Instance, Key, Memory, Name};
use schema_table::SchemaTable;
use std::alloc::Global;

/// Adds the set's name, if the facet admits it, and those of its properties of which the facet speaks.
fn find_in_set<'a, L: Look>(
    alloc: Global,
    schema: &SchemaTable,
    look: &'a L,
    facet: &PropertyFacet,
    set: Option<&'a Instance>,
    ids: &[InstId],
    names: &mut Vec<&'a Name>,
    found: &mut Vec<Found<'a>>,
) -> Result<(), Memory>
    ensures names { OnOk result (texts_of names.new.items ≡ texts_of names.old.items ++ filter (admits_text facet.now.set) (option_to_list (set_name schema.now (record { itself = option_copied set.entry; properties = map (L.seen look.entry.now).instance ids.now })))) }
    ensures found { OnOk result (properties_of found.new.items ≡ properties_of found.old.items ++ filter (is_asked facet.now) (properties_in schema.now (record { itself = option_copied set.entry; properties = map (L.seen look.entry.now).instance ids.now }))) }
{
    let Some(set) = set else {
        return Ok(());
    };
    let Some(name) = name_of(schema, set) else {
        return Ok(());
    };
    if admits_name(alloc, &facet.set, name)? {
        names.push(name)?;
        find_all(alloc, schema, look, facet, name, ids, found)?;
    }
    Ok(())
}

/// Looks at a set and its properties.
fn look_at_set<'a, L: Look>(
    alloc: Global,
    schema: &SchemaTable,
    look: &'a L,
    facet: &PropertyFacet,
    id: InstId,
    names: &mut Vec<&'a Name>,
    found: &mut Vec<Found<'a>>,
    reads: &mut Vec<Key>,
) -> Result<(), Memory>
    ensures names { OnOk result (texts_of names.new.items ≡ texts_of names.old.items ++ filter (admits_text facet.now.set) (option_to_list (set_name schema.now ((set_path schema.now id).answer (L.seen look.entry.now))))) }
    ensures found { OnOk result (properties_of found.new.items ≡ properties_of found.old.items ++ filter (is_asked facet.now) (properties_in schema.now ((set_path schema.now id).answer (L.seen look.entry.now)))) }
    ensures reads { OnOk result (reads.new.items ≡ reads.old.items ++ (set_path schema.now id).keys (L.seen look.entry.now)) }
{
    reads.push(Key::Inst(id))?;
    let set = look.instance(id);
    let ids = held_ids(alloc, schema, set)?;
    stand_all(ids.as_slice(), reads)?;
    find_in_set(
        alloc,
        schema,
        look,
        facet,
        set,
        ids.as_slice(),
        names,
        found,
    )?;
    Ok(())
}

/// Looks at the sets and their properties.
fn look_at_sets<'a, L: Look>(
    alloc: Global,
    schema: &SchemaTable,
    look: &'a L,
    facet: &PropertyFacet,
    ids: &[InstId],
    names: &mut Vec<&'a Name>,
    found: &mut Vec<Found<'a>>,
    reads: &mut Vec<Key>,
) -> Result<(), Memory>
    ensures { OnOk result (Finds schema.now facet.now (visit (set_path schema.now) ids.now) (L.seen look.entry.now) names.old.items names.new.items found.old.items found.new.items reads.old.items reads.new.items) }
{
    for id in ids {
        look_at_set(alloc, schema, look, facet, *id, names, found, reads)?;
    }
    Ok(())
}

/// Looks at the sets of the element by itself.
pub(crate) fn look_at_own<'a, L: Look>(
    alloc: Global,
    schema: &SchemaTable,
    look: &'a L,
    facet: &PropertyFacet,
    elem: InstId,
    names: &mut Vec<&'a Name>,
    found: &mut Vec<Found<'a>>,
    reads: &mut Vec<Key>,
) -> Result<(), Memory>
    ensures { OnOk result (Finds schema.now facet.now (own_seen schema.now elem) (L.seen look.entry.now) names.old.items names.new.items found.old.items found.new.items reads.old.items reads.new.items) }
{
    let mut sets = Vec::new(alloc);
    push_own_sets(alloc, schema, look, elem, &mut sets, reads)?;
    look_at_sets(
        alloc,
        schema,
        look,
        facet,
        sets.as_slice(),
        names,
        found,
        reads,
    )?;
    Ok(())
}

/// Looks at the sets of the element's types.
pub(crate) fn look_at_types<'a, L: Look>(
    alloc: Global,
    schema: &SchemaTable,
    look: &'a L,
    facet: &PropertyFacet,
    elem: InstId,
    names: &mut Vec<&'a Name>,
    found: &mut Vec<Found<'a>>,
    reads: &mut Vec<Key>,
) -> Result<(), Memory>
    ensures { OnOk result (Finds schema.now facet.now (types_seen schema.now elem) (L.seen look.entry.now) names.old.items names.new.items found.old.items found.new.items reads.old.items reads.new.items) }
{
    let mut sets = Vec::new(alloc);
    push_sets_of_types(alloc, schema, look, elem, &mut sets, reads)?;
    look_at_sets(
        alloc,
        schema,
        look,
        facet,
        sets.as_slice(),
        names,
        found,
        reads,
    )?;
    Ok(())
}
