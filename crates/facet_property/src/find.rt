ghost use Rattle.std.specs.Prelude.{◌≡◌, ◌++◌, OnOk, flat_map, codes, option_copied};
ghost use Rattle.schema_table.specs.Attributes.{text};
ghost use Rattle.facet_property.specs.Held.{properties_of, asked_under};

use audit_model::{Look, PropertyFacet};
use facet_paths::{admits_name, text_at};
use ifc_base::{InstId, Instance, Memory, Name};
use schema_table::SchemaTable;
use std::alloc::Global;

/// A property under the name of its set and its own. All three are borrowed from the model.
#[derive(Clone, Copy)]
pub(crate) struct Found<'a> {
    pub set: &'a Name,
    pub name: &'a Name,
    pub it: &'a Instance,
}

/// The name of a set or of a property, if it has one.
#[tactic(auto, unfolding(crate::specs::Words::chars))]
pub(crate) fn name_of<'a>(schema: &SchemaTable, x: &'a Instance) -> Option<&'a Name>
    ensures { option_copied result ≡ text schema.now x.entry.now (codes "Name") }
{
    text_at(schema, x, "Name")
}

/// Adds the property, if it is there and has an admitted name.
fn find_one<'a, L: Look>(
    alloc: Global,
    schema: &SchemaTable,
    look: &'a L,
    facet: &PropertyFacet,
    set: &'a Name,
    id: InstId,
    found: &mut Vec<Found<'a>>,
) -> Result<(), Memory>
    ensures { OnOk result (properties_of found.new.items ≡ properties_of found.old.items ++ asked_under schema.now facet.now set.entry.now ((L.seen look.entry.now).instance id)) }
{
    let Some(it) = look.instance(id) else {
        return Ok(());
    };
    let Some(name) = name_of(schema, it) else {
        return Ok(());
    };
    if admits_name(alloc, &facet.base_name, name)? {
        found.push(Found { set, name, it })?;
    }
    Ok(())
}

/// Adds the properties that are there and have admitted names.
pub(crate) fn find_all<'a, L: Look>(
    alloc: Global,
    schema: &SchemaTable,
    look: &'a L,
    facet: &PropertyFacet,
    set: &'a Name,
    ids: &[InstId],
    found: &mut Vec<Found<'a>>,
) -> Result<(), Memory>
    ensures { OnOk result (properties_of found.new.items ≡ properties_of found.old.items ++ flat_map (λ i. asked_under schema.now facet.now set.entry.now ((L.seen look.entry.now).instance i)) ids.now) }
{
    for id in ids {
        find_one(alloc, schema, look, facet, set, *id, found)?;
    }
    Ok(())
}
