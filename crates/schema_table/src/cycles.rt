ghost use Rattle.std.specs.Prelude.{◌≡◌, ◌≤◌, [], length, None, position, find, slice_get, IfOk};
ghost use Rattle.std.specs.Option.{option_copied, option_map};
ghost use Rattle.schema_table.specs.declared.fault.SchemaFault.TheVariants as fault;
ghost use Rattle.schema_table.specs.Climbing.{parents_of};
ghost use Rattle.schema_table.specs.Declarations.{entity_fault, is_own_ancestor};

use crate::climbs::on_cycle;
use crate::fault::SchemaFault;
use ifc_base::{EntityDecl, Memory, TryCopy};
use std::alloc::Global;

/// The first place that is marked.
fn first_marked(marks: &[bool]) -> Option<usize>
    ensures { result ≡ position (λ mark. mark) marks.now }
{
    marks.iter().position(|mark| *mark)
}

/// The entity at this place.
fn entity_at(entities: &[EntityDecl], place: usize) -> Option<&EntityDecl>
    ensures { option_copied result ≡ slice_get entities.now place }
{
    entities.get(place)
}

/// The first entity that is its own ancestor, if one is.
fn first_on_cycle<'a>(
    alloc: Global,
    entities: &'a [EntityDecl],
    parents: &[Option<u32>],
) -> Result<Option<&'a EntityDecl>, Memory>
    requires few { length entities.now ≤ 5000 }
    requires names { entity_fault entities.now [] entities.now ≡ None }
    requires parents { parents.now ≡ parents_of entities.now }
    ensures { IfOk result (λ first. option_copied first ≡ find (is_own_ancestor entities.now) entities.now) }
{
    let marks = on_cycle(alloc, parents)?;
    match first_marked(&marks) {
        Some(place) => Ok(entity_at(entities, place)),
        None => Ok(None),
    }
}

/// The fault of the first entity that is its own ancestor, if one is.
pub(crate) fn cycle_fault(
    alloc: Global,
    entities: &[EntityDecl],
    parents: &[Option<u32>],
) -> Result<Option<SchemaFault>, Memory>
    requires few { length entities.now ≤ 5000 }
    requires names { entity_fault entities.now [] entities.now ≡ None }
    requires parents { parents.now ≡ parents_of entities.now }
    ensures { IfOk result (λ refused. refused
        ≡ option_map (λ d. fault.Cycle d.name) (find (is_own_ancestor entities.now) entities.now)) }
{
    match first_on_cycle(alloc, entities, parents)? {
        Some(entity) => {
            let name = entity.name.copy(alloc)?;
            Ok(Some(SchemaFault::Cycle { name }))
        }
        None => Ok(None),
    }
}
