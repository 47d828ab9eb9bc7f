ghost use Rattle.std.specs.Prelude.{◌≡◌, ◌≤◌, false, [], nat_lt, length, is_none, encode_utf8_all, IfOk};
ghost use Rattle.std.specs.List.{list_any};
ghost use Rattle.std.specs.Option.{option_map_or};
ghost use Rattle.indexmap.specs.IndexMap.{get_by_text};
ghost use Rattle.schema_table.specs.Climbing.{is_number};
ghost use Rattle.schema_table.specs.Declarations.{are_too_many, entity_fault};
ghost use Rattle.schema_table.specs.Index.{IsIndex, index_fault};

use crate::fault::SchemaFault;
use crate::index::{Index, number_of};
use ifc_base::{EntityDecl, Memory, Name, TryCopy, TypeDecl};
use std::alloc::Global;

/// The most entities and types together.
const MOST_DECLARATIONS: usize = 5000;

/// The most own attributes of an entity.
const MOST_OWN_ATTRIBUTES: usize = 200;

/// Whether an entity has more own attributes than are taken.
fn has_too_many_own(entities: &[EntityDecl]) -> bool
    ensures { result ≡ list_any (λ d. nat_lt 200 (length d.own)) entities.now }
{
    entities
        .iter()
        .any(|entity| entity.own.as_slice().len() > MOST_OWN_ATTRIBUTES)
}

/// Whether the declarations, or the own attributes of one entity, are more than are taken.
pub(crate) fn are_too_many(entities: &[EntityDecl], types: &[TypeDecl]) -> bool
    ensures { result ≡ are_too_many entities.now types.now }
{
    entities.len().saturating_add(types.len()) > MOST_DECLARATIONS || has_too_many_own(entities)
}

/// Whether this is the number of the name.
fn has_number(index: &Index, name: &Name, number: u32) -> bool
    ensures { result ≡ is_number (get_by_text index.now (encode_utf8_all name.now)) number }
{
    match number_of(index, name.as_str()) {
        Some(first) => number == first,
        None => false,
    }
}

/// Whether a supertype is named that has no number.
fn has_unknown_super(index: &Index, entity: &EntityDecl) -> bool
    ensures { result ≡ option_map_or (λ parent. is_none (get_by_text index.now (encode_utf8_all parent))) entity.now.parent false }
{
    match &entity.parent {
        Some(parent) => number_of(index, parent.as_str()).is_none(),
        None => false,
    }
}

/// Why the entity of this number is refused, if it is.
fn refused(
    alloc: Global,
    index: &Index,
    number: u32,
    entity: &EntityDecl,
) -> Result<Option<SchemaFault>, Memory>
    ensures { IfOk result (λ fault. fault ≡ index_fault index.now number entity.now) }
{
    if !has_number(index, &entity.name, number) {
        let name = entity.name.copy(alloc)?;
        return Ok(Some(SchemaFault::Twice { name }));
    }
    if has_unknown_super(index, entity) {
        let name = entity.name.copy(alloc)?;
        return Ok(Some(SchemaFault::UnknownSuper { name }));
    }
    Ok(None)
}

/// Why one of the entities is refused for its name or its supertype's, if one is: the first in order.
pub(crate) fn names_fault(
    alloc: Global,
    index: &Index,
    entities: &[EntityDecl],
) -> Result<Option<SchemaFault>, Memory>
    requires few { length entities.now ≤ 5000 }
    requires index { IsIndex entities.now index.now }
    ensures { IfOk result (λ fault. fault ≡ entity_fault entities.now [] entities.now) }
{
    for (number, entity) in entities.iter().enumerate() {
        if let Some(fault) = refused(alloc, index, number as u32, entity)? {
            return Ok(Some(fault));
        }
    }
    Ok(None)
}
