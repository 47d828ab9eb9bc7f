ghost use Rattle.std.specs.Prelude.{◌≡◌, ◌≤◌, length, map, IfOk, OnOk};
ghost use Rattle.std.specs.Option.{option_copied};
ghost use Rattle.indexmap.specs.IndexMap.{get_by_text};
ghost use Rattle.schema_table.specs.Index.{IsIndex, LeadsBesides, indexed_parent};

use ifc_base::{EntityDecl, Memory};
use indexmap::IndexMap;
use std::alloc::{AllocError, Global};

/// The numbers of entities by their names, the names in declared order.
pub(crate) type Index = IndexMap<String, u32>;

/// The number of the first entity of this name.
pub(crate) fn number_of(index: &Index, name: &str) -> Option<u32>
    ensures { result ≡ get_by_text index.now name.now }
{
    index.get(name).copied()
}

/// Notes the number of an entity, unless the name has one.
fn note_number(alloc: Global, index: &mut Index, name: &str, number: u32) -> Result<(), Memory>
    ensures { OnOk result (LeadsBesides index.old index.new name.now number) }
{
    if !index.contains_key(name) {
        index.insert(String::from_str(alloc, name)?, number)?;
    }
    Ok(())
}

/// The numbers of the entities by their names; of entities of one name the first one's.
pub(crate) fn index_of(alloc: Global, entities: &[EntityDecl]) -> Result<Index, Memory>
    requires { length entities.now ≤ 5000 }
    ensures { IfOk result (λ index. IsIndex entities.now index) }
{
    let mut index = IndexMap::new(alloc);
    for (number, entity) in entities.iter().enumerate() {
        note_number(alloc, &mut index, entity.name.as_str(), number as u32)?;
    }
    Ok(index)
}

/// The number of the entity's supertype.
fn parent_of(index: &Index, entity: &EntityDecl) -> Option<u32>
    ensures { result ≡ indexed_parent index.now entity.now }
{
    match &entity.parent {
        Some(parent) => number_of(index, parent.as_str()),
        None => None,
    }
}

/// The number of each entity's supertype.
pub(crate) fn parents(
    alloc: Global,
    index: &Index,
    entities: &[EntityDecl],
) -> Result<Vec<Option<u32>>, AllocError>
    ensures { IfOk result (λ parents. parents.items ≡ map (indexed_parent index.now) entities.now) }
{
    entities
        .iter()
        .map(|entity| parent_of(index, entity))
        .collect(alloc)
}
