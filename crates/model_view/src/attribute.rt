ghost use Rattle.std.specs.Prelude.{◌≡◌, IfOk};
ghost use Rattle.audit_model.specs.Edits.{edit_id, with_attribute};

use audit_model::Edit;
use ifc_base::{InstId, Instance, Memory, Name, TryCopy, Value, Values};
use schema_table::SchemaTable;
use std::alloc::Global;

/// The id of the instance that the edit adds, sets or removes. `O(1)`.
pub fn id_of(edit: &Edit) -> InstId
    ensures { result ≡ edit_id edit.now }
{
    match edit {
        Edit::Add(instance) => instance.id,
        Edit::Set { id, .. } => *id,
        Edit::Remove(id) => *id,
    }
}

/// The instance with this value as its attribute of this name; equal where its entity has none. It copies
/// the instance: `O(n)` in its size.
pub fn with_attribute(
    alloc: Global,
    schema: &SchemaTable,
    instance: &Instance,
    attr: &Name,
    value: &Value,
) -> Result<Instance, Memory>
    ensures { IfOk result (λ changed. changed ≡ with_attribute schema.now attr.now value.now instance.now) }
{
    let mut params = instance.params.copy(alloc)?.into_vec();
    if let Some(place) = schema.position(&instance.entity, attr) {
        let place = place as usize;
        if place < params.len() {
            params[place] = value.copy(alloc)?;
        }
    }
    let entity = instance.entity.copy(alloc)?;
    Ok(Instance {
        id: instance.id,
        entity,
        params: Values::from_vec(params),
    })
}
