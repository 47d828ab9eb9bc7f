ghost use Rattle.std.specs.Prelude.{◌≡◌, ◌||◌, IfOk, OnOk};
ghost use Rattle.ifc_base.specs.declared.key.Key.{Key};
ghost use Rattle.audit_model.specs.Models.{instance_at};
ghost use Rattle.audit_model.specs.Edits.{edit_id};
ghost use Rattle.audit_model.specs.Keys.{changes};
ghost use Rattle.inverse_index.specs.Index.{has_key};
ghost use Rattle.inverse_index.specs.Changed.{changed_at, KeysAscend};
ghost use Rattle.model_view.specs.Dangles.{KeepsOthers};

use crate::attribute::id_of;
use crate::indexed::Indexed;
use audit_model::Edit;
use ifc_base::{Key, Keys, Memory};
use inverse_index::{ascending_keys, push_changed};
use schema_table::SchemaTable;
use std::alloc::Global;

/// Adds the keys that change at the id which the edit names.
fn push_at(
    alloc: Global,
    schema: &SchemaTable,
    old: &Indexed,
    new: &Indexed,
    edit: &Edit,
    out: &mut Vec<Key>,
) -> Result<(), Memory>
    ensures { OnOk result ((k : Key) → has_key out.new.items k ≡ (has_key out.old.items k || changed_at schema.now (edit_id edit.now) (instance_at (edit_id edit.now) old.now.model) (instance_at (edit_id edit.now) new.now.model) k)) }
{
    let id = id_of(edit);
    let before = old.instance(id);
    let after = new.instance(id);
    push_changed(alloc, schema, id, before, after, out)?;
    Ok(())
}

/// The keys whose contents differ in the two models, of which the new one has at each id that no edit names what
/// the old one has: ascending and each once. An edit that a later one takes back changes nothing. `O(n log n)`
/// in the size of the instances that the edits name, as they were and as they are.
pub(crate) fn changed_keys(
    alloc: Global,
    schema: &SchemaTable,
    old: &Indexed,
    new: &Indexed,
    edits: &[Edit],
) -> Result<Keys, Memory>
    requires { KeepsOthers edits.now old.now.model new.now.model }
    ensures changed { IfOk result (λ keys. (k : Key) → has_key keys k ≡ changes schema.now old.now.model new.now.model k) }
    ensures ascending { IfOk result (λ keys. KeysAscend keys) }
{
    old.ascends();
    new.ascends();
    let mut keys = Vec::new(alloc);
    for edit in edits {
        push_at(alloc, schema, old, new, edit, &mut keys)?;
    }
    let keys = ascending_keys(alloc, keys.as_slice())?;
    Ok(keys)
}
