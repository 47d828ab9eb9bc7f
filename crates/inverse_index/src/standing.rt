ghost use Rattle.std.specs.Prelude.{◌≡◌, ◌++◌, ◌&&◌, not, flat_map, map, IfOk, OnOk};
ghost use Rattle.std.specs.Option.{option_copied};
ghost use Rattle.ifc_base.specs.declared.key.Key.{Key};
ghost use Rattle.ifc_base.specs.declared.key.Key.TheVariants.{Inst, Refs};
ghost use Rattle.ifc_base.specs.Refs.{refs_of};
ghost use Rattle.schema_table.specs.Relationships.{references_at};
ghost use Rattle.inverse_index.specs.Index.{has_key, held_keys, keys_by, listed_keys, refs_keys};

use ifc_base::{InstId, Instance, Key, Memory, Role, refs_in};
use schema_table::{Relation, SchemaTable};
use std::alloc::Global;

/// Adds the key of each id in the role.
fn push_refs(ids: &[InstId], role: Role, keys: &mut Vec<Key>) -> Result<(), Memory>
    ensures { OnOk result (keys.new.items ≡ keys.old.items ++ map (λ i. Refs i role) ids.now) }
{
    for id in ids {
        keys.push(Key::Refs(*id, role))?;
    }
    Ok(())
}

/// Adds the key of each id itself.
fn push_own(ids: &[InstId], keys: &mut Vec<Key>) -> Result<(), Memory>
    ensures { OnOk result (keys.new.items ≡ keys.old.items ++ map (λ i. Inst i) ids.now) }
{
    for id in ids {
        keys.push(Key::Inst(*id))?;
    }
    Ok(())
}

/// The references anywhere within the parameter at this place, from 0.
fn references_at(alloc: Global, x: &Instance, place: u32) -> Result<Vec<InstId>, Memory>
    ensures { IfOk result (λ ids. ids.items ≡ references_at x.now.params place) }
{
    let mut ids = Vec::new(alloc);
    let Some(value) = x.params.as_slice().get(place as usize) else {
        return Ok(ids);
    };
    refs_in(value, &mut ids)?;
    Ok(ids)
}

/// The references of the instance, anywhere within its parameters, in reading order. `O(n)` in its size.
pub fn references(alloc: Global, x: &Instance) -> Result<Vec<InstId>, Memory>
    ensures { IfOk result (λ ids. ids.items ≡ flat_map refs_of x.now.params) }
{
    let mut ids = Vec::new(alloc);
    for value in x.params.as_slice() {
        refs_in(value, &mut ids)?;
    }
    Ok(ids)
}

/// Adds the keys in which the instance stands by this relationship.
fn push_by(
    alloc: Global,
    schema: &SchemaTable,
    x: &Instance,
    relation: &Relation,
    keys: &mut Vec<Key>,
) -> Result<(), Memory>
    ensures { OnOk result (keys.new.items ≡ keys.old.items ++ keys_by schema.now x.now relation.now) }
{
    if schema.is_kind_of(&x.entity, &relation.entity) {
        let ids = references_at(alloc, x, relation.place)?;
        push_refs(ids.as_slice(), relation.role, keys)?;
    }
    Ok(())
}

/// Adds the keys of referrers in which the instance stands, each as often as it is referred to. `O(n)` in
/// the size of the instance.
fn push_all_by(
    alloc: Global,
    schema: &SchemaTable,
    x: Option<&Instance>,
    keys: &mut Vec<Key>,
) -> Result<(), Memory>
    ensures { OnOk result (keys.new.items ≡ keys.old.items ++ refs_keys schema.now (option_copied x.entry)) }
{
    let Some(x) = x else {
        return Ok(());
    };
    for relation in schema.relations() {
        push_by(alloc, schema, x, relation, keys)?;
    }
    Ok(())
}

/// The keys of referrers in which the instance stands, each as often as it is referred to. `O(n)` in the
/// size of the instance.
pub(crate) fn refs_keys(
    alloc: Global,
    schema: &SchemaTable,
    x: Option<&Instance>,
) -> Result<Vec<Key>, Memory>
    ensures { IfOk result (λ keys. keys.items ≡ refs_keys schema.now (option_copied x.entry)) }
{
    let mut keys = Vec::new(alloc);
    push_all_by(alloc, schema, x, &mut keys)?;
    Ok(keys)
}

/// The keys of the ids to which the instance holds a reference, each as often as it does.
fn held_keys(alloc: Global, x: Option<&Instance>) -> Result<Vec<Key>, Memory>
    ensures { IfOk result (λ keys. keys.items ≡ held_keys (option_copied x.entry)) }
{
    let mut keys = Vec::new(alloc);
    let Some(x) = x else {
        return Ok(keys);
    };
    let ids = references(alloc, x)?;
    push_own(ids.as_slice(), &mut keys)?;
    Ok(keys)
}

/// The keys in whose lists the instance stands, each as often as it is referred to. `O(n)` in the size of
/// the instance.
pub(crate) fn listed_keys(
    alloc: Global,
    schema: &SchemaTable,
    x: Option<&Instance>,
) -> Result<Vec<Key>, Memory>
    ensures { IfOk result (λ keys. keys.items ≡ listed_keys schema.now (option_copied x.entry)) }
{
    let mut keys = held_keys(alloc, x)?;
    push_all_by(alloc, schema, x, &mut keys)?;
    Ok(keys)
}
