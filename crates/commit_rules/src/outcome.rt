ghost use Rattle.std.specs.Prelude.{◌≡◌, None, Some, IfOk, OnOk};
ghost use Rattle.std.specs.Option.{option_copied, option_map};
ghost use Rattle.ifc_base.specs.Refusals.{OnFault};
ghost use Rattle.schema_table.specs.Faults.{instance_fault};
ghost use Rattle.audit_model.specs.declared.commit.EditFault.TheVariants.{Schema};
ghost use Rattle.audit_model.specs.Judging.{edit_fault};
ghost use Rattle.commit_rules.specs.Overlays.{IsLeft};

use audit_model::{Edit, EditFault, Limits};
use ifc_base::{InstId, Instance, Name, Refusal, TryCopy, Value};
use model_view::with_attribute;
use schema_table::SchemaTable;
use std::alloc::Global;

/// Refuses the instance, which an edit of this id adds or changes, where it doesn't fit the schema.
fn fits(
    alloc: Global,
    schema: &SchemaTable,
    id: InstId,
    instance: &Instance,
) -> Result<(), Refusal<EditFault>>
    ensures fits { OnOk result (instance_fault schema.now instance.now ≡ None) }
    ensures fault { OnFault result (λ fault. option_map (Schema id) (instance_fault schema.now instance.now) ≡ Some fault) }
{
    match schema.check_instance(alloc, instance) {
        Ok(()) => Ok(()),
        Err(Refusal::Fault(fault)) => Err(Refusal::Fault(EditFault::Schema { id, fault })),
        Err(Refusal::Memory) => Err(Refusal::Memory),
    }
}

/// What an edit that can be done leaves: the instance that stands at its id then, or none, and how many instances
/// there are.
#[derive(Drop)]
pub(crate) struct Left {
    pub(crate) now: Option<Instance>,
    pub(crate) count: u32,
}

/// What adding the instance leaves, where `held` is what stands at its id; or why it can't be added.
fn added(
    alloc: Global,
    schema: &SchemaTable,
    limits: Limits,
    held: Option<&Instance>,
    count: u32,
    instance: &Instance,
) -> Result<Left, Refusal<EditFault>>
    ensures done { IfOk result (λ left. IsLeft schema.now limits (option_copied held.entry) count (Edit.Add instance.now) left) }
    ensures fault { OnFault result (λ fault. edit_fault schema.now limits (option_copied held.entry) count (Edit.Add instance.now) ≡ Some fault) }
{
    let id = instance.id;
    if held.is_some() {
        return Err(Refusal::Fault(EditFault::IdTaken { id }));
    }
    fits(alloc, schema, id, instance)?;
    if count >= limits.instances {
        return Err(Refusal::Fault(EditFault::TooManyInstances));
    }
    let instance = instance.copy(alloc)?;
    Ok(Left {
        now: Some(instance),
        count: count + 1,
    })
}

/// What setting the attribute of the instance `held`, which stands at the id, leaves; or why it can't be set.
fn changed(
    alloc: Global,
    schema: &SchemaTable,
    limits: Limits,
    held: Option<&Instance>,
    count: u32,
    id: InstId,
    attr: &Name,
    value: &Value,
) -> Result<Left, Refusal<EditFault>>
    ensures done { IfOk result (λ left. IsLeft schema.now limits (option_copied held.entry) count (Edit.Set id attr.now value.now) left) }
    ensures fault { OnFault result (λ fault. edit_fault schema.now limits (option_copied held.entry) count (Edit.Set id attr.now value.now) ≡ Some fault) }
{
    let _ = limits;
    let Some(instance) = held else {
        return Err(Refusal::Fault(EditFault::NoInstance { id }));
    };
    if schema.position(&instance.entity, attr).is_none() {
        let attr = attr.copy(alloc)?;
        return Err(Refusal::Fault(EditFault::NoAttribute { id, attr }));
    }
    let changed = with_attribute(alloc, schema, instance, attr, value)?;
    fits(alloc, schema, id, &changed)?;
    Ok(Left {
        now: Some(changed),
        count,
    })
}

/// What removing the instance `held`, which stands at the id, leaves; or why it can't be removed.
fn removed(
    schema: &SchemaTable,
    limits: Limits,
    held: Option<&Instance>,
    count: u32,
    id: InstId,
) -> Result<Left, Refusal<EditFault>>
    ensures done { IfOk result (λ left. IsLeft schema.now limits (option_copied held.entry) count (Edit.Remove id) left) }
    ensures fault { OnFault result (λ fault. edit_fault schema.now limits (option_copied held.entry) count (Edit.Remove id) ≡ Some fault) }
{
    let _ = schema;
    let _ = limits;
    if held.is_none() {
        return Err(Refusal::Fault(EditFault::NoInstance { id }));
    }
    Ok(Left {
        now: None,
        count: count.saturating_sub(1),
    })
}

/// What the edit leaves, where `held` is what stands at its id and `count` how many instances there are; or why it
/// can't be done. `O(p)` in the size of the instance, which it copies.
pub(crate) fn outcome(
    alloc: Global,
    schema: &SchemaTable,
    limits: Limits,
    held: Option<&Instance>,
    count: u32,
    edit: &Edit,
) -> Result<Left, Refusal<EditFault>>
    ensures done { IfOk result (λ left. IsLeft schema.now limits (option_copied held.entry) count edit.now left) }
    ensures fault { OnFault result (λ fault. edit_fault schema.now limits (option_copied held.entry) count edit.now ≡ Some fault) }
{
    match edit {
        Edit::Add(instance) => added(alloc, schema, limits, held, count, instance),
        Edit::Set { id, attr, value } => {
            changed(alloc, schema, limits, held, count, *id, attr, value)
        }
        Edit::Remove(id) => removed(schema, limits, held, count, *id),
    }
}
