ghost use Rattle.std.specs.Prelude.{◌≡◌, IfOk, codes, map};
ghost use Rattle.std.specs.Str.{bytes_eq};
ghost use Rattle.schema_table.specs.Faults.{instance_fault};
ghost use Rattle.audit_core.specs.Fitting.{misfit_fault};

use crate::pairs::instances_of;
use ifc_base::{InstId, Instance, Memory, Name, Refusal};
use model_view::Snapshot;
use schema_table::{InstanceFault, SchemaTable};
use std::alloc::Global;

/// Why a model can't be audited.
#[derive(Debug, PartialEq, Eq, Drop)]
pub enum ModelFault {
    /// The file names another schema than `IFC4`.
    OtherSchema,
    /// The instance with this id doesn't fit the schema.
    Instance { id: InstId, fault: InstanceFault },
}

/// Whether the schema that a file names is `IFC4`.
pub fn is_ifc4(schema_id: &Name) -> bool
    ensures { result ≡ bytes_eq schema_id.now (codes "IFC4") }
{
    schema_id.is("IFC4")
}

/// Why the instance doesn't fit the schema, if it doesn't.
pub fn misfit(
    alloc: Global,
    schema: &SchemaTable,
    instance: &Instance,
) -> Result<Option<InstanceFault>, Memory>
    ensures { IfOk result (λ fault. fault ≡ instance_fault schema.now instance.now) }
{
    match schema.check_instance(alloc, instance) {
        Ok(()) => Ok(None),
        Err(Refusal::Fault(fault)) => Ok(Some(fault)),
        Err(Refusal::Memory) => Err(Memory),
    }
}

/// The first of the instances that doesn't fit the schema, and why, if there is one.
fn first_misfit(
    alloc: Global,
    schema: &SchemaTable,
    instances: &[&Instance],
) -> Result<Option<ModelFault>, Memory>
    ensures { IfOk result (λ fault. fault ≡ misfit_fault schema.now (map (λ x. x.now) instances.now)) }
{
    for instance in instances {
        if let Some(fault) = misfit(alloc, schema, instance)? {
            let id = instance.id;
            return Ok(Some(ModelFault::Instance { id, fault }));
        }
    }
    Ok(None)
}

/// The least id of the model whose instance doesn't fit the schema, and why, if there is one. `O(n)`.
pub fn misfit_in(
    alloc: Global,
    schema: &SchemaTable,
    snapshot: &Snapshot,
) -> Result<Option<ModelFault>, Memory>
    ensures { IfOk result (λ fault. fault ≡ misfit_fault schema.now snapshot.now.model) }
{
    let instances = instances_of(alloc, snapshot)?;
    first_misfit(alloc, schema, &instances)
}
