ghost use Rattle.std.proofs.Common.{inl};
ghost use Rattle.std.specs.Prelude.{◌≡◌, ◌++◌, ◌∷◌, [], IfOk, OnOk, refl, codes, option_copied};
ghost use Rattle.std.specs.List.{flat_map};
ghost use Rattle.audit_model.specs.Hops.{references_in};
ghost use Rattle.audit_model.specs.Closures.{closure, most_hops};
ghost use Rattle.audit_model.specs.Paths.{forward_by, material_attributes};
ghost use Rattle.closure_walk.specs.Walking.{SameKeys};

use crate::hops::push_refs;
use audit_model::Look;
use closure_walk::{Step, close};
use ifc_base::{InstId, Instance, Key, Memory};
use schema_table::SchemaTable;
use std::alloc::Global;
use std::collections::BTreeSet;

/// The number of possible ids, and so more than a chain with no id twice has hops.
const MOST_HOPS: u32 = 2_147_483_647;

/// The step from a classification reference to what it is referenced in (ISO 16739-1,
/// IfcClassificationReference). It stands on the reference once.
#[derive(Drop)]
pub struct SourceStep<'a, L> {
    pub schema: &'a SchemaTable,
    pub look: &'a L,
}

impl<'a, L: Look> Step for SourceStep<'a, L> {
    ghost taken = { λ a n. forward_by a.schema.now (codes "ReferencedSource" ∷ []) n };

    ghost seen = { λ a. L.seen a.look.now };

    #[tactic(auto, unfolding(crate::specs::Words::chars))]
    fn step(
        &self,
        from: InstId,
        ends: &mut Vec<InstId>,
        reads: &mut Vec<Key>,
    ) -> Result<(), Memory> {
        reads.push(Key::Inst(from))?;
        push_refs(
            self.schema,
            self.look.instance(from),
            "ReferencedSource",
            ends,
        )?;
        Ok(())
    }

    ghost stands = { λ a n. inl refl };
}

/// Appends the material definitions of which this one is made, by the seven attributes that lead there
/// (ISO 16739-1, IfcMaterialDefinition, IfcMaterialUsageDefinition, IfcMaterialList).
#[tactic(auto, unfolding(crate::specs::Words::chars))]
fn push_made_of(
    schema: &SchemaTable,
    of: Option<&Instance>,
    ends: &mut Vec<InstId>,
) -> Result<(), Memory>
    ensures { OnOk result (ends.new.items ≡ ends.old.items ++ flat_map (references_in schema.now (option_copied of.entry)) material_attributes) }
{
    push_refs(schema, of, "ForLayerSet", ends)?;
    push_refs(schema, of, "MaterialLayers", ends)?;
    push_refs(schema, of, "ForProfileSet", ends)?;
    push_refs(schema, of, "MaterialProfiles", ends)?;
    push_refs(schema, of, "MaterialConstituents", ends)?;
    push_refs(schema, of, "Materials", ends)?;
    push_refs(schema, of, "Material", ends)?;
    Ok(())
}

/// The step from a material definition to those of which it is made. It stands on the definition once.
#[derive(Drop)]
pub struct MaterialStep<'a, L> {
    pub schema: &'a SchemaTable,
    pub look: &'a L,
}

impl<'a, L: Look> Step for MaterialStep<'a, L> {
    ghost taken = { λ a n. forward_by a.schema.now material_attributes n };

    ghost seen = { λ a. L.seen a.look.now };

    fn step(
        &self,
        from: InstId,
        ends: &mut Vec<InstId>,
        reads: &mut Vec<Key>,
    ) -> Result<(), Memory> {
        reads.push(Key::Inst(from))?;
        push_made_of(self.schema, self.look.instance(from), ends)?;
        Ok(())
    }

    ghost stands = { λ a n. inl refl };
}

/// The ids of the set, ascending.
pub(crate) fn in_order(alloc: Global, members: &BTreeSet<InstId>) -> Result<Vec<InstId>, Memory>
    ensures { IfOk result (λ r. r.items ≡ members.now.keys) }
{
    let ids = members.iter().copied().collect(alloc)?;
    Ok(ids)
}

/// The members of the closure of the ids by the step, ascending. It appends the keys that it looks at. The
/// one refusal is want of memory; some of these keys may stand in `reads` then.
///
/// It steps from each id once: `O(n log n)` in the number of ids that the steps lead to.
pub fn members_of<S: Step>(
    alloc: Global,
    step: &S,
    starts: &[InstId],
    reads: &mut Vec<Key>,
) -> Result<Vec<InstId>, Memory>
    ensures ids { IfOk result (λ r. r.items ≡ (closure most_hops (S.taken step.now) starts.now).answer (S.seen step.now)) }
    ensures reads { OnOk result (SameKeys reads.new.items (reads.old.items ++ (closure most_hops (S.taken step.now) starts.now).keys (S.seen step.now))) }
{
    let members = close(alloc, step, starts, MOST_HOPS, reads)?;
    let ids = in_order(alloc, &members)?;
    Ok(ids)
}
