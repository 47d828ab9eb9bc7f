ghost use Rattle.std.specs.Prelude.{◌≡◌, ◌++◌, ◌∷◌, IfOk, OnOk, codes, option_copied};
ghost use Rattle.std.specs.List.{flat_map};
ghost use Rattle.ifc_base.specs.declared.key.Key.TheVariants.{Inst};
ghost use Rattle.ifc_base.specs.declared.key.Role.TheVariants as role;
ghost use Rattle.audit_model.specs.Hops.{references_in, relating_things};
ghost use Rattle.audit_model.specs.Paths.{set_path};
ghost use Rattle.audit_model.specs.Reading.{visit};
ghost use Rattle.facet_paths.specs.WalkEnds.{held_by, held_in, own_sets, sets_of_types, keys_of_types};

use crate::hops::{hop_all, push_refs, push_relating, stand_all};
use audit_model::Look;
use ifc_base::{InstId, Instance, Key, Memory, Role};
use schema_table::SchemaTable;
use std::alloc::Global;

/// Appends the sets of properties and quantities of the element by itself: those that relationships give it,
/// and those that it names (ISO 16739-1, IfcRelDefinesByProperties, HasPropertySets). It appends the keys that
/// it looks at. The one refusal is want of memory; some of them may stand there then. Linear in what is read.
#[tactic(auto, unfolding(crate::specs::Words::chars))]
pub fn push_own_sets<L: Look>(
    alloc: Global,
    schema: &SchemaTable,
    look: &L,
    elem: InstId,
    sets: &mut Vec<InstId>,
    reads: &mut Vec<Key>,
) -> Result<(), Memory>
    ensures sets { OnOk result (sets.new.items ≡ sets.old.items ++ own_sets schema.now (L.seen look.now) elem) }
    ensures reads { OnOk result (reads.new.items ≡ reads.old.items ++ Inst elem ∷ (relating_things schema.now role.Properties elem).keys (L.seen look.now)) }
{
    reads.push(Key::Inst(elem))?;
    push_relating(alloc, schema, look, Role::Properties, elem, sets, reads)?;
    push_refs(schema, look.instance(elem), "HasPropertySets", sets)?;
    Ok(())
}

/// Appends the sets of properties and quantities that the types of the element name (ISO 16739-1,
/// IfcTypeObject, HasPropertySets). It appends the keys that it looks at. The one refusal is want of memory;
/// some of them may stand there then. Linear in what is read.
#[tactic(auto, unfolding(crate::specs::Words::chars))]
pub fn push_sets_of_types<L: Look>(
    alloc: Global,
    schema: &SchemaTable,
    look: &L,
    elem: InstId,
    sets: &mut Vec<InstId>,
    reads: &mut Vec<Key>,
) -> Result<(), Memory>
    ensures sets { OnOk result (sets.new.items ≡ sets.old.items ++ sets_of_types schema.now (L.seen look.now) elem) }
    ensures reads { OnOk result (reads.new.items ≡ reads.old.items ++ keys_of_types schema.now (L.seen look.now) elem) }
{
    let mut types = Vec::new(alloc);
    push_relating(alloc, schema, look, Role::Kind, elem, &mut types, reads)?;
    hop_all(
        schema,
        look,
        "HasPropertySets",
        types.as_slice(),
        sets,
        reads,
    )?;
    Ok(())
}

/// The properties and quantities of a set, as it names them; none where there is no instance. The one refusal
/// is want of memory. Linear in what is read.
#[tactic(auto, unfolding(crate::specs::Words::chars))]
pub fn held_ids(
    alloc: Global,
    schema: &SchemaTable,
    set: Option<&Instance>,
) -> Result<Vec<InstId>, Memory>
    ensures { IfOk result (λ ids. ids.items ≡ held_in schema.now (option_copied set.entry)) }
{
    let mut ids = Vec::new(alloc);
    push_refs(schema, set, "HasProperties", &mut ids)?;
    push_refs(schema, set, "Quantities", &mut ids)?;
    Ok(ids)
}

/// Appends the properties and quantities of a set.
fn push_held<L: Look>(
    alloc: Global,
    schema: &SchemaTable,
    look: &L,
    set: InstId,
    ends: &mut Vec<InstId>,
    reads: &mut Vec<Key>,
) -> Result<(), Memory>
    ensures ends { OnOk result (ends.new.items ≡ ends.old.items ++ held_by schema.now (L.seen look.now) set) }
    ensures reads { OnOk result (reads.new.items ≡ reads.old.items ++ (set_path schema.now set).keys (L.seen look.now)) }
{
    reads.push(Key::Inst(set))?;
    let ids = held_ids(alloc, schema, look.instance(set))?;
    stand_all(ids.as_slice(), reads)?;
    ends.extend_from_slice(ids.as_slice())?;
    Ok(())
}

/// Appends the properties and quantities of each of the sets.
pub(crate) fn push_all_held<L: Look>(
    alloc: Global,
    schema: &SchemaTable,
    look: &L,
    sets: &[InstId],
    ends: &mut Vec<InstId>,
    reads: &mut Vec<Key>,
) -> Result<(), Memory>
    ensures ends { OnOk result (ends.new.items ≡ ends.old.items ++ flat_map (held_by schema.now (L.seen look.now)) sets.now) }
    ensures reads { OnOk result (reads.new.items ≡ reads.old.items ++ (visit (set_path schema.now) sets.now).keys (L.seen look.now)) }
{
    for set in sets {
        push_held(alloc, schema, look, *set, ends, reads)?;
    }
    Ok(())
}
