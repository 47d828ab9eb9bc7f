ghost use Rattle.std.specs.Prelude.{◌≡◌, ◌++◌, [], ◌∷◌, OnOk, option_copied, chars};
ghost use Rattle.std.specs.List.{flat_map};
ghost use Rattle.ifc_base.specs.declared.key.Key.TheVariants.{Inst};
ghost use Rattle.schema_table.specs.Relationships.{relationship};
ghost use Rattle.audit_model.specs.Reading.{gather};
ghost use Rattle.audit_model.specs.Hops.{hop, references_in, relating_things};
ghost use Rattle.audit_model.specs.Hops.Hop.{Back, Forward};
ghost use Rattle.facet_paths.specs.Reads.{Appends};

use audit_model::Look;
use ifc_base::{InstId, Instance, Key, Memory, Role, refs_in};
use schema_table::SchemaTable;
use std::alloc::Global;

/// The attribute of a relationship that names what it relates to (ISO 16739-1, IFC4).
#[tactic(auto, unfolding(crate::specs::Words::chars))]
fn relating_name(role: Role) -> &'static str
    ensures { chars result.now ≡ (relationship role).relating }
{
    match role {
        Role::Properties => "RelatingPropertyDefinition",
        Role::Kind => "RelatingType",
        Role::Classification => "RelatingClassification",
        Role::Material => "RelatingMaterial",
        Role::Aggregates => "RelatingObject",
        Role::Nests => "RelatingObject",
        Role::Contained => "RelatingStructure",
        Role::Group => "RelatingGroup",
        Role::Voids => "RelatingBuildingElement",
        Role::Fills => "RelatingOpeningElement",
    }
}

/// Appends the references of the attribute of this name, in reading order; none where there is no instance
/// or it has no such attribute. The one refusal is want of memory.
///
/// One look-up of the entity, and `O(a + n)` in the number of its attributes and the size of the parameter.
pub fn push_refs(
    schema: &SchemaTable,
    of: Option<&Instance>,
    attr: &str,
    ends: &mut Vec<InstId>,
) -> Result<(), Memory>
    ensures { OnOk result (ends.new.items ≡ ends.old.items ++ references_in schema.now (option_copied of.entry) (chars attr.now)) }
{
    match of {
        None => Ok(()),
        Some(x) => match schema.place_named(&x.entity, attr) {
            None => Ok(()),
            Some(at) => match x.params.as_slice().get(at as usize) {
                None => Ok(()),
                Some(value) => refs_in(value, ends),
            },
        },
    }
}

/// Hops forward from one id.
fn hop_forward<L: Look>(
    schema: &SchemaTable,
    look: &L,
    attr: &str,
    from: InstId,
    ends: &mut Vec<InstId>,
    reads: &mut Vec<Key>,
) -> Result<(), Memory>
    ensures { OnOk result (Appends (hop schema.now (Forward (chars attr.now)) from) (L.seen look.now) ends.old.items ends.new.items reads.old.items reads.new.items) }
{
    reads.push(Key::Inst(from))?;
    push_refs(schema, look.instance(from), attr, ends)
}

/// Hops backward from one id.
fn hop_back<L: Look>(
    schema: &SchemaTable,
    look: &L,
    role: Role,
    from: InstId,
    ends: &mut Vec<InstId>,
    reads: &mut Vec<Key>,
) -> Result<(), Memory>
    ensures { OnOk result (Appends (hop schema.now (Back role) from) (L.seen look.now) ends.old.items ends.new.items reads.old.items reads.new.items) }
{
    reads.push(Key::Inst(from))?;
    reads.push(Key::Refs(from, role))?;
    for id in look.referrers(from, role) {
        ends.push(*id)?;
    }
    Ok(())
}

/// Hops forward by the attribute of this name from each of the ids: appends the references that it leads to,
/// and the keys that it looks at. The one refusal is want of memory; some of them may stand there then.
///
/// Linear in what is read.
pub fn hop_all<L: Look>(
    schema: &SchemaTable,
    look: &L,
    attr: &str,
    ids: &[InstId],
    ends: &mut Vec<InstId>,
    reads: &mut Vec<Key>,
) -> Result<(), Memory>
    ensures { OnOk result (Appends (gather (hop schema.now (Forward (chars attr.now))) ids.now) (L.seen look.now) ends.old.items ends.new.items reads.old.items reads.new.items) }
{
    for id in ids {
        hop_forward(schema, look, attr, *id, ends, reads)?;
    }
    Ok(())
}

/// Stands on each of the ids: appends their keys. The one refusal is want of memory. `O(n)`.
pub fn stand_all(ids: &[InstId], reads: &mut Vec<Key>) -> Result<(), Memory>
    ensures { OnOk result (reads.new.items ≡ reads.old.items ++ flat_map (λ x. Inst x ∷ []) ids.now) }
{
    for id in ids {
        reads.push(Key::Inst(*id))?;
    }
    Ok(())
}

/// Appends the ids, and stands on each.
fn stand_on(ids: &[InstId], ends: &mut Vec<InstId>, reads: &mut Vec<Key>) -> Result<(), Memory>
    ensures ends { OnOk result (ends.new.items ≡ ends.old.items ++ ids.now) }
    ensures reads { OnOk result (reads.new.items ≡ reads.old.items ++ flat_map (λ x. Inst x ∷ []) ids.now) }
{
    for id in ids {
        ends.push(*id)?;
        reads.push(Key::Inst(*id))?;
    }
    Ok(())
}

/// Appends the relating things of the id by the role, and the keys that this looks at: those of the id, of
/// the relationships and of what they lead to. The one refusal is want of memory; some of them may stand
/// there then.
///
/// Linear in what is read.
pub fn push_relating<L: Look>(
    alloc: Global,
    schema: &SchemaTable,
    look: &L,
    role: Role,
    from: InstId,
    ends: &mut Vec<InstId>,
    reads: &mut Vec<Key>,
) -> Result<(), Memory>
    ensures { OnOk result (Appends (relating_things schema.now role from) (L.seen look.now) ends.old.items ends.new.items reads.old.items reads.new.items) }
{
    let mut holders = Vec::new(alloc);
    hop_back(schema, look, role, from, &mut holders, reads)?;
    let mut others = Vec::new(alloc);
    hop_all(
        schema,
        look,
        relating_name(role),
        holders.as_slice(),
        &mut others,
        reads,
    )?;
    stand_on(others.as_slice(), ends, reads)?;
    Ok(())
}

/// Appends the relating things of each of the ids by the role, as `push_relating` does.
pub fn push_each_relating<L: Look>(
    alloc: Global,
    schema: &SchemaTable,
    look: &L,
    role: Role,
    ids: &[InstId],
    ends: &mut Vec<InstId>,
    reads: &mut Vec<Key>,
) -> Result<(), Memory>
    ensures { OnOk result (Appends (gather (relating_things schema.now role) ids.now) (L.seen look.now) ends.old.items ends.new.items reads.old.items reads.new.items) }
{
    for id in ids {
        push_relating(alloc, schema, look, role, *id, ends, reads)?;
    }
    Ok(())
}
