ghost use Rattle.std.specs.Prelude.{◌≡◌, ◌++◌, ◌||◌, IfOk, OnOk, OnErr, map};
ghost use Rattle.std.specs.List.{list_any};
ghost use Rattle.closure_walk.specs.Walking.{SameKeys};
ghost use Rattle.audit_model.specs.declared.facet.Facet.TheVariants.{Material};
ghost use Rattle.audit_model.specs.Relations.{is_material_named, material_weighed};
ghost use Rattle.audit_model.specs.Verdicts.{weigh};
ghost use Rattle.facet_paths.specs.Reads.{Reads};
ghost use Rattle.facet_relations.specs.Held.{material_named_at, members_weighed};

use crate::named::text_admitted;
use audit_model::{Look, MaterialFacet, Restriction, Weighed};
use facet_paths::{MaterialStep, append_keys, members_of, push_each_relating, push_relating};
use ifc_base::{InstId, Instance, Key, Keys, Memory, Role};
use schema_table::SchemaTable;
use std::alloc::Global;

/// Whether the condition admits the name, the category or the name of the layer set.
#[tactic(auto, unfolding(crate::specs::Words::chars))]
fn is_material_named(
    alloc: Global,
    schema: &SchemaTable,
    condition: &Restriction,
    x: &Instance,
) -> Result<bool, Memory>
    ensures { IfOk result (λ b. b ≡ is_material_named schema.now condition.now x.now) }
{
    if text_admitted(alloc, schema, condition, "Name", x)? {
        return Ok(true);
    }
    if text_admitted(alloc, schema, condition, "Category", x)? {
        return Ok(true);
    }
    let b = text_admitted(alloc, schema, condition, "LayerSetName", x)?;
    Ok(b)
}

/// Whether there is a material definition of this id that is named so.
fn is_named_at<L: Look>(
    alloc: Global,
    schema: &SchemaTable,
    look: &L,
    condition: &Restriction,
    id: InstId,
) -> Result<bool, Memory>
    ensures { IfOk result (λ b. b ≡ material_named_at schema.now (L.seen look.now) condition.now id) }
{
    match look.instance(id) {
        None => Ok(false),
        Some(x) => {
            let b = is_material_named(alloc, schema, condition, x)?;
            Ok(b)
        }
    }
}

/// Whether one of the ids is that of such a material definition.
fn some_named<L: Look>(
    alloc: Global,
    schema: &SchemaTable,
    look: &L,
    condition: &Restriction,
    ids: &[InstId],
) -> Result<bool, Memory>
    ensures { IfOk result (λ b. b ≡ list_any (material_named_at schema.now (L.seen look.now) condition.now) ids.now) }
{
    for id in ids {
        if is_named_at(alloc, schema, look, condition, *id)? {
            return Ok(true);
        }
    }
    Ok(false)
}

/// What the facet gives of the members of the closure of materials. `O(n)` in their number.
fn weigh_members<L: Look>(
    alloc: Global,
    schema: &SchemaTable,
    look: &L,
    facet: &MaterialFacet,
    ids: &[InstId],
) -> Result<Weighed, Memory>
    ensures { IfOk result (λ w. w ≡ members_weighed schema.now facet.now (map (L.seen look.now).instance ids.now)) }
{
    if ids.is_empty() {
        return Ok(Weighed {
            holds: false,
            subject: false,
        });
    }
    match &facet.value {
        None => Ok(Weighed {
            holds: true,
            subject: true,
        }),
        Some(condition) => {
            let holds = some_named(alloc, schema, look, condition, ids)?;
            Ok(Weighed {
                holds,
                subject: true,
            })
        }
    }
}

/// Weighs the element's own materials, or where it has none those of its types.
fn weigh_own_or<L: Look>(
    alloc: Global,
    schema: &SchemaTable,
    look: &L,
    facet: &MaterialFacet,
    own: &[InstId],
    of_types: &[InstId],
) -> Result<Weighed, Memory>
    ensures { IfOk result (λ w. w ≡ material_weighed schema.now facet.now (record { own = map (L.seen look.now).instance own.now; of_types = map (L.seen look.now).instance of_types.now })) }
{
    if own.is_empty() {
        let weighed = weigh_members(alloc, schema, look, facet, of_types)?;
        return Ok(weighed);
    }
    let weighed = weigh_members(alloc, schema, look, facet, own)?;
    Ok(weighed)
}

/// Weighs the facet, and appends the keys that it looks at.
fn look_and_weigh<L: Look>(
    alloc: Global,
    schema: &SchemaTable,
    look: &L,
    elem: InstId,
    facet: &MaterialFacet,
    reads: &mut Vec<Key>,
) -> Result<Weighed, Memory>
    ensures { IfOk result (λ w. Reads (weigh schema.now (Material facet.now) elem) (L.seen look.now) w reads.old.items reads.new.items) }
{
    let step = MaterialStep { schema, look };
    let mut types = Vec::new(alloc);
    let mut given = Vec::new(alloc);
    let mut inherited = Vec::new(alloc);
    push_relating(alloc, schema, look, Role::Kind, elem, &mut types, reads)?;
    push_relating(alloc, schema, look, Role::Material, elem, &mut given, reads)?;
    let own = members_of(alloc, &step, given.as_slice(), reads)?;
    push_each_relating(
        alloc,
        schema,
        look,
        Role::Material,
        types.as_slice(),
        &mut inherited,
        reads,
    )?;
    let of_types = members_of(alloc, &step, inherited.as_slice(), reads)?;
    let weighed = weigh_own_or(
        alloc,
        schema,
        look,
        facet,
        own.as_slice(),
        of_types.as_slice(),
    )?;
    Ok(weighed)
}

/// Whether the element meets the material facet, and whether it has a material (IDS 1.0, material facet). The
/// materials are the element's own, or, where it has none, those of its types; one that is missing in the model
/// counts as a material too. The keys that this looks at are appended: those of the ways from the element and
/// from its types to their materials, and of all that these are made of, whatever is found. The one refusal is
/// want of memory; `reads` is as before then.
///
/// A closure steps from each id once: `O(n log n)` in the number of ids and references on the way, and the time
/// of the condition on the members.
pub fn weigh_material<L: Look>(
    alloc: Global,
    schema: &SchemaTable,
    look: &L,
    elem: InstId,
    facet: &MaterialFacet,
    reads: &mut Keys,
) -> Result<Weighed, Memory>
    ensures weighed { IfOk result (λ w. w ≡ (weigh schema.now (Material facet.now) elem).answer (L.seen look.now)) }
    ensures reads { OnOk result (SameKeys reads.new (reads.old ++ (weigh schema.now (Material facet.now) elem).keys (L.seen look.now))) }
    ensures kept { OnErr result (reads.new ≡ reads.old) }
{
    let mut own = Vec::new(alloc);
    let weighed = look_and_weigh(alloc, schema, look, elem, facet, &mut own)?;
    append_keys(alloc, reads, own.as_slice())?;
    Ok(weighed)
}
