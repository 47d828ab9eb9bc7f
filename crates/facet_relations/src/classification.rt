ghost use Rattle.std.specs.Prelude.{◌≡◌, ◌++◌, ◌&&◌, ◌||◌, IfOk, OnOk, OnErr, map};
ghost use Rattle.closure_walk.specs.Walking.{SameKeys};
ghost use Rattle.audit_model.specs.Reading.{visit};
ghost use Rattle.audit_model.specs.Paths.{source_path};
ghost use Rattle.audit_model.specs.declared.facet.Facet.TheVariants.{Classification};
ghost use Rattle.audit_model.specs.Relations.{own_or, is_of_system, is_identified};
ghost use Rattle.audit_model.specs.Verdicts.{weigh};
ghost use Rattle.facet_paths.specs.Reads.{Reads};
ghost use Rattle.facet_relations.specs.Held.{reference_weighed, references_weighed};

use crate::named::some_kind_admitted;
use audit_model::{ClassificationFacet, Look, Weighed};
use facet_paths::{SourceStep, append_keys, members_of, push_each_relating, push_relating};
use ifc_base::{InstId, Key, Keys, Memory, Role};
use schema_table::SchemaTable;
use std::alloc::Global;

/// Whether a reference of these members is of the system, if one is asked for.
#[tactic(auto, unfolding(crate::specs::Words::chars))]
fn is_of_system<L: Look>(
    alloc: Global,
    schema: &SchemaTable,
    look: &L,
    facet: &ClassificationFacet,
    ids: &[InstId],
) -> Result<bool, Memory>
    ensures { IfOk result (λ b. b ≡ is_of_system schema.now facet.now (map (L.seen look.now).instance ids.now)) }
{
    match &facet.system {
        None => Ok(true),
        Some(condition) => {
            let b = some_kind_admitted(
                alloc,
                schema,
                look,
                "IFCCLASSIFICATION",
                condition,
                "Name",
                ids,
            )?;
            Ok(b)
        }
    }
}

/// Whether a reference of these members has an admitted identification, if one is asked for.
#[tactic(auto, unfolding(crate::specs::Words::chars))]
fn is_identified<L: Look>(
    alloc: Global,
    schema: &SchemaTable,
    look: &L,
    facet: &ClassificationFacet,
    ids: &[InstId],
) -> Result<bool, Memory>
    ensures { IfOk result (λ b. b ≡ is_identified schema.now facet.now (map (L.seen look.now).instance ids.now)) }
{
    match &facet.value {
        None => Ok(true),
        Some(condition) => {
            let b = some_kind_admitted(
                alloc,
                schema,
                look,
                "IFCCLASSIFICATIONREFERENCE",
                condition,
                "Identification",
                ids,
            )?;
            Ok(b)
        }
    }
}

/// What the facet says of a reference of these members.
fn weigh_members<L: Look>(
    alloc: Global,
    schema: &SchemaTable,
    look: &L,
    facet: &ClassificationFacet,
    ids: &[InstId],
) -> Result<Weighed, Memory>
    ensures { IfOk result (λ w. w ≡ reference_weighed schema.now facet.now (map (L.seen look.now).instance ids.now)) }
{
    if !is_of_system(alloc, schema, look, facet, ids)? {
        return Ok(Weighed {
            holds: false,
            subject: false,
        });
    }
    let holds = is_identified(alloc, schema, look, facet, ids)?;
    Ok(Weighed {
        holds,
        subject: true,
    })
}

/// What holds of one or the other.
fn either(one: Weighed, other: Weighed) -> Weighed
    ensures { result ≡ record { holds = one.holds || other.holds; subject = one.subject || other.subject } }
{
    Weighed {
        holds: one.holds || other.holds,
        subject: one.subject || other.subject,
    }
}

/// Weighs a reference, and appends the keys of its closure.
fn weigh_reference<L: Look>(
    alloc: Global,
    schema: &SchemaTable,
    look: &L,
    facet: &ClassificationFacet,
    id: InstId,
    reads: &mut Vec<Key>,
) -> Result<Weighed, Memory>
    ensures weighed { IfOk result (λ w. w ≡ reference_weighed schema.now facet.now ((source_path schema.now id).answer (L.seen look.now))) }
    ensures reads { OnOk result (SameKeys reads.new.items (reads.old.items ++ (source_path schema.now id).keys (L.seen look.now))) }
{
    let step = SourceStep { schema, look };
    let mut starts = Vec::new(alloc);
    starts.push(id)?;
    let members = members_of(alloc, &step, starts.as_slice(), reads)?;
    let weighed = weigh_members(alloc, schema, look, facet, members.as_slice())?;
    Ok(weighed)
}

/// Weighs references, and appends the keys of their closures.
fn weigh_references<L: Look>(
    alloc: Global,
    schema: &SchemaTable,
    look: &L,
    facet: &ClassificationFacet,
    ids: &[InstId],
    reads: &mut Vec<Key>,
) -> Result<Weighed, Memory>
    ensures weighed { IfOk result (λ w. w ≡ references_weighed schema.now facet.now ((visit (source_path schema.now) ids.now).answer (L.seen look.now))) }
    ensures reads { OnOk result (SameKeys reads.new.items (reads.old.items ++ (visit (source_path schema.now) ids.now).keys (L.seen look.now))) }
{
    let mut all = Weighed {
        holds: false,
        subject: false,
    };
    for id in ids {
        let one = weigh_reference(alloc, schema, look, facet, *id, reads)?;
        all = either(all, one);
    }
    Ok(all)
}

/// Appends the keys of the closures of references.
fn look_at_sources<L: Look>(
    alloc: Global,
    schema: &SchemaTable,
    look: &L,
    ids: &[InstId],
    reads: &mut Vec<Key>,
) -> Result<(), Memory>
    ensures { OnOk result (SameKeys reads.new.items (reads.old.items ++ (visit (source_path schema.now) ids.now).keys (L.seen look.now))) }
{
    let step = SourceStep { schema, look };
    members_of(alloc, &step, ids, reads)?;
    Ok(())
}

/// Weighs the given references, or where there are none those of the types, and appends the keys of the closures
/// of all.
fn weigh_own_or<L: Look>(
    alloc: Global,
    schema: &SchemaTable,
    look: &L,
    facet: &ClassificationFacet,
    given: &[InstId],
    inherited: &[InstId],
    reads: &mut Vec<Key>,
) -> Result<Weighed, Memory>
    ensures weighed { IfOk result (λ w. w ≡ references_weighed schema.now facet.now (own_or ((visit (source_path schema.now) given.now).answer (L.seen look.now)) ((visit (source_path schema.now) inherited.now).answer (L.seen look.now)))) }
    ensures reads { OnOk result (SameKeys reads.new.items (reads.old.items ++ ((visit (source_path schema.now) given.now).keys (L.seen look.now) ++ (visit (source_path schema.now) inherited.now).keys (L.seen look.now)))) }
{
    if given.is_empty() {
        let weighed = weigh_references(alloc, schema, look, facet, inherited, reads)?;
        return Ok(weighed);
    }
    let weighed = weigh_references(alloc, schema, look, facet, given, reads)?;
    look_at_sources(alloc, schema, look, inherited, reads)?;
    Ok(weighed)
}

/// Weighs the facet, and appends the keys that it looks at.
fn look_and_weigh<L: Look>(
    alloc: Global,
    schema: &SchemaTable,
    look: &L,
    elem: InstId,
    facet: &ClassificationFacet,
    reads: &mut Vec<Key>,
) -> Result<Weighed, Memory>
    ensures { IfOk result (λ w. Reads (weigh schema.now (Classification facet.now) elem) (L.seen look.now) w reads.old.items reads.new.items) }
{
    let mut types = Vec::new(alloc);
    let mut given = Vec::new(alloc);
    let mut inherited = Vec::new(alloc);
    let role = Role::Classification;
    push_relating(alloc, schema, look, Role::Kind, elem, &mut types, reads)?;
    push_relating(alloc, schema, look, role, elem, &mut given, reads)?;
    let kinds = types.as_slice();
    push_each_relating(alloc, schema, look, role, kinds, &mut inherited, reads)?;
    let own = given.as_slice();
    let weighed = weigh_own_or(alloc, schema, look, facet, own, inherited.as_slice(), reads)?;
    Ok(weighed)
}

/// Whether the element meets the classification facet, and whether it has a reference that is of the system
/// (IDS 1.0, classification facet). The references are the element's own, or, where it has none, those of its
/// types; one that is missing in the model counts as a reference too. The keys that this looks at are appended:
/// those of the ways from the element and from its types to their references, and of the chains from there,
/// whatever is found. The one refusal is want of memory; `reads` is as before then.
///
/// System and identification have to meet in one reference, so that each reference that counts has a closure of its
/// own, which steps from each id once: `O(n log n)` in the sum of the sizes of these closures, and the time of the
/// conditions on their members. References that share a chain each pay for it; those of the types, where they don't
/// count, share one closure.
pub fn weigh_classification<L: Look>(
    alloc: Global,
    schema: &SchemaTable,
    look: &L,
    elem: InstId,
    facet: &ClassificationFacet,
    reads: &mut Keys,
) -> Result<Weighed, Memory>
    ensures weighed { IfOk result (λ w. w ≡ (weigh schema.now (Classification facet.now) elem).answer (L.seen look.now)) }
    ensures reads { OnOk result (SameKeys reads.new (reads.old ++ (weigh schema.now (Classification facet.now) elem).keys (L.seen look.now))) }
    ensures kept { OnErr result (reads.new ≡ reads.old) }
{
    let mut own = Vec::new(alloc);
    let weighed = look_and_weigh(alloc, schema, look, elem, facet, &mut own)?;
    append_keys(alloc, reads, own.as_slice())?;
    Ok(weighed)
}
