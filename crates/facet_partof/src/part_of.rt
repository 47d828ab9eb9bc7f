ghost use Rattle.std.specs.Prelude.{◌≡◌, ◌++◌, ◌||◌, IfOk, OnOk, OnErr, is_some};
ghost use Rattle.std.specs.List.{list_any};
ghost use Rattle.closure_walk.specs.Walking.{SameKeys};
ghost use Rattle.audit_model.specs.declared.facet.Facet.TheVariants.{PartOf};
ghost use Rattle.audit_model.specs.Reading.{visit};
ghost use Rattle.audit_model.specs.Relations.{part_of_kind};
ghost use Rattle.audit_model.specs.Verdicts.{seen_for, part_of_weighed, weigh};
ghost use Rattle.facet_paths.specs.Reads.{Reads};

use audit_model::{EntityFacet, Look, PartOfFacet, Weighed};
use facet_paths::{ancestors_of, append_keys, look_at_entity};
use ifc_base::{InstId, Key, Keys, Memory};
use schema_table::SchemaTable;
use std::alloc::Global;

/// Whether an instance with one of these ids is there.
fn is_any_there<L: Look>(look: &L, ids: &[InstId]) -> bool
    ensures { result ≡ list_any (λ i. is_some ((L.seen look.now).instance i)) ids.now }
{
    for id in ids {
        if look.instance(*id).is_some() {
            return true;
        }
    }
    false
}

/// One or the other.
fn either(one: bool, other: bool) -> bool
    ensures { result ≡ (one || other) }
{
    one || other
}

/// Whether one of the ancestors meets the entity facet. All are looked at.
fn is_any_of_kind<L: Look>(
    alloc: Global,
    schema: &SchemaTable,
    look: &L,
    entity: &EntityFacet,
    ids: &[InstId],
    reads: &mut Vec<Key>,
) -> Result<bool, Memory>
    ensures holds { IfOk result (λ b. b ≡ part_of_kind schema.now entity.now ((visit (seen_for schema.now entity.now.predefined) ids.now).answer (L.seen look.now))) }
    ensures reads { OnOk result (SameKeys reads.new.items (reads.old.items ++ (visit (seen_for schema.now entity.now.predefined) ids.now).keys (L.seen look.now))) }
{
    let mut found = false;
    for id in ids {
        let one = look_at_entity(alloc, schema, look, *id, entity, reads)?;
        found = either(found, one);
    }
    Ok(found)
}

/// Weighs the facet, and appends the keys that it looks at.
fn look_and_weigh<L: Look>(
    alloc: Global,
    schema: &SchemaTable,
    look: &L,
    elem: InstId,
    facet: &PartOfFacet,
    reads: &mut Vec<Key>,
) -> Result<bool, Memory>
    ensures { IfOk result (λ b. Reads (part_of_weighed schema.now facet.now facet.now.entity elem) (L.seen look.now) b reads.old.items reads.new.items) }
{
    let ids = ancestors_of(alloc, schema, look, facet.relation, elem, reads)?;
    match &facet.entity {
        None => {
            let holds = is_any_there(look, ids.as_slice());
            Ok(holds)
        }
        Some(entity) => {
            let holds = is_any_of_kind(alloc, schema, look, entity, ids.as_slice(), reads)?;
            Ok(holds)
        }
    }
}

/// Whether the element meets the partOf facet (IDS 1.0, partOf facet), which is its own subject. The ancestors
/// are what one or more steps up by the chosen relationships lead to, by all of them where none is chosen; the
/// element is one itself only where it is reached, and one that is missing in the model may have ancestors but
/// meets nothing. The keys that this looks at are appended: those of the way to the ancestors and, where a
/// predefined type is asked for, those of the way to each one's types, whatever is found. The one refusal is
/// want of memory; `reads` is as before then.
///
/// Each ancestor is stepped from once: `O(n log n)` in the number of relationships on the way, of what they lead
/// to and of the types looked at, and the time of the conditions on each ancestor.
pub fn weigh_part_of<L: Look>(
    alloc: Global,
    schema: &SchemaTable,
    look: &L,
    elem: InstId,
    facet: &PartOfFacet,
    reads: &mut Keys,
) -> Result<Weighed, Memory>
    ensures weighed { IfOk result (λ w. w ≡ (weigh schema.now (PartOf facet.now) elem).answer (L.seen look.now)) }
    ensures reads { OnOk result (SameKeys reads.new (reads.old ++ (weigh schema.now (PartOf facet.now) elem).keys (L.seen look.now))) }
    ensures kept { OnErr result (reads.new ≡ reads.old) }
{
    let mut own = Vec::new(alloc);
    let holds = look_and_weigh(alloc, schema, look, elem, facet, &mut own)?;
    append_keys(alloc, reads, own.as_slice())?;
    Ok(Weighed {
        holds,
        subject: holds,
    })
}
