ghost use Rattle.std.specs.Prelude.{◌≡◌, ◌++◌, ◌∷◌, IfOk, OnOk, OnErr, option_copied, map, []};
ghost use Rattle.ifc_base.specs.declared.key.Key.TheVariants.{Inst};
ghost use Rattle.closure_walk.specs.Walking.{SameKeys};
ghost use Rattle.audit_model.specs.Facets.{entity_holds, predefined_of};
ghost use Rattle.audit_model.specs.Paths.{types};
ghost use Rattle.audit_model.specs.Verdicts.{seen_for};
ghost use Rattle.facet_paths.specs.Reads.{Reads};
ghost use Rattle.facet_paths.specs.Held.{entity_weighed};

use crate::hops::push_relating;
use crate::keys::append_keys;
use crate::predefined::predefined_of;
use crate::texts::{admits_name, admits_name_if_asked};
use audit_model::{EntityFacet, Look};
use ifc_base::{InstId, Key, Keys, Memory, Role};
use schema_table::SchemaTable;
use std::alloc::Global;

/// Whether the facet holds of the element with this id and these types.
fn entity_holds<L: Look>(
    alloc: Global,
    schema: &SchemaTable,
    look: &L,
    facet: &EntityFacet,
    elem: InstId,
    types: &[InstId],
) -> Result<bool, Memory>
    ensures { IfOk result (λ b. b ≡ entity_holds schema.now facet.now (record { itself = (L.seen look.now).instance elem; types = map (L.seen look.now).instance types.now })) }
{
    let Some(x) = look.instance(elem) else {
        return Ok(false);
    };
    if !admits_name(alloc, &facet.name, &x.entity)? {
        return Ok(false);
    }
    let predefined = predefined_of(schema, look, elem, types);
    let holds = admits_name_if_asked(alloc, &facet.predefined, predefined)?;
    Ok(holds)
}

/// Appends the types of the element.
fn push_types<L: Look>(
    alloc: Global,
    schema: &SchemaTable,
    look: &L,
    elem: InstId,
    kinds: &mut Vec<InstId>,
    reads: &mut Vec<Key>,
) -> Result<(), Memory>
    ensures kinds { OnOk result (kinds.new.items ≡ kinds.old.items ++ (types schema.now elem).answer (L.seen look.now)) }
    ensures reads { OnOk result (reads.new.items ≡ reads.old.items ++ Inst elem ∷ (types schema.now elem).keys (L.seen look.now)) }
{
    reads.push(Key::Inst(elem))?;
    push_relating(alloc, schema, look, Role::Kind, elem, kinds, reads)?;
    Ok(())
}

/// Whether the element with this id meets the entity facet. The keys that this looks at are appended; after
/// want of memory, the one refusal, some of them may stand there.
///
/// Linear in what is read, and the time of the conditions.
pub fn look_at_entity<L: Look>(
    alloc: Global,
    schema: &SchemaTable,
    look: &L,
    elem: InstId,
    facet: &EntityFacet,
    reads: &mut Vec<Key>,
) -> Result<bool, Memory>
    ensures { IfOk result (λ b. Reads (entity_weighed schema.now facet.now elem) (L.seen look.now) b reads.old.items reads.new.items) }
{
    let mut types = Vec::new(alloc);
    match &facet.predefined {
        None => {
            reads.push(Key::Inst(elem))?;
            let holds = entity_holds(alloc, schema, look, facet, elem, types.as_slice())?;
            Ok(holds)
        }
        Some(_) => {
            push_types(alloc, schema, look, elem, &mut types, reads)?;
            let holds = entity_holds(alloc, schema, look, facet, elem, types.as_slice())?;
            Ok(holds)
        }
    }
}

/// Whether the element with this id meets the entity facet (IDS 1.0, entity facet). An element that is missing
/// in the model meets none. The keys that this looks at are appended: that of the element, and, where a
/// predefined type is asked for, those of the way to its types. The one refusal is want of memory; `reads` is
/// as before then.
///
/// Linear in what is read, and the time of the conditions.
pub fn weigh_entity<L: Look>(
    alloc: Global,
    schema: &SchemaTable,
    look: &L,
    elem: InstId,
    facet: &EntityFacet,
    reads: &mut Keys,
) -> Result<bool, Memory>
    ensures holds { IfOk result (λ b. b ≡ entity_holds schema.now facet.now ((seen_for schema.now facet.now.predefined elem).answer (L.seen look.now))) }
    ensures reads { OnOk result (SameKeys reads.new (reads.old ++ (seen_for schema.now facet.now.predefined elem).keys (L.seen look.now))) }
    ensures kept { OnErr result (reads.new ≡ reads.old) }
{
    let mut own = Vec::new(alloc);
    let holds = look_at_entity(alloc, schema, look, elem, facet, &mut own)?;
    append_keys(alloc, reads, own.as_slice())?;
    Ok(holds)
}
