ghost use Rattle.std.specs.Prelude.{◌≡◌, ◌++◌, IfOk, OnOk, OnErr};
ghost use Rattle.closure_walk.specs.Walking.{SameKeys};
ghost use Rattle.audit_model.specs.declared.facet.Facet.TheVariants.{Entity};
ghost use Rattle.audit_model.specs.Verdicts.{weigh};

use audit_model::{EntityFacet, Look, Weighed};
use facet_paths::weigh_entity;
use ifc_base::{InstId, Keys, Memory};
use schema_table::SchemaTable;
use std::alloc::Global;

/// Whether the element meets the entity facet, which is its own subject (IDS 1.0, entity facet): the condition
/// admits the name of its entity and, where a predefined type is asked for, the predefined type of the element,
/// or else of the first of its types that has one. An element that is missing in the model meets none.
///
/// The keys that this looks at are appended: that of the element and, where a predefined type is asked for, those
/// of the way to its types. The one refusal is want of memory; `reads` is as before then. Linear in what is read,
/// and the time of the conditions.
pub fn entity_weighed<L: Look>(
    alloc: Global,
    schema: &SchemaTable,
    look: &L,
    elem: InstId,
    facet: &EntityFacet,
    reads: &mut Keys,
) -> Result<Weighed, Memory>
    ensures weighed { IfOk result (λ w. w ≡ (weigh schema.now (Entity facet.now) elem).answer (L.seen look.now)) }
    ensures reads { OnOk result (SameKeys reads.new (reads.old ++ (weigh schema.now (Entity facet.now) elem).keys (L.seen look.now))) }
    ensures kept { OnErr result (reads.new ≡ reads.old) }
{
    let holds = weigh_entity(alloc, schema, look, elem, facet, reads)?;
    Ok(Weighed {
        holds,
        subject: holds,
    })
}
