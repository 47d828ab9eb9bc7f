ghost use Rattle.std.specs.Prelude.{◌≡◌, ◌++◌, OnOk, OnErr, IfOk};
ghost use Rattle.closure_walk.specs.Walking.{SameKeys};
ghost use Rattle.audit_model.specs.declared.facet.Facet.TheVariants.{Property};
ghost use Rattle.audit_model.specs.Verdicts.{weigh};

use crate::hiding::push_unhidden;
use crate::sets::{look_at_own, look_at_types};
use crate::weighing::weigh_found;
use audit_model::{Look, PropertyFacet, Weighed};
use facet_paths::append_keys;
use ifc_base::{InstId, Key, Keys, Memory};
use schema_table::SchemaTable;
use std::alloc::Global;

/// Weighs the facet, and appends the keys that it looks at.
fn look_and_weigh<L: Look>(
    alloc: Global,
    schema: &SchemaTable,
    look: &L,
    elem: InstId,
    facet: &PropertyFacet,
    reads: &mut Vec<Key>,
) -> Result<Weighed, Memory>
    ensures weighed { IfOk result (λ w. w ≡ (weigh schema.now (Property facet.now) elem).answer (L.seen look.now)) }
    ensures reads { OnOk result (reads.new.items ≡ reads.old.items ++ (weigh schema.now (Property facet.now) elem).keys (L.seen look.now)) }
{
    let mut names = Vec::new(alloc);
    let mut found = Vec::new(alloc);
    let mut inherited = Vec::new(alloc);
    look_at_own(
        alloc, schema, look, facet, elem, &mut names, &mut found, reads,
    )?;
    look_at_types(
        alloc,
        schema,
        look,
        facet,
        elem,
        &mut names,
        &mut inherited,
        reads,
    )?;
    push_unhidden(alloc, &mut found, inherited.as_slice())?;
    let weighed = weigh_found(alloc, schema, facet, names.as_slice(), found.as_slice())?;
    Ok(weighed)
}

/// Whether the element meets the property facet, and whether it has what the facet speaks of (IDS 1.0, property
/// facet). The sets are those of properties and of quantities, the element's own and those of its types; a property
/// of its own hides that of its types of the same set name and name; sets and properties without a name count for
/// nothing. Some set name that the condition admits has to reach the element, and under each such name some property
/// of an admitted name has to have a value, and every one has to be of the data type and have an admitted value,
/// where these are asked for.
///
/// The keys that this looks at are appended: those of the ways to the sets and of all that is in them, whatever is
/// found. The one refusal is want of memory; `reads` is as before then.
///
/// `O(n log n)` in the number of properties on the way, whatever their names are, and the time of the conditions;
/// names and values are borrowed, and a property of a set whose name isn't admitted is noted and not looked at.
pub fn weigh_property<L: Look>(
    alloc: Global,
    schema: &SchemaTable,
    look: &L,
    elem: InstId,
    facet: &PropertyFacet,
    reads: &mut Keys,
) -> Result<Weighed, Memory>
    ensures weighed { IfOk result (λ w. w ≡ (weigh schema.now (Property facet.now) elem).answer (L.seen look.now)) }
    ensures reads { OnOk result (SameKeys reads.new (reads.old ++ (weigh schema.now (Property facet.now) elem).keys (L.seen look.now))) }
    ensures kept { OnErr result (reads.new ≡ reads.old) }
{
    let mut own = Vec::new(alloc);
    let weighed = look_and_weigh(alloc, schema, look, elem, facet, &mut own)?;
    append_keys(alloc, reads, own.as_slice())?;
    Ok(weighed)
}
