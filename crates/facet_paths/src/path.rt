ghost use Rattle.std.specs.Prelude.{◌≡◌, ◌++◌, IfOk, OnOk, OnErr};
ghost use Rattle.std.specs.List.{flat_map};
ghost use Rattle.closure_walk.specs.Walking.{SameKeys};
ghost use Rattle.audit_model.specs.Ascending.{ascending};
ghost use Rattle.audit_model.specs.Paths.{types};
ghost use Rattle.facet_paths.specs.declared.path.Path.TheVariants as path;
ghost use Rattle.facet_paths.specs.WalkEnds.{Walks, path_ends, path_keys, related_by, related_keys};

use crate::hops::{push_each_relating, push_relating};
use crate::keys::append_keys;
use crate::members::{MaterialStep, SourceStep, members_of};
use crate::part_of::ancestors_of;
use crate::sets::{push_all_held, push_own_sets, push_sets_of_types};
use audit_model::{Look, Relation};
use ifc_base::{InstId, Key, Keys, Memory, Role};
use schema_table::SchemaTable;
use std::alloc::Global;
use std::collections::BTreeSet;

/// A path from an element, along which a facet looks (IDS 1.0, facets).
#[derive(Clone, Copy, Debug, PartialEq, Eq)]
pub enum Path {
    /// The element alone.
    Own,
    /// To its types.
    Kind,
    /// To its sets of properties and quantities and those of its types, and to what is in them.
    Property,
    /// From it and from its types to their classification references, and on to the sources of these.
    Classification,
    /// From it and from its types to their materials, and on to what these are made of.
    Material,
    /// To what it is a part of by the relation, over any number of steps.
    PartOf(Relation),
    /// To what it is a part of by the relation, and to the types of each of these.
    PartOfKind(Relation),
}

/// The ids in ascending order, each once. `O(n log n)`.
fn in_order(alloc: Global, ids: &[InstId]) -> Result<Vec<InstId>, Memory>
    ensures { IfOk result (λ r. r.items ≡ ascending ids.now) }
{
    let mut members = BTreeSet::new(alloc);
    for id in ids {
        members.insert(*id)?;
    }
    let all = members.iter().copied().collect(alloc)?;
    Ok(all)
}

/// The path of the element alone.
fn walk_own<L: Look>(
    alloc: Global,
    schema: &SchemaTable,
    look: &L,
    from: InstId,
    reads: &mut Vec<Key>,
) -> Result<Vec<InstId>, Memory>
    ensures { IfOk result (λ r. Walks schema.now (L.seen look.now) path.Own from r.items reads.old.items reads.new.items) }
{
    reads.push(Key::Inst(from))?;
    let mut ends = Vec::new(alloc);
    ends.push(from)?;
    Ok(ends)
}

/// The path to the types.
fn walk_kind<L: Look>(
    alloc: Global,
    schema: &SchemaTable,
    look: &L,
    from: InstId,
    reads: &mut Vec<Key>,
) -> Result<Vec<InstId>, Memory>
    ensures { IfOk result (λ r. Walks schema.now (L.seen look.now) path.Kind from r.items reads.old.items reads.new.items) }
{
    let mut ends = Vec::new(alloc);
    push_relating(alloc, schema, look, Role::Kind, from, &mut ends, reads)?;
    Ok(ends)
}

/// The path to properties and quantities.
fn walk_property<L: Look>(
    alloc: Global,
    schema: &SchemaTable,
    look: &L,
    from: InstId,
    reads: &mut Vec<Key>,
) -> Result<Vec<InstId>, Memory>
    ensures { IfOk result (λ r. Walks schema.now (L.seen look.now) path.Property from r.items reads.old.items reads.new.items) }
{
    let mut ends = Vec::new(alloc);
    let mut own = Vec::new(alloc);
    push_own_sets(alloc, schema, look, from, &mut own, reads)?;
    push_all_held(alloc, schema, look, own.as_slice(), &mut ends, reads)?;
    let mut inherited = Vec::new(alloc);
    push_sets_of_types(alloc, schema, look, from, &mut inherited, reads)?;
    push_all_held(alloc, schema, look, inherited.as_slice(), &mut ends, reads)?;
    let all = in_order(alloc, ends.as_slice())?;
    Ok(all)
}

/// The relating things of the element and of its types by a role.
fn related_of<L: Look>(
    alloc: Global,
    schema: &SchemaTable,
    look: &L,
    role: Role,
    from: InstId,
    reads: &mut Vec<Key>,
) -> Result<Vec<InstId>, Memory>
    ensures ends { IfOk result (λ r. r.items ≡ related_by schema.now (L.seen look.now) role from) }
    ensures reads { OnOk result (reads.new.items ≡ reads.old.items ++ related_keys schema.now (L.seen look.now) role from) }
{
    let mut types = Vec::new(alloc);
    push_relating(alloc, schema, look, Role::Kind, from, &mut types, reads)?;
    let mut ends = Vec::new(alloc);
    push_relating(alloc, schema, look, role, from, &mut ends, reads)?;
    push_each_relating(
        alloc,
        schema,
        look,
        role,
        types.as_slice(),
        &mut ends,
        reads,
    )?;
    Ok(ends)
}

/// The path to classification references and their sources.
fn walk_classification<L: Look>(
    alloc: Global,
    schema: &SchemaTable,
    look: &L,
    from: InstId,
    reads: &mut Vec<Key>,
) -> Result<Vec<InstId>, Memory>
    ensures { IfOk result (λ r. Walks schema.now (L.seen look.now) path.Classification from r.items reads.old.items reads.new.items) }
{
    let starts = related_of(alloc, schema, look, Role::Classification, from, reads)?;
    let step = SourceStep { schema, look };
    let ends = members_of(alloc, &step, starts.as_slice(), reads)?;
    Ok(ends)
}

/// The path to materials and what they are made of.
fn walk_material<L: Look>(
    alloc: Global,
    schema: &SchemaTable,
    look: &L,
    from: InstId,
    reads: &mut Vec<Key>,
) -> Result<Vec<InstId>, Memory>
    ensures { IfOk result (λ r. Walks schema.now (L.seen look.now) path.Material from r.items reads.old.items reads.new.items) }
{
    let starts = related_of(alloc, schema, look, Role::Material, from, reads)?;
    let step = MaterialStep { schema, look };
    let ends = members_of(alloc, &step, starts.as_slice(), reads)?;
    Ok(ends)
}

/// The path to the ancestors.
fn walk_part_of<L: Look>(
    alloc: Global,
    schema: &SchemaTable,
    look: &L,
    relation: Relation,
    from: InstId,
    reads: &mut Vec<Key>,
) -> Result<Vec<InstId>, Memory>
    ensures { IfOk result (λ r. Walks schema.now (L.seen look.now) (path.PartOf relation) from r.items reads.old.items reads.new.items) }
{
    let ends = ancestors_of(alloc, schema, look, relation, from, reads)?;
    Ok(ends)
}

/// Looks at the types of each of the ids.
fn look_at_types<L: Look>(
    alloc: Global,
    schema: &SchemaTable,
    look: &L,
    ids: &[InstId],
    reads: &mut Vec<Key>,
) -> Result<(), Memory>
    ensures { OnOk result (reads.new.items ≡ reads.old.items ++ flat_map (λ n. (types schema.now n).keys (L.seen look.now)) ids.now) }
{
    let mut types = Vec::new(alloc);
    for id in ids {
        push_relating(alloc, schema, look, Role::Kind, *id, &mut types, reads)?;
    }
    Ok(())
}

/// The path to the ancestors and their types.
fn walk_part_of_kind<L: Look>(
    alloc: Global,
    schema: &SchemaTable,
    look: &L,
    relation: Relation,
    from: InstId,
    reads: &mut Vec<Key>,
) -> Result<Vec<InstId>, Memory>
    ensures { IfOk result (λ r. Walks schema.now (L.seen look.now) (path.PartOfKind relation) from r.items reads.old.items reads.new.items) }
{
    let ends = ancestors_of(alloc, schema, look, relation, from, reads)?;
    look_at_types(alloc, schema, look, ends.as_slice(), reads)?;
    Ok(ends)
}

/// Walks the path.
fn walk_along<L: Look>(
    alloc: Global,
    schema: &SchemaTable,
    look: &L,
    from: InstId,
    path: Path,
    reads: &mut Vec<Key>,
) -> Result<Vec<InstId>, Memory>
    ensures { IfOk result (λ r. Walks schema.now (L.seen look.now) path from r.items reads.old.items reads.new.items) }
{
    match path {
        Path::Own => {
            let ends = walk_own(alloc, schema, look, from, reads)?;
            Ok(ends)
        }
        Path::Kind => {
            let ends = walk_kind(alloc, schema, look, from, reads)?;
            Ok(ends)
        }
        Path::Property => {
            let ends = walk_property(alloc, schema, look, from, reads)?;
            Ok(ends)
        }
        Path::Classification => {
            let ends = walk_classification(alloc, schema, look, from, reads)?;
            Ok(ends)
        }
        Path::Material => {
            let ends = walk_material(alloc, schema, look, from, reads)?;
            Ok(ends)
        }
        Path::PartOf(relation) => {
            let ends = walk_part_of(alloc, schema, look, relation, from, reads)?;
            Ok(ends)
        }
        Path::PartOfKind(relation) => {
            let ends = walk_part_of_kind(alloc, schema, look, relation, from, reads)?;
            Ok(ends)
        }
    }
}

/// Walks a path of facets from an id, whether or not there is an instance of it, and gives the path's ends. For
/// `Own` that is the id; for `Kind` its types, in the order in which the relationships name them. For the other
/// paths the ends are ascending, each once: properties and quantities; classification references and their
/// sources; materials and what they are made of; ancestors. A reference to a missing instance is an end as any
/// other, and leads nowhere by attributes.
///
/// The keys of all that the walk looks at are appended, whatever it finds. The one refusal is want of memory;
/// `reads` is as before then.
///
/// Each id of a closure is stepped from once: `O(n log n)` in the number of ids that are read on the way.
pub fn walk<L: Look>(
    alloc: Global,
    schema: &SchemaTable,
    look: &L,
    from: InstId,
    path: Path,
    reads: &mut Keys,
) -> Result<Vec<InstId>, Memory>
    ensures ends { IfOk result (λ r. r.items ≡ path_ends schema.now (L.seen look.now) path from) }
    ensures reads { OnOk result (SameKeys reads.new (reads.old ++ path_keys schema.now (L.seen look.now) path from)) }
    ensures kept { OnErr result (reads.new ≡ reads.old) }
{
    let mut own = Vec::new(alloc);
    let ends = walk_along(alloc, schema, look, from, path, &mut own)?;
    append_keys(alloc, reads, own.as_slice())?;
    Ok(ends)
}
