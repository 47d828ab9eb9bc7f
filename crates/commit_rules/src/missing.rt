ghost use Rattle.std.specs.Prelude.{◌≡◌, ◌==◌, ℕ, IfOk};
ghost use Rattle.std.specs.List.{list_any};
ghost use Rattle.std.specs.Ordering.{nat_cmp};
ghost use Rattle.std.specs.BTreeSet.{contains};
ghost use Rattle.audit_model.specs.Models.{IsModel};
ghost use Rattle.audit_model.specs.Edits.{apply};
ghost use Rattle.audit_model.specs.Judging.{dangling};
ghost use Rattle.commit_rules.specs.Dangles.{candidate, first_unput, held, is_newly_missing, least_from, lesser_of, missing_at, missing_by, missing_to};
ghost use Rattle.commit_rules.specs.Overlays.{Shows};

use crate::overlay::{Overlay, standing};
use audit_model::{CommitRefusal, Edit, Look, dangling_is_least};
use ifc_base::{InstId, Instance, Memory};
use inverse_index::references;
use model_view::id_of;
use schema_table::SchemaTable;
use std::alloc::Global;
use std::collections::BTreeSet;

/// The set of these ids. `O(n log n)`.
fn set_of(alloc: Global, ids: &[InstId]) -> Result<BTreeSet<InstId>, Memory>
    ensures { IfOk result (λ set. (to : ℕ) → contains nat_cmp set to ≡ list_any (λ i. i == to) ids.now) }
{
    let mut set = BTreeSet::new(alloc);
    for id in ids {
        set.insert(*id)?;
    }
    Ok(set)
}

/// The ids to which the instance of this id held a reference before the commit; none where there was no such
/// instance.
fn references_of<L: Look>(alloc: Global, look: &L, id: InstId) -> Result<BTreeSet<InstId>, Memory>
    ensures { IfOk result (λ set. (to : ℕ) → contains nat_cmp set to ≡ held (L.seen look.now).instance id to) }
{
    match look.instance(id) {
        Some(instance) => {
            let ids = references(alloc, instance)?;
            set_of(alloc, ids.as_slice())
        }
        None => set_of(alloc, &[]),
    }
}

/// Whether the reference of the instance `from` to this id dangles after the commit, and did not before, where
/// these are the ids to which the instance held a reference before.
fn is_newly_missing<L: Look>(
    look: &L,
    overlay: &Overlay,
    before: &BTreeSet<InstId>,
    from: InstId,
    to: InstId,
) -> bool
    requires { contains nat_cmp before.now to ≡ held (L.seen look.now).instance from to }
    ensures { result ≡ is_newly_missing overlay.now.put (L.seen look.now).instance from to }
{
    let _ = from;
    standing(look, overlay, to).is_none() && !(before.contains(&to) && look.instance(to).is_none())
}

/// The lesser of two ids, if there are such.
fn lesser(one: Option<InstId>, other: Option<InstId>) -> Option<InstId>
    ensures { result ≡ lesser_of one other }
{
    match (one, other) {
        (_, None) => one,
        (None, Some(id)) => Some(id),
        (Some(least), Some(id)) => { if least < id { Some(least) } else { Some(id) } }
    }
}

/// The least id to which the instance holds a reference that dangles after the commit and did not before.
/// `O(r log r)` for r references that it holds and held.
fn missing_to<L: Look>(
    alloc: Global,
    look: &L,
    overlay: &Overlay,
    instance: &Instance,
) -> Result<Option<InstId>, Memory>
    ensures { IfOk result (λ to. to ≡ missing_to overlay.now.put (L.seen look.now).instance instance.now) }
{
    let ids = references(alloc, instance)?;
    let before = references_of(alloc, look, instance.id)?;
    let mut least = None;
    for id in &ids {
        if is_newly_missing(look, overlay, &before, instance.id, *id) {
            least = lesser(least, Some(*id));
        }
    }
    Ok(least)
}

/// The least id that is missing newly to the instance of this id, if there is one.
fn missing_at<L: Look>(
    alloc: Global,
    look: &L,
    overlay: &Overlay,
    id: InstId,
) -> Result<Option<InstId>, Memory>
    ensures { IfOk result (λ to. to ≡ missing_at overlay.now.put (L.seen look.now).instance id) }
{
    match standing(look, overlay, id) {
        Some(instance) => missing_to(alloc, look, overlay, instance),
        None => Ok(None),
    }
}

/// The first of the ids at which nothing was put.
fn first_unput(overlay: &Overlay, ids: &[InstId]) -> Option<InstId>
    ensures { result ≡ first_unput overlay.now.put ids.now }
{
    ids.iter().copied().find(|id| !overlay.has(*id))
}

/// The least id of an instance whose references may come to dangle by what was done at this id: the id itself,
/// where an instance stands there, and its first holder at which nothing was put, where one was removed.
fn candidate<L: Look>(look: &L, overlay: &Overlay, id: InstId) -> Option<InstId>
    ensures { result ≡ candidate (L.model look.now) overlay.now.put (L.seen look.now).instance id }
{
    match (look.instance(id), standing(look, overlay, id)) {
        (_, Some(_)) => Some(id),
        (Some(_), None) => first_unput(overlay, look.holders(id)),
        (None, None) => None,
    }
}

/// The candidate of this id, if something is missing newly to it.
fn missing_by<L: Look>(
    alloc: Global,
    look: &L,
    overlay: &Overlay,
    id: InstId,
) -> Result<Option<InstId>, Memory>
    ensures { IfOk result (λ from. from ≡ missing_by (L.model look.now) overlay.now.put (L.seen look.now).instance id) }
{
    let Some(from) = candidate(look, overlay, id) else {
        return Ok(None);
    };
    match missing_at(alloc, look, overlay, from)? {
        Some(_) => Ok(Some(from)),
        None => Ok(None),
    }
}

/// The least candidate to which something is missing newly, for the ids that the edits name.
fn least_from<L: Look>(
    alloc: Global,
    look: &L,
    overlay: &Overlay,
    edits: &[Edit],
) -> Result<Option<InstId>, Memory>
    ensures { IfOk result (λ from. from ≡ least_from (L.model look.now) overlay.now.put (L.seen look.now).instance edits.now) }
{
    let mut least = None;
    for edit in edits {
        let from = missing_by(alloc, look, overlay, id_of(edit))?;
        least = lesser(least, from);
    }
    Ok(least)
}

/// The least pair of ids, by `from` and then by `to`, where with the edits done the instance `from` holds a
/// reference to the missing `to`, which was not so before; none where there is no such pair.
///
/// It looks at the ids that the edits name and at the holders of each that they removed, up to the first that they
/// don't name. For each instance that it looks at `O(r log r)` for r references that it holds and held.
pub(crate) fn dangling<L: Look>(
    alloc: Global,
    schema: &SchemaTable,
    look: &L,
    overlay: &Overlay,
    edits: &[Edit],
) -> Result<Option<CommitRefusal>, Memory>
    requires model { IsModel (L.model look.now) }
    requires shows { Shows schema.now (L.model look.now) (L.seen look.now).instance edits.now overlay.now }
    ensures least { IfOk result (λ refusal. refusal ≡ dangling (L.model look.now) (apply schema.now (L.model look.now) edits.now)) }
{
    let _ = schema;
    dangling_is_least();
    let Some(from) = least_from(alloc, look, overlay, edits)? else {
        return Ok(None);
    };
    match missing_at(alloc, look, overlay, from)? {
        Some(to) => Ok(Some(CommitRefusal::Dangling { from, to })),
        None => Ok(None),
    }
}
