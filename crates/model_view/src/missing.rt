ghost use Rattle.std.specs.Prelude.{◌≡◌, ◌&&◌, ◌==◌, ℕ, not, false, IfOk};
ghost use Rattle.std.specs.List.{list_any};
ghost use Rattle.std.specs.Option.{option_map_or};
ghost use Rattle.std.specs.Ordering.{nat_cmp};
ghost use Rattle.std.specs.BTreeSet.{contains};
ghost use Rattle.schema_table.specs.Schema.{Schema};
ghost use Rattle.audit_model.specs.Models.{instance_at, is_present};
ghost use Rattle.audit_model.specs.Edits.{apply, edit_id};
ghost use Rattle.audit_model.specs.Judging.{dangling, newly_missing, references};
ghost use Rattle.model_view.specs.Dangles.{candidate, head_of, least_from, lesser_of, missing_at, missing_by};

use crate::attribute::id_of;
use crate::editing::Editing;
use crate::indexed::Indexed;
use crate::snapshot::Snapshot;
use audit_model::{CommitRefusal, Edit, dangling_is_least};
use ifc_base::{InstId, Instance, Memory};
use inverse_index::references;
use std::alloc::Global;
use std::collections::BTreeSet;

/// The set of these ids. `O(n log n)`.
fn set_of(alloc: Global, ids: &[InstId]) -> Result<BTreeSet<InstId>, Memory>
    ensures { IfOk result (λ set. (to : ℕ) → contains nat_cmp set to ≡ list_any (λ i. i == to) ids.now) }
{
    let mut set = BTreeSet::new(alloc);
    for id in ids {
        set.insert(*id)?;
    }
    Ok(set)
}

/// The ids to which the instance of this id holds a reference; none where there is no such instance.
fn references_of(alloc: Global, model: &Indexed, id: InstId) -> Result<BTreeSet<InstId>, Memory>
    ensures { IfOk result (λ set. (to : ℕ) → contains nat_cmp set to ≡ option_map_or (λ x. list_any
        (λ i. i == to) (references x)) (instance_at id model.now.model) false) }
{
    match model.instance(id) {
        Some(instance) => {
            let ids = references(alloc, instance)?;
            set_of(alloc, ids.as_slice())
        }
        None => set_of(alloc, &[]),
    }
}

/// Whether the reference to this id dangles in the new model, and did not in the old one, where these
/// are the ids to which the instance held a reference there.
fn is_newly_missing(old: &Indexed, new: &Indexed, before: &BTreeSet<InstId>, to: InstId) -> bool
    ensures { result ≡ (not (is_present to new.now.model) && not (contains nat_cmp before.now to && not
        (is_present to old.now.model))) }
{
    !new.is_there(to) && !(before.contains(&to) && !old.is_there(to))
}

/// The lesser of two ids, if there are such.
fn lesser(one: Option<InstId>, other: Option<InstId>) -> Option<InstId>
    ensures { result ≡ lesser_of one other }
{
    match (one, other) {
        (_, None) => one,
        (None, Some(id)) => Some(id),
        (Some(least), Some(id)) => { if least < id { Some(least) } else { Some(id) } }
    }
}

/// The least id to which the instance, one of the new model, holds a reference that dangles there and
/// did not in the old one. `O(r log r)` for r references that it holds and held.
fn newly_missing(
    alloc: Global,
    old: &Indexed,
    new: &Indexed,
    instance: &Instance,
) -> Result<Option<InstId>, Memory>
    ensures { IfOk result (λ to. to ≡ newly_missing old.now.model new.now.model instance.now) }
{
    let ids = references(alloc, instance)?;
    let before = references_of(alloc, old, instance.id)?;
    let mut least = None;
    for id in &ids {
        if is_newly_missing(old, new, &before, *id) {
            least = lesser(least, Some(*id));
        }
    }
    Ok(least)
}

/// The least id that is missing newly to the instance of this id, if there is one.
fn missing_at(
    alloc: Global,
    old: &Indexed,
    new: &Indexed,
    id: InstId,
) -> Result<Option<InstId>, Memory>
    ensures { IfOk result (λ to. to ≡ missing_at old.now.model new.now.model id) }
{
    match new.instance(id) {
        Some(instance) => newly_missing(alloc, old, new, instance),
        None => Ok(None),
    }
}

/// The first of the ids.
fn first(ids: &[InstId]) -> Option<InstId>
    ensures { result ≡ head_of ids.now }
{
    match ids {
        [] => None,
        [id, ..] => Some(*id),
    }
}

/// The least id of an instance whose references may come to dangle by what was done at this id: the id itself,
/// where an instance stands there, and its first holder, where one was removed.
fn candidate(old: &Indexed, new: &Indexed, id: InstId) -> Option<InstId>
    ensures { result ≡ candidate old.now.model new.now.model id }
{
    match (old.instance(id), new.instance(id)) {
        (_, Some(_)) => Some(id),
        (Some(_), None) => first(new.holders(id)),
        (None, None) => None,
    }
}

/// The candidate of this id, if something is missing newly to it.
fn missing_by(
    alloc: Global,
    old: &Indexed,
    new: &Indexed,
    id: InstId,
) -> Result<Option<InstId>, Memory>
    ensures { IfOk result (λ from. from ≡ missing_by old.now.model new.now.model id) }
{
    let Some(from) = candidate(old, new, id) else {
        return Ok(None);
    };
    match missing_at(alloc, old, new, from)? {
        Some(_) => Ok(Some(from)),
        None => Ok(None),
    }
}

/// The least id of an instance to which something is missing newly, among those that the edits name and the
/// first holders of those that they remove.
fn least_from(
    alloc: Global,
    old: &Indexed,
    new: &Indexed,
    edits: &[Edit],
) -> Result<Option<InstId>, Memory>
    ensures { IfOk result (λ from. from ≡ least_from old.now.model new.now.model edits.now) }
{
    let mut least = None;
    for edit in edits {
        let from = missing_by(alloc, old, new, id_of(edit))?;
        least = lesser(least, from);
    }
    Ok(least)
}

/// The least pair of ids, by `from` and then by `to`, where in the edited model the instance `from` holds a
/// reference to the missing `to`, which was not so in the old one; none where there is no such pair. The edited
/// model has to be the old one with these edits done, under whatever schema.
///
/// It looks at the ids that the edits name and at the first holder of each that they removed, and at no other:
/// for each `O(r log r)` for r references that the instance holds and held before.
pub fn dangling(
    alloc: Global,
    old: &Snapshot,
    new: &Editing,
    edits: &[Edit],
) -> Result<Option<CommitRefusal>, Memory>
    requires edited { (s : Schema) × (new.now.model ≡ apply s old.now.model edits.now) }
    ensures least { IfOk result (λ refusal. refusal ≡ dangling old.now.model new.now.model) }
{
    let before = old.content();
    let after = new.content();
    after.ascends();
    dangling_is_least();
    let Some(from) = least_from(alloc, before, after, edits)? else {
        return Ok(None);
    };
    match missing_at(alloc, before, after, from)? {
        Some(to) => Ok(Some(CommitRefusal::Dangling { from, to })),
        None => Ok(None),
    }
}
