ghost use Rattle.std.specs.Prelude.{◌≡◌, ◌++◌, ◌&&◌, [], ◌∷◌, if◌then◌else◌, not, map, IfOk, OnOk};
ghost use Rattle.std.specs.Option.{option_copied};
ghost use Rattle.audit_model.specs.Facets.{admits_entity};
ghost use Rattle.audit_model.specs.Pairs.{may_apply, pairs, pairs_of};
ghost use Rattle.audit_core.specs.Rows.{lost, lost_at, lost_by, makes_at};

use audit_model::{Facet, Pair, Specification};
use ifc_base::{InstId, Instance, Key, Keys, Memory, Name};
use model_view::Snapshot;
use std::alloc::Global;

/// Whether the facet, if it is an entity facet, admits an entity of this name.
fn admits_entity(alloc: Global, facet: &Facet, entity: &Name) -> Result<bool, Memory>
    ensures { IfOk result (λ admitted. admitted ≡ admits_entity entity.now facet.now) }
{
    match facet {
        Facet::Entity(facet) => facet.name.admits_text(alloc, entity.as_str()),
        _ => Ok(true),
    }
}

/// Whether the specification may apply to entities of this name.
fn may_apply(alloc: Global, spec: &Specification, entity: &Name) -> Result<bool, Memory>
    ensures { IfOk result (λ wanted. wanted ≡ may_apply spec.now entity.now) }
{
    for facet in spec.applicability.as_slice() {
        if !admits_entity(alloc, facet, entity)? {
            return Ok(false);
        }
    }
    Ok(true)
}

/// Adds the pair, where it is wanted.
fn add_pair(list: &mut Vec<Pair>, wanted: bool, pair: Pair) -> Result<(), Memory>
    ensures { OnOk result (list.new.items ≡ list.old.items ++ (if wanted then pair ∷ [] else [])) }
{
    if wanted {
        list.push(pair)?;
    }
    Ok(())
}

/// The instances of the snapshot, in ascending id. It takes 8 bytes for each: `O(n)`.
pub fn instances_of(alloc: Global, snapshot: &Snapshot) -> Result<Vec<&Instance>, Memory>
    ensures { IfOk result (λ list. map (λ x. x.now) list.items ≡ snapshot.now.model) }
{
    let mut list = Vec::new(alloc);
    for entry in snapshot.walk(alloc)? {
        list.push(entry.1)?;
    }
    Ok(list)
}

/// Adds each pair of a specification that is for the model.
fn add_pairs(
    alloc: Global,
    list: &mut Vec<Pair>,
    spec: &Specification,
    instances: &[&Instance],
) -> Result<(), Memory>
    ensures { OnOk result (list.new.items ≡ list.old.items ++ pairs_of spec.now (map (λ x. x.now) instances.now)) }
{
    if !spec.for_model {
        return Ok(());
    }
    for instance in instances {
        let wanted = may_apply(alloc, spec, &instance.entity)?;
        let pair = Pair {
            spec: spec.number,
            elem: instance.id,
        };
        add_pair(list, wanted, pair)?;
    }
    Ok(())
}

/// Each pair of these instances, in order.
fn pairs_of(
    alloc: Global,
    specs: &[Specification],
    instances: &[&Instance],
) -> Result<Vec<Pair>, Memory>
    ensures { IfOk result (λ list. list.items ≡ pairs specs.now (map (λ x. x.now) instances.now)) }
{
    let mut list = Vec::new(alloc);
    for spec in specs {
        add_pairs(alloc, &mut list, spec, instances)?;
    }
    Ok(list)
}

/// The pairs of the model, in order. `O(s * n)` for `s` specifications and `n` instances.
pub fn all_pairs(
    alloc: Global,
    specs: &[Specification],
    snapshot: &Snapshot,
) -> Result<Vec<Pair>, Memory>
    ensures { IfOk result (λ list. list.items ≡ pairs specs.now snapshot.now.model) }
{
    let instances = instances_of(alloc, snapshot)?;
    pairs_of(alloc, specs, &instances)
}

/// Whether the specification makes a pair with the instance, if there is one.
fn makes(alloc: Global, spec: &Specification, instance: Option<&Instance>) -> Result<bool, Memory>
    ensures { IfOk result (λ made. made ≡ makes_at spec.now (option_copied instance.entry)) }
{
    match instance {
        None => Ok(false),
        Some(instance) => {
            if spec.for_model {
                may_apply(alloc, spec, &instance.entity)
            } else {
                Ok(false)
            }
        }
    }
}

/// Whether the specification makes a pair with the one instance, and none with the other.
fn loses(
    alloc: Global,
    spec: &Specification,
    one: Option<&Instance>,
    other: Option<&Instance>,
) -> Result<bool, Memory>
    ensures { IfOk result (λ loses. loses ≡ (makes_at spec.now (option_copied one.entry) && not (makes_at spec.now (option_copied other.entry)))) }
{
    if makes(alloc, spec, one)? {
        let kept = makes(alloc, spec, other)?;
        Ok(!kept)
    } else {
        Ok(false)
    }
}

/// Adds the pairs of the element of this id that are there while the one instance is its own, and not
/// while the other is. `O(s)` for `s` specifications.
fn add_lost(
    alloc: Global,
    list: &mut Vec<Pair>,
    specs: &[Specification],
    id: InstId,
    one: Option<&Instance>,
    other: Option<&Instance>,
) -> Result<(), Memory>
    ensures { OnOk result (list.new.items ≡ list.old.items ++ lost_at specs.now id (option_copied one.entry) (option_copied other.entry)) }
{
    for spec in specs {
        let wanted = loses(alloc, spec, one, other)?;
        let pair = Pair {
            spec: spec.number,
            elem: id,
        };
        add_pair(list, wanted, pair)?;
    }
    Ok(())
}

/// The same for the element whose instance this key is.
fn add_lost_by(
    alloc: Global,
    list: &mut Vec<Pair>,
    specs: &[Specification],
    from: &Snapshot,
    to: &Snapshot,
    key: &Key,
) -> Result<(), Memory>
    ensures { OnOk result (list.new.items ≡ list.old.items ++ lost_by specs.now from.now.model to.now.model key.now) }
{
    match key {
        Key::Inst(id) => add_lost(
            alloc,
            list,
            specs,
            *id,
            from.instance(*id),
            to.instance(*id),
        ),
        Key::Refs(_, _) => Ok(()),
    }
}

/// Of the elements whose instances are among these keys, the pairs of the one snapshot that aren't pairs
/// of the other. `O(s * k)` for `s` specifications and `k` keys.
pub fn lost_pairs(
    alloc: Global,
    specs: &[Specification],
    from: &Snapshot,
    to: &Snapshot,
    keys: &Keys,
) -> Result<Vec<Pair>, Memory>
    ensures { IfOk result (λ list. list.items ≡ lost specs.now from.now.model to.now.model keys.now) }
{
    let mut list = Vec::new(alloc);
    for key in keys.as_slice() {
        add_lost_by(alloc, &mut list, specs, from, to, key)?;
    }
    Ok(list)
}
