ghost use Rattle.std.specs.Prelude.{◌≡◌, ℕ, List, [], ◌∷◌, ◌++◌, IfOk, OnOk};
ghost use Rattle.std.specs.List.{flat_map};
ghost use Rattle.ifc_base.specs.declared.key.Key.TheVariants.{Inst};
ghost use Rattle.audit_model.specs.Keys.{Sight};
ghost use Rattle.audit_model.specs.Reading.{Reading};
ghost use Rattle.audit_model.specs.Ascending.{union};
ghost use Rattle.audit_model.specs.Closures.{closure};
ghost use Rattle.closure_walk.specs.Walking.{In, SameKeys, Walking, IsFresh};

use ifc_base::{InstId, Key, Memory};
use std::alloc::Global;
use std::collections::BTreeSet;

/// A step from an id to others, over one model. It stands on the id.
pub trait Step {
    ghost taken: { Self → ℕ → Reading (List ℕ) };

    ghost seen: { Self → Sight };

    /// Appends the ends of the step from this id to `ends`, and the keys that it looks at to `reads`. The one
    /// refusal is want of memory; some of them may stand there then.
    fn step(&self, from: InstId, ends: &mut Vec<InstId>, reads: &mut Vec<Key>) -> Result<(), Memory>
        ensures ends { OnOk result (ends.new.items ≡ ends.old.items ++ (taken self.now from).answer (seen self.now)) }
        ensures reads { OnOk result (reads.new.items ≡ reads.old.items ++ (taken self.now from).keys (seen self.now)) };

    ghost stands: { (s : Self) (n : ℕ) → In (Inst n) ((taken s n).keys (seen s)) };
}

/// Steps from each of the ids, in their order.
fn step_all<S: Step>(
    step: &S,
    fresh: &[InstId],
    ends: &mut Vec<InstId>,
    reads: &mut Vec<Key>,
) -> Result<(), Memory>
    ensures ends { OnOk result (ends.new.items ≡ ends.old.items ++ flat_map (λ x. (S.taken step.now x).answer (S.seen step.now)) fresh.now) }
    ensures reads { OnOk result (reads.new.items ≡ reads.old.items ++ flat_map (λ x. (S.taken step.now x).keys (S.seen step.now)) fresh.now) }
{
    for id in fresh {
        step.step(*id, ends, reads)?;
    }
    Ok(())
}

/// Adds the ids to the members, and those that are new to the list.
fn add_all(
    ids: &[InstId],
    members: &mut BTreeSet<InstId>,
    fresh: &mut Vec<InstId>,
) -> Result<(), Memory>
    requires { fresh.old.items ≡ [] }
    ensures members { OnOk result (members.new.keys ≡ union members.old.keys ids.now) }
    ensures fresh { OnOk result (IsFresh members.old.keys members.new.keys fresh.new.items) }
{
    for id in ids {
        if members.insert(*id)? {
            fresh.push(*id)?;
        }
    }
    Ok(())
}

/// Steps at most so often, each time from the ids that are new.
fn spread<S: Step>(
    alloc: Global,
    step: &S,
    starts: &[InstId],
    most: u32,
    reads: &mut Vec<Key>,
) -> Result<(BTreeSet<InstId>, Vec<InstId>), Memory>
    ensures { IfOk result (λ r. Walking (S.taken step.now) (S.seen step.now) starts.now most r.0.keys r.1.items reads.old.items reads.new.items) }
{
    let mut members = BTreeSet::new(alloc);
    let mut fresh = Vec::new(alloc);
    add_all(starts, &mut members, &mut fresh)?;
    for hops in 0..most {
        if fresh.is_empty() {
            return Ok((members, fresh));
        }
        let mut ends = Vec::new(alloc);
        step_all(step, fresh.as_slice(), &mut ends, reads)?;
        let mut next = Vec::new(alloc);
        add_all(ends.as_slice(), &mut members, &mut next)?;
        fresh = next;
    }
    Ok((members, fresh))
}

/// Stands on each of the ids.
fn stand_all(ids: &[InstId], reads: &mut Vec<Key>) -> Result<(), Memory>
    ensures { OnOk result (reads.new.items ≡ reads.old.items ++ flat_map (λ x. Inst x ∷ []) ids.now) }
{
    for id in ids {
        reads.push(Key::Inst(*id))?;
    }
    Ok(())
}

/// The closure of the ids by at most so many steps, ascending; an id is in it whether or not there is an instance
/// of it. It appends the keys that it looks at. The one refusal is want of memory; some of these keys may stand in
/// `reads` then.
///
/// It steps from each id once, in rounds that end when none brings a new id: `O(n log n)` in the number of ids
/// that the steps lead to, each counted as often as a step leads to it.
pub fn close<S: Step>(
    alloc: Global,
    step: &S,
    starts: &[InstId],
    most: u32,
    reads: &mut Vec<Key>,
) -> Result<BTreeSet<InstId>, Memory>
    ensures ends { IfOk result (λ r. r.keys ≡ (closure most (S.taken step.now) starts.now).answer (S.seen step.now)) }
    ensures reads { OnOk result (SameKeys reads.new.items (reads.old.items ++ (closure most (S.taken step.now) starts.now).keys (S.seen step.now))) }
{
    let (members, left) = spread(alloc, step, starts, most, reads)?;
    stand_all(left.as_slice(), reads)?;
    Ok(members)
}
