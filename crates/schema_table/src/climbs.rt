ghost use Rattle.std.specs.Prelude.{◌≡◌, ◌^◌, map, true, false, IfOk, length, replicate, slice_set};
ghost use Rattle.std.specs.List.{list_any};
ghost use Rattle.std.specs.Option.{option_and_then, option_map_or};
ghost use Rattle.schema_table.specs.Climbing.{AreMarks, is_number, lifts, step};

use ifc_base::Memory;
use std::alloc::{AllocError, Global};

/// So often the steps are doubled: 2^13 steps are more than there are entities.
const ROUNDS: u32 = 13;

/// One step up.
pub(crate) fn step(parents: &[Option<u32>], number: u32) -> Option<u32>
    ensures { result ≡ step parents.now number }
{
    match parents.get(number as usize) {
        Some(parent) => *parent,
        None => None,
    }
}

/// One step further.
pub(crate) fn further(steps: &[Option<u32>], at: Option<u32>) -> Option<u32>
    ensures { result ≡ option_and_then (step steps.now) at }
{
    match at {
        Some(number) => step(steps, number),
        None => None,
    }
}

/// Where twice as many steps lead.
fn twice(alloc: Global, steps: &[Option<u32>]) -> Result<Vec<Option<u32>>, AllocError>
    ensures { IfOk result (λ far. far.items ≡ map (λ o. option_and_then (step steps.now) o) steps.now) }
{
    steps.iter().map(|at| further(steps, *at)).collect(alloc)
}

/// Where one step leads.
fn once(alloc: Global, parents: &[Option<u32>]) -> Result<Vec<Option<u32>>, AllocError>
    ensures { IfOk result (λ far. far.items ≡ parents.now) }
{
    parents.iter().copied().collect(alloc)
}

/// Where as many steps lead from each entity as there are entities, or more.
fn far_up(alloc: Global, parents: &[Option<u32>]) -> Result<Vec<Option<u32>>, AllocError>
    ensures { IfOk result (λ far. far.items ≡ lifts parents.now (2 ^ 13)) }
{
    let mut far = once(alloc, parents)?;
    for _round in 0..ROUNDS {
        far = twice(alloc, &far)?;
    }
    Ok(far)
}

/// Sets the mark of this number.
pub(crate) fn set_mark(marks: &mut Vec<bool>, at: Option<u32>)
    ensures { marks.new.items ≡ option_map_or (λ k. slice_set marks.old.items k true) at marks.old.items }
{
    if let Some(number) = at {
        let place = number as usize;
        if place < marks.len() {
            marks[place] = true;
        }
    }
}

/// Which entities are reached.
fn reached(alloc: Global, far: &[Option<u32>]) -> Result<Vec<bool>, AllocError>
    ensures { IfOk result (λ marks. AreMarks far.now marks.items) }
{
    let mut marks = vec![in alloc; false; far.len()]?;
    for at in far {
        set_mark(&mut marks, *at);
    }
    Ok(marks)
}

/// Which entities are on a cycle of supertypes.
pub(crate) fn on_cycle(alloc: Global, parents: &[Option<u32>]) -> Result<Vec<bool>, Memory>
    ensures { IfOk result (λ marks. AreMarks (lifts parents.now (2 ^ 13)) marks.items) }
{
    let far = far_up(alloc, parents)?;
    Ok(reached(alloc, &far)?)
}
