ghost use Rattle.std.specs.Prelude.{◌≡◌, ◌≤◌, ◌<◌, ◌++◌, ℕ, false, List, Option, length, None, Some, IfOk, OnOk, reverse, slice_index_or};
ghost use Rattle.schema_table.specs.Climbing.{lift, step};
ghost use Rattle.schema_table.specs.Order.{AreTaken, HasAll, IsLineDown, IsParentsFirst};

use crate::climbs::{set_mark, step};
use ifc_base::Memory;
use std::alloc::{AllocError, Global};

/// Whether the number is marked.
fn is_marked(marks: &[bool], number: u32) -> bool
    ensures { result ≡ slice_index_or marks.now number false }
{
    match marks.get(number as usize) {
        Some(mark) => *mark,
        None => false,
    }
}

/// The entity and its supertypes, up to the first that is taken, the topmost first.
fn line_down(
    alloc: Global,
    parents: &[Option<u32>],
    taken: &[bool],
    from: u32,
) -> Result<Vec<u32>, AllocError>
    requires { lift parents.now (length parents.now) (Some from) ≡ None }
    ensures { IfOk result (λ line. IsLineDown parents.now taken.now from line.items) }
{
    let mut line = Vec::new(alloc);
    let mut at = Some(from);
    for _step in 0..parents.len() {
        match at {
            Some(number) => {
                if is_marked(taken, number) {
                    break;
                }
                line.push(number)?;
                at = step(parents, number);
            }
            None => break,
        }
    }
    line.reverse();
    Ok(line)
}

/// Adds the numbers at the end, and marks them.
fn append_line(line: &[u32], order: &mut Vec<u32>, taken: &mut Vec<bool>) -> Result<(), AllocError>
    ensures order { OnOk result (order.new.items ≡ order.old.items ++ line.now) }
    ensures taken { OnOk result ((ps : List (Option ℕ)) → AreTaken ps order.old.items taken.old.items → AreTaken ps order.new.items taken.new.items) }
{
    for number in line {
        order.push(*number)?;
        set_mark(taken, Some(*number));
    }
    Ok(())
}

/// The numbers of all entities, each behind its supertype's, if none is on a cycle. `O(n)`.
pub(crate) fn parents_first(alloc: Global, parents: &[Option<u32>]) -> Result<Vec<u32>, Memory>
    requires few { length parents.now ≤ 5000 }
    requires within { (i y : ℕ) → step parents.now i ≡ Some y → y < length parents.now }
    requires ends { (i : ℕ) → i < length parents.now → lift parents.now (length parents.now) (Some i) ≡ None }
    ensures first { IfOk result (λ order. IsParentsFirst parents.now order.items) }
    ensures all { IfOk result (λ order. HasAll parents.now order.items) }
{
    let mut order = Vec::new(alloc);
    let mut taken = vec![in alloc; false; parents.len()]?;
    for number in 0..parents.len() as u32 {
        let line = line_down(alloc, parents, &taken, number)?;
        append_line(&line, &mut order, &mut taken)?;
    }
    Ok(order)
}
