ghost use Rattle.std.specs.Prelude.{◌≡◌, ◌<◌, ◌≤◌, None, true, is_some, nat_lt, IfOk, OnOk, MatchResult, vec_len, vec_capacity};
ghost use Rattle.std.specs.Option.{option_copied};
ghost use Rattle.std.specs.Ordering.{nat_cmp};
ghost use Rattle.std.specs.FinMap.{find, put};
ghost use Rattle.std.specs.Arc.{arc_value};
ghost use Rattle.tree_map.specs.Pairs.{IsAscending, cut};
ghost use Rattle.tree_map.specs.Places.{place_of};

use crate::branch::Branch;
use ifc_base::Memory;
use std::alloc::Global;
use std::sync::Arc;

/// How many branches at the front have a lower digit. At most five comparisons in a node of 32.
fn place<B>(node: &[Branch<B>], digit: u8) -> usize
    requires { IsAscending node.now }
    ensures { result ≡ place_of digit node.now }
{
    node.partition_point(
        |branch: &Branch<B>| -> bool
            ensures { result ≡ nat_lt branch.now.0 digit }
        { branch.digit() < digit },
    )
}

/// Where the branch of this digit stands, or where it would have to stand.
fn find_digit<B>(node: &[Branch<B>], digit: u8) -> Result<usize, usize>
    requires { IsAscending node.now }
    ensures { MatchResult result
        (λ at. (at ≡ place_of digit node.now) × (is_some (find nat_cmp digit node.now) ≡ true))
        (λ at. (at ≡ place_of digit node.now) × (find nat_cmp digit node.now ≡ None)) }
{
    let at = place(node, digit);
    let Some(branch) = node.get(at) else {
        return Err(at);
    };
    if branch.digit() == digit {
        Ok(at)
    } else {
        Err(at)
    }
}

/// What stands below this digit, if it has a branch.
pub(crate) fn below_digit<B>(node: &[Branch<B>], digit: u8) -> Option<&B>
    requires { IsAscending node.now }
    ensures { option_copied result ≡ find nat_cmp digit node.now }
{
    let branch = node.get(place(node, digit))?;
    if branch.digit() == digit {
        Some(branch.below())
    } else {
        None
    }
}

/// A node of the same branches, which shares what stands below them. `O(1)`, since a node has at most 32.
pub(crate) fn share_node<B: Drop>(
    alloc: Global,
    node: &[Branch<B>],
) -> Result<Vec<Branch<B>>, Memory>
    ensures { IfOk result (λ shared. shared.items ≡ node.now) }
{
    let mut shared = Vec::with_capacity(alloc, node.len())?;
    for branch in node {
        shared.push(branch.share()?)?;
    }
    Ok(shared)
}

/// Takes the memory for one more branch, if this digit has none. The branches stay as they are.
pub(crate) fn make_room<B: Drop>(node: &mut Vec<Branch<B>>, digit: u8) -> Result<(), Memory>
    requires { IsAscending node.old.items }
    ensures same { node.new.items ≡ node.old.items }
    ensures room { OnOk result (find nat_cmp digit node.new.items ≡ None → vec_len node.new < vec_capacity node.new) }
{
    if below_digit(node, digit).is_none() {
        node.try_reserve_exact(1)?;
    }
    Ok(())
}

/// Sets what stands below this digit, in the place of what stood there. It takes no memory.
pub(crate) fn set_branch<B: Drop>(node: &mut Vec<Branch<B>>, digit: u8, below: Arc<B, Global>)
    requires ascending { IsAscending node.old.items }
    requires room { find nat_cmp digit node.old.items ≡ None → vec_len node.old < vec_capacity node.old }
    ensures { node.new.items ≡ put nat_cmp digit (arc_value below) node.old.items }
{
    let branch = Branch::new(digit, below);
    match find_digit(node, digit) {
        Ok(at) => node[at] = branch,
        Err(at) => match node.insert(at, branch) {
            Ok(()) => (),
            Err(_) => unreachable!(),
        },
    }
}

/// Takes out the branch of this digit, if there is one.
pub(crate) fn cut_branch<B: Drop>(node: &mut Vec<Branch<B>>, digit: u8)
    requires { IsAscending node.old.items }
    ensures { node.new.items ≡ cut digit node.old.items }
{
    if let Ok(at) = find_digit(node, digit) {
        node.remove(at);
    }
}
