ghost use Rattle.std.specs.Prelude.{◌≡◌, ◌+◌, ◌^◌, ◌<◌, ◌≤◌, map, OnOk, IfOk, MatchResult};
ghost use Rattle.std.specs.Ordering.{nat_cmp};
ghost use Rattle.std.specs.FinMap.{find};
ghost use Rattle.std.specs.Arc.{arc_value};
ghost use Rattle.tree_map.specs.Ordered.{ordered_joined};
ghost use Rattle.tree_map.specs.Pairs.{joined, pairs_of, AllBranches, AreNodes, IsAscending, IsNode, Updates};
ghost use Rattle.tree_map.specs.Top.{level_parts};

use crate::branch::Branch;
use crate::group::{Group, grouped};
use crate::node::{below_digit, cut_branch, make_room, set_branch, share_node};
use crate::tier::{Tier, split, start};
use ifc_base::Memory;
use std::alloc::Global;
use std::sync::Arc;

/// A node: for each digit below which there is a pair its branch, in ascending digit.
#[derive(Drop)]
pub(crate) struct Level<B> {
    pub(crate) branches: Vec<Branch<B>>,
}

/// A node that no other map has, with the same pairs as the one below the digit, if there is one.
fn fresh_below<V, B: Tier<V>>(
    alloc: Global,
    node: &[Branch<B>],
    digit: u8,
) -> Result<Arc<B, Global>, Memory>
    requires ascending { IsAscending node.now }
    requires whole { AllBranches B.IsWhole node.now }
    ensures whole { IfOk result (λ fresh. B.IsWhole (arc_value fresh)) }
    ensures same { IfOk result (λ fresh. B.pairs (arc_value fresh) ≡ pairs_of B.pairs (find nat_cmp digit node.now)) }
{
    let below = match below_digit(node, digit) {
        Some(below) => below.share(alloc)?,
        None => B::empty(alloc),
    };
    Ok(Arc::new(alloc, below)?)
}

/// Sets the value of a key below a branch that no other map has. At `Err` the value comes back.
pub(crate) fn put_below<V, B: Tier<V>>(
    below: &mut Arc<B, Global>,
    alloc: Global,
    bits: u32,
    key: u64,
    value: V,
) -> Result<(), (Memory, V)>
    requires whole { B.IsWhole (arc_value below.old) }
    requires bits { (bits ≡ B.width) × (bits ≤ 40) }
    requires key { key < 2 ^ bits }
    ensures whole { OnOk result (B.IsWhole (arc_value below.new)) }
    ensures pairs { MatchResult result
        (λ _. Updates key (Some value) (B.pairs (arc_value below.old)) (B.pairs (arc_value below.new)))
        (λ back. back.1 ≡ value) }
{
    match Arc::get_mut(below) {
        Some(tier) => tier.put(alloc, bits, key, value),
        None => Err((Memory, value)),
    }
}

/// The nodes of these groups.
fn levels<B: Drop>(alloc: Global, groups: Vec<Group<B>>) -> Result<Vec<(u64, Level<B>)>, Memory>
    ensures { IfOk result (λ nodes. map level_parts nodes.items ≡ groups.items) }
{
    let mut nodes = Vec::with_capacity(alloc, groups.len())?;
    for group in groups {
        let (high, branches) = group.into_parts();
        nodes.push((high, Level { branches }))?;
    }
    Ok(nodes)
}

impl<V: Drop, B: Tier<V>> Tier<V> for Level<B> {
    ghost width = { B.width + 5 };

    ghost pairs = { λ level. joined (2 ^ B.width) B.pairs level.branches.items };

    ghost IsWhole = { λ level. IsNode B.IsWhole B.pairs level.branches.items };

    ghost ordered = { λ level whole. ordered_joined B.width B.pairs B.IsWhole B.ordered level.branches.items whole };

    fn empty(alloc: Global) -> Level<B> {
        Level {
            branches: Vec::new(alloc),
        }
    }

    fn share(&self, alloc: Global) -> Result<Level<B>, Memory> {
        let branches = share_node(alloc, &self.branches)?;
        Ok(Level { branches })
    }

    fn is_empty(&self) -> bool {
        self.branches.is_empty()
    }

    fn get(&self, bits: u32, key: u64) -> Option<&V> {
        let (digit, rest) = split(key, bits - 5);
        below_digit(&self.branches, digit)?.get(bits - 5, rest)
    }

    fn put(&mut self, alloc: Global, bits: u32, key: u64, value: V) -> Result<(), (Memory, V)> {
        let (digit, rest) = split(key, bits - 5);
        if make_room(&mut self.branches, digit).is_err() {
            return Err((Memory, value));
        }
        match fresh_below(alloc, &self.branches, digit) {
            Ok(mut below) => {
                put_below(&mut below, alloc, bits - 5, rest, value)?;
                set_branch(&mut self.branches, digit, below);
                Ok(())
            }
            Err(_) => Err((Memory, value)),
        }
    }

    fn without(&self, alloc: Global, bits: u32, key: u64) -> Result<Level<B>, Memory> {
        let (digit, rest) = split(key, bits - 5);
        let mut branches = share_node(alloc, &self.branches)?;
        let Some(below) = below_digit(&self.branches, digit) else {
            return Ok(Level { branches });
        };
        let left = below.without(alloc, bits - 5, rest)?;
        if left.is_empty() {
            cut_branch(&mut branches, digit);
            return Ok(Level { branches });
        }
        let held = Arc::new(alloc, left)?;
        set_branch(&mut branches, digit, held);
        Ok(Level { branches })
    }

    fn list<'a>(
        &'a self,
        bits: u32,
        from: u64,
        into: &mut Vec<(u64, &'a V)>,
    ) -> Result<(), Memory> {
        for branch in &self.branches {
            let first = start(from, branch.digit(), bits - 5);
            branch.below().list(bits - 5, first, into)?;
        }
        Ok(())
    }

    fn build(alloc: Global, items: Vec<(u64, V)>) -> Result<Vec<(u64, Level<B>)>, Memory>
        requires { IsAscending items.items }
        ensures nodes { IfOk result (λ nodes. AreNodes (λ t. IsNode B.IsWhole B.pairs t.branches.items) (λ t. joined (2 ^ B.width) B.pairs t.branches.items) nodes.items) }
        ensures pairs { IfOk result (λ nodes. joined (2 ^ (B.width + 5)) (λ t. joined (2 ^ B.width) B.pairs t.branches.items) nodes.items ≡ items.items) }
    {
        let below = B::build(alloc, items)?;
        let groups = grouped(alloc, below)?;
        let nodes = levels(alloc, groups)?;
        Ok(nodes)
    }
}
