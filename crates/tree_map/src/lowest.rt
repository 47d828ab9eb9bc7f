ghost use Rattle.std.specs.Prelude.{◌≡◌, ◌≢◌, ◌^◌, map, IfOk};
ghost use Rattle.tree_map.specs.Pairs.{joined, IsAscending, AreBelow, AreNodes};
ghost use Rattle.tree_map.specs.Top.{lowest_parts};

use crate::group::{Group, grouped};
use crate::level::Level;
use crate::node::{below_digit, cut_branch, make_room, set_branch, share_node};
use crate::tier::Tier;
use ifc_base::Memory;
use std::alloc::Global;
use std::sync::Arc;

/// The lowest level: below each digit stands a value.
#[derive(Drop)]
pub(crate) struct Lowest<V> {
    level: Level<V>,
}

/// The nodes of these groups.
fn lowest_levels<V: Drop>(
    alloc: Global,
    groups: Vec<Group<V>>,
) -> Result<Vec<(u64, Lowest<V>)>, Memory>
    ensures { IfOk result (λ nodes. map lowest_parts nodes.items ≡ groups.items) }
{
    let mut nodes = Vec::with_capacity(alloc, groups.len())?;
    for group in groups {
        let (high, branches) = group.into_parts();
        let level = Level { branches };
        nodes.push((high, Lowest { level }))?;
    }
    Ok(nodes)
}

impl<V: Drop> Tier<V> for Lowest<V> {
    ghost width = { 5 };

    ghost pairs = { λ lowest. lowest.level.branches.items };

    ghost IsWhole = { λ lowest. IsAscending lowest.level.branches.items × AreBelow 32 lowest.level.branches.items };

    ghost ordered = { λ lowest whole. whole };

    fn empty(alloc: Global) -> Lowest<V> {
        Lowest {
            level: Level {
                branches: Vec::new(alloc),
            },
        }
    }

    fn share(&self, alloc: Global) -> Result<Lowest<V>, Memory> {
        let branches = share_node(alloc, &self.level.branches)?;
        Ok(Lowest {
            level: Level { branches },
        })
    }

    fn is_empty(&self) -> bool {
        self.level.branches.is_empty()
    }

    fn get(&self, _bits: u32, key: u64) -> Option<&V> {
        below_digit(&self.level.branches, key as u8)
    }

    fn put(&mut self, alloc: Global, _bits: u32, key: u64, value: V) -> Result<(), (Memory, V)> {
        if make_room(&mut self.level.branches, key as u8).is_err() {
            return Err((Memory, value));
        }
        match Arc::new(alloc, value) {
            Ok(below) => {
                set_branch(&mut self.level.branches, key as u8, below);
                Ok(())
            }
            Err(refused) => Err((Memory, refused.value)),
        }
    }

    fn without(&self, alloc: Global, _bits: u32, key: u64) -> Result<Lowest<V>, Memory> {
        let mut branches = share_node(alloc, &self.level.branches)?;
        cut_branch(&mut branches, key as u8);
        Ok(Lowest {
            level: Level { branches },
        })
    }

    fn list<'a>(
        &'a self,
        _bits: u32,
        from: u64,
        into: &mut Vec<(u64, &'a V)>,
    ) -> Result<(), Memory> {
        for branch in &self.level.branches {
            into.push((from + branch.digit() as u64, branch.below()))?;
        }
        Ok(())
    }

    fn build(alloc: Global, items: Vec<(u64, V)>) -> Result<Vec<(u64, Lowest<V>)>, Memory>
        requires { IsAscending items.items }
        ensures nodes { IfOk result (λ nodes. AreNodes (λ t. IsAscending t.level.branches.items × AreBelow 32 t.level.branches.items) (λ t. t.level.branches.items) nodes.items) }
        ensures pairs { IfOk result (λ nodes. joined (2 ^ 5) (λ t. t.level.branches.items) nodes.items ≡ items.items) }
    {
        let groups = grouped(alloc, items)?;
        let nodes = lowest_levels(alloc, groups)?;
        Ok(nodes)
    }
}
