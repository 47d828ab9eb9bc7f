ghost use Rattle.std.specs.Prelude.{◌≡◌, ◌++◌, ◌∷◌, ◌%◌, [], IfOk};
ghost use Rattle.std.specs.Arc.{arc_value};
ghost use Rattle.tree_map.specs.Pairs.{IsAscending};
ghost use Rattle.tree_map.specs.Groups.{parted, closed, AreGroups};

use crate::branch::Branch;
use ifc_base::Memory;
use std::alloc::Global;
use std::marker::Model;
use std::sync::Arc;

/// The branches of one node, and the number of the node. Contracts see the pair of the two.
#[derive(Drop)]
pub(crate) struct Group<B> {
    high: u64,
    branches: Vec<Branch<B>>,
}

impl<B> Model for Group<B> {
    ghost use Rattle.std.specs.Prelude.{ℕ, List};
    ghost use Rattle.std.specs.Coded.{coded×, coded_ℕ, coded_list};

    ghost Value = { ℕ × List (ℕ × B) };

    ghost coded = { coded× coded_ℕ (coded_list (coded× coded_ℕ B.code)) };

    ghost view = { λ group. (group.high, group.branches.items) };
}

impl<B> Group<B> {
    /// The number and the branches.
    pub(crate) fn into_parts(self) -> (u64, Vec<Branch<B>>)
        ensures { (result.0, result.1.items) ≡ self }
    {
        (self.high, self.branches)
    }
}

/// The groups with one more of these branches, if there are any. It keeps no memory that isn't used.
fn close<B: Drop>(
    mut groups: Vec<Group<B>>,
    high: u64,
    mut branches: Vec<Branch<B>>,
) -> Result<Vec<Group<B>>, Memory>
    ensures { IfOk result (λ all. all.items ≡ closed groups.items high branches.items) }
{
    if branches.is_empty() {
        return Ok(groups);
    }
    branches.shrink_to_fit();
    groups.push(Group { high, branches })?;
    Ok(groups)
}

/// The one branch of the key.
fn branch_of<B: Drop>(alloc: Global, key: u64, below: B) -> Result<Branch<B>, Memory>
    ensures { IfOk result (λ branch. branch ≡ (key % 32, below)) }
{
    let held = Arc::new(alloc, below)?;
    Ok(Branch::new((key % 32) as u8, held))
}

/// Groups, the last of which may still grow. Contracts see all branches by their whole keys.
#[derive(Drop)]
struct Opened<B> {
    groups: Vec<Group<B>>,
    high: u64,
    branches: Vec<Branch<B>>,
}

impl<B> Model for Opened<B> {
    ghost use Rattle.std.specs.Prelude.{ℕ, List};
    ghost use Rattle.std.specs.Coded.{coded×, coded_ℕ, coded_list};
    ghost use Rattle.tree_map.specs.Groups.{opened, IsOpened};

    ghost Value = { List (ℕ × B) };

    ghost coded = { coded_list (coded× coded_ℕ B.code) };

    ghost view = { λ all. opened all.groups.items all.high all.branches.items };

    ghost invariant = { λ all. IsOpened all.groups.items all.high all.branches.items };
}

impl<B: Drop> Opened<B> {
    /// No branch.
    fn new(alloc: Global) -> Opened<B>
        ensures { result ≡ [] }
    {
        Opened {
            groups: Vec::new(alloc),
            high: 0,
            branches: Vec::new(alloc),
        }
    }

    /// With one more behind the others, whose key has to be above theirs.
    fn with(self, alloc: Global, key: u64, below: B) -> Result<Opened<B>, Memory>
        requires { IsAscending (self ++ (key, below) ∷ []) }
        ensures { IfOk result (λ more. more ≡ self ++ (key, below) ∷ []) }
    {
        let branch = branch_of(alloc, key, below)?;
        let Opened {
            groups,
            high,
            mut branches,
        } = self;
        if key / 32 == high {
            branches.push(branch)?;
            return Ok(Opened {
                groups,
                high,
                branches,
            });
        }
        let groups = close(groups, high, branches)?;
        let mut first = Vec::new(alloc);
        first.push(branch)?;
        Ok(Opened {
            groups,
            high: key / 32,
            branches: first,
        })
    }

    /// All of them in groups.
    fn into_groups(self) -> Result<Vec<Group<B>>, Memory>
        ensures groups { IfOk result (λ groups. AreGroups groups.items) }
        ensures same { IfOk result (λ groups. parted groups.items ≡ self) }
    {
        let groups = close(self.groups, self.high, self.branches)?;
        Ok(groups)
    }
}

/// These items, whose keys rise, as branches in groups. `O(n)` for `n` items.
pub(crate) fn grouped<B: Drop>(alloc: Global, items: Vec<(u64, B)>) -> Result<Vec<Group<B>>, Memory>
    requires { IsAscending items.items }
    ensures groups { IfOk result (λ groups. AreGroups groups.items) }
    ensures same { IfOk result (λ groups. parted groups.items ≡ items.items) }
{
    let mut all = Opened::new(alloc);
    for (key, below) in items {
        all = all.with(alloc, key, below)?;
    }
    all.into_groups()
}
