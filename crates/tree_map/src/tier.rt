ghost use Rattle.std.specs.Prelude.{◌≡◌, ◌≢◌, ℕ, ◌+◌, ◌<◌, ◌≤◌, ◌^◌, ◌*◌, ◌↔◌, ◌++◌, [], List, Some, None, map, IsTrue, IfOk};
ghost use Rattle.std.specs.Prelude.{OnOk, MatchResult};
ghost use Rattle.std.specs.Option.{option_copied};
ghost use Rattle.std.specs.Ordering.{nat_cmp};
ghost use Rattle.std.specs.FinMap.{find};
ghost use Rattle.tree_map.specs.Pairs.{raised, joined, IsAscending, AreBelow, AreNodes, Updates};
ghost use Rattle.tree_map.specs.Roots.{seen};

use ifc_base::Memory;
use std::alloc::Global;

/// The nodes below a digit, down to the values: a map from the numbers of the digits that are left.
/// `bits` is how many bits those numbers have, five for each level.
pub(crate) trait Tier<V>: Drop {
    // how many bits a key has
    ghost width: { ℕ };

    // the pairs of keys and values, in ascending key
    ghost pairs: { Self → List (ℕ × V) };

    // the nodes are in order, and below each branch stands a pair
    ghost IsWhole: { Self → Type 0 };

    /// No pairs. It takes no memory.
    fn empty(alloc: Global) -> Self
        ensures whole { IsWhole result }
        ensures none { pairs result ≡ [] };

    /// The same pairs, in a node of its own over the same branches.
    fn share(&self, alloc: Global) -> Result<Self, Memory>
        requires { IsWhole self.now }
        ensures whole { IfOk result (λ shared. IsWhole shared) }
        ensures same { IfOk result (λ shared. pairs shared ≡ pairs self.now) };

    /// Whether there is no pair.
    fn is_empty(&self) -> bool
        requires { IsWhole self.now }
        ensures { IsTrue result ↔ (pairs self.now ≡ []) };

    /// The value of the key. One step for each level.
    fn get(&self, bits: u32, key: u64) -> Option<&V>
        requires whole { IsWhole self.now }
        requires bits { (bits ≡ width) × (bits ≤ 40) }
        requires key { key < 2 ^ bits }
        ensures { option_copied result ≡ find nat_cmp key (pairs self.now) };

    /// Sets the value of the key. It copies the nodes below on the path to the key, so that the nodes that
    /// were there stay as they are. At `Err` the value comes back.
    fn put(&mut self, alloc: Global, bits: u32, key: u64, value: V) -> Result<(), (Memory, V)>
        requires whole { IsWhole self.old }
        requires bits { (bits ≡ width) × (bits ≤ 40) }
        requires key { key < 2 ^ bits }
        ensures whole { OnOk result (IsWhole self.new) }
        ensures pairs { MatchResult result (λ _. Updates key (Some value) (pairs self.old) (pairs self.new))
            (λ back. back.1 ≡ value) };

    /// The pairs without that of the key. It copies the nodes on the path to the key.
    fn without(&self, alloc: Global, bits: u32, key: u64) -> Result<Self, Memory>
        requires whole { IsWhole self.now }
        requires bits { (bits ≡ width) × (bits ≤ 40) }
        requires key { key < 2 ^ bits }
        ensures whole { IfOk result (λ left. IsWhole left) }
        ensures pairs { IfOk result (λ left. Updates key None (pairs self.now) (pairs left)) };

    /// Adds the pairs, with every key greater by `from`, behind those that are there. `O(n)` for `n` pairs.
    fn list<'a>(&'a self, bits: u32, from: u64, into: &mut Vec<(u64, &'a V)>) -> Result<(), Memory>
        requires whole { IsWhole self.now }
        requires bits { (bits ≡ width) × (bits ≤ 40) }
        requires from { from + 2 ^ bits ≤ 2 ^ 40 }
        ensures { OnOk result (map seen into.new.items ≡ map seen into.old.items ++ raised from (pairs self.now)) };

    /// The nodes that together have these items as pairs, whose keys rise: the pairs of each have its number in front
    /// of their digits. `O(n)` for `n` pairs.
    fn build(alloc: Global, items: Vec<(u64, V)>) -> Result<Vec<(u64, Self)>, Memory>
        requires { IsAscending items.items }
        ensures nodes { IfOk result (λ nodes. AreNodes (λ t. IsWhole t) (λ t. pairs t) nodes.items) }
        ensures pairs { IfOk result (λ nodes. joined (2 ^ width) (λ t. pairs t) nodes.items ≡ items.items) };

    // the pairs are in ascending key, and the keys have no more bits
    ghost ordered: { (t : Self) → IsWhole t → IsAscending (pairs t) × AreBelow (2 ^ width) (pairs t) };
}

/// The topmost digit of a key that has five bits more than `bits`, and the number of the others.
pub(crate) fn split(key: u64, bits: u32) -> (u8, u64)
    requires bits { bits ≤ 35 }
    requires key { key < 2 ^ (bits + 5) }
    ensures parts { key ≡ result.0 * 2 ^ bits + result.1 }
    ensures digit { result.0 < 32 }
    ensures rest { result.1 < 2 ^ bits }
{
    ((key >> bits) as u8, key & ((1 << bits) - 1))
}

/// The key of the first pair that may stand below a digit whose others have `bits` bits, if the keys begin at
/// `from`.
pub(crate) fn start(from: u64, digit: u8, bits: u32) -> u64
    requires bits { bits ≤ 35 }
    requires digit { digit < 32 }
    requires from { from + 2 ^ (bits + 5) ≤ 2 ^ 40 }
    ensures value { result ≡ from + digit * 2 ^ bits }
    ensures room { result + 2 ^ bits ≤ 2 ^ 40 }
{
    from + ((digit as u64) << bits)
}
