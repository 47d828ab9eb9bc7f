ghost use Rattle.std.specs.Prelude.{◌≡◌, ℕ, ◌+◌, ◌^◌, ◌<◌, ◌≤◌, ◌==◌, if◌then◌else◌, None, IfOk, MatchResult};
ghost use Rattle.std.specs.Option.{option_copied};
ghost use Rattle.std.specs.Ordering.{nat_cmp};
ghost use Rattle.std.specs.FinMap as map;
ghost use Rattle.tree_map.specs.Pairs.{IsAscending, AreBelow};

use crate::level::Level;
use crate::lowest::Lowest;
use crate::root::{Root, built_root, get_root, list_root, share_root, with_root, without_root};
use crate::tier::Tier;
use crate::walk::Walk;
use ifc_base::Memory;
use std::alloc::Global;
use std::marker::Model;

/// How many bits a key has, five for each of the eight levels.
const BITS: u32 = 40;

/// The least number that is no key.
const KEYS: u64 = 1 << 40;

/// The topmost of the eight levels.
type Top<V> = Level<Level<Level<Level<Level<Level<Level<Lowest<V>>>>>>>>;

/// A persistent map from numbers below 2^40 to values. Contracts see it as a finite map.
///
/// A change makes a new map and leaves the old one as it was; the two share all but the at most eight nodes
/// on the path to the key. A map takes no memory before its first pair. A node holds 16 bytes for each branch
/// that is there, and a branch below which no pair is left isn't kept.
#[derive(Drop)]
pub struct TreeMap<V: Drop> {
    root: Root<Top<V>>,
    count: usize,
}

impl<V: Drop> Model for TreeMap<V> {
    ghost use Rattle.std.specs.Prelude.{◌≡◌, length};
    ghost use Rattle.std.specs.Ordering.{nat_cmp};
    ghost use Rattle.std.specs.FinMap as map;
    ghost use Rattle.std.specs.Coded.{coded_ℕ};
    ghost use Rattle.tree_map.specs.Roots.{pairs_in, IsWholeRoot};
    ghost use Rattle.tree_map.specs.Top.{top};

    ghost Value = { map.FinMap nat_cmp V };

    ghost coded = { map.code coded_ℕ V.code };

    ghost view = { λ tree. map.from_sorted (pairs_in top.pairs tree.root) };

    ghost invariant = { λ tree. IsWholeRoot top.IsWhole tree.root × (tree.count ≡ length (pairs_in top.pairs tree.root)) };
}

impl<V: Drop> TreeMap<V> {
    /// The map without a pair. It takes no memory. `O(1)`.
    pub fn new() -> TreeMap<V>
        ensures { result ≡ map.empty }
    {
        TreeMap {
            root: None,
            count: 0,
        }
    }

    /// The map of these pairs, whose keys have to rise and be below 2^40. Each node takes the memory of its
    /// branches and no more. `O(n)` for `n` pairs; for the while it takes 32 bytes for each node.
    pub fn of_ascending(alloc: Global, pairs: Vec<(u64, V)>) -> Result<TreeMap<V>, Memory>
        requires ascending { IsAscending pairs.items }
        requires keys { AreBelow (2 ^ 40) pairs.items }
        ensures { IfOk result (λ made. map.entries made ≡ pairs.items) }
    {
        let count = pairs.len();
        let root = built_root(alloc, pairs)?;
        Ok(TreeMap { root, count })
    }

    /// How many pairs there are. `O(1)`.
    pub fn len(&self) -> usize
        ensures { result ≡ map.len self.now }
    {
        self.count
    }

    /// Whether there is no pair. `O(1)`.
    pub fn is_empty(&self) -> bool
        ensures { result ≡ (map.len self.now == 0) }
    {
        self.count == 0
    }

    /// The value of the key, and None where it has none, as a key of 2^40 or more. Eight steps at most, each of
    /// at most five comparisons.
    pub fn get(&self, key: u64) -> Option<&V>
        ensures { option_copied result ≡ map.get self.now key }
    {
        let root = &self.root;
        if key >= KEYS {
            return None;
        }
        get_root(root, BITS, key)
    }

    /// How many pairs there are with one of this key.
    fn len_with(&self, key: u64) -> usize
        ensures { result ≡ (if map.contains_key self.now key then map.len self.now else map.len self.now + 1) }
    {
        match self.get(key) {
            Some(_) => self.count,
            None => self.count + 1,
        }
    }

    /// The map in which the key, which has to be below 2^40, has this value, in the place of the one that it had.
    /// This map stays as it was. For want of memory the value is handed back.
    ///
    /// It copies the nodes on the path to the key, at most eight of 32 branches: `O(1)`.
    pub fn with(&self, alloc: Global, key: u64, value: V) -> Result<TreeMap<V>, (Memory, V)>
        requires { key < 2 ^ 40 }
        ensures { MatchResult result (λ next. next ≡ map.insert self.now key value) (λ back. back.1 ≡ value) }
    {
        let count = self.len_with(key);
        let root = with_root(&self.root, alloc, BITS, key, value)?;
        Ok(TreeMap {
            root: Some(root),
            count,
        })
    }

    /// The map without the pair of this key: an equal one over the same memory, where the key has no value, as
    /// a key of 2^40 or more. This map stays as it was. It copies the nodes on the path to the key, at most
    /// eight of 32 branches: `O(1)`.
    pub fn without(&self, alloc: Global, key: u64) -> Result<TreeMap<V>, Memory>
        ensures { IfOk result (λ next. next ≡ map.remove self.now key) }
    {
        let Some(_) = self.get(key) else {
            let same = self.share()?;
            return Ok(same);
        };
        let root = without_root(&self.root, alloc, BITS, key)?;
        Ok(TreeMap {
            root,
            count: self.count - 1,
        })
    }

    /// No key of 2^40 or more has a value, and to take one out changes nothing.
    pub fn has_no_great_key(&self)
        ensures none { (key : ℕ) → 2 ^ 40 ≤ key → map.get self.now key ≡ None }
        ensures same { (key : ℕ) → 2 ^ 40 ≤ key → map.remove self.now key ≡ self.now }
    {
        let _ = &self.root;
    }

    /// An equal map over the same memory. It copies no node: `O(1)`.
    pub fn share(&self) -> Result<TreeMap<V>, Memory>
        ensures { IfOk result (λ same. same ≡ self.now) }
    {
        let root = share_root(&self.root)?;
        Ok(TreeMap {
            root,
            count: self.count,
        })
    }

    /// The pairs, in ascending key. It takes 16 bytes for each pair, and copies no value: `O(n)` for `n` pairs.
    pub fn walk(&self, alloc: Global) -> Result<Walk<'_, V>, Memory>
        ensures { IfOk result (λ walk. walk ≡ map.entries self.now) }
    {
        let pairs = list_root(&self.root, alloc, BITS)?;
        Ok(Walk::new(pairs))
    }
}
