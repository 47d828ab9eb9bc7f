//! The weight of a tree.

ghost use Rattle.std.specs.Prelude.{◌≡◌, ◌≤◌, min, map, sum, nat_le};
ghost use Rattle.pattern_tree.specs.Trees.{weight, repeat_weight};

use pattern_tree::{Times, Tree};

/// The limit of weight, and one more.
const CAP: u64 = 100_001;

/// How often a repeat counts what it repeats.
fn factor(times: &Times) -> u64
    ensures { result ≡ repeat_weight times.now }
{
    u64::from(times.most.unwrap_or(times.least).max(1))
}

/// The weights together, or 100,001 where they are more.
#[tactic(auto, using(crate::proofs::Weights::weight_laws))]
#[cycle(weigh)]
fn weights(trees: &[Tree]) -> u64
    ensures { result ≡ min (sum (map weight trees.now)) 100001 }
{
    let mut all = 0;
    for tree in trees {
        all = (all + weight(tree)).min(CAP);
    }
    all
}

/// The weight, or 100,001 where it is more. `O(n)` in the size of the tree; its recursion is as deep as the tree.
#[tactic(auto, using(crate::proofs::Weights::weight_laws))]
#[cycle(weigh)]
fn weight(tree: &Tree) -> u64
    ensures { result ≡ min (weight tree.now) 100001 }
{
    match tree {
        Tree::Set(_) => 1,
        Tree::Sequence(parts) => weights(parts.as_slice()),
        Tree::Choice(sides) => weights(sides.as_slice()),
        Tree::Repeat(part, times) => weight(part.get()).saturating_mul(factor(times)).min(CAP),
    }
}

/// Whether the weight is at most 100,000.
pub(crate) fn is_light(tree: &Tree) -> bool
    ensures { result ≡ nat_le (weight tree.now) 100000 }
{
    weight(tree) < CAP
}
