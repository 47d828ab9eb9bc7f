ghost use Rattle.std.specs.Prelude.{◌≡◌, ◌+◌, ◌^◌, ◌<◌, ◌≤◌, ◌++◌, Some, None, map, IfOk, OnOk, MatchResult};
ghost use Rattle.std.specs.Option.{option_copied};
ghost use Rattle.std.specs.Ordering.{nat_cmp};
ghost use Rattle.std.specs.FinMap.{find};
ghost use Rattle.std.specs.Arc.{arc_value};
ghost use Rattle.tree_map.specs.Pairs.{raised, AreBelow, IsAscending, Updates};
ghost use Rattle.tree_map.specs.Roots.{pairs_in, IsWholeRoot, seen};

use crate::level::put_below;
use crate::tier::Tier;
use ifc_base::Memory;
use std::alloc::Global;
use std::sync::Arc;

/// The topmost node of a map, if it had a pair once.
pub(crate) type Root<B> = Option<Arc<B, Global>>;

/// A node that no other map has, with the pairs of the root.
fn fresh_root<V, B: Tier<V>>(root: &Root<B>, alloc: Global) -> Result<Arc<B, Global>, Memory>
    requires { IsWholeRoot B.IsWhole root.now }
    ensures whole { IfOk result (λ fresh. B.IsWhole (arc_value fresh)) }
    ensures same { IfOk result (λ fresh. B.pairs (arc_value fresh) ≡ pairs_in B.pairs root.now) }
{
    let fresh = match root {
        Some(root) => root.share(alloc)?,
        None => B::empty(alloc),
    };
    Ok(Arc::new(alloc, fresh)?)
}

/// The value of the key.
pub(crate) fn get_root<V, B: Tier<V>>(root: &Root<B>, bits: u32, key: u64) -> Option<&V>
    requires whole { IsWholeRoot B.IsWhole root.now }
    requires bits { (bits ≡ B.width) × (bits ≤ 40) }
    requires key { key < 2 ^ bits }
    ensures { option_copied result ≡ find nat_cmp key (pairs_in B.pairs root.now) }
{
    match root {
        Some(root) => root.get(bits, key),
        None => None,
    }
}

/// The root with this value at the key. At `Err` the value comes back.
pub(crate) fn with_root<V, B: Tier<V>>(
    root: &Root<B>,
    alloc: Global,
    bits: u32,
    key: u64,
    value: V,
) -> Result<Arc<B, Global>, (Memory, V)>
    requires whole { IsWholeRoot B.IsWhole root.now }
    requires bits { (bits ≡ B.width) × (bits ≤ 40) }
    requires key { key < 2 ^ bits }
    ensures whole { IfOk result (λ next. B.IsWhole (arc_value next)) }
    ensures pairs { MatchResult result
        (λ next. Updates key (Some value) (pairs_in B.pairs root.now) (B.pairs (arc_value next)))
        (λ back. back.1 ≡ value) }
{
    match fresh_root(root, alloc) {
        Ok(mut fresh) => {
            put_below(&mut fresh, alloc, bits, key, value)?;
            Ok(fresh)
        }
        Err(_) => Err((Memory, value)),
    }
}

/// The root without the pair of the key.
pub(crate) fn without_root<V, B: Tier<V>>(
    root: &Root<B>,
    alloc: Global,
    bits: u32,
    key: u64,
) -> Result<Root<B>, Memory>
    requires whole { IsWholeRoot B.IsWhole root.now }
    requires bits { (bits ≡ B.width) × (bits ≤ 40) }
    requires key { key < 2 ^ bits }
    ensures whole { IfOk result (IsWholeRoot B.IsWhole) }
    ensures pairs { IfOk result (λ left. Updates key None (pairs_in B.pairs root.now) (pairs_in B.pairs left)) }
{
    let Some(root) = root else {
        return Ok(None);
    };
    let left = root.without(alloc, bits, key)?;
    if left.is_empty() {
        return Ok(None);
    }
    Ok(Some(Arc::new(alloc, left)?))
}

/// The same root, once more.
pub(crate) fn share_root<V, B: Tier<V>>(root: &Root<B>) -> Result<Root<B>, Memory>
    requires { IsWholeRoot B.IsWhole root.now }
    ensures whole { IfOk result (IsWholeRoot B.IsWhole) }
    ensures same { IfOk result (λ same. pairs_in B.pairs same ≡ pairs_in B.pairs root.now) }
{
    let Some(root) = root else {
        return Ok(None);
    };
    Ok(Some(Arc::try_clone(root)?))
}

/// The root over these pairs, whose keys rise and have no more bits than those of a node.
pub(crate) fn built_root<V, B: Tier<V>>(
    alloc: Global,
    items: Vec<(u64, V)>,
) -> Result<Root<B>, Memory>
    requires ascending { IsAscending items.items }
    requires keys { AreBelow (2 ^ B.width) items.items }
    ensures whole { IfOk result (IsWholeRoot B.IsWhole) }
    ensures pairs { IfOk result (λ root. pairs_in B.pairs root ≡ items.items) }
{
    let mut nodes = B::build(alloc, items)?;
    let Some((_, top)) = nodes.pop() else {
        return Ok(None);
    };
    Ok(Some(Arc::new(alloc, top)?))
}

/// The pairs, in ascending key.
pub(crate) fn list_root<V, B: Tier<V>>(
    root: &Root<B>,
    alloc: Global,
    bits: u32,
) -> Result<Vec<(u64, &V)>, Memory>
    requires whole { IsWholeRoot B.IsWhole root.now }
    requires bits { (bits ≡ B.width) × (bits ≤ 40) }
    ensures { IfOk result (λ pairs. map seen pairs.items ≡ pairs_in B.pairs root.now) }
{
    let mut pairs = Vec::new(alloc);
    let Some(root) = root else {
        return Ok(pairs);
    };
    root.list(bits, 0, &mut pairs)?;
    Ok(pairs)
}
