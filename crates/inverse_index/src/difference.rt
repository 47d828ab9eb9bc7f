ghost use Rattle.std.specs.Prelude.{◌≡◌, ◌&&◌, not, IfOk};
ghost use Rattle.std.specs.BTreeSet.{contains};
ghost use Rattle.ifc_base.specs.declared.key.Key.{Key};
ghost use Rattle.ifc_base.specs.KeyOrder.{key_cmp};
ghost use Rattle.inverse_index.specs.Index.{has_key};
ghost use Rattle.inverse_index.specs.Changed.{KeysAscend};

use ifc_base::{Key, Keys, Memory};
use std::alloc::Global;
use std::collections::BTreeSet;

/// The set of these keys.
fn set_of(alloc: Global, keys: &[Key]) -> Result<BTreeSet<Key>, Memory>
    ensures { IfOk result (λ set. (k : Key) → contains key_cmp set k ≡ has_key keys.now k) }
{
    let mut set = BTreeSet::new(alloc);
    for key in keys {
        set.insert(*key)?;
    }
    Ok(set)
}

/// Those of the keys that are none of the others, each once. `O(n log n)`.
fn difference(alloc: Global, keys: &[Key], others: &[Key]) -> Result<Vec<Key>, Memory>
    ensures { IfOk result (λ left. (k : Key) → has_key left.items k ≡ (has_key keys.now k && not (has_key others.now k))) }
{
    let mut seen = set_of(alloc, others)?;
    let mut left = Vec::new(alloc);
    for key in keys {
        if seen.insert(*key)? {
            left.push(*key)?;
        }
    }
    Ok(left)
}

/// The keys that were there and aren't now, and those that are there now and weren't.
#[derive(Drop)]
pub(crate) struct Change {
    pub gone: Vec<Key>,
    pub come: Vec<Key>,
}

/// What the later keys lack of the earlier ones, and what they have beside them. `O(n log n)`.
pub(crate) fn change_of(alloc: Global, olds: &[Key], news: &[Key]) -> Result<Change, Memory>
    ensures gone { IfOk result (λ change. (k : Key) → has_key change.gone.items k ≡ (has_key olds.now k && not (has_key news.now k))) }
    ensures come { IfOk result (λ change. (k : Key) → has_key change.come.items k ≡ (has_key news.now k && not (has_key olds.now k))) }
{
    let gone = difference(alloc, olds, news)?;
    let come = difference(alloc, news, olds)?;
    Ok(Change { gone, come })
}

/// These keys, ascending and each once. `O(n log n)`.
pub fn ascending_keys(alloc: Global, keys: &[Key]) -> Result<Keys, Memory>
    ensures same { IfOk result (λ sorted. (k : Key) → has_key sorted k ≡ has_key keys.now k) }
    ensures ascending { IfOk result (λ sorted. KeysAscend sorted) }
{
    let mut set = set_of(alloc, keys)?;
    let mut sorted = Vec::with_capacity(alloc, set.len())?;
    while let Some(key) = set.pop_first() {
        sorted.push(key)?;
    }
    Ok(Keys::from_vec(sorted))
}
