ghost use Rattle.std.specs.Prelude.{◌≡◌, ◌++◌, [], ◌∷◌, Some, map, filter, if◌then◌else◌, IfOk, OnOk};
ghost use Rattle.ifc_base.specs.declared.value.Instance.{Instance};
ghost use Rattle.ifc_base.specs.declared.key.Key.{Key};
ghost use Rattle.ifc_base.specs.KeyOrder.{key_eq};
ghost use Rattle.inverse_index.specs.Index.{has_key, ids_at, is_listed};
ghost use Rattle.inverse_index.specs.Gathered.{gathered};

use crate::index::{Lists, put_ids};
use crate::standing::listed_keys;
use ifc_base::{InstId, Instance, Key, Listed, Memory};
use schema_table::SchemaTable;
use std::alloc::Global;
use std::collections::{BTreeMap, BTreeSet};
use tree_map::TreeMap;

/// Lists of ids by keys, which grow at their ends.
type Gathered = BTreeMap<Key, Listed<InstId>>;

/// Takes the key's list out.
fn take_ids(lists: &mut Gathered, alloc: Global, key: Key) -> Listed<InstId>
    ensures ids { result ≡ gathered lists.old key }
    ensures left { (k : Key) → gathered lists.new k ≡ (if key_eq key k then [] else gathered lists.old k) }
{
    match lists.remove(&key) {
        Some(ids) => ids,
        None => Listed::new(alloc),
    }
}

/// The ids with one more at the end.
fn with_end(ids: Listed<InstId>, id: InstId) -> Result<Listed<InstId>, Memory>
    ensures { IfOk result (λ more. more ≡ ids ++ id ∷ []) }
{
    let mut items = ids.into_vec();
    items.push(id)?;
    Ok(Listed::from_vec(items))
}

/// Puts a list in the place of the key's.
fn put_list(lists: &mut Gathered, key: Key, ids: Listed<InstId>) -> Result<(), Memory>
    ensures { OnOk result ((k : Key) → gathered lists.new k ≡ (if key_eq key k then ids else gathered lists.old k)) }
{
    match lists.insert(key, ids) {
        Ok(_old) => Ok(()),
        Err(_back) => Err(Memory),
    }
}

/// Adds the id at the end of the key's list. `O(log n)` in the number of the lists.
fn push_one(lists: &mut Gathered, alloc: Global, key: &Key, id: InstId) -> Result<(), Memory>
    ensures { OnOk result ((k : Key) → gathered lists.new k ≡ (if key_eq key.now k then gathered lists.old key.now ++ id ∷ [] else gathered lists.old k)) }
{
    let ids = take_ids(lists, alloc, *key);
    let more = with_end(ids, id)?;
    put_list(lists, *key, more)?;
    Ok(())
}

/// Adds the id once at the end of the list of each of the keys.
fn push_once(lists: &mut Gathered, alloc: Global, keys: &[Key], id: InstId) -> Result<(), Memory>
    ensures { OnOk result ((k : Key) → gathered lists.new k ≡ (if has_key keys.now k then gathered lists.old k ++ id ∷ [] else gathered lists.old k)) }
{
    let mut seen = BTreeSet::new(alloc);
    for key in keys {
        if seen.insert(*key)? {
            push_one(lists, alloc, key, id)?;
        }
    }
    Ok(())
}

/// The lists of the instances: the ids in the order of the instances, each once in a list. `O(n log n)` in
/// the size of the instances.
fn gather(alloc: Global, schema: &SchemaTable, instances: &[Instance]) -> Result<Gathered, Memory>
    ensures { IfOk result (λ lists. (k : Key) → gathered lists k ≡ map (λ (x : Instance). x.id) (filter (λ x. is_listed schema.now (Some x) k) instances.now)) }
{
    let mut lists = BTreeMap::new(alloc);
    for x in instances {
        let keys = listed_keys(alloc, schema, Some(x))?;
        push_once(&mut lists, alloc, keys.as_slice(), x.id)?;
    }
    Ok(lists)
}

/// The tree of the lists, which it empties as it goes. `O(n)` in their number.
fn tree_of(mut lists: Gathered, alloc: Global) -> Result<Lists, Memory>
    ensures { IfOk result (λ tree. (k : Key) → ids_at tree k ≡ gathered lists k) }
{
    let mut tree = TreeMap::new();
    while let Some((key, ids)) = lists.pop_first() {
        tree = put_ids(&tree, alloc, key, ids)?;
    }
    Ok(tree)
}

/// The tree of the lists of the instances. `O(n log n)` in the size of the instances.
pub(crate) fn lists_of(
    alloc: Global,
    schema: &SchemaTable,
    instances: &[Instance],
) -> Result<Lists, Memory>
    ensures { IfOk result (λ tree. (k : Key) → ids_at tree k ≡ map (λ (x : Instance). x.id) (filter (λ x. is_listed schema.now (Some x) k) instances.now)) }
{
    let lists = gather(alloc, schema, instances)?;
    let tree = tree_of(lists, alloc)?;
    Ok(tree)
}
