ghost use Rattle.std.specs.Prelude.{◌≡◌, [], if◌then◌else◌, IfOk};
ghost use Rattle.std.specs.Option.{option_copied};
ghost use Rattle.ifc_base.specs.declared.key.Key.{Key};
ghost use Rattle.ifc_base.specs.KeyOrder.{key_eq};
ghost use Rattle.inverse_index.specs.Index.{change_id, has_key, id_if_any, ids_at, Follows, Indexes, ListsHolders, Reindexes, RelistsHolders};
ghost use Rattle.inverse_index.specs.Changed.{AreChanged, KeysAscend};
ghost use Rattle.inverse_index.specs.Lists.{with_id, without_id};

use crate::changed::push_changed;
use crate::difference::{Change, ascending_keys, change_of};
use crate::gather::lists_of;
use crate::ids::{with_id, without_id};
use crate::numbers::key_number;
use crate::standing::listed_keys;
use ifc_base::{InstId, Instance, Key, Keys, Listed, Memory, Role};
use schema_table::SchemaTable;
use std::alloc::Global;
use std::marker::Model;
use tree_map::TreeMap;

/// Ascending ids under the numbers of keys; none stands under a key that has none.
pub(crate) type Lists = TreeMap<Listed<InstId>>;

/// The ids under the key.
fn ids_in(lists: &Lists, key: Key) -> &[InstId]
    ensures { result.now ≡ ids_at lists.now key }
{
    match lists.get(key_number(key)) {
        Some(ids) => ids.as_slice(),
        None => &[],
    }
}

/// The tree with these ids under the key.
pub(crate) fn put_ids(
    lists: &Lists,
    alloc: Global,
    key: Key,
    ids: Listed<InstId>,
) -> Result<Lists, Memory>
    ensures { IfOk result (λ next. (k : Key) → ids_at next k ≡ (if key_eq key k then ids else ids_at lists.now k)) }
{
    if ids.as_slice().is_empty() {
        let next = lists.without(alloc, key_number(key))?;
        return Ok(next);
    }
    match lists.with(alloc, key_number(key), ids) {
        Ok(next) => Ok(next),
        Err(_) => Err(Memory),
    }
}

/// The tree without n under each of the keys.
fn take_from(lists: &Lists, alloc: Global, n: InstId, keys: &[Key]) -> Result<Lists, Memory>
    ensures { IfOk result (λ next. (k : Key) → ids_at next k ≡ (if has_key keys.now k then without_id n (ids_at lists.now k) else ids_at lists.now k)) }
{
    let mut next = lists.share()?;
    for key in keys {
        let ids = without_id(alloc, ids_in(lists, *key), n)?;
        next = put_ids(&next, alloc, *key, ids)?;
    }
    Ok(next)
}

/// The tree with n under each of the keys.
fn add_to(lists: &Lists, alloc: Global, n: InstId, keys: &[Key]) -> Result<Lists, Memory>
    ensures { IfOk result (λ next. (k : Key) → ids_at next k ≡ (if has_key keys.now k then with_id n (ids_at lists.now k) else ids_at lists.now k)) }
{
    let mut next = lists.share()?;
    for key in keys {
        let ids = with_id(alloc, ids_in(lists, *key), n)?;
        next = put_ids(&next, alloc, *key, ids)?;
    }
    Ok(next)
}

/// The id of the instance that comes, or of the one that goes where none comes; none where there is neither.
fn id_of_change(old: Option<&Instance>, new: Option<&Instance>) -> Option<InstId>
    ensures { result ≡ id_if_any (option_copied old.entry) (option_copied new.entry) }
{
    match (old, new) {
        (_, Some(after)) => Some(after.id),
        (Some(before), None) => Some(before.id),
        (None, None) => None,
    }
}

/// The index of a model under a schema. A change makes a new one and leaves this one as it was. Contracts see
/// the lists of ids under the numbers of keys: under the key of an id itself those that hold a reference to
/// the id, and under a key of referrers those.
#[derive(Drop)]
pub struct InverseIndex {
    lists: TreeMap<Listed<InstId>>,
}

impl Model for InverseIndex {
    ghost use Rattle.std.specs.Prelude.{ℕ, List};
    ghost use Rattle.std.specs.Ordering.{nat_cmp};
    ghost use Rattle.std.specs.FinMap as map;
    ghost use Rattle.std.specs.Coded.{coded_ℕ, coded_list};

    ghost Value = { map.FinMap nat_cmp (List ℕ) };

    ghost coded = { map.code coded_ℕ (coded_list coded_ℕ) };

    ghost view = { λ index. index.lists };
}

impl InverseIndex {
    /// The index of these instances under the schema, its lists in their order. Of a model, whose ids ascend,
    /// it is the index with ascending lists. `O(n log n)` in the size of the instances, and for the while it
    /// takes the lists a second time.
    pub fn of(
        alloc: Global,
        schema: &SchemaTable,
        instances: &[Instance],
    ) -> Result<InverseIndex, Memory>
        ensures referrers { IfOk result (λ index. Indexes schema.now instances.now index) }
        ensures holders { IfOk result (λ index. ListsHolders instances.now index) }
    {
        let lists = lists_of(alloc, schema, instances)?;
        Ok(InverseIndex { lists })
    }

    /// The ids of the instances that refer to this id by the role, ascending; there need be no instance of
    /// this id. `O(1)`.
    pub fn referrers(&self, id: InstId, role: Role) -> &[InstId]
        ensures { result.now ≡ ids_at self.now (Key.Refs id role) }
    {
        ids_in(&self.lists, Key::Refs(id, role))
    }

    /// The ids of the instances that hold a reference to this id anywhere within their parameters, ascending;
    /// there need be no instance of this id. `O(1)`.
    pub fn holders(&self, id: InstId) -> &[InstId]
        ensures { result.now ≡ ids_at self.now (Key.Inst id) }
    {
        ids_in(&self.lists, Key::Inst(id))
    }

    /// An equal index over the same memory. `O(1)`.
    pub fn share(&self) -> Result<InverseIndex, Memory>
        ensures { IfOk result (λ same. same ≡ self.now) }
    {
        let lists = self.lists.share()?;
        Ok(InverseIndex { lists })
    }

    /// The index after the instance `new` took the place of `old`, of the same id: `new` comes where there was
    /// no `old`, and `old` goes where there is no `new`. This index stays as it was.
    ///
    /// It copies the lists of those keys in which one of the two stands and the other doesn't, and no other:
    /// `O(n log n)` in the size of the two, and besides 4 bytes for each id of each of these lists. A list of
    /// referrers is short as a rule, but all that share an owner history hold a reference to it.
    pub fn with_change(
        &self,
        alloc: Global,
        schema: &SchemaTable,
        old: Option<&Instance>,
        new: Option<&Instance>,
    ) -> Result<InverseIndex, Memory>
        ensures lists { IfOk result (λ next. Follows schema.now (change_id (option_copied old.entry) (option_copied new.entry))
            (option_copied old.entry) (option_copied new.entry) self.now next) }
        ensures referrers { IfOk result (λ next. Reindexes schema.now (change_id (option_copied old.entry) (option_copied new.entry))
            (option_copied old.entry) (option_copied new.entry) self.now next) }
        ensures holders { IfOk result (λ next. RelistsHolders (change_id (option_copied old.entry) (option_copied new.entry))
            (option_copied old.entry) (option_copied new.entry) self.now next) }
    {
        let Some(n) = id_of_change(old, new) else {
            let same = self.share()?;
            return Ok(same);
        };
        let olds = listed_keys(alloc, schema, old)?;
        let news = listed_keys(alloc, schema, new)?;
        let Change { gone, come } = change_of(alloc, olds.as_slice(), news.as_slice())?;
        let left = take_from(&self.lists, alloc, n, gone.as_slice())?;
        let lists = add_to(&left, alloc, n, come.as_slice())?;
        Ok(InverseIndex { lists })
    }

    /// The keys that change where the instance `new` takes the place of `old` in the model, as in
    /// `with_change`: those whose contents differ, ascending and each once. `O(n log n)` in the size of the
    /// two.
    pub fn changed_keys(
        &self,
        alloc: Global,
        schema: &SchemaTable,
        old: Option<&Instance>,
        new: Option<&Instance>,
    ) -> Result<Keys, Memory>
        ensures changed { IfOk result (λ keys. AreChanged schema.now (change_id (option_copied old.entry) (option_copied new.entry))
            (option_copied old.entry) (option_copied new.entry) keys) }
        ensures ascending { IfOk result (λ keys. KeysAscend keys) }
    {
        let mut keys = Vec::new(alloc);
        let Some(n) = id_of_change(old, new) else {
            return Ok(Keys::from_vec(keys));
        };
        push_changed(alloc, schema, n, old, new, &mut keys)?;
        let keys = ascending_keys(alloc, keys.as_slice())?;
        Ok(keys)
    }
}
