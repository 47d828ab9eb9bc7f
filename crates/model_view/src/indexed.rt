ghost use Rattle.std.specs.Prelude.{◌≡◌, ℕ, ◌^◌, Some, None, length, map, IfOk};
ghost use Rattle.std.specs.Option.{option_copied};
ghost use Rattle.tree_map.specs.Pairs.{IsAscending, AreBelow};
ghost use Rattle.ifc_base.specs.declared.key.Key.{Key};
ghost use Rattle.ifc_base.specs.declared.value.Instance.{Instance};
ghost use Rattle.audit_model.specs.Models.{IsModel, instance_at, is_present};
ghost use Rattle.audit_model.specs.Edits.{edited};
ghost use Rattle.audit_model.specs.Judging.{id_fault_of};
ghost use Rattle.audit_model.specs.Keys.{holders};
ghost use Rattle.inverse_index.specs.Index.{ids_at, replaced, Indexes};
ghost use Rattle.model_view.specs.Trees.{beside_ids, model_of, IsById};

use crate::attribute::with_attribute;
use audit_model::Edit;
use ifc_base::{InstId, Instance, Instances, Memory, Role};
use inverse_index::InverseIndex;
use schema_table::SchemaTable;
use std::alloc::Global;
use std::marker::Model;
use tree_map::{TreeMap, Walk};

/// A model with its index: its instances by their ids, and the lists of holders and referrers. A change
/// makes a new one, which shares all but the paths to what was changed, and leaves this one as it was.
#[derive(Drop)]
pub(crate) struct Indexed {
    instances: TreeMap<Instance>,
    index: InverseIndex,
}

impl Model for Indexed {
    ghost use Rattle.model_view.specs.Views.{ModelView};
    ghost use Rattle.model_view.specs.Trees.{model_of, IsWhole};
    ghost use Rattle.std.specs.Coded.{codes, coded_ℕ, coded_list};
    ghost use Rattle.std.specs.FinMap as map;
    ghost use Rattle.std.specs.Ordering.{nat_cmp};
    ghost use Rattle.ifc_base.specs.contracts.value.Value as value;

    ghost Value = { ModelView };

    ghost coded = { Prim.hlevel (codes, value.the_row.coded, map.code {R = nat_cmp} coded_ℕ (coded_list coded_ℕ)) };

    ghost view = { λ m. record { model = model_of m.instances; lists = m.index } };

    ghost invariant = { λ m. IsWhole m.instances m.index };
}

/// The instances beside their ids.
fn beside_ids(alloc: Global, instances: Instances) -> Result<Vec<(u64, Instance)>, Memory>
    ensures value { IfOk result (λ pairs. pairs.items ≡ beside_ids instances) }
    ensures keys { IfOk result (λ pairs. AreBelow (2 ^ 40) pairs.items) }
{
    let items = instances.into_vec();
    let mut pairs = Vec::with_capacity(alloc, items.len())?;
    for instance in items {
        pairs.push((instance.id.get() as u64, instance))?;
    }
    Ok(pairs)
}

/// The tree of these instances, which have to ascend by id. `O(n)`.
fn tree_of(alloc: Global, instances: Instances) -> Result<TreeMap<Instance>, Memory>
    requires { IsModel instances }
    ensures by_id { IfOk result (λ tree. IsById tree) }
    ensures model { IfOk result (λ tree. model_of tree ≡ instances) }
{
    let pairs = beside_ids(alloc, instances)?;
    let tree = TreeMap::of_ascending(alloc, pairs)?;
    Ok(tree)
}

impl Indexed {
    /// The model of these instances, which have to ascend by id. `O(n log n)` in their size.
    pub(crate) fn of(
        alloc: Global,
        schema: &SchemaTable,
        instances: Instances,
    ) -> Result<Indexed, Memory>
        requires { IsModel instances }
        ensures model { IfOk result (λ made. made.model ≡ instances) }
        ensures index { IfOk result (λ made. Indexes schema.now made.model made.lists) }
    {
        let index = InverseIndex::of(alloc, schema, instances.as_slice())?;
        let tree = tree_of(alloc, instances)?;
        Ok(Indexed {
            instances: tree,
            index,
        })
    }

    /// The instance with this id, if there is one. `O(1)`.
    pub(crate) fn instance(&self, id: InstId) -> Option<&Instance>
        ensures { option_copied result ≡ instance_at id self.now.model }
    {
        self.instances.get(id.get() as u64)
    }

    /// Whether there is an instance with this id. `O(1)`.
    pub(crate) fn is_there(&self, id: InstId) -> bool
        ensures { result ≡ is_present id self.now.model }
    {
        self.instance(id).is_some()
    }

    /// The ids of the instances that refer to this id by the role, ascending. `O(1)`.
    pub(crate) fn referrers(&self, id: InstId, role: Role) -> &[InstId]
        ensures { result.now ≡ ids_at self.now.lists (Key.Refs id role) }
    {
        self.index.referrers(id, role)
    }

    /// The ids of the instances that hold a reference to this id, ascending. `O(1)`.
    pub(crate) fn holders(&self, id: InstId) -> &[InstId]
        ensures { result.now ≡ holders self.now.model id }
    {
        let _ = &self.instances;
        self.index.holders(id)
    }

    /// How many instances there are. `O(1)`.
    pub(crate) fn len(&self) -> usize
        ensures { result ≡ length self.now.model }
    {
        self.instances.len()
    }

    /// The instances with their ids, in ascending id. It takes 16 bytes for each, and copies none: `O(n)`.
    pub(crate) fn walk(&self, alloc: Global) -> Result<Walk<'_, Instance>, Memory>
        ensures { IfOk result (λ walk. map (λ (e : ℕ × Instance). e.1) walk ≡ self.now.model) }
    {
        let walk = self.instances.walk(alloc)?;
        Ok(walk)
    }

    /// An equal model over the same memory. `O(1)`.
    pub(crate) fn share(&self) -> Result<Indexed, Memory>
        ensures { IfOk result (λ same. same ≡ self.now) }
    {
        let instances = self.instances.share()?;
        let index = self.index.share()?;
        Ok(Indexed { instances, index })
    }

    /// The model with this instance in the place of the one of its id, if there is one.
    fn put(&self, alloc: Global, schema: &SchemaTable, x: Instance) -> Result<Indexed, Memory>
        ensures model { IfOk result (λ next. next.model ≡ replaced x.id (Some x) self.now.model) }
        ensures index { IfOk result (λ next. Indexes schema.now self.now.model self.now.lists → Indexes schema.now next.model next.lists) }
    {
        let id = x.id;
        let index = self
            .index
            .with_change(alloc, schema, self.instance(id), Some(&x))?;
        match self.instances.with(alloc, id.get() as u64, x) {
            Ok(instances) => Ok(Indexed { instances, index }),
            Err(_) => Err(Memory),
        }
    }

    /// The model without the instance of this id.
    fn cut(&self, alloc: Global, schema: &SchemaTable, id: InstId) -> Result<Indexed, Memory>
        ensures model { IfOk result (λ next. next.model ≡ replaced id None self.now.model) }
        ensures index { IfOk result (λ next. Indexes schema.now self.now.model self.now.lists → Indexes schema.now next.model next.lists) }
    {
        let Some(x) = self.instance(id) else {
            let same = self.share()?;
            return Ok(same);
        };
        let index = self.index.with_change(alloc, schema, Some(x), None)?;
        let instances = self.instances.without(alloc, id.get() as u64)?;
        Ok(Indexed { instances, index })
    }

    /// The model with the edit done, whose id has to be no fault. It copies the added or the changed instance,
    /// the paths to it and to the lists that change, and these lists: `O(n log n)` in the size of the
    /// instance, and in the length of those lists.
    pub(crate) fn with_edit(
        &self,
        alloc: Global,
        schema: &SchemaTable,
        edit: &Edit,
    ) -> Result<Indexed, Memory>
        requires { id_fault_of self.now.model edit.now ≡ None }
        ensures model { IfOk result (λ next. next.model ≡ edited schema.now self.now.model edit.now) }
        ensures index { IfOk result (λ next. Indexes schema.now self.now.model self.now.lists → Indexes schema.now next.model next.lists) }
    {
        self.ascends();
        match edit {
            Edit::Add(x) => {
                let copy = x.copy(alloc)?;
                let next = self.put(alloc, schema, copy)?;
                Ok(next)
            }
            Edit::Set { id, attr, value } => {
                let Some(x) = self.instance(*id) else {
                    let same = self.share()?;
                    return Ok(same);
                };
                let changed = with_attribute(alloc, schema, x, attr, value)?;
                let next = self.put(alloc, schema, changed)?;
                Ok(next)
            }
            Edit::Remove(id) => {
                let next = self.cut(alloc, schema, *id)?;
                Ok(next)
            }
        }
    }

    /// The ids ascend.
    pub(crate) fn ascends(&self)
        ensures { IsModel self.now.model }
    {
        let _ = &self.instances;
    }
}
