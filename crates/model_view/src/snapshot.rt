ghost use Rattle.std.specs.Prelude.{◌≡◌, ℕ, ◌+◌, ◌<◌, length, map, IfOk};
ghost use Rattle.std.specs.Option.{option_copied};
ghost use Rattle.ifc_base.specs.declared.key.Key.{Key};
ghost use Rattle.ifc_base.specs.declared.value.Instance.{Instance};
ghost use Rattle.audit_model.specs.Models.{IsModel, model_of_file};
ghost use Rattle.ifc_base.specs.Ids.{HasDistinctIds};
ghost use Rattle.audit_model.specs.Edits.{apply};
ghost use Rattle.audit_model.specs.Keys.{changes, holders};
ghost use Rattle.inverse_index.specs.Index.{has_key, Indexes};
ghost use Rattle.inverse_index.specs.Changed.{KeysAscend};
ghost use Rattle.model_view.specs.Views.{AreAccepted, IsSnapshotOf, seen_in, ShowsItsModel};

use crate::changes::changed_keys;
use crate::editing::{Editing, with_all};
use crate::indexed::Indexed;
use audit_model::{Edits, in_order};
use ifc_base::{InstId, Instance, Instances, Keys, Memory, Role};
use schema_table::SchemaTable;
use std::alloc::Global;
use std::marker::Model;
use tree_map::Walk;

/// The model of a revision, and its index. Snapshots of revisions share all but what the commits between them
/// changed. Contracts see the model, the lists of the index and the revision.
#[derive(Drop)]
pub struct Snapshot {
    content: Indexed,
    revision: u32,
}

impl Model for Snapshot {
    ghost use Rattle.model_view.specs.Views.{SnapshotView};
    ghost use Rattle.std.specs.Ordering.{nat_cmp};
    ghost use Rattle.std.specs.Coded.{codes, coded_ℕ, coded_list};
    ghost use Rattle.std.specs.FinMap as map;
    ghost use Rattle.ifc_base.specs.contracts.value.Value as value;

    ghost Value = { SnapshotView };

    ghost coded = { Prim.hlevel (codes, value.the_row.coded, map.code {R = nat_cmp} coded_ℕ (coded_list coded_ℕ)) };

    ghost view = { λ s. record { model = s.content.model; lists = s.content.lists; revision = s.revision } };
}

impl Snapshot {
    /// The snapshot of revision 0: the model of a file with these instances, whose ids are distinct, and its
    /// index under the schema. `O(n log n)` in the size of the instances.
    pub fn first(
        alloc: Global,
        schema: &SchemaTable,
        instances: Instances,
    ) -> Result<Snapshot, Memory>
        requires { HasDistinctIds instances }
        ensures { IfOk result (λ first. IsSnapshotOf schema.now (model_of_file instances) 0 first) }
    {
        let model = in_order(instances)?;
        let content = Indexed::of(alloc, schema, model)?;
        Ok(Snapshot {
            content,
            revision: 0,
        })
    }

    /// The instance with this id, if there is one. `O(1)`.
    pub fn instance(&self, id: InstId) -> Option<&Instance>
        ensures { option_copied result ≡ (seen_in self.now).instance id }
    {
        self.content.instance(id)
    }

    /// The ids of the instances that refer to this id by the role, ascending; there need be no instance of this
    /// id. `O(1)`.
    pub fn referrers(&self, id: InstId, role: Role) -> &[InstId]
        ensures { result.now ≡ (seen_in self.now).referrers id role }
    {
        self.content.referrers(id, role)
    }

    /// The ids of the instances that hold a reference to this id anywhere within their parameters, ascending;
    /// there need be no instance of this id. `O(1)`.
    pub fn holders(&self, id: InstId) -> &[InstId]
        ensures { result.now ≡ holders self.now.model id }
    {
        self.content.holders(id)
    }

    /// The revision, from 0.
    pub fn revision(&self) -> u32
        ensures { result ≡ self.now.revision }
    {
        self.revision
    }

    /// How many instances there are. `O(1)`.
    pub fn len(&self) -> usize
        ensures { result ≡ length self.now.model }
    {
        self.content.len()
    }

    /// The instances with their ids, in ascending id. It takes 16 bytes for each, and copies none: `O(n)`.
    pub fn walk(&self, alloc: Global) -> Result<Walk<'_, Instance>, Memory>
        ensures { IfOk result (λ walk. map (λ (e : ℕ × Instance). e.1) walk ≡ self.now.model) }
    {
        self.content.walk(alloc)
    }

    /// The ids ascend.
    pub fn ascends(&self)
        ensures { IsModel self.now.model }
    {
        self.content.ascends();
    }

    /// An equal snapshot over the same memory. `O(1)`.
    pub fn share(&self) -> Result<Snapshot, Memory>
        ensures { IfOk result (λ same. same ≡ self.now) }
    {
        let content = self.content.share()?;
        Ok(Snapshot {
            content,
            revision: self.revision,
        })
    }

    /// The model, to do edits on with look-ups between them. This snapshot stays as it is. `O(1)`.
    pub fn editing(&self) -> Result<Editing, Memory>
        ensures model { IfOk result (λ editing. editing.model ≡ self.now.model) }
        ensures lists { IfOk result (λ editing. editing.lists ≡ self.now.lists) }
    {
        Editing::of(&self.content)
    }

    /// The next revision, and the keys that the edits change as a whole: those whose contents differ, ascending
    /// and each once. An edit that a later one takes back changes nothing. This snapshot stays as it is. The
    /// edits have to be accepted at its model: edit by edit, on the model with the edits before it done, the id
    /// to add is new, an instance of the id to set or remove is there, its entity has the attribute to set, and
    /// what is added or changed fits the schema. Its revision has to be below 4,294,967,295.
    ///
    /// For each edit `O(n log n)` in the size of its instance, and besides 4 bytes for each id of each list that
    /// the instance comes to or goes from.
    pub fn with_edits(
        &self,
        alloc: Global,
        schema: &SchemaTable,
        edits: &Edits,
    ) -> Result<(Snapshot, Keys), Memory>
        requires accepted { AreAccepted schema.now self.now.model edits.now }
        requires below { self.now.revision < 4294967295 }
        ensures model { IfOk result (λ made. made.0.model ≡ apply schema.now self.now.model edits.now) }
        ensures revision { IfOk result (λ made. made.0.revision ≡ self.now.revision + 1) }
        ensures index { IfOk result (λ made. Indexes schema.now self.now.model self.now.lists → Indexes schema.now made.0.model made.0.lists) }
        ensures changed { IfOk result (λ made. (k : Key) → has_key made.1 k ≡ changes schema.now self.now.model made.0.model k) }
        ensures ascending { IfOk result (λ made. KeysAscend made.1) }
    {
        let content = with_all(&self.content, alloc, schema, edits.as_slice())?;
        let keys = changed_keys(alloc, schema, &self.content, &content, edits.as_slice())?;
        let next = Snapshot {
            content,
            revision: self.revision + 1,
        };
        Ok((next, keys))
    }

    /// The model and its index.
    pub(crate) fn content(&self) -> &Indexed
        ensures model { result.now.model ≡ self.now.model }
        ensures lists { result.now.lists ≡ self.now.lists }
    {
        &self.content
    }
}

/// A snapshot whose lists are the index of its model under a schema shows what can be looked at in that model
/// under that schema.
pub fn shows_its_model()
    ensures { ShowsItsModel }
{}
