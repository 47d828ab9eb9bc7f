ghost use Rattle.std.specs.Prelude.{◌≡◌, None, length, IfOk, OnOk, OnErr};
ghost use Rattle.std.specs.Option.{option_copied};
ghost use Rattle.audit_model.specs.Models.{IsModel, instance_at};
ghost use Rattle.audit_model.specs.Edits.{apply, edited};
ghost use Rattle.audit_model.specs.Judging.{id_fault_of};
ghost use Rattle.audit_model.specs.Keys.{holders};
ghost use Rattle.inverse_index.specs.Index.{Indexes};
ghost use Rattle.model_view.specs.Views.{AreAccepted};

use crate::indexed::Indexed;
use audit_model::Edit;
use ifc_base::{InstId, Instance, Memory};
use schema_table::SchemaTable;
use std::alloc::Global;
use std::marker::Model;

/// A model while edits are done on it, one after another. It shares all that no edit changed with the snapshot
/// that it was made of, and that one stays as it was. Contracts see the model and its lists.
#[derive(Drop)]
pub struct Editing {
    content: Indexed,
}

impl Model for Editing {
    ghost use Rattle.model_view.specs.Views.{ModelView};
    ghost use Rattle.std.specs.Coded.{codes, coded_ℕ, coded_list};
    ghost use Rattle.std.specs.FinMap as map;
    ghost use Rattle.std.specs.Ordering.{nat_cmp};
    ghost use Rattle.ifc_base.specs.contracts.value.Value as value;

    ghost Value = { ModelView };

    ghost coded = { Prim.hlevel (codes, value.the_row.coded, map.code {R = nat_cmp} coded_ℕ (coded_list coded_ℕ)) };

    ghost view = { λ editing. editing.content };
}

impl Editing {
    /// The model, to be edited. `O(1)`.
    pub(crate) fn of(content: &Indexed) -> Result<Editing, Memory>
        ensures { IfOk result (λ editing. editing ≡ content.now) }
    {
        let content = content.share()?;
        Ok(Editing { content })
    }

    /// The instance with this id, if there is one. `O(1)`.
    pub fn instance(&self, id: InstId) -> Option<&Instance>
        ensures { option_copied result ≡ instance_at id self.now.model }
    {
        self.content.instance(id)
    }

    /// The ids of the instances that hold a reference to this id anywhere, ascending. `O(1)`.
    pub fn holders(&self, id: InstId) -> &[InstId]
        ensures { result.now ≡ holders self.now.model id }
    {
        self.content.holders(id)
    }

    /// How many instances there are. `O(1)`.
    pub fn len(&self) -> usize
        ensures { result ≡ length self.now.model }
    {
        self.content.len()
    }

    /// Does an edit whose id is no fault: the id to add is new, or an instance of the id to set or remove is
    /// there. For want of memory it does nothing.
    ///
    /// `O(n log n)` in the size of the instance, and besides 4 bytes for each id of each list that it comes to
    /// or goes from: the holders of an id, or its referrers by a role.
    pub fn edit(&mut self, alloc: Global, schema: &SchemaTable, edit: &Edit) -> Result<(), Memory>
        requires { id_fault_of self.old.model edit.now ≡ None }
        ensures model { OnOk result (self.new.model ≡ edited schema.now self.old.model edit.now) }
        ensures index { Indexes schema.now self.old.model self.old.lists → Indexes schema.now self.new.model self.new.lists }
        ensures kept { OnErr result (self.new ≡ self.old) }
    {
        let next = self.content.with_edit(alloc, schema, edit)?;
        self.content = next;
        Ok(())
    }

    /// The model as it is now. `O(1)`.
    pub(crate) fn content(&self) -> &Indexed
        ensures { result.now ≡ self.now }
    {
        &self.content
    }

    /// The model as it is now. It takes no memory.
    pub(crate) fn into_content(self) -> Indexed
        ensures { result ≡ self }
    {
        let Editing { content } = self;
        content
    }
}

/// The model with the edits done in turn, which have to be accepted.
pub(crate) fn with_all(
    content: &Indexed,
    alloc: Global,
    schema: &SchemaTable,
    edits: &[Edit],
) -> Result<Indexed, Memory>
    requires { AreAccepted schema.now content.now.model edits.now }
    ensures model { IfOk result (λ next. next.model ≡ apply schema.now content.now.model edits.now) }
    ensures index { IfOk result (λ next. Indexes schema.now content.now.model content.now.lists → Indexes schema.now next.model next.lists) }
{
    let mut editing = Editing::of(content)?;
    for edit in edits {
        editing.edit(alloc, schema, edit)?;
    }
    Ok(editing.into_content())
}
