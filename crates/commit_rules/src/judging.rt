ghost use Rattle.std.specs.Prelude.{◌≡◌, ◌<◌, None, Some, length, IfOk, OnOk};
ghost use Rattle.ifc_base.specs.Refusals.{OnFault};
ghost use Rattle.audit_model.specs.Models.{IsModel};
ghost use Rattle.audit_model.specs.Judging.{judge, judge_from};
ghost use Rattle.inverse_index.specs.Log.{last_in};
ghost use Rattle.model_view.specs.Views.{AreAccepted};
ghost use Rattle.commit_rules.specs.Overlays.{Shows};

use crate::missing::dangling;
use crate::overlay::{Overlay, lay};
use audit_model::{CommitRefusal, Edit, Edits, Limits, Look};
use ifc_base::Refusal;
use inverse_index::ChangeLog;
use schema_table::SchemaTable;
use std::alloc::Global;

/// Judges the edits in turn, each on the model with those before it done: what they make of it, or the refusal of
/// the first that can't be done.
fn judge_edits<L: Look>(
    alloc: Global,
    schema: &SchemaTable,
    look: &L,
    count: u32,
    changes: &ChangeLog,
    base: u32,
    edits: &[Edit],
    limits: Limits,
) -> Result<Overlay, Refusal<CommitRefusal>>
    requires model { IsModel (L.model look.now) }
    requires count { count ≡ length (L.model look.now) }
    ensures accepted { OnOk result (judge_from schema.now limits (last_in changes.now) base 1 (L.model look.now) edits.now ≡ None) }
    ensures shows { IfOk result (λ overlay. Shows schema.now (L.model look.now) (L.seen look.now).instance edits.now overlay) }
    ensures refused { OnFault result (λ why. judge_from schema.now limits (last_in changes.now) base 1 (L.model look.now) edits.now ≡ Some why) }
{
    let mut overlay = Overlay::new(alloc, count);
    let mut number: u32 = 0;
    for edit in edits {
        number = number.saturating_add(1);
        match lay(
            alloc,
            schema,
            limits,
            changes,
            base,
            look,
            &mut overlay,
            edit,
        ) {
            Ok(()) => {}
            Err(Refusal::Fault(fault)) => {
                return Err(Refusal::Fault(CommitRefusal::Edit { number, fault }));
            }
            Err(Refusal::Memory) => return Err(Refusal::Memory),
        }
    }
    Ok(overlay)
}

/// Whether a commit of these edits, drafted on the revision `base`, is accepted on the model that is looked at,
/// which has `count` instances, ascending by id; or the first reason why not. `revision` is that of the model, and
/// `changes` has the last revision that changed each key.
///
/// The reasons, in their order: the revision is the last that the limits allow; then edit by edit, on the model with
/// the edits before it done, a commit after the base changed the instance (a conflict), the id to add is taken or
/// there is no instance to set or remove, its entity has no such attribute, the added or changed instance doesn't fit
/// the schema (ISO 10303-21, mapping of simple entity instances), there are too many instances; and at the end an
/// instance holds a reference to a missing one, which it did not before. A commit without edits is accepted. Besides,
/// it may refuse for want of memory. Nothing is changed. Accepted edits can be done on the model in their order.
///
/// For e edits `O(log e)` each, and what their instances take to be copied, checked and read; and for each removed id
/// its holders, up to the first that no edit names.
pub fn judge<L: Look>(
    alloc: Global,
    schema: &SchemaTable,
    look: &L,
    count: u32,
    changes: &ChangeLog,
    revision: u32,
    base: u32,
    edits: &Edits,
    limits: Limits,
) -> Result<(), Refusal<CommitRefusal>>
    requires model { IsModel (L.model look.now) }
    requires count { count ≡ length (L.model look.now) }
    ensures accepted { OnOk result (judge schema.now limits revision (last_in changes.now) base (L.model look.now) edits.now ≡ None) }
    ensures below { OnOk result (revision < limits.revisions) }
    ensures doable { OnOk result (AreAccepted schema.now (L.model look.now) edits.now) }
    ensures refused { OnFault result (λ why. judge schema.now limits revision (last_in changes.now) base (L.model look.now) edits.now ≡ Some why) }
{
    if revision >= limits.revisions {
        return Err(Refusal::Fault(CommitRefusal::RevisionsFull));
    }
    let edits = edits.as_slice();
    let overlay = match judge_edits(alloc, schema, look, count, changes, base, edits, limits) {
        Ok(overlay) => overlay,
        Err(refusal) => return Err(refusal),
    };
    match dangling(alloc, schema, look, &overlay, edits)? {
        Some(refusal) => Err(Refusal::Fault(refusal)),
        None => Ok(()),
    }
}
