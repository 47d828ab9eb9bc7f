ghost use Rattle.std.specs.Prelude.{◌≡◌, ◌==◌, ℕ, Some, None, is_some, if◌then◌else◌, OnOk};
ghost use Rattle.std.specs.Option.{option_copied};
ghost use Rattle.ifc_base.specs.Refusals.{OnFault};
ghost use Rattle.audit_model.specs.Edits.{edit_id};
ghost use Rattle.audit_model.specs.Judging.{conflict_of, fault_given};
ghost use Rattle.inverse_index.specs.Log.{last_in};
ghost use Rattle.commit_rules.specs.Overlays.{IsLaid, over, put_at};

use crate::outcome::{Left, outcome};
use audit_model::{Edit, EditFault, Limits, Look};
use ifc_base::{InstId, Instance, Key, Memory, Refusal};
use inverse_index::ChangeLog;
use model_view::id_of;
use schema_table::SchemaTable;
use std::alloc::Global;
use std::collections::BTreeMap;

/// What edits have put at ids of a model: the instance that stands at the id now, or none. Beside it, how many
/// instances there are now.
#[derive(Drop)]
pub(crate) struct Overlay {
    pub(crate) put: BTreeMap<InstId, Option<Instance>>,
    pub(crate) count: u32,
}

impl Overlay {
    /// Nothing is put over a model with so many instances. It takes no memory.
    #[tactic(auto, unfolding(crate::specs::Overlays::put_at))]
    pub(crate) fn new(alloc: Global, count: u32) -> Overlay
        ensures empty { (i : ℕ) → put_at result.put i ≡ None }
        ensures count { result.count ≡ count }
    {
        Overlay {
            put: BTreeMap::new(alloc),
            count,
        }
    }

    /// Whether something was put at the id. `O(log n)` in the number of ids at which something was.
    #[tactic(auto, unfolding(crate::specs::Overlays::put_at))]
    pub(crate) fn has(&self, id: InstId) -> bool
        ensures { result ≡ is_some (put_at self.now.put id) }
    {
        self.put.contains_key(&id)
    }

    /// Puts at the id what an edit leaves there. For want of memory it is as before. `O(log n)` in the number of
    /// ids at which something was put.
    fn put(&mut self, id: InstId, left: Left) -> Result<(), Memory>
        ensures put { OnOk result ((i : ℕ) → put_at self.new.put i ≡ (if id == i then Some left.now else put_at self.old.put i)) }
        ensures count { OnOk result (self.new.count ≡ left.count) }
    {
        let Left { now, count } = left;
        match self.put.insert(id, now) {
            Ok(_old) => {
                self.count = count;
                Ok(())
            }
            Err(_back) => Err(Memory),
        }
    }
}

/// What stands at the id: what was put there, or else what the model has. `O(log n)` in the number of ids at which
/// something was put.
#[tactic(auto, unfolding(crate::specs::Overlays::put_at))]
pub(crate) fn standing<'a, L: Look>(
    look: &'a L,
    overlay: &'a Overlay,
    id: InstId,
) -> Option<&'a Instance>
    ensures { option_copied result ≡ over overlay.now.put (L.seen look.now).instance id }
{
    match overlay.put.get(&id) {
        Some(Some(instance)) => Some(instance),
        Some(None) => None,
        None => look.instance(id),
    }
}

/// The conflict of the edit, if it has one: a commit after the base changed the instance of its id.
fn conflict(changes: &ChangeLog, base: u32, edit: &Edit) -> Option<EditFault>
    ensures { result ≡ conflict_of (last_in changes.now) base edit.now }
{
    let id = id_of(edit);
    let revision = changes.last(Key::Inst(id));
    if revision > base {
        Some(EditFault::Conflict { id, revision })
    } else {
        None
    }
}

/// Judges the edit on the model as it is with what was put over it, and puts over it what the edit leaves. After a
/// refusal the overlay is of no use.
pub(crate) fn lay<L: Look>(
    alloc: Global,
    schema: &SchemaTable,
    limits: Limits,
    changes: &ChangeLog,
    base: u32,
    look: &L,
    overlay: &mut Overlay,
    edit: &Edit,
) -> Result<(), Refusal<EditFault>>
    ensures laid { OnOk result (IsLaid schema.now limits (last_in changes.now) base (L.seen look.now).instance overlay.old edit.now overlay.new) }
    ensures fault { OnFault result (λ fault. fault_given schema.now limits (last_in changes.now) base
        (over overlay.old.put (L.seen look.now).instance (edit_id edit.now)) overlay.old.count edit.now ≡ Some fault) }
{
    if let Some(fault) = conflict(changes, base, edit) {
        return Err(Refusal::Fault(fault));
    }
    let id = id_of(edit);
    let held = standing(look, overlay, id);
    let left = outcome(alloc, schema, limits, held, overlay.count, edit)?;
    match overlay.put(id, left) {
        Ok(()) => Ok(()),
        Err(_) => Err(Refusal::Memory),
    }
}
