ghost use Rattle.std.specs.Prelude.{◌≡◌, ◌++◌, ◌&&◌, ◌||◌, not, OnOk};
ghost use Rattle.std.specs.Option.{option_copied};
ghost use Rattle.ifc_base.specs.declared.key.Key.{Key};
ghost use Rattle.ifc_base.specs.KeyOrder.{key_eq};
ghost use Rattle.audit_model.specs.Keys.{same_place};
ghost use Rattle.inverse_index.specs.Index.{has_key};
ghost use Rattle.inverse_index.specs.Changed.{changed_at};

use crate::difference::{Change, change_of};
use crate::standing::refs_keys;
use ifc_base::{InstId, Instance, Key, Memory};
use schema_table::SchemaTable;
use std::alloc::Global;

/// Whether the two differ.
fn differs(old: Option<&Instance>, new: Option<&Instance>) -> bool
    ensures { result ≡ not (same_place (option_copied old.entry) (option_copied new.entry)) }
{
    match (old, new) {
        (None, None) => false,
        (Some(before), Some(after)) => *before != *after,
        _ => true,
    }
}

/// Adds the keys at the end.
fn push_all(keys: &[Key], out: &mut Vec<Key>) -> Result<(), Memory>
    ensures { OnOk result (out.new.items ≡ out.old.items ++ keys.now) }
{
    for key in keys {
        out.push(*key)?;
    }
    Ok(())
}

/// Adds the key of the id, if it is changed.
fn push_own(n: InstId, changed: bool, out: &mut Vec<Key>) -> Result<(), Memory>
    ensures { OnOk result ((k : Key) → has_key out.new.items k ≡ (has_key out.old.items k || (key_eq (Key.Inst n) k && changed))) }
{
    if changed {
        out.push(Key::Inst(n))?;
    }
    Ok(())
}

/// Adds the keys that change where `new` takes the place of `old` at the id n, which is new where there was
/// none, and removed where there is none now: the key of n, if the two differ, and the key of each id and role
/// by which exactly one of the two refers to the id. A key may come twice, and none is taken out. After a
/// refusal, which is for want of memory, `out` has some of them more. `O(n log n)` in the size of the two.
pub fn push_changed(
    alloc: Global,
    schema: &SchemaTable,
    n: InstId,
    old: Option<&Instance>,
    new: Option<&Instance>,
    out: &mut Vec<Key>,
) -> Result<(), Memory>
    ensures { OnOk result ((k : Key) → has_key out.new.items k ≡ (has_key out.old.items k || changed_at schema.now n (option_copied old.entry) (option_copied new.entry) k)) }
{
    let changed = differs(old, new);
    let olds = refs_keys(alloc, schema, old)?;
    let news = refs_keys(alloc, schema, new)?;
    let Change { gone, come } = change_of(alloc, olds.as_slice(), news.as_slice())?;
    push_own(n, changed, out)?;
    push_all(gone.as_slice(), out)?;
    push_all(come.as_slice(), out)?;
    Ok(())
}
