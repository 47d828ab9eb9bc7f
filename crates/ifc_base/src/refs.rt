ghost use Rattle.std.specs.Prelude.{◌≡◌, ◌++◌, length, take, OnOk, OnErr};
ghost use Rattle.ifc_base.specs.Refs.{refs_of};

use crate::id::InstId;
use crate::memory::Memory;
use crate::value::{Value, ValueNode};

/// Appends the references that stand anywhere within the value, in reading order: those within lists
/// and typed parameters too, each as often as it stands there. After want of memory `out` is as before.
/// `O(n)` in the size of the value; its recursion is as deep as the value.
pub fn refs_in(value: &Value, out: &mut Vec<InstId>) -> Result<(), Memory>
    ensures ok { OnOk result (out.new.items ≡ out.old.items ++ refs_of value.now) }
    ensures err { OnErr result (out.new.items ≡ out.old.items) }
{
    let before = out.len();
    match push_refs(value, out) {
        Ok(()) => Ok(()),
        Err(refused) => {
            out.truncate(before);
            Err(refused)
        }
    }
}

/// Appends the references within the value. After want of memory some of them may stand behind what
/// `out` held before.
fn push_refs(value: &Value, out: &mut Vec<InstId>) -> Result<(), Memory>
    ensures ok { OnOk result (out.new.items ≡ out.old.items ++ refs_of value.now) }
    ensures err { OnErr result (take (length out.old.items) out.new.items ≡ out.old.items) }
{
    match &value.node {
        ValueNode::Ref(id) => {
            out.push(*id)?;
            Ok(())
        }
        ValueNode::List(items) => {
            for item in items.as_slice() {
                push_refs(item, out)?;
            }
            Ok(())
        }
        ValueNode::Typed(_, inner) => {
            push_refs(inner.get(), out)?;
            Ok(())
        }
        _ => Ok(()),
    }
}
