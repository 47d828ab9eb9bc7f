ghost use Rattle.std.specs.Prelude.{◌≡◌};
ghost use Rattle.schema_table.specs.Values.{is_set};

use crate::texts::{is_empty, is_word};
use ifc_base::{Value, ValueNode};

/// Whether the value is set: with its typed wrappers taken off it is none of `$`, `*`, the empty text, the empty
/// list and `.U.`. `O(d)` in the number of wrappers; its recursion is as deep as the value.
#[tactic(auto, unfolding(crate::specs::Words::chars))]
pub fn is_set(value: &Value) -> bool
    ensures { result ≡ is_set value.now }
{
    match &value.node {
        ValueNode::Absent => false,
        ValueNode::Derived => false,
        ValueNode::Text(text) => !is_empty(text),
        ValueNode::List(items) => !items.as_slice().is_empty(),
        ValueNode::Enumer(name) => !is_word(name, "U"),
        ValueNode::Typed(_, inner) => is_set(inner.get()),
        _ => true,
    }
}
