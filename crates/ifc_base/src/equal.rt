ghost use Rattle.std.specs.Prelude.{◌≡◌, ◌↔◌, IsTrue};
ghost use Rattle.std.specs.Cmp.{partial_equiv_from_equiv};
ghost use Rattle.ifc_base.specs.Same.{value_eq, value_eq-equiv, instance_eq, instance_eq-equiv};

use crate::value::{Instance, Value, ValueNode};

impl Value {
    /// Whether the two are the same tree: the same variants with the same contents, all the way down.
    /// It takes no memory. `O(n)` in the size of the smaller value, text included.
    #[cycle(same)]
    pub fn is_same(&self, other: &Value) -> bool
        ensures { IsTrue result ↔ (self.now ≡ other.now) }
    {
        match &self.node {
            ValueNode::Absent => matches!(&other.node, ValueNode::Absent),
            ValueNode::Derived => matches!(&other.node, ValueNode::Derived),
            ValueNode::Int(number) => matches!(&other.node, ValueNode::Int(n) if n == number),
            ValueNode::Real(number) => matches!(&other.node, ValueNode::Real(n) if n == number),
            ValueNode::Text(text) => matches!(&other.node, ValueNode::Text(t) if t == text),
            ValueNode::Enumer(name) => matches!(&other.node, ValueNode::Enumer(n) if n == name),
            ValueNode::Binary(digits) => {
                matches!(&other.node, ValueNode::Binary(d) if d == digits)
            }
            ValueNode::Ref(id) => matches!(&other.node, ValueNode::Ref(i) if i == id),
            ValueNode::List(items) => match &other.node {
                ValueNode::List(others) => are_same(items.as_slice(), others.as_slice()),
                _ => false,
            },
            ValueNode::Typed(name, inner) => match &other.node {
                ValueNode::Typed(n, i) => n == name && inner.get().is_same(i.get()),
                _ => false,
            },
        }
    }
}

/// Whether the two lists have the same length and the same trees at each place.
#[cycle(same)]
fn are_same(items: &[Value], others: &[Value]) -> bool
    ensures { IsTrue result ↔ (items.now ≡ others.now) }
{
    if items.len() != others.len() {
        return false;
    }
    for at in 0..items.len() {
        if !items[at].is_same(&others[at]) {
            return false;
        }
    }
    true
}

/// Equality of the trees. `O(n)` in the size of the smaller value.
impl PartialEq for Value {
    ghost eq = { value_eq };

    ghost laws = { partial_equiv_from_equiv value_eq-equiv };

    fn eq(&self, other: &Value) -> bool
        ensures same { IsTrue result ↔ (self.now ≡ other.now) }
        ensures eq { result ≡ value_eq self.now other.now }
    {
        self.is_same(other)
    }
}

impl Eq for Value {
    ghost laws = { value_eq-equiv };
}

/// Equality of id, entity and parameters. `O(n)` in the size of the smaller instance.
impl PartialEq for Instance {
    ghost eq = { instance_eq };

    ghost laws = { partial_equiv_from_equiv instance_eq-equiv };

    fn eq(&self, other: &Instance) -> bool
        ensures same { IsTrue result ↔ (self.now ≡ other.now) }
        ensures eq { result ≡ instance_eq self.now other.now }
    {
        self.id == other.id && self.entity == other.entity && self.params == other.params
    }
}

impl Eq for Instance {
    ghost laws = { instance_eq-equiv };
}
