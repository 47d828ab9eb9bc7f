ghost use Rattle.std.specs.Prelude.{◌≡◌, ◌↔◌, IsTrue, encode_utf8_all};
ghost use Rattle.std.specs.Cmp.{partial_equiv_from_equiv, partial_order_from_own_ties, partial_order_from_total};
ghost use Rattle.std.specs.Cmp.Lexicographic.{slice_cmp};
ghost use Rattle.std.specs.Ordering.{as_partial_cmp};
ghost use Rattle.std.proofs.Common.{refl};
ghost use Rattle.ifc_base.specs.ValueOrder.{head_of, head_cmp, value_cmp, value_total, value_ties, node_cmp, node_total, node_ties, node_eq, node_eq-equiv};

use crate::value::{Value, ValueNode};
use std::cmp::Ordering;

impl ValueNode {
    /// The place of the variant among those declared, from 0. `O(1)`.
    fn place(&self) -> u8
        ensures { result ≡ (head_of self.now).place }
    {
        match self {
            ValueNode::Absent => 0,
            ValueNode::Derived => 1,
            ValueNode::Int(_) => 2,
            ValueNode::Real(_) => 3,
            ValueNode::Text(_) => 4,
            ValueNode::Enumer(_) => 5,
            ValueNode::Binary(_) => 6,
            ValueNode::Ref(_) => 7,
            ValueNode::List(_) => 8,
            ValueNode::Typed(_, _) => 9,
        }
    }

    /// The integer, the units of the real or the id that it holds, else 0. `O(1)`.
    fn number(&self) -> i128
        ensures { result ≡ (head_of self.now).number }
    {
        match self {
            ValueNode::Int(number) => i128::from(*number),
            ValueNode::Real(number) => number.units,
            ValueNode::Ref(id) => i128::from(id.get()),
            _ => 0,
        }
    }

    /// Whether it is a real past the range that is kept. `O(1)`.
    fn is_beyond(&self) -> bool
        ensures { result ≡ (head_of self.now).mark }
    {
        match self {
            ValueNode::Real(number) => number.beyond,
            _ => false,
        }
    }

    /// The text, name, digits or keyword that it holds, else the empty text. `O(1)`.
    fn text(&self) -> &str
        ensures { result.now ≡ encode_utf8_all (head_of self.now).text }
    {
        match self {
            ValueNode::Text(text) => text.as_str(),
            ValueNode::Enumer(name) => name.as_str(),
            ValueNode::Binary(digits) => digits.as_str(),
            ValueNode::Typed(name, _) => name.as_str(),
            _ => "",
        }
    }

    /// The order by what the two hold besides values: variant, number and text.
    fn order_of_heads(&self, other: &ValueNode) -> Ordering
        ensures { result ≡ head_cmp (head_of self.now) (head_of other.now) }
    {
        let by_place = self.place().cmp(&other.place());
        let by_number = self.number().cmp(&other.number());
        let by_beyond = self.is_beyond().cmp(&other.is_beyond());
        let by_text = self.text().cmp(other.text());
        by_place.then(by_number.then(by_beyond.then(by_text)))
    }

    /// The order of the two trees. It takes no memory. `O(n)` in the size of the smaller one, text
    /// included.
    #[cycle(order)]
    fn order(&self, other: &ValueNode) -> Ordering
        ensures { result ≡ node_cmp self.now other.now }
    {
        let by_head = self.order_of_heads(other);
        if by_head.is_ne() {
            return by_head;
        }
        match self {
            ValueNode::List(items) => match other {
                ValueNode::List(others) => order_of_lists(items.as_slice(), others.as_slice()),
                _ => by_head,
            },
            ValueNode::Typed(_, inner) => match other {
                ValueNode::Typed(_, i) => inner.get().node.order(&i.get().node),
                _ => by_head,
            },
            _ => by_head,
        }
    }
}

/// By the first items that differ; a list comes before the longer ones that begin with it.
#[cycle(order)]
fn order_of_lists(items: &[Value], others: &[Value]) -> Ordering
    ensures { result ≡ slice_cmp value_cmp items.now others.now }
{
    for at in 0..items.len().min(others.len()) {
        let found = items[at].node.order(&others[at].node);
        if found.is_ne() {
            return found;
        }
    }
    items.len().cmp(&others.len())
}

impl PartialOrd for Value {
    ghost partial_cmp = { as_partial_cmp value_cmp };

    ghost laws = { partial_order_from_own_ties (partial_order_from_total value_total) value_ties };

    fn partial_cmp(&self, other: &Value) -> Option<Ordering> {
        Some(self.cmp(other))
    }
}

/// By the variants in declared order, then by what they hold. `O(n)` in the size of the smaller value.
impl Ord for Value {
    ghost cmp = { value_cmp };

    ghost total = { value_total };

    ghost matches_partial_cmp = { λ x y. refl };

    ghost matches_eq = { value_ties };

    fn cmp(&self, other: &Value) -> Ordering {
        self.node.order(&other.node)
    }
}

/// Equality of the trees. `O(n)` in the size of the smaller one.
impl PartialEq for ValueNode {
    ghost eq = { node_eq };

    ghost laws = { partial_equiv_from_equiv node_eq-equiv };

    fn eq(&self, other: &ValueNode) -> bool
        ensures same { IsTrue result ↔ (self.now ≡ other.now) }
        ensures eq { result ≡ node_eq self.now other.now }
    {
        self.order(other).is_eq()
    }
}

impl Eq for ValueNode {
    ghost laws = { node_eq-equiv };
}

impl PartialOrd for ValueNode {
    ghost partial_cmp = { as_partial_cmp node_cmp };

    ghost laws = { partial_order_from_own_ties (partial_order_from_total node_total) node_ties };

    fn partial_cmp(&self, other: &ValueNode) -> Option<Ordering> {
        Some(self.cmp(other))
    }
}

/// By the variants in declared order, then by what they hold. `O(n)` in the size of the smaller one.
impl Ord for ValueNode {
    ghost cmp = { node_cmp };

    ghost total = { node_total };

    ghost matches_partial_cmp = { λ x y. refl };

    ghost matches_eq = { node_ties };

    fn cmp(&self, other: &ValueNode) -> Ordering {
        self.order(other)
    }
}
