ghost use Rattle.std.specs.Prelude.{◌≡◌, IfOk};

use crate::id::InstId;
use crate::list::{Listed, TryCopy};
use crate::memory::Memory;
use crate::name::Name;
use sqlite_items::{Boxed, Items};
use std::alloc::Global;

/// A decimal number: a whole number of units of 10^-15, or a number past the range that is kept. `==`
/// and the order are the fields', `units` first; they aren't the comparisons of numbers in an audit.
#[derive(Clone, Copy, Debug, PartialEq, Eq, PartialOrd, Ord)]
pub struct Decimal {
    /// The number of units of 10^-15; of a number past the range only the sign counts.
    pub units: i128,
    /// Whether the number's magnitude, rounded, is 10^16 or more.
    pub beyond: bool,
}

/// A parameter of an instance (ISO 10303-21, parameter): a tree, whose top is the node. Contracts see
/// the tree of the variants, with plain lists. `==` is equality of the trees; the order is the node's.
#[cycle(value)]
#[derive(Debug, Drop)]
pub struct Value {
    pub node: ValueNode,
}

/// The kinds of parameter (ISO 10303-21, section on the encoding of parameters), in their order: values of
/// one kind are ordered by what they hold, lists by the first items that differ.
#[cycle(value)]
#[derive(Debug, Drop)]
pub enum ValueNode {
    /// `$`: no value was given.
    Absent,
    /// `*`: the value is derived in a subtype.
    Derived,
    /// An integer of at most 18 digits.
    Int(i64),
    /// A real.
    Real(Decimal),
    /// The characters of a string, its directives decoded.
    Text(Name),
    /// The name of an enumeration value, without the dots, in upper case.
    Enumer(Name),
    /// The hexadecimal digits of a binary, the first one among them.
    Binary(Name),
    /// A reference to an instance, which may be missing.
    Ref(InstId),
    /// A list, set, bag or array.
    List(Items<Value>),
    /// A typed parameter: the keyword, in upper case, and the value within.
    Typed(Name, Boxed<Value>),
}

/// Parameters in their order.
pub type Values = Listed<Value>;

/// A simple instance (ISO 10303-21, entity instance). `==` compares the fields; the order is theirs, from
/// the first on.
#[derive(Debug, PartialOrd, Ord, Drop)]
pub struct Instance {
    /// The number behind `#`.
    pub id: InstId,
    /// The entity's keyword, in upper case.
    pub entity: Name,
    /// The parameters: the attributes of the topmost supertype first, the entity's own last.
    pub params: Values,
}

/// Instances in some order, which is that of their maker.
pub type Instances = Listed<Instance>;

impl Value {
    /// A value that is equal to this one; the only refusal is want of memory. `O(n)` in the size of the
    /// value.
    pub fn copy(&self, alloc: Global) -> Result<Value, Memory>
        ensures { IfOk result (λ copy. copy ≡ self.now) }
    {
        let node = match &self.node {
            ValueNode::Absent => ValueNode::Absent,
            ValueNode::Derived => ValueNode::Derived,
            ValueNode::Int(number) => ValueNode::Int(*number),
            ValueNode::Real(number) => ValueNode::Real(*number),
            ValueNode::Text(text) => ValueNode::Text(text.copy(alloc)?),
            ValueNode::Enumer(name) => ValueNode::Enumer(name.copy(alloc)?),
            ValueNode::Binary(digits) => ValueNode::Binary(digits.copy(alloc)?),
            ValueNode::Ref(id) => ValueNode::Ref(*id),
            ValueNode::List(items) => {
                let mut copies = Items::new(alloc);
                for item in items.as_slice() {
                    copies.push(item.copy(alloc)?)?;
                }
                ValueNode::List(copies)
            }
            ValueNode::Typed(name, inner) => {
                let name = name.copy(alloc)?;
                ValueNode::Typed(name, Boxed::new(alloc, inner.get().copy(alloc)?)?)
            }
        };
        Ok(Value { node })
    }
}

impl Instance {
    /// An instance that is equal to this one; the only refusal is want of memory. `O(n)` in the size of
    /// the instance.
    pub fn copy(&self, alloc: Global) -> Result<Instance, Memory>
        ensures { IfOk result (λ copy. copy ≡ self.now) }
    {
        Ok(Instance {
            id: self.id,
            entity: self.entity.copy(alloc)?,
            params: self.params.copy(alloc)?,
        })
    }
}

impl TryCopy for Value {
    fn copy(&self, alloc: Global) -> Result<Value, Memory> {
        Value::copy(self, alloc)
    }
}

impl TryCopy for Instance {
    fn copy(&self, alloc: Global) -> Result<Instance, Memory> {
        Instance::copy(self, alloc)
    }
}
