//! Value conditions.

ghost use Rattle.std.specs.Prelude.{◌≡◌, chars, None, Some, IfOk, OnOk};
ghost use Rattle.ifc_base.specs.Refusals.{OnFault};
ghost use Rattle.restrictions.specs.Admitting.{admits, admits_text};
ghost use Rattle.restrictions.specs.Building.{condition_of, parts_fault};
ghost use Rattle.restrictions.specs.declared.condition.Condition.TheVariants.{Simple};

use crate::admit::enumeration_text;
use crate::build::condition;
use crate::condition::Condition;
use crate::literal::Literal;
use crate::number::Number;
use crate::parts::{RestrictionFault, RestrictionParts};
use ifc_base::{Memory, Name, Refusal, Value, ValueNode};
use std::alloc::Global;
use std::fmt;
use std::marker::Model;

/// A value condition: one simple text, or a restriction (IDS 1.0, `simpleValue` and `xs:restriction`). Contracts see
/// the condition as plain data.
#[derive(Drop)]
pub struct Restriction {
    condition: Condition,
}

impl Model for Restriction {
    ghost use Rattle.std.specs.Coded.{codes};
    ghost use Rattle.restrictions.specs.declared.condition.Condition.{Condition};
    ghost use Rattle.restrictions.specs.contracts.condition.Condition as kept;

    ghost Value = { Condition };

    ghost coded = { Prim.hlevel (codes, kept.the_row.coded) };

    ghost view = { λ restriction. restriction.condition };
}

impl Restriction {
    /// The condition of this one text (IDS 1.0, `simpleValue`). It takes no memory. `O(n)` in the length of the text,
    /// which is read as a numeral once.
    pub fn simple(text: Name) -> Restriction
        ensures { result ≡ Simple text }
    {
        Restriction {
            condition: Condition::Simple(Literal::new(text)),
        }
    }

    /// The restriction of these parts (IDS 1.0, `xs:restriction`), or the first cause, in the order of
    /// `RestrictionFault`, for which they are none. A refusal drops the parts. Enumerations are read as numerals and
    /// patterns as trees once, here. `O(n)` in the length of all parts.
    pub fn build(
        alloc: Global,
        parts: RestrictionParts,
    ) -> Result<Restriction, Refusal<RestrictionFault>>
        // What is built is the condition of the parts.
        ensures built { IfOk result (λ restriction. restriction ≡ condition_of parts) }
        // It is built only where the parts have no fault.
        ensures sound { OnOk result (parts_fault parts ≡ None) }
        // A fault is the first one.
        ensures refused { OnFault result (λ fault. parts_fault parts ≡ Some fault) }
    {
        Ok(Restriction {
            condition: condition(alloc, parts)?,
        })
    }

    /// Whether the condition admits the value, its typed wrappers taken off. An integer is compared as a number
    /// exactly, a real within the tolerance of `decimal_fix::equals_within`; a string by its characters; an enumeration
    /// by its name, truth values as `true`, `false` and `unknown`. Everything else is admitted by nothing. The one refusal is
    /// want of memory.
    ///
    /// `O(e + d)` for a number, with `e` enumerations and `d` wrappers; for a text of `n` characters `O(e n + d)` and
    /// the time of its patterns (`Pattern::matches`).
    #[tactic(auto, unfolding(crate::specs::Admitting::admits, crate::specs::Admitting::admits_text))]
    pub fn admits(&self, alloc: Global, value: &Value) -> Result<bool, Memory>
        ensures { IfOk result (λ answer. answer ≡ admits self.now value.now) }
    {
        match &value.node {
            ValueNode::Int(number) => Ok(self.condition.admits_number(Number::Whole(*number))),
            ValueNode::Real(number) => Ok(self.condition.admits_number(Number::Real(*number))),
            ValueNode::Text(text) => self.admits_text(alloc, text.as_str()),
            ValueNode::Enumer(name) => self.admits_text(alloc, enumeration_text(name)),
            ValueNode::Typed(_, inner) => self.admits(alloc, inner.get()),
            _ => Ok(false),
        }
    }

    /// Whether the condition admits this text, as the name of an entity or a string. The one refusal is want of memory.
    /// `O(e n)` for `e` enumerations and `n` characters, and the time of the patterns (`Pattern::matches`).
    #[tactic(auto, unfolding(crate::specs::Admitting::admits_text))]
    pub fn admits_text(&self, alloc: Global, text: &str) -> Result<bool, Memory>
        ensures { IfOk result (λ answer. answer ≡ admits_text self.now (chars text.now)) }
    {
        self.condition.admits_text(alloc, text)
    }
}

/// The name of the type; what the condition asks for isn't shown.
impl fmt::Debug for Restriction {
    fn fmt<W: fmt::Write>(&self, f: &mut fmt::Formatter<W>) -> fmt::Result {
        write!(f, "Restriction")
    }
}
