//! Conditions and values from short texts.

use decimal_fix::read_decimal;
use ifc_base::{InstId, Name, Names, Value, ValueNode};
use restrictions::{Restriction, RestrictionParts};
use sqlite_items::{Boxed, Items};
use std::alloc::Global;
use std::process::Abort;
use std::test::Fail;

/// The parts of a restriction, each by its name in XML Schema and its text.
pub(crate) type Parts = &'static [(&'static str, &'static str)];

fn push(alloc: Global, names: &mut Names, text: &str) -> Result<(), Fail> {
    match names.push(Name::from_str(alloc, text)?) {
        Ok(()) => Ok(()),
        Err(_) => Err("memory".into()),
    }
}

fn no_parts(alloc: Global) -> RestrictionParts {
    RestrictionParts {
        base: Name::new(alloc),
        enumeration: Names::new(alloc),
        pattern: Names::new(alloc),
        min_inclusive: None,
        max_inclusive: None,
        min_exclusive: None,
        max_exclusive: None,
        length: None,
        min_length: None,
        max_length: None,
    }
}

fn add(alloc: Global, parts: &mut RestrictionParts, part: &str, text: &str) -> Result<(), Fail> {
    if part == "enumeration" {
        return push(alloc, &mut parts.enumeration, text);
    }
    if part == "pattern" {
        return push(alloc, &mut parts.pattern, text);
    }
    let name = Name::from_str(alloc, text)?;
    match part {
        "base" => parts.base = name,
        "minInclusive" => parts.min_inclusive = Some(name),
        "maxInclusive" => parts.max_inclusive = Some(name),
        "minExclusive" => parts.min_exclusive = Some(name),
        "maxExclusive" => parts.max_exclusive = Some(name),
        "length" => parts.length = Some(name),
        "minLength" => parts.min_length = Some(name),
        "maxLength" => parts.max_length = Some(name),
        _ => return Err("no part".into()),
    }
    Ok(())
}

/// These parts.
pub(crate) fn parts(alloc: Global, rows: &[(&str, &str)]) -> Result<RestrictionParts, Fail> {
    let mut parts = no_parts(alloc);
    for (part, text) in rows {
        add(alloc, &mut parts, part, text)?;
    }
    Ok(parts)
}

/// A value.
#[derive(Clone, Copy, Debug)]
pub(crate) enum Sample {
    Int(i64),
    /// By its numeral.
    Real(&'static str),
    Text(&'static str),
    Enumer(&'static str),
    /// A text in a typed parameter `IFCLABEL`.
    Label(&'static str),
    /// An enumeration in a typed parameter.
    Truth(&'static str),
    /// A real in a typed parameter in another.
    Measure(&'static str),
    /// The binary of these digits.
    Binary(&'static str),
    Absent,
    Derived,
    /// The reference to the instance 1.
    Ref,
    /// The list of the integer 1.
    List,
}

fn of_node(node: ValueNode) -> Value {
    Value { node }
}

fn real(numeral: &str) -> Result<Value, Fail> {
    match read_decimal(numeral) {
        Some(number) => Ok(of_node(ValueNode::Real(number))),
        None => Err("no numeral".into()),
    }
}

fn typed(alloc: Global, keyword: &str, inner: Value) -> Result<Value, Fail> {
    let name = Name::from_str(alloc, keyword)?;
    Ok(of_node(ValueNode::Typed(name, Boxed::new(alloc, inner)?)))
}

fn list(alloc: Global) -> Result<Value, Fail> {
    let mut items = Items::new(alloc);
    items.push(of_node(ValueNode::Int(1)))?;
    Ok(of_node(ValueNode::List(items)))
}

fn reference() -> Result<Value, Fail> {
    match InstId::new(1) {
        Some(id) => Ok(of_node(ValueNode::Ref(id))),
        None => Err("no id".into()),
    }
}

fn text(alloc: Global, text: &str) -> Result<Value, Fail> {
    Ok(of_node(ValueNode::Text(Name::from_str(alloc, text)?)))
}

fn enumer(alloc: Global, name: &str) -> Result<Value, Fail> {
    Ok(of_node(ValueNode::Enumer(Name::from_str(alloc, name)?)))
}

fn binary(alloc: Global, digits: &str) -> Result<Value, Fail> {
    Ok(of_node(ValueNode::Binary(Name::from_str(alloc, digits)?)))
}

fn value(alloc: Global, sample: Sample) -> Result<Value, Fail> {
    match sample {
        Sample::Int(number) => Ok(of_node(ValueNode::Int(number))),
        Sample::Real(numeral) => real(numeral),
        Sample::Text(characters) => text(alloc, characters),
        Sample::Enumer(name) => enumer(alloc, name),
        Sample::Binary(digits) => binary(alloc, digits),
        Sample::Label(characters) => typed(alloc, "IFCLABEL", text(alloc, characters)?),
        Sample::Truth(name) => typed(alloc, "IFCBOOLEAN", enumer(alloc, name)?),
        Sample::Measure(numeral) => typed(alloc, "IFCA", typed(alloc, "IFCREAL", real(numeral)?)?),
        Sample::Absent => Ok(of_node(ValueNode::Absent)),
        Sample::Derived => Ok(of_node(ValueNode::Derived)),
        Sample::Ref => reference(),
        Sample::List => list(alloc),
    }
}

/// Sees whether the condition admits the value.
pub(crate) fn sees(
    rt: &impl Abort,
    alloc: Global,
    condition: &Restriction,
    sample: Sample,
    wanted: bool,
) -> Result<(), Fail> {
    let value = value(alloc, sample)?;
    match condition.admits(alloc, &value) {
        Ok(admitted) => assert_eq!(rt; admitted, wanted, "{sample:?}"),
        Err(_) => panic!(rt; "memory"),
    }
    Ok(())
}

/// The condition of these parts.
pub(crate) fn built(
    rt: &impl Abort,
    alloc: Global,
    rows: &[(&str, &str)],
) -> Result<Restriction, Fail> {
    match Restriction::build(alloc, parts(alloc, rows)?) {
        Ok(condition) => Ok(condition),
        Err(_) => panic!(rt; "no restriction"),
    }
}
