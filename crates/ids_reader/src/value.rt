//! What conditions and restrictions say, once their form is known.
ghost use Rattle.std.specs.Prelude.{◌≡◌, ◌^◌, ◌<◌, ◌≤◌, length, map, option_map, IfOk, IfErr};
ghost use Rattle.serde_json.specs.View.{view};
ghost use Rattle.std.specs.Str.{chars};
ghost use Rattle.ids_reader.specs.Reads.{Answers};
ghost use Rattle.ids_reader.specs.Values as spec;
ghost use Rattle.ids_reader.specs.Values.{name_at, names_of, names_at, parts_of, restriction_of, restriction_at};

use crate::fault::IdsCause;
use crate::members::{items_at, text_at};
use ifc_base::{Listed, Memory, Name, Names, Refusal};
use restrictions::{Restriction, RestrictionParts};
use serde_json::Value;
use std::alloc::Global;

/// The text of a member, if it has one.
pub(crate) fn name_at(alloc: Global, name: &str, value: &Value) -> Result<Option<Name>, Memory>
    ensures { IfOk result (λ found. found ≡ name_at name.now (view value.now)) }
{
    match text_at(name, value) {
        Some(text) => Ok(Some(Name::from_str(alloc, text)?)),
        None => Ok(None),
    }
}

/// The text of a member, and none where it has no text.
fn name_or_none(alloc: Global, name: &str, value: &Value) -> Result<Name, Memory>
    ensures { IfOk result (λ found. found ≡ spec.name_or_none name.now (view value.now)) }
{
    Ok(Name::from_str(alloc, text_at(name, value).unwrap_or(""))?)
}

fn name_of(alloc: Global, value: &Value) -> Result<Name, Memory>
    ensures { IfOk result (λ found. found ≡ spec.name_of (view value.now)) }
{
    Ok(Name::from_str(alloc, value.as_str().unwrap_or(""))?)
}

/// The texts of these values.
#[tactic(auto, unfolding(crate::specs::Values::names_of))]
fn names_of(alloc: Global, items: &[Value]) -> Result<Names, Memory>
    ensures { IfOk result (λ names. names ≡ names_of (map view items.now)) }
{
    let mut names = Vec::with_capacity(alloc, items.len())?;
    for item in items {
        names.push(name_of(alloc, item)?)?;
    }
    Ok(Listed::from_vec(names))
}

/// The texts of a member that is a list.
fn names_at(alloc: Global, name: &str, value: &Value) -> Result<Names, Memory>
    ensures { IfOk result (λ names. names ≡ names_at name.now (view value.now)) }
{
    names_of(alloc, items_at(name, value))
}

/// What a restriction says.
#[tactic(auto, unfolding(crate::specs::Values::parts_of))]
fn parts_of(alloc: Global, value: &Value) -> Result<RestrictionParts, Memory>
    ensures { IfOk result (λ parts. parts ≡ parts_of (view value.now)) }
{
    Ok(RestrictionParts {
        base: name_or_none(alloc, "base", value)?,
        enumeration: names_at(alloc, "enumeration", value)?,
        pattern: names_at(alloc, "pattern", value)?,
        min_inclusive: name_at(alloc, "minInclusive", value)?,
        max_inclusive: name_at(alloc, "maxInclusive", value)?,
        min_exclusive: name_at(alloc, "minExclusive", value)?,
        max_exclusive: name_at(alloc, "maxExclusive", value)?,
        length: name_at(alloc, "length", value)?,
        min_length: name_at(alloc, "minLength", value)?,
        max_length: name_at(alloc, "maxLength", value)?,
    })
}

/// The restriction of these parts.
#[tactic(auto, unfolding(crate::specs::Values::built))]
fn built(alloc: Global, value: &Value) -> Result<Restriction, Refusal<IdsCause>>
    ensures { Answers (spec.built (view value.now)) result }
{
    let parts = parts_of(alloc, value)?;
    match Restriction::build(alloc, parts) {
        Ok(restriction) => Ok(restriction),
        Err(Refusal::Fault(_)) => Err(Refusal::Fault(IdsCause::Restriction)),
        Err(Refusal::Memory) => Err(Refusal::Memory),
    }
}

/// What a condition asks.
#[tactic(auto, unfolding(crate::specs::Values::restriction_of))]
pub(crate) fn restriction_of(alloc: Global, value: &Value) -> Result<Restriction, Refusal<IdsCause>>
    ensures { Answers (restriction_of (view value.now)) result }
{
    match value.get("restriction") {
        Some(parts) => built(alloc, parts),
        None => {
            let text = name_or_none(alloc, "simpleValue", value)?;
            Ok(Restriction::simple(text))
        }
    }
}

/// What the condition at a member asks, if one stands there.
#[tactic(auto, unfolding(crate::specs::Values::restriction_at))]
pub(crate) fn restriction_at(
    alloc: Global,
    name: &str,
    value: &Value,
) -> Result<Option<Restriction>, Refusal<IdsCause>>
    ensures { Answers (restriction_at name.now (view value.now)) result }
{
    match value.get(name) {
        Some(condition) => match restriction_of(alloc, condition) {
            Ok(restriction) => Ok(Some(restriction)),
            Err(refused) => Err(refused),
        },
        None => Ok(None),
    }
}

/// What the condition at a member asks that must stand there.
#[tactic(auto, unfolding(crate::specs::Values::restriction_wanted))]
pub(crate) fn restriction_wanted(
    alloc: Global,
    name: &str,
    value: &Value,
) -> Result<Restriction, Refusal<IdsCause>>
    ensures { Answers (spec.restriction_wanted name.now (view value.now)) result }
{
    match value.get(name) {
        Some(condition) => restriction_of(alloc, condition),
        None => Err(Refusal::Fault(IdsCause::Shape)),
    }
}
