//! From the parts of a restriction to its condition.

ghost use Rattle.std.specs.Prelude.{◌≡◌, Err, IfOk, IsTrue, None, Ok, OnOk, Option, Some, if◌then◌else◌};
ghost use Rattle.std.specs.Prelude.{option_map, option_to_list};
ghost use Rattle.std.specs.Char.{is_ascii_digit};
ghost use Rattle.std.specs.List.{list_all};
ghost use Rattle.std.specs.Option.{option_map_or};
ghost use Rattle.ifc_base.specs.Refusals.{OnFault};
ghost use Rattle.xsd_pattern.specs.Reading.{reading};
ghost use Rattle.restrictions.specs.Building.{all_bounds, all_lengths, are_misplaced, bound_of, bounds_of, condition_of};
ghost use Rattle.restrictions.specs.Building.{fault_or, has_bad_bound, has_bad_length, has_misplaced_bound, is_base};
ghost use Rattle.restrictions.specs.Building.{is_bound, is_length, is_none_left, is_number_base, is_over};
ghost use Rattle.restrictions.specs.Building.{is_without_parts, length_of, lengths_of, parts_fault, pattern_fault};
ghost use Rattle.restrictions.specs.Building.{pattern_fault_at, shape_fault, trees};
ghost use Rattle.restrictions.specs.declared.parts.RestrictionFault.{RestrictionFault};
ghost use Rattle.restrictions.specs.declared.parts.RestrictionFault.TheVariants.{BadBound, BadLength};

use crate::condition::{Bounds, Condition, Constraints, Lengths};
use crate::literal::Literal;
use crate::parts::{RestrictionFault, RestrictionParts};
use crate::word::is_word;
use decimal_fix::read_decimal;
use ifc_base::{Listed, Memory, Name, Names, Refusal};
use std::alloc::Global;
use xsd_pattern::{Pattern, PatternFault};

/// How many digits a length may have.
const MOST_DIGITS: usize = 9;

/// Whether bounds may stand with the base.
#[tactic(auto, unfolding(crate::specs::Building::is_number_base))]
fn is_number_base(base: &Name) -> bool
    ensures { result ≡ is_number_base base.now }
{
    is_word(base, "xs:integer") || is_word(base, "xs:double") || is_word(base, "xs:decimal")
}

/// Whether the base is one of those that are built.
#[tactic(auto, unfolding(crate::specs::Building::is_base))]
fn is_base(base: &Name) -> bool
    ensures { result ≡ is_base base.now }
{
    is_number_base(base)
        || is_word(base, "xs:string")
        || is_word(base, "xs:boolean")
        || is_word(base, "xs:date")
        || is_word(base, "xs:dateTime")
        || is_word(base, "xs:time")
        || is_word(base, "xs:duration")
}

/// Whether there is no bound.
fn is_without_bounds(parts: &RestrictionParts) -> bool
    ensures { result ≡ is_none_left (all_bounds parts.now) }
{
    parts.min_inclusive.is_none()
        && parts.max_inclusive.is_none()
        && parts.min_exclusive.is_none()
        && parts.max_exclusive.is_none()
}

/// Whether there is no length.
fn is_without_lengths(parts: &RestrictionParts) -> bool
    ensures { result ≡ is_none_left (all_lengths parts.now) }
{
    parts.length.is_none() && parts.min_length.is_none() && parts.max_length.is_none()
}

/// Whether there is no text.
fn is_none_left(texts: &Names) -> bool
    ensures { result ≡ is_none_left texts.now }
{
    texts.as_slice().is_empty()
}

/// Whether there is no part besides the base.
fn is_without_parts(parts: &RestrictionParts) -> bool
    ensures { result ≡ is_without_parts parts.now }
{
    is_none_left(&parts.enumeration)
        && is_none_left(&parts.pattern)
        && is_without_bounds(parts)
        && is_without_lengths(parts)
}

/// The bound that a text is, in units of 10^-15, if it is one.
#[tactic(auto, unfolding(crate::specs::Building::is_bound, crate::specs::Building::bound_of, crate::specs::Numbers::number_of))]
fn bound(text: &Name) -> Option<i128>
    ensures { result ≡ (if is_bound text.now then Some (bound_of text.now) else None) }
{
    match read_decimal(text.as_str()) {
        Some(decimal) => {
            if decimal.beyond {
                None
            } else {
                Some(decimal.units)
            }
        }
        None => None,
    }
}

/// The bound, if one is there.
fn bound_if_any(text: &Option<Name>) -> Result<Option<i128>, RestrictionFault>
    ensures { result ≡ (if list_all is_bound (option_to_list text.now)
        then Ok (option_map bound_of text.now) else Err BadBound) }
{
    match text {
        None => Ok(None),
        Some(text) => match bound(text) {
            Some(units) => Ok(Some(units)),
            None => Err(RestrictionFault::BadBound),
        },
    }
}

/// Whether bounds stand with another base, or both bounds of one side are there.
fn has_misplaced_bound(parts: &RestrictionParts) -> bool
    ensures { result ≡ has_misplaced_bound parts.now }
{
    !is_without_bounds(parts) && !is_number_base(&parts.base)
        || parts.min_inclusive.is_some() && parts.min_exclusive.is_some()
        || parts.max_inclusive.is_some() && parts.max_exclusive.is_some()
}

/// The bounds.
fn bounds(parts: &RestrictionParts) -> Result<Bounds, RestrictionFault>
    ensures { result ≡ (if has_bad_bound parts.now then Err BadBound else Ok (bounds_of parts.now)) }
{
    let bounds = Bounds {
        min_inclusive: bound_if_any(&parts.min_inclusive)?,
        max_inclusive: bound_if_any(&parts.max_inclusive)?,
        min_exclusive: bound_if_any(&parts.min_exclusive)?,
        max_exclusive: bound_if_any(&parts.max_exclusive)?,
    };
    if has_misplaced_bound(parts) {
        Err(RestrictionFault::BadBound)
    } else {
        Ok(bounds)
    }
}

/// Whether the bytes are digits.
fn are_digits(bytes: &[u8]) -> bool
    ensures { result ≡ list_all is_ascii_digit bytes.now }
{
    bytes.iter().all(|byte| byte.is_ascii_digit())
}

/// Whether the bytes are one to nine digits.
#[tactic(auto, unfolding(crate::specs::Building::is_length))]
fn are_length(bytes: &[u8]) -> bool
    ensures { result ≡ is_length bytes.now }
{
    1 <= bytes.len() && bytes.len() <= MOST_DIGITS && are_digits(bytes)
}

/// Whether a text is one to nine digits. `O(n)`.
fn is_length(text: &Name) -> bool
    ensures { result ≡ is_length text.now }
{
    are_length(text.as_str().as_bytes())
}

/// The number that one to nine digits write.
fn length_of(text: &Name) -> Option<u32>
    requires { IsTrue (is_length text.now) }
    ensures { result ≡ Some (length_of text.now) }
{
    match text.as_str().parse::<u32>() {
        Ok(number) => Some(number),
        Err(_) => None,
    }
}

/// The number that a text of one to nine digits writes, if it is one.
fn length(text: &Name) -> Option<u32>
    ensures { result ≡ (if is_length text.now then Some (length_of text.now) else None) }
{
    if is_length(text) {
        length_of(text)
    } else {
        None
    }
}

/// The length, if one is there.
fn length_if_any(text: &Option<Name>) -> Result<Option<u32>, RestrictionFault>
    ensures { result ≡ (if list_all is_length (option_to_list text.now)
        then Ok (option_map length_of text.now) else Err BadLength) }
{
    match text {
        None => Ok(None),
        Some(text) => match length(text) {
            Some(number) => Ok(Some(number)),
            None => Err(RestrictionFault::BadLength),
        },
    }
}

/// Whether the one is above the other, if both are there.
fn is_over(least: Option<u32>, most: Option<u32>) -> bool
    ensures { result ≡ is_over least most }
{
    match (least, most) {
        (Some(least), Some(most)) => most < least,
        _ => false,
    }
}

/// Whether a whole length stands beside another, or the least is over the greatest.
fn are_misplaced(lengths: Lengths) -> bool
    ensures { result ≡ are_misplaced lengths }
{
    let beside = lengths.min_length.is_some() || lengths.max_length.is_some();
    lengths.length.is_some() && beside || is_over(lengths.min_length, lengths.max_length)
}

/// The lengths.
fn lengths(parts: &RestrictionParts) -> Result<Lengths, RestrictionFault>
    ensures { result ≡ (if has_bad_length parts.now then Err BadLength else Ok (lengths_of parts.now)) }
{
    let lengths = Lengths {
        length: length_if_any(&parts.length)?,
        min_length: length_if_any(&parts.min_length)?,
        max_length: length_if_any(&parts.max_length)?,
    };
    if are_misplaced(lengths) {
        Err(RestrictionFault::BadLength)
    } else {
        Ok(lengths)
    }
}

/// The bounds and lengths, or the fault of one of them.
fn limits(parts: &RestrictionParts) -> Result<(Bounds, Lengths), RestrictionFault>
    ensures { result ≡ (if has_bad_bound parts.now then Err BadBound
        else if has_bad_length parts.now then Err BadLength else Ok (bounds_of parts.now, lengths_of parts.now)) }
{
    match bounds(parts) {
        Err(fault) => Err(fault),
        Ok(bounds) => match lengths(parts) {
            Err(fault) => Err(fault),
            Ok(lengths) => Ok((bounds, lengths)),
        },
    }
}

/// The bounds and lengths, or the first fault that doesn't lie in a pattern.
fn shape(parts: &RestrictionParts) -> Result<(Bounds, Lengths), RestrictionFault>
    ensures { result ≡ option_map_or Err (shape_fault parts.now) (Ok (bounds_of parts.now, lengths_of parts.now)) }
{
    if !is_base(&parts.base) {
        return Err(RestrictionFault::BadBase);
    }
    if is_without_parts(parts) {
        return Err(RestrictionFault::EmptyRestriction);
    }
    limits(parts)
}

/// The literals of these texts.
fn literals(alloc: Global, texts: Names) -> Result<Listed<Literal>, Memory>
    ensures { IfOk result (λ literals. literals ≡ texts) }
{
    let texts = texts.into_vec();
    let mut literals = Vec::with_capacity(alloc, texts.len())?;
    for text in texts {
        literals.push(Literal::new(text))?;
    }
    Ok(Listed::from_vec(literals))
}

/// The fault of the text of this number that is no pattern.
fn pattern_fault(number: usize, fault: PatternFault) -> RestrictionFault
    ensures { result ≡ pattern_fault_at number fault }
{
    let which = u32::try_from(number).unwrap_or(u32::MAX);
    RestrictionFault::Pattern { which, fault }
}

/// The pattern of the text of this number, or its fault.
fn pattern(alloc: Global, number: usize, text: &Name) -> Result<Pattern, Refusal<RestrictionFault>>
    ensures read { IfOk result (λ pattern. reading text.now ≡ Ok pattern) }
    ensures refused { OnFault result (λ fault. (later : Option RestrictionFault)
        → fault_or number (reading text.now) later ≡ Some fault) }
{
    match Pattern::read(alloc, text.as_str()) {
        Ok(pattern) => Ok(pattern),
        Err(Refusal::Fault(fault)) => Err(Refusal::Fault(pattern_fault(number, fault))),
        Err(Refusal::Memory) => Err(Refusal::Memory),
    }
}

/// The patterns of these texts, or the fault of the first that is none.
fn patterns(alloc: Global, texts: &Names) -> Result<Listed<Pattern>, Refusal<RestrictionFault>>
    ensures read { IfOk result (λ patterns. patterns ≡ trees texts.now) }
    ensures sound { OnOk result (pattern_fault 1 texts.now ≡ None) }
    ensures refused { OnFault result (λ fault. pattern_fault 1 texts.now ≡ Some fault) }
{
    let mut patterns = Vec::new(alloc);
    for (at, text) in texts.as_slice().iter().enumerate() {
        patterns.push(pattern(alloc, at + 1, text)?)?;
    }
    Ok(Listed::from_vec(patterns))
}

/// What the parts besides the enumeration ask for, or the first fault of the parts.
#[tactic(auto, unfolding(crate::specs::Building::parts_fault))]
fn read(
    alloc: Global,
    parts: &RestrictionParts,
) -> Result<(Listed<Pattern>, Bounds, Lengths), Refusal<RestrictionFault>>
    ensures read { IfOk result (λ read. read
        ≡ (trees parts.now.pattern, bounds_of parts.now, lengths_of parts.now)) }
    ensures sound { OnOk result (parts_fault parts.now ≡ None) }
    ensures refused { OnFault result (λ fault. parts_fault parts.now ≡ Some fault) }
{
    match shape(parts) {
        Err(fault) => Err(Refusal::Fault(fault)),
        Ok((bounds, lengths)) => match patterns(alloc, &parts.pattern) {
            Err(refusal) => Err(refusal),
            Ok(patterns) => Ok((patterns, bounds, lengths)),
        },
    }
}

/// The condition of the parts, or their fault.
#[tactic(auto, unfolding(crate::specs::Building::condition_of))]
pub(crate) fn condition(
    alloc: Global,
    parts: RestrictionParts,
) -> Result<Condition, Refusal<RestrictionFault>>
    ensures built { IfOk result (λ condition. condition ≡ condition_of parts) }
    ensures sound { OnOk result (parts_fault parts ≡ None) }
    ensures refused { OnFault result (λ fault. parts_fault parts ≡ Some fault) }
{
    let (patterns, bounds, lengths) = read(alloc, &parts)?;
    let enumeration = literals(alloc, parts.enumeration)?;
    Ok(Condition::Restricted(Constraints {
        enumeration,
        patterns,
        bounds,
        lengths,
    }))
}
