//! Parts of a pattern that stand for one character of a set.

ghost use Rattle.std.specs.Prelude.{◌≡◌, ◌∷◌, [], true, false, IfOk};
ghost use Rattle.reading.specs.Codes.{codes_of};
ghost use Rattle.reading.specs.Reading.{Gives};
ghost use Rattle.xsd_pattern.specs.Sets as spec;

use crate::characters::{class_of, escaped, is_plain};
use crate::fault::PatternCause;
use pattern_tree::{Part, Set};
use reading::{CharCursor, Stop};
use sqlite_items::Items;
use std::alloc::{AllocError, Global};

type Stopped<'a> = Stop<'a, PatternCause>;

/// The greatest character that an escape stands for.
const GREATEST_ESCAPED: char = '}';

/// The set of one part.
fn only(alloc: Global, part: Part) -> Result<Set, AllocError>
    ensures { IfOk result (λ s. s ≡ spec.set false (part ∷ [])) }
{
    let mut parts = Items::new(alloc);
    parts.push(part)?;
    Ok(Set {
        negated: false,
        parts,
    })
}

/// The set of one character.
pub(crate) fn literal(alloc: Global, found: char) -> Result<Set, AllocError>
    ensures { IfOk result (λ s. s ≡ spec.literal found) }
{
    only(alloc, Part::Range(found, found))
}

/// Any character but line feed and carriage return.
pub(crate) fn any_character(alloc: Global) -> Result<Set, AllocError>
    ensures { IfOk result (λ s. s ≡ spec.any_character) }
{
    let mut parts = Items::new(alloc);
    parts.push(Part::Range('\n', '\n'))?;
    parts.push(Part::Range('\r', '\r'))?;
    Ok(Set {
        negated: true,
        parts,
    })
}

/// What stands behind a backslash outside brackets.
#[tactic(auto, unfolding(crate::specs::Sets::escape))]
pub(crate) fn escape<'a>(alloc: Global, cursor: &mut CharCursor<'a>) -> Result<Set, Stopped<'a>>
    ensures { Gives (λ s. s) result cursor.new (spec.escape cursor.old) }
{
    let here = cursor.rest();
    let Some(letter) = cursor.next() else {
        return Err(Stop::Refused(PatternCause::Syntax, here));
    };
    if let Some(class) = class_of(letter) {
        return Ok(only(alloc, Part::Class(class))?);
    }
    match escaped(letter) {
        Some(found) => Ok(literal(alloc, found)?),
        None => Err(Stop::Refused(PatternCause::Syntax, here)),
    }
}

/// What stands behind the backslash of the end of a range.
#[tactic(auto, unfolding(crate::specs::Sets::end_escape))]
fn end_escape<'a>(cursor: &mut CharCursor<'a>, first: char) -> Result<char, Stopped<'a>>
    ensures { Gives (λ c. c) result cursor.new (spec.end_escape first cursor.old) }
{
    let here = cursor.rest();
    let Some(letter) = cursor.next() else {
        return Err(Stop::Refused(PatternCause::Syntax, here));
    };
    match escaped(letter) {
        Some(last) if first <= last => Ok(last),
        _ => Err(Stop::Refused(PatternCause::Syntax, here)),
    }
}

/// The end of the range from `first` on.
#[tactic(auto, unfolding(crate::specs::Sets::range_end))]
fn range_end<'a>(cursor: &mut CharCursor<'a>, first: char) -> Result<char, Stopped<'a>>
    ensures { Gives (λ c. c) result cursor.new (spec.range_end first cursor.old) }
{
    let here = cursor.rest();
    match cursor.next() {
        Some('\\') if first <= GREATEST_ESCAPED => end_escape(cursor, first),
        Some(last) if is_plain(last) && first <= last => Ok(last),
        _ => Err(Stop::Refused(PatternCause::Syntax, here)),
    }
}

/// The end of the class, where a dash was its last part.
#[tactic(auto, unfolding(crate::specs::Sets::last_dash))]
fn last_dash<'a>(cursor: &mut CharCursor<'a>, parts: &Items<Part>) -> Result<bool, Stopped<'a>>
    ensures { Gives (λ more. (more, parts.now)) result cursor.new (spec.last_dash parts.now cursor.old) }
{
    let here = cursor.rest();
    match cursor.next() {
        Some(']') => Ok(false),
        _ => Err(Stop::Refused(PatternCause::Syntax, here)),
    }
}

/// What stands behind a dash behind the character: the end of the class, or a range's.
#[tactic(auto, unfolding(crate::specs::Sets::behind_dash, crate::specs::Sets::range_end))]
fn behind_dash<'a>(
    cursor: &mut CharCursor<'a>,
    first: char,
    parts: &mut Items<Part>,
) -> Result<bool, Stopped<'a>>
    ensures { Gives (λ more. (more, parts.new)) result cursor.new (spec.behind_dash parts.old first cursor.old) }
{
    match cursor.peek() {
        Some(']') => {
            let _ = cursor.next();
            parts.push(Part::Range(first, first))?;
            parts.push(Part::Range('-', '-'))?;
            Ok(false)
        }
        _ => {
            let last = range_end(cursor, first)?;
            parts.push(Part::Range(first, last))?;
            Ok(true)
        }
    }
}

/// The part that the character begins.
#[tactic(auto, unfolding(crate::specs::Sets::behind_member))]
fn behind_member<'a>(
    cursor: &mut CharCursor<'a>,
    first: char,
    parts: &mut Items<Part>,
) -> Result<bool, Stopped<'a>>
    ensures { Gives (λ more. (more, parts.new)) result cursor.new (spec.behind_member parts.old first cursor.old) }
{
    match cursor.peek() {
        Some('-') => {
            let _ = cursor.next();
            behind_dash(cursor, first, parts)
        }
        _ => {
            parts.push(Part::Range(first, first))?;
            Ok(true)
        }
    }
}

/// The part that a backslash begins.
#[tactic(auto, unfolding(crate::specs::Sets::member_escape))]
fn member_escape<'a>(
    cursor: &mut CharCursor<'a>,
    parts: &mut Items<Part>,
) -> Result<bool, Stopped<'a>>
    ensures { Gives (λ more. (more, parts.new)) result cursor.new (spec.member_escape parts.old cursor.old) }
{
    let here = cursor.rest();
    let Some(letter) = cursor.next() else {
        return Err(Stop::Refused(PatternCause::Syntax, here));
    };
    if let Some(class) = class_of(letter) {
        parts.push(Part::Class(class))?;
        return Ok(true);
    }
    match escaped(letter) {
        Some(first) => behind_member(cursor, first, parts),
        None => Err(Stop::Refused(PatternCause::Syntax, here)),
    }
}

/// A dash that stands for itself: the first part of a class, or the last one.
#[tactic(auto, unfolding(crate::specs::Sets::dash))]
fn dash<'a>(cursor: &mut CharCursor<'a>, parts: &mut Items<Part>) -> Result<bool, Stopped<'a>>
    ensures { Gives (λ more. (more, parts.new)) result cursor.new (spec.dash parts.old cursor.old) }
{
    let is_first = parts.is_empty();
    parts.push(Part::Range('-', '-'))?;
    if is_first {
        return Ok(true);
    }
    last_dash(cursor, parts)
}

/// Reads one part of a class or its end; whether to go on.
#[tactic(auto, unfolding(crate::specs::Sets::class_turn))]
fn class_turn<'a>(cursor: &mut CharCursor<'a>, parts: &mut Items<Part>) -> Result<bool, Stopped<'a>>
    ensures { Gives (λ more. (more, parts.new)) result cursor.new (spec.class_turn parts.old cursor.old) }
{
    let here = cursor.rest();
    match cursor.next() {
        None | Some('[') => Err(Stop::Refused(PatternCause::Syntax, here)),
        Some(']') if parts.is_empty() => Err(Stop::Refused(PatternCause::Syntax, here)),
        Some(']') => Ok(false),
        Some('-') => dash(cursor, parts),
        Some('\\') => member_escape(cursor, parts),
        Some(first) => behind_member(cursor, first, parts),
    }
}

/// What stands behind the bracket of a class, and behind its `^`.
#[tactic(auto, using(reading::proofs::Each::each_laws), unfolding(crate::specs::Sets::class_body))]
fn class_body<'a>(
    alloc: Global,
    cursor: &mut CharCursor<'a>,
    negated: bool,
) -> Result<Set, Stopped<'a>>
    ensures { Gives (λ s. s) result cursor.new (spec.class_body negated cursor.old) }
{
    let mut parts = Items::new(alloc);
    for _ in 0..cursor.turns() {
        if !class_turn(cursor, &mut parts)? {
            return Ok(Set { negated, parts });
        }
    }
    Err(Stop::Refused(PatternCause::Syntax, cursor.rest()))
}

/// What stands behind the bracket of a class.
#[tactic(auto, unfolding(crate::specs::Sets::class_))]
pub(crate) fn class<'a>(alloc: Global, cursor: &mut CharCursor<'a>) -> Result<Set, Stopped<'a>>
    ensures { Gives (λ s. s) result cursor.new (spec.class_ cursor.old) }
{
    match cursor.peek() {
        None => Err(Stop::Refused(PatternCause::Syntax, cursor.rest())),
        Some('^') => {
            let _ = cursor.next();
            class_body(alloc, cursor, true)
        }
        Some(_) => class_body(alloc, cursor, false),
    }
}
