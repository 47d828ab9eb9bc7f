//! Repeats: `*`, `+`, `?`, `{n}`, `{n,}` and `{n,m}`.

ghost use Rattle.std.specs.Prelude.{◌≡◌, ◌≤◌};
ghost use Rattle.reading.specs.Codes.{codes_of};
ghost use Rattle.reading.specs.Reading.{Gives};
ghost use Rattle.reading.specs.Runs.{run};
ghost use Rattle.xsd_pattern.specs.Characters.{is_digit};
ghost use Rattle.xsd_pattern.specs.Repeats as spec;

use crate::characters::digit;
use crate::fault::PatternCause;
use pattern_tree::Times;
use reading::{CharCursor, Stop};

/// The greatest bound of a repeat.
const MOST: u32 = 1_000;

/// The bound in the repeat whose brace is at `at`, whose digits so far are `so_far`.
#[tactic(auto, using(crate::proofs::Numbers::number_laws, reading::proofs::RunLaws::run_laws))]
fn number<'a>(
    cursor: &mut CharCursor<'a>,
    at: &'a [u8],
    so_far: u32,
) -> Result<u32, Stop<'a, PatternCause>>
    requires { so_far ≤ 1000 }
    ensures { Gives (λ n. n) result cursor.new (spec.number (codes_of at.now) so_far (run is_digit cursor.old)) }
{
    let mut found = so_far;
    while let Some(next) = cursor.peek() {
        let Some(digit) = digit(next) else {
            return Ok(found);
        };
        let _ = cursor.next();
        found = 10 * found + digit;
        if found > MOST {
            return Err(Stop::Refused(PatternCause::TooManyRepeats, at));
        }
    }
    Ok(found)
}

/// One or more digits, in the repeat whose brace is at `at`.
#[tactic(auto, unfolding(crate::specs::Repeats::bound))]
fn bound<'a>(cursor: &mut CharCursor<'a>, at: &'a [u8]) -> Result<u32, Stop<'a, PatternCause>>
    ensures { Gives (λ n. n) result cursor.new (spec.bound (codes_of at.now) cursor.old) }
{
    let here = cursor.rest();
    let Some(next) = cursor.next() else {
        return Err(Stop::Refused(PatternCause::Syntax, here));
    };
    match digit(next) {
        Some(digit) => number(cursor, at, digit),
        None => Err(Stop::Refused(PatternCause::Syntax, here)),
    }
}

/// What stands behind the second bound.
#[tactic(auto, unfolding(crate::specs::Repeats::closed))]
fn closed<'a>(
    cursor: &mut CharCursor<'a>,
    at: &'a [u8],
    least: u32,
    most: u32,
) -> Result<Times, Stop<'a, PatternCause>>
    ensures { Gives (λ n. n) result cursor.new (spec.closed (codes_of at.now) least most cursor.old) }
{
    let here = cursor.rest();
    match cursor.next() {
        Some('}') if least <= most => Ok(Times {
            least,
            most: Some(most),
        }),
        Some('}') => Err(Stop::Refused(PatternCause::Syntax, at)),
        _ => Err(Stop::Refused(PatternCause::Syntax, here)),
    }
}

/// What stands behind the comma.
#[tactic(auto, unfolding(crate::specs::Repeats::behind_comma))]
fn behind_comma<'a>(
    cursor: &mut CharCursor<'a>,
    at: &'a [u8],
    least: u32,
) -> Result<Times, Stop<'a, PatternCause>>
    ensures { Gives (λ n. n) result cursor.new (spec.behind_comma (codes_of at.now) least cursor.old) }
{
    match cursor.peek() {
        None => Err(Stop::Refused(PatternCause::Syntax, cursor.rest())),
        Some('}') => {
            let _ = cursor.next();
            Ok(Times { least, most: None })
        }
        Some(_) => {
            let most = bound(cursor, at)?;
            closed(cursor, at, least, most)
        }
    }
}

/// What stands behind the first bound.
#[tactic(auto, unfolding(crate::specs::Repeats::behind_bound))]
fn behind_bound<'a>(
    cursor: &mut CharCursor<'a>,
    at: &'a [u8],
    least: u32,
) -> Result<Times, Stop<'a, PatternCause>>
    ensures { Gives (λ n. n) result cursor.new (spec.behind_bound (codes_of at.now) least cursor.old) }
{
    let here = cursor.rest();
    match cursor.next() {
        Some('}') => Ok(Times {
            least,
            most: Some(least),
        }),
        Some(',') => behind_comma(cursor, at, least),
        _ => Err(Stop::Refused(PatternCause::Syntax, here)),
    }
}

/// What stands behind the brace at `at`.
#[tactic(auto, unfolding(crate::specs::Repeats::braces))]
fn braces<'a>(cursor: &mut CharCursor<'a>, at: &'a [u8]) -> Result<Times, Stop<'a, PatternCause>>
    ensures { Gives (λ n. n) result cursor.new (spec.braces (codes_of at.now) cursor.old) }
{
    let least = bound(cursor, at)?;
    behind_bound(cursor, at, least)
}

/// The repeat that stands here, if one does.
#[tactic(auto, unfolding(crate::specs::Repeats::repeat_here))]
pub(crate) fn repeat_here<'a>(
    cursor: &mut CharCursor<'a>,
) -> Result<Option<Times>, Stop<'a, PatternCause>>
    ensures { Gives (λ n. n) result cursor.new (spec.repeat_here cursor.old) }
{
    let at = cursor.rest();
    let (least, most) = match cursor.peek() {
        Some('*') => (0, None),
        Some('+') => (1, None),
        Some('?') => (0, Some(1)),
        Some('{') => {
            let _ = cursor.next();
            return Ok(Some(braces(cursor, at)?));
        }
        _ => return Ok(None),
    };
    let _ = cursor.next();
    Ok(Some(Times { least, most }))
}
