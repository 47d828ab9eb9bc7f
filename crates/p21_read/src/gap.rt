//! Blanks and comments.

ghost use Rattle.std.specs.Prelude.{◌≡◌, true, false};
ghost use Rattle.reading.specs.Codes.{codes_of, code_of};
ghost use Rattle.reading.specs.Reading.{Gives};
ghost use Rattle.p21_read.specs.Gap as spec;

use crate::fault::P21Cause;
use reading::{Code, Cursor, Stop};

#[tactic(auto, unfolding(crate::specs::Gap::is_blank))]
fn is_blank(code: Code) -> bool
    ensures { result ≡ spec.is_blank (code_of code) }
{
    code.is(' ') || code.is('\t') || code.is('\n') || code.is('\r')
}

/// Passes the rest of the comment that began at `start`, whatever its bytes are.
#[tactic(auto, unfolding(crate::specs::Gap::comment))]
fn comment<'a>(cursor: &mut Cursor<'a>, start: &'a [u8]) -> Result<(), Stop<'a, P21Cause>>
    ensures { Gives (λ _. tt) result cursor.new (spec.comment false (codes_of start.now) cursor.old) }
{
    let mut star = false;
    while let Some(code) = cursor.next() {
        if star && code.is('/') {
            return Ok(());
        }
        star = code.is('*');
    }
    Err(Stop::Refused(P21Cause::Unclosed, start))
}

/// Passes the comment whose slash comes next.
#[tactic(auto, unfolding(crate::specs::Gap::slash))]
fn slash<'a>(cursor: &mut Cursor<'a>) -> Result<(), Stop<'a, P21Cause>>
    ensures { Gives (λ _. tt) result cursor.new (spec.slash cursor.old) }
{
    let at = cursor.rest();
    let _ = cursor.next();
    let Some(star) = cursor.next() else {
        return Err(Stop::Refused(P21Cause::BadToken, at));
    };
    if !star.is('*') {
        return Err(Stop::Refused(P21Cause::BadToken, at));
    }
    comment(cursor, at)
}

/// Passes one blank or comment, if one comes next.
#[inline]
#[tactic(auto, unfolding(crate::specs::Gap::gap_turn))]
fn blank_or_comment<'a>(cursor: &mut Cursor<'a>) -> Result<bool, Stop<'a, P21Cause>>
    ensures { Gives (λ more. (more, tt)) result cursor.new (spec.gap_turn tt cursor.old) }
{
    let Some(code) = cursor.peek() else {
        return Ok(false);
    };
    if code.is('/') {
        slash(cursor)?;
        return Ok(true);
    }
    if is_blank(code) {
        let _ = cursor.next();
        return Ok(true);
    }
    Ok(false)
}

/// Passes all blanks and comments that come next.
#[tactic(auto, using(reading::proofs::Each::each_laws), unfolding(crate::specs::Gap::gap))]
pub(crate) fn gap<'a>(cursor: &mut Cursor<'a>) -> Result<(), Stop<'a, P21Cause>>
    ensures { Gives (λ _. tt) result cursor.new (spec.gap cursor.old) }
{
    for _ in 0..cursor.turns() {
        if !blank_or_comment(cursor)? {
            return Ok(());
        }
    }
    Err(Stop::Refused(P21Cause::BadToken, cursor.rest()))
}
