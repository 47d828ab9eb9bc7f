//! Blanks and comments.

ghost use Rattle.std.specs.Prelude.{◌≡◌, true, false, ℕ, List, Some, Ok, IfOk, IfErr, if◌then◌else◌};
ghost use Rattle.reading.specs.Reading.{Gives, refuse, ascii};
ghost use Rattle.reading_tests.specs.Nest as spec;
ghost use Rattle.reading_tests.specs.declared.tree.Cause.TheVariants.{Unclosed};

use crate::tree::Cause;
use reading::{Class, Code, Cursor, Stop};

/// All but a star.
struct NoStar;

impl Class for NoStar {
    ghost has_code = { λ _ c. spec.is_no_star c };

    fn has(&self, code: Code) -> bool {
        !code.is('*')
    }
}

/// Passes the rest of a comment, whatever its bytes are; whether it ends.
#[tactic(auto, using(crate::proofs::Comments::comment_laws), unfolding(crate::specs::Nest::comment))]
#[inline(always)]
fn comment(cursor: &mut Cursor<'_>) -> bool
    ensures { (start : List ℕ) → spec.comment false start cursor.old ≡ (if result then Ok (tt, cursor.new)
        else refuse Unclosed start) }
{
    let mut here = Cursor::new(cursor.rest());
    let mut star = false;
    while let Some(code) = here.next() {
        if star && code.is('/') {
            *cursor = here;
            return true;
        }
        star = code.is('*');
        if !star {
            here.pass_run(&NoStar);
        }
    }
    false
}

/// Passes the comment that begins with the slash that stands next, or tells why none does. It comes seldom, so it stands apart,
/// and what it answers comes back in registers.
#[tactic(auto, unfolding(crate::specs::Nest::gap_turn))]
#[inline(never)]
fn slash(cursor: &mut Cursor<'_>) -> Result<(), Cause>
    requires { ascii cursor.old ≡ Some 47 }
    ensures passed { IfOk result (λ _. spec.gap_turn tt cursor.old ≡ Ok ((true, tt), cursor.new)) }
    ensures refused { IfErr result (λ why. spec.gap_turn tt cursor.old ≡ refuse why cursor.old) }
{
    cursor.pass_ascii();
    let Some(b'*') = cursor.ascii() else {
        return Err(Cause::BadToken);
    };
    cursor.pass_ascii();
    if comment(cursor) {
        Ok(())
    } else {
        Err(Cause::Unclosed)
    }
}

/// Whether it is a space, a tab, a line feed or a carriage return.
#[inline(always)]
#[tactic(auto, unfolding(crate::specs::Nest::is_blank))]
fn is_blank(byte: u8) -> bool
    ensures { result ≡ spec.is_blank byte }
{
    byte == b' ' || byte == b'\t' || byte == b'\n' || byte == b'\r'
}

/// Passes all blanks and comments that come next; which character of ASCII stands behind them, if one does. What goes to `slash`
/// is a copy of the cursor, so that the caller's stays in registers.
#[tactic(auto, using(crate::proofs::Gaps::gap_laws))]
#[inline(always)]
pub(crate) fn gap<'a>(cursor: &mut Cursor<'a>) -> Result<Option<u8>, Stop<'a, Cause>>
    ensures passed { Gives (λ _. tt) result cursor.new (spec.gap cursor.old) }
    ensures next { IfOk result (λ next. next ≡ ascii cursor.new) }
{
    while let Some(byte) = cursor.ascii() {
        if is_blank(byte) {
            cursor.pass_ascii();
        } else if byte == b'/' {
            let at = cursor.rest();
            let mut here = Cursor::new(at);
            match slash(&mut here) {
                Ok(()) => *cursor = here,
                Err(why) => return Err(Stop::Refused(why, at)),
            }
        } else {
            return Ok(Some(byte));
        }
    }
    Ok(None)
}
