//! The smallest reader of the form: `(aaa)`, letters in parentheses, with whether they are odd in number.

ghost use Rattle.std.specs.Prelude.{◌≡◌, Bool, List, ℕ, Ok, IfOk};
ghost use Rattle.reading.specs.Codes.{codes_of};
ghost use Rattle.reading.specs.Lines.{Answers, with_line};
ghost use Rattle.reading.specs.Reading.{Gives, Yields};
ghost use Rattle.reading_tests.specs.Letters as spec;

use crate::tree::Cause;
use ifc_base::Refusal;
use reading::{Cursor, Fault, Stop, answer};

/// Reads one letter or the end of the list that began at `open`; whether to go on.
#[tactic(auto, unfolding(crate::specs::Letters::turn))]
fn turn<'a>(
    cursor: &mut Cursor<'a>,
    open: &'a [u8],
    odd: &mut bool,
) -> Result<bool, Stop<'a, Cause>>
    ensures { Gives (λ more. (more, odd.new)) result cursor.new (spec.turn (codes_of open.now) odd.old cursor.old) }
{
    let at = cursor.rest();
    let Some(code) = cursor.next() else {
        return Err(Stop::Refused(Cause::Unclosed, open));
    };
    if code.is(')') {
        return Ok(false);
    }
    if code.is('a') {
        *odd = !*odd;
        return Ok(true);
    }
    Err(Stop::Refused(Cause::BadToken, at))
}

/// The letters behind the parenthesis at `open`.
#[tactic(auto, using(reading::proofs::Each::each_laws), unfolding(crate::specs::Letters::letters))]
fn letters<'a>(cursor: &mut Cursor<'a>, open: &'a [u8]) -> Result<bool, Stop<'a, Cause>>
    ensures { Gives (λ odd. odd) result cursor.new (spec.letters (codes_of open.now) cursor.old) }
{
    let mut odd = false;
    for _ in 0..cursor.turns() {
        if !turn(cursor, open, &mut odd)? {
            return Ok(odd);
        }
    }
    Err(Stop::Refused(Cause::BadToken, cursor.rest()))
}

#[tactic(auto, unfolding(crate::specs::Letters::whole))]
fn whole(bytes: &[u8]) -> Result<bool, Stop<'_, Cause>>
    ensures { Yields (λ odd. odd) result (spec.whole (codes_of bytes.now)) }
{
    let mut cursor = Cursor::new(bytes);
    let Some(code) = cursor.next() else {
        return Err(Stop::Refused(Cause::NoEnd, bytes));
    };
    if !code.is('(') {
        return Err(Stop::Refused(Cause::BadToken, bytes));
    }
    letters(&mut cursor, bytes)
}

/// Whether the letters are odd in number. What stands behind the list isn't looked at. `O(n)`.
pub fn read_letters(bytes: &[u8]) -> Result<bool, Refusal<Fault<Cause>>>
    ensures found { IfOk result (λ odd. spec.Reads bytes.now odd) }
    ensures only { (odd : Bool) → spec.Reads bytes.now odd → Answers (λ x. x) result (Ok odd) }
    ensures exact { Answers (λ x. x) result (with_line (codes_of bytes.now) (spec.whole (codes_of bytes.now))) }
{
    answer(bytes, whole(bytes))
}
