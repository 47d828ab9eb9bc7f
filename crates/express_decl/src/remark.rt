//! Blanks and remarks.

ghost use Rattle.std.specs.Prelude.{◌≡◌, true, false};
ghost use Rattle.reading.specs.Codes.{codes_of, code_of};
ghost use Rattle.reading.specs.Reading.{Gives};
ghost use Rattle.express_decl.specs.Tokens as spec;

use crate::decl::DeclCause;
use reading::{Code, Cursor, Stop};
use std::alloc::Global;

/// Remarks that are open: where the innermost began, and where those around it did, the innermost of them last.
#[derive(Drop)]
pub(crate) struct OpenRemarks<'a> {
    pub innermost: &'a [u8],
    pub outer: Vec<&'a [u8]>,
}

#[tactic(auto, unfolding(crate::specs::Tokens::is_blank))]
fn is_blank(code: Code) -> bool
    ensures { result ≡ spec.is_blank (code_of code) }
{
    code.is(' ') || code.is('\t') || code.is('\n') || code.is('\r')
}

/// Whether this character comes next.
#[tactic(auto, unfolding(crate::specs::Tokens::next_is))]
fn next_is(cursor: &Cursor<'_>, wanted: char) -> bool
    ensures { result ≡ spec.next_is wanted cursor.now }
{
    match cursor.peek() {
        Some(code) => code.is(wanted),
        None => false,
    }
}

/// Passes the rest of a remark that ends with its line.
#[tactic(auto, unfolding(crate::specs::Tokens::tail_remark))]
fn tail_remark(cursor: &mut Cursor<'_>)
    ensures { cursor.new ≡ spec.tail_remark cursor.old }
{
    while let Some(code) = cursor.next() {
        if code.is('\n') {
            return;
        }
    }
}

/// Behind the end of the innermost remark: whether another is still open.
#[tactic(auto, using(crate::proofs::Places::place_laws))]
fn close(opened: &mut OpenRemarks<'_>) -> bool
    ensures { (result, spec.remarks_view opened.new) ≡ spec.remark_closed (codes_of opened.old.innermost.now)
        (spec.places opened.old.outer.items) }
{
    match opened.outer.pop() {
        None => false,
        Some(around) => {
            opened.innermost = around;
            true
        }
    }
}

/// Passes one piece within remarks; whether one is still open.
#[tactic(auto, using(crate::proofs::Places::place_laws), unfolding(crate::specs::Tokens::remark_turn))]
fn remark_piece<'a>(
    cursor: &mut Cursor<'a>,
    opened: &mut OpenRemarks<'a>,
) -> Result<bool, Stop<'a, DeclCause>>
    ensures { Gives (λ more. (more, spec.remarks_view opened.new)) result cursor.new (spec.remark_turn
        (spec.remarks_view opened.old) cursor.old) }
{
    let at = cursor.rest();
    let Some(code) = cursor.next() else {
        return Err(Stop::Refused(DeclCause::Unclosed, opened.innermost));
    };
    if code.is('(') && next_is(cursor, '*') {
        let _ = cursor.next();
        opened.outer.push(opened.innermost)?;
        opened.innermost = at;
        return Ok(true);
    }
    if code.is('*') && next_is(cursor, ')') {
        let _ = cursor.next();
        return Ok(close(opened));
    }
    Ok(true)
}

/// Passes the rest of the remark that began at `start`, with those within it.
#[tactic(auto, using(crate::proofs::Places::remark_laws), unfolding(crate::specs::Tokens::remark))]
fn remark<'a>(
    alloc: Global,
    cursor: &mut Cursor<'a>,
    start: &'a [u8],
) -> Result<(), Stop<'a, DeclCause>>
    ensures { Gives (λ _. tt) result cursor.new (spec.remark (codes_of start.now) cursor.old) }
{
    let mut opened = OpenRemarks {
        innermost: start,
        outer: Vec::new(alloc),
    };
    for _ in 0..cursor.turns() {
        if !remark_piece(cursor, &mut opened)? {
            return Ok(());
        }
    }
    Err(Stop::Refused(DeclCause::Unclosed, cursor.rest()))
}

/// Passes one blank or remark, if one comes next.
#[tactic(auto, using(crate::proofs::Places::place_laws), unfolding(crate::specs::Tokens::gap_turn))]
fn blank_or_remark<'a>(alloc: Global, cursor: &mut Cursor<'a>) -> Result<bool, Stop<'a, DeclCause>>
    ensures { Gives (λ more. (more, tt)) result cursor.new (spec.gap_turn tt cursor.old) }
{
    let at = cursor.rest();
    let mut ahead = Cursor::new(at);
    let Some(code) = ahead.next() else {
        return Ok(false);
    };
    if is_blank(code) {
        let _ = cursor.next();
        return Ok(true);
    }
    if code.is('-') && next_is(&ahead, '-') {
        let _ = cursor.next();
        let _ = cursor.next();
        tail_remark(cursor);
        return Ok(true);
    }
    if code.is('(') && next_is(&ahead, '*') {
        let _ = cursor.next();
        let _ = cursor.next();
        remark(alloc, cursor, at)?;
        return Ok(true);
    }
    Ok(false)
}

/// Passes all blanks and remarks that come next.
#[tactic(auto, using(reading::proofs::Each::each_laws), unfolding(crate::specs::Tokens::gap))]
pub(crate) fn gap<'a>(alloc: Global, cursor: &mut Cursor<'a>) -> Result<(), Stop<'a, DeclCause>>
    ensures { Gives (λ _. tt) result cursor.new (spec.gap cursor.old) }
{
    for _ in 0..cursor.turns() {
        if !blank_or_remark(alloc, cursor)? {
            return Ok(());
        }
    }
    Err(Stop::Refused(DeclCause::Unexpected, cursor.rest()))
}
