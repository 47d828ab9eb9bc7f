//! Strings in quotes, behind whose first quote, at `at`, the cursor stands.

ghost use Rattle.std.specs.Prelude.{◌≡◌, ◌<◌, ◌≤◌, ◌∷◌, ◌++◌, [], IfOk, OnOk};
ghost use Rattle.reading.specs.Codes.{codes_of};
ghost use Rattle.reading.specs.Reading.{Gives};
ghost use Rattle.p21_read.specs.Quoted as spec;

use crate::fault::P21Cause;
use ifc_base::{Memory, Name};
use reading::{Cursor, Stop};
use std::alloc::Global;

/// Adds a character at the end.
#[inline]
pub(crate) fn add(out: &mut Name, c: char) -> Result<(), Memory>
    ensures { OnOk result (out.new ≡ out.old ++ c ∷ []) }
{
    match out.push(c) {
        Ok(()) => Ok(()),
        Err(_) => Err(Memory),
    }
}

/// The next character of the string.
#[inline]
#[tactic(auto, unfolding(crate::specs::Quoted::next))]
fn next<'a>(cursor: &mut Cursor<'a>, at: &'a [u8]) -> Result<char, Stop<'a, P21Cause>>
    ensures { Gives (λ c. c) result cursor.new (spec.next (codes_of at.now) cursor.old) }
{
    let Some(code) = cursor.next() else {
        return Err(Stop::Refused(P21Cause::Unclosed, at));
    };
    match code.char() {
        Some(c) => Ok(c),
        None => Err(Stop::Refused(P21Cause::BadText, at)),
    }
}

/// Takes this character and no other.
#[tactic(auto, unfolding(crate::specs::Quoted::exactly))]
fn exactly<'a>(
    wanted: char,
    cursor: &mut Cursor<'a>,
    at: &'a [u8],
) -> Result<(), Stop<'a, P21Cause>>
    ensures { Gives (λ _. tt) result cursor.new (spec.exactly wanted (codes_of at.now) cursor.old) }
{
    if next(cursor, at)? != wanted {
        return Err(Stop::Refused(P21Cause::BadDirective, at));
    }
    Ok(())
}

/// The number that one hexadecimal digit writes.
#[tactic(auto, unfolding(crate::specs::Quoted::hex))]
fn hex<'a>(cursor: &mut Cursor<'a>, at: &'a [u8]) -> Result<u32, Stop<'a, P21Cause>>
    ensures value { Gives (λ n. n) result cursor.new (spec.hex (codes_of at.now) cursor.old) }
    ensures small { IfOk result (λ n. n < 16) }
{
    let c = next(cursor, at)?;
    match c.to_digit(16) {
        Some(digit) => Ok(digit),
        None => Err(Stop::Refused(P21Cause::BadDirective, at)),
    }
}

/// The number that two digits write.
#[tactic(auto, unfolding(crate::specs::Quoted::byte))]
fn byte<'a>(cursor: &mut Cursor<'a>, at: &'a [u8]) -> Result<u32, Stop<'a, P21Cause>>
    ensures value { Gives (λ n. n) result cursor.new (spec.byte (codes_of at.now) cursor.old) }
    ensures small { IfOk result (λ n. n < 256) }
{
    let high = hex(cursor, at)?;
    let low = hex(cursor, at)?;
    Ok(16 * high + low)
}

/// The number that four digits write.
#[tactic(auto, unfolding(crate::specs::Quoted::unit))]
fn unit<'a>(cursor: &mut Cursor<'a>, at: &'a [u8]) -> Result<u32, Stop<'a, P21Cause>>
    ensures value { Gives (λ n. n) result cursor.new (spec.unit (codes_of at.now) cursor.old) }
    ensures small { IfOk result (λ n. n < 65536) }
{
    let high = byte(cursor, at)?;
    let low = byte(cursor, at)?;
    Ok(256 * high + low)
}

/// The number that eight digits write.
#[tactic(auto, unfolding(crate::specs::Quoted::long))]
fn long<'a>(cursor: &mut Cursor<'a>, at: &'a [u8]) -> Result<u32, Stop<'a, P21Cause>>
    ensures { Gives (λ n. n) result cursor.new (spec.long (codes_of at.now) cursor.old) }
{
    let high = unit(cursor, at)?;
    let low = unit(cursor, at)?;
    Ok(65536 * high + low)
}

/// Adds the character of this code.
#[tactic(auto, unfolding(crate::specs::Quoted::put))]
fn put<'a>(
    cursor: &Cursor<'a>,
    at: &'a [u8],
    out: &mut Name,
    code: u32,
) -> Result<(), Stop<'a, P21Cause>>
    ensures { Gives (λ _. out.new) result cursor.now (spec.put (codes_of at.now) out.old code cursor.now) }
{
    match char::from_u32(code) {
        Some(c) => {
            add(out, c)?;
            Ok(())
        }
        None => Err(Stop::Refused(P21Cause::BadDirective, at)),
    }
}

/// Adds the character of a surrogate pair, of whose two halves the second comes next.
#[tactic(auto, unfolding(crate::specs::Quoted::second_half))]
fn second_half<'a>(
    cursor: &mut Cursor<'a>,
    at: &'a [u8],
    out: &mut Name,
    high: u32,
) -> Result<(), Stop<'a, P21Cause>>
    requires { (0xD800 ≤ high) × (high < 0xDC00) }
    ensures { Gives (λ _. out.new) result cursor.new (spec.second_half (codes_of at.now) out.old high cursor.old) }
{
    let low = unit(cursor, at)?;
    if !(0xDC00..0xE000).contains(&low) {
        return Err(Stop::Refused(P21Cause::BadDirective, at));
    }
    let code = 0x10000 + (high - 0xD800) * 0x400 + (low - 0xDC00);
    put(cursor, at, out, code)
}

/// Adds the character of a group of four digits, or of two that are a surrogate pair.
#[tactic(auto, unfolding(crate::specs::Quoted::four))]
fn four<'a>(cursor: &mut Cursor<'a>, at: &'a [u8], out: &mut Name) -> Result<(), Stop<'a, P21Cause>>
    ensures { Gives (λ _. out.new) result cursor.new (spec.four (codes_of at.now) out.old cursor.old) }
{
    let code = unit(cursor, at)?;
    if (0xD800..0xDC00).contains(&code) {
        return second_half(cursor, at, out, code);
    }
    put(cursor, at, out, code)
}

/// Adds the character of a group of eight digits.
#[tactic(auto, unfolding(crate::specs::Quoted::eight))]
fn eight<'a>(
    cursor: &mut Cursor<'a>,
    at: &'a [u8],
    out: &mut Name,
) -> Result<(), Stop<'a, P21Cause>>
    ensures { Gives (λ _. out.new) result cursor.new (spec.eight (codes_of at.now) out.old cursor.old) }
{
    let code = long(cursor, at)?;
    put(cursor, at, out, code)
}

/// Adds the character of one group.
fn group<'a>(
    is_long: bool,
    cursor: &mut Cursor<'a>,
    at: &'a [u8],
    out: &mut Name,
) -> Result<(), Stop<'a, P21Cause>>
    ensures { Gives (λ _. out.new) result cursor.new (spec.group is_long (codes_of at.now) out.old cursor.old) }
{
    if is_long {
        return eight(cursor, at, out);
    }
    four(cursor, at, out)
}

/// Passes the rest of `\X0\`.
#[tactic(auto, unfolding(crate::specs::Quoted::groups_end))]
fn groups_end<'a>(
    cursor: &mut Cursor<'a>,
    at: &'a [u8],
    out: &mut Name,
) -> Result<bool, Stop<'a, P21Cause>>
    ensures { Gives (λ more. (more, out.new)) result cursor.new (spec.groups_end (codes_of at.now) out.old cursor.old) }
{
    exactly('X', cursor, at)?;
    exactly('0', cursor, at)?;
    exactly('\\', cursor, at)?;
    Ok(false)
}

/// Adds the character of a further group, or passes the end of the groups; whether to go on.
#[tactic(auto, unfolding(crate::specs::Quoted::groups_turn))]
fn groups_turn<'a>(
    is_long: bool,
    cursor: &mut Cursor<'a>,
    at: &'a [u8],
    out: &mut Name,
) -> Result<bool, Stop<'a, P21Cause>>
    ensures { Gives (λ more. (more, out.new)) result cursor.new
        (spec.groups_turn is_long (codes_of at.now) out.old cursor.old) }
{
    let Some(code) = cursor.peek() else {
        return Err(Stop::Refused(P21Cause::Unclosed, at));
    };
    if code.is('\\') {
        let _ = cursor.next();
        return groups_end(cursor, at, out);
    }
    group(is_long, cursor, at, out)?;
    Ok(true)
}

/// The groups behind `\X2` or `\X4`, up to the end of `\X0\`.
#[tactic(auto, using(reading::proofs::Each::each_laws), unfolding(crate::specs::Quoted::groups))]
fn groups<'a>(
    is_long: bool,
    cursor: &mut Cursor<'a>,
    at: &'a [u8],
    out: &mut Name,
) -> Result<(), Stop<'a, P21Cause>>
    ensures { Gives (λ _. out.new) result cursor.new (spec.groups is_long (codes_of at.now) out.old cursor.old) }
{
    exactly('\\', cursor, at)?;
    group(is_long, cursor, at, out)?;
    for _ in 0..cursor.turns() {
        if !groups_turn(is_long, cursor, at, out)? {
            return Ok(());
        }
    }
    Err(Stop::Refused(P21Cause::BadToken, cursor.rest()))
}

/// What stands behind `\X`.
#[tactic(auto, unfolding(crate::specs::Quoted::coded))]
fn coded<'a>(
    cursor: &mut Cursor<'a>,
    at: &'a [u8],
    out: &mut Name,
) -> Result<(), Stop<'a, P21Cause>>
    ensures { Gives (λ _. out.new) result cursor.new (spec.coded (codes_of at.now) out.old cursor.old) }
{
    match next(cursor, at)? {
        '\\' => {
            let code = byte(cursor, at)?;
            put(cursor, at, out, code)
        }
        '2' => groups(false, cursor, at, out),
        '4' => groups(true, cursor, at, out),
        _ => Err(Stop::Refused(P21Cause::BadDirective, at)),
    }
}

/// What stands behind `\S`.
#[tactic(auto, unfolding(crate::specs::Quoted::shifted))]
fn shifted<'a>(
    cursor: &mut Cursor<'a>,
    at: &'a [u8],
    out: &mut Name,
) -> Result<(), Stop<'a, P21Cause>>
    ensures { Gives (λ _. out.new) result cursor.new (spec.shifted (codes_of at.now) out.old cursor.old) }
{
    exactly('\\', cursor, at)?;
    let c = next(cursor, at)?;
    put(cursor, at, out, c as u32 + 128)
}

/// What stands behind `\P`.
#[tactic(auto, unfolding(crate::specs::Quoted::page))]
fn page<'a>(cursor: &mut Cursor<'a>, at: &'a [u8], out: &mut Name) -> Result<(), Stop<'a, P21Cause>>
    ensures { Gives (λ _. out.new) result cursor.new (spec.page (codes_of at.now) out.old cursor.old) }
{
    let c = next(cursor, at)?;
    if c == 'A' {
        return exactly('\\', cursor, at);
    }
    if c.is_ascii_alphabetic() {
        return Err(Stop::Refused(P21Cause::OtherPage, at));
    }
    Err(Stop::Refused(P21Cause::BadDirective, at))
}

/// What stands behind a backslash.
#[tactic(auto, unfolding(crate::specs::Quoted::directive))]
fn directive<'a>(
    cursor: &mut Cursor<'a>,
    at: &'a [u8],
    out: &mut Name,
) -> Result<(), Stop<'a, P21Cause>>
    ensures { Gives (λ _. out.new) result cursor.new (spec.directive (codes_of at.now) out.old cursor.old) }
{
    match next(cursor, at)? {
        '\\' => {
            add(out, '\\')?;
            Ok(())
        }
        'X' => coded(cursor, at, out),
        'S' => shifted(cursor, at, out),
        'P' => page(cursor, at, out),
        _ => Err(Stop::Refused(P21Cause::BadDirective, at)),
    }
}

/// What stands behind a quote; whether to go on.
#[tactic(auto, unfolding(crate::specs::Quoted::quote))]
fn quote<'a>(cursor: &mut Cursor<'a>, out: &mut Name) -> Result<bool, Stop<'a, P21Cause>>
    ensures { Gives (λ more. (more, out.new)) result cursor.new (spec.quote out.old cursor.old) }
{
    let Some(code) = cursor.peek() else {
        return Ok(false);
    };
    if code.is('\'') {
        let _ = cursor.next();
        add(out, '\'')?;
        return Ok(true);
    }
    Ok(false)
}

/// Adds what one character or directive stands for; whether to go on.
#[inline]
#[tactic(auto, unfolding(crate::specs::Quoted::piece))]
fn piece<'a>(
    cursor: &mut Cursor<'a>,
    at: &'a [u8],
    out: &mut Name,
) -> Result<bool, Stop<'a, P21Cause>>
    ensures { Gives (λ more. (more, out.new)) result cursor.new (spec.piece (codes_of at.now) out.old cursor.old) }
{
    let c = next(cursor, at)?;
    if c == '\'' {
        return quote(cursor, out);
    }
    if c == '\\' {
        directive(cursor, at, out)?;
        return Ok(true);
    }
    if (c as u32) < 32 {
        return Ok(true);
    }
    add(out, c)?;
    Ok(true)
}

/// The characters of the string, whose directives are decoded.
#[tactic(auto, using(reading::proofs::Each::each_laws), unfolding(crate::specs::Quoted::text))]
pub(crate) fn text<'a>(
    alloc: Global,
    cursor: &mut Cursor<'a>,
    at: &'a [u8],
) -> Result<Name, Stop<'a, P21Cause>>
    ensures { Gives (λ name. name) result cursor.new (spec.text (codes_of at.now) cursor.old) }
{
    let mut out = Name::new(alloc);
    for _ in 0..cursor.turns() {
        if !piece(cursor, at, &mut out)? {
            return Ok(out);
        }
    }
    Err(Stop::Refused(P21Cause::BadToken, cursor.rest()))
}
