//! Integers, reals and the numbers of instances.

ghost use Rattle.std.specs.Prelude.{◌≡◌, ◌≤◌, ◌^◌, [], true, IfOk, OnOk, encode_utf8_all};
ghost use Rattle.std.specs.Char.{is_ascii_digit};
ghost use Rattle.reading.specs.Codes.{codes_of, code_of};
ghost use Rattle.reading.specs.Reading.{Gives};
ghost use Rattle.reading.specs.Runs.{begins};
ghost use Rattle.p21_read.specs.Numbers as spec;
ghost use Rattle.p21_read.specs.Words.{gather, of_class};

use crate::fault::P21Cause;
use crate::quoted::add;
use decimal_fix::read_decimal;
use ifc_base::{Decimal, Memory, Name};
use reading::{Code, Cursor, Stop};
use std::alloc::Global;

/// A number.
#[derive(Clone, Copy)]
pub(crate) enum Number {
    Int(i64),
    Real(Decimal),
}

/// Digits, as far as they tell.
#[derive(Clone, Copy)]
pub(crate) struct Digits {
    /// How many; past 19 it is 19.
    pub count: u8,
    /// The number that they write; past 10^18 it is 10^18.
    pub value: u64,
}

const MOST: u64 = 1_000_000_000_000_000_000;

pub(crate) const NO_DIGITS: Digits = Digits { count: 0, value: 0 };

/// One digit more.
pub(crate) fn with_digit(so_far: Digits, c: char) -> Digits
    requires digit { is_ascii_digit c ≡ true }
    requires bounds { (so_far.count ≤ 19) × (so_far.value ≤ 10 ^ 18) }
    ensures value { result ≡ spec.with_digit so_far c }
    ensures bounds { (result.count ≤ 19) × (result.value ≤ 10 ^ 18) }
{
    Digits {
        count: (so_far.count + 1).min(19),
        value: (10 * so_far.value + u64::from(c as u32 - 48)).min(MOST),
    }
}

/// The character, if it is a digit.
fn in_digits(code: Code) -> Option<char>
    ensures { result ≡ of_class is_ascii_digit (code_of code) }
{
    let c = code.char()?;
    if c.is_ascii_digit() {
        return Some(c);
    }
    None
}

/// The character, if numerals are made of it.
fn in_numeral(code: Code) -> Option<char>
    ensures { result ≡ of_class spec.is_numeral (code_of code) }
{
    let c = code.char()?;
    if c.is_ascii_digit() || c == '.' || c == '+' || c == '-' || c == 'E' || c == 'e' {
        return Some(c);
    }
    None
}

/// The digits that come next, behind those so far.
#[tactic(auto, unfolding(crate::specs::Numbers::digits))]
fn more_digits(cursor: &mut Cursor<'_>, so_far: Digits) -> Digits
    requires { (so_far.count ≤ 19) × (so_far.value ≤ 10 ^ 18) }
    ensures value { spec.digits so_far cursor.old ≡ (result, cursor.new) }
    ensures bounds { (result.count ≤ 19) × (result.value ≤ 10 ^ 18) }
{
    let mut found = so_far;
    while let Some(code) = cursor.peek() {
        let Some(c) = in_digits(code) else {
            return found;
        };
        let _ = cursor.next();
        found = with_digit(found, c);
    }
    found
}

/// Adds the characters of the numeral that come next.
#[tactic(auto, using(crate::proofs::Ascii::ascii_laws), unfolding(crate::specs::Words::gather))]
fn rest_of_numeral(cursor: &mut Cursor<'_>, numeral: &mut Name) -> Result<(), Memory>
    requires { encode_utf8_all numeral.old ≡ numeral.old }
    ensures text { OnOk result (gather spec.is_numeral (λ c. c) numeral.old cursor.old ≡ (numeral.new, cursor.new)) }
    ensures ascii { OnOk result (encode_utf8_all numeral.new ≡ numeral.new) }
{
    while let Some(code) = cursor.peek() {
        let Some(c) = in_numeral(code) else {
            return Ok(());
        };
        let _ = cursor.next();
        add(numeral, c)?;
    }
    Ok(())
}

/// The real that begins at `at`.
#[tactic(auto, using(crate::proofs::Ascii::ascii_laws), unfolding(crate::specs::Numbers::real))]
pub(crate) fn real<'a>(
    alloc: Global,
    cursor: &mut Cursor<'a>,
    at: &'a [u8],
) -> Result<Number, Stop<'a, P21Cause>>
    ensures { Gives (λ n. n) result cursor.new (spec.real (codes_of at.now)) }
{
    *cursor = Cursor::new(at);
    let mut numeral = Name::new(alloc);
    rest_of_numeral(cursor, &mut numeral)?;
    match read_decimal(numeral.as_str()) {
        Some(number) => Ok(Number::Real(number)),
        None => Err(Stop::Refused(P21Cause::BadToken, at)),
    }
}

/// The integer of these digits.
#[tactic(auto, unfolding(crate::specs::Numbers::int))]
fn int<'a>(
    cursor: &Cursor<'a>,
    at: &'a [u8],
    negative: bool,
    found: Digits,
) -> Result<Number, Stop<'a, P21Cause>>
    requires { (found.count ≤ 19) × (found.value ≤ 10 ^ 18) }
    ensures { Gives (λ n. n) result cursor.now (spec.int (codes_of at.now) negative (found, cursor.now)) }
{
    if found.count == 0 || found.count > 18 {
        return Err(Stop::Refused(P21Cause::BadToken, at));
    }
    let value = found.value as i64;
    if negative {
        return Ok(Number::Int(0 - value));
    }
    Ok(Number::Int(value))
}

/// Whether the numeral goes on.
#[tactic(auto, using(reading::proofs::RunLaws::run_laws))]
fn goes_on(cursor: &Cursor<'_>) -> bool
    ensures { result ≡ begins spec.is_numeral cursor.now }
{
    match cursor.peek() {
        None => false,
        Some(code) => in_numeral(code).is_some(),
    }
}

/// The number that begins at `at`, with its sign and these digits.
#[tactic(auto, unfolding(crate::specs::Numbers::number))]
pub(crate) fn read_number<'a>(
    alloc: Global,
    cursor: &mut Cursor<'a>,
    at: &'a [u8],
    negative: bool,
    so_far: Digits,
) -> Result<Number, Stop<'a, P21Cause>>
    requires { (so_far.count ≤ 19) × (so_far.value ≤ 10 ^ 18) }
    ensures { Gives (λ n. n) result cursor.new
        (spec.number (codes_of at.now) negative (spec.digits so_far cursor.old)) }
{
    let found = more_digits(cursor, so_far);
    if goes_on(cursor) {
        return real(alloc, cursor, at);
    }
    int(cursor, at, negative, found)
}

/// The number behind the `#` at `at`.
#[tactic(auto, unfolding(crate::specs::Numbers::id))]
pub(crate) fn id<'a>(cursor: &mut Cursor<'a>, at: &'a [u8]) -> Result<u32, Stop<'a, P21Cause>>
    ensures { Gives (λ n. n) result cursor.new (spec.id (codes_of at.now) (spec.digits spec.no_digits cursor.old)) }
{
    let found = more_digits(cursor, NO_DIGITS);
    if found.count == 0 {
        return Err(Stop::Refused(P21Cause::BadToken, at));
    }
    Ok(found.value.min(0xFFFF_FFFF) as u32)
}
