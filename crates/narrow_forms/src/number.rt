//! Numbers of a script.

ghost use Rattle.std.specs.Prelude.{◌≡◌, ◌∷◌, [], ◌<◌, ◌≤◌, ◌^◌, MatchOption, IfOk};
ghost use Rattle.narrow_forms.specs.Number as spec;
ghost use Rattle.narrow_forms.specs.Number.{Reads};

use ifc_base::{InstId, Refusal};
use std::marker::Model;

/// What is read isn't of its form.
#[derive(Clone, Copy, Debug, PartialEq, Eq)]
pub(crate) struct OtherForm;

/// The bytes of a line that are still to be read. Contracts see them as a list.
#[derive(Drop)]
struct LineBytes<'a> {
    rest: &'a [u8],
}

impl<'a> Model for LineBytes<'a> {
    ghost use Rattle.std.specs.Prelude.{ℕ, List};

    ghost Value = { List ℕ };

    ghost view = { λ bytes. bytes.rest.now };
}

impl<'a> LineBytes<'a> {
    fn new(line: &'a [u8]) -> LineBytes<'a>
        ensures { result ≡ line.now }
    {
        LineBytes { rest: line }
    }

    /// The next byte, which stays.
    fn peek(&self) -> Option<u8>
        ensures { result ≡ spec.first self.now }
    {
        self.rest.first().copied()
    }

    /// Takes the next byte.
    fn next(&mut self) -> Option<u8>
        ensures { MatchOption result ((self.old ≡ []) × (self.new ≡ [])) (λ byte. self.old ≡ byte ∷ self.new) }
    {
        let (first, rest) = self.rest.split_first()?;
        self.rest = rest;
        Some(*first)
    }
}

/// A number of digits without a leading zero, below 2^31.
#[tactic(auto, unfolding(crate::specs::Number::digits))]
fn digits(bytes: &mut LineBytes<'_>, first: u8) -> Result<u32, Refusal<OtherForm>>
    requires { first < 10 }
    ensures value { Reads (λ n. (n, bytes.new)) result (spec.digits first bytes.old) }
    ensures bounds { IfOk result (λ n. (first ≤ n) × (n < 2 ^ 31)) }
{
    let mut value = u64::from(first);
    while let Some(byte) = bytes.peek() {
        if !byte.is_ascii_digit() {
            break;
        }
        let _ = bytes.next();
        value = 10 * value + u64::from(byte - b'0');
        if value >= 2_147_483_648 {
            return Err(Refusal::Fault(OtherForm));
        }
    }
    Ok(value as u32)
}

/// An id: digits without a leading zero, below 2^31.
#[tactic(auto, unfolding(crate::specs::Number::number))]
fn number(bytes: &mut LineBytes<'_>) -> Result<InstId, Refusal<OtherForm>>
    ensures { Reads (λ id. (id, bytes.new)) result (spec.number bytes.old) }
{
    let first = match bytes.next() {
        Some(byte) if byte.is_ascii_digit() && byte != b'0' => byte - b'0',
        _ => return Err(Refusal::Fault(OtherForm)),
    };
    let number = digits(bytes, first)?;
    InstId::new(number).ok_or(Refusal::Fault(OtherForm))
}

/// The number that is all of the text, as an id. `O(length of the text)`.
#[tactic(auto, unfolding(crate::specs::Number::number_of))]
pub(crate) fn read_number(text: &[u8]) -> Result<InstId, Refusal<OtherForm>>
    ensures { Reads (λ id. id) result (spec.number_of text.now) }
{
    let mut bytes = LineBytes::new(text);
    let id = number(&mut bytes)?;
    if bytes.peek().is_some() {
        return Err(Refusal::Fault(OtherForm));
    }
    Ok(id)
}
