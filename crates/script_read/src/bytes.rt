//! The bytes of a line, from left to right.

ghost use Rattle.std.specs.Prelude.{◌≡◌, ◌∷◌, [], ◌≤◌, ◌+◌, ◌*◌, min, MatchOption, Some};
ghost use Rattle.script_read.specs.Bytes as read;
ghost use Rattle.script_read.specs.Bytes.{Reads, first};
ghost use Rattle.script_read.specs.LineForm as spec;
ghost use Rattle.script_read.specs.Said as word;

use ifc_base::{InstId, Name, Refusal};
use std::alloc::Global;
use std::marker::Model;

/// The line has none of the forms.
#[derive(Clone, Copy, Debug, PartialEq, Eq)]
pub(crate) struct NoForm;

/// The bytes of a line that are still to be read. Contracts see them as a list.
#[derive(Drop)]
pub(crate) struct LineBytes<'a> {
    rest: &'a [u8],
}

impl<'a> Model for LineBytes<'a> {
    ghost use Rattle.std.specs.Prelude.{ℕ, List};

    ghost Value = { List ℕ };

    ghost view = { λ bytes. bytes.rest.now };
}

#[tactic(auto, unfolding(crate::specs::Said::is_blank))]
fn is_blank(byte: u8) -> bool
    ensures { result ≡ word.is_blank byte }
{
    byte == b' ' || byte == b'\t'
}

#[tactic(auto, unfolding(crate::specs::Said::is_name))]
fn is_name(byte: u8) -> bool
    ensures { result ≡ word.is_name byte }
{
    byte.is_ascii_alphabetic() || byte.is_ascii_digit() || byte == b'_'
}

impl<'a> LineBytes<'a> {
    pub(crate) fn new(line: &'a [u8]) -> LineBytes<'a>
        ensures { result ≡ line.now }
    {
        LineBytes { rest: line }
    }

    /// What is still to be read.
    pub(crate) fn rest(&self) -> &'a [u8]
        ensures { result.now ≡ self.now }
    {
        self.rest
    }

    /// The next byte, which stays.
    pub(crate) fn peek(&self) -> Option<u8>
        ensures { result ≡ first self.now }
    {
        self.rest.first().copied()
    }

    /// Takes the next byte.
    fn next(&mut self) -> Option<u8>
        ensures { MatchOption result ((self.old ≡ []) × (self.new ≡ [])) (λ byte. self.old ≡ byte ∷ self.new) }
    {
        let (first, rest) = self.rest.split_first()?;
        self.rest = rest;
        Some(*first)
    }

    /// Passes one blank.
    #[tactic(auto, unfolding(crate::specs::LineForm::behind_blank))]
    pub(crate) fn pass_blank(&mut self) -> Result<(), Refusal<NoForm>>
        ensures { Reads (λ _. self.new) result (spec.behind_blank self.old) }
    {
        match self.next() {
            Some(byte) if is_blank(byte) => Ok(()),
            _ => Err(Refusal::Fault(NoForm)),
        }
    }

    /// Passes all blanks that come next.
    #[tactic(auto, unfolding(crate::specs::LineForm::past_blanks))]
    fn pass_all_blanks(&mut self)
        ensures { self.new ≡ spec.past_blanks self.old }
    {
        while let Some(byte) = self.peek() {
            if !is_blank(byte) {
                break;
            }
            let _ = self.next();
        }
    }

    /// Passes one or more blanks.
    #[tactic(auto, unfolding(crate::specs::LineForm::spaced))]
    pub(crate) fn pass_blanks(&mut self) -> Result<(), Refusal<NoForm>>
        ensures { Reads (λ _. self.new) result (spec.spaced self.old) }
    {
        self.pass_blank()?;
        self.pass_all_blanks();
        Ok(())
    }

    /// Takes all digits that come next: the number that they write behind those that have written `start`, or 4,294,967,295.
    #[tactic(auto, unfolding(crate::specs::Bytes::counted))]
    fn digits(&mut self, start: u32) -> u32
        ensures { (result, self.new) ≡ read.counted start self.old }
    {
        let mut value = start;
        while let Some(byte) = self.peek() {
            if !byte.is_ascii_digit() {
                break;
            }
            let _ = self.next();
            value = with_digit(value, byte - b'0');
        }
        value
    }

    /// Takes a number of one or more digits; one past 4,294,967,295 is that.
    #[tactic(auto, using(crate::proofs::Numbers::number_laws))]
    fn number(&mut self) -> Result<u32, Refusal<NoForm>>
        ensures { Reads (λ n. (n, self.new)) result (read.capped_number self.old) }
    {
        match self.peek() {
            Some(byte) if byte.is_ascii_digit() => Ok(self.digits(0)),
            _ => Err(Refusal::Fault(NoForm)),
        }
    }

    /// Takes a number of one or more digits, which is all that is left; one past 4,294,967,295 is that.
    #[tactic(auto, using(crate::proofs::Numbers::last_laws))]
    pub(crate) fn last_number(&mut self) -> Result<u32, Refusal<NoForm>>
        ensures { Reads (λ n. n) result (read.last_number self.old) }
    {
        let number = self.number()?;
        match self.peek() {
            None => Ok(number),
            Some(_) => Err(Refusal::Fault(NoForm)),
        }
    }

    /// The next byte is a zero.
    pub(crate) fn begins_with_zero(&self) -> bool
        ensures { result ≡ word.begins_with 48 self.now }
    {
        match self.rest.first() {
            Some(byte) => *byte == b'0',
            None => false,
        }
    }

    /// Takes `#` and the number of an instance, from 1 to 2,147,483,647.
    #[tactic(auto, using(crate::proofs::Numbers::id_laws))]
    pub(crate) fn id(&mut self) -> Result<InstId, Refusal<NoForm>>
        ensures { Reads (λ id. (id, self.new)) result (spec.id self.old) }
    {
        let Some(sign) = self.next() else {
            return Err(Refusal::Fault(NoForm));
        };
        if sign != b'#' {
            return Err(Refusal::Fault(NoForm));
        }
        let number = self.number()?;
        match InstId::new(number) {
            Some(id) => Ok(id),
            None => Err(Refusal::Fault(NoForm)),
        }
    }

    /// Takes all letters of a name that come next.
    #[tactic(auto, unfolding(crate::specs::Bytes::gathered))]
    fn letters(&mut self, alloc: Global) -> Result<Name, Refusal<NoForm>>
        ensures { Reads (λ name. (name, self.new)) result (Some (read.gathered [] self.old)) }
    {
        let mut name = Name::new(alloc);
        while let Some(byte) = self.peek() {
            if !is_name(byte) {
                break;
            }
            let _ = self.next();
            name.push(char::from(byte)).map_err(|back| back.0)?;
        }
        Ok(name)
    }

    /// Takes the name of an attribute.
    #[tactic(auto, using(crate::proofs::Names::attribute_laws))]
    pub(crate) fn attribute(&mut self, alloc: Global) -> Result<Name, Refusal<NoForm>>
        ensures { Reads (λ name. (name, self.new)) result (spec.attribute self.old) }
    {
        let Some(byte) = self.peek() else {
            return Err(Refusal::Fault(NoForm));
        };
        if byte.is_ascii_digit() {
            return Err(Refusal::Fault(NoForm));
        }
        if !is_name(byte) {
            return Err(Refusal::Fault(NoForm));
        }
        self.letters(alloc)
    }

    /// Nothing is left.
    pub(crate) fn end(&self) -> Result<(), Refusal<NoForm>>
        ensures { Reads (λ _. tt) result (read.ending self.now) }
    {
        match self.rest.is_empty() {
            true => Ok(()),
            false => Err(Refusal::Fault(NoForm)),
        }
    }
}

/// The number with one more digit, or 4,294,967,295.
fn with_digit(value: u32, digit: u8) -> u32
    requires { digit ≤ 9 }
    ensures { result ≡ min (10 * value + digit) 0xFFFF_FFFF }
{
    value.saturating_mul(10).saturating_add(u32::from(digit))
}
