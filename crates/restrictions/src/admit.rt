//! Which numbers and texts a condition admits.

ghost use Rattle.std.specs.Prelude.{◌≡◌, ℕ, List, chars, length, not, true, IfOk, IsTrue};
ghost use Rattle.std.specs.List.{list_any};
ghost use Rattle.restrictions.specs.Admitting.{admits_compared, as_number, as_text, asked, enumeration_text, equals};
ghost use Rattle.restrictions.specs.Admitting.{is_greater, is_less, keeps_bounds, keeps_enumeration, keeps_lengths};
ghost use Rattle.restrictions.specs.Admitting.{keeps_patterns, stands};
ghost use Rattle.restrictions.specs.Matching.{does_match};
ghost use Rattle.restrictions.specs.declared.condition.Condition.TheVariants.{Restricted};
ghost use Rattle.restrictions.specs.declared.number.Number.{Number};

use crate::condition::{Bounds, Condition, Constraints, Lengths};
use crate::literal::Literal;
use crate::number::Number;
use crate::word::is_word;
use decimal_fix::compare;
use ifc_base::{Decimal, Memory, Name};
use std::alloc::Global;
use std::cmp::Ordering;
use xsd_pattern::Pattern;

/// The text under which the name of an enumeration is compared: truth values are `true`, `false` and `unknown`.
pub(crate) fn enumeration_text(name: &Name) -> &str
    ensures { chars result.now ≡ enumeration_text name.now }
{
    if is_word(name, "T") {
        "true"
    } else if is_word(name, "F") {
        "false"
    } else if is_word(name, "U") {
        "unknown"
    } else {
        name.as_str()
    }
}

/// Where a number stands to a bound.
fn stands(number: Decimal, bound: i128) -> Ordering
    ensures { result ≡ stands number bound }
{
    compare(
        number,
        Decimal {
            units: bound,
            beyond: false,
        },
    )
}

/// Whether the number isn't below the bound, if there is one.
fn is_from(number: Decimal, bound: Option<i128>) -> bool
    ensures { result ≡ asked bound (λ b. not (is_less (stands number b))) }
{
    match bound {
        None => true,
        Some(bound) => stands(number, bound) != Ordering::Less,
    }
}

/// Whether the number isn't above the bound, if there is one.
fn is_up_to(number: Decimal, bound: Option<i128>) -> bool
    ensures { result ≡ asked bound (λ b. not (is_greater (stands number b))) }
{
    match bound {
        None => true,
        Some(bound) => stands(number, bound) != Ordering::Greater,
    }
}

/// Whether the number is above the bound, if there is one.
fn is_above(number: Decimal, bound: Option<i128>) -> bool
    ensures { result ≡ asked bound (λ b. is_greater (stands number b)) }
{
    match bound {
        None => true,
        Some(bound) => stands(number, bound) == Ordering::Greater,
    }
}

/// Whether the number is below the bound, if there is one.
fn is_below(number: Decimal, bound: Option<i128>) -> bool
    ensures { result ≡ asked bound (λ b. is_less (stands number b)) }
{
    match bound {
        None => true,
        Some(bound) => stands(number, bound) == Ordering::Less,
    }
}

impl Bounds {
    /// Whether the number keeps the bounds. `O(1)`.
    fn admit_number(&self, number: Number) -> bool
        ensures { result ≡ keeps_bounds self.now (as_number number) }
    {
        let amount = number.amount();
        is_from(amount, self.min_inclusive)
            && is_up_to(amount, self.max_inclusive)
            && is_above(amount, self.min_exclusive)
            && is_below(amount, self.max_exclusive)
    }

    /// Whether there is none, so that texts are admitted. `O(1)`.
    fn admit_texts(&self) -> bool
        ensures { (text : List ℕ) → result ≡ keeps_bounds self.now (as_text text) }
    {
        self.min_inclusive.is_none()
            && self.max_inclusive.is_none()
            && self.min_exclusive.is_none()
            && self.max_exclusive.is_none()
    }
}

/// How many characters the text has. `O(n)`.
fn count(text: &str) -> usize
    ensures { result ≡ length (chars text.now) }
{
    text.chars().count()
}

impl Lengths {
    /// Whether there is none, so that numbers are admitted. `O(1)`.
    fn admit_numbers(&self) -> bool
        ensures numbers { (number : Number) → result ≡ keeps_lengths self.now (as_number number) }
        ensures texts { IsTrue result → (text : List ℕ) → keeps_lengths self.now (as_text text) ≡ true }
    {
        self.length.is_none() && self.min_length.is_none() && self.max_length.is_none()
    }

    /// Whether a text of so many characters keeps the lengths. `O(1)`.
    fn admit_count(&self, count: usize) -> bool
        ensures { (text : List ℕ) → length text ≡ count → result ≡ keeps_lengths self.now (as_text text) }
    {
        self.length.is_none_or(|length| count == length as usize)
            && self.min_length.is_none_or(|least| least as usize <= count)
            && self.max_length.is_none_or(|most| count <= most as usize)
    }

    /// Whether the text keeps the lengths. `O(n)` if one is asked for.
    fn admit_text(&self, text: &str) -> bool
        ensures { result ≡ keeps_lengths self.now (as_text (chars text.now)) }
    {
        self.admit_numbers() || self.admit_count(count(text))
    }
}

/// Whether some of the literals equals the number.
fn any_equals_number(literals: &[Literal], number: Number) -> bool
    ensures { result ≡ list_any (λ literal. equals literal (as_number number)) literals.now }
{
    literals.iter().any(|literal| literal.equals_number(number))
}

/// Whether some of the literals equals the text.
fn any_equals_text(literals: &[Literal], text: &str) -> bool
    ensures { result ≡ list_any (λ literal. equals literal (as_text (chars text.now))) literals.now }
{
    literals.iter().any(|literal| literal.equals_text(text))
}

/// Whether the pattern matches the text.
fn does_match(alloc: Global, pattern: &Pattern, text: &str) -> Result<bool, Memory>
    ensures { IfOk result (λ answer. answer ≡ does_match pattern.now (chars text.now)) }
{
    pattern.matches(alloc, text)
}

/// Whether some of the patterns matches the text.
fn does_any_match(alloc: Global, patterns: &[Pattern], text: &str) -> Result<bool, Memory>
    ensures { IfOk result (λ answer. answer ≡ list_any (λ tree. does_match tree (chars text.now)) patterns.now) }
{
    for pattern in patterns {
        if does_match(alloc, pattern, text)? {
            return Ok(true);
        }
    }
    Ok(false)
}

impl Constraints {
    /// Whether the number is admitted. `O(e)` for `e` enumerations.
    fn admit_number(&self, number: Number) -> bool
        ensures { result ≡ admits_compared (Restricted self.now) (as_number number) }
    {
        self.bounds.admit_number(number)
            && self.lengths.admit_numbers()
            && self.enumerate_number(number)
            && self.is_without_patterns()
    }

    /// Whether a number equals some enumeration, if there is one.
    fn enumerate_number(&self, number: Number) -> bool
        ensures { result ≡ keeps_enumeration self.now (as_number number) }
    {
        let literals = self.enumeration.as_slice();
        literals.is_empty() || any_equals_number(literals, number)
    }

    /// Whether the text equals some enumeration, if there is one.
    fn enumerate_text(&self, text: &str) -> bool
        ensures { result ≡ keeps_enumeration self.now (as_text (chars text.now)) }
    {
        let literals = self.enumeration.as_slice();
        literals.is_empty() || any_equals_text(literals, text)
    }

    /// Whether there is no pattern, so that numbers are admitted. `O(1)`.
    fn is_without_patterns(&self) -> bool
        ensures { (number : Number) → result ≡ keeps_patterns self.now (as_number number) }
    {
        self.patterns.as_slice().is_empty()
    }

    /// Whether some pattern matches the text, if there is one.
    fn match_text(&self, alloc: Global, text: &str) -> Result<bool, Memory>
        ensures { IfOk result (λ answer. answer ≡ keeps_patterns self.now (as_text (chars text.now))) }
    {
        let patterns = self.patterns.as_slice();
        if patterns.is_empty() {
            Ok(true)
        } else {
            does_any_match(alloc, patterns, text)
        }
    }

    /// Whether the text is admitted.
    fn admit_text(&self, alloc: Global, text: &str) -> Result<bool, Memory>
        ensures { IfOk result (λ answer. answer ≡ admits_compared (Restricted self.now) (as_text (chars text.now))) }
    {
        if self.bounds.admit_texts() && self.lengths.admit_text(text) && self.enumerate_text(text) {
            self.match_text(alloc, text)
        } else {
            Ok(false)
        }
    }
}

impl Condition {
    /// Whether the condition admits the number. `O(e)` for `e` enumerations.
    pub(crate) fn admits_number(&self, number: Number) -> bool
        ensures { result ≡ admits_compared self.now (as_number number) }
    {
        match self {
            Condition::Simple(literal) => literal.equals_number(number),
            Condition::Restricted(constraints) => constraints.admit_number(number),
        }
    }

    /// Whether the condition admits the text. `O(e n)` for `e` enumerations and `n` characters, and the time of the
    /// patterns.
    pub(crate) fn admits_text(&self, alloc: Global, text: &str) -> Result<bool, Memory>
        ensures { IfOk result (λ answer. answer ≡ admits_compared self.now (as_text (chars text.now))) }
    {
        match self {
            Condition::Simple(literal) => Ok(literal.equals_text(text)),
            Condition::Restricted(constraints) => constraints.admit_text(alloc, text),
        }
    }
}
