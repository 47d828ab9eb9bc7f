//! Texts to which values are compared.

ghost use Rattle.std.specs.Prelude.{◌≡◌, chars};
ghost use Rattle.restrictions.specs.Admitting.{as_number, as_text, equals};

use crate::number::Number;
use decimal_fix::{equals_within, read_decimal};
use ifc_base::{Decimal, Name};
use std::marker::Model;

/// A text to which values are compared, with the number that it writes, if it is a numeral. Contracts see the text.
#[derive(Debug, Drop)]
pub(crate) struct Literal {
    text: Name,
    number: Option<Decimal>,
}

impl Model for Literal {
    ghost use Rattle.std.specs.Prelude.{◌≡◌, ℕ, List};
    ghost use Rattle.restrictions.specs.Numbers.{number_of};

    ghost Value = { List ℕ };

    ghost view = { λ literal. literal.text };

    ghost invariant = { λ literal. literal.number ≡ number_of literal.text };
}

impl Literal {
    /// The literal of this text. It takes no memory. `O(n)`.
    #[tactic(auto, unfolding(crate::specs::Numbers::number_of))]
    pub(crate) fn new(text: Name) -> Literal
        ensures { result ≡ text }
    {
        let number = read_decimal(text.as_str());
        Literal { text, number }
    }

    /// Whether the literal is a numeral that equals the number. `O(1)`.
    pub(crate) fn equals_number(&self, number: Number) -> bool
        ensures { result ≡ equals self.now (as_number number) }
    {
        match self.number {
            None => false,
            Some(literal) => match number {
                Number::Whole(_) => !literal.beyond && number.amount().units == literal.units,
                Number::Real(real) => equals_within(real, literal),
            },
        }
    }

    /// Whether the literal has the characters of the text. `O(n)`.
    pub(crate) fn equals_text(&self, text: &str) -> bool
        ensures { result ≡ equals self.now (as_text (chars text.now)) }
    {
        self.text.is(text)
    }
}
