//! Decimal numbers in whole units of 10^-15: the reading and writing of numerals, equality within a tolerance, and order.
#![tactic(auto)]

mod laws;
mod leading;
mod literal;
mod numeral;
mod read;
mod units;
mod write;

pub use laws::{numerals, rounding, writing_back};
pub use literal::{compare, equals_within};
pub use read::read_decimal;
pub use write::write_decimal;
