//! Tests of `decimal_fix`: worked numerals, comparisons and texts, with both sides of each edge.
#![tactic(auto)]

#[cfg(test)]
mod tests;
