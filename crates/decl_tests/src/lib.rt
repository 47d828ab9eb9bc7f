//! Tests of `express_decl`: worked declarations, each form of an entity, a type and a block, and each fault with its line.
#![tactic(auto)]

#[cfg(test)]
mod sizes;
#[cfg(test)]
mod tests;
