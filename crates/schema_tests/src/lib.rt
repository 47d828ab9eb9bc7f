//! Tests of `schema_table` over declarations that `express_decl` reads: a schema of as many entities as IFC4 has, and the faults
//! of schemas in their order.
#![tactic(auto)]

#[cfg(test)]
mod answers;
#[cfg(test)]
mod faults;
#[cfg(test)]
mod made;
