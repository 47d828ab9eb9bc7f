//! Tests of `ids_reader`: tables of what is read and what is refused, member by member and cause by cause, the limits,
//! and what a document with all six facets says.
#![tactic(auto)]

#[cfg(test)]
mod cases;
#[cfg(test)]
mod fixtures;
#[cfg(test)]
mod limits;
#[cfg(test)]
mod meaning;
