//! Tests of the facets and of the paths along which they look: small exchange files under a cut of IFC4, what each facet
//! says of an element there, and the keys that it looks at, worked out by hand.
#![tactic(auto)]

#[cfg(test)]
mod asking;
#[cfg(test)]
mod fixtures;
#[cfg(test)]
mod own;
#[cfg(test)]
mod part_of;
#[cfg(test)]
mod property;
#[cfg(test)]
mod relations;
#[cfg(test)]
mod rows;
#[cfg(test)]
mod walks;
