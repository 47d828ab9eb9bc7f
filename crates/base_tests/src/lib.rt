//! Tests of `ifc_base` and `shelf_io`: each public call once, and what no clause says.
#![tactic(auto)]

#[cfg(test)]
mod outside;
#[cfg(test)]
mod values;
