//! Tests of `narrow_forms`: tables of the scripts that are taken and refused.
#![tactic(auto)]

#[cfg(test)]
mod scripts;
