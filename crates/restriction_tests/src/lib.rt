//! Tests of `restrictions`: worked conditions with values of ISO 10303-21, each part and each refusal.
#![tactic(auto)]

#[cfg(test)]
mod admitted;
#[cfg(test)]
mod made;
#[cfg(test)]
mod refused;
