//! Inputs that are made from a number: declarations, specifications, a model of any number of walls and a
//! script. A run over them shows how the program does on a large model, with nothing read from files.
//!
//! What is made is defined in `specs/Made.antt` and `specs/Fixed.antt`, to the byte.
#![tactic(auto)]

mod inputs;
mod texts;
mod walls;

pub use inputs::{Inputs, MOST_WALLS, generate};
