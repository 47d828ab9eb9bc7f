//! The text of a report: which specifications of an IDS document a model passes, and which elements
//! fail them.
//!
//! The text is defined in `audit_model` (`specs/Report.antt`); each function here appends what one
//! definition there says to one growing buffer.
#![tactic(auto)]

mod decimal;
mod lines;
mod passing;

pub use decimal::push_decimal;
pub use lines::{push_text, render_report};
pub use passing::passes;
