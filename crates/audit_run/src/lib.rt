//! Whole runs of a core: a list of calls by any actors, each in turn, with all that the actors hold
//! between their calls. Over every such list the journal is legal, its entries are those of the calls,
//! and each text that is published is the audit from scratch of the revision that its entry names.
#![tactic(auto)]

mod calls;
mod hands;

pub use calls::{Act, Asked, give_all_back, run};
pub use hands::{Begun, Hands, Taken};
