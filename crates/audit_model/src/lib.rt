//! The plain data of an audit - specifications, verdicts, edits, journal entries, tallies - and the
//! definitions that the contracts of all crates above cite: what a model is, which verdict a
//! specification has on an element, and which text the audit of a model has.
#![tactic(auto)]

mod commit;
mod facet;
mod journal;
mod laws;
mod look;
mod order;
mod report;
mod script;
mod specification;
mod step;
mod verdict;

pub use commit::{CommitRefusal, Edit, EditFault, Edits};
pub use facet::{
    AttributeFacet, ClassificationFacet, EntityFacet, Facet, Facets, MaterialFacet, PartOfFacet,
    PropertyFacet, Relation,
};
pub use journal::Journal;
pub use laws::{
    calls_determine, closure_law, dangling_is_least, drain_follows, drain_of_file,
    earlier_models_stay, hop_law, last_change_is_last, models_ascend, needs_are_enough,
    needs_are_looked_at, needs_ascend, needs_cover_verdict, one_reply, others_not_applicable,
    own_hides_types, pairs_are_there, pairs_ascend, refused_changes_nothing, settled_by_delivery,
    settled_is_pair,
};
pub use look::Look;
pub use order::in_order;
pub use report::{Failing, Failings, ReportText, Tally, Texts};
pub use restrictions::Restriction;
pub use script::{Act, Phase, Phases, ScriptLine, ScriptLines};
pub use specification::{
    Cardinality, Occurs, Requirement, Requirements, Specification, Specifications,
};
pub use step::{Call, Given, Limits, Reply, StepRec};
pub use verdict::{Pair, Verdict, Weighed};
