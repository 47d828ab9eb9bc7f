ghost use Rattle.std.specs.Prelude.{◌≡◌, ◌++◌, [], ◌∷◌, ◌<◌, ◌≤◌, ◌+◌, OnOk, IfOk, length, if◌then◌else◌};
ghost use Rattle.closure_walk.specs.Walking.{SameKeys};
ghost use Rattle.audit_model.specs.Reading.{visit};
ghost use Rattle.audit_model.specs.Verdicts.{asked_by, is_met, numbers_of_false, requirement_met};
ghost use Rattle.facet_paths.specs.Reads.{Reads};

use crate::facets::weigh_facet;
use audit_model::{Cardinality, Look, Occurs, Requirement, Verdict, Weighed};
use ifc_base::{InstId, Keys, Memory, Numbers};
use schema_table::SchemaTable;
use std::alloc::Global;

/// Whether a requirement of this cardinality is met by what its facet gives.
fn meets(cardinality: Cardinality, weighed: Weighed) -> bool
    ensures { result ≡ is_met cardinality weighed }
{
    match cardinality {
        Cardinality::Required => weighed.holds,
        Cardinality::Prohibited => !weighed.holds,
        Cardinality::Optional => !weighed.subject || weighed.holds,
    }
}

/// Appends the number of the requirement at this place, if it isn't met.
fn push_unmet(numbers: &mut Numbers, at: usize, met: bool) -> Result<(), Memory>
    requires { at < 64 }
    ensures { OnOk result (numbers.new ≡ numbers.old ++ (if met then [] else (1 + at) ∷ [])) }
{
    if met {
        return Ok(());
    }
    match numbers.push(at as u32 + 1) {
        Ok(()) => Ok(()),
        Err(_) => Err(Memory),
    }
}

/// The numbers of the requirements that the element doesn't meet, ascending from 1. All of them are looked at.
fn unmet<L: Look>(
    alloc: Global,
    schema: &SchemaTable,
    look: &L,
    elem: InstId,
    requirements: &[Requirement],
    reads: &mut Keys,
) -> Result<Numbers, Memory>
    requires { length requirements.now ≤ 64 }
    ensures numbers { IfOk result (λ ns. ns ≡ numbers_of_false 1
        ((visit (requirement_met schema.now elem) requirements.now).answer (L.seen look.now))) }
    ensures reads { OnOk result (SameKeys reads.new (reads.old ++
        (visit (requirement_met schema.now elem) requirements.now).keys (L.seen look.now))) }
{
    let mut numbers = Numbers::new(alloc);
    for at in 0..requirements.len() {
        let requirement = &requirements[at];
        let weighed = weigh_facet(alloc, schema, look, elem, &requirement.facet, reads)?;
        push_unmet(&mut numbers, at, meets(requirement.cardinality, weighed))?;
    }
    Ok(numbers)
}

/// The verdict on an element to which a specification applies. The requirements of a prohibited specification
/// aren't looked at.
pub fn verdict_where_applicable<L: Look>(
    alloc: Global,
    schema: &SchemaTable,
    look: &L,
    elem: InstId,
    occurs: Occurs,
    requirements: &[Requirement],
    reads: &mut Keys,
) -> Result<Verdict, Memory>
    requires { length requirements.now ≤ 64 }
    ensures { IfOk result (λ d. Reads (asked_by schema.now occurs requirements.now elem) (L.seen look.now) d
        reads.old reads.new) }
{
    match occurs {
        Occurs::Prohibited => Ok(Verdict::Applicable(Numbers::new(alloc))),
        Occurs::Required | Occurs::Optional => {
            let numbers = unmet(alloc, schema, look, elem, requirements, reads)?;
            Ok(Verdict::Applicable(numbers))
        }
    }
}
