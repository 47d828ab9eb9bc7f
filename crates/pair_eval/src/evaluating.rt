ghost use Rattle.std.specs.Prelude.{◌≡◌, IfErr, IfOk};
ghost use Rattle.audit_model.specs.Needs.{need};
ghost use Rattle.audit_model.specs.Specifications.{AreSpecifications};
ghost use Rattle.audit_model.specs.Verdicts.{verdict};
ghost use Rattle.inverse_index.specs.Index.{Indexes};
ghost use Rattle.model_view.specs.Findings.{IsFindingOf};

use crate::assessing::assess_pair;
use crate::needs::in_order;
use audit_model::{Pair, Specification, Verdict};
use closure_walk::laws::same_need;
use ifc_base::{Keys, Memory};
use model_view::{Assess, Claim, Finding, Snapshot, shows_its_model};
use schema_table::SchemaTable;
use std::alloc::Global;

/// Evaluates claims by these specifications under this schema, by all kinds of facet.
#[derive(Clone, Copy)]
pub struct Evaluator<'a> {
    pub schema: &'a SchemaTable,
    pub specs: &'a [Specification],
}

impl<'a> Assess for Evaluator<'a> {
    ghost schema = { λ evaluator. evaluator.schema.now };

    ghost specs = { λ evaluator. evaluator.specs.now };

    fn assess(&self, alloc: Global, claim: Claim) -> Result<Finding, (Memory, Claim)> {
        evaluate(alloc, self.schema, self.specs, claim)
    }
}

/// The verdict on the pair, and the keys that it needs.
fn verdict_and_needs(
    alloc: Global,
    schema: &SchemaTable,
    specs: &[Specification],
    pair: Pair,
    snapshot: &Snapshot,
) -> Result<(Verdict, Keys), Memory>
    requires specifications { AreSpecifications specs.now }
    requires index { Indexes schema.now snapshot.now.model snapshot.now.lists }
    ensures verdict { IfOk result (λ found. found.0 ≡ verdict schema.now specs.now pair snapshot.now.model) }
    ensures needs { IfOk result (λ found. found.1 ≡ need schema.now specs.now pair snapshot.now.model) }
{
    let mut reads = Keys::new(alloc);
    let verdict = assess_pair(alloc, schema, snapshot, specs, pair, &mut reads)?;
    let needs = in_order(reads);
    same_need();
    shows_its_model();
    Ok((verdict, needs))
}

/// The finding of a claim: the verdict of its pair's specification on its pair's element at its snapshot (IDS 1.0,
/// specification), and the keys that the verdict needs, ascending and each once. The specifications are numbered by
/// their places, and the snapshot has to be one under this schema. It takes no lock and waits for nothing.
///
/// The one refusal is want of memory: the claim comes back as it was then, and all that was read is dropped.
///
/// `O(n log n)` in the number of keys that are looked at, and the time of the conditions. The specification is found
/// in `O(1)`; nothing of the snapshot is copied but ids.
pub fn evaluate(
    alloc: Global,
    schema: &SchemaTable,
    specs: &[Specification],
    claim: Claim,
) -> Result<Finding, (Memory, Claim)>
    requires specifications { AreSpecifications specs.now }
    requires index { Indexes schema.now claim.snapshot.model claim.snapshot.lists }
    ensures ok { IfOk result (λ finding. IsFindingOf schema.now specs.now claim finding) }
    ensures back { IfErr result (λ back. back.1 ≡ claim) }
{
    match verdict_and_needs(alloc, schema, specs, claim.pair(), claim.snapshot()) {
        Ok((verdict, needs)) => Ok(Finding::new(claim, verdict, needs)),
        Err(refusal) => Err((refusal, claim)),
    }
}
