ghost use Rattle.std.specs.Prelude.{◌≡◌, IfErr, IfOk};
ghost use Rattle.audit_model.specs.Specifications.{AreSpecifications};
ghost use Rattle.inverse_index.specs.Index.{Indexes};
ghost use Rattle.model_view.specs.Findings.{IsFindingOf};

use crate::claim::{Claim, Finding};
use ifc_base::Memory;
use std::alloc::Global;

/// What evaluates claims. Its meaning are a schema and specifications.
pub trait Assess {
    ghost use Rattle.std.specs.Prelude.{List};
    ghost use Rattle.schema_table.specs.Schema.{Schema};
    ghost use Rattle.audit_model.specs.declared.specification.Specification.{Specification};

    ghost schema: { Self → Schema };

    ghost specs: { Self → List Specification };

    /// The finding of a claim: the verdict and the needs of its pair at its snapshot, which has to be one under this schema. The only
    /// refusal is want of memory; the claim comes back then, and nothing else is kept.
    fn assess(&self, alloc: Global, claim: Claim) -> Result<Finding, (Memory, Claim)>
        requires specifications { AreSpecifications (specs self.now) }
        requires index { Indexes (schema self.now) claim.snapshot.model claim.snapshot.lists }
        ensures ok { IfOk result (λ finding. IsFindingOf (schema self.now) (specs self.now) claim finding) }
        ensures back { IfErr result (λ back. back.1 ≡ claim) };
}
