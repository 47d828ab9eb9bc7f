ghost use Rattle.std.specs.Prelude.{◌≡◌};

use crate::snapshot::Snapshot;
use audit_model::{Pair, Verdict};
use ifc_base::Keys;
use std::marker::Model;

/// A pair to be evaluated at a snapshot. It must be spent: by a finding, by giving it back, or by
/// `end`.
pub struct Claim {
    number: u64,
    pair: Pair,
    snapshot: Snapshot,
}

impl Model for Claim {
    ghost use Rattle.model_view.specs.Views.{ClaimView};
    ghost use Rattle.std.specs.Coded.{codes, coded_ℕ, coded_list};
    ghost use Rattle.std.specs.FinMap as map;
    ghost use Rattle.std.specs.Ordering.{nat_cmp};
    ghost use Rattle.ifc_base.specs.contracts.value.Value as value;

    ghost Value = { ClaimView };

    ghost coded = { Prim.hlevel (codes, value.the_row.coded, map.code {R = nat_cmp} coded_ℕ (coded_list coded_ℕ)) };

    ghost view = { λ claim. record { number = claim.number; pair = claim.pair; snapshot = claim.snapshot } };
}

impl Claim {
    /// The claim of this number, of this pair, at this snapshot. It takes no memory.
    pub fn new(number: u64, pair: Pair, snapshot: Snapshot) -> Claim
        ensures { result ≡ record { number = number; pair = pair; snapshot = snapshot } }
    {
        Claim {
            number,
            pair,
            snapshot,
        }
    }

    /// Its number. Claims are numbered from 1.
    pub fn number(&self) -> u64
        ensures { result ≡ self.now.number }
    {
        self.number
    }

    /// The specification and the element.
    pub fn pair(&self) -> Pair
        ensures { result ≡ self.now.pair }
    {
        self.pair
    }

    /// The revision at which the pair is to be evaluated.
    pub fn revision(&self) -> u32
        ensures { result ≡ self.now.snapshot.revision }
    {
        self.snapshot.revision()
    }

    /// The model of that revision.
    pub fn snapshot(&self) -> &Snapshot
        ensures { result.now ≡ self.now.snapshot }
    {
        &self.snapshot
    }

    /// Lets the claim go. Where a core gave it, it stays out there.
    pub fn end(self) {
        let Claim {
            number: _,
            pair: _,
            snapshot: _snapshot,
        } = self;
    }
}

/// What an evaluation found of a claim. It must be spent.
pub struct Finding {
    claim: Claim,
    verdict: Verdict,
    needs: Keys,
}

impl Model for Finding {
    ghost use Rattle.model_view.specs.Views.{FindingView};
    ghost use Rattle.std.specs.Coded.{codes, coded_ℕ, coded_list};
    ghost use Rattle.std.specs.FinMap as map;
    ghost use Rattle.std.specs.Ordering.{nat_cmp};
    ghost use Rattle.ifc_base.specs.contracts.value.Value as value;

    ghost Value = { FindingView };

    ghost coded = { Prim.hlevel (codes, value.the_row.coded, map.code {R = nat_cmp} coded_ℕ (coded_list coded_ℕ)) };

    ghost view = { λ finding. record { claim = finding.claim; verdict = finding.verdict; needs = finding.needs } };
}

impl Finding {
    /// The finding of this verdict, which needs these keys. It takes no memory.
    pub fn new(claim: Claim, verdict: Verdict, needs: Keys) -> Finding
        ensures { result ≡ record { claim = claim; verdict = verdict; needs = needs } }
    {
        Finding {
            claim,
            verdict,
            needs,
        }
    }

    /// The claim that was evaluated.
    pub fn claim(&self) -> &Claim
        ensures { result.now ≡ self.now.claim }
    {
        &self.claim
    }

    /// What the specification says of the element.
    pub fn verdict(&self) -> &Verdict
        ensures { result.now ≡ self.now.verdict }
    {
        &self.verdict
    }

    /// The keys that the verdict needs.
    pub fn needs(&self) -> &Keys
        ensures { result.now ≡ self.now.needs }
    {
        &self.needs
    }

    /// The claim, where the finding isn't wanted.
    pub fn into_claim(self) -> Claim
        ensures { result ≡ self.claim }
    {
        let Finding {
            claim,
            verdict: _verdict,
            needs: _needs,
        } = self;
        claim
    }

    /// The claim, the verdict and the keys that it needs.
    pub fn into_parts(self) -> (Claim, Verdict, Keys)
        ensures { self ≡ record { claim = result.0; verdict = result.1; needs = result.2 } }
    {
        let Finding {
            claim,
            verdict,
            needs,
        } = self;
        (claim, verdict, needs)
    }
}
