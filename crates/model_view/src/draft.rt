ghost use Rattle.std.specs.Prelude.{◌≡◌, [], ◌∷◌, ◌++◌, MatchResult};

use crate::snapshot::Snapshot;
use audit_model::{Edit, Edits};
use ifc_base::Memory;
use std::alloc::Global;
use std::marker::Model;

/// Edits that are drafted on a snapshot, to be committed.
#[derive(Drop)]
pub struct Draft {
    base: Snapshot,
    edits: Edits,
}

impl Model for Draft {
    ghost use Rattle.model_view.specs.Views.{DraftView};
    ghost use Rattle.std.specs.Coded.{codes, coded_ℕ, coded_list};
    ghost use Rattle.std.specs.FinMap as map;
    ghost use Rattle.std.specs.Ordering.{nat_cmp};
    ghost use Rattle.ifc_base.specs.contracts.value.Value as value;

    ghost Value = { DraftView };

    ghost coded = { Prim.hlevel (codes, value.the_row.coded, map.code {R = nat_cmp} coded_ℕ (coded_list coded_ℕ)) };

    ghost view = { λ draft. record { base = draft.base; edits = draft.edits } };
}

impl Draft {
    /// A draft without edits on this snapshot.
    pub fn new(alloc: Global, base: Snapshot) -> Draft
        ensures { result ≡ record { base = base; edits = [] } }
    {
        Draft {
            base,
            edits: Edits::new(alloc),
        }
    }

    /// Adds an edit at the end, or hands it back and leaves the draft as it was. `O(1)`, amortized.
    pub fn push(&mut self, edit: Edit) -> Result<(), (Memory, Edit)>
        ensures { MatchResult result
            (λ _. self.new ≡ record { base = self.old.base; edits = self.old.edits ++ edit ∷ [] }) (λ back.
            (self.new ≡ self.old) × (back.1 ≡ edit)) }
    {
        self.edits.push(edit)
    }

    /// The snapshot on which it is drafted.
    pub fn base(&self) -> &Snapshot
        ensures { result.now ≡ self.now.base }
    {
        &self.base
    }

    /// The edits in their order.
    pub fn edits(&self) -> &Edits
        ensures { result.now ≡ self.now.edits }
    {
        &self.edits
    }

    /// The snapshot and the edits. It takes no memory.
    pub fn into_parts(self) -> (Snapshot, Edits)
        ensures { self ≡ record { base = result.0; edits = result.1 } }
    {
        let Draft { base, edits } = self;
        (base, edits)
    }

    /// The draft of these edits on this snapshot. It takes no memory.
    pub fn from_parts(base: Snapshot, edits: Edits) -> Draft
        ensures { result ≡ record { base = base; edits = edits } }
    {
        Draft { base, edits }
    }
}
