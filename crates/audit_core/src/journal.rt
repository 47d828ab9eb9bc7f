ghost use Rattle.std.specs.Prelude.{◌≡◌, []};

use audit_model::Journal;
use std::alloc::Global;
use std::marker::Model;

/// A journal that a core made, the oldest entry first. Only a core makes one with entries.
#[derive(Drop)]
pub struct CoreJournal {
    steps: Journal,
}

impl Model for CoreJournal {
    ghost use Rattle.std.specs.Prelude.{List};
    ghost use Rattle.std.specs.Coded.{codes};
    ghost use Rattle.ifc_base.specs.contracts.value.Value as value;
    ghost use Rattle.audit_model.specs.declared.step.StepRec.{StepRec};

    ghost Value = { List StepRec };

    ghost coded = { Prim.hlevel (codes, value.the_row.coded) };

    ghost view = { λ journal. journal.steps.entries };
}

impl CoreJournal {
    /// The journal without entries.
    pub fn empty(alloc: Global) -> CoreJournal
        ensures { result ≡ [] }
    {
        CoreJournal {
            steps: Journal::new(alloc),
        }
    }

    /// The journal that a core has written.
    pub(crate) fn from_journal(steps: Journal) -> CoreJournal
        ensures { result ≡ steps.entries }
    {
        CoreJournal { steps }
    }

    /// Its entries, in the order in which they were made. `O(1)`.
    pub fn steps(&self) -> &Journal
        ensures { result.now.entries ≡ self.now }
    {
        &self.steps
    }
}
