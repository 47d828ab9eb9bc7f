ghost use Rattle.std.specs.Prelude.{◌≡◌, [], ◌∷◌, ◌++◌, ◌≤◌, length, MatchResult, OnOk, OnErr};
ghost use Rattle.audit_model.specs.Journals.{HasRoom};

use crate::step::StepRec;
use ifc_base::Memory;
use std::alloc::Global;
use std::marker::Model;

/// Entries in the order in which they were made, the oldest first. Contracts see the entries, and for how
/// many entries in all there is room.
#[derive(Debug, Drop)]
pub struct Journal {
    steps: Vec<StepRec>,
}

impl Model for Journal {
    ghost use Rattle.std.specs.Prelude.{vec_capacity, length};
    ghost use Rattle.std.specs.Coded.{codes};
    ghost use Rattle.ifc_base.specs.contracts.value.Value as value;
    ghost use Rattle.audit_model.specs.Journals.{Written};

    ghost Value = { Written };

    ghost coded = { Prim.hlevel (codes, value.the_row.coded) };

    ghost view = { λ journal. record { entries = journal.steps.items; room = vec_capacity journal.steps } };
}

impl Journal {
    /// The journal without entries. It takes no memory.
    pub fn new(alloc: Global) -> Journal
        ensures { result.entries ≡ [] }
    {
        Journal {
            steps: Vec::new(alloc),
        }
    }

    /// The entries, the oldest first. `O(1)`.
    pub fn as_slice(&self) -> &[StepRec]
        ensures { result.now ≡ self.now.entries }
    {
        self.steps.as_slice()
    }

    /// Adds the entry behind the others. For want of memory it is handed back, and the journal is as
    /// before. `O(1)` on average.
    pub fn push(&mut self, entry: StepRec) -> Result<(), (Memory, StepRec)>
        ensures { MatchResult result (λ _. self.new.entries ≡ self.old.entries ++ entry ∷ [])
            (λ back. (self.new.entries ≡ self.old.entries) × (back.1 ≡ entry)) }
    {
        match self.steps.push(entry) {
            Ok(()) => Ok(()),
            Err(refused) => Err((Memory, refused.value)),
        }
    }

    /// Makes room for n more entries. After want of memory the journal is as before. `O(n)` at most, and
    /// `O(1)` on average over many calls of a small n.
    pub fn reserve(&mut self, n: usize) -> Result<(), Memory>
        ensures entries { self.new.entries ≡ self.old.entries }
        ensures ok { OnOk result (HasRoom n self.new) }
        ensures err { OnErr result (self.new ≡ self.old) }
    {
        self.steps.reserve(n)?;
        Ok(())
    }

    /// Adds the entry behind the others, where there is room for it. It takes no memory. `O(1)`.
    pub fn push_reserved(&mut self, entry: StepRec)
        requires { HasRoom 1 self.old }
        ensures entries { self.new.entries ≡ self.old.entries ++ entry ∷ [] }
        ensures room { self.new.room ≡ self.old.room }
    {
        self.steps.push_reserved(entry);
    }
}
