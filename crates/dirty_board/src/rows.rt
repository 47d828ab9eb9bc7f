ghost use Rattle.std.specs.Prelude.{◌≡◌, MatchResult};

use audit_model::{Pair, Verdict};
use ifc_base::Keys;
use std::alloc::Global;
use std::marker::Model;

/// What a used delivery found.
#[derive(Drop)]
pub struct Kept {
    pub verdict: Verdict,
    pub needs: Keys,
}

/// What is kept of a settled pair, in memory of its own, so that a row is small. Contracts see what is
/// kept.
#[derive(Drop)]
pub struct BoxedKept {
    inner: Box<Kept>,
}

impl Model for BoxedKept {
    ghost use Rattle.dirty_board.specs.declared.rows.Kept.{Kept};

    ghost Value = { Kept };

    ghost view = { λ boxed. boxed.inner.value };
}

impl BoxedKept {
    /// What is kept, in memory of its own; for want of memory it comes back. `O(1)`.
    pub fn new(alloc: Global, kept: Kept) -> Result<BoxedKept, Kept>
        ensures { MatchResult result (λ boxed. boxed ≡ kept) (λ back. back ≡ kept) }
    {
        match Box::new(alloc, kept) {
            Ok(inner) => Ok(BoxedKept { inner }),
            Err(refused) => Err(refused.value),
        }
    }

    /// What is kept. `O(1)`.
    pub fn get(&self) -> &Kept
        ensures { result.now ≡ self.now }
    {
        &self.inner
    }

    /// What is kept, out of its memory. `O(1)`.
    pub fn into_inner(self) -> Kept
        ensures { result ≡ self }
    {
        Box::into_inner(self.inner)
    }
}

/// A pair of the current model, what is kept of it where it is settled, and whether a claim of it is out.
#[derive(Drop)]
pub struct Row {
    pub pair: Pair,
    pub kept: Option<BoxedKept>,
    pub out: bool,
}
