ghost use Rattle.std.specs.Prelude.{◌≡◌, IfOk};
ghost use Rattle.std.specs.Arc.{arc_value};

use ifc_base::Memory;
use std::alloc::Global;
use std::marker::Model;
use std::sync::Arc;

/// A branch of a node: a digit of the key, and what stands below it, which the nodes of other maps may
/// share. Contracts see the pair of the two.
#[derive(Drop)]
pub(crate) struct Branch<B> {
    digit: u8,
    below: Arc<B, Global>,
}

impl<B> Model for Branch<B> {
    ghost use Rattle.std.specs.Prelude.{ℕ};
    ghost use Rattle.std.specs.Coded.{coded×, coded_ℕ};
    ghost use Rattle.std.specs.Arc.{arc_value};

    ghost Value = { ℕ × B };

    ghost coded = { coded× coded_ℕ B.code };

    ghost view = { λ branch. (branch.digit, arc_value branch.below) };
}

impl<B> Branch<B> {
    /// The branch of this digit.
    pub(crate) fn new(digit: u8, below: Arc<B, Global>) -> Branch<B>
        ensures { result ≡ (digit, arc_value below) }
    {
        Branch { digit, below }
    }

    /// The digit.
    pub(crate) fn digit(&self) -> u8
        ensures { result ≡ self.now.0 }
    {
        self.digit
    }

    /// What stands below.
    pub(crate) fn below(&self) -> &B
        ensures { result.now ≡ self.now.1 }
    {
        &self.below
    }

    /// An equal branch over the same memory. `O(1)`.
    pub(crate) fn share(&self) -> Result<Branch<B>, Memory>
        ensures { IfOk result (λ branch. branch ≡ self.now) }
    {
        match Arc::try_clone(&self.below) {
            Ok(below) => Ok(Branch {
                digit: self.digit,
                below,
            }),
            Err(_) => Err(Memory),
        }
    }
}
