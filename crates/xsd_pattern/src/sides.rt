//! The sides between the bars of a group.

ghost use Rattle.std.specs.Prelude.{◌≡◌, OnOk, IfOk};

use pattern_tree::Tree;
use sqlite_items::Items;
use std::alloc::{AllocError, Global};
use std::mem;

/// The sides of a group that were read so far: whole ones, and the parts of the last one.
#[derive(Drop)]
pub(crate) struct Sides {
    pub whole: Items<Tree>,
    pub parts: Items<Tree>,
}

impl Sides {
    ghost use Rattle.xsd_pattern.specs.Parts.{no_sides, with_bar, choice};

    /// One side, without parts.
    pub fn new(alloc: Global) -> Sides
        ensures { result ≡ no_sides }
    {
        Sides {
            whole: Items::new(alloc),
            parts: Items::new(alloc),
        }
    }

    /// Ends the side by a bar.
    pub fn bar(&mut self, alloc: Global) -> Result<(), AllocError>
        ensures { OnOk result (self.new ≡ with_bar self.old) }
    {
        let parts = mem::replace(&mut self.parts, Items::new(alloc));
        self.whole.push(Tree::Sequence(parts))
    }

    /// One of the sides, each of which is a sequence.
    pub fn choice(self) -> Result<Tree, AllocError>
        ensures { IfOk result (λ x. x ≡ choice self) }
    {
        let Sides { mut whole, parts } = self;
        whole.push(Tree::Sequence(parts))?;
        Ok(Tree::Choice(whole))
    }
}
