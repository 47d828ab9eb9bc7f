ghost use Rattle.serial_run.specs.Editing.{HoldsIn};
ghost use Rattle.serial_run.specs.Course.{IsReturned};

use audit_core::Core;
use model_view::{Draft, Finding};

/// What an editor has between two lines of a script. It must be spent.
pub struct Editor {
    /// The draft that is open.
    pub draft: Option<Draft>,
    pub held: Held,
}

/// What a `take` left in an editor's hands. It must be spent.
pub enum Held {
    /// Nothing was taken.
    Nothing,
    /// The claim was answered `Idle`.
    Idle,
    /// What was found of the pair that was claimed.
    Found(Finding),
}

/// Gives the claim back that is held, if there is one. It takes no memory.
pub fn let_go(core: &mut Core, who: u32, held: Held)
    requires { HoldsIn core.old who held }
    ensures { IsReturned core.old core.new }
{
    match held {
        Held::Nothing => {}
        Held::Idle => {}
        Held::Found(finding) => core.give_back(who, finding.into_claim()),
    }
}
