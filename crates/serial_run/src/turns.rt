//! Rounds of claim and delivery.
ghost use Rattle.std.specs.Prelude.{◌≡◌, [], false, Some};
ghost use Rattle.audit_model.specs.History.{out};
ghost use Rattle.audit_model.specs.Machine.{Legal};
ghost use Rattle.script_rules.specs.ScriptLines.{Place};
ghost use Rattle.script_rules.specs.Serial.{rounds};
ghost use Rattle.audit_model.specs.Specifications.{AreSpecifications};
ghost use Rattle.serial_run.specs.Editing.{HoldsIn};
ghost use Rattle.serial_run.specs.Turns.{IsFree, Takes, HandsIn, LeavesRound};
ghost use Rattle.serial_run.specs.Course.{Works};

use crate::editor::Held;
use audit_core::Core;
use model_view::{Assess, Claimed, Finding, Halt};
use std::alloc::Global;

/// Claims the least pair that is left, and evaluates it. Where memory is wanting the claim is given
/// back.
pub fn take_up<E: Assess>(
    alloc: Global,
    core: &mut Core,
    evaluator: &E,
    who: u32,
) -> Result<Option<Finding>, Halt>
    requires free { IsFree core.old }
    requires schema { E.schema evaluator.now ≡ core.old.ground.schema }
    requires specs { E.specs evaluator.now ≡ core.old.ground.specs }
    requires specifications { AreSpecifications (E.specs evaluator.now) }
    ensures { Takes core.old core.new who result }
{
    match core.claim(who)? {
        Claimed::Idle => Ok(None),
        Claimed::Pair(claim) => match evaluator.assess(alloc, claim) {
            Ok(finding) => Ok(Some(finding)),
            Err((_, claim)) => {
                core.give_back(who, claim);
                Err(Halt::Memory)
            }
        },
    }
}

/// Delivers what was found. Where memory is wanting its claim is given back.
pub fn hand_in(core: &mut Core, who: u32, finding: Finding) -> Result<(), Halt>
    requires { HoldsIn core.old who (Held.Found finding) }
    ensures { HandsIn core.old core.new who finding result }
{
    match core.deliver(who, finding) {
        Ok(_) => Ok(()),
        Err((_, finding)) => {
            core.give_back(who, finding.into_claim());
            Err(Halt::Memory)
        }
    }
}

/// One round: claims a pair, evaluates and delivers it. It answers whether there was a pair.
fn round<E: Assess>(alloc: Global, core: &mut Core, evaluator: &E, who: u32) -> Result<bool, Halt>
    requires free { IsFree core.old }
    requires schema { E.schema evaluator.now ≡ core.old.ground.schema }
    requires specs { E.specs evaluator.now ≡ core.old.ground.specs }
    requires specifications { AreSpecifications (E.specs evaluator.now) }
    ensures { LeavesRound core.old core.new who result }
{
    let Some(finding) = take_up(alloc, core, evaluator, who)? else {
        return Ok(false);
    };
    hand_in(core, who, finding)?;
    Ok(true)
}

/// So many rounds, or fewer where a claim is answered `Idle`.
pub fn rounds<E: Assess>(
    alloc: Global,
    core: &mut Core,
    evaluator: &E,
    who: u32,
    most: u64,
) -> Result<(), Halt>
    requires free { IsFree core.old }
    requires schema { E.schema evaluator.now ≡ core.old.ground.schema }
    requires specs { E.specs evaluator.now ≡ core.old.ground.specs }
    requires specifications { AreSpecifications (E.specs evaluator.now) }
    ensures { (p : Place) → Works (rounds core.old.ground who most p core.old.history) core.old core.new result }
{
    for _ in 0..most {
        if !round(alloc, core, evaluator, who)? {
            return Ok(());
        }
    }
    Ok(())
}
