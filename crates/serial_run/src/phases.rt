//! The phases of a script: the lines, and the drain at the end.
ghost use Rattle.std.specs.Prelude.{◌≡◌, false};
ghost use Rattle.script_rules.specs.ScriptLines.{free};
ghost use Rattle.script_rules.specs.ScriptOrder.{IsOrderly};
ghost use Rattle.script_rules.specs.Serial.{Run, drain_done, lines_run, sync_run};
ghost use Rattle.audit_model.specs.Specifications.{AreSpecifications};
ghost use Rattle.serial_run.specs.Running.{AtRun, Drains, IsSound, LeavesLinesTold, Phases};
ghost use Rattle.serial_run.specs.Turns.{IsFree};

use crate::editor::{Editor, Held, let_go};
use crate::steps::step;
use crate::turns::rounds;
use audit_core::Core;
use audit_model::{Limits, Phase, ReportText, ScriptLines};
use ifc_base::Bytes;
use model_view::{Assess, Halt, Published};
use script_rules::drain_ends;
use std::alloc::Global;
use std::unreachable;

/// The lines of a phase, in their order; what the editor is told is appended.
fn lines<E: Assess>(
    alloc: Global,
    core: &mut Core,
    evaluator: &E,
    limits: &Limits,
    lines: ScriptLines,
    text: &mut Vec<u8>,
) -> Result<(), Halt>
    requires free { IsFree core.old }
    requires order { IsOrderly 1 false false lines }
    requires schema { E.schema evaluator.now ≡ core.old.ground.schema }
    requires specs { E.specs evaluator.now ≡ core.old.ground.specs }
    requires specifications { AreSpecifications (E.specs evaluator.now) }
    requires limits { limits.now ≡ core.old.ground.limits }
    ensures { (s : Run) → AtRun s core.old free →
        LeavesLinesTold (lines_run core.old.ground lines s) core.old core.new text.old.items text.new.items result }
{
    let mut editor = Editor {
        draft: None,
        held: Held::Nothing,
    };
    let mut rest = lines.into_vec();
    rest.reverse();
    while let Some(line) = rest.pop() {
        editor = step(alloc, core, evaluator, limits, editor, line.act, text)?;
    }
    let Editor {
        draft: _draft,
        held,
    } = editor;
    let_go(core, 1, held);
    Ok(())
}

/// The drain at the end of a phase: claims, evaluates and delivers what is left, and publishes. It
/// answers the report.
fn drain<E: Assess>(alloc: Global, core: &mut Core, evaluator: &E) -> Result<ReportText, Halt>
    requires free { IsFree core.old }
    requires sound { IsSound core.old.ground }
    requires schema { E.schema evaluator.now ≡ core.old.ground.schema }
    requires specs { E.specs evaluator.now ≡ core.old.ground.specs }
    requires specifications { AreSpecifications (E.specs evaluator.now) }
    ensures { Drains (drain_done core.old.ground core.old.history) core.old core.new result }
{
    drain_ends();
    let most = core.pairs() as u64 + 1;
    rounds(alloc, core, evaluator, 0, most)?;
    match core.publish(alloc, 0)? {
        Published::Report { revision: _, text } => Ok(text),
        Published::Pending(_) => unreachable!(),
    }
}

/// One phase: its lines, and then the drain. It answers its text: what the editor is told, and the
/// report.
pub fn phase<E: Assess>(
    alloc: Global,
    core: &mut Core,
    evaluator: &E,
    limits: &Limits,
    phase: Phase,
) -> Result<Bytes, Halt>
    requires free { IsFree core.old }
    requires sound { IsSound core.old.ground }
    requires order { IsOrderly 1 false false phase.lines }
    requires schema { E.schema evaluator.now ≡ core.old.ground.schema }
    requires specs { E.specs evaluator.now ≡ core.old.ground.specs }
    requires specifications { AreSpecifications (E.specs evaluator.now) }
    requires limits { limits.now ≡ core.old.ground.limits }
    ensures { (s : Run) → AtRun s core.old free →
        Phases (sync_run core.old.ground (lines_run core.old.ground phase.lines s)) core.old core.new result }
{
    let mut text = Vec::new(alloc);
    lines(alloc, core, evaluator, limits, phase.lines, &mut text)?;
    let report = drain(alloc, core, evaluator)?;
    match text.extend_from_slice(report.as_slice()) {
        Ok(()) => Ok(Bytes::from_vec(text)),
        Err(_) => Err(Halt::Memory),
    }
}
