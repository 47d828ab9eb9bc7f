//! One line of a script, and what its editor is told of it.
ghost use Rattle.std.specs.Prelude.{◌≡◌, ◌≤◌, ◌++◌, true, drop, length, reverse, OnOk};
ghost use Rattle.script_rules.specs.ScriptOrder.{may_come};
ghost use Rattle.script_rules.specs.Serial.{act_done};
ghost use Rattle.audit_model.specs.Specifications.{AreSpecifications};
ghost use Rattle.serial_run.specs.Editing.{WorksIn, is_drafting, is_holding, place_of};
ghost use Rattle.serial_run.specs.Course.{text_in};
ghost use Rattle.serial_run.specs.Lines.{entry_lines};
ghost use Rattle.serial_run.specs.Running.{Steps};
ghost use Rattle.serial_run.specs.Steps.{Acts};

use crate::editor::{Editor, let_go};
use crate::lines::{begin, change, commit, give, publish, take, work};
use crate::telling::push_entries;
use audit_core::Core;
use audit_model::{Act, Limits, ReportText};
use ifc_base::Memory;
use model_view::{Assess, Halt};
use std::alloc::Global;

/// The one editor of a script.
const EDITOR: u32 = 1;

/// Does a line of the editor and appends what the editor is told of it.
pub fn step<E: Assess>(
    alloc: Global,
    core: &mut Core,
    evaluator: &E,
    limits: &Limits,
    editor: Editor,
    line: Act,
    text: &mut Vec<u8>,
) -> Result<Editor, Halt>
    requires works { WorksIn core.old 1 editor }
    requires order { may_come (is_drafting editor.draft) (is_holding editor.held) line ≡ true }
    requires schema { E.schema evaluator.now ≡ core.old.ground.schema }
    requires specs { E.specs evaluator.now ≡ core.old.ground.specs }
    requires specifications { AreSpecifications (E.specs evaluator.now) }
    requires limits { limits.now ≡ core.old.ground.limits }
    ensures { Steps (act_done core.old.ground 1 line (place_of editor) core.old.history)
        core.old core.new text.old.items text.new.items result }
{
    let from = core.journal().as_slice().len();
    let (editor, report) = act(alloc, core, evaluator, EDITOR, editor, line)?;
    match tell(core, limits, from, &report, text) {
        Ok(()) => Ok(editor),
        Err(_) => {
            let Editor {
                draft: _draft,
                held,
            } = editor;
            let_go(core, EDITOR, held);
            Err(Halt::Memory)
        }
    }
}

/// Appends the lines of the entries from this one on, and then the report.
fn tell(
    core: &Core,
    limits: &Limits,
    from: usize,
    report: &Option<ReportText>,
    text: &mut Vec<u8>,
) -> Result<(), Memory>
    requires { from ≤ length core.now.history }
    ensures { OnOk result (text.new.items ≡ text.old.items ++
        (entry_lines limits.now (drop from (reverse core.now.history)) ++ text_in report.now)) }
{
    push_entries(text, limits, &core.journal().as_slice()[from..])?;
    if let Some(report) = report {
        text.extend_from_slice(report.as_slice())?;
    }
    Ok(())
}

/// Does what a line says. The text is that of the report that a `publish` gave.
pub fn act<E: Assess>(
    alloc: Global,
    core: &mut Core,
    evaluator: &E,
    who: u32,
    editor: Editor,
    line: Act,
) -> Result<(Editor, Option<ReportText>), Halt>
    requires works { WorksIn core.old who editor }
    requires order { may_come (is_drafting editor.draft) (is_holding editor.held) line ≡ true }
    requires schema { E.schema evaluator.now ≡ core.old.ground.schema }
    requires specs { E.specs evaluator.now ≡ core.old.ground.specs }
    requires specifications { AreSpecifications (E.specs evaluator.now) }
    ensures { Acts (act_done core.old.ground who line (place_of editor) core.old.history) line core.old core.new who result }
{
    let editor = match line {
        Act::Begin => begin(alloc, core, who, editor)?,
        Act::Change(edit) => change(core, who, editor, edit)?,
        Act::Commit => commit(alloc, core, who, editor)?,
        Act::Publish => return publish(alloc, core, who, editor),
        Act::Take => take(alloc, core, evaluator, who, editor)?,
        Act::Give => give(core, who, editor)?,
        Act::Work(most) => work(alloc, core, evaluator, who, editor, most)?,
    };
    Ok((editor, None))
}
