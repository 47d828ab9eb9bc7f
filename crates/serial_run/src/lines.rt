//! What each line of a script does on a core.
ghost use Rattle.std.specs.Prelude.{◌≡◌, false};
ghost use Rattle.script_rules.specs.Serial.{act_done};
ghost use Rattle.audit_model.specs.Specifications.{AreSpecifications};
ghost use Rattle.serial_run.specs.Editing.{WorksIn, is_holding, place_of};
ghost use Rattle.serial_run.specs.Course.{LeavesEditor, Publishes};

use crate::editor::{Editor, Held, let_go};
use crate::turns::{hand_in, rounds, take_up};
use audit_core::Core;
use audit_model::{Act, Edit, ReportText};
use model_view::{Assess, Draft, Halt, NotPrepared, Published};
use std::alloc::Global;
use std::unreachable;

/// `open`: begins a draft on the current revision.
pub fn begin(alloc: Global, core: &mut Core, who: u32, editor: Editor) -> Result<Editor, Halt>
    requires { WorksIn core.old who editor }
    ensures { LeavesEditor (act_done core.old.ground who Act.Begin (place_of editor) core.old.history)
        core.old core.new who result }
{
    let Editor {
        draft: _draft,
        held,
    } = editor;
    match core.begin(who) {
        Ok(base) => Ok(Editor {
            draft: Some(Draft::new(alloc, base)),
            held,
        }),
        Err(halt) => {
            let_go(core, who, held);
            Err(halt)
        }
    }
}

/// `add`, `set` or `remove`: one more edit of the draft, if there is one.
pub fn change(core: &mut Core, who: u32, editor: Editor, edit: Edit) -> Result<Editor, Halt>
    requires { WorksIn core.old who editor }
    ensures { LeavesEditor (act_done core.old.ground who (Act.Change edit) (place_of editor) core.old.history)
        core.old core.new who result }
{
    let Editor { draft, held } = editor;
    let Some(mut draft) = draft else {
        return Ok(Editor { draft: None, held });
    };
    match draft.push(edit) {
        Ok(()) => Ok(Editor {
            draft: Some(draft),
            held,
        }),
        Err(_) => {
            let_go(core, who, held);
            Err(Halt::Memory)
        }
    }
}

/// `commit`: commits the draft, if there is one. It is gone whether it is accepted or refused.
pub fn commit(alloc: Global, core: &mut Core, who: u32, editor: Editor) -> Result<Editor, Halt>
    requires { WorksIn core.old who editor }
    ensures { LeavesEditor (act_done core.old.ground who Act.Commit (place_of editor) core.old.history)
        core.old core.new who result }
{
    let Editor { draft, held } = editor;
    let Some(draft) = draft else {
        return Ok(Editor { draft: None, held });
    };
    match core.prepare(alloc, who, draft) {
        Ok(prepared) => {
            core.finish(prepared);
            Ok(Editor { draft: None, held })
        }
        Err(NotPrepared::Refused(_, _)) => Ok(Editor { draft: None, held }),
        Err(NotPrepared::Full(_)) => {
            let_go(core, who, held);
            Err(Halt::Full)
        }
        Err(NotPrepared::Memory(_)) => {
            let_go(core, who, held);
            Err(Halt::Memory)
        }
    }
}

/// `publish`: publishes. The text is that of the report, if there is one.
pub fn publish(
    alloc: Global,
    core: &mut Core,
    who: u32,
    editor: Editor,
) -> Result<(Editor, Option<ReportText>), Halt>
    requires { WorksIn core.old who editor }
    ensures { Publishes (act_done core.old.ground who Act.Publish (place_of editor) core.old.history)
        core.old core.new who result }
{
    let Editor { draft, held } = editor;
    match core.publish(alloc, who) {
        Ok(Published::Report { revision: _, text }) => Ok((Editor { draft, held }, Some(text))),
        Ok(Published::Pending(_)) => Ok((Editor { draft, held }, None)),
        Err(halt) => {
            let_go(core, who, held);
            Err(halt)
        }
    }
}

/// `take`: claims a pair and evaluates it, and holds what was found. Nothing may be held before.
pub fn take<E: Assess>(
    alloc: Global,
    core: &mut Core,
    evaluator: &E,
    who: u32,
    editor: Editor,
) -> Result<Editor, Halt>
    requires works { WorksIn core.old who editor }
    requires free { is_holding editor.held ≡ false }
    requires schema { E.schema evaluator.now ≡ core.old.ground.schema }
    requires specs { E.specs evaluator.now ≡ core.old.ground.specs }
    requires specifications { AreSpecifications (E.specs evaluator.now) }
    ensures { LeavesEditor (act_done core.old.ground who Act.Take (place_of editor) core.old.history)
        core.old core.new who result }
{
    let Editor { draft, held } = editor;
    let Held::Nothing = held else { unreachable!() };
    match take_up(alloc, core, evaluator, who)? {
        Some(finding) => Ok(Editor {
            draft,
            held: Held::Found(finding),
        }),
        None => Ok(Editor {
            draft,
            held: Held::Idle,
        }),
    }
}

/// `give`: delivers what is held; nothing where the take was answered `Idle`.
pub fn give(core: &mut Core, who: u32, editor: Editor) -> Result<Editor, Halt>
    requires { WorksIn core.old who editor }
    ensures { LeavesEditor (act_done core.old.ground who Act.Give (place_of editor) core.old.history)
        core.old core.new who result }
{
    let Editor { draft, held } = editor;
    match held {
        Held::Nothing => {}
        Held::Idle => {}
        Held::Found(finding) => hand_in(core, who, finding)?,
    }
    Ok(Editor {
        draft,
        held: Held::Nothing,
    })
}

/// `work N`: so many rounds, or fewer where a claim is answered `Idle`. Nothing may be held.
pub fn work<E: Assess>(
    alloc: Global,
    core: &mut Core,
    evaluator: &E,
    who: u32,
    editor: Editor,
    most: u32,
) -> Result<Editor, Halt>
    requires works { WorksIn core.old who editor }
    requires free { is_holding editor.held ≡ false }
    requires schema { E.schema evaluator.now ≡ core.old.ground.schema }
    requires specs { E.specs evaluator.now ≡ core.old.ground.specs }
    requires specifications { AreSpecifications (E.specs evaluator.now) }
    ensures { LeavesEditor (act_done core.old.ground who (Act.Work most) (place_of editor) core.old.history)
        core.old core.new who result }
{
    let Editor { draft, held } = editor;
    let Held::Nothing = held else { unreachable!() };
    rounds(alloc, core, evaluator, who, u64::from(most))?;
    Ok(Editor {
        draft,
        held: Held::Nothing,
    })
}
