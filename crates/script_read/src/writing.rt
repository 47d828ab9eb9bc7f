//! What is written of a script, line by line.

ghost use Rattle.std.specs.Prelude.{◌≡◌, IfOk};
ghost use Rattle.reading.specs.Lines.{Answers};
ghost use Rattle.script_read.specs.Lines.{cut};
ghost use Rattle.script_read.specs.Writing as spec;

use crate::editors::{Crew, Editor, Hands};
use crate::fault::{ScriptCause, ScriptFault};
use crate::line::{Meaning, read_meaning};
use crate::lines::{LineReader, without_return};
use crate::read::Script;
use audit_model::{Act, Phase, Phases, ScriptLine, ScriptLines};
use ifc_base::{Memory, Refusal};
use std::alloc::Global;
use std::mem;

/// The most edits of a draft.
const MOST_EDITS: u32 = 10_000;

/// Why an act of an editor who has this may not come.
fn act_cause(hands: Hands, act: &Act) -> Option<ScriptCause>
    ensures { result ≡ spec.act_cause hands act.now }
{
    match act {
        Act::Begin => hands.draft.is_some().then_some(ScriptCause::DraftOpen),
        Act::Change(_) => edit_cause(hands.draft),
        Act::Commit => hands.draft.is_none().then_some(ScriptCause::NoDraft),
        Act::Publish => None,
        Act::Take | Act::Work(_) => hands.holds.then_some(ScriptCause::Holding),
        Act::Give => (!hands.holds).then_some(ScriptCause::NotHolding),
    }
}

/// Why one more edit of a draft of so many may not come.
fn edit_cause(draft: Option<u32>) -> Option<ScriptCause>
    ensures { result ≡ spec.edit_cause draft }
{
    match draft {
        None => Some(ScriptCause::NoDraft),
        Some(edits) if edits < MOST_EDITS => None,
        Some(_) => Some(ScriptCause::TooManyEdits),
    }
}

/// What the editor has after an act that may come.
fn after_act(hands: Hands, act: &Act) -> Hands
    requires { spec.act_cause hands act.now ≡ None }
    ensures { result ≡ spec.after_act hands act.now }
{
    let Hands { draft, holds } = hands;
    match act {
        Act::Begin => Hands {
            draft: Some(0),
            holds,
        },
        Act::Change(_) => Hands {
            draft: draft.map(|edits| edits.saturating_add(1)),
            holds,
        },
        Act::Commit => Hands { draft: None, holds },
        Act::Publish | Act::Work(_) => hands,
        Act::Take => Hands { draft, holds: true },
        Act::Give => Hands {
            draft,
            holds: false,
        },
    }
}

/// What is written of a script so far.
#[derive(Drop)]
pub(crate) struct Writing {
    phases: Phases,
    /// The lines behind the last phase.
    lines: ScriptLines,
    /// Whose lines follow.
    editor: Editor,
    hands: Crew,
    /// The last line that says something is `sync`.
    ended: bool,
}

impl Writing {
    /// Nothing is written yet.
    pub(crate) fn new(alloc: Global) -> Result<Writing, Memory>
        ensures { IfOk result (λ writing. writing ≡ spec.fresh) }
    {
        Ok(Writing {
            phases: Phases::new(alloc),
            lines: ScriptLines::new(alloc),
            editor: Editor::first(),
            hands: Crew::new(alloc)?,
            ended: false,
        })
    }

    /// Writes an act of the editor whose lines follow, if it may come.
    #[tactic(auto, unfolding(crate::specs::Writing::act_step))]
    fn write_act(&mut self, act: Act) -> Result<(), Refusal<ScriptCause>>
        ensures { Answers (λ _. self.new) result (spec.act_step self.old act) }
    {
        let hands = self.hands.of(self.editor);
        if let Some(why) = act_cause(hands, &act) {
            return Err(Refusal::Fault(why));
        }
        self.hands.set(self.editor, after_act(hands, &act));
        self.ended = false;
        let editor = self.editor.get();
        self.lines
            .push(ScriptLine { editor, act })
            .map_err(|back| back.0)?;
        Ok(())
    }

    /// Ends the phase, unless an editor holds or has a draft.
    #[tactic(auto, unfolding(crate::specs::Writing::sync_step))]
    fn end_phase(&mut self, alloc: Global) -> Result<(), Refusal<ScriptCause>>
        ensures { Answers (λ _. self.new) result (spec.sync_step self.old) }
    {
        if self.hands.somebody_holds() {
            return Err(Refusal::Fault(ScriptCause::Holding));
        }
        if self.hands.somebody_drafts() {
            return Err(Refusal::Fault(ScriptCause::DraftOpen));
        }
        let lines = mem::replace(&mut self.lines, ScriptLines::new(alloc));
        self.phases.push(Phase { lines }).map_err(|back| back.0)?;
        self.editor = Editor::first();
        self.ended = true;
        Ok(())
    }

    /// The lines that follow are of this editor.
    fn turn_to(&mut self, editor: Editor)
        ensures { self.new ≡ spec.with_editor self.old editor }
    {
        self.editor = editor;
        self.ended = false;
    }

    /// Writes what a line says.
    fn write(&mut self, alloc: Global, meaning: Meaning) -> Result<(), Refusal<ScriptCause>>
        ensures { Answers (λ _. self.new) result (spec.step self.old meaning) }
    {
        match meaning {
            Meaning::Nothing => Ok(()),
            Meaning::Editor(editor) => {
                self.turn_to(editor);
                Ok(())
            }
            Meaning::Nobody => Err(Refusal::Fault(ScriptCause::TooManyActors)),
            Meaning::Does(act) => self.write_act(act),
            Meaning::Sync => self.end_phase(alloc),
        }
    }

    /// Writes a line.
    #[tactic(auto, unfolding(crate::specs::Writing::after_line))]
    fn write_line(&mut self, alloc: Global, text: &[u8]) -> Result<(), Refusal<ScriptCause>>
        ensures { Answers (λ _. self.new) result (spec.after_line self.old text.now) }
    {
        match read_meaning(alloc, text) {
            Ok(meaning) => self.write(alloc, meaning),
            Err(Refusal::Fault(_)) => Err(Refusal::Fault(ScriptCause::BadLine)),
            Err(Refusal::Memory) => Err(Refusal::Memory),
        }
    }

    /// Writes the line of this number.
    fn write_numbered(
        &mut self,
        alloc: Global,
        number: u32,
        text: &[u8],
    ) -> Result<(), Refusal<ScriptFault>>
        ensures { Answers (λ _. self.new) result (spec.at_line number (spec.after_line self.old text.now)) }
    {
        match self.write_line(alloc, text) {
            Ok(()) => Ok(()),
            Err(Refusal::Fault(why)) => Err(Refusal::Fault(ScriptFault { line: number, why })),
            Err(Refusal::Memory) => Err(Refusal::Memory),
        }
    }

    /// The script, where its last line that says something is `sync`; its last line has this number.
    #[tactic(auto, unfolding(crate::specs::Writing::finished))]
    fn finish(self, number: u32) -> Result<Script, Refusal<ScriptFault>>
        ensures { Answers (λ script. script) result (spec.finished number self) }
    {
        if !self.ended {
            return Err(Refusal::Fault(ScriptFault {
                line: number,
                why: ScriptCause::NoSync,
            }));
        }
        Ok(Script {
            phases: self.phases,
        })
    }

    /// Writes all lines of the bytes, of which the first has the number 1.
    #[tactic(auto, unfolding(crate::specs::Writing::after_lines))]
    pub(crate) fn write_lines(
        self,
        alloc: Global,
        bytes: &[u8],
    ) -> Result<Script, Refusal<ScriptFault>>
        ensures { Answers (λ script. script) result (spec.after_lines 1 self (cut bytes.now)) }
    {
        let mut writing = self;
        let mut lines = LineReader::new(bytes);
        let mut number: u32 = 1;
        while let Some(line) = lines.next_line() {
            writing.write_numbered(alloc, number, without_return(line))?;
            number = number.saturating_add(1);
        }
        writing.write_numbered(alloc, number, lines.rest())?;
        writing.finish(number)
    }
}
