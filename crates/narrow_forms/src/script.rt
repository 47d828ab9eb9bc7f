//! The script.

ghost use Rattle.std.specs.Prelude.{◌≡◌, IfOk};
ghost use Rattle.script_rules.specs.ScriptOrder as order;
ghost use Rattle.narrow_forms.specs.Answers.{Answers};
ghost use Rattle.narrow_forms.specs.Number.{Reads};
ghost use Rattle.narrow_forms.specs.Lines.{cut};
ghost use Rattle.narrow_forms.specs.Reads.{Gives};
ghost use Rattle.narrow_forms.specs.Script as spec;

use crate::fault::LineFault;
use crate::lines::{LineReader, line_at};
use crate::number::OtherForm;
use crate::script_line::{Meaning, read_meaning, without_return};
use audit_model::{Act, Phase, Phases, ScriptLine, ScriptLines};
use ifc_base::Refusal;
use std::alloc::Global;
use std::mem;

/// The most edits of a draft.
const MOST_EDITS: u32 = 10_000;

/// The line may come, where a draft is open or not, and where a take is held or not.
fn may_come(drafting: bool, holding: bool, act: &Act) -> bool
    ensures { result ≡ order.may_come drafting holding act.now }
{
    match act {
        Act::Begin => !drafting,
        Act::Change(_) | Act::Commit => drafting,
        Act::Publish => true,
        Act::Take | Act::Work(_) => !holding,
        Act::Give => holding,
    }
}

/// A draft is open after the line.
fn drafts_after(drafting: bool, act: &Act) -> bool
    ensures { result ≡ order.drafts_after drafting act.now }
{
    match act {
        Act::Begin => true,
        Act::Commit => false,
        _ => drafting,
    }
}

/// A take is held after the line.
fn holds_after(holding: bool, act: &Act) -> bool
    ensures { result ≡ order.holds_after holding act.now }
{
    match act {
        Act::Take => true,
        Act::Give => false,
        _ => holding,
    }
}

/// How many edits the draft has after the line; None where that is too many.
fn edits_after(edits: u32, act: &Act) -> Option<u32>
    ensures { result ≡ spec.edits_after edits act.now }
{
    match act {
        Act::Begin => Some(0),
        Act::Change(_) if edits < MOST_EDITS => Some(edits + 1),
        Act::Change(_) => None,
        _ => Some(edits),
    }
}

/// What is written of a script so far.
#[derive(Drop)]
struct Writing {
    phases: Phases,
    /// The lines behind the last phase.
    lines: ScriptLines,
    /// A draft is open.
    drafting: bool,
    /// How many edits the last draft has.
    edits: u32,
    /// A take is held.
    holding: bool,
}

impl Writing {
    fn new(alloc: Global) -> Writing
        ensures { result ≡ spec.fresh }
    {
        Writing {
            phases: Phases::new(alloc),
            lines: ScriptLines::new(alloc),
            drafting: false,
            edits: 0,
            holding: false,
        }
    }

    /// Writes a line of the phase, if it may come.
    #[tactic(auto, unfolding(crate::specs::Script::act_step))]
    fn write_act(&mut self, act: Act) -> Result<(), Refusal<OtherForm>>
        ensures { Reads (λ _. self.new) result (spec.act_step self.old act) }
    {
        if !may_come(self.drafting, self.holding, &act) {
            return Err(Refusal::Fault(OtherForm));
        }
        let Some(edits) = edits_after(self.edits, &act) else {
            return Err(Refusal::Fault(OtherForm));
        };
        self.edits = edits;
        self.drafting = drafts_after(self.drafting, &act);
        self.holding = holds_after(self.holding, &act);
        self.lines
            .push(ScriptLine { editor: 1, act })
            .map_err(|back| back.0)?;
        Ok(())
    }

    /// Ends the phase, unless a draft is open or a take is held.
    #[tactic(auto, unfolding(crate::specs::Script::end_step))]
    fn end_phase(&mut self, alloc: Global) -> Result<(), Refusal<OtherForm>>
        ensures { Reads (λ _. self.new) result (spec.end_step self.old) }
    {
        if self.drafting || self.holding {
            return Err(Refusal::Fault(OtherForm));
        }
        let lines = mem::replace(&mut self.lines, ScriptLines::new(alloc));
        self.phases.push(Phase { lines }).map_err(|back| back.0)?;
        Ok(())
    }

    /// Writes what a line says.
    #[tactic(auto, unfolding(crate::specs::Script::after_line))]
    fn write_line(&mut self, alloc: Global, text: &[u8]) -> Result<(), Refusal<OtherForm>>
        ensures { Reads (λ _. self.new) result (spec.after_line self.old text.now) }
    {
        match read_meaning(alloc, text)? {
            Meaning::Nothing => Ok(()),
            Meaning::Does(act) => self.write_act(act),
            Meaning::Ends => self.end_phase(alloc),
        }
    }

    /// Writes what a line says, or refuses what begins with it.
    fn write_line_at<'a>(
        &mut self,
        alloc: Global,
        text: &[u8],
        at: &'a [u8],
    ) -> Result<(), Refusal<&'a [u8]>>
        ensures { Gives (λ _. self.new) result (spec.read_at (cut at.now) (spec.after_line self.old text.now)) }
    {
        match self.write_line(alloc, text) {
            Ok(()) => Ok(()),
            Err(Refusal::Fault(_)) => Err(Refusal::Fault(at)),
            Err(Refusal::Memory) => Err(Refusal::Memory),
        }
    }

    /// Writes what the lines say, or refuses what begins with the first line that is refused.
    #[tactic(auto, unfolding(crate::specs::Script::script_lines))]
    fn write_lines<'a>(&mut self, alloc: Global, bytes: &'a [u8]) -> Result<(), Refusal<&'a [u8]>>
        ensures { Gives (λ _. self.new) result (spec.script_lines self.old (cut bytes.now)) }
    {
        let mut lines = LineReader::new(bytes);
        loop {
            let at = lines.rest();
            let Some(line) = lines.next_line() else {
                return self.write_line_at(alloc, at, at);
            };
            self.write_line_at(alloc, without_return(line), at)?;
        }
    }

    /// The phases, where the last line that says something ends one.
    #[tactic(auto, unfolding(crate::specs::Script::finished, crate::specs::Lines::cut))]
    fn finish<'a>(self) -> Result<Phases, Refusal<&'a [u8]>>
        ensures { Gives (λ phases. phases) result (spec.finished self) }
    {
        if !self.lines.as_slice().is_empty() || self.phases.as_slice().is_empty() {
            return Err(Refusal::Fault(&[]));
        }
        Ok(self.phases)
    }
}

/// The phases, or the lines from the first one that is refused.
#[tactic(auto, unfolding(crate::specs::Script::script))]
fn read_phases<'a>(alloc: Global, bytes: &'a [u8]) -> Result<Phases, Refusal<&'a [u8]>>
    ensures { Gives (λ phases. phases) result (spec.script (cut bytes.now)) }
{
    let mut writing = Writing::new(alloc);
    writing.write_lines(alloc, bytes)?;
    writing.finish()
}

/// The phases, or the fault.
#[tactic(auto, unfolding(crate::specs::Script::script_reading))]
fn read(alloc: Global, bytes: &[u8]) -> Result<Phases, Refusal<LineFault>>
    ensures { Answers (spec.script_reading bytes.now) result }
{
    match read_phases(alloc, bytes) {
        Ok(phases) => Ok(phases),
        Err(Refusal::Fault(rest)) => Err(Refusal::Fault(line_at(bytes, rest))),
        Err(Refusal::Memory) => Err(Refusal::Memory),
    }
}

/// Reads a script of the narrow form: its phases, each with the lines up to a `sync`.
///
/// A line feed ends each line, and a carriage return before it is dropped; behind the last line it may be missing. A line is
/// empty, and says nothing, or is one of `open`, `add ` and an instance (ISO 10303-21), whose semicolon may be missing,
/// `remove #n`, `commit`, `publish`, `take`, `give`, `work N` (N from 1 to 1,000,000, without a leading zero), and `sync`. All
/// are of editor 1. A draft is opened where none is, edits (at most 10,000 of one draft) and `commit` want one, `take` and
/// `work` want that nothing is held, and `give` wants a `take` that is held; at a `sync` no draft is open and nothing is held.
///
/// Refused is the first line that is not of this form or may not come there; where the last line that says something
/// is no `sync`, or no line says anything, the line behind the last line feed. A refusal leaves nothing behind. `O(bytes)`.
pub fn read_script(alloc: Global, bytes: &[u8]) -> Result<Phases, Refusal<LineFault>>
    // Which phases, or which line is refused.
    ensures exact { Answers (spec.script_reading bytes.now) result }
    // In each phase the lines may come in their order, and no draft is open and nothing held at its ends.
    ensures orderly { IfOk result (λ phases. order.AreOrderly 1 phases) }
{
    read(alloc, bytes)
}
