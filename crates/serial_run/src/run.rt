//! A whole run of a script on a core.
ghost use Rattle.std.specs.Prelude.{◌≡◌, ◌+◌, ℕ, [], if◌then◌else◌, length, reverse};
ghost use Rattle.audit_model.specs.Machine.{Legal};
ghost use Rattle.script_rules.specs.Output.{output};
ghost use Rattle.script_rules.specs.ScriptOrder.{AreOrderly};
ghost use Rattle.script_rules.specs.Serial.{serial};
ghost use Rattle.audit_model.specs.Specifications.{AreSpecifications};
ghost use Rattle.serial_run.specs.Running.{IsSound};
ghost use Rattle.serial_run.specs.Runs.{IsFinished, IsRan, IsWritten, ends_pass};
ghost use Rattle.serial_run.specs.declared.run.End.TheVariants as ending;

use crate::phases::phase;
use audit_core::{Core, CoreJournal};
use audit_model::{Limits, Phases};
use model_view::{Assess, Halt};
use script_rules::{output_is_told, serial_is_legal};
use shelf_io::{Sink, write_all};
use std::alloc::Global;

/// How a run of a script ended.
#[derive(Clone, Copy, Debug, PartialEq, Eq)]
pub enum End {
    /// All phases were done, and the last report ends `end pass`.
    Passed,
    /// All phases were done, and the last report ends `end fail`.
    Failed,
    /// The sink failed in the text of a phase.
    Unwritten,
    /// A call would have been answered `Full`.
    Full,
    /// Want of memory.
    Memory,
}

/// A run of a script: how it ended, and the journal of the core.
#[derive(Drop)]
pub struct Ran {
    pub end: End,
    pub journal: CoreJournal,
}

/// Runs the phases of a script on a core that has no entries yet, and writes the text of each phase
/// once it is whole: the lines of its editor and the report. All lines have to be of editor 1, and in
/// an order in which they may come.
///
/// The journal is the history that the definitions give to the script; where the run was stopped, a
/// front of it, and behind it the return of each claim that was out. Cost: that of the calls of the
/// core, and `O(t)` for a text of `t` bytes.
pub fn run_script<E: Assess, K: Sink>(
    alloc: Global,
    core: Core,
    evaluator: &E,
    limits: &Limits,
    phases: Phases,
    out: &mut K,
) -> Ran
    requires fresh { core.history ≡ [] }
    requires sound { IsSound core.ground }
    requires order { AreOrderly 1 phases }
    requires schema { E.schema evaluator.now ≡ core.ground.schema }
    requires specs { E.specs evaluator.now ≡ core.ground.specs }
    requires specifications { AreSpecifications (E.specs evaluator.now) }
    requires limits { limits.now ≡ core.ground.limits }
    ensures ran { IsRan core.entry.ground phases (K.written out.old) (K.written out.new) result }
    ensures sink { IsFinished (K.faults out.old) (K.faults out.new) result.end }
    ensures sure { (more : ℕ) →
        K.sure out.old (length (output core.entry.ground (serial core.entry.ground phases)) + more) →
        IsWritten result.end }
{
    output_is_told();
    serial_is_legal();
    let mut core = core;
    let mut passed = false;
    let mut rest = phases.into_vec();
    rest.reverse();
    while let Some(next) = rest.pop() {
        match phase(alloc, &mut core, evaluator, limits, next) {
            Err(Halt::Full) => return ended(core, End::Full),
            Err(Halt::Memory) => return ended(core, End::Memory),
            Ok(text) => match write_all(out, text.as_slice()) {
                Ok(()) => passed = ends_pass(text.as_slice()),
                Err(_) => return ended(core, End::Unwritten),
            },
        }
    }
    ended(core, end_of(passed))
}

/// The journal of the core, and how the run ended.
fn ended(core: Core, end: End) -> Ran
    ensures end { result.end ≡ end }
    ensures journal { result.journal ≡ reverse core.entry.history }
    ensures legal { Legal core.entry.ground core.entry.history }
{
    Ran {
        end,
        journal: core.into_journal(),
    }
}

fn end_of(passed: bool) -> End
    ensures { result ≡ (if passed then ending.Passed else ending.Failed) }
{
    if passed { End::Passed } else { End::Failed }
}

/// Whether the text ends with the line `end pass`.
#[tactic(auto, unfolding(crate::specs::Runs::ends_pass))]
fn ends_pass(text: &[u8]) -> bool
    ensures { result ≡ ends_pass text.now }
{
    text.ends_with(b"end pass\n")
}
