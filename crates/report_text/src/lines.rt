ghost use Rattle.std.specs.Fmt.{decimal};
ghost use Rattle.std.specs.Prelude.{◌≡◌, ◌++◌, codes, IfOk, OnOk};
ghost use Rattle.audit_model.specs.Report.{counts, failing_line, failing_lines, failing_why, line, numbers, pass_word};
ghost use Rattle.audit_model.specs.Report.{report_text, tallies_lines, tally_lines};

use crate::decimal::push_decimal;
use crate::passing::{passes, passes_one};
use audit_model::{Failing, Occurs, ReportText, Tally};
use ifc_base::Memory;
use std::alloc::Global;

/// The report of a model at a revision: a line for the revision, for each specification its line and
/// then one for each failing element, and a line that says whether all pass. The tallies are those of
/// the specifications in their order, the first being number 1. Each line ends with a line feed.
/// `O(n)` in the length of the text.
pub fn render_report(alloc: Global, revision: u32, tallies: &[Tally]) -> Result<ReportText, Memory>
    ensures { IfOk result (λ text. text ≡ report_text revision tallies.now) }
{
    let mut out = Vec::new(alloc);
    push_revision(&mut out, revision)?;
    push_tallies(&mut out, tallies)?;
    push_end(&mut out, passes(tallies))?;
    Ok(ReportText::from_vec(out))
}

fn push_revision(out: &mut Vec<u8>, revision: u32) -> Result<(), Memory>
    ensures { OnOk result (out.new.items ≡ out.old.items ++ line (codes "report " ++ decimal revision)) }
{
    push_text(out, "report ")?;
    push_decimal(out, u64::from(revision))?;
    push_text(out, "\n")
}

fn push_end(out: &mut Vec<u8>, passed: bool) -> Result<(), Memory>
    ensures { OnOk result (out.new.items ≡ out.old.items ++ line (codes "end " ++ pass_word passed)) }
{
    push_text(out, "end ")?;
    push_text(out, verdict_word(passed))?;
    push_text(out, "\n")
}

/// Appends the lines of the specifications, the first being number 1.
fn push_tallies(out: &mut Vec<u8>, tallies: &[Tally]) -> Result<(), Memory>
    ensures { OnOk result (out.new.items ≡ out.old.items ++ tallies_lines 1 tallies.now) }
{
    for (place, tally) in tallies.iter().enumerate() {
        push_tally(out, place as u64 + 1, tally)?;
    }
    Ok(())
}

/// Appends the line of the specification of this number, and those of its failing elements.
fn push_tally(out: &mut Vec<u8>, number: u64, tally: &Tally) -> Result<(), Memory>
    ensures { OnOk result (out.new.items ≡ out.old.items ++ tally_lines number tally.now) }
{
    push_text(out, "spec ")?;
    push_decimal(out, number)?;
    if tally.skipped {
        return push_text(out, " skipped\n");
    }
    push_counts(out, tally)?;
    push_text(out, "\n")?;
    push_failings(out, tally.occurs, tally.failing.as_slice())
}

/// Appends whether the specification passes, to how many elements it applies and how many fail it.
fn push_counts(out: &mut Vec<u8>, tally: &Tally) -> Result<(), Memory>
    ensures { OnOk result (out.new.items ≡ out.old.items ++ counts tally.now) }
{
    push_text(out, " ")?;
    push_text(out, verdict_word(passes_one(tally)))?;
    push_text(out, " applicable ")?;
    push_decimal(out, u64::from(tally.applicable))?;
    push_text(out, " failed ")?;
    push_decimal(out, tally.failing.as_slice().len() as u64)
}

fn push_failings(out: &mut Vec<u8>, occurs: Occurs, failings: &[Failing]) -> Result<(), Memory>
    ensures { OnOk result (out.new.items ≡ out.old.items ++ failing_lines occurs failings.now) }
{
    for failing in failings {
        push_failing(out, occurs, failing)?;
    }
    Ok(())
}

/// Appends the line of a failing element: its id, and the requirements that it doesn't meet.
fn push_failing(out: &mut Vec<u8>, occurs: Occurs, failing: &Failing) -> Result<(), Memory>
    ensures { OnOk result (out.new.items ≡ out.old.items ++ failing_line occurs failing.now) }
{
    push_text(out, "fail #")?;
    push_decimal(out, u64::from(failing.elem.get()))?;
    push_why(out, occurs, failing.requirements.as_slice())?;
    push_text(out, "\n")
}

/// Appends the numbers of the requirements; the word `prohibited` where the specification is.
fn push_why(out: &mut Vec<u8>, occurs: Occurs, requirements: &[u32]) -> Result<(), Memory>
    ensures { OnOk result (out.new.items ≡ out.old.items ++ failing_why occurs requirements.now) }
{
    match occurs {
        Occurs::Prohibited => push_text(out, " prohibited"),
        Occurs::Required | Occurs::Optional => push_numbers(out, requirements),
    }
}

/// Appends the numbers, a blank before each.
fn push_numbers(out: &mut Vec<u8>, requirements: &[u32]) -> Result<(), Memory>
    ensures { OnOk result (out.new.items ≡ out.old.items ++ numbers requirements.now) }
{
    for number in requirements {
        push_text(out, " ")?;
        push_decimal(out, u64::from(*number))?;
    }
    Ok(())
}

fn verdict_word(passed: bool) -> &'static str
    ensures { result.now ≡ pass_word passed }
{
    if passed { "pass" } else { "fail" }
}

/// Appends the text. `O(n)` in its length.
pub fn push_text(out: &mut Vec<u8>, text: &str) -> Result<(), Memory>
    ensures { OnOk result (out.new.items ≡ out.old.items ++ text.now) }
{
    out.extend_from_slice(text.as_bytes())?;
    Ok(())
}
