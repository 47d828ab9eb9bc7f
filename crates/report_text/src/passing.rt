ghost use Rattle.std.specs.Prelude.{◌≡◌};
ghost use Rattle.audit_model.specs.Report.{all_pass};
ghost use Rattle.audit_model.specs.Report as report;

use audit_model::{Occurs, Tally};

/// Whether the model passes every specification that isn't skipped, as the last line of its report
/// says. `O(n)` in the number of tallies.
pub fn passes(tallies: &[Tally]) -> bool
    ensures { result ≡ all_pass tallies.now }
{
    tallies
        .iter()
        .all(|tally| tally.skipped || passes_one(tally))
}

/// Whether the model passes the specification of this tally (IDS 1.0, `minOccurs` and `maxOccurs` of
/// the applicability).
pub(crate) fn passes_one(tally: &Tally) -> bool
    ensures { result ≡ report.passes tally.now }
{
    let none_fails = tally.failing.as_slice().is_empty();
    match tally.occurs {
        Occurs::Optional => none_fails,
        Occurs::Required => none_fails && tally.applicable > 0,
        Occurs::Prohibited => tally.applicable == 0,
    }
}
