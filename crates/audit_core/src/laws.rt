//! Laws of the definitions. Each function does nothing: its contract is the law.
ghost use Rattle.audit_core.specs.Commits.{PreparedStays};

/// What was prepared before a call that adds no entry - one that only prepares, or answers that there
/// is no room or no memory - can be finished after it.
pub fn prepared_stays()
    ensures { PreparedStays }
{}
