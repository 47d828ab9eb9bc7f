use crate::claim::Claim;
use crate::draft::Draft;
use audit_model::{CommitRefusal, Pair, ReportText};
use ifc_base::Key;

/// Why a call added no entry.
#[derive(Clone, Copy, Debug, PartialEq, Eq)]
pub enum Halt {
    /// The journal has no room for the entry beside one for the end of each claim that is out.
    Full,
    /// Want of memory.
    Memory,
}

/// Why a draft wasn't prepared. It comes back.
#[derive(Drop)]
pub enum NotPrepared {
    /// The commit is refused, and its entry was added.
    Refused(CommitRefusal, Draft),
    /// No entry was added: the journal is full.
    Full(Draft),
    /// No entry was added: want of memory.
    Memory(Draft),
}

/// What a claim is answered. A pair must be spent.
pub enum Claimed {
    /// The least unsettled pair that isn't out.
    Pair(Claim),
    /// Every unsettled pair is out.
    Idle,
}

/// What a delivery is answered.
#[derive(Clone, Copy, Debug, PartialEq, Eq)]
pub enum Delivered {
    /// Nothing that the finding needs was changed since the claim.
    Used,
    /// The least needed key that was changed since, and the last revision that changed it.
    Stale { key: Key, revision: u32 },
}

/// What a publish is answered.
#[derive(Drop)]
pub enum Published {
    /// Every pair is settled: the text of the report of the current revision.
    Report { revision: u32, text: ReportText },
    /// The least unsettled pair.
    Pending(Pair),
}
