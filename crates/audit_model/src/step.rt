ghost use Rattle.std.specs.Prelude.{◌≡◌};

use crate::commit::{CommitRefusal, Edits};
use crate::verdict::Pair;
use ifc_base::{Key, Memory, TryCopy};
use std::alloc::Global;

/// What an actor asks of the core.
#[derive(Debug, PartialEq, Eq, Drop)]
pub enum Call {
    /// Begins a draft on the current revision.
    Begin,
    /// Commits these edits, drafted on the revision `base`.
    Commit { base: u32, edits: Edits },
    /// Asks for a pair to evaluate.
    Claim,
    /// Delivers the finding of the claim of this number.
    Deliver { number: u64 },
    /// Gives the claim of this number back.
    GiveBack { number: u64 },
    /// Asks for the report of the current revision.
    Publish,
}

/// What the core answers. Claims are numbered from 1 in the order of their `Claimed` replies.
#[derive(Debug, PartialEq, Eq, Drop)]
pub enum Reply {
    /// To `Begin`: the current revision.
    Began {
        revision: u32,
    },
    /// To `Commit`: the revision that it made.
    Accepted {
        revision: u32,
    },
    /// To `Commit`: why nothing was changed.
    Refused(CommitRefusal),
    /// To `Claim`: the least unsettled pair that isn't out, at the current revision.
    Claimed {
        number: u64,
        pair: Pair,
        revision: u32,
    },
    /// To `Claim`: every unsettled pair is out.
    Idle,
    /// To `Deliver`: nothing that the finding needs was changed since the claim.
    Used,
    /// To `Deliver`: the least needed key that was changed since, and its last change.
    Stale {
        key: Key,
        revision: u32,
    },
    /// To `GiveBack`.
    Back,
    /// To `Publish`: the least unsettled pair.
    Pending(Pair),
    /// To `Publish`: every pair is settled, and the report of this revision was given.
    Report {
        revision: u32,
    },
}

/// One entry of a journal. Actor 0 is the caller of the program's run, 1 to 16 are editors, 17 to 32
/// are workers.
#[derive(Debug, PartialEq, Eq, Drop)]
pub struct StepRec {
    pub actor: u32,
    pub call: Call,
    pub reply: Reply,
}

/// A claim that was given: its number, the actor to whom, and the pair and the revision to evaluate.
#[derive(Clone, Copy, Debug, PartialEq, Eq)]
pub struct Given {
    pub number: u64,
    pub actor: u32,
    pub pair: Pair,
    pub revision: u32,
}

/// The most entries of a journal, the last revision, and the most instances of a model.
#[derive(Clone, Copy, Debug, PartialEq, Eq)]
pub struct Limits {
    pub steps: u64,
    pub revisions: u32,
    pub instances: u32,
}

impl Limits {
    /// The limits that the program uses.
    pub const STANDARD: Limits = Limits {
        steps: 16_777_216,
        revisions: 100_000,
        instances: 2_000_000,
    };
}

impl TryCopy for Call {
    fn copy(&self, alloc: Global) -> Result<Call, Memory> {
        match self {
            Call::Begin => Ok(Call::Begin),
            Call::Commit { base, edits } => Ok(Call::Commit {
                base: *base,
                edits: edits.copy(alloc)?,
            }),
            Call::Claim => Ok(Call::Claim),
            Call::Deliver { number } => Ok(Call::Deliver { number: *number }),
            Call::GiveBack { number } => Ok(Call::GiveBack { number: *number }),
            Call::Publish => Ok(Call::Publish),
        }
    }
}

impl TryCopy for Reply {
    fn copy(&self, alloc: Global) -> Result<Reply, Memory> {
        match self {
            Reply::Began { revision } => Ok(Reply::Began {
                revision: *revision,
            }),
            Reply::Accepted { revision } => Ok(Reply::Accepted {
                revision: *revision,
            }),
            Reply::Refused(refusal) => Ok(Reply::Refused(refusal.copy(alloc)?)),
            Reply::Claimed {
                number,
                pair,
                revision,
            } => Ok(Reply::Claimed {
                number: *number,
                pair: *pair,
                revision: *revision,
            }),
            Reply::Idle => Ok(Reply::Idle),
            Reply::Used => Ok(Reply::Used),
            Reply::Stale { key, revision } => Ok(Reply::Stale {
                key: *key,
                revision: *revision,
            }),
            Reply::Back => Ok(Reply::Back),
            Reply::Pending(pair) => Ok(Reply::Pending(*pair)),
            Reply::Report { revision } => Ok(Reply::Report {
                revision: *revision,
            }),
        }
    }
}

impl TryCopy for StepRec {
    fn copy(&self, alloc: Global) -> Result<StepRec, Memory> {
        let call = self.call.copy(alloc)?;
        let reply = self.reply.copy(alloc)?;
        Ok(StepRec {
            actor: self.actor,
            call,
            reply,
        })
    }
}
