//! Why a script isn't read.

use reading::Fault;
use thiserror::Error;

/// Why a script isn't read. Where more than one cause holds of a line, the first of this list is its fault.
#[derive(Clone, Copy, Debug, PartialEq, Eq, Error)]
pub enum ScriptCause {
    /// A line has none of the forms, or isn't UTF-8.
    #[error("a line of no form")]
    BadLine,
    /// An `editor` line names an editor that isn't from 1 to 16.
    #[error("an editor that is not from 1 to 16")]
    TooManyActors,
    /// A `take` or `work` by an editor who holds, or a `sync` while any editor holds.
    #[error("a take that is not given yet")]
    Holding,
    /// A `give` without a `take`.
    #[error("a give without a take")]
    NotHolding,
    /// An `open` by an editor who has a draft, or a `sync` while any editor has one.
    #[error("a draft that is not committed yet")]
    DraftOpen,
    /// An `add`, `set`, `remove` or `commit` without a draft.
    #[error("no draft is open")]
    NoDraft,
    /// An edit past the ten thousandth of its draft.
    #[error("more than 10,000 edits in a draft")]
    TooManyEdits,
    /// The last line that isn't empty isn't `sync`, or there is no such line.
    #[error("the last line is not sync")]
    NoSync,
}

/// The first fault of a script: its cause, and the number of its line, from 1. The line of NoSync is 1 plus the number of
/// line feeds. A line past 4,294,967,295 is that.
pub type ScriptFault = Fault<ScriptCause>;
