use crate::commit::Edit;
use ifc_base::Listed;

/// What a line of a script does.
#[derive(Debug, Drop)]
pub enum Act {
    /// `open`: begins a draft on the current revision.
    Begin,
    /// `add`, `set` or `remove`: one more edit of the draft.
    Change(Edit),
    /// `commit`: commits the draft, which is gone whether it is accepted or refused.
    Commit,
    /// `publish`: asks for the report.
    Publish,
    /// `take`: claims a pair and evaluates it.
    Take,
    /// `give`: delivers what the last `take` claimed; nothing where that was answered Idle.
    Give,
    /// `work N`: claims, evaluates and delivers so many times, or until a claim is answered Idle.
    Work(u32),
}

/// A line of a script, and the editor, from 1 to 16, whose line it is.
#[derive(Debug, Drop)]
pub struct ScriptLine {
    pub editor: u32,
    pub act: Act,
}

/// Lines in the order of the script.
pub type ScriptLines = Listed<ScriptLine>;

/// The lines up to a `sync`, without those that do nothing.
#[derive(Debug, Drop)]
pub struct Phase {
    pub lines: ScriptLines,
}

/// The phases of a script, in its order.
pub type Phases = Listed<Phase>;
