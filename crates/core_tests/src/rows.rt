//! Acts and replies as rows of a table.

use audit_model::{CommitRefusal, Edit, EditFault, Edits, Reply};
use audit_run::{Act, Asked};
use ifc_base::{InstId, Key, Memory, Name};
use p21_read::{read_instance, read_value};
use schema_table::InstanceFault;
use std::alloc::Global;
use std::test::Fail;

/// An edit: an instance to add; or else an id, the attribute to set and its value, where nothing for an
/// attribute removes the instance.
#[derive(Clone, Copy)]
pub enum Change {
    Add(&'static str),
    Set(u32, &'static str, &'static str),
    Remove(u32),
}

/// What an actor is to do.
#[derive(Clone, Copy)]
pub enum Do {
    Begin,
    Commit(&'static [Change]),
    Take,
    Give,
    Return,
    Publish,
}

/// An actor, what it is to do, and what it is answered; nothing where no entry is added.
pub type Row = (u32, Do, &'static str);

fn edit(alloc: Global, change: Change) -> Result<Edit, Fail> {
    match change {
        Change::Add(text) => Ok(Edit::Add(read_instance(alloc, text.as_bytes())?)),
        Change::Set(number, attr, text) => Ok(Edit::Set {
            id: InstId::new(number).ok_or(Memory)?,
            attr: Name::from_str(alloc, attr)?,
            value: read_value(alloc, text.as_bytes())?,
        }),
        Change::Remove(number) => Ok(Edit::Remove(InstId::new(number).ok_or(Memory)?)),
    }
}

fn act(alloc: Global, asked: Do) -> Result<Act, Fail> {
    match asked {
        Do::Begin => Ok(Act::Begin),
        Do::Commit(changes) => {
            let mut edits = Vec::new(alloc);
            for change in changes {
                edits.push(edit(alloc, *change)?)?;
            }
            Ok(Act::Commit(Edits::from_vec(edits)))
        }
        Do::Take => Ok(Act::Take),
        Do::Give => Ok(Act::Give),
        Do::Return => Ok(Act::Return),
        Do::Publish => Ok(Act::Publish),
    }
}

/// The acts of the rows.
pub fn acts(alloc: Global, rows: &[Row]) -> Result<Vec<Asked>, Fail> {
    let mut acts = Vec::new(alloc);
    for (actor, asked, _) in rows {
        let act = act(alloc, *asked)?;
        acts.push(Asked { actor: *actor, act })?;
    }
    Ok(acts)
}

/// Why an instance doesn't fit the schema, in words.
pub fn fault_text(alloc: Global, fault: &InstanceFault) -> Result<String, Memory> {
    Ok(match fault {
        InstanceFault::UnknownEntity { name } => format!(in alloc; "unknown {}", name.as_str())?,
        InstanceFault::AbstractEntity { name } => format!(in alloc; "abstract {}", name.as_str())?,
        InstanceFault::ParamCount { found, wanted } => {
            format!(in alloc; "count {found} {wanted}")?
        }
        InstanceFault::MisplacedDerived { place } => format!(in alloc; "derived {place}")?,
    })
}

/// Why an edit is refused, in words.
fn edit_text(alloc: Global, fault: &EditFault) -> Result<String, Memory> {
    Ok(match fault {
        EditFault::Conflict { id, revision } => {
            format!(in alloc; "conflict #{} {revision}", id.get())?
        }
        EditFault::IdTaken { id } => format!(in alloc; "taken #{}", id.get())?,
        EditFault::NoInstance { id } => format!(in alloc; "missing #{}", id.get())?,
        EditFault::NoAttribute { id, attr } => {
            format!(in alloc; "attribute #{} {}", id.get(), attr.as_str())?
        }
        EditFault::Schema { id, fault } => {
            let why = fault_text(alloc, fault)?;
            format!(in alloc; "schema #{} {}", id.get(), why.as_str())?
        }
        EditFault::TooManyInstances => format!(in alloc; "instances")?,
    })
}

/// Why a commit is refused, in words.
fn refusal_text(alloc: Global, why: &CommitRefusal) -> Result<String, Memory> {
    Ok(match why {
        CommitRefusal::RevisionsFull => format!(in alloc; "refused revisions")?,
        CommitRefusal::Edit { number, fault } => {
            let why = edit_text(alloc, fault)?;
            format!(in alloc; "refused {number} {}", why.as_str())?
        }
        CommitRefusal::Dangling { from, to } => {
            format!(in alloc; "refused dangling #{} #{}", from.get(), to.get())?
        }
    })
}

/// A reply in words.
pub fn reply_text(alloc: Global, reply: &Reply) -> Result<String, Memory> {
    Ok(match reply {
        Reply::Began { revision } => format!(in alloc; "began {revision}")?,
        Reply::Accepted { revision } => format!(in alloc; "made {revision}")?,
        Reply::Refused(why) => refusal_text(alloc, why)?,
        Reply::Claimed {
            number,
            pair,
            revision,
        } => {
            format!(in alloc;
                "claim {number}: {} #{} at {revision}",
                pair.spec,
                pair.elem.get()
            )?
        }
        Reply::Idle => format!(in alloc; "idle")?,
        Reply::Used => format!(in alloc; "used")?,
        Reply::Stale {
            key: Key::Inst(id),
            revision,
        } => format!(in alloc; "stale #{} {revision}", id.get())?,
        Reply::Stale { .. } => format!(in alloc; "stale by a relationship")?,
        Reply::Back => format!(in alloc; "back")?,
        Reply::Pending(pair) => format!(in alloc; "pending {} #{}", pair.spec, pair.elem.get())?,
        Reply::Report { revision } => format!(in alloc; "report {revision}")?,
    })
}
