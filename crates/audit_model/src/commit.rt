use ifc_base::{InstId, Instance, Listed, Memory, Name, TryCopy, Value};
use schema_table::InstanceFault;
use std::alloc::Global;

/// One change of a model. Edits of a draft are numbered from 1.
#[derive(Debug, PartialEq, Eq, Drop)]
pub enum Edit {
    /// Adds an instance, whose id must be new.
    Add(Instance),
    /// Sets an attribute of an instance.
    Set {
        id: InstId,
        attr: Name,
        value: Value,
    },
    /// Removes an instance.
    Remove(InstId),
}

/// The edits of a draft, in their order.
pub type Edits = Listed<Edit>;

/// Why an edit can't be done.
#[derive(Debug, PartialEq, Eq, Drop)]
pub enum EditFault {
    /// A commit after the draft's base changed the instance, last in this revision.
    Conflict { id: InstId, revision: u32 },
    /// An instance of the id to add is there.
    IdTaken { id: InstId },
    /// There is no instance of the id to set or remove.
    NoInstance { id: InstId },
    /// The instance's entity has no attribute of this name.
    NoAttribute { id: InstId, attr: Name },
    /// The added or changed instance doesn't fit the schema.
    Schema { id: InstId, fault: InstanceFault },
    /// The model would have more instances than its limit.
    TooManyInstances,
}

/// Why a commit was refused.
#[derive(Debug, PartialEq, Eq, Drop)]
pub enum CommitRefusal {
    /// The current revision is the limit.
    RevisionsFull,
    /// The edit of this number, from 1, can't be done.
    Edit { number: u32, fault: EditFault },
    /// An instance would refer to a missing one, which it did not before the commit.
    Dangling { from: InstId, to: InstId },
}

impl TryCopy for Edit {
    fn copy(&self, alloc: Global) -> Result<Edit, Memory> {
        match self {
            Edit::Add(instance) => Ok(Edit::Add(instance.copy(alloc)?)),
            Edit::Set { id, attr, value } => {
                let attr = attr.copy(alloc)?;
                let value = value.copy(alloc)?;
                Ok(Edit::Set {
                    id: *id,
                    attr,
                    value,
                })
            }
            Edit::Remove(id) => Ok(Edit::Remove(*id)),
        }
    }
}

impl TryCopy for EditFault {
    fn copy(&self, alloc: Global) -> Result<EditFault, Memory> {
        match self {
            EditFault::Conflict { id, revision } => Ok(EditFault::Conflict {
                id: *id,
                revision: *revision,
            }),
            EditFault::IdTaken { id } => Ok(EditFault::IdTaken { id: *id }),
            EditFault::NoInstance { id } => Ok(EditFault::NoInstance { id: *id }),
            EditFault::NoAttribute { id, attr } => Ok(EditFault::NoAttribute {
                id: *id,
                attr: attr.copy(alloc)?,
            }),
            EditFault::Schema { id, fault } => Ok(EditFault::Schema {
                id: *id,
                fault: fault.copy(alloc)?,
            }),
            EditFault::TooManyInstances => Ok(EditFault::TooManyInstances),
        }
    }
}

impl TryCopy for CommitRefusal {
    fn copy(&self, alloc: Global) -> Result<CommitRefusal, Memory> {
        match self {
            CommitRefusal::RevisionsFull => Ok(CommitRefusal::RevisionsFull),
            CommitRefusal::Edit { number, fault } => Ok(CommitRefusal::Edit {
                number: *number,
                fault: fault.copy(alloc)?,
            }),
            CommitRefusal::Dangling { from, to } => Ok(CommitRefusal::Dangling {
                from: *from,
                to: *to,
            }),
        }
    }
}
