use ifc_base::{Memory, Name, TryCopy};
use std::alloc::Global;
use thiserror::Error;

/// Why declarations make no schema (ISO 10303-11, entity declaration).
#[derive(Debug, PartialEq, Eq, Drop, Error)]
pub enum SchemaFault {
    /// The name of an entity stood before.
    #[error("the name {} stood before", .name.as_str())]
    Twice { name: Name },
    /// The supertype of this entity isn't declared.
    #[error("the supertype of {} is not declared", .name.as_str())]
    UnknownSuper { name: Name },
    /// The entity is its own supertype, over others or directly.
    #[error("{} is its own supertype", .name.as_str())]
    Cycle { name: Name },
    /// There are more declarations, or more attributes of one entity, than are taken.
    #[error("more declarations, or attributes of one entity, than are taken")]
    TooMany,
}

/// Why an instance doesn't fit the schema (ISO 10303-21, mapping of entity instances). Places are
/// from 1.
#[derive(Debug, PartialEq, Eq, Drop, Error)]
pub enum InstanceFault {
    #[error("there is no entity {}", .name.as_str())]
    UnknownEntity { name: Name },
    #[error("{} is abstract", .name.as_str())]
    AbstractEntity { name: Name },
    #[error("{found} parameters, where there are to be {wanted}")]
    ParamCount { found: u32, wanted: u32 },
    #[error("the value at place {place} is derived in the one, and not in the other")]
    MisplacedDerived { place: u32 },
}

impl TryCopy for InstanceFault {
    fn copy(&self, alloc: Global) -> Result<InstanceFault, Memory> {
        match self {
            InstanceFault::UnknownEntity { name } => Ok(InstanceFault::UnknownEntity {
                name: name.copy(alloc)?,
            }),
            InstanceFault::AbstractEntity { name } => Ok(InstanceFault::AbstractEntity {
                name: name.copy(alloc)?,
            }),
            InstanceFault::ParamCount { found, wanted } => Ok(InstanceFault::ParamCount {
                found: *found,
                wanted: *wanted,
            }),
            InstanceFault::MisplacedDerived { place } => {
                Ok(InstanceFault::MisplacedDerived { place: *place })
            }
        }
    }
}
