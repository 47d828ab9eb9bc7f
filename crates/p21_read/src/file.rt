//! Whole files.

ghost use Rattle.std.specs.Prelude.{◌≡◌};
ghost use Rattle.reading.specs.Codes.{codes_of};
ghost use Rattle.reading.specs.Reading.{Yields};
ghost use Rattle.p21_read.specs.Files as spec;

use crate::data::sections;
use crate::fault::P21Cause;
use crate::header::header;
use ifc_base::{Instances, Name};
use reading::{Cursor, Stop};
use std::alloc::Global;

/// What is kept of an exchange file (ISO 10303-21).
#[derive(Debug, Drop)]
pub struct P21File {
    /// The first text in the list of FILE_SCHEMA, up to its first space, in upper case; empty where there is none.
    pub schema_id: Name,
    /// The instances of all data sections, in the order of the file.
    pub instances: Instances,
}

/// A whole file.
#[tactic(auto, unfolding(crate::specs::Files::whole_file))]
pub(crate) fn whole_file(
    alloc: Global,
    bytes: &[u8],
    most: u32,
) -> Result<P21File, Stop<'_, P21Cause>>
    ensures { Yields (λ x. x) result (spec.whole_file most (codes_of bytes.now)) }
{
    let mut cursor = Cursor::new(bytes);
    let schema_id = header(alloc, &mut cursor)?;
    let gathered = sections(alloc, most, &mut cursor)?;
    Ok(P21File {
        schema_id,
        instances: gathered.into_instances(),
    })
}
