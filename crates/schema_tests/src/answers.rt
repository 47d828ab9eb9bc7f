use crate::made::large_table;
use ifc_base::{InstId, Instance, Memory, Name, Refusal, Value, ValueNode, Values};
use schema_table::{InstanceFault, SchemaTable};
use std::alloc::Global;
use std::process::Abort;
use std::test::Fail;

/// What is asked of an entity: whether it is a kind of another one, the place of an attribute, its attributes with the derived ones
/// behind a `*`, or why its instance with these parameters doesn't fit.
#[derive(Clone, Copy)]
enum Ask {
    Kind,
    Place,
    Attributes,
    Misfit,
}

/// What is asked, of which entity, about what, and the answer.
type Row = (Ask, &'static str, &'static str, &'static str);

/// Above 775 stand 154, 30, 5 and 0; those of an odd number redeclare the first attribute of their supertype.
const ROWS: &[Row] = &[
    (Ask::Kind, "MADE775", "MADE0", "true"),
    (Ask::Kind, "MADE775", "MADE5", "true"),
    (Ask::Kind, "MADE775", "MADE154", "true"),
    (Ask::Kind, "MADE775", "MADE775", "true"),
    (Ask::Kind, "MADE775", "MADE153", "false"),
    (Ask::Kind, "MADE775", "Made0", "false"),
    (Ask::Kind, "MADE0", "MADE775", "false"),
    (Ask::Kind, "MADE776", "MADE0", "false"),
    (Ask::Kind, "MADE776", "MADE776", "true"),
    // Only what is declared as the entity's or a supertype's own has a place.
    (Ask::Place, "MADE775", "A0", "0"),
    (Ask::Place, "MADE775", "b5", "3"),
    (Ask::Place, "MADE775", "b775", "9"),
    (Ask::Place, "MADE775", "c775", "none"),
    (Ask::Place, "MADE775", "Parts775", "none"),
    (Ask::Place, "MADE775", "B775", "none"),
    (Ask::Place, "MADE5", "A775", "none"),
    (Ask::Place, "MADE776", "A0", "none"),
    (Ask::Attributes, "MADE0", "", "A0 b0 "),
    (Ask::Attributes, "MADE5", "", "*A0 b0 A5 b5 "),
    (
        Ask::Attributes,
        "MADE154",
        "",
        "*A0 b0 A5 b5 A30 b30 A154 b154 ",
    ),
    (
        Ask::Attributes,
        "MADE775",
        "",
        "*A0 b0 A5 b5 A30 b30 *A154 b154 A775 b775 ",
    ),
    (Ask::Attributes, "MADE776", "", "none"),
    (Ask::Misfit, "MADE5", "*111", ""),
    (Ask::Misfit, "MADE5", "$$$$", ""),
    (Ask::Misfit, "MADE775", "*1$111*111", ""),
    (Ask::Misfit, "MADE776", "", "unknown MADE776"),
    (Ask::Misfit, "Made5", "*111", "unknown Made5"),
    (Ask::Misfit, "MADE0", "11", "abstract MADE0"),
    (Ask::Misfit, "MADE0", "1", "abstract MADE0"),
    (Ask::Misfit, "MADE0", "*1", "abstract MADE0"),
    (Ask::Misfit, "MADE5", "", "count 0 4"),
    (Ask::Misfit, "MADE5", "1111*", "count 5 4"),
    (Ask::Misfit, "MADE5", "11**", "derived 1"),
    (Ask::Misfit, "MADE5", "$11*", "derived 4"),
    (Ask::Misfit, "MADE775", "*111111111", "derived 7"),
    (Ask::Misfit, "MADE775", "*11111**1*", "derived 8"),
];

/// Whether the entity is a kind of the other one.
fn kind(alloc: Global, table: &SchemaTable, entity: &Name, of: &str) -> Result<String, Memory> {
    let of = Name::from_str(alloc, of)?;
    let is_kind = table.is_kind_of(entity, &of);
    Ok(format!(in alloc; "{is_kind}")?)
}

/// The place of the attribute, or that there is none.
fn place(alloc: Global, table: &SchemaTable, entity: &Name, attr: &str) -> Result<String, Memory> {
    let attr = Name::from_str(alloc, attr)?;
    match table.position(entity, &attr) {
        Some(place) => Ok(format!(in alloc; "{place}")?),
        None => Ok(String::from_str(alloc, "none")?),
    }
}

/// The attributes of the entity in their order, each with a blank behind it.
fn attributes(alloc: Global, table: &SchemaTable, entity: &Name) -> Result<String, Memory> {
    let mut out = String::new(alloc);
    let Some(slots) = table.attributes(entity) else {
        out.push_str("none")?;
        return Ok(out);
    };
    for slot in slots {
        if slot.derived {
            out.push('*')?;
        }
        out.push_str(slot.name.as_str())?;
        out.push(' ')?;
    }
    Ok(out)
}

/// Parameters, each `*`, `$` or, for another character, the integer 1.
fn params(alloc: Global, text: &str) -> Result<Values, Memory> {
    let mut values = Vec::new(alloc);
    for byte in text.as_bytes() {
        let node = match *byte {
            b'*' => ValueNode::Derived,
            b'$' => ValueNode::Absent,
            _ => ValueNode::Int(1),
        };
        values.push(Value { node })?;
    }
    Ok(Values::from_vec(values))
}

/// The cause of the fault, and what it carries.
fn told(alloc: Global, fault: &InstanceFault) -> Result<String, Memory> {
    let text = match fault {
        InstanceFault::UnknownEntity { name } => format!(in alloc; "unknown {}", name.as_str())?,
        InstanceFault::AbstractEntity { name } => format!(in alloc; "abstract {}", name.as_str())?,
        InstanceFault::ParamCount { found, wanted } => format!(in alloc; "count {found} {wanted}")?,
        InstanceFault::MisplacedDerived { place } => format!(in alloc; "derived {place}")?,
    };
    Ok(text)
}

/// An instance of this entity with these parameters.
fn instance(alloc: Global, entity: &Name, text: &str) -> Result<Instance, Memory> {
    let id = InstId::new(1).ok_or(Memory)?;
    let params = params(alloc, text)?;
    let entity = Name::from_str(alloc, entity.as_str())?;
    Ok(Instance { id, entity, params })
}

/// What is refused of the instance, if anything is.
fn refused(alloc: Global, table: &SchemaTable, instance: &Instance) -> Result<String, Memory> {
    match table.check_instance(alloc, instance) {
        Ok(()) => Ok(String::new(alloc)),
        Err(Refusal::Fault(fault)) => told(alloc, &fault),
        Err(Refusal::Memory) => Err(Memory),
    }
}

/// What is answered to the row.
fn answer(alloc: Global, table: &SchemaTable, row: &Row) -> Result<String, Memory> {
    let (ask, entity, about, _) = *row;
    let entity = Name::from_str(alloc, entity)?;
    match ask {
        Ask::Kind => kind(alloc, table, &entity, about),
        Ask::Place => place(alloc, table, &entity, about),
        Ask::Attributes => attributes(alloc, table, &entity),
        Ask::Misfit => refused(alloc, table, &instance(alloc, &entity, about)?),
    }
}

/// Sees that the row is answered as it says.
fn see(rt: &impl Abort, alloc: Global, table: &SchemaTable, row: &Row) -> Result<(), Memory> {
    let answer = answer(alloc, table, row)?;
    assert_eq!(rt; answer.as_str(), row.3);
    Ok(())
}

/// Every call of the table of a schema of 776 entities, of which each has every kind of section.
#[test]
fn a_schema_of_the_size_of_ifc4(rt: HostRuntime) -> Result<(), Fail> {
    let alloc = rt.alloc();
    let table = large_table(alloc)?;
    for row in ROWS {
        see(&rt, alloc, &table, row)?;
    }
    Ok(())
}
