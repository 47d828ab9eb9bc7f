use crate::made::add;
use express_decl::{Decls, read_declarations};
use ifc_base::{Memory, Refusal};
use schema_table::{SchemaFault, SchemaTable};
use std::alloc::Global;
use std::test::Fail;

/// Entities, each with its supertype or an empty text.
type Entities = &'static [(&'static str, &'static str)];

/// Entities, the number of own attributes of one more behind them, that of types, and what is refused, if
/// anything is.
const SCHEMAS: &[(Entities, u32, u32, &str)] = &[
    (&[("b", "a"), ("c", "B"), ("A", "")], 200, 4996, ""),
    (&[("b", "a"), ("c", "B"), ("A", "")], 200, 4997, "too many"),
    (&[], 201, 0, "too many"),
    (&[("a", ""), ("a", "x"), ("b", "b")], 201, 0, "too many"),
    (&[("a", ""), ("b", ""), ("A", "b")], 0, 0, "A twice"),
    (&[("a", "b")], 0, 0, "A unknown supertype"),
    (&[("a", "t0")], 0, 1, "A unknown supertype"),
    // The first entity in declared order, and of one that has both faults the name.
    (&[("a", ""), ("a", "x")], 0, 0, "A twice"),
    (&[("a", ""), ("a", ""), ("b", "x")], 0, 0, "A twice"),
    (
        &[("a", ""), ("b", "x"), ("a", "")],
        0,
        0,
        "B unknown supertype",
    ),
    // A cycle comes behind both, with the first of its entities and no other subtype.
    (&[("a", "a"), ("a", "")], 0, 0, "A twice"),
    (&[("a", "a"), ("b", "x")], 0, 0, "B unknown supertype"),
    (&[("a", "a")], 0, 0, "A cycle"),
    (&[("a", "b"), ("b", "a")], 0, 0, "A cycle"),
    (&[("b", "a"), ("a", "b")], 0, 0, "B cycle"),
    (&[("d", "a"), ("a", "b"), ("b", "a")], 0, 0, "A cycle"),
    (
        &[("d", "c"), ("c", "c"), ("a", "b"), ("b", "a")],
        0,
        0,
        "C cycle",
    ),
];

/// Adds an entity without attributes.
fn add_entity(alloc: Global, out: &mut Vec<u8>, name: &str, parent: &str) -> Result<(), Memory> {
    let text = if parent.is_empty() {
        format!(in alloc; "ENTITY {name}; END_ENTITY;")?
    } else {
        format!(in alloc; "ENTITY {name} SUBTYPE OF ({parent}); END_ENTITY;")?
    };
    add(alloc, out, text.as_str(), 0)
}

/// Adds the text for each number below this one.
fn add_each(alloc: Global, out: &mut Vec<u8>, text: &str, numbers: u32) -> Result<(), Memory> {
    for number in 0..numbers {
        add(alloc, out, text, number)?;
    }
    Ok(())
}

/// The declarations of a row.
fn text(alloc: Global, entities: Entities, own: u32, types: u32) -> Result<Vec<u8>, Memory> {
    let mut out = Vec::new(alloc);
    add(alloc, &mut out, "SCHEMA s;", 0)?;
    for (name, parent) in entities {
        add_entity(alloc, &mut out, *name, *parent)?;
    }
    add(alloc, &mut out, "ENTITY last;", 0)?;
    add_each(alloc, &mut out, "a@ : x;", own)?;
    add(alloc, &mut out, "END_ENTITY;", 0)?;
    add_each(alloc, &mut out, "TYPE t@ = x; END_TYPE;", types)?;
    add(alloc, &mut out, "END_SCHEMA;", 0)?;
    Ok(out)
}

/// The name that the fault carries, and its cause.
fn told(alloc: Global, fault: &SchemaFault) -> Result<String, Memory> {
    let (name, cause) = match fault {
        SchemaFault::Twice { name } => (name.as_str(), " twice"),
        SchemaFault::UnknownSuper { name } => (name.as_str(), " unknown supertype"),
        SchemaFault::Cycle { name } => (name.as_str(), " cycle"),
        SchemaFault::TooMany => ("", "too many"),
    };
    Ok(format!(in alloc; "{name}{cause}")?)
}

/// What is refused of the declarations in this text, if anything is.
fn refused(alloc: Global, text: &[u8]) -> Result<String, Fail> {
    let Decls { entities, types } = read_declarations(alloc, text)?;
    match SchemaTable::build(alloc, entities, types) {
        Ok(_table) => Ok(String::new(alloc)),
        Err(Refusal::Fault(fault)) => Ok(told(alloc, &fault)?),
        Err(Refusal::Memory) => Err("memory".into()),
    }
}

/// What is refused of the declarations of a row, if anything is.
fn outcome(alloc: Global, entities: Entities, own: u32, types: u32) -> Result<String, Fail> {
    let text = text(alloc, entities, own, types)?;
    refused(alloc, text.as_slice())
}

#[test]
fn faults_of_schemas_in_their_order(rt: HostRuntime) -> Result<(), Fail> {
    let alloc = rt.alloc();
    for (entities, own, types, wanted) in SCHEMAS {
        let outcome = outcome(alloc, *entities, *own, *types)?;
        assert_eq!(rt; outcome.as_str(), *wanted);
    }
    Ok(())
}
