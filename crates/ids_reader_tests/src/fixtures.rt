//! Documents by frames, and what the reader answers for them.

use ids_reader::read_ids;
use ifc_base::{EntityDecl, EntityDecls, Listed, Memory, Name, Names, Refusal, TypeDecls};
use schema_table::{SchemaFault, SchemaTable};
use std::alloc::{AllocError, Global};
use std::test::Fail;

/// An entity of this name, without a supertype and without attributes.
fn entity(alloc: Global, name: &str) -> Result<EntityDecl, Memory> {
    Ok(EntityDecl {
        name: Name::from_str(alloc, name)?,
        parent: None,
        is_abstract: false,
        own: Names::new(alloc),
        derived: Names::new(alloc),
    })
}

/// The schema that declares `IFCWALL` and `IFCBUILDINGSTOREY`.
pub fn schema(alloc: Global) -> Result<SchemaTable, Refusal<SchemaFault>> {
    let mut entities = Vec::with_capacity(alloc, 2)?;
    entities.push(entity(alloc, "IFCWALL")?)?;
    entities.push(entity(alloc, "IFCBUILDINGSTOREY")?)?;
    SchemaTable::build(alloc, Listed::from_vec(entities), TypeDecls::new(alloc))
}

/// The frame with the piece at each `@`, and with double quotes in place of single ones.
pub fn document(alloc: Global, frame: &str, piece: &str) -> Result<String, AllocError> {
    let mut text = String::new(alloc);
    for part in frame.chars() {
        if part == '@' {
            text.push_str(piece)?;
        } else {
            text.push(part)?;
        }
    }
    quoted(alloc, text.as_str())
}

/// The text with double quotes in place of single ones.
fn quoted(alloc: Global, text: &str) -> Result<String, AllocError> {
    let mut out = String::with_capacity(alloc, text.len())?;
    for part in text.chars() {
        out.push(if part == '\'' { '"' } else { part })?;
    }
    Ok(out)
}

/// Where the pieces of the tables stand.
pub fn frame(name: &str) -> &'static str {
    match name {
        "specification" => "{'specifications':[@]}",
        "applicability" => {
            "{'specifications':[{'name':'n','ifcVersion':['IFC4'],'applicability':@,'requirements':[]}]}"
        }
        "applicable" => {
            "{'specifications':[{'name':'n','ifcVersion':['IFC4'],'applicability':{'minOccurs':'0',\
             'maxOccurs':'unbounded','facets':[@]},'requirements':[]}]}"
        }
        "required" => {
            "{'specifications':[{'name':'n','ifcVersion':['IFC4'],'applicability':{'minOccurs':'0',\
             'maxOccurs':'unbounded','facets':[{'facet':'entity','name':{'simpleValue':'IFCWALL'}}]},\
             'requirements':[@]}]}"
        }
        "other" => {
            "{'specifications':[{'name':'n','ifcVersion':['IFC2X3'],'applicability':{'minOccurs':'0',\
             'maxOccurs':'unbounded','facets':[{'facet':'entity','name':{'simpleValue':'IFCWALL'}}]},\
             'requirements':[@]}]}"
        }
        "entity" => {
            "{'specifications':[{'name':'n','ifcVersion':['IFC4'],'applicability':{'minOccurs':'0',\
             'maxOccurs':'unbounded','facets':[]},'requirements':[{'facet':'partOf','entity':@}]}]}"
        }
        "condition" => {
            "{'specifications':[{'name':'n','ifcVersion':['IFC4'],'applicability':{'minOccurs':'0',\
             'maxOccurs':'unbounded','facets':[]},'requirements':[{'facet':'material','value':@}]}]}"
        }
        "restriction" => {
            "{'specifications':[{'name':'n','ifcVersion':['IFC4'],'applicability':{'minOccurs':'0',\
             'maxOccurs':'unbounded','facets':[]},'requirements':[{'facet':'material','value':{'restriction':@}}]}]}"
        }
        _ => "@",
    }
}

/// What is answered for the document: `read`, or the specification, the place and the cause of the fault.
pub fn answer(alloc: Global, schema: &SchemaTable, text: &str) -> Result<String, Fail> {
    let schema_id = Name::from_str(alloc, "IFC4")?;
    match read_ids(alloc, text.as_bytes(), schema, &schema_id) {
        Ok(_) => Ok(String::from_str(alloc, "read")?),
        Err(Refusal::Fault(fault)) => Ok(format!(in alloc;
            "{} {} {:?}",
            fault.spec, fault.place, fault.why
        )?),
        Err(Refusal::Memory) => Ok(String::from_str(alloc, "memory")?),
    }
}
