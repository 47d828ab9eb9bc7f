//! The document, and the bytes that it is read of.
ghost use Rattle.std.specs.Prelude.{◌≡◌, ◌≤◌, List, length, map, IfOk, Ok};
ghost use Rattle.serde_json.specs.View.{view};
ghost use Rattle.audit_model.specs.Specifications.{AreSpecifications};
ghost use Rattle.audit_model.specs.declared.specification.Specification.{Specification};
ghost use Rattle.ids_reader.specs.Documents.{document_form, document_of, ids_reading, value_reading, Says};
ghost use Rattle.ids_reader.specs.Reads.{Answers, AnswersBy};

use crate::condition::is_object_of;
use crate::fault::{IdsCause, IdsFault};
use crate::members::{has_only, items_at};
use crate::specification::specifications_of;
use crate::tables::Object;
use audit_model::Specifications;
use ifc_base::{Name, Refusal};
use schema_table::SchemaTable;
use serde_json::Value;
use std::alloc::Global;

/// How many specifications a document may have.
const MOST_SPECIFICATIONS: usize = 1000;

/// The list of a document's specifications, or the first cause for the document.
#[tactic(auto, unfolding(crate::specs::Documents::document_form))]
fn document_form(value: &Value) -> Result<&[Value], Refusal<IdsCause>>
    ensures form { AnswersBy (λ items. map view items.now) (document_form (view value.now)) result }
    ensures few { IfOk result (λ items. length items.now ≤ 1000) }
{
    if !is_object_of(Object::Document, value) {
        return Err(Refusal::Fault(IdsCause::Shape));
    }
    if !has_only(Object::Document, value) {
        return Err(Refusal::Fault(IdsCause::UnknownMember));
    }
    let items = items_at("specifications", value);
    if items.len() > MOST_SPECIFICATIONS {
        return Err(Refusal::Fault(IdsCause::TooMany));
    }
    Ok(items)
}

/// What a document says, or the first fault.
#[tactic(auto, unfolding(crate::specs::Documents::document_of))]
fn document_of(
    alloc: Global,
    schema: &SchemaTable,
    schema_id: &Name,
    value: &Value,
) -> Result<Specifications, Refusal<IdsFault>>
    ensures { Answers (document_of schema.now schema_id.now (view value.now)) result }
{
    match document_form(value) {
        Ok(items) => specifications_of(alloc, schema, schema_id, items),
        Err(Refusal::Fault(why)) => Err(Refusal::Fault(IdsFault {
            spec: 0,
            place: 0,
            why,
        })),
        Err(Refusal::Memory) => Err(Refusal::Memory),
    }
}

/// The value that the bytes are, in JSON.
#[tactic(auto, using(crate::proofs::BytesLemmas::value_read, crate::proofs::BytesLemmas::no_value))]
fn value_of(alloc: Global, bytes: &[u8]) -> Result<Value, Refusal<IdsFault>>
    ensures { AnswersBy (λ value. view value) (value_reading bytes.now) result }
{
    match Value::from_slice(alloc, bytes) {
        Ok(value) => Ok(value),
        Err(e) if e.is_memory() => Err(Refusal::Memory),
        Err(_) => Err(Refusal::Fault(IdsFault {
            spec: 0,
            place: 0,
            why: IdsCause::Json,
        })),
    }
}

#[tactic(auto, unfolding(crate::specs::Documents::ids_reading))]
fn reading_of(
    alloc: Global,
    bytes: &[u8],
    schema: &SchemaTable,
    schema_id: &Name,
) -> Result<Specifications, Refusal<IdsFault>>
    ensures { Answers (ids_reading schema.now schema_id.now bytes.now) result }
{
    let value = value_of(alloc, bytes)?;
    document_of(alloc, schema, schema_id, &value)
}

/// Reads the specifications of a document (IDS 1.0; the mapping to JSON is this project's own), under the schema that
/// the model has and its id, such as `IFC4`.
///
/// A specification whose `ifcVersion` hasn't the id is read too, and isn't for the model. Only in those for the model
/// are the simple names of entities looked up in the schema, as they are written.
///
/// It refuses for the first fault: that of the document at specification 0 and place 0; then, specification by
/// specification, that of the specification itself at place 0, and after it those of its facets in order, from place
/// 1. `IdsCause` has the causes; at one place the first is told, in the order Json, Shape of what is no object, no
/// facet or a second entity facet, UnknownMember, Shape, Cardinality, TooMany, Occurs, Restriction, UnknownEntity; of the
/// document all of Shape comes before UnknownMember. Besides, it refuses for want of memory. A refusal keeps nothing.
///
/// `O(n log n)` in the number of bytes, as `serde_json` keeps the members of an object in order; everything else is
/// linear in the value that it reads, and looks each entity up once.
pub fn read_ids(
    alloc: Global,
    bytes: &[u8],
    schema: &SchemaTable,
    schema_id: &Name,
) -> Result<Specifications, Refusal<IdsFault>>
    // What is answered is what the bytes say, or their first fault.
    ensures exact { Answers (ids_reading schema.now schema_id.now bytes.now) result }
    // The specifications are those that the bytes say.
    ensures found { IfOk result (Says schema.now schema_id.now bytes.now) }
    // No others are: of specifications that the bytes say these are answered.
    ensures only { (specs : List Specification) → Says schema.now schema_id.now bytes.now specs → Answers (Ok specs) result }
    // They are numbered by their places, and are as few and have the facets and cardinalities as is asked of specifications.
    ensures form { IfOk result AreSpecifications }
{
    reading_of(alloc, bytes, schema, schema_id)
}
