//! Facets as rows of a table, and what they say of an element. Each facet is read from the text of a specification.

use crate::fixtures::{id, keys_text, model, schema};
use audit_model::{Facet, Relation, Specification, Weighed};
use facet_own::{entity_weighed, weigh_attribute};
use facet_partof::weigh_part_of;
use facet_property::weigh_property;
use facet_relations::{weigh_classification, weigh_material};
use ids_reader::read_ids;
use ifc_base::{InstId, Keys, Memory, Name};
use model_view::Snapshot;
use schema_table::SchemaTable;
use std::alloc::{AllocError, Global};
use std::process::Abort;
use std::test::Fail;

/// A condition on a text or a value: none, this text, or this pattern.
#[derive(Clone, Copy)]
pub enum Cond {
    Any,
    Is(&'static str),
    Like(&'static str),
}

/// A facet, by its conditions.
#[derive(Clone, Copy)]
pub enum Ask {
    /// The name of the entity, and the predefined type.
    Entity(Cond, Cond),
    /// The name of the attribute, and its value.
    Attribute(Cond, Cond),
    /// The set name, the name, the data type or nothing, and the value.
    Property(Cond, Cond, &'static str, Cond),
    /// The system, and the identification.
    Classification(Cond, Cond),
    /// The name.
    Material(Cond),
    /// The relation, and the name of the entity.
    PartOf(Relation, Cond),
    /// The relation, the name of the entity, and the predefined type.
    PartOfKind(Relation, Cond, Cond),
}

/// What a facet says of an element: it holds, only what it speaks of is there, or nothing is.
#[derive(Clone, Copy)]
pub enum Told {
    Holds,
    Subject,
    Nothing,
}

/// Facets that look along one path from one element, the keys that each of them looks at, and what they say.
pub struct Group {
    pub model: &'static str,
    pub elem: u32,
    pub keys: &'static str,
    pub cases: &'static [(Ask, Told)],
}

/// What stands before the only requirement of a specification.
const FRONT: &str =
    "{\"specifications\":[{\"name\":\"\",\"ifcVersion\":[],\"applicability\":{\"minOccurs\":\"0\",\"maxOccurs\":\"0\",\
     \"facets\":[]},\"requirements\":[";

/// What stands behind it.
const BACK: &str = "]}]}";

/// The text, with what stands around it.
fn push_between(out: &mut String, front: &str, text: &str, back: &str) -> Result<(), AllocError> {
    out.push_str(front)?;
    out.push_str(text)?;
    out.push_str(back)
}

/// The member with this condition, if there is one.
fn push_condition(out: &mut String, member: &str, cond: Cond) -> Result<(), AllocError> {
    match cond {
        Cond::Any => Ok(()),
        Cond::Is(text) => {
            out.push_str(member)?;
            push_between(out, "{\"simpleValue\":\"", text, "\"}")
        }
        Cond::Like(pattern) => {
            out.push_str(member)?;
            push_between(
                out,
                "{\"restriction\":{\"base\":\"xs:string\",\"pattern\":[\"",
                pattern,
                "\"]}}",
            )
        }
    }
}

/// A condition that has to be there: any text, where none is named.
fn named(cond: Cond) -> Cond {
    match cond {
        Cond::Any => Cond::Like(".*"),
        cond => cond,
    }
}

/// An object of two conditions, of which the first has to be there; `front` is what stands before the first.
fn push_pair(
    out: &mut String,
    front: &str,
    first: Cond,
    member: &str,
    second: Cond,
) -> Result<(), AllocError> {
    push_condition(out, front, named(first))?;
    push_condition(out, member, second)?;
    out.push_str("}")
}

fn push_property(out: &mut String, set: Cond, name: Cond, value: Cond) -> Result<(), AllocError> {
    push_condition(out, ",\"propertySet\":", named(set))?;
    push_pair(out, ",\"baseName\":", name, ",\"value\":", value)
}

fn push_kind(out: &mut String, kind: &str) -> Result<(), AllocError> {
    match kind {
        "" => Ok(()),
        kind => push_between(out, ",\"dataType\":\"", kind, "\""),
    }
}

fn push_classification(out: &mut String, system: Cond, value: Cond) -> Result<(), AllocError> {
    out.push_str("{\"facet\":\"classification\"")?;
    push_condition(out, ",\"system\":", system)?;
    push_condition(out, ",\"value\":", value)?;
    out.push_str("}")
}

fn push_material(out: &mut String, value: Cond) -> Result<(), AllocError> {
    out.push_str("{\"facet\":\"material\"")?;
    push_condition(out, ",\"value\":", value)?;
    out.push_str("}")
}

/// What stands before the entity of a facet for this relation.
fn part_front(relation: Relation) -> &'static str {
    match relation {
        Relation::Any => "{\"facet\":\"partOf\"",
        Relation::Aggregates => "{\"facet\":\"partOf\",\"relation\":\"IFCRELAGGREGATES\"",
        Relation::Nests => "{\"facet\":\"partOf\",\"relation\":\"IFCRELNESTS\"",
        Relation::Contained => {
            "{\"facet\":\"partOf\",\"relation\":\"IFCRELCONTAINEDINSPATIALSTRUCTURE\""
        }
        Relation::Group => "{\"facet\":\"partOf\",\"relation\":\"IFCRELASSIGNSTOGROUP\"",
        Relation::VoidsFills => {
            "{\"facet\":\"partOf\",\"relation\":\"IFCRELVOIDSELEMENT IFCRELFILLSELEMENT\""
        }
    }
}

/// A facet for an ancestor of this entity.
fn push_part_of(
    out: &mut String,
    relation: Relation,
    name: Cond,
    kind: Cond,
) -> Result<(), AllocError> {
    out.push_str(part_front(relation))?;
    push_pair(
        out,
        ",\"entity\":{\"name\":",
        name,
        ",\"predefinedType\":",
        kind,
    )?;
    out.push_str("}")
}

/// A facet for an ancestor of this name, or for any.
fn push_part(out: &mut String, relation: Relation, name: Cond) -> Result<(), AllocError> {
    match name {
        Cond::Any => push_between(out, part_front(relation), "", "}"),
        name => push_part_of(out, relation, name, Cond::Any),
    }
}

/// The facet's object.
fn push_facet(out: &mut String, ask: Ask) -> Result<(), AllocError> {
    match ask {
        Ask::Entity(name, kind) => push_pair(
            out,
            "{\"facet\":\"entity\",\"name\":",
            name,
            ",\"predefinedType\":",
            kind,
        ),
        Ask::Attribute(name, value) => push_pair(
            out,
            "{\"facet\":\"attribute\",\"name\":",
            name,
            ",\"value\":",
            value,
        ),
        Ask::Property(set, name, kind, value) => {
            out.push_str("{\"facet\":\"property\"")?;
            push_kind(out, kind)?;
            push_property(out, set, name, value)
        }
        Ask::Classification(system, value) => push_classification(out, system, value),
        Ask::Material(value) => push_material(out, value),
        Ask::PartOf(relation, name) => push_part(out, relation, name),
        Ask::PartOfKind(relation, name, kind) => push_part_of(out, relation, name, kind),
    }
}

/// A specification of this requirement alone.
fn document(alloc: Global, ask: Ask) -> Result<String, AllocError> {
    let mut text = String::from_str(alloc, FRONT)?;
    push_facet(&mut text, ask)?;
    text.push_str(BACK)?;
    Ok(text)
}

/// Where and on what a facet is tried.
#[derive(Drop)]
struct Place<'a> {
    alloc: Global,
    schema: &'a SchemaTable,
    look: &'a Snapshot,
    elem: InstId,
}

/// Weighs the facet at the place.
fn weigh(at: &Place, facet: &Facet, reads: &mut Keys) -> Result<Weighed, Memory> {
    match facet {
        Facet::Entity(facet) => {
            entity_weighed(at.alloc, at.schema, at.look, at.elem, facet, reads)
        }
        Facet::Attribute(facet) => {
            weigh_attribute(at.alloc, at.schema, at.look, at.elem, facet, reads)
        }
        Facet::Property(facet) => {
            weigh_property(at.alloc, at.schema, at.look, at.elem, facet, reads)
        }
        Facet::Classification(facet) => {
            weigh_classification(at.alloc, at.schema, at.look, at.elem, facet, reads)
        }
        Facet::Material(facet) => {
            weigh_material(at.alloc, at.schema, at.look, at.elem, facet, reads)
        }
        Facet::PartOf(facet) => weigh_part_of(at.alloc, at.schema, at.look, at.elem, facet, reads),
    }
}

/// What is said, as a word.
fn word_of(weighed: Weighed) -> &'static str {
    if weighed.holds && weighed.subject {
        return "holds";
    }
    if weighed.holds {
        return "holds without a subject";
    }
    if weighed.subject {
        "subject"
    } else {
        "nothing"
    }
}

fn word_for(told: Told) -> &'static str {
    match told {
        Told::Holds => "holds",
        Told::Subject => "subject",
        Told::Nothing => "nothing",
    }
}

/// What the facet says at the place, and the keys that it looks at.
fn words_for(at: &Place, facet: &Facet) -> Result<String, Memory> {
    let mut reads = Keys::new(at.alloc);
    let weighed = weigh(at, facet, &mut reads)?;
    let mut text = keys_text(at.alloc, reads.as_slice())?;
    text.push_str(word_of(weighed))?;
    Ok(text)
}

/// What the first requirement says at the place.
fn told_by(at: &Place, specs: &[Specification]) -> Result<String, Memory> {
    match specs.first() {
        Some(spec) => match spec.requirements.as_slice().first() {
            Some(requirement) => words_for(at, &requirement.facet),
            None => Ok(String::from_str(at.alloc, "no requirement")?),
        },
        None => Ok(String::from_str(at.alloc, "no specification")?),
    }
}

/// What the facet says at the place, and the keys that it looks at.
fn found(at: &Place, schema_id: &Name, ask: Ask) -> Result<String, Fail> {
    let text = document(at.alloc, ask)?;
    let specs = read_ids(at.alloc, text.as_bytes(), at.schema, schema_id)?;
    Ok(told_by(at, specs.as_slice())?)
}

/// Sees what each facet of the group says, and which keys it looks at.
fn expect_group(rt: &impl Abort, at: &Place, schema_id: &Name, group: &Group) -> Result<(), Fail> {
    for (ask, wanted) in group.cases {
        let found = found(at, schema_id, *ask)?;
        let wanted = format!(in at.alloc; "{} {}", group.keys, word_for(*wanted))?;
        assert_eq!(rt; found.as_str(), wanted.as_str(), "{}", group.model);
    }
    Ok(())
}

/// Weighs each facet of the groups, and sees what it says and which keys it looks at.
pub fn expect(rt: &impl Abort, alloc: Global, groups: &[Group]) -> Result<(), Fail> {
    let schema = schema(alloc)?;
    let schema_id = Name::from_str(alloc, "IFC4")?;
    for group in groups {
        let look = model(alloc, &schema, group.model)?;
        let at = Place {
            alloc,
            schema: &schema,
            look: &look,
            elem: id(group.elem)?,
        };
        expect_group(rt, &at, &schema_id, group)?;
    }
    Ok(())
}
