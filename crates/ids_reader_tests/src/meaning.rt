use crate::fixtures::{document, schema};
use audit_model::{Cardinality, Facet, Occurs, Relation, Specification};
use ids_reader::read_ids;
use ifc_base::{Memory, Name};
use std::alloc::{AllocError, Global};
use std::process::Abort;
use std::test::Fail;

/// Two specifications, the first with each facet, the second for another schema and without facets.
const DOCUMENT: &str = "{'specifications':[{'name':'a','ifcVersion':['IFC2X3','IFC4'],
'applicability':{'minOccurs':'1','maxOccurs':'unbounded','facets':[{'facet':'entity',\
    'name':{'simpleValue':'IFCWALL'}},{'facet':'material'}]},
'requirements':[
{'facet':'entity','name':{'simpleValue':'IFCWALL'},'predefinedType':{'simpleValue':'SOLIDWALL'}},
{'facet':'attribute','name':{'simpleValue':'Name'},'value':{'restriction':{'base':'xs:string',\
    'pattern':['W[0-9]{2}']}},'cardinality':'optional'},
{'facet':'property','dataType':'IfcLengthMeasure\u{e9}','propertySet':{'simpleValue':'s'},\
    'baseName':{'simpleValue':'b'},'cardinality':'prohibited'},
{'facet':'property','propertySet':{'simpleValue':'s'},'baseName':{'simpleValue':'b'},'value':{'simpleValue':'42'}},
{'facet':'classification','system':{'simpleValue':'Uniclass 2015'},'cardinality':'required'},
{'facet':'material','value':{'simpleValue':'Concrete'}},
{'facet':'partOf','relation':'IFCRELVOIDSELEMENT IFCRELFILLSELEMENT','entity':{'name':{'simpleValue':'IFCBUILDINGSTOREY'}}},
{'facet':'partOf','cardinality':'prohibited'}]},
{'name':'b','ifcVersion':['ifc4'],'applicability':{'minOccurs':'0','maxOccurs':'0','facets':[]},'requirements':[]}]}";

const TOLD: &str = "entity material;
typed entity required
attribute by value optional
property IFCLENGTHMEASURE\u{e9} prohibited
property of any type required
classification by system required
material by value required
partOf voids and fills an entity required
partOf anything prohibited
;
";

/// The requirement at a place from 0, a text, and whether its name, or else its value, admits the text.
const ADMITTED: [(usize, &str, bool); 4] = [
    (0, "IFCWALL", true),
    (0, "IFCSLAB", false),
    (1, "W01", true),
    (1, "W011", false),
];

/// What a facet says, in words.
fn words(facet: &Facet) -> &str {
    match facet {
        Facet::Entity(facet) => match facet.predefined {
            Some(_) => "typed entity",
            None => "entity",
        },
        Facet::Attribute(facet) => match facet.value {
            Some(_) => "attribute by value",
            None => "attribute",
        },
        Facet::Property(_) => "property",
        Facet::Classification(facet) => match facet.system {
            Some(_) => "classification by system",
            None => "classification",
        },
        Facet::Material(facet) => match facet.value {
            Some(_) => "material by value",
            None => "material",
        },
        Facet::PartOf(_) => "partOf",
    }
}

/// What it says besides: the data type of a property; the relation of a partOf facet, and whether it asks for an
/// entity.
fn further(facet: &Facet) -> &str {
    match facet {
        Facet::Property(facet) => match &facet.kind {
            Some(kind) => kind.as_str(),
            None => "of any type",
        },
        Facet::PartOf(facet) => match (facet.relation, &facet.entity) {
            (Relation::VoidsFills, Some(_)) => "voids and fills an entity",
            (Relation::Any, None) => "anything",
            _ => "otherwise",
        },
        _ => "",
    }
}

/// A facet in words, behind a blank if something stands before it in the line.
fn push_facet(out: &mut String, facet: &Facet) -> Result<(), AllocError> {
    out.push_str(words(facet))?;
    let further = further(facet);
    if !further.is_empty() {
        out.push(' ')?;
        out.push_str(further)?;
    }
    Ok(())
}

/// The word of a cardinality.
fn cardinality_word(cardinality: Cardinality) -> &'static str {
    match cardinality {
        Cardinality::Required => " required\n",
        Cardinality::Optional => " optional\n",
        Cardinality::Prohibited => " prohibited\n",
    }
}

/// The facets of a specification in words, a line for the applicability and one for each requirement.
fn push_specification(out: &mut String, specification: &Specification) -> Result<(), AllocError> {
    for (at, facet) in specification.applicability.as_slice().iter().enumerate() {
        if at > 0 {
            out.push(' ')?;
        }
        push_facet(out, facet)?;
    }
    out.push_str(";\n")?;
    for requirement in specification.requirements.as_slice() {
        push_facet(out, &requirement.facet)?;
        out.push_str(cardinality_word(requirement.cardinality))?;
    }
    Ok(())
}

/// Whether the name of an entity facet, or the value of an attribute facet, admits the text.
fn is_admitted(alloc: Global, facet: &Facet, text: &str) -> Result<bool, Memory> {
    match facet {
        Facet::Entity(facet) => facet.name.admits_text(alloc, text),
        Facet::Attribute(facet) => match &facet.value {
            Some(value) => value.admits_text(alloc, text),
            None => Ok(false),
        },
        _ => Ok(false),
    }
}

/// Compares what the conditions of the first specification admit with the table.
fn check_admitted<R: Abort>(
    rt: &R,
    alloc: Global,
    specifications: &[Specification],
) -> Result<(), Fail> {
    for (at, text, want) in ADMITTED {
        let requirement = specifications.first().and_then(|specification| specification
            .requirements
            .as_slice()
            .get(at));
        match requirement {
            Some(requirement) => {
                assert_eq!(rt; is_admitted(alloc, &requirement.facet, text)?, want);
            }
            None => panic!(rt; "no requirement"),
        }
    }
    Ok(())
}

/// Compares what the specifications say with what is written.
fn check_told<R: Abort>(
    rt: &R,
    alloc: Global,
    specifications: &[Specification],
) -> Result<(), Fail> {
    let mut told = String::new(alloc);
    for specification in specifications {
        push_specification(&mut told, specification)?;
    }
    assert_eq!(rt; told.as_str(), TOLD);
    for (specification, (number, for_model, occurs)) in specifications.iter().zip([
        (1, true, Occurs::Required),
        (2, false, Occurs::Prohibited),
    ]) {
        assert_eq!(rt; specification.number, number);
        assert_eq!(rt; specification.for_model, for_model);
        assert_eq!(rt; specification.occurs, occurs);
    }
    Ok(())
}

/// A document with each facet says what stands in it.
#[test]
fn each_facet_says_what_is_written(rt: HostRuntime) -> Result<(), Fail> {
    let schema = schema(rt.alloc())?;
    let schema_id = Name::from_str(rt.alloc(), "IFC4")?;
    let text = document(rt.alloc(), DOCUMENT, "")?;
    match read_ids(rt.alloc(), text.as_bytes(), &schema, &schema_id) {
        Ok(specifications) => {
            check_told(&rt, rt.alloc(), specifications.as_slice())?;
            check_admitted(&rt, rt.alloc(), specifications.as_slice())
        }
        Err(_) => panic!(rt; "not read"),
    }
}
