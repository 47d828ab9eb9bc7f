use crate::fixtures::{answer, document, frame, schema};
use schema_table::SchemaTable;
use std::alloc::{AllocError, Global};
use std::process::Abort;
use std::test::Fail;

/// What is answered, where the piece stands, and the piece. Single quotes stand for double ones.
const CASES: &str = "0 0 Json|whole|
0 0 Json|whole|{'specifications':[
0 0 Json|whole|{'specifications':[]}{}
0 0 Json|whole|walls
0 0 Json|whole|{'specifications':[],}
0 0 Shape|whole|[]
0 0 Shape|whole|null
0 0 Shape|whole|{}
0 0 Shape|whole|{'other':1}
0 0 Shape|whole|{'specifications':{}}
0 0 Shape|whole|{'specifications':'','other':1}
0 0 UnknownMember|whole|{'specifications':[],'other':1}
0 0 UnknownMember|whole|{'specifications':[1],'other':1}
0 0 UnknownMember|whole|{'specifications':[],'Info':1}
read|whole|{'specifications':[]}
1 0 Shape|specification|[]
1 0 Shape|specification|'walls'
1 0 Shape|specification|{}
1 0 UnknownMember|specification|{'other':1}
1 0 UnknownMember|specification|{'applicability':{'other':1}}
1 0 Shape|specification|{'name':'n','ifcVersion':[4],'applicability':{'minOccurs':'0','maxOccurs':'0','facets':[]},\
    'requirements':[]}
1 0 Shape|specification|{'name':'n','ifcVersion':['IFC4',null],'applicability':{'minOccurs':'0','maxOccurs':'0',\
    'facets':[]},'requirements':[]}
read|specification|{'name':'','ifcVersion':[],'applicability':{'minOccurs':'0','maxOccurs':'0','facets':[]},\
    'requirements':[]}
1 0 UnknownMember|specification|{'ifcVersion':[],'applicability':{'minOccurs':'2','maxOccurs':'0','facets':[],\
    'other':1},'requirements':[]}
1 0 Shape|specification|{'ifcVersion':[],'applicability':{'minOccurs':'2','maxOccurs':'0','facets':[]},'requirements':[]}
1 0 Shape|applicability|[]
1 0 Shape|applicability|{'minOccurs':0,'maxOccurs':'unbounded','facets':[]}
1 0 Shape|applicability|{'minOccurs':'0','maxOccurs':0,'facets':[]}
read|applicability|{'minOccurs':'0','maxOccurs':'unbounded','facets':[]}
read|applicability|{'minOccurs':'1','maxOccurs':'unbounded','facets':[]}
read|applicability|{'minOccurs':'0','maxOccurs':'0','facets':[]}
1 0 Occurs|applicability|{'minOccurs':'1','maxOccurs':'0','facets':[]}
1 0 Occurs|applicability|{'minOccurs':'0','maxOccurs':'1','facets':[]}
1 0 Occurs|applicability|{'minOccurs':'1','maxOccurs':'1','facets':[]}
1 0 Occurs|applicability|{'minOccurs':'2','maxOccurs':'unbounded','facets':[]}
1 0 Occurs|applicability|{'minOccurs':'unbounded','maxOccurs':'unbounded','facets':[]}
1 0 Occurs|applicability|{'minOccurs':'00','maxOccurs':'0','facets':[]}
1 0 Occurs|applicability|{'minOccurs':'','maxOccurs':'','facets':[]}
1 0 Occurs|applicability|{'minOccurs':'0','maxOccurs':'Unbounded','facets':[1]}
1 1 Shape|applicable|1
1 1 Shape|applicable|[]
1 1 Shape|applicable|{}
1 1 Shape|applicable|{'facet':'wall'}
1 1 Shape|applicable|{'facet':'Entity','name':{'simpleValue':'IFCWALL'}}
1 1 Shape|applicable|{'facet':'partof'}
1 1 Shape|applicable|{'facet':null,'other':1}
1 1 UnknownMember|applicable|{'facet':'entity','other':1}
1 1 UnknownMember|applicable|{'facet':'entity','cardinality':'required','name':{'simpleValue':'IFCWALL'}}
1 2 Shape|applicable|{'facet':'entity','name':{'simpleValue':'IFCWALL'}},{'facet':'entity','name':{'simpleValue':'IFCWALL'}}
1 2 Shape|applicable|{'facet':'entity','name':{'simpleValue':'IFCWALL'}},{'facet':'entity','other':1}
1 3 Shape|applicable|{'facet':'entity','name':{'simpleValue':'IFCWALL'}},{'facet':'material'},{'facet':'entity',\
    'name':{'simpleValue':'IFCWALL'}}
1 1 UnknownEntity|applicable|{'facet':'entity','name':{'simpleValue':'IFCWAL'}},{'facet':'entity',\
    'name':{'simpleValue':'IFCWALL'}}
read|applicable|{'facet':'material','cardinality':'required'}
1 1 Cardinality|applicable|{'facet':'material','cardinality':'optional'}
1 1 Cardinality|applicable|{'facet':'material','cardinality':'prohibited'}
1 1 Cardinality|applicable|{'facet':'partOf','cardinality':'prohibited'}
1 1 Cardinality|applicable|{'facet':'property','propertySet':{'simpleValue':''},'baseName':{'simpleValue':''},\
    'cardinality':''}
1 1 Cardinality|applicable|{'facet':'attribute','name':{'restriction':{'base':''}},'cardinality':'optional'}
1 1 Cardinality|applicable|{'facet':'classification','cardinality':'optional'}
1 1 UnknownEntity|applicable|{'facet':'entity','name':{'simpleValue':'IFCWAL'}}
1 1 UnknownEntity|applicable|{'facet':'entity','name':{'simpleValue':'IfcWall'}}
1 1 UnknownEntity|applicable|{'facet':'entity','name':{'simpleValue':''}}
1 2 Shape|required|'facet'
read|required|{'facet':'entity','name':{'simpleValue':'IFCWALL'}},{'facet':'entity','name':{'simpleValue':'IFCWALL'}}
1 2 UnknownMember|required|{'facet':'entity','name':{'simpleValue':'IFCWALL'},'cardinality':'required'}
1 2 UnknownMember|required|{'facet':'material','system':{'simpleValue':''}}
1 2 UnknownMember|required|{'facet':'material','value':{'other':1}}
1 2 UnknownMember|required|{'facet':'material','value':{'simpleValue':1,'other':1}}
1 2 UnknownMember|required|{'facet':'material','value':{'restriction':{'other':1}}}
1 2 UnknownMember|required|{'facet':'material','value':{'simpleValue':'','restriction':{'other':1}}}
1 2 UnknownMember|required|{'facet':'partOf','relation':'NONE','entity':{'other':1}}
1 2 UnknownMember|required|{'facet':'partOf','entity':{'name':{'other':1}}}
1 2 UnknownMember|required|{'facet':'partOf','entity':{'predefinedType':{'restriction':{'base':'','other':1}}}}
1 2 UnknownMember|required|{'facet':'property','value':{'restriction':{'other':1}}}
1 2 Shape|required|{'facet':'material','value':{'simpleValue':{'other':1}}}
1 2 Shape|required|{'facet':'material','value':{'restriction':{'base':{'other':1}}}}
1 2 Shape|required|{'facet':'material','uri':{'other':1}}
1 2 Shape|required|{'facet':'property','propertySet':{'simpleValue':''},'cardinality':'never'}
1 2 Shape|required|{'facet':'partOf','relation':'IFCRELAGGREGATE','cardinality':'optional'}
1 2 Shape|required|{'facet':'partOf','relation':'IFCRELVOIDSELEMENT'}
1 2 Shape|required|{'facet':'partOf','relation':'IFCRELFILLSELEMENT IFCRELVOIDSELEMENT'}
1 2 Shape|required|{'facet':'partOf','relation':'ifcrelnests'}
1 2 Shape|required|{'facet':'partOf','relation':''}
read|required|{'facet':'partOf','relation':'IFCRELAGGREGATES'}
read|required|{'facet':'partOf','relation':'IFCRELNESTS'}
read|required|{'facet':'partOf','relation':'IFCRELCONTAINEDINSPATIALSTRUCTURE'}
read|required|{'facet':'partOf','relation':'IFCRELASSIGNSTOGROUP'}
read|required|{'facet':'partOf','relation':'IFCRELVOIDSELEMENT IFCRELFILLSELEMENT'}
read|required|{'facet':'partOf'}
read|required|{'facet':'partOf','cardinality':'prohibited'}
1 2 Cardinality|required|{'facet':'partOf','cardinality':'optional'}
1 2 Cardinality|required|{'facet':'partOf','cardinality':'optional','entity':{'name':{'simpleValue':'IFCWAL'}}}
1 2 Cardinality|required|{'facet':'material','cardinality':'Required'}
1 2 Cardinality|required|{'facet':'material','cardinality':'','value':{'restriction':{'base':''}}}
read|required|{'facet':'material','cardinality':'optional'}
read|required|{'facet':'classification','cardinality':'prohibited'}
read|required|{'facet':'attribute','name':{'simpleValue':''},'cardinality':'optional'}
read|required|{'facet':'property','propertySet':{'simpleValue':''},'baseName':{'simpleValue':''},'cardinality':'prohibited'}
1 2 Restriction|required|{'facet':'entity','name':{'restriction':{'base':'xs:string'}},'predefinedType':{'simpleValue':''}}
1 2 Restriction|required|{'facet':'entity','name':{'simpleValue':'IFCWAL'},\
    'predefinedType':{'restriction':{'base':'string','pattern':['a']}}}
1 2 Restriction|required|{'facet':'partOf','entity':{'name':{'simpleValue':'IFCWAL'},\
    'predefinedType':{'restriction':{'base':'xs:string','pattern':['(']}}}}
1 2 Restriction|required|{'facet':'material','value':{'restriction':{'base':'xs:string','minInclusive':'1'}}}
1 2 Restriction|required|{'facet':'property','propertySet':{'simpleValue':''},'baseName':{'simpleValue':''},\
    'value':{'restriction':{'base':'xs:string','length':'x'}}}
1 2 UnknownEntity|required|{'facet':'entity','name':{'simpleValue':'IFCWAL'}}
1 2 UnknownEntity|required|{'facet':'partOf','entity':{'name':{'simpleValue':'IFCSTOREY'}}}
1 3 UnknownEntity|required|{'facet':'material'},{'facet':'partOf','entity':{'name':{'simpleValue':'Ifcwall'}}}
read|required|{'facet':'entity','name':{'restriction':{'base':'xs:string','enumeration':['IFCWAL']}}}
read|required|{'facet':'partOf','entity':{'name':{'simpleValue':'IFCBUILDINGSTOREY'}}}
read|required|{'facet':'attribute','name':{'simpleValue':'IFCWAL'}}
read|other|{'facet':'entity','name':{'simpleValue':'IFCWAL'}}
read|other|{'facet':'partOf','entity':{'name':{'simpleValue':'ifcwal'}}}
1 2 Cardinality|other|{'facet':'partOf','cardinality':'optional'}
1 2 Restriction|other|{'facet':'entity','name':{'restriction':{'base':'xs:string'}}}
read|condition|{'simpleValue':''}
read|condition|{'simpleValue':'one','simpleValue':'two'}
read|condition|{'restriction':{'base':'xs:string','pattern':['']}}
1 1 Shape|condition|{}
1 1 Shape|condition|[]
1 1 Shape|condition|null
1 1 Shape|condition|'text'
1 1 Shape|condition|{'simpleValue':null}
1 1 Shape|condition|{'simpleValue':1}
1 1 Shape|condition|{'simpleValue':'','simpleValue':1}
1 1 Shape|condition|{'restriction':null}
1 1 Shape|condition|{'restriction':'xs:string'}
1 1 Shape|condition|{'simpleValue':'','restriction':{'base':'xs:string','pattern':['']}}
1 1 Shape|condition|{'simpleValue':null,'restriction':{'base':'xs:string','pattern':['']}}
1 1 Shape|restriction|{'base':'xs:string','enumeration':'a'}
1 1 Shape|restriction|{'base':'xs:string','enumeration':[1]}
1 1 Shape|restriction|{'base':'xs:string','pattern':[null]}
1 1 Restriction|restriction|{'base':'xs:string'}
1 1 Restriction|restriction|{'base':'xs:string','enumeration':[]}
1 1 Restriction|restriction|{'base':'','enumeration':['a']}
1 1 Restriction|restriction|{'base':'xs:double','minInclusive':'1','minExclusive':'1'}
1 1 Restriction|restriction|{'base':'xs:double','maxInclusive':'x'}
1 1 Restriction|restriction|{'base':'xs:string','minLength':'2','maxLength':'1'}
2 0 Shape|specification|{'name':'n','ifcVersion':[],'applicability':{'minOccurs':'0','maxOccurs':'0','facets':[]},\
    'requirements':[]},{}
1 1 Shape|specification|{'name':'n','ifcVersion':[],'applicability':{'minOccurs':'0','maxOccurs':'0','facets':[1]},\
    'requirements':[]},{}
1 1 Shape|specification|{'name':'n','ifcVersion':[],'applicability':{'minOccurs':'0','maxOccurs':'0','facets':[]},\
    'requirements':[1]},{'other':1}
2 1 Shape|specification|{'name':'n','ifcVersion':[],'applicability':{'minOccurs':'0','maxOccurs':'0','facets':[]},\
    'requirements':[]},{'name':'n','ifcVersion':[],'applicability':{'minOccurs':'0','maxOccurs':'0','facets':[1]},\
    'requirements':[1]}
2 2 Shape|specification|{'name':'n','ifcVersion':[],'applicability':{'minOccurs':'0','maxOccurs':'0','facets':[]},\
    'requirements':[]},{'name':'n','ifcVersion':[],'applicability':{'minOccurs':'0','maxOccurs':'0',\
    'facets':[{'facet':'material'}]},'requirements':[1]}";

/// Each document is answered as the table says.
#[test]
fn documents_are_answered(rt: HostRuntime) -> Result<(), Fail> {
    let schema = schema(rt.alloc())?;
    for case in CASES.lines() {
        check(&rt, rt.alloc(), &schema, case)?;
    }
    Ok(())
}

/// Compares what is answered for the case with what it says.
fn check<R: Abort>(rt: &R, alloc: Global, schema: &SchemaTable, case: &str) -> Result<(), Fail> {
    let mut fields = case.splitn(3, '|');
    let want = fields.next().unwrap_or("");
    let frame = frame(fields.next().unwrap_or(""));
    let text = document(alloc, frame, fields.next().unwrap_or(""))?;
    let found = answer(alloc, schema, text.as_str())?;
    assert_eq!(rt; found.as_str(), want, "{case}");
    Ok(())
}

/// An object a line: the fault's place, where the object stands, and its members with values that are read. A member
/// behind `!` may not be missing, and one behind `?` may be anything.
const OBJECTS: &str = "0 0|whole|!'specifications':[]|?'info':{'any':[1]}
1 0|specification|!'name':'n'|!'ifcVersion':['IFC4']|!'applicability':{'minOccurs':'0','maxOccurs':'0','facets':[]}|\
    !'requirements':[]|'identifier':'i'|'description':'d'|'instructions':'n'
1 0|applicability|!'minOccurs':'0'|!'maxOccurs':'0'|!'facets':[]
1 1|applicable|!'facet':'entity'|!'name':{'simpleValue':'IFCWALL'}|'predefinedType':{'simpleValue':'p'}|'instructions':'n'
1 2|required|!'facet':'entity'|!'name':{'simpleValue':'IFCWALL'}|'predefinedType':{'simpleValue':'p'}|'instructions':'n'
1 2|required|!'facet':'attribute'|!'name':{'simpleValue':'a'}|'value':{'simpleValue':'v'}|'cardinality':'optional'|\
    'instructions':'n'
1 2|required|!'facet':'property'|!'propertySet':{'simpleValue':'s'}|!'baseName':{'simpleValue':'b'}|\
    'dataType':'IfcLabel'|'value':{'simpleValue':'v'}|'cardinality':'prohibited'|'uri':'u'|'instructions':'n'
1 2|required|!'facet':'classification'|'system':{'simpleValue':'s'}|'value':{'simpleValue':'v'}|\
    'cardinality':'required'|'uri':'u'|'instructions':'n'
1 2|required|!'facet':'material'|'value':{'simpleValue':'v'}|'cardinality':'required'|'uri':'u'|'instructions':'n'
1 2|required|!'facet':'partOf'|'relation':'IFCRELNESTS'|'entity':{'name':{'simpleValue':'IFCWALL'}}|\
    'cardinality':'prohibited'|'instructions':'n'
1 1|entity|!'name':{'simpleValue':'IFCWALL'}|'predefinedType':{'simpleValue':'p'}
1 1|restriction|!'base':'xs:string'|'enumeration':['a']|'pattern':['a']|'minLength':'1'|'maxLength':'2'
1 1|restriction|!'base':'xs:integer'|'minInclusive':'1'|'maxInclusive':'2'|'enumeration':['1']
1 1|restriction|!'base':'xs:decimal'|'minExclusive':'1'|'maxExclusive':'2'|'length':'1'";

/// A member of an object: the mark before it, its name in quotes, and its value.
#[derive(Clone, Copy)]
struct Part<'t> {
    mark: char,
    name: &'t str,
    value: &'t str,
}

/// The member that a field of the table is.
fn member_of(field: &str) -> Part<'_> {
    let (mark, rest) = match (field.strip_prefix("!"), field.strip_prefix("?")) {
        (Some(rest), _) => ('!', rest),
        (None, Some(rest)) => ('?', rest),
        (None, None) => (' ', field),
    };
    let (name, value) = rest.split_once(':').unwrap_or((rest, ""));
    Part { mark, name, value }
}

/// What stands in place of a member: itself; nothing; a null or a number; a null and then itself, or the other way
/// round; itself and a member that no object has.
#[derive(Clone, Copy)]
enum Variant {
    Own,
    Missing,
    Null,
    Number,
    WrongFirst,
    WrongLast,
    Further,
}

const VARIANTS: [Variant; 7] = [
    Variant::Own,
    Variant::Missing,
    Variant::Null,
    Variant::Number,
    Variant::WrongFirst,
    Variant::WrongLast,
    Variant::Further,
];

/// Adds a member to an object that is begun.
fn push_pair(out: &mut String, name: &str, value: &str) -> Result<(), AllocError> {
    if out.len() > 1 {
        out.push(',')?;
    }
    out.push_str(name)?;
    out.push(':')?;
    out.push_str(value)
}

/// Adds what stands in place of the member.
fn push_member(out: &mut String, member: Part<'_>, variant: Variant) -> Result<(), AllocError> {
    match variant {
        Variant::Own => push_pair(out, member.name, member.value),
        Variant::Missing => Ok(()),
        Variant::Null => push_pair(out, member.name, "null"),
        Variant::Number => push_pair(out, member.name, "1"),
        Variant::WrongFirst => {
            push_pair(out, member.name, "null")?;
            push_pair(out, member.name, member.value)
        }
        Variant::WrongLast => {
            push_pair(out, member.name, member.value)?;
            push_pair(out, member.name, "null")
        }
        Variant::Further => {
            push_pair(out, member.name, member.value)?;
            push_pair(out, "'other'", "1")
        }
    }
}

/// The object of the members of the table, with the variant of the member at `at`.
fn object(alloc: Global, members: &str, at: usize, variant: Variant) -> Result<String, AllocError> {
    let mut text = String::from_str(alloc, "{")?;
    for (i, field) in members.split('|').enumerate() {
        let own = if i == at { variant } else { Variant::Own };
        push_member(&mut text, member_of(field), own)?;
    }
    text.push('}')?;
    Ok(text)
}

/// What is to be answered for the variant of a member with this mark: `read`, or a cause.
fn wanted(mark: char, variant: Variant) -> &'static str {
    match variant {
        Variant::Own | Variant::WrongFirst => "read",
        Variant::Missing => { if mark == '!' { "Shape" } else { "read" } }
        Variant::Null | Variant::Number | Variant::WrongLast => {
            if mark == '?' { "read" } else { "Shape" }
        }
        Variant::Further => "UnknownMember",
    }
}

/// Whether this is answered: `read`, or the cause at the place.
fn is_answered(found: &str, place: &str, want: &str) -> bool {
    if want == "read" {
        return found == want;
    }
    match found.strip_prefix(place) {
        Some(rest) => rest.trim() == want,
        None => false,
    }
}

/// Each variant of the member at `at` is answered as the member asks.
fn check_member<R: Abort>(
    rt: &R,
    alloc: Global,
    schema: &SchemaTable,
    line: (&str, &str, &str),
    at: usize,
    mark: char,
) -> Result<(), Fail> {
    let (place, name, members) = line;
    for variant in VARIANTS {
        let piece = object(alloc, members, at, variant)?;
        let text = document(alloc, frame(name), piece.as_str())?;
        let found = answer(alloc, schema, text.as_str())?;
        assert!(rt;
            is_answered(found.as_str(), place, wanted(mark, variant)),
            "{text}"
        );
    }
    Ok(())
}

/// Each member of the object of the line is asked for as its mark says.
fn check_object<R: Abort>(
    rt: &R,
    alloc: Global,
    schema: &SchemaTable,
    case: &str,
) -> Result<(), Fail> {
    let mut fields = case.splitn(3, '|');
    let place = fields.next().unwrap_or("");
    let name = fields.next().unwrap_or("");
    let members = fields.next().unwrap_or("");
    for (at, field) in members.split('|').enumerate() {
        let mark = member_of(field).mark;
        check_member(rt, alloc, schema, (place, name, members), at, mark)?;
    }
    Ok(())
}

/// Each member of each object is asked for as its table says.
#[test]
fn members_are_as_the_form_says(rt: HostRuntime) -> Result<(), Fail> {
    let schema = schema(rt.alloc())?;
    for case in OBJECTS.lines() {
        check_object(&rt, rt.alloc(), &schema, case)?;
    }
    Ok(())
}
