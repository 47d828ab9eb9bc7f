use express_decl::{DeclCause, Decls, read_declarations};
use ifc_base::{EntityDecl, Names, Refusal};
use std::alloc::{AllocError, Global};
use std::process::Abort;
use std::test::Fail;

/// The declarations of the worked models, as they are handed out.
const WORKED: &str = "SCHEMA IFC4; (* cut for the rows *)
TYPE X = STRING; END_TYPE;
ENTITY IfcRoot ABSTRACT SUPERTYPE;
  GlobalId, OwnerHistory, Name, Description : OPTIONAL X; END_ENTITY;
ENTITY IfcObjectDefinition ABSTRACT SUPERTYPE SUBTYPE OF (IfcRoot); END_ENTITY;
ENTITY IfcObject ABSTRACT SUPERTYPE SUBTYPE OF (IfcObjectDefinition);
  ObjectType : OPTIONAL X; END_ENTITY;
ENTITY IfcProduct ABSTRACT SUPERTYPE SUBTYPE OF (IfcObject);
  ObjectPlacement, Representation : OPTIONAL X; END_ENTITY;
ENTITY IfcElement ABSTRACT SUPERTYPE SUBTYPE OF (IfcProduct);
  Tag : OPTIONAL X; END_ENTITY;
ENTITY IfcWall SUBTYPE OF (IfcElement); PredefinedType : OPTIONAL X; END_ENTITY;
ENTITY IfcWallStandardCase SUBTYPE OF (IfcWall); END_ENTITY;
ENTITY IfcBuildingStorey SUBTYPE OF (IfcProduct);
  LongName, CompositionType, Elevation : OPTIONAL X; END_ENTITY;
ENTITY IfcGroup SUBTYPE OF (IfcObject); END_ENTITY;
ENTITY IfcProject SUBTYPE OF (IfcObjectDefinition);
  ObjectType, LongName, Phase, RepresentationContexts, UnitsInContext : OPTIONAL X; END_ENTITY;
ENTITY IfcTypeObject SUBTYPE OF (IfcObjectDefinition);
  ApplicableOccurrence, HasPropertySets : OPTIONAL X; END_ENTITY;
ENTITY IfcWallType SUBTYPE OF (IfcTypeObject);
  RepresentationMaps, Tag, ElementType, PredefinedType : OPTIONAL X; END_ENTITY;
ENTITY IfcRelationship ABSTRACT SUPERTYPE SUBTYPE OF (IfcRoot); END_ENTITY;
ENTITY IfcRelDefinesByProperties SUBTYPE OF (IfcRelationship);
  RelatedObjects, RelatingPropertyDefinition : X; END_ENTITY;
ENTITY IfcRelDefinesByType SUBTYPE OF (IfcRelationship);
  RelatedObjects, RelatingType : X; END_ENTITY;
ENTITY IfcRelAssociatesClassification SUBTYPE OF (IfcRelationship);
  RelatedObjects, RelatingClassification : X; END_ENTITY;
ENTITY IfcRelAssociatesMaterial SUBTYPE OF (IfcRelationship);
  RelatedObjects, RelatingMaterial : X; END_ENTITY;
ENTITY IfcRelAggregates SUBTYPE OF (IfcRelationship);
  RelatingObject, RelatedObjects : X; END_ENTITY;
ENTITY IfcRelContainedInSpatialStructure SUBTYPE OF (IfcRelationship);
  RelatedElements, RelatingStructure : X; END_ENTITY;
ENTITY IfcRelAssignsToGroup SUBTYPE OF (IfcRelationship);
  RelatedObjects, RelatedObjectsType, RelatingGroup : X; END_ENTITY;
ENTITY IfcPropertySet SUBTYPE OF (IfcRoot); HasProperties : X; END_ENTITY;
ENTITY IfcElementQuantity SUBTYPE OF (IfcRoot);
  MethodOfMeasurement, Quantities : X; END_ENTITY;
ENTITY IfcPropertySingleValue; Name, Description, NominalValue, Unit : X; END_ENTITY;
ENTITY IfcQuantityLength; Name, Description, Unit, LengthValue, Formula : X; END_ENTITY;
ENTITY IfcMaterial; Name, Description, Category : X; END_ENTITY;
ENTITY IfcMaterialLayer;
  Material, LayerThickness, IsVentilated, Name, Description, Category, Priority : X; END_ENTITY;
ENTITY IfcMaterialLayerSet; MaterialLayers, LayerSetName, Description : X; END_ENTITY;
ENTITY IfcMaterialLayerSetUsage;
  ForLayerSet, LayerSetDirection, DirectionSense, OffsetFromReferenceLine, ReferenceExtent : X; END_ENTITY;
ENTITY IfcClassification;
  Source, Edition, EditionDate, Name, Description, Location, ReferenceTokens : X; END_ENTITY;
ENTITY IfcClassificationReference;
  Location, Identification, Name, ReferencedSource, Description, Sort : X; END_ENTITY;
ENTITY IfcPerson; Identification, FamilyName, GivenName, MiddleNames,
  PrefixTitles, SuffixTitles, Roles, Addresses : X; END_ENTITY;
ENTITY IfcOrganization; Identification, Name, Description, Roles, Addresses : X; END_ENTITY;
ENTITY IfcPersonAndOrganization; ThePerson, TheOrganization, Roles : X; END_ENTITY;
ENTITY IfcApplication; ApplicationDeveloper, Version, ApplicationFullName, ApplicationIdentifier : X; END_ENTITY;
ENTITY IfcOwnerHistory; OwningUser, OwningApplication, State, ChangeAction,
  LastModifiedDate, LastModifyingUser, LastModifyingApplication, CreationDate : X; END_ENTITY;
ENTITY IfcNamedUnit ABSTRACT SUPERTYPE; Dimensions, UnitType : X; END_ENTITY;
ENTITY IfcSIUnit SUBTYPE OF (IfcNamedUnit); Prefix, Name : X;
  DERIVE SELF\\IfcNamedUnit.Dimensions : X := 'x'; END_ENTITY;
ENTITY IfcUnitAssignment; Units : X; END_ENTITY;
END_SCHEMA;
";

/// What is read of them.
const WORKED_READ: &str = "abstract IFCROOT() = GlobalId,OwnerHistory,Name,Description,
abstract IFCOBJECTDEFINITION(IFCROOT) =
abstract IFCOBJECT(IFCOBJECTDEFINITION) = ObjectType,
abstract IFCPRODUCT(IFCOBJECT) = ObjectPlacement,Representation,
abstract IFCELEMENT(IFCPRODUCT) = Tag,
IFCWALL(IFCELEMENT) = PredefinedType,
IFCWALLSTANDARDCASE(IFCWALL) =
IFCBUILDINGSTOREY(IFCPRODUCT) = LongName,CompositionType,Elevation,
IFCGROUP(IFCOBJECT) =
IFCPROJECT(IFCOBJECTDEFINITION) = ObjectType,LongName,Phase,RepresentationContexts,UnitsInContext,
IFCTYPEOBJECT(IFCOBJECTDEFINITION) = ApplicableOccurrence,HasPropertySets,
IFCWALLTYPE(IFCTYPEOBJECT) = RepresentationMaps,Tag,ElementType,PredefinedType,
abstract IFCRELATIONSHIP(IFCROOT) =
IFCRELDEFINESBYPROPERTIES(IFCRELATIONSHIP) = RelatedObjects,RelatingPropertyDefinition,
IFCRELDEFINESBYTYPE(IFCRELATIONSHIP) = RelatedObjects,RelatingType,
IFCRELASSOCIATESCLASSIFICATION(IFCRELATIONSHIP) = RelatedObjects,RelatingClassification,
IFCRELASSOCIATESMATERIAL(IFCRELATIONSHIP) = RelatedObjects,RelatingMaterial,
IFCRELAGGREGATES(IFCRELATIONSHIP) = RelatingObject,RelatedObjects,
IFCRELCONTAINEDINSPATIALSTRUCTURE(IFCRELATIONSHIP) = RelatedElements,RelatingStructure,
IFCRELASSIGNSTOGROUP(IFCRELATIONSHIP) = RelatedObjects,RelatedObjectsType,RelatingGroup,
IFCPROPERTYSET(IFCROOT) = HasProperties,
IFCELEMENTQUANTITY(IFCROOT) = MethodOfMeasurement,Quantities,
IFCPROPERTYSINGLEVALUE() = Name,Description,NominalValue,Unit,
IFCQUANTITYLENGTH() = Name,Description,Unit,LengthValue,Formula,
IFCMATERIAL() = Name,Description,Category,
IFCMATERIALLAYER() = Material,LayerThickness,IsVentilated,Name,Description,Category,Priority,
IFCMATERIALLAYERSET() = MaterialLayers,LayerSetName,Description,
IFCMATERIALLAYERSETUSAGE() = ForLayerSet,LayerSetDirection,DirectionSense,OffsetFromReferenceLine,ReferenceExtent,
IFCCLASSIFICATION() = Source,Edition,EditionDate,Name,Description,Location,ReferenceTokens,
IFCCLASSIFICATIONREFERENCE() = Location,Identification,Name,ReferencedSource,Description,Sort,
IFCPERSON() = Identification,FamilyName,GivenName,MiddleNames,PrefixTitles,SuffixTitles,Roles,Addresses,
IFCORGANIZATION() = Identification,Name,Description,Roles,Addresses,
IFCPERSONANDORGANIZATION() = ThePerson,TheOrganization,Roles,
IFCAPPLICATION() = ApplicationDeveloper,Version,ApplicationFullName,ApplicationIdentifier,
IFCOWNERHISTORY() = OwningUser,OwningApplication,State,ChangeAction,LastModifiedDate,LastModifyingUser,\
LastModifyingApplication,CreationDate,
abstract IFCNAMEDUNIT() = Dimensions,UnitType,
IFCSIUNIT(IFCNAMEDUNIT) = Prefix,Name, derived Dimensions,
IFCUNITASSIGNMENT() = Units,
type X
";

fn show_names(names: &Names, out: &mut String) -> Result<(), AllocError> {
    for name in names.as_slice() {
        out.push_str(name.as_str())?;
        out.push(',')?;
    }
    Ok(())
}

/// Adds a line `[abstract ]NAME(PARENT) = own attributes[ derived attributes]`.
fn show_entity(entity: &EntityDecl, out: &mut String) -> Result<(), AllocError> {
    if entity.is_abstract {
        out.push_str("abstract ")?;
    }
    out.push_str(entity.name.as_str())?;
    out.push('(')?;
    if let Some(parent) = &entity.parent {
        out.push_str(parent.as_str())?;
    }
    out.push_str(") =")?;
    if !entity.own.as_slice().is_empty() {
        out.push(' ')?;
    }
    show_names(&entity.own, out)?;
    if !entity.derived.as_slice().is_empty() {
        out.push_str(" derived ")?;
    }
    show_names(&entity.derived, out)?;
    out.push('\n')
}

/// The entities line by line, and then the types.
fn show(alloc: Global, decls: &Decls) -> Result<String, AllocError> {
    let mut out = String::new(alloc);
    for entity in decls.entities.as_slice() {
        show_entity(entity, &mut out)?;
    }
    for named in decls.types.as_slice() {
        out.push_str("type ")?;
        out.push_str(named.name.as_str())?;
        out.push('\n')?;
    }
    Ok(out)
}

fn reads_as(rt: &impl Abort, alloc: Global, bytes: &[u8], wanted: &str) -> Result<(), AllocError> {
    match read_declarations(alloc, bytes) {
        Ok(decls) => assert_eq!(rt; show(alloc, &decls)?.as_str(), wanted),
        Err(Refusal::Fault(fault)) => panic!(rt; "{fault:?} where {wanted} was wanted"),
        Err(Refusal::Memory) => panic!(rt; "memory"),
    }
    Ok(())
}

/// One entity or more, and what is read of them, within `SCHEMA s; .. END_SCHEMA;`.
const ENTITIES: [(&str, &str); 21] = [
    ("", ""),
    ("ENTITY a; END_ENTITY;", "A() =\n"),
    (
        "entity Wall_2 Abstract; Name:TEXT; end_entity;",
        "abstract WALL_2() = Name,\n",
    ),
    // Any word may be a name: one that begins with a digit, and a word of the language.
    (
        "ENTITY entity SUBTYPE OF (of); 1a, WHERE, self : SET [1:?] OF x; END_ENTITY;",
        "ENTITY(OF) = 1a,WHERE,self,\n",
    ),
    ("ENTITY abstract; END_ENTITY;", "ABSTRACT() =\n"),
    (
        "ENTITY a; self : x; self, b : x; END_ENTITY;",
        "A() = self,self,b,\n",
    ),
    // A type takes everything up to its semicolon.
    (
        "ENTITY a; b : END_ENTITY 'x;' (* ; *) WHERE -- ;\n; END_ENTITY;",
        "A() = b,\n",
    ),
    (
        "ENTITY a SUPERTYPE OF (ONEOF((A),(B))); END_ENTITY;",
        "A() =\n",
    ),
    (
        "ENTITY a ABSTRACT SUPERTYPE OF (((b) AND (c)) ANDOR ';)' ; d (* ) *)) SUBTYPE OF (e); END_ENTITY;",
        "abstract A(E) =\n",
    ),
    ("ENTITY a SUPERTYPE OF () ; END_ENTITY;", "A() =\n"),
    ("ENTITY a SUPERTYPE SUBTYPE OF(b);END_ENTITY;", "A(B) =\n"),
    // A redeclared attribute is none of the entity's own, and no derived one.
    (
        "ENTITY a SUBTYPE OF (b); c : x; SELF\\b.d : y; self\\ b . e : z; f : x; END_ENTITY;",
        "A(B) = c,f,\n",
    ),
    // Every section, and in it words that would begin or end another one.
    (
        "ENTITY a; b : x;
        DERIVE SELF\\E.Derived : x := 'WHERE END_ENTITY SELF\\E.no;'; c : x := SELF\\E.no; self \\ e . \
        again : x := 1; SELF\\E : x; SELF.no : x; SELF\\E.(* SELF\\E.no *)third := 2;
        INVERSE d : SET OF e FOR f; SELF\\E.no : x;
        UNIQUE UR1 : b; SELF\\E.no : x;
        WHERE WR1 : SELF\\E.no > 0; -- END_ENTITY
        WR2 : EXISTS('DERIVE SELF\\E.no;');
        END_ENTITY;",
        "A() = b, derived Derived,again,third,\n",
    ),
    (
        "ENTITY a; WHERE x; DERIVE SELF\\b.c; SELF\\b.SELF; INVERSE DERIVE SELF\\b.d END_ENTITY;",
        "A() = derived c,SELF,d,\n",
    ),
    // Within a section its words begin another section, also where a name could stand.
    (
        "ENTITY a; DERIVE SELF\\UNIQUE.b; DERIVE SELF\\b.WHERE; END_ENTITY;",
        "A() =\n",
    ),
    ("TYPE a = ENTITY ; END_TYPE;", "type A\n"),
    (
        "TYPE a = STRING(22) FIXED; WHERE a; END_ENTITY; WR1 : ';' END_TYPE; TYPE B=c;end_type;",
        "type A\ntype B\n",
    ),
    (
        "FUNCTION f(x : a) : b; LOCAL i : INTEGER := 0; END_LOCAL; IF x > 0 THEN REPEAT i := 1 TO 3; \
        ENTITY y; 'END_FUNCTION;' (* END_FUNCTION; *) END_REPEAT; END_IF; RETURN(x); END_FUNCTION; ENTITY z; END_ENTITY;",
        "Z() =\n",
    ),
    (
        "RULE r FOR (a); END_FUNCTION; END_RULE; PROCEDURE END_PROCEDURE; constant c : x := 1; end_constant;",
        "",
    ),
    // Remarks nest; neither ends at the end of the line, and a tail remark does.
    (
        "(* (* *) ENTITY a; END_ENTITY; (*(*)*)*) *) -- (* ENTITY b;\nENTITY c; END_ENTITY; (**) (***)",
        "C() =\n",
    ),
    // A remark is none within a string, and a string none within a remark.
    (
        "ENTITY a; b : '(*' '--'; c : 'it''s' (* ' *) -- '\n; END_ENTITY;",
        "A() = b,c,\n",
    ),
];

#[test]
fn declarations_are_read(rt: HostRuntime) -> Result<(), Fail> {
    reads_as(&rt, rt.alloc(), WORKED.as_bytes(), WORKED_READ)?;
    for (text, wanted) in ENTITIES {
        let mut whole = String::from_str(rt.alloc(), "SCHEMA s; ")?;
        whole.push_str(text)?;
        whole.push_str(" END_SCHEMA;")?;
        reads_as(&rt, rt.alloc(), whole.as_bytes(), wanted)?;
    }
    // Around the schema only blanks and remarks stand, of which the last may have no line feed.
    for text in [
        "\t\r\n(* \u{e9} *)schema S ;ENTITY a;END_ENTITY;end_schema;--",
        "-- SCHEMA\nSCHEMA 1;ENTITY(**)a--\n;END_ENTITY;END_SCHEMA(**);--\u{e9} (*",
    ] {
        reads_as(&rt, rt.alloc(), text.as_bytes(), "A() =\n")?;
    }
    Ok(())
}

/// Bytes, and the line and cause of their fault.
const FAULTS: [(&[u8], u32, DeclCause); 50] = [
    // Before `SCHEMA name;` is complete nothing is open.
    (b"", 1, DeclCause::Unclosed),
    (b"\n\n", 3, DeclCause::Unclosed),
    (b"-- SCHEMA", 1, DeclCause::Unclosed),
    (b"SCHEMA\n", 2, DeclCause::Unclosed),
    (b"SCHEMA s\n\n", 3, DeclCause::Unclosed),
    (b"\n(* \n SCHEMA", 2, DeclCause::Unclosed),
    (b"\nSCHEMA s; (* \n (* *)", 2, DeclCause::Unclosed),
    (b"\nSCHEMA s; (* \n (* \n*) (*", 4, DeclCause::Unclosed),
    (b"SCHEMA s; (* (*\n*) *)\n (*)", 3, DeclCause::Unclosed),
    (b"SCHEMA s;\n(* \n (* \n*) *", 2, DeclCause::Unclosed),
    (b"SCHEMA s; (*\n(*)", 2, DeclCause::Unclosed),
    (b"\nSCHEMA s;\n", 2, DeclCause::Unclosed),
    (b"\nSCHEMA s;\nEND_SCHEMA\n", 2, DeclCause::Unclosed),
    (b"\nSCHEMA s;\nENTITY\n", 3, DeclCause::Unclosed),
    (b"SCHEMA s;\nENTITY a; END_ENTITY\n", 2, DeclCause::Unclosed),
    (
        b"SCHEMA s;\nENTITY a; END_ENTITY;\n",
        1,
        DeclCause::Unclosed,
    ),
    (
        b"SCHEMA s;\nENTITY a SUPERTYPE OF\n(b",
        2,
        DeclCause::Unclosed,
    ),
    (b"SCHEMA s;\nENTITY a;\nb : x", 2, DeclCause::Unclosed),
    (
        b"SCHEMA s;\nENTITY a;\nDERIVE SELF\\b.c",
        2,
        DeclCause::Unclosed,
    ),
    (
        b"SCHEMA s;\nENTITY a;\nWHERE (*\n*)\n 'x",
        5,
        DeclCause::Unclosed,
    ),
    (
        b"SCHEMA s;\nENTITY a;\nWHERE 'x''\n'",
        2,
        DeclCause::Unclosed,
    ),
    (
        b"SCHEMA s;\nENTITY a;\nWHERE 'x''\n",
        3,
        DeclCause::Unclosed,
    ),
    (b"SCHEMA s;\nTYPE a\n= x;", 2, DeclCause::Unclosed),
    (
        b"SCHEMA s;\nTYPE a = x; WHERE\nEND_TYPE",
        2,
        DeclCause::Unclosed,
    ),
    (b"SCHEMA s;\nFUNCTION\nIF END_IF;", 2, DeclCause::Unclosed),
    (b"SCHEMA s;\nRULE END_RULE\n", 2, DeclCause::Unclosed),
    // A string that stands where none may, and isn't closed.
    (b"SCHEMA\n's", 2, DeclCause::Unclosed),
    // The comma behind a supertype.
    (
        b"SCHEMA s; ENTITY a SUBTYPE OF (b\n, c); END_ENTITY;",
        2,
        DeclCause::ManySupertypes,
    ),
    (
        b"SCHEMA s; ENTITY a SUBTYPE OF (b\n,",
        2,
        DeclCause::ManySupertypes,
    ),
    // Outside strings and remarks: a control character, a byte above 126, a character beyond ASCII.
    (b"\n\x0c", 2, DeclCause::BadToken),
    (b"SCHEMA s;\n\x7f", 2, DeclCause::BadToken),
    (b"SCHEMA s; ENTITY a\xe9;", 1, DeclCause::BadToken),
    (b"SCHEMA s; FUNCTION\n\xc3\xa9", 2, DeclCause::BadToken),
    (b"SCHEMA s; END_SCHEMA;\n\x00", 2, DeclCause::BadToken),
    // Tokens that don't belong where they stand.
    (b"\nENTITY", 2, DeclCause::Unexpected),
    (b"SCHEMA s\n'x';", 2, DeclCause::Unexpected),
    (b"SCHEMA\n; END_SCHEMA;", 2, DeclCause::Unexpected),
    (b"SCHEMA s;\nEND_ENTITY;", 2, DeclCause::Unexpected),
    (
        b"SCHEMA s; END_SCHEMA;\nEND_SCHEMA;",
        2,
        DeclCause::Unexpected,
    ),
    (
        b"SCHEMA s; ENTITY a ABSTRACT\nABSTRACT;",
        2,
        DeclCause::Unexpected,
    ),
    (
        b"SCHEMA s; ENTITY a SUBTYPE OF (b)\nSUPERTYPE;",
        2,
        DeclCause::Unexpected,
    ),
    (
        b"SCHEMA s; ENTITY a SUBTYPE\n(b);",
        2,
        DeclCause::Unexpected,
    ),
    (b"SCHEMA s; ENTITY a; b,\n: x;", 2, DeclCause::Unexpected),
    (b"SCHEMA s; ENTITY a; b :\n;", 2, DeclCause::Unexpected),
    (
        b"SCHEMA s; ENTITY a; SELF\\b.c\n, d : x;",
        2,
        DeclCause::Unexpected,
    ),
    (
        b"SCHEMA s; ENTITY a; d, SELF\n\\b.c : x;",
        2,
        DeclCause::Unexpected,
    ),
    (b"SCHEMA s; ENTITY a;\n'b' : x;", 2, DeclCause::Unexpected),
    (b"SCHEMA s; TYPE a =\n; END_TYPE;", 2, DeclCause::Unexpected),
    (
        b"SCHEMA s; TYPE a = x;\ny END_TYPE;",
        2,
        DeclCause::Unexpected,
    ),
    (
        b"SCHEMA s; FUNCTION END_FUNCTION\nx;",
        2,
        DeclCause::Unexpected,
    ),
];

#[test]
fn faults_have_their_line(rt: HostRuntime) {
    for (bytes, line, why) in FAULTS {
        match read_declarations(rt.alloc(), bytes) {
            Err(Refusal::Fault(fault)) => {
                assert_eq!(rt; fault.why, why, "in {bytes:?}");
                assert_eq!(rt; fault.line, line, "of {why:?} in {bytes:?}");
            }
            _ => panic!(rt; "no fault where {why:?} was wanted"),
        }
    }
}
