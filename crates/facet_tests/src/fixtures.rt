//! A schema, models from the lines of exchange files, and keys as texts.
ghost use Rattle.std.specs.Prelude.{IfOk};
ghost use Rattle.ifc_base.specs.Ids.{HasDistinctIds};

use ifc_base::{
    EntityDecl, EntityDecls, InstId, Instances, Key, Memory, Name, Names, Role, TypeDecls,
};
use model_view::Snapshot;
use p21_read::read_file;
use schema_table::SchemaTable;
use std::alloc::Global;
use std::collections::BTreeSet;
use std::test::Fail;

/// An entity: its name, its supertype or nothing, whether it is abstract, its own attributes, and those that it redeclares as
/// derived; between the names of attributes stand blanks.
type Entity = (&'static str, &'static str, bool, &'static str, &'static str);

/// A cut of IFC4 (ISO 16739-1), and entities that it hasn't: `TEXTS` and `DOUBLED` with attributes for a user-defined predefined
/// type, `THINGS` with an attribute for each kind of value, `SYSTEM` and `BRANCH` as subtypes of what classifies.
const ENTITIES: [Entity; 72] = [
    (
        "IFCPERSON",
        "",
        false,
        "Identification FamilyName GivenName MiddleNames PrefixTitles SuffixTitles Roles Addresses",
        "",
    ),
    (
        "IFCORGANIZATION",
        "",
        false,
        "Identification Name Description Roles Addresses",
        "",
    ),
    (
        "IFCPERSONANDORGANIZATION",
        "",
        false,
        "ThePerson TheOrganization Roles",
        "",
    ),
    (
        "IFCAPPLICATION",
        "",
        false,
        "ApplicationDeveloper Version ApplicationFullName ApplicationIdentifier",
        "",
    ),
    (
        "IFCOWNERHISTORY",
        "",
        false,
        "OwningUser OwningApplication State ChangeAction LastModifiedDate LastModifyingUser LastModifyingApplication CreationDate",
        "",
    ),
    ("IFCNAMEDUNIT", "", true, "Dimensions UnitType", ""),
    (
        "IFCSIUNIT",
        "IFCNAMEDUNIT",
        false,
        "Prefix Name",
        "Dimensions",
    ),
    ("IFCUNITASSIGNMENT", "", false, "Units", ""),
    (
        "IFCROOT",
        "",
        true,
        "GlobalId OwnerHistory Name Description",
        "",
    ),
    ("IFCOBJECT", "IFCROOT", true, "ObjectType", ""),
    (
        "IFCPRODUCT",
        "IFCOBJECT",
        true,
        "ObjectPlacement Representation",
        "",
    ),
    ("IFCELEMENT", "IFCPRODUCT", true, "Tag", ""),
    ("IFCWALL", "IFCELEMENT", false, "PredefinedType", ""),
    ("IFCWALLSTANDARDCASE", "IFCWALL", false, "", ""),
    ("IFCDOOR", "IFCELEMENT", false, "PredefinedType", ""),
    (
        "IFCOPENINGELEMENT",
        "IFCELEMENT",
        false,
        "PredefinedType",
        "",
    ),
    ("IFCBUILDING", "IFCPRODUCT", false, "", ""),
    (
        "IFCBUILDINGSTOREY",
        "IFCPRODUCT",
        false,
        "LongName CompositionType Elevation",
        "",
    ),
    (
        "IFCPROJECT",
        "IFCROOT",
        false,
        "ObjectType LongName Phase RepresentationContexts UnitsInContext",
        "",
    ),
    ("IFCGROUP", "IFCOBJECT", false, "", ""),
    (
        "IFCTYPEOBJECT",
        "IFCROOT",
        true,
        "ApplicableOccurrence HasPropertySets",
        "",
    ),
    (
        "IFCWALLTYPE",
        "IFCTYPEOBJECT",
        false,
        "RepresentationMaps Tag ElementType PredefinedType",
        "",
    ),
    (
        "IFCTASKTYPE",
        "IFCTYPEOBJECT",
        false,
        "ProcessType PredefinedType",
        "",
    ),
    (
        "TEXTS",
        "",
        false,
        "ProcessType ElementType ObjectType PredefinedType",
        "",
    ),
    (
        "DOUBLED",
        "IFCOBJECT",
        false,
        "Mark Mark ObjectType PredefinedType",
        "",
    ),
    ("BASE", "", true, "Made", ""),
    ("THINGS", "BASE", false, "A B C D E F G H I J", "Made"),
    ("IFCRELATIONSHIP", "IFCROOT", true, "", ""),
    (
        "IFCRELDEFINESBYPROPERTIES",
        "IFCRELATIONSHIP",
        false,
        "RelatedObjects RelatingPropertyDefinition",
        "",
    ),
    (
        "IFCRELDEFINESBYTYPE",
        "IFCRELATIONSHIP",
        false,
        "RelatedObjects RelatingType",
        "",
    ),
    (
        "IFCRELASSOCIATESCLASSIFICATION",
        "IFCRELATIONSHIP",
        false,
        "RelatedObjects RelatingClassification",
        "",
    ),
    (
        "IFCRELASSOCIATESMATERIAL",
        "IFCRELATIONSHIP",
        false,
        "RelatedObjects RelatingMaterial",
        "",
    ),
    (
        "IFCRELAGGREGATES",
        "IFCRELATIONSHIP",
        false,
        "RelatingObject RelatedObjects",
        "",
    ),
    (
        "IFCRELNESTS",
        "IFCRELATIONSHIP",
        false,
        "RelatingObject RelatedObjects",
        "",
    ),
    (
        "IFCRELCONTAINEDINSPATIALSTRUCTURE",
        "IFCRELATIONSHIP",
        false,
        "RelatedElements RelatingStructure",
        "",
    ),
    (
        "IFCRELASSIGNSTOGROUP",
        "IFCRELATIONSHIP",
        false,
        "RelatedObjects RelatedObjectsType RelatingGroup",
        "",
    ),
    (
        "IFCRELASSIGNSTOGROUPBYFACTOR",
        "IFCRELASSIGNSTOGROUP",
        false,
        "Factor",
        "",
    ),
    (
        "IFCRELVOIDSELEMENT",
        "IFCRELATIONSHIP",
        false,
        "RelatingBuildingElement RelatedOpeningElement",
        "",
    ),
    (
        "IFCRELFILLSELEMENT",
        "IFCRELATIONSHIP",
        false,
        "RelatingOpeningElement RelatedBuildingElement",
        "",
    ),
    ("IFCPROPERTYSET", "IFCROOT", false, "HasProperties", ""),
    (
        "IFCELEMENTQUANTITY",
        "IFCROOT",
        false,
        "MethodOfMeasurement Quantities",
        "",
    ),
    ("IFCPROPERTY", "", true, "Name Description", ""),
    (
        "IFCPROPERTYSINGLEVALUE",
        "IFCPROPERTY",
        false,
        "NominalValue Unit",
        "",
    ),
    (
        "IFCPROPERTYENUMERATEDVALUE",
        "IFCPROPERTY",
        false,
        "EnumerationValues EnumerationReference",
        "",
    ),
    (
        "IFCPROPERTYLISTVALUE",
        "IFCPROPERTY",
        false,
        "ListValues Unit",
        "",
    ),
    (
        "IFCPROPERTYBOUNDEDVALUE",
        "IFCPROPERTY",
        false,
        "UpperBoundValue LowerBoundValue Unit SetPointValue",
        "",
    ),
    (
        "IFCPROPERTYTABLEVALUE",
        "IFCPROPERTY",
        false,
        "DefiningValues DefinedValues",
        "",
    ),
    (
        "IFCPROPERTYREFERENCEVALUE",
        "IFCPROPERTY",
        false,
        "UsageName PropertyReference",
        "",
    ),
    (
        "IFCCOMPLEXPROPERTY",
        "IFCPROPERTY",
        false,
        "UsageName HasProperties",
        "",
    ),
    ("IFCPHYSICALQUANTITY", "", true, "Name Description Unit", ""),
    (
        "IFCQUANTITYLENGTH",
        "IFCPHYSICALQUANTITY",
        false,
        "LengthValue Formula",
        "",
    ),
    (
        "IFCQUANTITYAREA",
        "IFCPHYSICALQUANTITY",
        false,
        "AreaValue Formula",
        "",
    ),
    (
        "IFCQUANTITYVOLUME",
        "IFCPHYSICALQUANTITY",
        false,
        "VolumeValue Formula",
        "",
    ),
    (
        "IFCQUANTITYCOUNT",
        "IFCPHYSICALQUANTITY",
        false,
        "CountValue Formula",
        "",
    ),
    (
        "IFCQUANTITYWEIGHT",
        "IFCPHYSICALQUANTITY",
        false,
        "WeightValue Formula",
        "",
    ),
    (
        "IFCQUANTITYTIME",
        "IFCPHYSICALQUANTITY",
        false,
        "TimeValue Formula",
        "",
    ),
    (
        "IFCCLASSIFICATION",
        "",
        false,
        "Source Edition EditionDate Name Description Location ReferenceTokens",
        "",
    ),
    (
        "IFCEXTERNALREFERENCE",
        "",
        true,
        "Location Identification Name",
        "",
    ),
    (
        "IFCCLASSIFICATIONREFERENCE",
        "IFCEXTERNALREFERENCE",
        false,
        "ReferencedSource Description Sort",
        "",
    ),
    ("SYSTEM", "IFCCLASSIFICATION", false, "", ""),
    ("BRANCH", "IFCCLASSIFICATIONREFERENCE", false, "", ""),
    (
        "IFCDOCUMENTREFERENCE",
        "IFCEXTERNALREFERENCE",
        false,
        "Description ReferencedSource",
        "",
    ),
    ("IFCMATERIAL", "", false, "Name Description Category", ""),
    ("IFCMATERIALLIST", "", false, "Materials", ""),
    (
        "IFCMATERIALLAYER",
        "",
        false,
        "Material LayerThickness IsVentilated Name Description Category Priority",
        "",
    ),
    (
        "IFCMATERIALLAYERSET",
        "",
        false,
        "MaterialLayers LayerSetName Description",
        "",
    ),
    (
        "IFCMATERIALLAYERSETUSAGE",
        "",
        false,
        "ForLayerSet LayerSetDirection DirectionSense OffsetFromReferenceLine ReferenceExtent",
        "",
    ),
    (
        "IFCMATERIALPROFILE",
        "",
        false,
        "Name Description Material Profile Priority Category",
        "",
    ),
    (
        "IFCMATERIALPROFILESET",
        "",
        false,
        "Name Description MaterialProfiles CompositeProfile",
        "",
    ),
    (
        "IFCMATERIALPROFILESETUSAGE",
        "",
        false,
        "ForProfileSet CardinalPoint ReferenceExtent",
        "",
    ),
    (
        "IFCMATERIALCONSTITUENT",
        "",
        false,
        "Name Description Material Fraction Category",
        "",
    ),
    (
        "IFCMATERIALCONSTITUENTSET",
        "",
        false,
        "Name Description MaterialConstituents",
        "",
    ),
];

/// What stands before the instances of an exchange file.
const FRONT: &str = "ISO-10303-21;HEADER;FILE_DESCRIPTION();FILE_NAME();FILE_SCHEMA();ENDSEC;DATA;";

/// What stands behind them.
const BACK: &str = "ENDSEC;END-ISO-10303-21;";

/// The names between the blanks.
fn names(alloc: Global, texts: &str) -> Result<Names, Memory> {
    let mut names = Vec::new(alloc);
    for text in texts.split(' ') {
        if !text.is_empty() {
            names.push(Name::from_str(alloc, text)?)?;
        }
    }
    Ok(Names::from_vec(names))
}

fn entity(alloc: Global, entity: &Entity) -> Result<EntityDecl, Memory> {
    let (name, parent, is_abstract, own, derived) = entity;
    let parent = match *parent {
        "" => None,
        parent => Some(Name::from_str(alloc, parent)?),
    };
    Ok(EntityDecl {
        name: Name::from_str(alloc, *name)?,
        parent,
        is_abstract: *is_abstract,
        own: names(alloc, *own)?,
        derived: names(alloc, *derived)?,
    })
}

/// The schema of the models.
pub fn schema(alloc: Global) -> Result<SchemaTable, Fail> {
    let mut entities = Vec::new(alloc);
    for declared in &ENTITIES {
        entities.push(entity(alloc, declared)?)?;
    }
    let entities = EntityDecls::from_vec(entities);
    Ok(SchemaTable::build(alloc, entities, TypeDecls::new(alloc))?)
}

/// The instances of these lines.
fn instances(alloc: Global, lines: &str) -> Result<Instances, Fail>
    ensures { IfOk result HasDistinctIds }
{
    let text = format!(in alloc; "{FRONT}{lines}{BACK}")?;
    let file = read_file(alloc, text.as_bytes(), 100)?;
    Ok(file.instances)
}

/// The model of these lines, each of which fits the schema.
pub fn model(alloc: Global, schema: &SchemaTable, lines: &str) -> Result<Snapshot, Fail> {
    let instances = instances(alloc, lines)?;
    for instance in instances.as_slice() {
        schema.check_instance(alloc, instance)?;
    }
    Ok(Snapshot::first(alloc, schema, instances)?)
}

/// The id of this number.
pub fn id(number: u32) -> Result<InstId, Memory> {
    InstId::new(number).ok_or(Memory)
}

fn role_word(role: Role) -> &'static str {
    match role {
        Role::Properties => "properties",
        Role::Kind => "type",
        Role::Classification => "classification",
        Role::Material => "material",
        Role::Aggregates => "aggregates",
        Role::Nests => "nests",
        Role::Contained => "contained",
        Role::Group => "group",
        Role::Voids => "voids",
        Role::Fills => "fills",
    }
}

fn key_text(alloc: Global, key: Key) -> Result<String, Memory> {
    Ok(match key {
        Key::Inst(id) => format!(in alloc; "{} ", id.get())?,
        Key::Refs(id, role) => format!(in alloc; "{}:{} ", id.get(), role_word(role))?,
    })
}

/// The keys, ascending and each once, as a text: an id for the instance there, and with a role for those that refer to
/// it. Each is followed by a blank.
pub fn keys_text(alloc: Global, keys: &[Key]) -> Result<String, Memory> {
    let mut each = BTreeSet::new(alloc);
    for key in keys {
        each.insert(*key)?;
    }
    let mut text = String::new(alloc);
    for key in each.iter() {
        text.push_str(key_text(alloc, *key)?.as_str())?;
    }
    Ok(text)
}
