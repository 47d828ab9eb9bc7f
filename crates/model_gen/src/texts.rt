//! The texts that stand in every made input, whatever the number and the count.

/// The declarations: a cut of IFC4 with every entity of a made model.
pub(crate) const DECLARATIONS: &str = "SCHEMA IFC4; (* cut for the rows *)
TYPE X = STRING; END_TYPE;
ENTITY IfcRoot ABSTRACT SUPERTYPE;
  GlobalId, OwnerHistory, Name, Description : OPTIONAL X; END_ENTITY;
ENTITY IfcObjectDefinition ABSTRACT SUPERTYPE SUBTYPE OF (IfcRoot); END_ENTITY;
ENTITY IfcObject ABSTRACT SUPERTYPE SUBTYPE OF (IfcObjectDefinition);
  ObjectType : OPTIONAL X; END_ENTITY;
ENTITY IfcProduct ABSTRACT SUPERTYPE SUBTYPE OF (IfcObject);
  ObjectPlacement, Representation : OPTIONAL X; END_ENTITY;
ENTITY IfcElement ABSTRACT SUPERTYPE SUBTYPE OF (IfcProduct);
  Tag : OPTIONAL X; END_ENTITY;
ENTITY IfcWall SUBTYPE OF (IfcElement); PredefinedType : OPTIONAL X; END_ENTITY;
ENTITY IfcWallStandardCase SUBTYPE OF (IfcWall); END_ENTITY;
ENTITY IfcBuildingStorey SUBTYPE OF (IfcProduct);
  LongName, CompositionType, Elevation : OPTIONAL X; END_ENTITY;
ENTITY IfcGroup SUBTYPE OF (IfcObject); END_ENTITY;
ENTITY IfcProject SUBTYPE OF (IfcObjectDefinition);
  ObjectType, LongName, Phase, RepresentationContexts, UnitsInContext : OPTIONAL X; END_ENTITY;
ENTITY IfcTypeObject SUBTYPE OF (IfcObjectDefinition);
  ApplicableOccurrence, HasPropertySets : OPTIONAL X; END_ENTITY;
ENTITY IfcWallType SUBTYPE OF (IfcTypeObject);
  RepresentationMaps, Tag, ElementType, PredefinedType : OPTIONAL X; END_ENTITY;
ENTITY IfcRelationship ABSTRACT SUPERTYPE SUBTYPE OF (IfcRoot); END_ENTITY;
ENTITY IfcRelDefinesByProperties SUBTYPE OF (IfcRelationship);
  RelatedObjects, RelatingPropertyDefinition : X; END_ENTITY;
ENTITY IfcRelDefinesByType SUBTYPE OF (IfcRelationship);
  RelatedObjects, RelatingType : X; END_ENTITY;
ENTITY IfcRelAssociatesClassification SUBTYPE OF (IfcRelationship);
  RelatedObjects, RelatingClassification : X; END_ENTITY;
ENTITY IfcRelAssociatesMaterial SUBTYPE OF (IfcRelationship);
  RelatedObjects, RelatingMaterial : X; END_ENTITY;
ENTITY IfcRelAggregates SUBTYPE OF (IfcRelationship);
  RelatingObject, RelatedObjects : X; END_ENTITY;
ENTITY IfcRelContainedInSpatialStructure SUBTYPE OF (IfcRelationship);
  RelatedElements, RelatingStructure : X; END_ENTITY;
ENTITY IfcRelAssignsToGroup SUBTYPE OF (IfcRelationship);
  RelatedObjects, RelatedObjectsType, RelatingGroup : X; END_ENTITY;
ENTITY IfcPropertySet SUBTYPE OF (IfcRoot); HasProperties : X; END_ENTITY;
ENTITY IfcElementQuantity SUBTYPE OF (IfcRoot);
  MethodOfMeasurement, Quantities : X; END_ENTITY;
ENTITY IfcPropertySingleValue; Name, Description, NominalValue, Unit : X; END_ENTITY;
ENTITY IfcQuantityLength; Name, Description, Unit, LengthValue, Formula : X; END_ENTITY;
ENTITY IfcMaterial; Name, Description, Category : X; END_ENTITY;
ENTITY IfcMaterialLayer;
  Material, LayerThickness, IsVentilated, Name, Description, Category, Priority : X; END_ENTITY;
ENTITY IfcMaterialLayerSet; MaterialLayers, LayerSetName, Description : X; END_ENTITY;
ENTITY IfcMaterialLayerSetUsage;
  ForLayerSet, LayerSetDirection, DirectionSense, OffsetFromReferenceLine, ReferenceExtent : X; END_ENTITY;
ENTITY IfcClassification;
  Source, Edition, EditionDate, Name, Description, Location, ReferenceTokens : X; END_ENTITY;
ENTITY IfcClassificationReference;
  Location, Identification, Name, ReferencedSource, Description, Sort : X; END_ENTITY;
ENTITY IfcPerson; Identification, FamilyName, GivenName, MiddleNames,
  PrefixTitles, SuffixTitles, Roles, Addresses : X; END_ENTITY;
ENTITY IfcOrganization; Identification, Name, Description, Roles, Addresses : X; END_ENTITY;
ENTITY IfcPersonAndOrganization; ThePerson, TheOrganization, Roles : X; END_ENTITY;
ENTITY IfcApplication; ApplicationDeveloper, Version, ApplicationFullName, ApplicationIdentifier : X; END_ENTITY;
ENTITY IfcOwnerHistory; OwningUser, OwningApplication, State, ChangeAction,
  LastModifiedDate, LastModifyingUser, LastModifyingApplication, CreationDate : X; END_ENTITY;
ENTITY IfcNamedUnit ABSTRACT SUPERTYPE; Dimensions, UnitType : X; END_ENTITY;
ENTITY IfcSIUnit SUBTYPE OF (IfcNamedUnit); Prefix, Name : X;
  DERIVE SELF\\IfcNamedUnit.Dimensions : X := 'x'; END_ENTITY;
ENTITY IfcUnitAssignment; Units : X; END_ENTITY;
END_SCHEMA;
";

/// The specifications: one, that every wall has a fire rating of REI60.
pub(crate) const SPECIFICATIONS: &str =
    "{\"specifications\":[{\"name\":\"walls\",\"ifcVersion\":[\"IFC4\"],
\"applicability\":{\"minOccurs\":\"0\",\"maxOccurs\":\"unbounded\",\"facets\":[{\"facet\":\"entity\",\"name\":{\"simpleValue\":\"IFCWALL\"}}]},
\"requirements\":[{\"facet\":\"property\",\"dataType\":\"IFCLABEL\",\"propertySet\":{\"simpleValue\":\"Pset_WallCommon\"},\"baseName\":{\"simpleValue\":\"FireRating\"},\"value\":{\"simpleValue\":\"REI60\"}}]}]}
";

/// The script: an audit, and one more after each of two edits of the rating of wall 1.
pub(crate) const SCRIPT: &str = "sync
open
set #11 NominalValue IFCLABEL('REI30')
commit
sync
open
set #11 NominalValue IFCLABEL('REI60')
commit
sync
";

/// What stands before the instances of a made model.
pub(crate) const HEAD: &str = "ISO-10303-21;
HEADER;
FILE_DESCRIPTION((''),'2;1');
FILE_NAME('','',(''),(''),'','','');
FILE_SCHEMA(('IFC4'));
ENDSEC;
DATA;
";

/// What stands behind the instances of a made model.
pub(crate) const FOOT: &str = "ENDSEC;
END-ISO-10303-21;
";
