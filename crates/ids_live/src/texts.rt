//! The inputs of the tests, and what they are to write.

/// The declarations of `data/schema.exp`.
pub const SCHEMA: &str = "SCHEMA IFC4; (* cut for the rows *)
TYPE X = STRING; END_TYPE;
ENTITY IfcRoot ABSTRACT SUPERTYPE;
  GlobalId, OwnerHistory, Name, Description : OPTIONAL X; END_ENTITY;
ENTITY IfcObjectDefinition ABSTRACT SUPERTYPE SUBTYPE OF (IfcRoot); END_ENTITY;
ENTITY IfcObject ABSTRACT SUPERTYPE SUBTYPE OF (IfcObjectDefinition);
  ObjectType : OPTIONAL X; END_ENTITY;
ENTITY IfcProduct ABSTRACT SUPERTYPE SUBTYPE OF (IfcObject);
  ObjectPlacement, Representation : OPTIONAL X; END_ENTITY;
ENTITY IfcElement ABSTRACT SUPERTYPE SUBTYPE OF (IfcProduct);
  Tag : OPTIONAL X; END_ENTITY;
ENTITY IfcWall SUBTYPE OF (IfcElement); PredefinedType : OPTIONAL X; END_ENTITY;
ENTITY IfcWallStandardCase SUBTYPE OF (IfcWall); END_ENTITY;
ENTITY IfcBuildingStorey SUBTYPE OF (IfcProduct);
  LongName, CompositionType, Elevation : OPTIONAL X; END_ENTITY;
ENTITY IfcGroup SUBTYPE OF (IfcObject); END_ENTITY;
ENTITY IfcProject SUBTYPE OF (IfcObjectDefinition);
  ObjectType, LongName, Phase, RepresentationContexts, UnitsInContext : OPTIONAL X; END_ENTITY;
ENTITY IfcTypeObject SUBTYPE OF (IfcObjectDefinition);
  ApplicableOccurrence, HasPropertySets : OPTIONAL X; END_ENTITY;
ENTITY IfcWallType SUBTYPE OF (IfcTypeObject);
  RepresentationMaps, Tag, ElementType, PredefinedType : OPTIONAL X; END_ENTITY;
ENTITY IfcRelationship ABSTRACT SUPERTYPE SUBTYPE OF (IfcRoot); END_ENTITY;
ENTITY IfcRelDefinesByProperties SUBTYPE OF (IfcRelationship);
  RelatedObjects, RelatingPropertyDefinition : X; END_ENTITY;
ENTITY IfcRelDefinesByType SUBTYPE OF (IfcRelationship);
  RelatedObjects, RelatingType : X; END_ENTITY;
ENTITY IfcRelAssociatesClassification SUBTYPE OF (IfcRelationship);
  RelatedObjects, RelatingClassification : X; END_ENTITY;
ENTITY IfcRelAssociatesMaterial SUBTYPE OF (IfcRelationship);
  RelatedObjects, RelatingMaterial : X; END_ENTITY;
ENTITY IfcRelAggregates SUBTYPE OF (IfcRelationship);
  RelatingObject, RelatedObjects : X; END_ENTITY;
ENTITY IfcRelContainedInSpatialStructure SUBTYPE OF (IfcRelationship);
  RelatedElements, RelatingStructure : X; END_ENTITY;
ENTITY IfcRelAssignsToGroup SUBTYPE OF (IfcRelationship);
  RelatedObjects, RelatedObjectsType, RelatingGroup : X; END_ENTITY;
ENTITY IfcPropertySet SUBTYPE OF (IfcRoot); HasProperties : X; END_ENTITY;
ENTITY IfcElementQuantity SUBTYPE OF (IfcRoot);
  MethodOfMeasurement, Quantities : X; END_ENTITY;
ENTITY IfcPropertySingleValue; Name, Description, NominalValue, Unit : X; END_ENTITY;
ENTITY IfcQuantityLength; Name, Description, Unit, LengthValue, Formula : X; END_ENTITY;
ENTITY IfcMaterial; Name, Description, Category : X; END_ENTITY;
ENTITY IfcMaterialLayer;
  Material, LayerThickness, IsVentilated, Name, Description, Category, Priority : X; END_ENTITY;
ENTITY IfcMaterialLayerSet; MaterialLayers, LayerSetName, Description : X; END_ENTITY;
ENTITY IfcMaterialLayerSetUsage;
  ForLayerSet, LayerSetDirection, DirectionSense, OffsetFromReferenceLine, ReferenceExtent : X; END_ENTITY;
ENTITY IfcClassification;
  Source, Edition, EditionDate, Name, Description, Location, ReferenceTokens : X; END_ENTITY;
ENTITY IfcClassificationReference;
  Location, Identification, Name, ReferencedSource, Description, Sort : X; END_ENTITY;
ENTITY IfcPerson; Identification, FamilyName, GivenName, MiddleNames,
  PrefixTitles, SuffixTitles, Roles, Addresses : X; END_ENTITY;
ENTITY IfcOrganization; Identification, Name, Description, Roles, Addresses : X; END_ENTITY;
ENTITY IfcPersonAndOrganization; ThePerson, TheOrganization, Roles : X; END_ENTITY;
ENTITY IfcApplication; ApplicationDeveloper, Version, ApplicationFullName, ApplicationIdentifier : X; END_ENTITY;
ENTITY IfcOwnerHistory; OwningUser, OwningApplication, State, ChangeAction,
  LastModifiedDate, LastModifyingUser, LastModifyingApplication, CreationDate : X; END_ENTITY;
ENTITY IfcNamedUnit ABSTRACT SUPERTYPE; Dimensions, UnitType : X; END_ENTITY;
ENTITY IfcSIUnit SUBTYPE OF (IfcNamedUnit); Prefix, Name : X;
  DERIVE SELF\\IfcNamedUnit.Dimensions : X := 'x'; END_ENTITY;
ENTITY IfcUnitAssignment; Units : X; END_ENTITY;
END_SCHEMA;
";

/// Specifications of one entity in the applicability and one in the requirement.
pub const WALLS: &str = "{\"specifications\":[{\"name\":\"walls\",\"ifcVersion\":[\"IFC4\"],\n\
     \"applicability\":{\"minOccurs\":\"0\",\"maxOccurs\":\"unbounded\",\
     \"facets\":[{\"facet\":\"entity\",\"name\":{\"simpleValue\":\"IFCWALL\"}}]},\n\
     \"requirements\":[{\"facet\":\"entity\",\"name\":{\"simpleValue\":\"IFCWALL\"}}]}]}\n";

pub const GROUPS: &str = "{\"specifications\":[{\"name\":\"walls\",\"ifcVersion\":[\"IFC4\"],\n\
     \"applicability\":{\"minOccurs\":\"0\",\"maxOccurs\":\"unbounded\",\
     \"facets\":[{\"facet\":\"entity\",\"name\":{\"simpleValue\":\"IFCWALL\"}}]},\n\
     \"requirements\":[{\"facet\":\"entity\",\"name\":{\"simpleValue\":\"IFCGROUP\"}}]}]}\n";

pub const HEADER: &str =
    "ISO-10303-21;\nHEADER;\nFILE_DESCRIPTION((''),'2;1');\nFILE_NAME('','',(''),(''),'','','');\n\
     FILE_SCHEMA(('IFC4'));\nENDSEC;\nDATA;\n";

pub const TWO_WALLS: &str =
    "#10=IFCWALL('a',$,'W01',$,$,$,$,$,$);\n#11=IFCWALL('b',$,'W02',$,$,$,$,$,$);\n";

pub const STANDARD_CASES: &str =
    "#10=IFCWALLSTANDARDCASE('a',$,'W01',$,$,$,$,$,$);\n#11=IFCWALLSTANDARDCASE('b',$,'W02',$,$,$,$,$,$);\n";

pub const FOOT: &str = "ENDSEC;\nEND-ISO-10303-21;\n";

pub const PASS: &str = "report 0\nspec 1 pass applicable 2 failed 0\nend pass\n";

/// The instances of a small model in the manner of an export.
pub const EXPORT: &str = "#1=IFCPERSON($,'Doe',$,$,$,$,$,$);
#2=IFCORGANIZATION($,'Office',$,$,$);
#3=IFCPERSONANDORGANIZATION(#1,#2,$);
#4=IFCAPPLICATION(#2,'1.0','Modeller','MOD');
#5=IFCOWNERHISTORY(#3,#4,$,.NOCHANGE.,$,$,$,1714557600);
#6=IFCSIUNIT(*,.LENGTHUNIT.,$,.METRE.);
#7=IFCUNITASSIGNMENT((#6));
#8=IFCPROJECT('0000000000000000000008',#5,'Demo',$,$,$,$,$,#7);
#9=IFCBUILDINGSTOREY('0000000000000000000009',#5,'Ground',$,$,$,$,$,.ELEMENT.,0.);
#10=IFCWALL('0000000000000000000010',#5,'W01',$,$,$,$,'T1',.SOLIDWALL.);
#11=IFCWALL('0000000000000000000011',#5,'W011',$,$,$,$,'',.NOTDEFINED.);
#12=IFCWALLTYPE('0000000000000000000012',#5,'Type A',$,$,(#20),$,$,$,.PARTITIONING.);
#13=IFCRELDEFINESBYTYPE('0000000000000000000013',#5,$,$,(#10,#11),#12);
#14=IFCRELAGGREGATES('0000000000000000000014',#5,$,$,#8,(#9));
#15=IFCRELCONTAINEDINSPATIALSTRUCTURE('0000000000000000000015',#5,$,$,(#10),#9);
#20=IFCPROPERTYSET('0000000000000000000020',#5,'Pset_WallCommon',$,(#21,#22));
#21=IFCPROPERTYSINGLEVALUE('FireRating',$,IFCLABEL('REI60'),$);
#22=IFCPROPERTYSINGLEVALUE('IsExternal',$,IFCBOOLEAN(.F.),$);
#23=IFCELEMENTQUANTITY('0000000000000000000023',#5,'Qto_WallBaseQuantities',$,$,(#24));
#24=IFCQUANTITYLENGTH('Length',$,$,42.000042,$);
#25=IFCRELDEFINESBYPROPERTIES('0000000000000000000025',#5,$,$,(#10),#23);
#26=IFCMATERIAL('Concrete',$,$);
#27=IFCMATERIALLAYER(#26,0.2,$,$,$,$,$);
#28=IFCMATERIALLAYERSET((#27),'Solid 200',$);
#29=IFCMATERIALLAYERSETUSAGE(#28,.AXIS2.,.POSITIVE.,-0.1,$);
#30=IFCRELASSOCIATESMATERIAL('0000000000000000000030',#5,$,$,(#10),#29);
#31=IFCCLASSIFICATION($,$,$,'Uniclass 2015',$,$,$);
#32=IFCCLASSIFICATIONREFERENCE($,'EF_25',$,#31,$,$);
#33=IFCCLASSIFICATIONREFERENCE($,'EF_25_10',$,#32,$,$);
#34=IFCRELASSOCIATESCLASSIFICATION('0000000000000000000034',#5,$,$,(#10),#33);
";

pub const NOTHING: &str = "report 0\nspec 1 pass applicable 0 failed 0\nend pass\n";

pub const FAILED: &str =
    "report 0\nspec 1 fail applicable 2 failed 2\nfail #10 1\nfail #11 1\nend fail\n";

pub const TWICE: &str =
    "report 0\nspec 1 pass applicable 2 failed 0\nend pass\nreport 0\nspec 1 pass applicable 2 failed 0\nend pass\n";

pub const CHANGED_BACK: &str =
    "1 take 1 #10 0\n1 open 0\n1 commit 1\n1 open 1\n1 commit 2\n1 give stale inst #10 2\nreport 2\n\
     spec 1 pass applicable 2 failed 0\nend pass\n";

pub const UNRELATED: &str =
    "1 take 1 #10 0\n1 open 0\n1 commit 1\n1 give used\nreport 1\nspec 1 pass applicable 1 failed 0\nend pass\n";

pub const HELD_BACK: &str =
    "1 pending 1 #10\nreport 0\nspec 1 pass applicable 2 failed 0\nend pass\n";

pub const ADDED: &str =
    "report 0\nspec 1 pass applicable 2 failed 0\nend pass\n1 open 0\n1 commit 1\nreport 1\n\
     spec 1 pass applicable 2 failed 0\nend pass\n";

pub const REFUSED: &str =
    "1 open 0\n1 refused 2 taken #10\n1 open 0\n1 refused 1 missing #20\nreport 0\nspec 1 pass applicable 2 failed 0\nend pass\n";

pub const PUBLISHED: &str =
    "1 take 1 #10 0\n1 give used\n1 take 1 #11 0\n1 give used\n1 idle\n1 published\nreport 0\n\
     spec 1 pass applicable 2 failed 0\nend pass\nreport 0\nspec 1 pass applicable 2 failed 0\nend pass\n";

pub const IDLE: &str =
    "1 take 1 #10 0\n1 give used\n1 take 1 #11 0\n1 give used\n1 idle\n1 idle\nreport 0\n\
     spec 1 pass applicable 2 failed 0\nend pass\n";

pub const FAILED_TWICE: &str =
    "report 0\nspec 1 fail applicable 2 failed 2\nfail #10 1\nfail #11 1\nend fail\n1 open 0\n\
     1 commit 1\nreport 1\nspec 1 fail applicable 1 failed 1\nfail #11 1\nend fail\n";

pub const MISFITS: &str =
    "1 open 0\n1 refused 1 schema #20 count 1 5\n1 open 0\n1 refused 1 schema #20 abstract IFCROOT\n1 open 0\n\
     1 refused 1 schema #20 derived 1\n1 open 0\n1 refused 1 taken #10\n1 open 0\n\
     1 refused 1 schema #20 unknown IFCGROUPS\nreport 0\nspec 1 pass applicable 2 failed 0\nend pass\n";

pub const LEFT_DANGLING: &str =
    "1 open 0\n1 refused dangling from #20 to #22\nreport 0\nspec 1 pass applicable 2 failed 0\nend pass\n";

pub const DANGLING: &str =
    "1 open 0\n1 refused dangling from #12 to #99\nreport 0\nspec 1 pass applicable 2 failed 0\nend pass\n";
