//! A model in the manner of an export, and worked models with cycles and missing references.

use crate::asking::Ask::{Attribute, Classification, Entity, Material, PartOf, Property};
use crate::asking::Cond::{Any, Is, Like};
use crate::asking::Told::{Holds, Nothing, Subject};
use crate::asking::{Group, expect};
use audit_model::Relation;
use std::test::Fail;

/// Two walls of one type, of which one has quantities, a material, a classification and a storey.
const WALLS: &str = "#1=IFCPERSON($,'Doe',$,$,$,$,$,$);
#2=IFCORGANIZATION($,'Office',$,$,$);
#3=IFCPERSONANDORGANIZATION(#1,#2,$);
#4=IFCAPPLICATION(#2,'1.0','Modeller','MOD');
#5=IFCOWNERHISTORY(#3,#4,$,.NOCHANGE.,$,$,$,1714557600);
#6=IFCSIUNIT(*,.LENGTHUNIT.,$,.METRE.);
#7=IFCUNITASSIGNMENT((#6));
#8=IFCPROJECT('0000000000000000000008',#5,'Demo',$,$,$,$,$,#7);
#9=IFCBUILDINGSTOREY('0000000000000000000009',#5,'Ground',$,$,$,$,$,.ELEMENT.,0.);
#10=IFCWALL('0000000000000000000010',#5,'W01',$,$,$,$,'T1',.SOLIDWALL.);
#11=IFCWALL('0000000000000000000011',#5,'W011',$,$,$,$,'',.NOTDEFINED.);
#12=IFCWALLTYPE('0000000000000000000012',#5,'Type A',$,$,(#20),$,$,$,.PARTITIONING.);
#13=IFCRELDEFINESBYTYPE('0000000000000000000013',#5,$,$,(#10,#11),#12);
#14=IFCRELAGGREGATES('0000000000000000000014',#5,$,$,#8,(#9));
#15=IFCRELCONTAINEDINSPATIALSTRUCTURE('0000000000000000000015',#5,$,$,(#10),#9);
#20=IFCPROPERTYSET('0000000000000000000020',#5,'Pset_WallCommon',$,(#21,#22));
#21=IFCPROPERTYSINGLEVALUE('FireRating',$,IFCLABEL('REI60'),$);
#22=IFCPROPERTYSINGLEVALUE('IsExternal',$,IFCBOOLEAN(.F.),$);
#23=IFCELEMENTQUANTITY('0000000000000000000023',#5,'Qto_WallBaseQuantities',$,$,(#24));
#24=IFCQUANTITYLENGTH('Length',$,$,42.000042,$);
#25=IFCRELDEFINESBYPROPERTIES('0000000000000000000025',#5,$,$,(#10),#23);
#26=IFCMATERIAL('Concrete',$,$);
#27=IFCMATERIALLAYER(#26,0.2,$,$,$,$,$);
#28=IFCMATERIALLAYERSET((#27),'Solid 200',$);
#29=IFCMATERIALLAYERSETUSAGE(#28,.AXIS2.,.POSITIVE.,-0.1,$);
#30=IFCRELASSOCIATESMATERIAL('0000000000000000000030',#5,$,$,(#10),#29);
#31=IFCCLASSIFICATION($,$,$,'Uniclass 2015',$,$,$);
#32=IFCCLASSIFICATIONREFERENCE($,'EF_25',$,#31,$,$);
#33=IFCCLASSIFICATIONREFERENCE($,'EF_25_10',$,#32,$,$);
#34=IFCRELASSOCIATESCLASSIFICATION('0000000000000000000034',#5,$,$,(#10),#33);
";

/// Each of six facets holds of the first wall, and not of the second.
const SIX_FACETS: [Group; 12] = [
    Group {
        model: WALLS,
        elem: 10,
        keys: "10 10:type 12 13",
        cases: &[(Entity(Is("IFCWALL"), Is("SOLIDWALL")), Holds)],
    },
    Group {
        model: WALLS,
        elem: 11,
        keys: "11 11:type 12 13",
        cases: &[
            (Entity(Is("IFCWALL"), Is("SOLIDWALL")), Nothing),
            (Entity(Is("IFCWALL"), Is("PARTITIONING")), Holds),
        ],
    },
    Group {
        model: WALLS,
        elem: 10,
        keys: "10",
        cases: &[(Attribute(Is("Name"), Like("W[0-9]{2}")), Holds)],
    },
    Group {
        model: WALLS,
        elem: 11,
        keys: "11",
        cases: &[(Attribute(Is("Name"), Like("W[0-9]{2}")), Subject)],
    },
    Group {
        model: WALLS,
        elem: 10,
        keys: "10 10:properties 10:type 12 13 20 21 22 23 24 25",
        cases: &[
            (
                Property(
                    Is("Qto_WallBaseQuantities"),
                    Is("Length"),
                    "IFCLENGTHMEASURE",
                    Is("42"),
                ),
                Holds,
            ),
            (
                Property(
                    Is("Pset_WallCommon"),
                    Is("FireRating"),
                    "IFCLABEL",
                    Is("REI60"),
                ),
                Holds,
            ),
        ],
    },
    Group {
        model: WALLS,
        elem: 11,
        keys: "11 11:properties 11:type 12 13 20 21 22",
        cases: &[
            (
                Property(
                    Is("Qto_WallBaseQuantities"),
                    Is("Length"),
                    "IFCLENGTHMEASURE",
                    Is("42"),
                ),
                Nothing,
            ),
            (
                Property(
                    Is("Pset_WallCommon"),
                    Is("FireRating"),
                    "IFCLABEL",
                    Is("REI60"),
                ),
                Holds,
            ),
        ],
    },
    Group {
        model: WALLS,
        elem: 10,
        keys: "10 10:type 10:classification 12 12:classification 13 31 32 33 34",
        cases: &[(Classification(Is("Uniclass 2015"), Is("EF_25")), Holds)],
    },
    Group {
        model: WALLS,
        elem: 11,
        keys: "11 11:type 11:classification 12 12:classification 13",
        cases: &[(Classification(Is("Uniclass 2015"), Is("EF_25")), Nothing)],
    },
    Group {
        model: WALLS,
        elem: 10,
        keys: "10 10:type 10:material 12 12:material 13 26 27 28 29 30",
        cases: &[(Material(Is("Concrete")), Holds)],
    },
    Group {
        model: WALLS,
        elem: 11,
        keys: "11 11:type 11:material 12 12:material 13",
        cases: &[(Material(Is("Concrete")), Nothing)],
    },
    Group {
        model: WALLS,
        elem: 10,
        keys: "9 9:contained 10 10:contained 15",
        cases: &[(PartOf(Relation::Contained, Is("IFCBUILDINGSTOREY")), Holds)],
    },
    Group {
        model: WALLS,
        elem: 11,
        keys: "11 11:contained",
        cases: &[(
            PartOf(Relation::Contained, Is("IFCBUILDINGSTOREY")),
            Nothing,
        )],
    },
];

/// Two groups that contain each other.
const GROUPS: &str = "#50=IFCGROUP('a',$,$,$,$);
#51=IFCGROUP('b',$,$,$,$);
#52=IFCRELASSIGNSTOGROUP('c',$,$,$,(#50),$,#51);
#53=IFCRELASSIGNSTOGROUP('d',$,$,$,(#51),$,#50);
";

const GROUPS_IN_A_CYCLE: [Group; 2] = [
    Group {
        model: GROUPS,
        elem: 50,
        keys: "50 50:group 51 51:group 52 53",
        cases: &[(PartOf(Relation::Group, Is("IFCGROUP")), Holds)],
    },
    Group {
        model: GROUPS,
        elem: 51,
        keys: "50 50:group 51 51:group 52 53",
        cases: &[(PartOf(Relation::Group, Is("IFCGROUP")), Holds)],
    },
];

/// Two walls, of which one is classified by two references to each other.
const REFERENCES: &str = "#10=IFCWALL('a',$,'W01',$,$,$,$,$,$);
#11=IFCWALL('b',$,'W02',$,$,$,$,$,$);
#60=IFCCLASSIFICATIONREFERENCE($,'A',$,#61,$,$);
#61=IFCCLASSIFICATIONREFERENCE($,'B',$,#60,$,$);
#62=IFCRELASSOCIATESCLASSIFICATION('c',$,$,$,(#10),#60);
";

/// Two walls, of which one is classified by a missing reference.
const MISSING: &str = "#10=IFCWALL('a',$,'W01',$,$,$,$,$,$);
#11=IFCWALL('b',$,'W02',$,$,$,$,$,$);
#62=IFCRELASSOCIATESCLASSIFICATION('c',$,$,$,(#10),#99);
";

/// The same, where the reference has come.
const COME: &str = "#10=IFCWALL('a',$,'W01',$,$,$,$,$,$);
#11=IFCWALL('b',$,'W02',$,$,$,$,$,$);
#62=IFCRELASSOCIATESCLASSIFICATION('c',$,$,$,(#10),#99);
#99=IFCCLASSIFICATIONREFERENCE($,'A',$,$,$,$);
";

const REFERENCES_IN_A_CYCLE: [Group; 2] = [
    Group {
        model: REFERENCES,
        elem: 10,
        keys: "10 10:type 10:classification 60 61 62",
        cases: &[
            (Classification(Any, Is("B")), Holds),
            (Classification(Any, Is("A")), Holds),
            (Classification(Any, Is("C")), Subject),
            (Classification(Like(".*"), Any), Nothing),
        ],
    },
    Group {
        model: REFERENCES,
        elem: 11,
        keys: "11 11:type 11:classification",
        cases: &[(Classification(Any, Is("B")), Nothing)],
    },
];

const MISSING_REFERENCE: [Group; 2] = [
    Group {
        model: MISSING,
        elem: 10,
        keys: "10 10:type 10:classification 62 99",
        cases: &[
            (Classification(Any, Is("A")), Subject),
            (Classification(Any, Any), Holds),
            (Classification(Like(".*"), Any), Nothing),
        ],
    },
    Group {
        model: COME,
        elem: 10,
        keys: "10 10:type 10:classification 62 99",
        cases: &[
            (Classification(Any, Is("A")), Holds),
            (Classification(Like(".*"), Any), Nothing),
        ],
    },
];

#[test]
fn six_facets(rt: HostRuntime) -> Result<(), Fail> {
    expect(&rt, rt.alloc(), &SIX_FACETS)
}

#[test]
fn cycles_and_missing_references(rt: HostRuntime) -> Result<(), Fail> {
    expect(&rt, rt.alloc(), &GROUPS_IN_A_CYCLE)?;
    expect(&rt, rt.alloc(), &REFERENCES_IN_A_CYCLE)?;
    expect(&rt, rt.alloc(), &MISSING_REFERENCE)
}
