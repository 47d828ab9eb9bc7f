use crate::asking::Ask::{Attribute, Entity};
use crate::asking::Cond::{Any, Is, Like};
use crate::asking::Told::{Holds, Nothing, Subject};
use crate::asking::{Group, expect};
use std::test::Fail;

/// The name of the entity is that of the element's own, in capitals.
const ENTITIES: [Group; 2] = [
    Group {
        model: "#1=IFCWALL($,$,$,$,$,$,$,$,.SOLIDWALL.);#2=IFCRELDEFINESBYTYPE($,$,$,$,(#1),#3);",
        elem: 1,
        keys: "1",
        cases: &[
            (Entity(Is("IFCWALL"), Any), Holds),
            (Entity(Like("IFC.*L"), Any), Holds),
            (Entity(Is("IfcWall"), Any), Nothing),
            (Entity(Is("IFCELEMENT"), Any), Nothing),
            (Entity(Is("IFCWALLSTANDARDCASE"), Any), Nothing),
        ],
    },
    // There is no such element.
    Group {
        model: "#1=IFCWALL($,$,$,$,$,$,$,$,.SOLIDWALL.);",
        elem: 9,
        keys: "9",
        cases: &[(Entity(Any, Any), Nothing), (Attribute(Any, Any), Nothing)],
    },
];

/// Predefined types of an element that has no type.
const OWN_TYPES: [Group; 13] = [
    Group {
        model: "#1=IFCWALL($,$,$,$,'Text',$,$,$,.SOLIDWALL.);",
        elem: 1,
        keys: "1 1:type",
        cases: &[
            (Entity(Is("IFCWALL"), Is("SOLIDWALL")), Holds),
            (Entity(Is("IFCWALL"), Like("SOLID.*")), Holds),
            (Entity(Is("IFCWALL"), Is("Text")), Nothing),
            (Entity(Is("IFCDOOR"), Is("SOLIDWALL")), Nothing),
        ],
    },
    Group {
        model: "#1=IFCWALL($,$,$,$,'Text',$,$,$,.USERDEFINED.);",
        elem: 1,
        keys: "1 1:type",
        cases: &[
            (Entity(Any, Is("Text")), Holds),
            (Entity(Any, Is("USERDEFINED")), Nothing),
        ],
    },
    Group {
        model: "#1=IFCWALL($,$,$,$,'',$,$,$,.USERDEFINED.);",
        elem: 1,
        keys: "1 1:type",
        cases: &[(Entity(Any, Is("USERDEFINED")), Holds)],
    },
    Group {
        model: "#1=IFCWALLTYPE($,$,$,$,$,$,$,$,'Element',.USERDEFINED.);",
        elem: 1,
        keys: "1 1:type",
        cases: &[(Entity(Any, Is("Element")), Holds)],
    },
    Group {
        model: "#1=IFCTASKTYPE($,$,$,$,$,$,'Process',.USERDEFINED.);",
        elem: 1,
        keys: "1 1:type",
        cases: &[(Entity(Any, Is("Process")), Holds)],
    },
    // The texts in their order, typed wrappers taken off.
    Group {
        model: "#1=TEXTS('P','E',IFCLABEL('O'),.USERDEFINED.);",
        elem: 1,
        keys: "1 1:type",
        cases: &[(Entity(Any, Is("O")), Holds)],
    },
    Group {
        model: "#1=TEXTS('P','E',IFCLABEL(''),.USERDEFINED.);",
        elem: 1,
        keys: "1 1:type",
        cases: &[(Entity(Any, Is("E")), Holds)],
    },
    Group {
        model: "#1=TEXTS('P',5,.O.,.USERDEFINED.);",
        elem: 1,
        keys: "1 1:type",
        cases: &[(Entity(Any, Is("P")), Holds)],
    },
    // Of two attributes of one name the first gives the text.
    Group {
        model: "#1=DOUBLED($,$,$,$,$,$,$,'Second',.USERDEFINED.);",
        elem: 1,
        keys: "1 1:type",
        cases: &[(Entity(Any, Is("USERDEFINED")), Holds)],
    },
    Group {
        model: "#1=IFCWALL($,$,$,$,'Text',$,$,$,.NOTDEFINED.);",
        elem: 1,
        keys: "1 1:type",
        cases: &[(Entity(Any, Like(".*")), Nothing)],
    },
    // What is no enumeration value is no predefined type, also within a typed parameter.
    Group {
        model: "#1=IFCWALL($,$,$,$,'Text',$,$,$,'SOLIDWALL');",
        elem: 1,
        keys: "1 1:type",
        cases: &[(Entity(Any, Like(".*")), Nothing)],
    },
    Group {
        model: "#1=IFCWALL($,$,$,$,'Text',$,$,$,IFCX(.SOLIDWALL.));",
        elem: 1,
        keys: "1 1:type",
        cases: &[(Entity(Any, Like(".*")), Nothing)],
    },
    // Only the name counts, of a truth value too.
    Group {
        model: "#1=IFCWALL($,$,$,$,'Text',$,$,$,.T.);",
        elem: 1,
        keys: "1 1:type",
        cases: &[
            (Entity(Any, Is("T")), Holds),
            (Entity(Any, Is("true")), Nothing),
        ],
    },
];

/// Predefined types of an element that has types.
const TYPES: [Group; 8] = [
    Group {
        model: "#1=IFCWALL($,$,$,$,'Text',$,$,$,.NOTDEFINED.);#2=IFCRELDEFINESBYTYPE($,$,$,$,(#1),#3);
            #3=IFCWALLTYPE($,$,$,$,$,$,$,$,$,.PARTITIONING.);",
        elem: 1,
        keys: "1 1:type 2 3",
        cases: &[
            (Entity(Any, Is("PARTITIONING")), Holds),
            (Entity(Any, Is("NOTDEFINED")), Nothing),
            (Entity(Is("IFCWALLTYPE"), Is("PARTITIONING")), Nothing),
        ],
    },
    // The element's own comes first.
    Group {
        model: "#1=IFCWALL($,$,$,$,$,$,$,$,.SOLIDWALL.);#2=IFCRELDEFINESBYTYPE($,$,$,$,(#1),#3);
            #3=IFCWALLTYPE($,$,$,$,$,$,$,$,$,.PARTITIONING.);",
        elem: 1,
        keys: "1 1:type 2 3",
        cases: &[
            (Entity(Any, Is("SOLIDWALL")), Holds),
            (Entity(Any, Is("PARTITIONING")), Nothing),
        ],
    },
    // An entity without such an attribute.
    Group {
        model: "#1=IFCGROUP($,$,$,$,$);#2=IFCRELDEFINESBYTYPE($,$,$,$,(#1),#3);
            #3=IFCWALLTYPE($,$,$,$,$,$,$,$,'Element',.USERDEFINED.);",
        elem: 1,
        keys: "1 1:type 2 3",
        cases: &[(Entity(Any, Is("Element")), Holds)],
    },
    // The first type that has one, in the order of the relationships and of what each names.
    Group {
        model: "#1=IFCWALL($,$,$,$,$,$,$,$,$);#4=IFCRELDEFINESBYTYPE($,$,$,$,(#1),#3);
            #2=IFCRELDEFINESBYTYPE($,$,$,$,(#9,#1),(#8,#7));#3=IFCWALLTYPE($,$,$,$,$,$,$,$,$,.B.);
            #7=IFCWALLTYPE($,$,$,$,$,$,$,$,$,.A.);#8=IFCWALLTYPE($,$,$,$,$,$,$,$,$,.NOTDEFINED.);",
        elem: 1,
        keys: "1 1:type 2 3 4 7 8",
        cases: &[
            (Entity(Any, Is("A")), Holds),
            (Entity(Any, Is("B")), Nothing),
        ],
    },
    // A type that is missing, and one that is missing beside another.
    Group {
        model: "#1=IFCWALL($,$,$,$,$,$,$,$,$);#2=IFCRELDEFINESBYTYPE($,$,$,$,(#1),#99);",
        elem: 1,
        keys: "1 1:type 2 99",
        cases: &[(Entity(Any, Like(".*")), Nothing)],
    },
    Group {
        model: "#1=IFCWALL($,$,$,$,$,$,$,$,$);#2=IFCRELDEFINESBYTYPE($,$,$,$,(#1),(#99,#3));
            #3=IFCWALLTYPE($,$,$,$,$,$,$,$,$,.B.);",
        elem: 1,
        keys: "1 1:type 2 3 99",
        cases: &[(Entity(Any, Is("B")), Holds)],
    },
    // Types of types aren't looked at, and an element may be its own.
    Group {
        model: "#1=IFCWALL($,$,$,$,$,$,$,$,$);#2=IFCRELDEFINESBYTYPE($,$,$,$,(#1),(#1,#3));
            #3=IFCWALLTYPE($,$,$,$,$,$,$,$,$,$);#4=IFCRELDEFINESBYTYPE($,$,$,$,(#3),#5);
            #5=IFCWALLTYPE($,$,$,$,$,$,$,$,$,.A.);",
        elem: 1,
        keys: "1 1:type 2 3",
        cases: &[(Entity(Any, Like(".*")), Nothing)],
    },
    // An element that is missing may have a type, and yet meets nothing.
    Group {
        model: "#2=IFCRELDEFINESBYTYPE($,$,$,$,(#9),#3);#3=IFCWALLTYPE($,$,$,$,$,$,$,$,$,.A.);",
        elem: 9,
        keys: "2 3 9 9:type",
        cases: &[(Entity(Any, Is("A")), Nothing)],
    },
];

/// A derived attribute, then attributes whose values aren't set.
const UNSET: &str =
    "#1=THINGS(*,$,'',(),.U.,IFCLABEL(''),IFCLABEL($),IFCLOGICAL(.U.),IFCX(()),IFCA(IFCB('')),$);";

/// Values that are set, whatever they are.
const SET: &str = "#1=THINGS(*,0,0.,' ',.F.,.NOTDEFINED.,#99,(#99),($),\"0\",IFCBOOLEAN(.F.));";

/// Attributes by their names and values.
const ATTRIBUTES: [Group; 5] = [
    Group {
        model: UNSET,
        elem: 1,
        keys: "1",
        cases: &[
            (Attribute(Is("Made"), Any), Nothing),
            (Attribute(Is("A"), Any), Nothing),
            (Attribute(Is("B"), Any), Nothing),
            (Attribute(Is("B"), Is("")), Nothing),
            (Attribute(Is("C"), Any), Nothing),
            (Attribute(Is("D"), Any), Nothing),
            (Attribute(Is("D"), Is("unknown")), Nothing),
            (Attribute(Is("E"), Any), Nothing),
            (Attribute(Is("F"), Any), Nothing),
            (Attribute(Is("G"), Any), Nothing),
            (Attribute(Is("H"), Any), Nothing),
            (Attribute(Is("I"), Any), Nothing),
            (Attribute(Any, Any), Nothing),
        ],
    },
    Group {
        model: SET,
        elem: 1,
        keys: "1",
        cases: &[
            (Attribute(Is("A"), Is("0")), Holds),
            (Attribute(Is("A"), Is("1")), Subject),
            (Attribute(Is("B"), Is("0")), Holds),
            (Attribute(Is("C"), Is(" ")), Holds),
            (Attribute(Is("D"), Is("false")), Holds),
            (Attribute(Is("E"), Is("NOTDEFINED")), Holds),
            // References, lists and binaries are set, and no condition admits them.
            (Attribute(Is("F"), Any), Holds),
            (Attribute(Is("F"), Like(".*")), Subject),
            (Attribute(Is("G"), Any), Holds),
            (Attribute(Is("G"), Like(".*")), Subject),
            (Attribute(Is("H"), Any), Holds),
            (Attribute(Is("I"), Any), Holds),
            (Attribute(Is("I"), Is("0")), Subject),
            (Attribute(Is("J"), Is("false")), Holds),
            // One admitted name with an admitted value is enough.
            (Attribute(Like("[AC]"), Is(" ")), Holds),
            (Attribute(Like("[AC]"), Is("false")), Subject),
            // Names are compared in their case, and a derived attribute has no value.
            (Attribute(Is("a"), Any), Nothing),
            (Attribute(Is("Made"), Any), Nothing),
        ],
    },
    // Of two attributes of one name each is looked at.
    Group {
        model: "#1=DOUBLED($,$,'N',$,$,'x','y',$,$);",
        elem: 1,
        keys: "1",
        cases: &[
            (Attribute(Is("Mark"), Is("x")), Holds),
            (Attribute(Is("Mark"), Is("y")), Holds),
            (Attribute(Is("Mark"), Is("N")), Subject),
            (Attribute(Is("Name"), Like("N.?")), Holds),
            (Attribute(Is("ObjectType"), Any), Nothing),
        ],
    },
    Group {
        model: "#1=DOUBLED($,$,$,$,$,$,'y','Second',$);",
        elem: 1,
        keys: "1",
        cases: &[
            (Attribute(Is("Mark"), Any), Holds),
            (Attribute(Is("Mark"), Is("y")), Holds),
            (Attribute(Is("ObjectType"), Is("Second")), Holds),
        ],
    },
    // What refers to an element is no attribute of it.
    Group {
        model: "#1=IFCGROUP($,$,$,$,$);#2=IFCRELASSIGNSTOGROUP($,$,$,$,(#1),$,#1);",
        elem: 1,
        keys: "1",
        cases: &[
            (Attribute(Is("IsGroupedBy"), Any), Nothing),
            (Attribute(Any, Any), Nothing),
        ],
    },
];

#[test]
fn entity_facets(rt: HostRuntime) -> Result<(), Fail> {
    expect(&rt, rt.alloc(), &ENTITIES)?;
    expect(&rt, rt.alloc(), &OWN_TYPES)?;
    expect(&rt, rt.alloc(), &TYPES)
}

#[test]
fn attribute_facets(rt: HostRuntime) -> Result<(), Fail> {
    expect(&rt, rt.alloc(), &ATTRIBUTES)
}
