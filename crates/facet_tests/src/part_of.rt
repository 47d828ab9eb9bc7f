use crate::asking::Ask::{PartOf, PartOfKind};
use crate::asking::Cond::{Any, Is, Like};
use crate::asking::Told::{Holds, Nothing};
use crate::asking::{Group, expect};
use audit_model::Relation;
use std::test::Fail;

/// A door that is in a storey of a building, in a group of a group, nested in another door, and in an opening of a wall,
/// which is in another storey.
const DOOR: &str =
    "#1=IFCDOOR($,$,$,$,$,$,$,$,$);#2=IFCRELCONTAINEDINSPATIALSTRUCTURE($,$,$,$,(#1),#3);
    #3=IFCBUILDINGSTOREY($,$,$,$,$,$,$,$,$,$);#4=IFCRELAGGREGATES($,$,$,$,#5,(#3));#5=IFCBUILDING($,$,$,$,$,$,$);
    #6=IFCRELASSIGNSTOGROUP($,$,$,$,(#1),$,#7);#7=IFCGROUP($,$,$,$,$);
    #8=IFCRELASSIGNSTOGROUPBYFACTOR($,$,$,$,(#7),$,#9,0.5);#9=IFCGROUP($,$,$,$,$);
    #10=IFCRELFILLSELEMENT($,$,$,$,#11,#1);#11=IFCOPENINGELEMENT($,$,$,$,$,$,$,$,$);
    #12=IFCRELVOIDSELEMENT($,$,$,$,#13,#11);#13=IFCWALL($,$,$,$,$,$,$,$,$);
    #14=IFCRELNESTS($,$,$,$,#15,(#1));#15=IFCDOOR($,$,$,$,$,$,$,$,$);
    #16=IFCRELCONTAINEDINSPATIALSTRUCTURE($,$,$,$,(#13),#17);#17=IFCBUILDINGSTOREY($,$,$,$,$,$,$,$,$,$);";

/// Each relation from the door, and one from its storey.
const RELATIONS: [Group; 7] = [
    Group {
        model: DOOR,
        elem: 1,
        keys: "1 1:contained 2 3 3:contained",
        cases: &[
            (PartOf(Relation::Contained, Any), Holds),
            (PartOf(Relation::Contained, Is("IFCBUILDINGSTOREY")), Holds),
            (PartOf(Relation::Contained, Is("IFCBUILDING")), Nothing),
            (PartOf(Relation::Contained, Is("IFCDOOR")), Nothing),
            (PartOf(Relation::Contained, Is("IFCGROUP")), Nothing),
        ],
    },
    Group {
        model: DOOR,
        elem: 1,
        keys: "1 1:aggregates",
        cases: &[(PartOf(Relation::Aggregates, Any), Nothing)],
    },
    Group {
        model: DOOR,
        elem: 3,
        keys: "3 3:aggregates 4 5 5:aggregates",
        cases: &[
            (PartOf(Relation::Aggregates, Is("IFCBUILDING")), Holds),
            (
                PartOf(Relation::Aggregates, Is("IFCBUILDINGSTOREY")),
                Nothing,
            ),
        ],
    },
    Group {
        model: DOOR,
        elem: 1,
        keys: "1 1:nests 14 15 15:nests",
        cases: &[
            (PartOf(Relation::Nests, Is("IFCDOOR")), Holds),
            (PartOf(Relation::Nests, Is("IFCWALL")), Nothing),
        ],
    },
    Group {
        model: DOOR,
        elem: 1,
        keys: "1 1:group 6 7 7:group 8 9 9:group",
        cases: &[
            (PartOf(Relation::Group, Is("IFCGROUP")), Holds),
            (PartOf(Relation::Group, Is("IFCDOOR")), Nothing),
        ],
    },
    Group {
        model: DOOR,
        elem: 1,
        keys: "1 1:voids 1:fills 10 11 11:voids 11:fills 12 13 13:voids 13:fills",
        cases: &[
            (PartOf(Relation::VoidsFills, Is("IFCOPENINGELEMENT")), Holds),
            (PartOf(Relation::VoidsFills, Is("IFCWALL")), Holds),
            (
                PartOf(Relation::VoidsFills, Is("IFCBUILDINGSTOREY")),
                Nothing,
            ),
        ],
    },
    Group {
        model: DOOR,
        elem: 1,
        keys: "1 1:aggregates 1:nests 1:contained 1:group 1:voids 1:fills 2 \
            3 3:aggregates 3:nests 3:contained 3:group 3:voids 3:fills 4 \
            5 5:aggregates 5:nests 5:contained 5:group 5:voids 5:fills 6 \
            7 7:aggregates 7:nests 7:contained 7:group 7:voids 7:fills 8 \
            9 9:aggregates 9:nests 9:contained 9:group 9:voids 9:fills 10 \
            11 11:aggregates 11:nests 11:contained 11:group 11:voids 11:fills 12 \
            13 13:aggregates 13:nests 13:contained 13:group 13:voids 13:fills 14 \
            15 15:aggregates 15:nests 15:contained 15:group 15:voids 15:fills 16 \
            17 17:aggregates 17:nests 17:contained 17:group 17:voids 17:fills",
        cases: &[
            (PartOf(Relation::Any, Any), Holds),
            (PartOf(Relation::Any, Is("IFCBUILDING")), Holds),
            (PartOf(Relation::Any, Is("IFCWALL")), Holds),
            (PartOf(Relation::Any, Is("IFCGROUP")), Holds),
            (PartOf(Relation::Any, Is("IFCDOOR")), Holds),
            (PartOf(Relation::Any, Like("IFCBUILDING.+")), Holds),
            (PartOf(Relation::Any, Is("IFCPRODUCT")), Nothing),
        ],
    },
];

/// Groups that contain each other, and an element that is in one of them.
const CYCLE: &str =
    "#50=IFCGROUP('a',$,$,$,$);#51=IFCGROUP('b',$,$,$,$);#52=IFCRELASSIGNSTOGROUP('c',$,$,$,(#50),$,#51);
    #53=IFCRELASSIGNSTOGROUP('d',$,$,$,(#51),$,#50);#1=IFCWALL($,$,$,$,$,$,$,$,.SOLIDWALL.);
    #2=IFCRELASSIGNSTOGROUP('e',$,$,$,(#1),$,#51);";

/// An element that is in a missing storey, which is in a building.
const MISSING: &str =
    "#1=IFCWALL($,$,$,$,$,$,$,$,$);#2=IFCRELCONTAINEDINSPATIALSTRUCTURE($,$,$,$,(#1),#99);
    #4=IFCRELAGGREGATES($,$,$,$,#5,(#99));#5=IFCBUILDING($,$,$,$,$,$,$);";

/// Cycles, and ancestors that are missing.
const ANCESTORS: [Group; 7] = [
    Group {
        model: CYCLE,
        elem: 50,
        keys: "50 50:group 51 51:group 52 53",
        cases: &[
            (PartOf(Relation::Group, Is("IFCGROUP")), Holds),
            (PartOf(Relation::Group, Is("IFCWALL")), Nothing),
        ],
    },
    // The element itself only where it is reached.
    Group {
        model: CYCLE,
        elem: 1,
        keys: "1 1:group 2 50 50:group 51 51:group 52 53",
        cases: &[
            (PartOf(Relation::Group, Is("IFCGROUP")), Holds),
            (PartOf(Relation::Group, Is("IFCWALL")), Nothing),
        ],
    },
    Group {
        model: "#1=IFCWALL($,$,$,$,$,$,$,$,$);#2=IFCRELAGGREGATES($,$,$,$,#1,(#1));",
        elem: 1,
        keys: "1 1:aggregates 2",
        cases: &[(PartOf(Relation::Aggregates, Is("IFCWALL")), Holds)],
    },
    // No ancestor.
    Group {
        model: "#1=IFCWALL($,$,$,$,$,$,$,$,$);",
        elem: 1,
        keys: "1 1:aggregates 1:nests 1:contained 1:group 1:voids 1:fills",
        cases: &[
            (PartOf(Relation::Any, Any), Nothing),
            (PartOf(Relation::Any, Like(".*")), Nothing),
        ],
    },
    // A missing one meets nothing.
    Group {
        model: MISSING,
        elem: 1,
        keys: "1 1:contained 2 99 99:contained",
        cases: &[
            (PartOf(Relation::Contained, Any), Nothing),
            (PartOf(Relation::Contained, Like(".*")), Nothing),
        ],
    },
    // It may have ancestors of its own.
    Group {
        model: MISSING,
        elem: 1,
        keys: "1 1:aggregates 1:nests 1:contained 1:group 1:voids 1:fills 2 4 \
            5 5:aggregates 5:nests 5:contained 5:group 5:voids 5:fills \
            99 99:aggregates 99:nests 99:contained 99:group 99:voids 99:fills",
        cases: &[
            (PartOf(Relation::Any, Any), Holds),
            (PartOf(Relation::Any, Is("IFCBUILDING")), Holds),
            (PartOf(Relation::Any, Is("IFCBUILDINGSTOREY")), Nothing),
        ],
    },
    // Two relationships of one kind.
    Group {
        model: "#1=IFCWALL($,$,$,$,$,$,$,$,$);#2=IFCRELASSIGNSTOGROUP($,$,$,$,(#1),$,#99);
            #3=IFCRELASSIGNSTOGROUP($,$,$,$,(#1),$,#4);#4=IFCGROUP($,$,$,$,$);",
        elem: 1,
        keys: "1 1:group 2 3 4 4:group 99 99:group",
        cases: &[
            (PartOf(Relation::Group, Any), Holds),
            (PartOf(Relation::Group, Is("IFCGROUP")), Holds),
        ],
    },
];

/// Ancestors of a predefined type.
const KINDS: [Group; 4] = [
    Group {
        model: "#1=IFCOPENINGELEMENT($,$,$,$,$,$,$,$,.OPENING.);#2=IFCRELVOIDSELEMENT($,$,$,$,#3,#1);
            #3=IFCWALL($,$,$,$,$,$,$,$,.NOTDEFINED.);#4=IFCRELDEFINESBYTYPE($,$,$,$,(#3,#1),#5);
            #5=IFCWALLTYPE($,$,$,$,$,$,$,$,$,.PARTITIONING.);",
        elem: 1,
        keys: "1 1:voids 1:fills 2 3 3:type 3:voids 3:fills 4 5",
        cases: &[
            (
                PartOfKind(Relation::VoidsFills, Is("IFCWALL"), Is("PARTITIONING")),
                Holds,
            ),
            (
                PartOfKind(Relation::VoidsFills, Is("IFCWALL"), Is("NOTDEFINED")),
                Nothing,
            ),
            (
                PartOfKind(Relation::VoidsFills, Is("IFCDOOR"), Is("PARTITIONING")),
                Nothing,
            ),
            (
                PartOfKind(Relation::VoidsFills, Any, Is("OPENING")),
                Nothing,
            ),
        ],
    },
    // Name and predefined type have to meet in one ancestor.
    Group {
        model: "#1=IFCDOOR($,$,$,$,$,$,$,$,$);#2=IFCRELNESTS($,$,$,$,#3,(#1));#3=IFCWALL($,$,$,$,$,$,$,$,.A.);
            #4=IFCRELNESTS($,$,$,$,#5,(#3));#5=IFCDOOR($,$,$,$,$,$,$,$,.B.);",
        elem: 1,
        keys: "1 1:nests 2 3 3:type 3:nests 4 5 5:type 5:nests",
        cases: &[
            (PartOfKind(Relation::Nests, Is("IFCWALL"), Is("A")), Holds),
            (PartOfKind(Relation::Nests, Is("IFCDOOR"), Is("B")), Holds),
            (PartOfKind(Relation::Nests, Is("IFCWALL"), Is("B")), Nothing),
            (PartOfKind(Relation::Nests, Is("IFCDOOR"), Is("A")), Nothing),
        ],
    },
    // A missing ancestor may have a type, and yet meets nothing.
    Group {
        model: "#1=IFCDOOR($,$,$,$,$,$,$,$,$);#2=IFCRELNESTS($,$,$,$,#99,(#1));#4=IFCRELDEFINESBYTYPE($,$,$,$,(#99),#5);
            #5=IFCWALLTYPE($,$,$,$,$,$,$,$,$,.PARTITIONING.);",
        elem: 1,
        keys: "1 1:nests 2 4 5 99 99:type 99:nests",
        cases: &[(PartOfKind(Relation::Nests, Any, Like(".*")), Nothing)],
    },
    // In a cycle the element is an ancestor of itself.
    Group {
        model: CYCLE,
        elem: 50,
        keys: "50 50:type 50:group 51 51:type 51:group 52 53",
        cases: &[(PartOfKind(Relation::Group, Any, Like(".*")), Nothing)],
    },
];

#[test]
fn part_of_facets(rt: HostRuntime) -> Result<(), Fail> {
    expect(&rt, rt.alloc(), &RELATIONS)?;
    expect(&rt, rt.alloc(), &ANCESTORS)?;
    expect(&rt, rt.alloc(), &KINDS)
}
