use crate::asking::Ask::{Classification, Material};
use crate::asking::Cond::{Any, Is, Like};
use crate::asking::Told::{Holds, Nothing, Subject};
use crate::asking::{Group, expect};
use std::test::Fail;

/// References of the element itself.
const REFERENCES: [Group; 6] = [
    Group {
        model: "#1=IFCGROUP($,$,$,$,$);",
        elem: 1,
        keys: "1 1:type 1:classification",
        cases: &[
            (Classification(Any, Any), Nothing),
            (Classification(Is("Uni"), Any), Nothing),
        ],
    },
    // The system, and each identification on the way to it.
    Group {
        model: "#1=IFCGROUP($,$,$,$,$);#2=IFCRELASSOCIATESCLASSIFICATION($,$,$,$,(#1),#3);
            #3=IFCCLASSIFICATIONREFERENCE($,'EF_25_10','Doors',#4,$,$);#4=BRANCH($,IFCIDENTIFIER('EF_25'),$,#5,$,$);
            #5=IFCCLASSIFICATION($,$,$,'Uni','Other',$,$);",
        elem: 1,
        keys: "1 1:type 1:classification 2 3 4 5",
        cases: &[
            (Classification(Any, Any), Holds),
            (Classification(Is("Uni"), Any), Holds),
            (Classification(Like("U.*"), Is("EF_25")), Holds),
            (Classification(Any, Is("EF_25_10")), Holds),
            (Classification(Any, Like("EF_[0-9]{2}")), Holds),
            (Classification(Is("Uni"), Is("EF")), Subject),
            (Classification(Any, Is("Doors")), Subject),
            (Classification(Is("Other"), Any), Nothing),
            (Classification(Is("Doors"), Is("EF_25")), Nothing),
        ],
    },
    // A system without references, and one without a name.
    Group {
        model: "#1=IFCGROUP($,$,$,$,$);#2=IFCRELASSOCIATESCLASSIFICATION($,$,$,$,(#1),#3);
            #3=SYSTEM($,$,$,'Uni',$,$,$);",
        elem: 1,
        keys: "1 1:type 1:classification 2 3",
        cases: &[
            (Classification(Any, Any), Holds),
            (Classification(Is("Uni"), Any), Holds),
            (Classification(Is("Uni"), Like(".*")), Subject),
        ],
    },
    Group {
        model: "#1=IFCGROUP($,$,$,$,$);#2=IFCRELASSOCIATESCLASSIFICATION($,$,$,$,(#1),#3);
            #3=IFCCLASSIFICATION($,$,$,'',$,$,$);",
        elem: 1,
        keys: "1 1:type 1:classification 2 3",
        cases: &[
            (Classification(Any, Any), Holds),
            (Classification(Is(""), Any), Nothing),
        ],
    },
    // What is neither has no system and no identification of its own, and leads on by its attributes.
    Group {
        model: "#1=IFCGROUP($,$,$,$,$);#2=IFCRELASSOCIATESCLASSIFICATION($,$,$,$,(#1),#3);
            #3=IFCDOCUMENTREFERENCE($,'D','Doc',$,(#4,#5));#4=IFCCLASSIFICATIONREFERENCE($,'EF',$,$,$,$);
            #5=IFCCLASSIFICATION($,$,$,'Uni',$,$,$);",
        elem: 1,
        keys: "1 1:type 1:classification 2 3 4 5",
        cases: &[
            (Classification(Is("Doc"), Any), Nothing),
            (Classification(Is("Uni"), Is("D")), Subject),
            (Classification(Is("Uni"), Is("EF")), Holds),
        ],
    },
    // System and identification have to meet in one reference, whichever it is.
    Group {
        model: "#1=IFCGROUP($,$,$,$,$);#2=IFCRELASSOCIATESCLASSIFICATION($,$,$,$,(#1),#3);
            #4=IFCRELASSOCIATESCLASSIFICATION($,$,$,$,(#1),#5);#3=IFCCLASSIFICATIONREFERENCE($,'a',$,#6,$,$);
            #5=IFCCLASSIFICATIONREFERENCE($,'b',$,#7,$,$);#6=IFCCLASSIFICATION($,$,$,'A',$,$,$);
            #7=IFCCLASSIFICATION($,$,$,'B',$,$,$);",
        elem: 1,
        keys: "1 1:type 1:classification 2 3 4 5 6 7",
        cases: &[
            (Classification(Is("A"), Is("a")), Holds),
            (Classification(Is("B"), Is("b")), Holds),
            (Classification(Is("B"), Any), Holds),
            (Classification(Is("A"), Is("b")), Subject),
            (Classification(Is("B"), Is("a")), Subject),
            (Classification(Any, Is("b")), Holds),
            (Classification(Is("C"), Is("a")), Nothing),
        ],
    },
];

/// References of types.
const REFERENCES_OF_TYPES: [Group; 3] = [
    Group {
        model: "#1=IFCGROUP($,$,$,$,$);#2=IFCRELDEFINESBYTYPE($,$,$,$,(#1),(#5,#3));
            #3=IFCWALLTYPE($,$,$,$,$,$,$,$,$,$);#5=IFCWALLTYPE($,$,$,$,$,$,$,$,$,$);
            #6=IFCRELASSOCIATESCLASSIFICATION($,$,$,$,(#3),#7);#7=IFCCLASSIFICATIONREFERENCE($,'a',$,#8,$,$);
            #8=IFCCLASSIFICATION($,$,$,'A',$,$,$);",
        elem: 1,
        keys: "1 1:type 1:classification 2 3 3:classification 5 5:classification 6 7 8",
        cases: &[
            (Classification(Is("A"), Is("a")), Holds),
            (Classification(Is("A"), Is("b")), Subject),
            (Classification(Is("B"), Any), Nothing),
        ],
    },
    // They don't count where the element has one of its own, whatever that is.
    Group {
        model: "#1=IFCGROUP($,$,$,$,$);#2=IFCRELDEFINESBYTYPE($,$,$,$,(#1),#3);#3=IFCWALLTYPE($,$,$,$,$,$,$,$,$,$);
            #4=IFCRELASSOCIATESCLASSIFICATION($,$,$,$,(#1),#5);#5=IFCCLASSIFICATIONREFERENCE($,'a',$,$,$,$);
            #6=IFCRELASSOCIATESCLASSIFICATION($,$,$,$,(#3),#7);#7=IFCCLASSIFICATIONREFERENCE($,'b',$,#8,$,$);
            #8=IFCCLASSIFICATION($,$,$,'B',$,$,$);",
        elem: 1,
        keys: "1 1:type 1:classification 2 3 3:classification 4 5 6 7 8",
        cases: &[
            (Classification(Any, Is("a")), Holds),
            (Classification(Any, Is("b")), Subject),
            (Classification(Is("B"), Any), Nothing),
        ],
    },
    Group {
        model: "#1=IFCGROUP($,$,$,$,$);#2=IFCRELDEFINESBYTYPE($,$,$,$,(#1),#98);
            #4=IFCRELASSOCIATESCLASSIFICATION($,$,$,$,(#1),#99);#6=IFCRELASSOCIATESCLASSIFICATION($,$,$,$,(#98),#7);
            #7=IFCCLASSIFICATION($,$,$,'B',$,$,$);",
        elem: 1,
        keys: "1 1:type 1:classification 2 4 6 7 98 98:classification 99",
        cases: &[
            (Classification(Any, Any), Holds),
            (Classification(Is("B"), Any), Nothing),
        ],
    },
];

/// Materials of the element itself.
const MATERIALS: [Group; 8] = [
    Group {
        model: "#1=IFCGROUP($,$,$,$,$);#2=IFCMATERIAL('Concrete',$,$);",
        elem: 1,
        keys: "1 1:type 1:material",
        cases: &[
            (Material(Any), Nothing),
            (Material(Is("Concrete")), Nothing),
        ],
    },
    Group {
        model: "#1=IFCGROUP($,$,$,$,$);#2=IFCRELASSOCIATESMATERIAL($,$,$,$,(#1),#3);
            #3=IFCMATERIALLAYERSETUSAGE(#4,.AXIS2.,.POSITIVE.,-0.1,$);#4=IFCMATERIALLAYERSET((#5,#6),'Solid 200','Text');
            #5=IFCMATERIALLAYER(#7,0.2,$,'Core',$,'LoadBearing',$);#6=IFCMATERIALLAYER($,0.1,$,IFCLABEL('Finish'),$,'',$);
            #7=IFCMATERIAL('Concrete','Text','concrete');",
        elem: 1,
        keys: "1 1:type 1:material 2 3 4 5 6 7",
        cases: &[
            (Material(Any), Holds),
            (Material(Is("Concrete")), Holds),
            (Material(Is("concrete")), Holds),
            (Material(Is("Solid 200")), Holds),
            (Material(Is("Core")), Holds),
            (Material(Is("LoadBearing")), Holds),
            (Material(Is("Finish")), Holds),
            (Material(Like("Load.*")), Holds),
            (Material(Is("Text")), Subject),
            (Material(Is("")), Subject),
            (Material(Is("Wood")), Subject),
        ],
    },
    Group {
        model: "#1=IFCGROUP($,$,$,$,$);#2=IFCRELASSOCIATESMATERIAL($,$,$,$,(#1),#3);
            #3=IFCMATERIALPROFILESETUSAGE(#4,$,$);#4=IFCMATERIALPROFILESET('Set',$,(#5),#8);
            #5=IFCMATERIALPROFILE('Beam',$,#7,#8,$,'Kind');#7=IFCMATERIAL('Steel',$,$);#8=IFCMATERIAL('Profile',$,$);",
        elem: 1,
        keys: "1 1:type 1:material 2 3 4 5 7",
        cases: &[
            (Material(Is("Set")), Holds),
            (Material(Is("Beam")), Holds),
            (Material(Is("Kind")), Holds),
            (Material(Is("Steel")), Holds),
            (Material(Is("Profile")), Subject),
        ],
    },
    Group {
        model: "#1=IFCGROUP($,$,$,$,$);#2=IFCRELASSOCIATESMATERIAL($,$,$,$,(#1),#3);
            #3=IFCMATERIALCONSTITUENTSET('Set',$,(#4,#5));#4=IFCMATERIALCONSTITUENT('Frame',$,#6,0.5,'Kind');
            #5=IFCMATERIALCONSTITUENT('Glazing',$,#7,0.5,$);#6=IFCMATERIAL('Wood',$,$);#7=IFCMATERIAL('Glass',$,$);",
        elem: 1,
        keys: "1 1:type 1:material 2 3 4 5 6 7",
        cases: &[
            (Material(Is("Set")), Holds),
            (Material(Is("Frame")), Holds),
            (Material(Is("Kind")), Holds),
            (Material(Is("Wood")), Holds),
            (Material(Is("Glass")), Holds),
        ],
    },
    Group {
        model: "#1=IFCGROUP($,$,$,$,$);#2=IFCRELASSOCIATESMATERIAL($,$,$,$,(#1),#3);#3=IFCMATERIALLIST((#4,#5));
            #4=IFCMATERIAL('Wood',$,$);#5=IFCMATERIAL('Glass',$,$);",
        elem: 1,
        keys: "1 1:type 1:material 2 3 4 5",
        cases: &[
            (Material(Is("Wood")), Holds),
            (Material(Is("Glass")), Holds),
            (Material(Is("Steel")), Subject),
        ],
    },
    // Two relationships.
    Group {
        model: "#1=IFCGROUP($,$,$,$,$);#2=IFCRELASSOCIATESMATERIAL($,$,$,$,(#1),#4);
            #3=IFCRELASSOCIATESMATERIAL($,$,$,$,(#1),#5);#4=IFCMATERIAL('Wood',$,$);#5=IFCMATERIAL('Glass',$,$);",
        elem: 1,
        keys: "1 1:type 1:material 2 3 4 5",
        cases: &[
            (Material(Is("Wood")), Holds),
            (Material(Is("Glass")), Holds),
        ],
    },
    // A missing material is one, and one that is missing further on.
    Group {
        model: "#1=IFCGROUP($,$,$,$,$);#2=IFCRELASSOCIATESMATERIAL($,$,$,$,(#1),#99);",
        elem: 1,
        keys: "1 1:type 1:material 2 99",
        cases: &[(Material(Any), Holds), (Material(Like(".*")), Subject)],
    },
    // A layer of its own layer set.
    Group {
        model: "#1=IFCGROUP($,$,$,$,$);#2=IFCRELASSOCIATESMATERIAL($,$,$,$,(#1),#4);
            #3=IFCMATERIALLAYERSET((#4,#99),'Set',$);#4=IFCMATERIALLAYER(#3,0.2,$,$,$,$,$);",
        elem: 1,
        keys: "1 1:type 1:material 2 3 4 99",
        cases: &[
            (Material(Is("Set")), Holds),
            (Material(Is("Wood")), Subject),
        ],
    },
];

/// Materials of types.
const MATERIALS_OF_TYPES: [Group; 3] = [
    Group {
        model: "#1=IFCGROUP($,$,$,$,$);#2=IFCRELDEFINESBYTYPE($,$,$,$,(#1),#3);#3=IFCWALLTYPE($,$,$,$,$,$,$,$,$,$);
            #4=IFCRELASSOCIATESMATERIAL($,$,$,$,(#3),#5);#5=IFCMATERIALLIST((#6));#6=IFCMATERIAL('Wood',$,$);",
        elem: 1,
        keys: "1 1:type 1:material 2 3 3:material 4 5 6",
        cases: &[
            (Material(Any), Holds),
            (Material(Is("Wood")), Holds),
            (Material(Is("Glass")), Subject),
        ],
    },
    // They don't count where the element has one of its own, even one that is missing.
    Group {
        model: "#1=IFCGROUP($,$,$,$,$);#2=IFCRELDEFINESBYTYPE($,$,$,$,(#1),#3);#3=IFCWALLTYPE($,$,$,$,$,$,$,$,$,$);
            #4=IFCRELASSOCIATESMATERIAL($,$,$,$,(#3),#5);#5=IFCMATERIAL('Wood',$,$);
            #6=IFCRELASSOCIATESMATERIAL($,$,$,$,(#1),#7);#7=IFCMATERIAL('Glass',$,$);",
        elem: 1,
        keys: "1 1:type 1:material 2 3 3:material 4 5 6 7",
        cases: &[
            (Material(Is("Glass")), Holds),
            (Material(Is("Wood")), Subject),
        ],
    },
    Group {
        model: "#1=IFCGROUP($,$,$,$,$);#2=IFCRELDEFINESBYTYPE($,$,$,$,(#1),#3);#3=IFCWALLTYPE($,$,$,$,$,$,$,$,$,$);
            #4=IFCRELASSOCIATESMATERIAL($,$,$,$,(#3),#5);#5=IFCMATERIAL('Wood',$,$);
            #6=IFCRELASSOCIATESMATERIAL($,$,$,$,(#1),#99);",
        elem: 1,
        keys: "1 1:type 1:material 2 3 3:material 4 5 6 99",
        cases: &[(Material(Any), Holds), (Material(Is("Wood")), Subject)],
    },
];

#[test]
fn classification_facets(rt: HostRuntime) -> Result<(), Fail> {
    expect(&rt, rt.alloc(), &REFERENCES)?;
    expect(&rt, rt.alloc(), &REFERENCES_OF_TYPES)
}

#[test]
fn material_facets(rt: HostRuntime) -> Result<(), Fail> {
    expect(&rt, rt.alloc(), &MATERIALS)?;
    expect(&rt, rt.alloc(), &MATERIALS_OF_TYPES)
}
