use crate::asking::Ask::Property;
use crate::asking::Cond::{Any, Is, Like};
use crate::asking::Told::{Holds, Nothing, Subject};
use crate::asking::{Group, expect};
use std::test::Fail;

/// An element with a set of one property of each kind.
const KINDS: Group = Group {
    model: "#1=IFCGROUP($,$,$,$,$);#2=IFCRELDEFINESBYPROPERTIES($,$,$,$,(#1),#3);
        #3=IFCPROPERTYSET($,$,'S',$,(#10,#11,#12,#13,#14,#21,#22,#24));
        #10=IFCPROPERTYSINGLEVALUE('Single',$,IFCLABEL('a'),$);
        #11=IFCPROPERTYENUMERATEDVALUE('Enumerated',$,(IFCLABEL('a'),IFCLABEL('b')),$);
        #12=IFCPROPERTYLISTVALUE('List',$,(IFCINTEGER(1),IFCINTEGER(2)),$);
        #13=IFCPROPERTYBOUNDEDVALUE('Bounded',$,IFCREAL(3.),IFCREAL(1.),$,IFCREAL(2.));
        #14=IFCPROPERTYTABLEVALUE('Table',$,(IFCREAL(1.)),(IFCREAL(2.),IFCLABEL('c')));
        #21=IFCPROPERTYREFERENCEVALUE('Reference',$,IFCLABEL('a'),#10);
        #22=IFCCOMPLEXPROPERTY('Complex',$,IFCLABEL('a'),(#23));
        #23=IFCPROPERTYSINGLEVALUE('Inner',$,IFCLABEL('a'),$);#24=IFCMATERIAL('Stuff',$,$);",
    elem: 1,
    keys: "1 1:properties 1:type 2 3 10 11 12 13 14 21 22 24",
    cases: &[
        (Property(Is("S"), Is("Single"), "IFCLABEL", Is("a")), Holds),
        (Property(Is("S"), Is("Single"), "", Any), Holds),
        (Property(Is("S"), Is("Single"), "IFCTEXT", Any), Subject),
        (Property(Is("S"), Is("Single"), "", Is("b")), Subject),
        (Property(Is("T"), Is("Single"), "", Any), Nothing),
        (Property(Is("S"), Is("single"), "", Any), Nothing),
        (
            Property(Is("S"), Is("Enumerated"), "IFCLABEL", Is("a")),
            Holds,
        ),
        (Property(Is("S"), Is("Enumerated"), "", Is("b")), Holds),
        (Property(Is("S"), Is("Enumerated"), "", Is("c")), Subject),
        (Property(Is("S"), Is("List"), "IFCINTEGER", Is("1")), Holds),
        (Property(Is("S"), Is("List"), "", Is("2")), Holds),
        (Property(Is("S"), Is("List"), "", Is("3")), Subject),
        (Property(Is("S"), Is("Bounded"), "IFCREAL", Is("3")), Holds),
        (Property(Is("S"), Is("Bounded"), "", Is("1")), Holds),
        (Property(Is("S"), Is("Bounded"), "", Is("2")), Holds),
        (Property(Is("S"), Is("Bounded"), "", Is("4")), Subject),
        (Property(Is("S"), Is("Table"), "", Is("1")), Holds),
        (Property(Is("S"), Is("Table"), "", Is("2")), Holds),
        (Property(Is("S"), Is("Table"), "", Is("c")), Holds),
        (Property(Is("S"), Is("Table"), "IFCREAL", Any), Subject),
        // The other kinds have no value.
        (Property(Is("S"), Is("Reference"), "", Any), Nothing),
        (Property(Is("S"), Is("Complex"), "", Any), Nothing),
        (Property(Is("S"), Is("Inner"), "", Any), Nothing),
        (Property(Is("S"), Is("Stuff"), "", Any), Nothing),
    ],
};

/// An element with a set of quantities. What a value is typed as doesn't count.
const QUANTITIES: Group = Group {
    model: "#1=IFCGROUP($,$,$,$,$);#2=IFCRELDEFINESBYPROPERTIES($,$,$,$,(#1),#3);
        #3=IFCELEMENTQUANTITY($,$,'Q',$,$,(#10,#11,#12,#13,#14,#15,#16));
        #10=IFCQUANTITYLENGTH('Length',$,$,42.000042,$);#11=IFCQUANTITYAREA('Area',$,$,IFCLENGTHMEASURE(2.),$);
        #12=IFCQUANTITYVOLUME('Volume',$,$,3.,$);#13=IFCQUANTITYCOUNT('Count',$,$,4,$);
        #14=IFCQUANTITYWEIGHT('Weight',$,$,5.,$);#15=IFCQUANTITYTIME('Time',$,$,6.,$);
        #16=IFCQUANTITYLENGTH('None',$,$,$,'42');",
    elem: 1,
    keys: "1 1:properties 1:type 2 3 10 11 12 13 14 15 16",
    cases: &[
        (
            Property(Is("Q"), Is("Length"), "IFCLENGTHMEASURE", Is("42")),
            Holds,
        ),
        (Property(Is("Q"), Is("Length"), "IFCREAL", Any), Subject),
        (
            Property(Is("Q"), Is("Area"), "IFCAREAMEASURE", Is("2")),
            Holds,
        ),
        (
            Property(Is("Q"), Is("Area"), "IFCLENGTHMEASURE", Any),
            Subject,
        ),
        (
            Property(Is("Q"), Is("Volume"), "IFCVOLUMEMEASURE", Is("3")),
            Holds,
        ),
        (
            Property(Is("Q"), Is("Count"), "IFCCOUNTMEASURE", Is("4")),
            Holds,
        ),
        (
            Property(Is("Q"), Is("Weight"), "IFCMASSMEASURE", Is("5")),
            Holds,
        ),
        (
            Property(Is("Q"), Is("Weight"), "IFCWEIGHTMEASURE", Any),
            Subject,
        ),
        (
            Property(Is("Q"), Is("Time"), "IFCTIMEMEASURE", Is("6")),
            Holds,
        ),
        (Property(Is("Q"), Is("None"), "", Any), Nothing),
        (
            Property(Is("Q"), Is("None"), "IFCLENGTHMEASURE", Any),
            Nothing,
        ),
        // Each property of an admitted name has to be good, and one has to have a value.
        (
            Property(Is("Q"), Like("Length|Area"), "", Is("42")),
            Subject,
        ),
        (
            Property(Is("Q"), Like("Length|Area"), "", Like(".*")),
            Subject,
        ),
        (Property(Is("Q"), Like("Length|None"), "", Any), Holds),
        (
            Property(Is("Q"), Like("Length|None"), "", Is("42")),
            Subject,
        ),
        (
            Property(Is("Q"), Like("Length|None"), "IFCLENGTHMEASURE", Any),
            Subject,
        ),
    ],
};

/// Values that aren't set, and lists with some of them.
const UNSET: Group = Group {
    model: "#1=IFCGROUP($,$,$,$,$);#2=IFCRELDEFINESBYPROPERTIES($,$,$,$,(#1),#3);
        #3=IFCPROPERTYSET($,$,'S',$,(#10,#11,#12,#13,#14,#15,#16,#17,#18,#19,#20,#21,#22,#23));
        #10=IFCPROPERTYSINGLEVALUE('A',$,$,$);#11=IFCPROPERTYSINGLEVALUE('B',$,'',$);
        #12=IFCPROPERTYSINGLEVALUE('C',$,IFCLABEL(''),$);#13=IFCPROPERTYSINGLEVALUE('D',$,(),$);
        #14=IFCPROPERTYSINGLEVALUE('E',$,IFCLOGICAL(.U.),$);#15=IFCPROPERTYENUMERATEDVALUE('F',$,IFCLABEL('a'),$);
        #16=IFCPROPERTYENUMERATEDVALUE('G',$,IFCX((IFCLABEL('a'))),$);#17=IFCPROPERTYLISTVALUE('H',$,($,IFCLABEL('')),$);
        #18=IFCPROPERTYBOUNDEDVALUE('I',$,$,$,'m',$);#19=IFCPROPERTYTABLEVALUE('J',$,$,());
        #20=IFCPROPERTYENUMERATEDVALUE('K',$,($,IFCTEXT(''),IFCLABEL('b'),.U.),$);
        #21=IFCPROPERTYENUMERATEDVALUE('L',$,(IFCLABEL('a'),'b'),$);
        #22=IFCPROPERTYENUMERATEDVALUE('M',$,((IFCLABEL('a'))),$);#23=IFCPROPERTYSINGLEVALUE('N',$,IFCA(IFCB(.F.)),$);",
    elem: 1,
    keys: "1 1:properties 1:type 2 3 10 11 12 13 14 15 16 17 18 19 20 21 22 23",
    cases: &[
        (Property(Is("S"), Is("A"), "", Any), Nothing),
        (Property(Is("S"), Is("B"), "", Any), Nothing),
        (Property(Is("S"), Is("C"), "", Any), Nothing),
        (Property(Is("S"), Is("D"), "", Any), Nothing),
        (Property(Is("S"), Is("E"), "", Is("unknown")), Nothing),
        // What is no list has no members, and a list within a typed parameter isn't opened.
        (Property(Is("S"), Is("F"), "", Any), Nothing),
        (Property(Is("S"), Is("G"), "", Any), Nothing),
        (Property(Is("S"), Is("H"), "", Any), Nothing),
        (Property(Is("S"), Is("I"), "", Any), Nothing),
        (Property(Is("S"), Is("J"), "", Any), Nothing),
        // Those that aren't set have no data type to be of.
        (Property(Is("S"), Is("K"), "IFCLABEL", Is("b")), Holds),
        (Property(Is("S"), Is("K"), "", Is("")), Subject),
        // A value without a keyword has no data type, nor has a list, which no condition admits.
        (Property(Is("S"), Is("L"), "IFCLABEL", Any), Subject),
        (Property(Is("S"), Is("L"), "", Is("b")), Holds),
        (Property(Is("S"), Is("M"), "", Any), Holds),
        (Property(Is("S"), Is("M"), "IFCLABEL", Any), Subject),
        (Property(Is("S"), Is("M"), "", Is("a")), Subject),
        // The outermost keyword is the data type.
        (Property(Is("S"), Is("N"), "IFCA", Is("false")), Holds),
        (Property(Is("S"), Is("N"), "IFCB", Any), Subject),
        (Property(Is("S"), Like("[A-J]"), "", Any), Nothing),
        (Property(Is("S"), Like("[AN]"), "", Any), Holds),
        (Property(Is("S"), Like("[AN]"), "IFCA", Any), Subject),
        (Property(Is("S"), Like("[AN]"), "", Is("false")), Subject),
    ],
};

/// Which sets an element has by itself.
const SETS: [Group; 8] = [
    // Sets and properties without a name count for nothing.
    Group {
        model: "#1=IFCGROUP($,$,$,$,$);#2=IFCRELDEFINESBYPROPERTIES($,$,$,$,(#1),(#3,#4,#5));
            #3=IFCPROPERTYSET($,$,$,$,(#10));#4=IFCPROPERTYSET($,$,'',$,(#10));#5=IFCPROPERTYSET($,$,'S',$,(#11,#12));
            #10=IFCPROPERTYSINGLEVALUE('A',$,'a',$);#11=IFCPROPERTYSINGLEVALUE($,$,'a',$);
            #12=IFCPROPERTYSINGLEVALUE('',$,'a',$);",
        elem: 1,
        keys: "1 1:properties 1:type 2 3 4 5 10 11 12",
        cases: &[
            (Property(Any, Any, "", Any), Nothing),
            (Property(Is(""), Any, "", Any), Nothing),
            (Property(Is("S"), Is(""), "", Any), Nothing),
        ],
    },
    // Two sets of one name are looked at as one.
    Group {
        model: "#1=IFCGROUP($,$,$,$,$);#2=IFCRELDEFINESBYPROPERTIES($,$,$,$,(#1),#3);
            #5=IFCRELDEFINESBYPROPERTIES($,$,$,$,(#1),#4);#3=IFCPROPERTYSET($,$,'S',$,(#10,#12));
            #4=IFCPROPERTYSET($,$,IFCLABEL('S'),$,(#11,#13));#10=IFCPROPERTYSINGLEVALUE('A',$,'a',$);
            #11=IFCPROPERTYSINGLEVALUE('B',$,'b',$);#12=IFCPROPERTYSINGLEVALUE('C',$,'c',$);
            #13=IFCPROPERTYSINGLEVALUE('C',$,'d',$);",
        elem: 1,
        keys: "1 1:properties 1:type 2 3 4 5 10 11 12 13",
        cases: &[
            (Property(Is("S"), Is("A"), "", Is("a")), Holds),
            (Property(Is("S"), Is("B"), "", Is("b")), Holds),
            (Property(Is("S"), Is("C"), "", Any), Holds),
            (Property(Is("S"), Is("C"), "", Is("c")), Subject),
            (Property(Is("S"), Is("C"), "", Is("d")), Subject),
            (Property(Is("S"), Is("C"), "", Like("c|d")), Holds),
        ],
    },
    // A set may be reached twice.
    Group {
        model: "#1=IFCGROUP($,$,$,$,$);#2=IFCRELDEFINESBYPROPERTIES($,$,$,$,(#1,#1),(#3,#3));
            #4=IFCRELDEFINESBYPROPERTIES($,$,$,$,(#1),#3);#3=IFCPROPERTYSET($,$,'S',$,(#10,#10));
            #10=IFCPROPERTYSINGLEVALUE('A',$,'a',$);",
        elem: 1,
        keys: "1 1:properties 1:type 2 3 4 10",
        cases: &[
            (Property(Is("S"), Is("A"), "", Is("a")), Holds),
            (Property(Is("S"), Is("A"), "", Is("b")), Subject),
        ],
    },
    // Under each admitted set name that reaches the element some property has to have a value.
    Group {
        model: "#1=IFCGROUP($,$,$,$,$);#2=IFCRELDEFINESBYPROPERTIES($,$,$,$,(#1),(#3,#4,#5,#6));
            #3=IFCPROPERTYSET($,$,'S1',$,(#10));#4=IFCPROPERTYSET($,$,'S2',$,(#11));#5=IFCPROPERTYSET($,$,'T1',$,());
            #6=IFCPROPERTYSET($,$,'U1',$,(#12));#10=IFCPROPERTYSINGLEVALUE('A',$,'a',$);
            #11=IFCPROPERTYSINGLEVALUE('A',$,'b',$);#12=IFCPROPERTYSINGLEVALUE('A',$,$,$);",
        elem: 1,
        keys: "1 1:properties 1:type 2 3 4 5 6 10 11 12",
        cases: &[
            (Property(Like("S."), Is("A"), "", Any), Holds),
            (Property(Like("S."), Is("A"), "", Is("a")), Subject),
            (Property(Like("S."), Is("A"), "", Like("[ab]")), Holds),
            (Property(Like("[ST]1"), Is("A"), "", Is("a")), Subject),
            (Property(Like("[SU]1"), Is("A"), "", Is("a")), Subject),
            (Property(Is("T1"), Any, "", Any), Nothing),
            (Property(Is("U1"), Any, "", Any), Nothing),
            (Property(Any, Is("A"), "", Any), Subject),
        ],
    },
    // Sets and properties that are missing.
    Group {
        model: "#1=IFCGROUP($,$,$,$,$);#2=IFCRELDEFINESBYPROPERTIES($,$,$,$,(#1),#99);
            #4=IFCRELDEFINESBYPROPERTIES($,$,$,$,(#1),#3);#3=IFCPROPERTYSET($,$,'S',$,(#98,#10));
            #10=IFCPROPERTYSINGLEVALUE('A',$,'a',$);",
        elem: 1,
        keys: "1 1:properties 1:type 2 3 4 10 98 99",
        cases: &[
            (Property(Is("S"), Is("A"), "", Is("a")), Holds),
            (Property(Is("S"), Is("B"), "", Any), Nothing),
            (Property(Any, Any, "", Is("a")), Holds),
        ],
    },
    // No set at all, and an element that is missing.
    Group {
        model: "#1=IFCGROUP($,$,$,$,$);#3=IFCPROPERTYSET($,$,'S',$,(#10));#10=IFCPROPERTYSINGLEVALUE('A',$,'a',$);",
        elem: 1,
        keys: "1 1:properties 1:type",
        cases: &[(Property(Any, Any, "", Any), Nothing)],
    },
    Group {
        model: "#2=IFCRELDEFINESBYPROPERTIES($,$,$,$,(#99),#3);#3=IFCPROPERTYSET($,$,'S',$,(#10));
            #10=IFCPROPERTYSINGLEVALUE('A',$,'a',$);",
        elem: 99,
        keys: "2 3 10 99 99:properties 99:type",
        cases: &[(Property(Is("S"), Is("A"), "", Is("a")), Holds)],
    },
    // A type object names its own, and they count beside those that relationships give it.
    Group {
        model: "#1=IFCWALLTYPE($,$,$,$,$,(#4),$,$,$,$);#2=IFCRELDEFINESBYPROPERTIES($,$,$,$,(#1),#3);
            #3=IFCPROPERTYSET($,$,'S',$,(#10));#4=IFCPROPERTYSET($,$,'T',$,(#11));
            #10=IFCPROPERTYSINGLEVALUE('A',$,'a',$);#11=IFCPROPERTYSINGLEVALUE('A',$,'b',$);",
        elem: 1,
        keys: "1 1:properties 1:type 2 3 4 10 11",
        cases: &[
            (Property(Is("S"), Is("A"), "", Is("a")), Holds),
            (Property(Is("T"), Is("A"), "", Is("b")), Holds),
        ],
    },
];

/// An element with own sets and a type with others: `S` has an own `A` and `B` without a value, and the type's `A`, `B` and
/// `C`; `T` has an own `D`, and the type's `A`; `U` is the type's alone.
const INHERITED: Group = Group {
    model: "#1=IFCGROUP($,$,$,$,$);#2=IFCRELDEFINESBYPROPERTIES($,$,$,$,(#1),(#5,#6));
        #3=IFCRELDEFINESBYTYPE($,$,$,$,(#1),#4);#4=IFCWALLTYPE($,$,$,$,$,(#7,#8,#9,#99),$,$,$,$);
        #5=IFCPROPERTYSET($,$,'S',$,(#10,#11));#6=IFCPROPERTYSET($,$,'T',$,(#12));
        #7=IFCPROPERTYSET($,$,'S',$,(#13,#14,#15));#8=IFCPROPERTYSET($,$,'T',$,(#16));#9=IFCPROPERTYSET($,$,'U',$,(#16));
        #10=IFCPROPERTYSINGLEVALUE('A',$,'own',$);#11=IFCPROPERTYSINGLEVALUE('B',$,$,$);
        #12=IFCPROPERTYSINGLEVALUE('D',$,'own',$);#13=IFCPROPERTYSINGLEVALUE('A',$,'type',$);
        #14=IFCPROPERTYSINGLEVALUE('B',$,'type',$);#15=IFCPROPERTYSINGLEVALUE('C',$,'type',$);
        #16=IFCPROPERTYSINGLEVALUE('A',$,'type',$);
        #20=IFCRELDEFINESBYPROPERTIES($,$,$,$,(#4),#21);#21=IFCPROPERTYSET($,$,'V',$,(#16));",
    elem: 1,
    keys: "1 1:properties 1:type 2 3 4 5 6 7 8 9 10 11 12 13 14 15 16 99",
    cases: &[
        // An own property hides that of the type, also without a value.
        (Property(Is("S"), Is("A"), "", Is("own")), Holds),
        (Property(Is("S"), Is("A"), "", Is("type")), Subject),
        (Property(Is("S"), Is("B"), "", Any), Nothing),
        (Property(Is("S"), Like("[BC]"), "", Any), Holds),
        (Property(Is("S"), Like("[BC]"), "", Is("type")), Subject),
        (Property(Is("S"), Is("C"), "", Is("type")), Holds),
        // It hides none of another name, nor of another set.
        (Property(Is("T"), Is("A"), "", Is("type")), Holds),
        (Property(Is("T"), Is("D"), "", Is("own")), Holds),
        (Property(Is("U"), Is("A"), "", Is("type")), Holds),
        (Property(Like("[STU]"), Is("A"), "", Is("type")), Subject),
        (Property(Like("[TU]"), Is("A"), "", Is("type")), Holds),
        // Of a type the sets that it names count alone.
        (Property(Is("V"), Any, "", Any), Nothing),
    ],
};

#[test]
fn values_of_properties(rt: HostRuntime) -> Result<(), Fail> {
    expect(&rt, rt.alloc(), &[KINDS, QUANTITIES, UNSET])
}

#[test]
fn sets_of_properties(rt: HostRuntime) -> Result<(), Fail> {
    expect(&rt, rt.alloc(), &SETS)?;
    expect(&rt, rt.alloc(), &[INHERITED])
}
