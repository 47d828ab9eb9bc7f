use crate::fixtures::{id, keys_text, model, schema};
use audit_model::Relation;
use facet_paths::{Path, walk};
use ifc_base::{InstId, Key, Keys, Memory};
use model_view::Snapshot;
use schema_table::SchemaTable;
use std::alloc::Global;
use std::process::Abort;
use std::test::Fail;

/// From which id, along which path, to which ends, and by which keys.
type Row = (u32, Path, &'static str, &'static str);

/// An element and its types.
const KINDS: &str =
    "#1=IFCWALL($,$,$,$,$,$,$,$,$);#2=IFCRELDEFINESBYTYPE($,$,$,$,(#1,#98),(#9,#99,#9));
    #4=IFCRELDEFINESBYTYPE($,$,$,$,(#1),#1);#9=IFCWALLTYPE($,$,$,$,$,$,$,$,$,$);#5=IFCRELDEFINESBYTYPE($,$,$,$,(#9),#1);";

const ALONG_KINDS: [Row; 5] = [
    (1, Path::Own, "1", "1"),
    (99, Path::Own, "99", "99"),
    (1, Path::Kind, "9 99 9 1", "1 1:type 2 4 9 99"),
    (98, Path::Kind, "9 99 9", "2 9 98 98:type 99"),
    (99, Path::Kind, "", "99 99:type"),
];

/// A type with sets of its own and an element of it: `#6` is a set of both, `#7` names itself, `#8` is missing.
const PROPERTIES: &str =
    "#1=IFCWALL($,$,$,$,$,$,$,$,$);#2=IFCRELDEFINESBYPROPERTIES($,$,$,$,(#1),(#7,#6,#97));
    #3=IFCRELDEFINESBYTYPE($,$,$,$,(#1),#4);#4=IFCWALLTYPE($,$,$,$,$,(#5,#6,#8),$,$,$,$);
    #5=IFCELEMENTQUANTITY($,$,$,$,$,(#12,#11));#6=IFCPROPERTYSET($,$,'S',$,(#10,#98));#7=IFCPROPERTYSET($,$,'S',$,(#7,#1));
    #10=IFCCOMPLEXPROPERTY('A',$,$,(#12));#11=IFCQUANTITYLENGTH('L',$,$,1.,$);#12=IFCQUANTITYAREA('A',$,$,1.,$);
    #20=IFCRELDEFINESBYPROPERTIES($,$,$,$,(#4),#10);";

const ALONG_PROPERTIES: [Row; 3] = [
    (
        1,
        Path::Property,
        "1 7 10 11 12 98",
        "1 1:properties 1:type 2 3 4 5 6 7 8 10 11 12 97 98",
    ),
    (
        4,
        Path::Property,
        "10 11 12 98",
        "4 4:properties 4:type 5 6 8 10 11 12 20 98",
    ),
    (96, Path::Property, "", "96 96:properties 96:type"),
];

/// An element and its type with references: those of the element are in a cycle, and one that is missing names none.
const REFERENCES: &str = "#1=IFCWALL($,$,$,$,$,$,$,$,$);#2=IFCRELDEFINESBYTYPE($,$,$,$,(#1),#3);
    #3=IFCWALLTYPE($,$,$,$,$,$,$,$,$,$);#4=IFCRELASSOCIATESCLASSIFICATION($,$,$,$,(#1),#61);
    #5=IFCRELASSOCIATESCLASSIFICATION($,$,$,$,(#3),#99);#6=IFCRELASSOCIATESCLASSIFICATION($,$,$,$,(#1,#3),#62);
    #60=IFCCLASSIFICATIONREFERENCE($,'A',$,#61,$,$);#61=IFCCLASSIFICATIONREFERENCE($,'B',$,#60,$,$);
    #62=IFCCLASSIFICATIONREFERENCE($,'C',$,#63,$,$);#63=IFCCLASSIFICATION($,$,$,'U',$,$,$);";

const ALONG_REFERENCES: [Row; 3] = [
    (
        1,
        Path::Classification,
        "60 61 62 63 99",
        "1 1:type 1:classification 2 3 3:classification 4 5 6 60 61 62 63 99",
    ),
    (
        3,
        Path::Classification,
        "62 63 99",
        "3 3:type 3:classification 5 6 62 63 99",
    ),
    (60, Path::Classification, "", "60 60:type 60:classification"),
];

/// An element and its type with materials: those of the type are in a cycle, and one is missing.
const MATERIALS: &str = "#1=IFCWALL($,$,$,$,$,$,$,$,$);#2=IFCRELDEFINESBYTYPE($,$,$,$,(#1),#3);
    #3=IFCWALLTYPE($,$,$,$,$,$,$,$,$,$);#4=IFCRELASSOCIATESMATERIAL($,$,$,$,(#1),#20);
    #5=IFCRELASSOCIATESMATERIAL($,$,$,$,(#3),#22);#20=IFCMATERIALLIST((#21,#99));#21=IFCMATERIAL('M',$,$);
    #22=IFCMATERIALLAYERSET((#23),$,$);#23=IFCMATERIALLAYER(#22,1.,$,$,$,$,$);";

const ALONG_MATERIALS: [Row; 2] = [
    (
        1,
        Path::Material,
        "20 21 22 23 99",
        "1 1:type 1:material 2 3 3:material 4 5 20 21 22 23 99",
    ),
    (3, Path::Material, "22 23", "3 3:type 3:material 5 22 23"),
];

/// An element in a group, whose groups are in a cycle, and in a missing storey, which is in a building; the building has a type,
/// and the storey too.
const PARTS: &str = "#1=IFCDOOR($,$,$,$,$,$,$,$,$);#2=IFCRELASSIGNSTOGROUP($,$,$,$,(#1),$,#50);
    #50=IFCGROUP($,$,$,$,$);#51=IFCGROUP($,$,$,$,$);#52=IFCRELASSIGNSTOGROUP($,$,$,$,(#50),$,#51);
    #53=IFCRELASSIGNSTOGROUP($,$,$,$,(#51),$,#50);#3=IFCRELCONTAINEDINSPATIALSTRUCTURE($,$,$,$,(#1),#99);
    #4=IFCRELAGGREGATES($,$,$,$,#5,(#99));#5=IFCBUILDING($,$,$,$,$,$,$);#6=IFCRELDEFINESBYTYPE($,$,$,$,(#5,#99,#1),#7);
    #7=IFCWALLTYPE($,$,$,$,$,$,$,$,$,$);#8=IFCRELNESTS($,$,$,$,#1,(#5));#9=IFCRELFILLSELEMENT($,$,$,$,#10,#1);
    #10=IFCOPENINGELEMENT($,$,$,$,$,$,$,$,$);#11=IFCRELVOIDSELEMENT($,$,$,$,#98,#10);";

const ALONG_PARTS: [Row; 10] = [
    (
        1,
        Path::PartOf(Relation::Group),
        "50 51",
        "1 1:group 2 50 50:group 51 51:group 52 53",
    ),
    (
        50,
        Path::PartOf(Relation::Group),
        "50 51",
        "50 50:group 51 51:group 52 53",
    ),
    (
        1,
        Path::PartOf(Relation::Contained),
        "99",
        "1 1:contained 3 99 99:contained",
    ),
    (
        99,
        Path::PartOf(Relation::Aggregates),
        "5",
        "4 5 5:aggregates 99 99:aggregates",
    ),
    (
        5,
        Path::PartOf(Relation::Nests),
        "1",
        "1 1:nests 5 5:nests 8",
    ),
    (
        1,
        Path::PartOf(Relation::VoidsFills),
        "10 98",
        "1 1:voids 1:fills 9 10 10:voids 10:fills 11 98 98:voids 98:fills",
    ),
    (1, Path::PartOf(Relation::Nests), "", "1 1:nests"),
    (
        1,
        Path::PartOf(Relation::Any),
        "1 5 10 50 51 98 99",
        "1 1:aggregates 1:nests 1:contained 1:group 1:voids 1:fills 2 3 4 \
            5 5:aggregates 5:nests 5:contained 5:group 5:voids 5:fills 8 9 \
            10 10:aggregates 10:nests 10:contained 10:group 10:voids 10:fills 11 \
            50 50:aggregates 50:nests 50:contained 50:group 50:voids 50:fills \
            51 51:aggregates 51:nests 51:contained 51:group 51:voids 51:fills 52 53 \
            98 98:aggregates 98:nests 98:contained 98:group 98:voids 98:fills \
            99 99:aggregates 99:nests 99:contained 99:group 99:voids 99:fills",
    ),
    (
        1,
        Path::PartOfKind(Relation::Contained),
        "99",
        "1 1:contained 3 6 7 99 99:type 99:contained",
    ),
    (
        50,
        Path::PartOfKind(Relation::Group),
        "50 51",
        "50 50:type 50:group 51 51:type 51:group 52 53",
    ),
];

/// The ids, each followed by a blank.
fn ids_text(alloc: Global, ids: &[InstId]) -> Result<String, Memory> {
    let mut text = String::new(alloc);
    for id in ids {
        text.push_str(format!(in alloc; "{} ", id.get())?.as_str())?;
    }
    Ok(text)
}

/// The ends of the row's walk, and the keys that it looks at, with one that was there before.
fn walked(
    alloc: Global,
    schema: &SchemaTable,
    look: &Snapshot,
    from: u32,
    path: Path,
) -> Result<String, Fail> {
    let mut reads = Keys::from_vec(vec![in alloc; Key::Inst(id(999)?)]?);
    let ends = walk(alloc, schema, look, id(from)?, path, &mut reads)?;
    let ends = ids_text(alloc, ends.as_slice())?;
    let keys = keys_text(alloc, reads.as_slice())?;
    Ok(format!(in alloc; "{}by {}", ends.as_str(), keys.as_str())?)
}

/// Walks each row; what was in the keys before stays there.
fn expect(
    rt: &impl Abort,
    alloc: Global,
    schema: &SchemaTable,
    look: &Snapshot,
    rows: &[Row],
) -> Result<(), Fail> {
    for (from, path, ends, keys) in rows {
        let found = walked(alloc, schema, look, *from, *path)?;
        let blank = if ends.is_empty() { "" } else { " " };
        let wanted = format!(in alloc; "{ends}{blank}by {keys} 999 ")?;
        assert_eq!(rt; found.as_str(), wanted.as_str(), "from {from}");
    }
    Ok(())
}

#[test]
fn paths(rt: HostRuntime) -> Result<(), Fail> {
    let alloc = rt.alloc();
    let schema = schema(alloc)?;
    for (lines, rows) in [
        (KINDS, ALONG_KINDS.as_slice()),
        (PROPERTIES, ALONG_PROPERTIES.as_slice()),
        (REFERENCES, ALONG_REFERENCES.as_slice()),
        (MATERIALS, ALONG_MATERIALS.as_slice()),
        (PARTS, ALONG_PARTS.as_slice()),
    ] {
        let look = model(alloc, &schema, lines)?;
        expect(&rt, alloc, &schema, &look, rows)?;
    }
    Ok(())
}
