use crate::made::{Parts, built, parts};
use ifc_base::Refusal;
use restrictions::{Restriction, RestrictionFault};
use std::test::Fail;
use xsd_pattern::{PatternCause, PatternFault};

fn pattern(which: u32, at: u32, why: PatternCause) -> RestrictionFault {
    RestrictionFault::Pattern {
        which,
        fault: PatternFault { at, why },
    }
}

const BASES: [&str; 9] = [
    "xs:string",
    "xs:boolean",
    "xs:integer",
    "xs:double",
    "xs:decimal",
    "xs:date",
    "xs:dateTime",
    "xs:time",
    "xs:duration",
];

#[test]
fn all_bases(rt: HostRuntime) -> Result<(), Fail> {
    let alloc = rt.alloc();
    for base in BASES {
        let rows = [("base", base), ("enumeration", "a")];
        built(&rt, alloc, &rows)?;
    }
    Ok(())
}

#[test]
fn all_causes(rt: HostRuntime) -> Result<(), Fail> {
    let alloc = rt.alloc();
    let cases: [(Parts, RestrictionFault); 31] = [
        (&[("base", "xs:int")], RestrictionFault::BadBase),
        (
            &[("base", "string"), ("enumeration", "a")],
            RestrictionFault::BadBase,
        ),
        (&[("base", "xs:string")], RestrictionFault::EmptyRestriction),
        // bounds, each with another base, as no numeral, as Beyond, and two of one side
        (
            &[("base", "xs:string"), ("minInclusive", "1")],
            RestrictionFault::BadBound,
        ),
        (
            &[("base", "xs:date"), ("maxInclusive", "1")],
            RestrictionFault::BadBound,
        ),
        (
            &[("base", "xs:boolean"), ("minExclusive", "1")],
            RestrictionFault::BadBound,
        ),
        (
            &[("base", "xs:duration"), ("maxExclusive", "1")],
            RestrictionFault::BadBound,
        ),
        (
            &[("base", "xs:double"), ("minInclusive", "a")],
            RestrictionFault::BadBound,
        ),
        (
            &[("base", "xs:double"), ("maxInclusive", "")],
            RestrictionFault::BadBound,
        ),
        (
            &[("base", "xs:double"), ("minExclusive", "1E16")],
            RestrictionFault::BadBound,
        ),
        (
            &[("base", "xs:double"), ("maxExclusive", "-1E16")],
            RestrictionFault::BadBound,
        ),
        (
            &[
                ("base", "xs:double"),
                ("minInclusive", "1"),
                ("minExclusive", "1"),
            ],
            RestrictionFault::BadBound,
        ),
        (
            &[
                ("base", "xs:double"),
                ("maxInclusive", "1"),
                ("maxExclusive", "1"),
            ],
            RestrictionFault::BadBound,
        ),
        // lengths: their form, and two of them
        (
            &[("base", "xs:string"), ("length", "")],
            RestrictionFault::BadLength,
        ),
        (
            &[("base", "xs:string"), ("length", "-1")],
            RestrictionFault::BadLength,
        ),
        (
            &[("base", "xs:string"), ("minLength", "+1")],
            RestrictionFault::BadLength,
        ),
        (
            &[("base", "xs:string"), ("maxLength", "1.")],
            RestrictionFault::BadLength,
        ),
        (
            &[("base", "xs:string"), ("maxLength", "0000000001")],
            RestrictionFault::BadLength,
        ),
        (
            &[("base", "xs:string"), ("length", "\u{FF11}")],
            RestrictionFault::BadLength,
        ),
        (
            &[("base", "xs:string"), ("length", "1"), ("minLength", "1")],
            RestrictionFault::BadLength,
        ),
        (
            &[("base", "xs:string"), ("length", "1"), ("maxLength", "1")],
            RestrictionFault::BadLength,
        ),
        (
            &[
                ("base", "xs:string"),
                ("minLength", "3"),
                ("maxLength", "2"),
            ],
            RestrictionFault::BadLength,
        ),
        // patterns, by their number
        (
            &[("base", "xs:string"), ("pattern", "a{1001}")],
            pattern(1, 2, PatternCause::TooManyRepeats),
        ),
        (
            &[
                ("base", "xs:string"),
                ("pattern", "a"),
                ("pattern", "a{2,1}"),
            ],
            pattern(2, 2, PatternCause::Syntax),
        ),
        (
            &[
                ("base", "xs:string"),
                ("pattern", "a("),
                ("pattern", "a{2,1}"),
            ],
            pattern(1, 3, PatternCause::Syntax),
        ),
        // the order of causes
        (
            &[("base", "xs:int"), ("minInclusive", "a")],
            RestrictionFault::BadBase,
        ),
        (
            &[("base", "xs:int"), ("length", "a"), ("pattern", "(")],
            RestrictionFault::BadBase,
        ),
        (
            &[
                ("base", "xs:string"),
                ("minInclusive", "1"),
                ("length", "a"),
            ],
            RestrictionFault::BadBound,
        ),
        (
            &[
                ("base", "xs:double"),
                ("minInclusive", "a"),
                ("pattern", "("),
            ],
            RestrictionFault::BadBound,
        ),
        (
            &[("base", "xs:string"), ("length", "a"), ("pattern", "(")],
            RestrictionFault::BadLength,
        ),
        (
            &[
                ("base", "xs:string"),
                ("enumeration", "a"),
                ("pattern", "("),
            ],
            pattern(1, 2, PatternCause::Syntax),
        ),
    ];
    for (rows, wanted) in cases {
        match Restriction::build(alloc, parts(alloc, rows)?) {
            Err(Refusal::Fault(fault)) => assert_eq!(rt; fault, wanted),
            _ => panic!(rt; "no fault"),
        }
    }
    Ok(())
}
