use crate::made::Sample::{
    Absent, Binary, Derived, Enumer, Int, Label, List, Measure, Real, Ref, Text, Truth,
};
use crate::made::{Parts, Sample, built, sees};
use ifc_base::Name;
use restrictions::Restriction;
use std::alloc::Global;
use std::process::Abort;
use std::test::Fail;

#[test]
fn simple_texts(rt: HostRuntime) -> Result<(), Fail> {
    let alloc = rt.alloc();
    for (text, value, wanted) in [
        // the tolerance of equality
        ("42", Real("42.000042"), true),
        ("42", Real("42.000044"), false),
        ("0", Real("0.000001"), true),
        ("0", Real("0.0000011"), false),
        // an integer is compared exactly, and with numerals of any form
        ("42", Int(42), true),
        ("42.0", Int(42), true),
        ("4.2E1", Int(42), true),
        ("42.000001", Int(42), false),
        ("42.000001", Real("42."), true),
        ("W42", Int(42), false),
        // texts by their characters
        ("42", Text("42"), true),
        ("42.0", Text("42"), false),
        ("W01", Text("W01"), true),
        ("W01", Text("w01"), false),
        ("", Text(""), true),
        ("é", Text("é"), true),
        // truth values and other enumerations
        ("true", Enumer("T"), true),
        ("T", Enumer("T"), false),
        ("false", Enumer("F"), true),
        ("unknown", Enumer("U"), true),
        ("true", Enumer("F"), false),
        ("NOTDEFINED", Enumer("NOTDEFINED"), true),
        ("T", Text("T"), true),
        // typed wrappers are taken off
        ("REI30", Label("REI30"), true),
        ("IFCLABEL", Label("REI30"), false),
        ("true", Truth("T"), true),
        ("2.5", Measure("2.5"), true),
        // Beyond, on both sides
        ("1E16", Real("1.E16"), false),
        ("1E16", Int(10000000000000000), false),
        ("1", Real("1.E16"), false),
        ("1E16", Text("1E16"), true),
        ("9999999999999999", Int(9999999999999999), true),
        // the other kinds
        ("", Absent, false),
        ("$", Absent, false),
        ("*", Derived, false),
        ("0F", Binary("0F"), false),
        ("1", Ref, false),
        ("1", List, false),
    ] {
        let condition = Restriction::simple(Name::from_str(alloc, text)?);
        sees(&rt, alloc, &condition, value, wanted)?;
    }
    Ok(())
}

const BOUNDS: [(Parts, Sample, bool); 20] = [
    (
        &[("base", "xs:double"), ("maxInclusive", "42")],
        Real("42.000042"),
        false,
    ),
    (
        &[("base", "xs:double"), ("maxInclusive", "42")],
        Real("42."),
        true,
    ),
    (
        &[("base", "xs:integer"), ("maxInclusive", "42")],
        Int(42),
        true,
    ),
    (
        &[("base", "xs:integer"), ("maxInclusive", "42")],
        Int(43),
        false,
    ),
    (
        &[("base", "xs:decimal"), ("maxExclusive", "42")],
        Int(42),
        false,
    ),
    (
        &[("base", "xs:decimal"), ("maxExclusive", "42")],
        Real("41.999999999999999"),
        true,
    ),
    (
        &[("base", "xs:double"), ("minInclusive", "42")],
        Real("41.999999"),
        false,
    ),
    (
        &[("base", "xs:double"), ("minInclusive", "42")],
        Int(42),
        true,
    ),
    (
        &[("base", "xs:double"), ("minExclusive", "42")],
        Real("42."),
        false,
    ),
    (
        &[("base", "xs:double"), ("minExclusive", "42")],
        Real("42.000000000000001"),
        true,
    ),
    (
        &[
            ("base", "xs:double"),
            ("minExclusive", "1"),
            ("maxInclusive", "2"),
        ],
        Int(2),
        true,
    ),
    (
        &[
            ("base", "xs:double"),
            ("minExclusive", "1"),
            ("maxInclusive", "2"),
        ],
        Int(1),
        false,
    ),
    (
        &[
            ("base", "xs:double"),
            ("minInclusive", "2"),
            ("maxInclusive", "1"),
        ],
        Int(2),
        false,
    ),
    // Beyond lies past every bound, on the side of its sign
    (
        &[("base", "xs:double"), ("minInclusive", "5")],
        Real("1.E16"),
        true,
    ),
    (
        &[("base", "xs:double"), ("maxInclusive", "5")],
        Real("1.E16"),
        false,
    ),
    (
        &[("base", "xs:double"), ("minInclusive", "5")],
        Real("-1.E16"),
        false,
    ),
    (
        &[("base", "xs:double"), ("maxInclusive", "9999999999999999")],
        Real("-1.E16"),
        true,
    ),
    (
        &[("base", "xs:integer"), ("minExclusive", "9999999999999999")],
        Int(10000000000000000),
        true,
    ),
    // bounds admit numbers alone
    (
        &[("base", "xs:double"), ("minInclusive", "1")],
        Text("5"),
        false,
    ),
    (
        &[("base", "xs:double"), ("minInclusive", "1")],
        Absent,
        false,
    ),
];

const TEXTS: [(Parts, Sample, bool); 36] = [
    (
        &[("base", "xs:string"), ("pattern", "W[0-9]{2}")],
        Text("W01"),
        true,
    ),
    (
        &[("base", "xs:string"), ("pattern", "W[0-9]{2}")],
        Text("W011"),
        false,
    ),
    (
        &[("base", "xs:string"), ("pattern", "W[0-9]{2}")],
        Text("xW01"),
        false,
    ),
    (
        &[("base", "xs:string"), ("pattern", "\\w")],
        Text("a"),
        true,
    ),
    (
        &[("base", "xs:string"), ("pattern", "\\w")],
        Text("+"),
        true,
    ),
    (
        &[("base", "xs:string"), ("pattern", "\\w")],
        Text("_"),
        false,
    ),
    (&[("base", "xs:string"), ("pattern", "")], Text(""), true),
    (&[("base", "xs:string"), ("pattern", "")], Text("a"), false),
    // one of two patterns is enough
    (
        &[("base", "xs:string"), ("pattern", "a+"), ("pattern", "b+")],
        Text("bb"),
        true,
    ),
    (
        &[("base", "xs:string"), ("pattern", "a+"), ("pattern", "b+")],
        Text("ab"),
        false,
    ),
    // patterns and lengths look at enumerations, and at no number
    (
        &[("base", "xs:string"), ("pattern", "[A-Z]+")],
        Enumer("ABC"),
        true,
    ),
    (
        &[("base", "xs:boolean"), ("length", "4")],
        Enumer("T"),
        true,
    ),
    (
        &[("base", "xs:integer"), ("pattern", "[0-9]+")],
        Int(42),
        false,
    ),
    (&[("base", "xs:integer"), ("length", "2")], Int(42), false),
    // a length counts characters, those past the basic plane too
    (
        &[("base", "xs:string"), ("length", "2")],
        Text("a\u{1F600}"),
        true,
    ),
    (
        &[("base", "xs:string"), ("length", "5")],
        Text("a\u{1F600}"),
        false,
    ),
    (
        &[("base", "xs:string"), ("minLength", "3")],
        Text("ab"),
        false,
    ),
    (
        &[
            ("base", "xs:string"),
            ("minLength", "2"),
            ("maxLength", "2"),
        ],
        Text("ab"),
        true,
    ),
    (
        &[("base", "xs:string"), ("maxLength", "1")],
        Text("ab"),
        false,
    ),
    (
        &[("base", "xs:string"), ("maxLength", "000000000")],
        Text(""),
        true,
    ),
    // some enumeration, and every other part
    (
        &[
            ("base", "xs:string"),
            ("enumeration", "a"),
            ("enumeration", "b"),
        ],
        Text("b"),
        true,
    ),
    (
        &[
            ("base", "xs:string"),
            ("enumeration", "a"),
            ("enumeration", "b"),
        ],
        Text("c"),
        false,
    ),
    (
        &[
            ("base", "xs:string"),
            ("enumeration", "a"),
            ("pattern", "b"),
        ],
        Text("a"),
        false,
    ),
    (
        &[
            ("base", "xs:string"),
            ("enumeration", "ab"),
            ("length", "2"),
        ],
        Label("ab"),
        true,
    ),
    (
        &[
            ("base", "xs:double"),
            ("enumeration", "1"),
            ("maxExclusive", "2"),
        ],
        Real("1.000001"),
        true,
    ),
    (
        &[
            ("base", "xs:double"),
            ("enumeration", "3"),
            ("maxExclusive", "2"),
        ],
        Int(3),
        false,
    ),
    // a pattern beside a length: both
    (
        &[
            ("base", "xs:string"),
            ("pattern", "[a-z]+"),
            ("length", "2"),
        ],
        Text("ab"),
        true,
    ),
    (
        &[
            ("base", "xs:string"),
            ("pattern", "[a-z]+"),
            ("length", "2"),
        ],
        Text("abc"),
        false,
    ),
    (
        &[
            ("base", "xs:string"),
            ("pattern", "[a-z]+"),
            ("length", "2"),
        ],
        Text("A1"),
        false,
    ),
    // a bound admits numbers alone, a pattern and a length none
    (
        &[
            ("base", "xs:double"),
            ("pattern", "[0-9]"),
            ("minInclusive", "1"),
        ],
        Int(5),
        false,
    ),
    (
        &[
            ("base", "xs:double"),
            ("pattern", "[0-9]"),
            ("minInclusive", "1"),
        ],
        Text("5"),
        false,
    ),
    (
        &[
            ("base", "xs:integer"),
            ("length", "1"),
            ("maxInclusive", "9"),
        ],
        Int(5),
        false,
    ),
    // dates and times are texts
    (
        &[("base", "xs:date"), ("enumeration", "2026-12-01")],
        Text("2026-12-01"),
        true,
    ),
    (
        &[("base", "xs:dateTime"), ("minLength", "19")],
        Text("2026-12-01"),
        false,
    ),
    (
        &[("base", "xs:time"), ("pattern", "[0-9:]{8}")],
        Text("12:00:00"),
        true,
    ),
    (
        &[("base", "xs:duration"), ("length", "3")],
        Text("P1D"),
        true,
    ),
];

/// Each condition of these rows admits the value, or doesn't.
fn all_seen(rt: &impl Abort, alloc: Global, rows: &[(Parts, Sample, bool)]) -> Result<(), Fail> {
    for (parts, value, wanted) in rows {
        let condition = built(rt, alloc, parts)?;
        sees(rt, alloc, &condition, *value, *wanted)?;
    }
    Ok(())
}

#[test]
fn restrictions_of_values(rt: HostRuntime) -> Result<(), Fail> {
    let alloc = rt.alloc();
    all_seen(&rt, alloc, BOUNDS.as_slice())?;
    all_seen(&rt, alloc, TEXTS.as_slice())
}

#[test]
fn names(rt: HostRuntime) -> Result<(), Fail> {
    let alloc = rt.alloc();
    let rows = [("base", "xs:string"), ("pattern", "IFCWALL.*")];
    let condition = built(&rt, alloc, &rows)?;
    for (name, wanted) in [("IFCWALL", true), ("IFCWALLTYPE", true), ("IFCSLAB", false)] {
        match condition.admits_text(alloc, name) {
            Ok(admitted) => assert_eq!(rt; admitted, wanted, "{name}"),
            Err(_) => panic!(rt; "memory"),
        }
    }
    Ok(())
}
