use decimal_fix::{compare, equals_within, read_decimal, write_decimal};
use ifc_base::Decimal;
use std::alloc::Global;
use std::cmp::Ordering;
use std::process::Abort;
use std::test::Fail;

/// The units of 10^-15 in one, and the greatest number of them that isn't Beyond.
const ONE: i128 = 1_000_000_000_000_000;

const MOST: i128 = 9_999_999_999_999_999_999_999_999_999_999;

fn all_read(rt: &impl Abort, rows: &[(&str, i128)], beyond: bool) {
    for (text, units) in rows {
        let a = Decimal {
            units: *units,
            beyond,
        };
        assert_eq!(rt; read_decimal(text), Some(a), "{text}");
    }
}

fn none_reads(rt: &impl Abort, rows: &[&str]) {
    for text in rows {
        assert!(rt; read_decimal(text).is_none(), "{text}");
    }
}

const WORKED: [(&str, i128); 4] = [
    (
        "9999999999999999",
        9_999_999_999_999_999_000_000_000_000_000,
    ),
    ("-5E-16", -1),
    ("4E-16", 0),
    (".5", 500_000_000_000_000),
];

const WORKED_BEYOND: [(&str, i128); 2] = [("1E16", 1), ("9999999999999999.9999999999999995", 1)];

#[test]
fn numerals(rt: HostRuntime) {
    all_read(&rt, &WORKED, false);
    all_read(&rt, &WORKED_BEYOND, true);
    none_reads(&rt, &["1.2.3"]);
}

const FORMS: [(&str, i128); 15] = [
    ("0", 0),
    ("0.", 0),
    ("-0", 0),
    ("-.0", 0),
    ("+1", ONE),
    ("1.", ONE),
    ("00001", ONE),
    (
        "0000000000000000000000000000000000000000000000000000000001",
        ONE,
    ),
    ("-42.5", -42_500_000_000_000_000),
    ("123.456e2", 12_345_600_000_000_000_000),
    ("1E0", ONE),
    ("1e+0", ONE),
    ("10.E-1", ONE),
    (".1E1", ONE),
    ("1E-00015", 1),
];

const ROUNDED: [(&str, i128); 14] = [
    ("1e-16", 0),
    ("5E-16", 1),
    ("0.0000000000000005", 1),
    (
        "0.00000000000000049999999999999999999999999999999999999999",
        0,
    ),
    ("-4.9E-16", 0),
    ("14E-16", 1),
    ("15E-16", 2),
    ("24E-16", 2),
    ("25E-16", 3),
    ("-25E-16", -3),
    ("-24E-16", -2),
    (
        "1234567890123456789012345678901234567890E-39",
        1_234_567_890_123_457,
    ),
    ("5E-17", 0),
    ("9E-9999999999999999999999999999999999999999", 0),
];

const BELOW_BEYOND: [(&str, i128); 5] = [
    ("9999999999999999.999999999999999", MOST),
    ("9999999999999999.9999999999999994", MOST),
    ("-9999999999999999.99999999999999949", -MOST),
    (".9E16", 9_000_000_000_000_000_000_000_000_000_000),
    ("0E99999999999999999999999999999999999999999", 0),
];

const BEYOND: [(&str, i128); 6] = [
    ("-9999999999999999.9999999999999995", -1),
    ("10000000000000000", 1),
    ("-1E16", -1),
    ("1E+16", 1),
    (".1E17", 1),
    ("1E99999999999999999999999999999999999999999", 1),
];

#[test]
fn edges_of_numerals(rt: HostRuntime) {
    all_read(&rt, &FORMS, false);
    all_read(&rt, &ROUNDED, false);
    all_read(&rt, &BELOW_BEYOND, false);
    all_read(&rt, &BEYOND, true);
}

const NO_NUMERALS: [&str; 29] = [
    "", ".", "+", "-", "-.", "E5", ".E5", "1E", "1E+", "1E+-1", "1E1.5", "1E1E1", "--1", "+-1",
    " 1", "1 ", "\t1", "1\n", "1 .5", "1e 5", "1,5", "1_000", "0x1", "١", "1٫5", "inf", "NaN",
    "..5", "1..",
];

#[test]
fn no_numerals(rt: HostRuntime) {
    none_reads(&rt, &NO_NUMERALS);
}

fn within(text: &str, literal: &str) -> bool {
    match (read_decimal(text), read_decimal(literal)) {
        (Some(a), Some(b)) => equals_within(a, b),
        _ => false,
    }
}

const EQUAL: [(&str, &str, bool); 13] = [
    ("42.000042", "42", true),
    ("42.000044", "42", false),
    ("0.000001", "0", true),
    ("0.0000011", "0", false),
    ("42.000043", "42", true),
    ("42.000043000000001", "42", false),
    ("41.999957", "42", true),
    ("41.999956999999999", "42", false),
    ("-42.000043", "-42", true),
    ("42", "-42", false),
    ("1E16", "9999999999999999", false),
    ("9999999999999999", "1E16", false),
    ("1E16", "1E16", false),
];

#[test]
fn tolerance_of_equality(rt: HostRuntime) {
    for (text, literal, equal) in &EQUAL {
        assert!(rt; within(text, literal) == *equal, "{text} {literal}");
    }
}

/// A number, whether it is Beyond, a literal, and whether the number is less or greater.
const ORDERED: [(i128, bool, i128, bool, bool); 8] = [
    (
        42_000_042_000_000_000,
        false,
        42_000_000_000_000_000,
        false,
        true,
    ),
    (
        42_000_000_000_000_000,
        false,
        42_000_000_000_000_000,
        false,
        false,
    ),
    (
        -42_000_000_000_000_000,
        false,
        42_000_000_000_000_000,
        true,
        false,
    ),
    (-1, false, 0, true, false),
    (1, true, MOST, false, true),
    (-1, true, -MOST, true, false),
    (0, true, MOST, false, true),
    (1, true, 1, false, true),
];

#[test]
fn order_without_tolerance(rt: HostRuntime) {
    for (units, beyond, literal, less, greater) in &ORDERED {
        let a = Decimal {
            units: *units,
            beyond: *beyond,
        };
        let literal = Decimal {
            units: *literal,
            beyond: false,
        };
        let order = compare(a, literal);
        assert!(rt; (order == Ordering::Less) == *less, "{a:?} {literal:?}");
        assert!(rt;
            (order == Ordering::Greater) == *greater,
            "{a:?} {literal:?}"
        );
    }
}

const TEXTS: [(i128, bool, &str); 16] = [
    (1_500_000_000_000_000, false, "1.5"),
    (0, false, "0."),
    (1, false, "0.000000000000001"),
    (-1, false, "-0.000000000000001"),
    (ONE, false, "1."),
    (-2_500_000_000_000_000, false, "-2.5"),
    (100_000_000_000_000, false, "0.1"),
    (10_050_000_000_000_000, false, "10.05"),
    (420_000_000_000_000_000, false, "420."),
    (MOST, false, "9999999999999999.999999999999999"),
    (-MOST, false, "-9999999999999999.999999999999999"),
    (i128::MAX, false, "170141183460469231731687.303715884105727"),
    (
        i128::MIN,
        false,
        "-170141183460469231731687.303715884105728",
    ),
    (1, true, "1.E16"),
    (-1, true, "-1.E16"),
    (0, true, "1.E16"),
];

#[test]
fn texts(rt: HostRuntime) -> Result<(), Fail> {
    for (units, beyond, text) in &TEXTS {
        let a = Decimal {
            units: *units,
            beyond: *beyond,
        };
        let written = write_decimal(rt.alloc(), a)?;
        assert!(rt; written.is(text), "{text}");
    }
    Ok(())
}

/// A text with a million digits: what stands before them, a 1 and zeros, and what follows them.
fn long_text(alloc: Global, front: &str, end: &str) -> Result<String, Fail> {
    let mut text = String::with_capacity(alloc, 1_000_100)?;
    text.push_str(front)?;
    text.push('1')?;
    for _ in 0..999_999 {
        text.push('0')?;
    }
    text.push_str(end)?;
    Ok(text)
}

/// What stands before and behind a million digits, and the units and whether they are Beyond.
const LONG: [(&str, &str, i128, bool); 9] = [
    ("", "", 1, true),
    ("-", "", -1, true),
    ("", "E-999999", ONE, false),
    ("", "E-1000014", 1, false),
    ("", "E-1000015", 0, false),
    ("", "5E-1000015", 1, false),
    ("0.00", "e+3", ONE, false),
    ("1E", "", 1, true),
    ("1E-", "", 0, false),
];

#[test]
fn a_million_digits(rt: HostRuntime) -> Result<(), Fail> {
    for (front, end, units, beyond) in &LONG {
        let text = long_text(rt.alloc(), front, end)?;
        all_read(&rt, &[(text.as_str(), *units)], *beyond);
    }
    Ok(())
}
