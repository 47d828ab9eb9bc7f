use ifc_base::{Decimal, Instance, Value, ValueNode};
use p21_read::{read_instance, read_value};
use std::alloc::{AllocError, Global};
use std::test::Fail;

fn show_decimal(alloc: Global, number: Decimal, out: &mut String) -> Result<(), AllocError> {
    if number.beyond {
        return out.push_str(format!(in alloc; "beyond{}", number.units)?.as_str());
    }
    out.push_str(format!(in alloc; "{}u", number.units)?.as_str())
}

/// Adds a value that holds no other.
fn show_leaf(alloc: Global, value: &Value, out: &mut String) -> Result<(), AllocError> {
    match &value.node {
        ValueNode::Absent => out.push('$'),
        ValueNode::Derived => out.push('*'),
        ValueNode::Int(n) => out.push_str(format!(in alloc; "{n}")?.as_str()),
        ValueNode::Real(number) => show_decimal(alloc, *number, out),
        ValueNode::Text(text) => out.push_str(format!(in alloc; "'{}'", text.as_str())?.as_str()),
        ValueNode::Enumer(name) => out.push_str(format!(in alloc; ".{}.", name.as_str())?.as_str()),
        ValueNode::Binary(digits) => {
            out.push_str(format!(in alloc; "\"{}\"", digits.as_str())?.as_str())
        }
        ValueNode::Ref(id) => out.push_str(format!(in alloc; "#{}", id.get())?.as_str()),
        _ => Ok(()),
    }
}

/// Adds the value, written with no blanks, an item of a list with a comma behind it, a real in its units of 10^-15.
fn show(alloc: Global, value: &Value, depth: usize, out: &mut String) -> Result<(), AllocError> {
    match &value.node {
        ValueNode::List(items) => {
            out.push('(')?;
            for item in items.as_slice() {
                if depth > 0 {
                    show(alloc, item, depth - 1, out)?;
                }
                out.push(',')?;
            }
            out.push(')')
        }
        ValueNode::Typed(name, inner) => {
            out.push_str(format!(in alloc; "{}[", name.as_str())?.as_str())?;
            if depth > 0 {
                show(alloc, inner.get(), depth - 1, out)?;
            }
            out.push(']')
        }
        _ => show_leaf(alloc, value, out),
    }
}

/// Adds the instance, in the same manner.
pub(crate) fn show_instance(
    alloc: Global,
    instance: &Instance,
    out: &mut String,
) -> Result<(), AllocError> {
    out.push_str(format!(in alloc;
        "#{}={}(",
        instance.id.get(),
        instance.entity.as_str()
    )?.as_str())?;
    for param in instance.params.as_slice() {
        show(alloc, param, 40, out)?;
        out.push(',')?;
    }
    out.push(')')
}

fn expect_value(alloc: Global, bytes: &[u8], wanted: &str) -> Result<(), Fail> {
    let mut out = String::new(alloc);
    match read_value(alloc, bytes) {
        Ok(value) => show(alloc, &value, 40, &mut out)?,
        Err(_) => out.push_str("refused")?,
    }
    if out.as_str() == wanted {
        return Ok(());
    }
    Err(format!(in alloc; "{} in place of {wanted}", out.as_str())?.into())
}

fn expect_instance(alloc: Global, bytes: &[u8], wanted: &str) -> Result<(), Fail> {
    let mut out = String::new(alloc);
    match read_instance(alloc, bytes) {
        Ok(instance) => show_instance(alloc, &instance, &mut out)?,
        Err(_) => out.push_str("refused")?,
    }
    if out.as_str() == wanted {
        return Ok(());
    }
    Err(format!(in alloc; "{} in place of {wanted}", out.as_str())?.into())
}

/// Each directive of a string, and raw characters.
#[test]
fn string_directives(rt: HostRuntime) -> Result<(), Fail> {
    let cases: [(&[u8], &str); 17] = [
        (
            b"'\\X2\\00E9\\X0\\ \\X\\E9 \\S\\i'",
            "'\u{e9} \u{e9} \u{e9}'",
        ),
        (b"''", "''"),
        (b"'it''s'", "'it's'"),
        (b"''''", "'''"),
        (b"'\\\\'", "'\\'"),
        (b"'\\X2\\D83DDE00\\X0\\'", "'\u{1F600}'"),
        (b"'\\X2\\00e9D83DDE000041\\X0\\'", "'\u{e9}\u{1F600}A'"),
        (b"'\\X4\\0001F600000000E9\\X0\\'", "'\u{1F600}\u{e9}'"),
        (b"'\\X4\\0010FFFF\\X0\\'", "'\u{10FFFF}'"),
        (b"'a\\PA\\b'", "'ab'"),
        (b"'\\S\\''", "'\u{a7}'"),
        (b"'\\S\\\\'", "'\u{dc}'"),
        // Raw codes below 32 are left out; what a directive names isn't.
        (b"'a\r\n\tb\x7f'", "'ab\u{7f}'"),
        (b"'\\X\\0A'", "'\n'"),
        (
            "'\u{e9}\u{4e2d}\u{1F600}'".as_bytes(),
            "'\u{e9}\u{4e2d}\u{1F600}'",
        ),
        // A comment within a string is none, and a string within a comment neither.
        (b"/* 'a */'/*b*/'/**/", "'/*b*/'"),
        (b"/* \xff\xe9 */ 'c'", "'c'"),
    ];
    for (bytes, wanted) in cases {
        expect_value(rt.alloc(), bytes, wanted)?;
    }
    Ok(())
}

/// Integers and reals; a real is a whole number of units of 10^-15.
#[test]
fn numbers(rt: HostRuntime) -> Result<(), Fail> {
    let cases: [(&[u8], &str); 20] = [
        (b"0", "0"),
        (b"-12", "-12"),
        (b"+007", "7"),
        (b"999999999999999999", "999999999999999999"),
        (b"-999999999999999999", "-999999999999999999"),
        (b"000000000000000001", "1"),
        (b"1.", "1000000000000000u"),
        (b".5", "500000000000000u"),
        (b"+.5", "500000000000000u"),
        (b"-0.1", "-100000000000000u"),
        (b"1E5", "100000000000000000000u"),
        (b"1.5e-3", "1500000000000u"),
        (b"42.000042", "42000042000000000u"),
        (b"9999999999999999.", "9999999999999999000000000000000u"),
        (b"1E16", "beyond1"),
        (b"9999999999999999.9999999999999995", "beyond1"),
        (b"-5E-16", "-1u"),
        (b"4E-16", "0u"),
        (b"1.E400", "beyond1"),
        (b"1.E-400", "0u"),
    ];
    for (bytes, wanted) in cases {
        expect_value(rt.alloc(), bytes, wanted)?;
    }
    Ok(())
}

#[test]
fn other_values(rt: HostRuntime) -> Result<(), Fail> {
    let cases: [(&[u8], &str); 17] = [
        (b"$", "$"),
        (b"*", "*"),
        (b".T.", ".T."),
        (b".t.", ".T."),
        (b".metre_2.", ".METRE_2."),
        (b"._.", "._."),
        (b"\"0\"", "\"0\""),
        (b"\"3aF\"", "\"3aF\""),
        (b"#1", "#1"),
        (b"#2147483647", "#2147483647"),
        (b"#0000000000000000000000000012", "#12"),
        (b"()", "()"),
        (b"( $ , ( * ) ,()/*a*/, 'b' )", "($,(*,),(),'b',)"),
        (b"IFCLABEL('REI60')", "IFCLABEL['REI60']"),
        (b"ifcBoolean ( .f. )", "IFCBOOLEAN[.F.]"),
        (b"DATA(ENDSEC(1))", "DATA[ENDSEC[1]]"),
        (b"\t\r\n A(B((C(1.)),#2))", "refused"),
    ];
    for (bytes, wanted) in cases {
        expect_value(rt.alloc(), bytes, wanted)?;
    }
    Ok(())
}

#[test]
fn instances(rt: HostRuntime) -> Result<(), Fail> {
    let cases: [(&[u8], &str); 6] = [
        (
            b"#2147483647=IFCGROUP('g',$,$,$,$);",
            "#2147483647=IFCGROUP('g',$,$,$,$,)",
        ),
        (b"#0010=IFCGROUP();", "#10=IFCGROUP()"),
        (b" # 1=A();", "refused"),
        (b"#1=iso();", "#1=ISO()"),
        (
            b"/*a*/#1/*b*/=/*c*/A/*d*/(/*e*/1/*f*/,/*g*/#1/*h*/)/*i*/;/*j*/",
            "#1=A(1,#1,)",
        ),
        (
            b"#5=\r\nIFCX(\r\n(#1,#2),\r\n.A.\r\n)\r\n;\r\n",
            "#5=IFCX((#1,#2,),.A.,)",
        ),
    ];
    for (bytes, wanted) in cases {
        expect_instance(rt.alloc(), bytes, wanted)?;
    }
    Ok(())
}

/// Sixteen parentheses may nest, of lists and of typed parameters; those of the instance itself don't count.
#[test]
fn depth_is_bounded(rt: HostRuntime) -> Result<(), Fail> {
    for (opening, depth, fits) in [
        ("(", 16, true),
        ("(", 17, false),
        ("A(", 16, true),
        ("A(", 17, false),
    ] {
        let mut value = String::new(rt.alloc());
        for _ in 0..depth {
            value.push_str(opening)?;
        }
        value.push('1')?;
        for _ in 0..depth {
            value.push(')')?;
        }
        let instance = format!(in rt.alloc(); "#1=A({});", value.as_str())?;
        assert_eq!(rt;
            read_value(rt.alloc(), value.as_str().as_bytes()).is_ok(),
            fits,
            "{opening} {depth}"
        );
        assert_eq!(rt;
            read_instance(rt.alloc(), instance.as_str().as_bytes()).is_ok(),
            fits,
            "{opening} {depth}"
        );
    }
    Ok(())
}
