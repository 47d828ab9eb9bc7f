use ifc_base::Refusal;
use p21_read::{P21Cause, P21Cause as Why, P21Fault, read_instance, read_value};
use std::alloc::Global;
use std::test::Fail;

/// The refusal is this fault.
pub(crate) fn expect_fault(
    alloc: Global,
    found: Option<Refusal<P21Fault>>,
    line: u32,
    why: P21Cause,
) -> Result<(), Fail> {
    match found {
        Some(Refusal::Fault(fault)) => {
            if fault.line == line && fault.why == why {
                return Ok(());
            }
            Err(format!(in alloc;
                "line {} {:?} in place of line {line} {why:?}",
                fault.line, fault.why
            )?
            .into())
        }
        Some(Refusal::Memory) => Err("want of memory".into()),
        None => Err(format!(in alloc; "no fault in place of line {line} {why:?}")?.into()),
    }
}

#[test]
fn faults_of_strings(rt: HostRuntime) -> Result<(), Fail> {
    let cases: [(&[u8], u32, P21Cause); 27] = [
        (b"'\xff'", 1, Why::BadText),
        (b"(1,\n'a\n\xc3'\n)", 2, Why::BadText),
        (b"'\xc3", 1, Why::BadText),
        (b"'\xed\xa0\x80'", 1, Why::BadText),
        (b"'\\X2\\00\xff'", 1, Why::BadText),
        (b"\n'\\X2\\00E'", 2, Why::BadDirective),
        (b"'\\X2\\\\X0\\'", 1, Why::BadDirective),
        (b"'\\X4\\\\X0\\'", 1, Why::BadDirective),
        (b"'\\X2\\D83D\\X0\\'", 1, Why::BadDirective),
        (b"'\\X2\\DE00\\X0\\'", 1, Why::BadDirective),
        (b"'\\X2\\D83D0041\\X0\\'", 1, Why::BadDirective),
        // A pair stands within one directive.
        (b"'\\X2\\D83D\\X0\\\\X2\\DE00\\X0\\'", 1, Why::BadDirective),
        (b"'\\X4\\0000D83D0000DE00\\X0\\'", 1, Why::BadDirective),
        (b"'\\X4\\00110000\\X0\\'", 1, Why::BadDirective),
        (b"'\\X2\\00\nE9\\X0\\'", 1, Why::BadDirective),
        (b"'\\X\\G0'", 1, Why::BadDirective),
        (b"'\\X3\\'", 1, Why::BadDirective),
        (b"'\\Q'", 1, Why::BadDirective),
        (b"'\\Q", 1, Why::BadDirective),
        (b"'\\P5\\'", 1, Why::BadDirective),
        (b"'\\PA'", 1, Why::BadDirective),
        (b"'\\PB\\'", 1, Why::OtherPage),
        (b"'\\pA\\'", 1, Why::BadDirective),
        (b"'\\Pa\\'", 1, Why::OtherPage),
        (b"$\n'\\Q'", 2, Why::BadDirective),
        (b"(1,\n 'a\n", 2, Why::Unclosed),
        (b"(1,\n '\\X2\\00E", 2, Why::Unclosed),
    ];
    for (bytes, line, why) in cases {
        expect_fault(rt.alloc(), read_value(rt.alloc(), bytes).err(), line, why)?;
    }
    Ok(())
}

/// Bytes that end before the value does.
#[test]
fn faults_of_unended_values(rt: HostRuntime) -> Result<(), Fail> {
    let cases: [(&[u8], u32, P21Cause); 10] = [
        (b"", 1, Why::NoEnd),
        (b"\n\n", 3, Why::NoEnd),
        (b"/* a\nb */\n", 3, Why::NoEnd),
        (b"1\n/* \n", 2, Why::Unclosed),
        (b"(1,\n(2,\n3\n", 2, Why::Unclosed),
        (b"(1,\n(2,\n3)\n", 1, Why::Unclosed),
        (b"A(\nB\n", 1, Why::Unclosed),
        (b"A\n", 2, Why::NoEnd),
        (b"(\n\"0", 2, Why::Unclosed),
        (b"\"", 1, Why::Unclosed),
    ];
    for (bytes, line, why) in cases {
        expect_fault(rt.alloc(), read_value(rt.alloc(), bytes).err(), line, why)?;
    }
    Ok(())
}

#[test]
fn faults_of_values(rt: HostRuntime) -> Result<(), Fail> {
    let cases: [(&[u8], u32, P21Cause); 24] = [
        (b"\"4\"", 1, Why::BadToken),
        (b"\"0G\"", 1, Why::BadToken),
        (b"\"0\n\"", 1, Why::BadToken),
        (b"(1,\n\xff)", 2, Why::BadToken),
        ("(1,\n\u{e9})".as_bytes(), 2, Why::BadToken),
        (b"1 /\n*", 1, Why::BadToken),
        (b"1\n2", 2, Why::BadToken),
        (b"(1\n2)", 2, Why::BadToken),
        (b"(1,\n,2)", 2, Why::BadToken),
        (b"(1,\n)", 2, Why::BadToken),
        (b"1234567890123456789", 1, Why::BadToken),
        (b"+", 1, Why::BadToken),
        (b"1.2.3", 1, Why::BadToken),
        (b"1E", 1, Why::BadToken),
        (b".A", 1, Why::BadToken),
        (b".1A.", 1, Why::BadToken),
        (b"#", 1, Why::BadToken),
        (b"!A(1)", 1, Why::BadToken),
        (b"A-B(1)", 1, Why::BadToken),
        (b"(#0,\n?)", 2, Why::BadToken),
        (b"(1,\n#2147483648,\n#0)", 2, Why::IdRange),
        (b"#99999999999999999999", 1, Why::IdRange),
        (b"#0\n$", 2, Why::BadToken),
        (b"((((((((((((((((\n(#0", 2, Why::TooDeep),
    ];
    for (bytes, line, why) in cases {
        expect_fault(rt.alloc(), read_value(rt.alloc(), bytes).err(), line, why)?;
    }
    Ok(())
}

#[test]
fn faults_of_instances(rt: HostRuntime) -> Result<(), Fail> {
    let cases: [(&[u8], u32, P21Cause); 15] = [
        (b"#2147483648=IFCGROUP('g',$,$,$,$);", 1, Why::IdRange),
        (b"#0=IFCGROUP('g',$,$,$,$);", 1, Why::IdRange),
        (b"\n#0=A(\n#0);", 2, Why::IdRange),
        (b"#1=A(\n#0,\n#0);", 2, Why::IdRange),
        (b"#0=A(\n#0,\n?);", 3, Why::BadToken),
        (b"#0=A();\n$", 2, Why::BadToken),
        (b"#0=A();\n'\\Q'", 2, Why::BadDirective),
        (b"#1=\n(A()B());", 2, Why::ComplexInstance),
        (b"#1=A()\n", 2, Why::NoEnd),
        (b"#1=A(\n", 1, Why::Unclosed),
        (b"#1=1;", 1, Why::BadToken),
        (b"#1=\nA;", 2, Why::BadToken),
        (b"#1(A);", 1, Why::BadToken),
        (b"A();", 1, Why::BadToken),
        (b"#1=A(1 2);", 1, Why::BadToken),
    ];
    for (bytes, line, why) in cases {
        expect_fault(
            rt.alloc(),
            read_instance(rt.alloc(), bytes).err(),
            line,
            why,
        )?;
    }
    Ok(())
}
