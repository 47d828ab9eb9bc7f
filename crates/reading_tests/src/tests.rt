use crate::{Cause, Tree, read_letters, read_tree};
use ifc_base::Refusal;
use reading::{CharCursor, Code, Cursor, line_of, place_of};
use std::alloc::{AllocError, Global};
use std::process::Abort;
use std::test::Fail;

/// Adds the tree, written with no blanks.
fn show(alloc: Global, tree: &Tree, depth: usize, out: &mut String) -> Result<(), AllocError> {
    match tree {
        Tree::Number(n) => out.push_str(format!(in alloc; "{n}")?.as_str()),
        Tree::List(items) => {
            out.push('(')?;
            for item in items.as_slice() {
                if depth > 0 {
                    show(alloc, item, depth - 1, out)?;
                }
                out.push(',')?;
            }
            out.push(')')
        }
    }
}

#[test]
fn trees_are_read(rt: HostRuntime) -> Result<(), Fail> {
    let cases: [(&[u8], &str); 9] = [
        (b"7", "7"),
        (b" \t\r\n007 ", "7"),
        (b"999999999", "999999999"),
        (b"()", "()"),
        (b"( 1 ,(2,( )) , 30)", "(1,(2,(),),30,)"),
        (b"/* one */ 1 /***/", "1"),
        (b"(1/* /* , 2 */,3)", "(1,3,)"),
        // Within a comment a byte need not be text.
        (b"/* \xff \xe9 */ 1", "1"),
        ("/* \u{e9}\u{4e2d}\u{1F600} */(1)".as_bytes(), "(1,)"),
    ];
    for (bytes, wanted) in cases {
        let mut out = String::new(rt.alloc());
        match read_tree(rt.alloc(), bytes) {
            Ok(tree) => show(rt.alloc(), &tree, 40, &mut out)?,
            Err(_) => panic!(rt; "not read: {wanted}"),
        }
        assert_eq!(rt; out.as_str(), wanted);
    }
    Ok(())
}

#[test]
fn faults_have_their_line(rt: HostRuntime) {
    let cases: [(&[u8], u32, Cause); 17] = [
        (b"", 1, Cause::NoEnd),
        (b"\n\n", 3, Cause::NoEnd),
        (b"/* a\nb */\n", 3, Cause::NoEnd),
        (b"1\n/* \n", 2, Cause::Unclosed),
        (b"(1,\n(2,\n3\n", 2, Cause::Unclosed),
        (b"(1,\n(2,\n3)\n", 1, Cause::Unclosed),
        (b"(1,\n(2,\n/*3)\n", 3, Cause::Unclosed),
        (b"(1,\n1000000000)", 2, Cause::BadNumber),
        (
            b"(1,\n0000000000000000000001, 99999999999)",
            2,
            Cause::BadNumber,
        ),
        (b"(1,\n\xff)", 2, Cause::BadByte),
        // A truncated character, and a surrogate's bytes.
        (b"/* \xc3 */\n\xc3", 2, Cause::BadByte),
        (b"\xed\xa0\x80", 1, Cause::BadByte),
        ("(1,\n\n\u{e9})".as_bytes(), 3, Cause::BadToken),
        (b"(1,\n,2)", 2, Cause::BadToken),
        (b"(1\n2)", 2, Cause::BadToken),
        (b"1 /\n*", 1, Cause::BadToken),
        (b"1\n2", 2, Cause::BadToken),
    ];
    for (bytes, line, why) in cases {
        match read_tree(rt.alloc(), bytes) {
            Err(Refusal::Fault(fault)) => {
                assert_eq!(rt; fault.line, line, "line of {why:?}");
                assert_eq!(rt; fault.why, why);
            }
            _ => panic!(rt; "no fault where {why:?} was wanted"),
        }
    }
}

#[test]
fn depth_is_bounded(rt: HostRuntime) -> Result<(), Fail> {
    for (depth, fits) in [(1, true), (32, true), (33, false)] {
        let mut bytes = Vec::new(rt.alloc());
        bytes.push(b'\n')?;
        for _ in 0..depth {
            bytes.push(b'(')?;
        }
        for _ in 0..depth {
            bytes.push(b')')?;
        }
        match read_tree(rt.alloc(), bytes.as_slice()) {
            Ok(_) => assert!(rt; fits),
            Err(Refusal::Fault(fault)) => {
                assert!(rt; !fits);
                assert_eq!(rt; fault.line, 2);
                assert_eq!(rt; fault.why, Cause::TooDeep);
            }
            Err(Refusal::Memory) => panic!(rt; "memory"),
        }
    }
    Ok(())
}

/// The bytes say these codes, where 0x11_0000 and more is the mark of a byte.
fn says(rt: &impl Abort, bytes: &[u8], wanted: &[u32]) {
    let mut cursor = Cursor::new(bytes);
    for number in wanted {
        match cursor.next() {
            None => panic!(rt; "the end, where {number:x} was wanted"),
            Some(Code::Char(c)) => assert_eq!(rt; c as u32, *number),
            Some(Code::Byte(b)) => assert_eq!(rt; 0x11_0000 + b as u32, *number),
        }
    }
    assert!(rt; cursor.next().is_none());
}

/// The Unicode Standard's examples of ill-formed bytes (section 3.9, Tables 3-8 to 3-11), byte by byte.
#[test]
fn bytes_say_characters_or_marks(rt: HostRuntime) {
    says(&rt, b"", &[]);
    says(
        &rt,
        "A\u{e9}\u{20ac}\u{1F600}".as_bytes(),
        &[0x41, 0xe9, 0x20ac, 0x1f600],
    );
    says(
        &rt,
        b"\xc0\xaf\xe0\x80\xbf\xf0\x81\x82\x41",
        &[
            0x1100c0, 0x1100af, 0x1100e0, 0x110080, 0x1100bf, 0x1100f0, 0x110081, 0x110082, 0x41,
        ],
    );
    says(
        &rt,
        b"\xed\xa0\x80\xed\xbf\xbf\xed\xaf\x41",
        &[
            0x1100ed, 0x1100a0, 0x110080, 0x1100ed, 0x1100bf, 0x1100bf, 0x1100ed, 0x1100af, 0x41,
        ],
    );
    says(
        &rt,
        b"\xf4\x91\x92\x93\xff\x41\x80\xbf\x42",
        &[
            0x1100f4, 0x110091, 0x110092, 0x110093, 0x1100ff, 0x41, 0x110080, 0x1100bf, 0x42,
        ],
    );
    says(
        &rt,
        b"\xe1\x80\xe2\xf0\x91\x92\xf1\xbf\x41",
        &[
            0x1100e1, 0x110080, 0x1100e2, 0x1100f0, 0x110091, 0x110092, 0x1100f1, 0x1100bf, 0x41,
        ],
    );
    says(
        &rt,
        b"\xf4\x8f\xbf\xbf\xee\x80\x80\xc2",
        &[0x10ffff, 0xe000, 0x1100c2],
    );
}

#[test]
fn letters_are_read(rt: HostRuntime) {
    for (bytes, odd) in [
        (b"()".as_slice(), false),
        (b"(a)", true),
        (b"(aaaa)x", false),
    ] {
        match read_letters(bytes) {
            Ok(found) => assert_eq!(rt; found, odd),
            Err(_) => panic!(rt; "not read"),
        }
    }
    for (bytes, line, why) in [
        (b"".as_slice(), 1, Cause::NoEnd),
        (b"(a", 1, Cause::Unclosed),
        (b"\n(a)", 1, Cause::BadToken),
        (b"(\na", 1, Cause::BadToken),
    ] {
        match read_letters(bytes) {
            Err(Refusal::Fault(fault)) => {
                assert_eq!(rt; fault.line, line);
                assert_eq!(rt; fault.why, why);
            }
            _ => panic!(rt; "no fault where {why:?} was wanted"),
        }
    }
}

#[test]
fn places_of_a_text(rt: HostRuntime) {
    let text = "a\u{e9}\n\u{1F600}b\n";
    let mut cursor = CharCursor::new(text);
    let wanted = [
        (1, 1, Some('a')),
        (1, 2, Some('\u{e9}')),
        (1, 3, Some('\n')),
        (2, 4, Some('\u{1F600}')),
        (2, 5, Some('b')),
        (2, 6, Some('\n')),
        (3, 7, None),
    ];
    assert_eq!(rt; cursor.turns(), 11);
    for (line, place, next) in wanted {
        assert_eq!(rt; line_of(text.as_bytes(), cursor.rest()), line);
        assert_eq!(rt; place_of(text.as_bytes(), cursor.rest()), place);
        assert_eq!(rt; cursor.peek(), next);
        assert_eq!(rt; cursor.next(), next);
    }
}
