use std::alloc::{AllocError, Global};
use std::process::Abort;
use std::test::Fail;
use xsd_pattern::Pattern;

fn reads(rt: &impl Abort, alloc: Global, text: &str) {
    assert!(rt; Pattern::read(alloc, text).is_ok(), "{text}");
}

const READ: [&str; 56] = [
    "",
    "|",
    "a|",
    "|a",
    "()",
    "(|a)",
    "(a|)",
    "((()))",
    "(a*)*",
    "()*",
    "a*",
    "a+",
    "a?",
    "a{0}",
    "a{0,0}",
    "a{0,}",
    "a{2}",
    "a{2,}",
    "a{2,3}",
    "a{1000}",
    "a{0,1000}",
    "a{000000000000000000000000000000000000000000000001000}",
    "(a{1000}){100}",
    "(a{0,1000}){100,}",
    "^a$",
    "a-b",
    "a,b",
    ".",
    "\\n\\r\\t",
    "\\\\\\|\\.\\-\\^\\?\\*\\+\\{\\}\\(\\)\\[\\]",
    "\\d\\w\\s\\D\\W\\S",
    "[a]",
    "[^a]",
    "[a-z]",
    "[a-a]",
    "[a-]",
    "[-a]",
    "[-]",
    "[--]",
    "[^-]",
    "[^-a]",
    "[-a-]",
    "[a-c-]",
    "[^^]",
    "[a^]",
    "[\\d-]",
    "[\\w\\S]",
    "[\\--a]",
    "[+-\\-]",
    "[a-\\}]",
    "[|-\\}]",
    "[\\n-\\r]",
    "[\\]\\[\\^]",
    "[.*+?{}()|$]",
    "\u{e9}\u{4e2d}*\u{1F600}{2}",
    "[\u{e9}-\u{1F600}]",
];

#[test]
fn patterns_are_read(rt: HostRuntime) {
    for text in READ {
        reads(&rt, rt.alloc(), text);
    }
}

/// The text within so many groups.
fn grouped(alloc: Global, text: &str, depth: usize) -> Result<String, AllocError> {
    let mut all = String::new(alloc);
    for _ in 0..depth {
        all.push('(')?;
    }
    all.push_str(text)?;
    for _ in 0..depth {
        all.push(')')?;
    }
    Ok(all)
}

#[test]
fn limits_are_reached(rt: HostRuntime) -> Result<(), Fail> {
    let deep = grouped(rt.alloc(), "a", 32)?;
    reads(&rt, rt.alloc(), deep.as_str());
    let mut long = String::new(rt.alloc());
    for _ in 0..1000 {
        long.push('\u{e9}')?;
    }
    reads(&rt, rt.alloc(), long.as_str());
    Ok(())
}
