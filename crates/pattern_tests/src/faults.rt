use ifc_base::Refusal;
use std::alloc::{AllocError, Global};
use std::process::Abort;
use std::test::Fail;
use xsd_pattern::{Pattern, PatternCause};

fn refused(rt: &impl Abort, alloc: Global, text: &str, at: u32, why: PatternCause) {
    match Pattern::read(alloc, text) {
        Err(Refusal::Fault(fault)) => {
            assert_eq!(rt; fault.at, at, "place in {text}");
            assert_eq!(rt; fault.why, why, "cause in {text}");
        }
        Err(Refusal::Memory) => panic!(rt; "memory"),
        Ok(_) => panic!(rt; "no fault in {text}"),
    }
}

fn all_refused(rt: &impl Abort, alloc: Global, rows: &[(&str, u32)], why: PatternCause) {
    for (text, at) in rows {
        refused(rt, alloc, text, *at, why);
    }
}

const PARTS: [(&str, u32); 30] = [
    (")", 1),
    ("a)", 2),
    ("a|)", 3),
    ("a(", 3),
    ("(", 2),
    ("(a", 3),
    ("((a)", 5),
    ("(a|", 4),
    ("]", 1),
    ("a]", 2),
    ("}", 1),
    ("a}", 2),
    ("{", 1),
    ("{2}", 1),
    ("*", 1),
    ("+a", 1),
    ("?", 1),
    ("|*", 2),
    ("(*)", 2),
    ("a**", 3),
    ("a*+", 3),
    ("a+?", 3),
    ("a{2}?", 5),
    ("a{2}{3}", 5),
    ("\\", 2),
    ("a\\", 3),
    ("\\q", 2),
    ("\\p{L}", 2),
    ("\\_", 2),
    ("\u{e9}\u{1F600}(", 4),
];

const BOUNDS: [(&str, u32); 14] = [
    ("a{", 3),
    ("a{}", 3),
    ("a{ 2}", 3),
    ("a{,5}", 3),
    ("a{-1}", 3),
    ("a{2", 4),
    ("a{2x}", 4),
    ("a{2,", 5),
    ("a{2,x}", 5),
    ("a{2,3", 6),
    ("a{2,1}", 2),
    ("a{1,0}", 2),
    ("a{2,1", 6),
    ("a{1000,999}", 2),
];

const CLASSES: [(&str, u32); 29] = [
    ("[", 2),
    ("[]", 2),
    ("[]a]", 2),
    ("[^", 3),
    ("[^]", 3),
    ("[^]a]", 3),
    ("[^^", 4),
    ("[a", 3),
    ("[[]", 2),
    ("[a[]", 3),
    ("[-", 3),
    ("[--", 4),
    ("[--a]", 4),
    ("[a-", 4),
    ("[a--b]", 4),
    ("[a-c-e]", 6),
    ("[a-c-", 6),
    ("[a-]b]", 6),
    ("[a-[b]]", 4),
    ("[b-a]", 4),
    ("[\u{e9}-a]", 4),
    ("[a-\\n]", 5),
    ("[a-\\d]", 5),
    ("[a-\\", 5),
    ("[~-\\n]", 4),
    ("[~-\\}]", 4),
    ("[\\d-a]", 5),
    ("[\\q]", 3),
    ("[\\", 3),
];

#[test]
fn syntax_faults(rt: HostRuntime) {
    all_refused(&rt, rt.alloc(), &PARTS, PatternCause::Syntax);
    all_refused(&rt, rt.alloc(), &BOUNDS, PatternCause::Syntax);
    all_refused(&rt, rt.alloc(), &CLASSES, PatternCause::Syntax);
}

const TOO_MANY: [(&str, u32); 11] = [
    ("a{1001}", 2),
    ("a{1001", 2),
    ("a{1001x", 2),
    ("a{1001,}", 2),
    ("a{1001,5}", 2),
    ("a{5,1001}", 2),
    ("a{5,1001", 2),
    ("ab{2}(c{99999999999999999999999999999999999999})", 8),
    // The weight comes last.
    ("(a{1000}){100}b", 0),
    ("(a{1000}){101}", 0),
    (
        "(((((((a{1000}){1000}){1000}){1000}){1000}){1000}){1000})*",
        0,
    ),
];

#[test]
fn repeats_past_their_limits(rt: HostRuntime) {
    all_refused(&rt, rt.alloc(), &TOO_MANY, PatternCause::TooManyRepeats);
    // What is read from the left comes before the weight.
    refused(
        &rt,
        rt.alloc(),
        "(a{1000}){1000}(",
        17,
        PatternCause::Syntax,
    );
    refused(&rt, rt.alloc(), ")a{1001}", 1, PatternCause::Syntax);
}

/// The text, so many times.
fn many(alloc: Global, text: &str, count: usize) -> Result<String, AllocError> {
    let mut all = String::new(alloc);
    for _ in 0..count {
        all.push_str(text)?;
    }
    Ok(all)
}

#[test]
fn depth_and_length(rt: HostRuntime) -> Result<(), Fail> {
    let deep = many(rt.alloc(), "(", 33)?;
    refused(&rt, rt.alloc(), deep.as_str(), 33, PatternCause::TooDeep);
    let open = many(rt.alloc(), "(", 32)?;
    refused(&rt, rt.alloc(), open.as_str(), 33, PatternCause::Syntax);
    let long = many(rt.alloc(), "\u{e9}", 1001)?;
    refused(&rt, rt.alloc(), long.as_str(), 0, PatternCause::TooLong);
    let wrong = many(rt.alloc(), "(", 1001)?;
    refused(&rt, rt.alloc(), wrong.as_str(), 0, PatternCause::TooLong);
    Ok(())
}
