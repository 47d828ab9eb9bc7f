use ifc_base::Refusal;
use std::alloc::{AllocError, Global};
use std::process::Abort;
use std::test::Fail;
use xsd_pattern::{Pattern, PatternCause};

fn matches(rt: &impl Abort, alloc: Global, pattern: &str, text: &str, wanted: bool) {
    match Pattern::read(alloc, pattern) {
        Ok(read) => match read.matches(alloc, text) {
            Ok(found) => assert_eq!(rt; found, wanted, "{pattern} and {text}"),
            Err(_) => panic!(rt; "memory"),
        },
        Err(_) => panic!(rt; "{pattern} is not read"),
    }
}

fn all_match(rt: &impl Abort, alloc: Global, rows: &[(&str, &str)], wanted: bool) {
    for (pattern, text) in rows {
        matches(rt, alloc, pattern, text, wanted);
    }
}

#[test]
fn pattern_cases(rt: HostRuntime) {
    let yes = [("W[0-9]{2}", "W01"), ("\\w", "a"), ("\\w", "+"), ("", "")];
    all_match(&rt, rt.alloc(), &yes, true);
    let not = [
        ("W[0-9]{2}", "W011"),
        ("W[0-9]{2}", "xW01"),
        ("\\w", "_"),
        ("", "a"),
    ];
    all_match(&rt, rt.alloc(), &not, false);
    for (text, at, why) in [
        ("a{1001}", 2, PatternCause::TooManyRepeats),
        ("a{2,1}", 2, PatternCause::Syntax),
        ("a(", 3, PatternCause::Syntax),
    ] {
        match Pattern::read(rt.alloc(), text) {
            Err(Refusal::Fault(fault)) => {
                assert_eq!(rt; fault.at, at);
                assert_eq!(rt; fault.why, why);
            }
            _ => panic!(rt; "no fault in {text}"),
        }
    }
}

const YES: [(&str, &str); 56] = [
    ("a|b", "b"),
    ("a|", ""),
    ("(|a)b", "b"),
    ("(|a)b", "ab"),
    ("ab|cd", "cd"),
    ("a*", ""),
    ("a*", "aaa"),
    ("a+", "a"),
    ("a?", ""),
    ("a{0}", ""),
    ("a{0,0}", ""),
    ("a{2}", "aa"),
    ("a{2,}", "aaaa"),
    ("a{2,3}", "aaa"),
    ("(ab){2}", "abab"),
    ("(a|b*){3}", "abb"),
    ("()*", ""),
    ("((a+)*)+", ""),
    ("((a+)*)+", "aaa"),
    ("((a+)+)+", "aa"),
    ("((a+)?)*", ""),
    ("((a|)|)", ""),
    ("((a|)|)", "a"),
    ("((a|)*|b)", "b"),
    ("(()|(a*)+)+", "aa"),
    ("^a$", "^a$"),
    ("a-b", "a-b"),
    (".", "x"),
    (".", "\u{1F600}"),
    (".", "\u{85}"),
    ("\\.", "."),
    ("\\\\\\|\\-\\^\\?\\*\\+\\{\\}\\(\\)\\[\\]", "\\|-^?*+{}()[]"),
    ("\\n\\r\\t", "\n\r\t"),
    ("\\d", "7"),
    ("\\D", "\u{661}"),
    ("\\s\\s\\s\\s", " \t\n\r"),
    ("\\S", "\u{a0}"),
    ("\\w{10}", "$+<=>^|~`Z"),
    ("\\W", "\u{e9}"),
    ("[abc]", "c"),
    ("[a-c]", "b"),
    ("[^a]", "\n"),
    ("[^a-c]", "d"),
    ("[a-]", "-"),
    ("[-a]", "-"),
    ("[--]", "-"),
    ("[a-c-]", "-"),
    ("[^^]", "a"),
    ("[a^]", "^"),
    ("[\\d-]", "-"),
    ("[\\--a]", "A"),
    ("[.]", "."),
    ("[\\]\\n]", "]"),
    ("\u{e9}+", "\u{e9}\u{e9}"),
    ("[\u{e9}-\u{4e2d}]", "\u{4e2d}"),
    ("[^\u{e9}]", "\u{1F600}"),
];

const NOT: [(&str, &str); 41] = [
    ("a|b", "ab"),
    ("a|b", ""),
    ("(|a)b", "aab"),
    ("a+", ""),
    ("a?", "aa"),
    ("a{0}", "a"),
    ("a{2}", "a"),
    ("a{2}", "aaa"),
    ("a{2,}", "a"),
    ("a{2,3}", "aaaa"),
    ("((a+)+)+", ""),
    ("((a+)+){2}", "a"),
    ("((a|)|)", "aa"),
    ("((a*)+)*", "ab"),
    ("(()|(a*)+)+", "b"),
    ("(ab){2}", "abba"),
    ("^a$", "a"),
    ("a", "xa"),
    ("a", "ax"),
    (".", ""),
    (".", "\n"),
    (".", "\r"),
    (".", "ab"),
    ("\\.", "x"),
    ("\\d", "\u{661}"),
    ("\\D", "0"),
    ("\\s", "\u{a0}"),
    ("\\S", "\t"),
    ("\\w", "-"),
    ("\\w", "\u{e9}"),
    ("\\W", "9"),
    ("[abc]", "d"),
    ("[a-c]", "-"),
    ("[^a]", "a"),
    ("[^a]", ""),
    ("[^-a]", "-"),
    ("[^^]", "^"),
    ("[.]", "x"),
    ("[\\--a]", "b"),
    ("\u{e9}", "e"),
    ("[\u{e9}-\u{4e2d}]", "\u{1F600}"),
];

#[test]
fn constructs(rt: HostRuntime) {
    all_match(&rt, rt.alloc(), &YES, true);
    all_match(&rt, rt.alloc(), &NOT, false);
}

/// The patterns that make a matcher that tries one way after another go on for ages.
const HARD: [(&str, bool); 7] = [
    ("(a*)*b", false),
    ("(a|a)*", true),
    ("(a|a)*b", false),
    ("(a|aa)+b", false),
    ("(((a*)*)*)*b", false),
    ("(a?){100}a{100}", false),
    ("(a{0,10}){0,10}", false),
];

#[test]
fn hard_patterns_end(rt: HostRuntime) -> Result<(), Fail> {
    let mut text = String::new(rt.alloc());
    for _ in 0..10_000 {
        text.push('a')?;
    }
    for (pattern, wanted) in HARD {
        matches(&rt, rt.alloc(), pattern, text.as_str(), wanted);
    }
    Ok(())
}

/// Weights up to the limit, against a thousand characters.
const HEAVY: [(&str, bool); 4] = [
    ("a{0,1000}a{0,1000}", true),
    ("(a?){1000}a{1000}", true),
    ("(a{1000}){0,2}b", false),
    ("(a{2,3}){0,1000}", true),
];

#[test]
fn heavy_patterns_end(rt: HostRuntime) -> Result<(), Fail> {
    let mut text = String::new(rt.alloc());
    for _ in 0..1_000 {
        text.push('a')?;
    }
    for (pattern, wanted) in HEAVY {
        matches(&rt, rt.alloc(), pattern, text.as_str(), wanted);
    }
    Ok(())
}

/// What ends each of 30 groups round one character, all within repeats of weight 100,000.
const ENDS: [(&str, bool); 4] = [(")*", true), ("|)", true), (")?", true), (")+", false)];

/// The character within 30 groups of this end, 100,000 times.
fn nested(alloc: Global, end: &str) -> Result<String, AllocError> {
    let mut all = String::new(alloc);
    for _ in 0..32 {
        all.push('(')?;
    }
    all.push('a')?;
    for _ in 0..30 {
        all.push_str(end)?;
    }
    all.push_str("){1000}){100}")?;
    Ok(all)
}

#[test]
fn deep_patterns_end(rt: HostRuntime) -> Result<(), Fail> {
    let mut text = String::new(rt.alloc());
    for _ in 0..100 {
        text.push('a')?;
    }
    for (end, wanted) in ENDS {
        let pattern = nested(rt.alloc(), end)?;
        matches(&rt, rt.alloc(), pattern.as_str(), text.as_str(), wanted);
    }
    Ok(())
}
