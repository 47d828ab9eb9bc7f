use crate::fixtures::{answer, document, frame, schema};
use schema_table::SchemaTable;
use std::alloc::{AllocError, Global};
use std::process::Abort;
use std::test::Fail;

const SPECIFICATION: &str =
    "{'name':'n','ifcVersion':[],'applicability':{'minOccurs':'0','maxOccurs':'0','facets':[]},'requirements':[]}";

/// Adds the piece so many times, with commas between.
fn push_repeated(out: &mut String, piece: &str, times: usize) -> Result<(), AllocError> {
    for at in 0..times {
        if at > 0 {
            out.push(',')?;
        }
        out.push_str(piece)?;
    }
    Ok(())
}

/// The piece so many times, with commas between.
fn repeated(alloc: Global, piece: &str, times: usize) -> Result<String, AllocError> {
    let mut text = String::new(alloc);
    push_repeated(&mut text, piece, times)?;
    Ok(text)
}

/// A restriction of so many enumerations and patterns, as a condition.
fn restriction(alloc: Global, enumerations: usize, patterns: usize) -> Result<String, AllocError> {
    let mut text = String::from_str(alloc, "{'restriction':{'base':'xs:string','enumeration':[")?;
    push_repeated(&mut text, "'a'", enumerations)?;
    text.push_str("],'pattern':[")?;
    push_repeated(&mut text, "'b'", patterns)?;
    text.push_str("]}}")?;
    Ok(text)
}

/// Arrays within one another.
fn nested(alloc: Global, depth: usize) -> Result<String, AllocError> {
    let mut text = String::from_str(alloc, "{'specifications':[],'info':")?;
    for _ in 0..depth {
        text.push('[')?;
    }
    for _ in 0..depth {
        text.push(']')?;
    }
    text.push('}')?;
    Ok(text)
}

/// Compares what is answered for the piece in its frame.
fn check<R: Abort>(
    rt: &R,
    alloc: Global,
    schema: &SchemaTable,
    name: &str,
    piece: &str,
    want: &str,
) -> Result<(), Fail> {
    let text = document(alloc, frame(name), piece)?;
    let found = answer(alloc, schema, text.as_str())?;
    assert_eq!(rt; found.as_str(), want);
    Ok(())
}

/// Lists of specifications and of facets.
fn check_lists<R: Abort>(rt: &R, alloc: Global, schema: &SchemaTable) -> Result<(), Fail> {
    for (frame, piece, times, want) in [
        ("specification", SPECIFICATION, 1000, "read"),
        ("specification", SPECIFICATION, 1001, "0 0 TooMany"),
        ("specification", "1", 1001, "0 0 TooMany"),
        ("applicable", "{'facet':'material'}", 64, "read"),
        ("applicable", "{'facet':'material'}", 65, "1 0 TooMany"),
        ("required", "{'facet':'material'}", 64, "read"),
        ("required", "1", 65, "1 0 TooMany"),
    ] {
        let piece = repeated(alloc, piece, times)?;
        check(rt, alloc, schema, frame, piece.as_str(), want)?;
    }
    Ok(())
}

/// Enumerations and patterns of one restriction.
fn check_texts<R: Abort>(rt: &R, alloc: Global, schema: &SchemaTable) -> Result<(), Fail> {
    for (enumerations, patterns, want) in [
        (1000, 0, "read"),
        (1001, 0, "1 1 TooMany"),
        (600, 400, "read"),
        (600, 401, "1 1 TooMany"),
        (0, 1001, "1 1 TooMany"),
    ] {
        let piece = restriction(alloc, enumerations, patterns)?;
        check(rt, alloc, schema, "condition", piece.as_str(), want)?;
    }
    Ok(())
}

/// Arrays and objects within one another, of which `serde_json` reads 127.
fn check_nesting<R: Abort>(rt: &R, alloc: Global, schema: &SchemaTable) -> Result<(), Fail> {
    for (depth, want) in [(126, "read"), (127, "0 0 Json"), (200_000, "0 0 Json")] {
        let text = nested(alloc, depth)?;
        check(rt, alloc, schema, "whole", text.as_str(), want)?;
    }
    Ok(())
}

/// What is within the limits is read, and one more is refused.
#[test]
fn limits_are_kept(rt: HostRuntime) -> Result<(), Fail> {
    let schema = schema(rt.alloc())?;
    check_lists(&rt, rt.alloc(), &schema)?;
    check_texts(&rt, rt.alloc(), &schema)?;
    check_nesting(&rt, rt.alloc(), &schema)
}

/// Of a document each proper beginning is no JSON.
#[test]
fn cut_documents_are_no_json(rt: HostRuntime) -> Result<(), Fail> {
    let alloc = rt.alloc();
    let schema = schema(alloc)?;
    let whole = document(alloc, frame("required"), "{'facet':'material'}")?;
    assert_eq!(rt; answer(alloc, &schema, whole.as_str())?.as_str(), "read");
    for end in 0..whole.len() {
        let cut = whole.as_str().get(..end).unwrap_or("");
        assert_eq!(rt; answer(alloc, &schema, cut)?.as_str(), "0 0 Json");
    }
    Ok(())
}
