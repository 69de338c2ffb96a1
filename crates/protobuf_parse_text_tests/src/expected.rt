//! What can stand behind fronts of files, worked out by hand from the grammar.

use protobuf_parse_expected::{Verdict, verdicts};
use std::alloc::{AllocError, Global};
use std::test::Fail;

/// `+;` where it can, `-;` where it never can, `?;` where neither was found; each in order.
fn told(alloc: Global, front: &str, tokens: &[&str]) -> Result<String, AllocError> {
    let mut text = String::new(alloc);
    for (token, verdict) in tokens.iter().zip(&verdicts(alloc, front, tokens)?) {
        let sign = match verdict {
            Verdict::Can => "+",
            Verdict::Never => "-",
            Verdict::Unsure => "?",
        };
        write!(text, "{sign}{token} ")?;
    }
    Ok(text)
}

const TOKENS: [&str; 12] = [
    ";",
    "{",
    "}",
    "[",
    "(",
    "=",
    ".",
    "1",
    "x",
    "X",
    "\"proto3\"",
    "message",
];

#[test]
fn tells_what_files_begin_with(rt: HostRuntime) -> Result<(), Fail> {
    let want = "+; -{ -} -[ -( -= -. -1 -x -X -\"proto3\" +message ";
    assert_eq!(rt; told(rt.alloc(), "", &TOKENS)?.as_str(), want);
    let front = "syntax = \"proto3\"; // a comment";
    assert_eq!(rt; told(rt.alloc(), front, &TOKENS)?.as_str(), want);
    Ok(())
}

#[test]
fn tells_what_goes_on(rt: HostRuntime) -> Result<(), Fail> {
    let front = "syntax = \"proto3\"; message A { message B { int32 a";
    let want = "-; -{ -} -[ -( += -. -1 -x -X -\"proto3\" -message ";
    assert_eq!(rt; told(rt.alloc(), front, &TOKENS)?.as_str(), want);
    let front = "syntax = \"proto3\"; message A { oneof o { int32 a = ";
    let want = "-; -{ -} -[ -( -= -. +1 -x -X -\"proto3\" -message ";
    assert_eq!(rt; told(rt.alloc(), front, &TOKENS)?.as_str(), want);
    let front = "message A { repeated group";
    let want = "-; -{ -} -[ -( -= -. -1 -x +X -\"proto3\" -message ";
    assert_eq!(rt; told(rt.alloc(), front, &TOKENS)?.as_str(), want);
    Ok(())
}

#[test]
fn tells_that_nothing_mends_a_fault(rt: HostRuntime) -> Result<(), Fail> {
    let want = "-; -{ -} -[ -( -= -. -1 -x -X -\"proto3\" -message ";
    assert_eq!(rt; told(rt.alloc(), "message A { = ", &TOKENS)?.as_str(), want);
    let want = "?; ?{ ?} ?[ ?( ?= ?. ?1 ?x ?X ?\"proto3\" ?message ";
    assert_eq!(rt;
        told(rt.alloc(), "message A { \" ", &TOKENS)?.as_str(),
        want
    );
    Ok(())
}
