//! What is told of texts, by what `protoc` 3.21.12 refuses in them.

mod declared;

use declared::files_declared;
use protobuf_parse_index::Index;
use protobuf_parse_name_rules::{NameFiles, name_violations};
use protobuf_parse_syntax::parse_file;
use std::alloc::Global;
use std::test::Fail;

/// `2:3: T13: ..`, a line for each, where these files are seen.
fn told_where(alloc: Global, seen: &[&str], text: &str) -> Result<String, Fail> {
    let declared = files_declared(alloc)?;
    let index = Index::of(alloc, &declared)?;
    let files = NameFiles {
        index: &index,
        seen,
    };
    let tree = parse_file(alloc, text)?;
    let mut lines = String::new(alloc);
    for violation in &name_violations(alloc, &files, &tree)? {
        write!(lines, "{violation}\n")?;
    }
    Ok(lines)
}

/// The same where `rules.proto` and `t.proto` are seen.
fn told(alloc: Global, text: &str) -> Result<String, Fail> {
    told_where(alloc, &["t.proto", "rules.proto"], text)
}

#[test]
fn tells_nothing_of_what_protoc_takes(rt: HostRuntime) -> Result<(), Fail> {
    let text = "syntax = \"proto2\";\npackage p.q;\n\
        option (foo) = { a: 1 b: 2 r: [1, 2] r: 3 f { a: 1 } x: 1 [p.ext]: 1 };\n\
        option (foo).(rext) = 1;\noption (rep) = { a: 1 };\noption (rep) = { a: 2 };\n\
        option (req) = { q: 1 };\noption (nums) = 1;\noption (p.nums) = 2;\n\
        option (unknown) = { a: 1 a: 2 };\noption deprecated = true;\n";
    assert_eq!(rt; told(rt.alloc(), text)?.as_str(), "");
    Ok(())
}

#[test]
fn tells_names_that_are_resolved_inside(rt: HostRuntime) -> Result<(), Fail> {
    let text = "syntax = \"proto2\";\npackage a.b;\nmessage M { message X {} }\n\
        message N {\n  message M {}\n  optional M.X f = 1;\n  map<string, M.X> m = 2;\n\
        optional .a.b.M.X g = 3;\n  optional int32 h = 4;\n  oneof o { M.X i = 5; }\n\
        extend M.X { optional M.X e = 6; }\n  optional M j = 7;\n}\n\
        service S { rpc F (F) returns (N.X); rpc G (M.X) returns (M); }\n";
    let rule = "T13: the innermost scope that has the first part of the name hasn't the rest";
    let mut want = String::new(rt.alloc());
    for (place, name) in &[
        ("6:3", "M.X"),
        ("7:3", "M.X"),
        ("10:13", "M.X"),
        ("11:1", "M.X"),
        ("11:14", "M.X"),
        ("14:13", "F"),
        ("14:13", "N.X"),
    ] {
        write!(want, "{place}: {rule}: {name}\n")?;
    }
    assert_eq!(rt; told(rt.alloc(), text)?.as_str(), want.as_str());
    Ok(())
}

#[test]
fn looks_up_what_is_seen(rt: HostRuntime) -> Result<(), Fail> {
    let text = "syntax = \"proto2\";\npackage a.b.q;\nmessage O { optional M.X f = 1; }\n";
    assert_eq!(rt; told_where(rt.alloc(), &["t.proto"], text)?.as_str(), "");
    let want = "3:13: T13: the innermost scope that has the first part of the name hasn't the \
        rest: M.X\n";
    let seen = told_where(rt.alloc(), &["t.proto", "other.proto"], text)?;
    assert_eq!(rt; seen.as_str(), want);
    let text = "syntax = \"proto2\";\npackage a;\nmessage O { optional b.M.X f = 1; }\n";
    assert_eq!(rt; told_where(rt.alloc(), &["t.proto"], text)?.as_str(), "");
    assert_eq!(rt;
        told_where(rt.alloc(), &["rules.proto"], text)?.as_str(),
        ""
    );
    let want = "3:13: T13: the innermost scope that has the first part of the name hasn't the \
        rest: b.M.X\n";
    assert_eq!(rt;
        told_where(rt.alloc(), &["other.proto"], text)?.as_str(),
        want
    );
    Ok(())
}

#[test]
fn tells_what_is_wrong_with_constants(rt: HostRuntime) -> Result<(), Fail> {
    let text = "syntax = \"proto2\";\npackage p.q;\n\
        option (foo) = { a: 1 a: 2 x: 1 y: 2 [p.ext]: 1 [.p.ext]: 2 };\n\
        option (rep) = { a: [1] f: [{ b: 1 b: 2 }] rf: [{ a: 1 a: 1 }] r: [1] };\n\
        option (req) = { z: 1 };\noption (rep) = { req { z: 1 } lost { a: 1 a: 2 } };\n";
    let want = "3:8: T15: the field of the message constant is set already: a\n\
        3:8: T17: another field of the oneof is set already: y\n\
        3:8: T15: the field of the message constant is set already: .p.ext\n\
        4:8: T16: a field that is not repeated cannot have a list: a\n\
        4:8: T16: a field that is not repeated cannot have a list: f\n\
        4:8: T15: the field of the message constant is set already: b\n\
        4:8: T15: the field of the message constant is set already: a\n\
        5:8: T18: the message constant lacks a required field: q\n\
        6:8: T18: the message constant lacks a required field: q\n";
    assert_eq!(rt; told(rt.alloc(), text)?.as_str(), want);
    Ok(())
}

#[test]
fn tells_custom_options_that_are_set_again(rt: HostRuntime) -> Result<(), Fail> {
    let text = "syntax = \"proto2\";\npackage p.q;\n\
        option (foo) = { a: 1 f { a: 1 } };\noption (foo).b = 1;\noption (foo).a = 1;\n\
        option (foo).f.b = 1;\noption (foo).f.a = 1;\noption (foo).f = { b: 1 };\n\
        option (foo).r = 1;\noption (foo).r = 2;\noption (num) = 1;\noption (p.num) = 2;\n\
        option (foo) = { b: 2 };\n";
    let want = "5:8: T14: the custom option is set already: (foo).a\n\
        7:8: T14: the custom option is set already: (foo).f.a\n\
        8:8: T14: the custom option is set already: (foo).f\n\
        12:8: T14: the custom option is set already: (p.num)\n\
        13:8: T14: the custom option is set already: (foo)\n";
    assert_eq!(rt; told(rt.alloc(), text)?.as_str(), want);
    Ok(())
}
