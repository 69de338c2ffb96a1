//! What is told of texts, worked out by hand from the rules: a line for each violation.

use protobuf_parse_syntax::parse_file;
use protobuf_parse_text_rules::text_violations;
use std::alloc::{AllocError, Global};
use std::test::Fail;

/// `2:3: T1: the option is set already: deprecated`, a line for each.
fn told(alloc: Global, text: &str) -> Result<String, AllocError> {
    let mut lines = String::new(alloc);
    match parse_file(alloc, text) {
        Ok(tree) => {
            for violation in &text_violations(alloc, text, &tree)? {
                write!(lines, "{violation}\n")?;
            }
        }
        Err(_) => write!(lines, "no tree\n")?,
    }
    Ok(lines)
}

#[test]
fn tells_nothing_of_what_protoc_takes(rt: HostRuntime) -> Result<(), Fail> {
    let text = "syntax = \"proto2\";\npackage p;\nimport \"a.proto\";\noption deprecated = true;\n\
        option java_package = \"p\";\noption (a) = 1;\noption (a) = 2;\n\
        message M {\n  option (o) = { l: [1, -2] s: \"[\" [p.e]: 3 };\n\
        optional int32 a = 1 [deprecated = true, json_name = \"x\", (q) = \"a\"];\n\
        map<int32, M> m = 2;\n  extensions 5, 7 to 9, 100 to max;\n  ;\n\
        oneof o { int32 b = 3; }\n  optional group G = 4 { optional int32 c = 1; }\n}\n\
        enum E { A = 0; B = -1 [(v) = { x: [1] }];; C = 0x7; reserved 5; }\n\
        extend M { optional int32 d = 5; }\n\
        service S { rpc stream (stream M) returns (stream M); rpc F(M) returns (M) {} }\n";
    assert_eq!(rt; told(rt.alloc(), text)?.as_str(), "");
    Ok(())
}

#[test]
fn tells_options_that_are_set_twice(rt: HostRuntime) -> Result<(), Fail> {
    let text = "syntax = \"proto2\";\noption java_package = \"a\";\nmessage M {\n\
        option deprecated = true;\n  optional int32 a = 1 [default = 1, default = 2, (x) = 1];\n\
        option deprecated = false;\n  oneof o { option (x) = 1; option (x) = 2; int32 b = 2; }\n}\n\
        option java_package = \"b\";\n\
        enum E { option deprecated = true; A = 0 [deprecated = true, deprecated = true]; }\n\
        service S {\n  rpc F(M) returns (M) {\n    option deprecated = true;\n\
        option deprecated = true;\n  }\n}\n";
    let want = "9:8: T1: the option is set already: java_package\n\
        6:8: T1: the option is set already: deprecated\n\
        5:38: T1: the option is set already: default\n\
        10:62: T1: the option is set already: deprecated\n\
        14:8: T1: the option is set already: deprecated\n";
    assert_eq!(rt; told(rt.alloc(), text)?.as_str(), want);
    Ok(())
}

#[test]
fn tells_values_of_options(rt: HostRuntime) -> Result<(), Fail> {
    let text = "syntax = \"proto2\";\noption (a) = [1, 2];\noption (b) = +1;\n\
        option (c) = { x { [.p.e]: 1 } };\noption (d) = { l: [{ [p.e]: +2 }] };\n\
        extend M { optional int32 a = 1 [json_name = \"x\", (o) = []]; }\n";
    let want = "3:14: T3: a number has no `+` before it\n\
        5:29: T3: a number has no `+` before it\n\
        2:8: T2: the value of an option cannot be a list; set the option once for each item\n\
        4:8: T4: the name of an extension in a message constant has no dot before it\n\
        6:34: T7: an extension cannot have a `json_name`\n\
        6:51: T2: the value of an option cannot be a list; set the option once for each item\n";
    assert_eq!(rt; told(rt.alloc(), text)?.as_str(), want);
    Ok(())
}

#[test]
fn tells_statements(rt: HostRuntime) -> Result<(), Fail> {
    let text = "syntax = \"proto2\";\npackage a;\npackage b;\nmessage M {\n\
        repeated map<int32, int32> m = 1;\n  extensions 5 to max\n\
        message N {\n    option map_entry = true;\n    optional group G = 1 {\n\
        optional int32 x = 1 [deprecated = true, deprecated = true];\n    }\n  }\n\
        extend M {\n  }\n}\nenum E {\n  A = -1\n  B = 2 [(o) = { [p.e]: [1] }]\n  C = 3;\n}\n\
        enum F { G = 1 }\nextend a.M {}\nservice S {\n  stream F(M, M);\n}\n";
    let want = "3:1: T5: a file can have one `package` statement alone: b\n\
        5:1: T6: a map cannot have a label: m\n7:1: T10: a `;` is missing here\n\
        8:12: T8: `map_entry` cannot be set; write `map<KEY, VALUE>` in its stead\n\
        10:42: T1: the option is set already: deprecated\n\
        14:3: T9: an `extend` must have a field: M\n18:3: T10: a `;` is missing here: A\n\
        19:3: T10: a `;` is missing here: B\n21:16: T10: a `;` is missing here: G\n\
        22:13: T9: an `extend` must have a field: a.M\n\
        24:3: T11: a method begins with `rpc`; `stream` stands before a type: F\n";
    assert_eq!(rt; told(rt.alloc(), text)?.as_str(), want);
    Ok(())
}

#[test]
fn tells_that_no_version_is_told(rt: HostRuntime) -> Result<(), Fail> {
    let want = "T19: no `syntax` statement begins the file, so it is proto2";
    let text = format!(in rt.alloc(); "1:1: {want}\n")?;
    assert_eq!(rt; told(rt.alloc(), "")?.as_str(), text.as_str());
    let text = format!(in rt.alloc(); "2:1: {want}\n")?;
    assert_eq!(rt;
        told(rt.alloc(), "// A\nmessage A {}\n")?.as_str(),
        text.as_str()
    );
    Ok(())
}

#[test]
fn tells_semicolons_alone(rt: HostRuntime) -> Result<(), Fail> {
    let text = "syntax = \"proto2\";\nmessage M {\n  oneof o {\n    ;\n    int32 a = 1;;\n\
        option (x) = { a: { b: 1; } };\n    group G = 2 { ; optional int32 b = 1;; };\n  }\n  ;\n\
        oneof p { int32 c = 3 [(x) = { a: 1; }]; }\n  extend M { ; }\n}\n\
        extend a.M {\n  optional int32 d = 5;\n  ;\n}\n;\n";
    let alone = "T12: a `;` cannot stand alone in a oneof or in an `extend`";
    let mut want = String::new(rt.alloc());
    write!(
        want,
        "4:5: {alone}: o\n5:17: {alone}: o\n7:45: {alone}: o\n11:14: {alone}: M\n"
    )?;
    write!(
        want,
        "11:16: T9: an `extend` must have a field: M\n15:3: {alone}: a.M\n"
    )?;
    assert_eq!(rt; told(rt.alloc(), text)?.as_str(), want.as_str());
    Ok(())
}

#[test]
fn tells_nothing_of_what_is_no_text(rt: HostRuntime) -> Result<(), Fail> {
    let tree = match parse_file(rt.alloc(), "message A { int32 a = 1; }") {
        Ok(tree) => tree,
        Err(_) => parse_file(rt.alloc(), "")?,
    };
    assert_eq!(rt; text_violations(rt.alloc(), "\"", &tree)?.len(), 0);
    Ok(())
}
