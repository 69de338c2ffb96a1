//! What is told of texts with several faults, worked out by hand from the rules.

use protobuf_parse_recovery::{Reading, mask, parse_faults, read_on};
use protobuf_parse_syntax::ParserErrorWithLocation;
use std::alloc::{AllocError, Global};
use std::test::Fail;

/// A line for each fault: `2:3 S8 IncorrectInput`.
fn told(alloc: Global, text: &str) -> Result<String, AllocError> {
    let mut lines = String::new(alloc);
    for ParserErrorWithLocation { error, line, col } in &parse_faults(alloc, text)? {
        write!(lines, "{line}:{col} {error}\n")?;
    }
    Ok(lines)
}

#[test]
fn tells_nothing_of_a_tree(rt: HostRuntime) -> Result<(), Fail> {
    for text in ["", "syntax = \"proto3\"; message A { int32 a = 1; }", ";;"] {
        assert_eq!(rt; told(rt.alloc(), text)?.as_str(), "");
    }
    Ok(())
}

#[test]
fn tells_a_fault_of_each_statement(rt: HostRuntime) -> Result<(), Fail> {
    let text = "syntax = \"proto3\";\nmessage A {\n  int32 a = ;\n  int32 b = 1\n  string c = 2;\n\
        }\nmessage B {\n  bogus\n}\nmessage C { int32 d = 1; }\n";
    let want = "3:13 S8 IncorrectInput\n5:3 S8 IncorrectInput\n9:1 S8 IncorrectInput\n";
    assert_eq!(rt; told(rt.alloc(), text)?.as_str(), want);
    Ok(())
}

#[test]
fn goes_on_behind_a_body(rt: HostRuntime) -> Result<(), Fail> {
    // The head of a message has no name, so its body goes with it, also what stands in it.
    let text = "message {\n  message A { optional int32 = 1; }\n}\nenum E { A = ; B = 2; }\n";
    let want = "1:9 S8 IncorrectInput\n4:14 S8 IncorrectInput\n";
    assert_eq!(rt; told(rt.alloc(), text)?.as_str(), want);
    Ok(())
}

#[test]
fn takes_the_braces_of_a_value(rt: HostRuntime) -> Result<(), Fail> {
    let text = "option (a) = { b: { c: } d: 1; };\nmessage {}\n";
    let want = "1:24 S9 ExpectConstant\n2:9 S8 IncorrectInput\n";
    assert_eq!(rt; told(rt.alloc(), text)?.as_str(), want);
    Ok(())
}

#[test]
fn takes_a_brace_that_closes_nothing(rt: HostRuntime) -> Result<(), Fail> {
    let text = "message A {} }\nmessage B { optional }\n";
    let want = "1:14 S8 IncorrectInput\n2:22 S8 IncorrectInput\n";
    assert_eq!(rt; told(rt.alloc(), text)?.as_str(), want);
    Ok(())
}

#[test]
fn tells_faults_of_tokens_first(rt: HostRuntime) -> Result<(), Fail> {
    let text = "message {}\nmessage A {\n  optional int32 a = 1; \u{a7}\n}\n/* open\n message {}";
    let want = "3:25 S1 UnexpectedCharacter\n5:1 S2 UnterminatedComment\n1:9 S8 IncorrectInput\n";
    assert_eq!(rt; told(rt.alloc(), text)?.as_str(), want);
    Ok(())
}

#[test]
fn goes_on_behind_what_is_no_token(rt: HostRuntime) -> Result<(), Fail> {
    let rows = [
        (
            "message M { \u{a7} }\nmessage {}",
            "1:13 S1 UnexpectedCharacter\n2:9 S8 IncorrectInput\n",
        ),
        (
            "message M { optional int32 a = 0x; }",
            "1:32 S4 BadNumber\n",
        ),
        (
            "import \"abc;\nmessage M { optional x }",
            "1:8 S3 UnterminatedString\n2:24 S8 IncorrectInput\n",
        ),
        (
            "syntax = \"proto3;\nmessage M { x }",
            "1:10 S3 UnterminatedString\n",
        ),
    ];
    for (text, want) in rows {
        assert_eq!(rt; told(rt.alloc(), text)?.as_str(), want);
    }
    Ok(())
}

#[test]
fn keeps_lines_and_columns(rt: HostRuntime) -> Result<(), Fail> {
    let text = "\u{feff}message /* \u{e4}\u{1f600} */ {} message A { optional x }\n";
    let want = "1:18 S8 IncorrectInput\n1:44 S8 IncorrectInput\n";
    assert_eq!(rt; told(rt.alloc(), text)?.as_str(), want);
    Ok(())
}

#[test]
fn ends_where_nothing_can_be_read_on(rt: HostRuntime) -> Result<(), Fail> {
    let rows = [
        (
            "message {}\nmessage A {",
            "1:9 S8 IncorrectInput\n2:12 S8 IncorrectInput\n",
        ),
        (
            "syntax = \"proto4\"; message {}",
            "1:10 S10 UnknownSyntax\n",
        ),
        ("syntax proto3; message {}", "1:8 S8 IncorrectInput\n"),
    ];
    for (text, want) in rows {
        assert_eq!(rt; told(rt.alloc(), text)?.as_str(), want);
    }
    Ok(())
}

#[test]
fn tells_at_most_twenty(rt: HostRuntime) -> Result<(), Fail> {
    let mut text = String::new(rt.alloc());
    let mut want = String::new(rt.alloc());
    for line in 1..26u32 {
        text.push_str("}\n")?;
        if line <= 20 {
            write!(want, "{line}:1 S8 IncorrectInput\n")?;
        }
    }
    assert_eq!(rt; told(rt.alloc(), &text)?.as_str(), want.as_str());
    Ok(())
}

#[test]
fn masks_characters(rt: HostRuntime) -> Result<(), Fail> {
    let masked = mask(rt.alloc(), "a \u{e9}\n;b", 2, 6)?;
    assert_eq!(rt; masked.as_deref(), Some("a  \n b"));
    assert_eq!(rt; mask(rt.alloc(), "\u{e9}", 1, 2)?, None);
    Ok(())
}

#[test]
fn leaves_what_is_right(rt: HostRuntime) -> Result<(), Fail> {
    let rows = [
        ("message A {}", Some("message A {}")),
        (
            "message A {\n  bogus\n}\nmessage B {}\n",
            Some("message A {\n       \n}\nmessage B {}\n"),
        ),
        ("message A {\n  optional int32 a = ;", None),
    ];
    for (text, want) in rows {
        let Reading { rest, faults: _ } = read_on(rt.alloc(), text)?;
        let left = match &rest {
            Some(rest) => Some(rest.text.as_str()),
            None => None,
        };
        assert_eq!(rt; left, want);
    }
    Ok(())
}
