//! Whole lists of locations, by what `protoc` 3.21.12 answers. An option has its name in its path.

mod constructs;

use protobuf_parse_source_info::{Location, Span, source_info};
use protobuf_parse_syntax::{ProtobufOptionName, ProtobufOptionNamePart, parse_file};
use std::alloc::{AllocError, Global};
use std::test::Fail;

/// A comment with its line feeds as `|`.
fn push_comment(text: &mut String, what: &str, comment: &[u8]) -> Result<(), AllocError> {
    text.push_str(what)?;
    text.push_str("='")?;
    for byte in comment {
        text.push(if *byte == b'\n' {
            '|'
        } else {
            char::from(*byte)
        })?;
    }
    text.push_str("'")
}

fn push_part(text: &mut String, part: &ProtobufOptionNamePart) -> Result<(), AllocError> {
    match part {
        ProtobufOptionNamePart::Direct(name) => text.push_str(name.as_str()),
        ProtobufOptionNamePart::Ext(name) => {
            text.push_str("(")?;
            text.push_str(name.as_str())?;
            text.push_str(")")
        }
    }
}

fn push_option(text: &mut String, name: &ProtobufOptionName) -> Result<(), AllocError> {
    match name {
        ProtobufOptionName::Builtin(name) => {
            text.push_str(", ")?;
            text.push_str(name.as_str())?;
        }
        ProtobufOptionName::Custom(parts) => {
            for part in parts {
                text.push_str(", ")?;
                push_part(text, part)?;
            }
        }
    }
    Ok(())
}

/// The numbers with commas between them.
fn push_numbers(alloc: Global, text: &mut String, numbers: &[u64]) -> Result<(), AllocError> {
    for (i, number) in numbers.iter().enumerate() {
        if i > 0 {
            text.push_str(", ")?;
        }
        text.push_str(number.to_string(alloc)?.as_str())?;
    }
    Ok(())
}

fn push_span(alloc: Global, text: &mut String, span: Span) -> Result<(), AllocError> {
    let Span { start, end } = span;
    if start.line == end.line {
        push_numbers(alloc, text, &[start.line, start.column, end.column])
    } else {
        push_numbers(
            alloc,
            text,
            &[start.line, start.column, end.line, end.column],
        )
    }
}

/// `[PATH] [SPAN]`, and the comments.
fn push_location(
    alloc: Global,
    text: &mut String,
    location: &Location<'_>,
) -> Result<(), AllocError> {
    let mut path = Vec::new(alloc);
    for number in &location.path {
        path.push(u64::from(*number))?;
    }
    text.push_str("[")?;
    push_numbers(alloc, text, &path)?;
    if let Some(name) = location.option {
        push_option(text, name)?;
    }
    text.push_str("] [")?;
    push_span(alloc, text, location.span)?;
    text.push_str("]")?;
    if let Some(comment) = &location.leading_comments {
        push_comment(text, " leading", comment)?;
    }
    if let Some(comment) = &location.trailing_comments {
        push_comment(text, " trailing", comment)?;
    }
    for comment in &location.leading_detached_comments {
        push_comment(text, " detached", comment)?;
    }
    text.push_str("\n")
}

/// The locations of the text, a line each.
fn told(alloc: Global, text: &str) -> Result<String, Fail> {
    let tree = parse_file(alloc, text)?;
    let info = source_info(alloc, text, &tree)?;
    let mut lines = String::new(alloc);
    for location in &info.location {
        push_location(alloc, &mut lines, location)?;
    }
    Ok(lines)
}

#[test]
fn places_count_bytes(rt: HostRuntime) -> Result<(), Fail> {
    let rows = [
        ("", "[] [0, 0, 0]\n"),
        (concat!("// c\n", "\n",), "[] [2, 0, 0, 0]\n"),
        ("  ;;", "[] [0, 2, 4]\n"),
        (
            concat!("\u{feff}package a;\n", "message M {}",),
            concat!(
                "[] [0, 3, 1, 12]\n",
                "[2] [0, 3, 13]\n",
                "[4, 0] [1, 0, 12]\n",
                "[4, 0, 1] [1, 8, 9]\n",
            ),
        ),
        (
            "package a; /* \u{e9} */\tmessage M {}",
            concat!(
                "[] [0, 0, 36]\n",
                "[2] [0, 0, 10]\n",
                "[4, 0] [0, 24, 36]\n",
                "[4, 0, 1] [0, 32, 33]\n",
            ),
        ),
    ];
    for (text, want) in rows {
        assert_eq!(rt; told(rt.alloc(), text)?.as_str(), want, "{text:?}");
    }
    Ok(())
}

#[test]
fn comments_belong_to_declarations(rt: HostRuntime) -> Result<(), Fail> {
    let rows = [
        (
            concat!(
                "// d\n",
                "\n",
                "// l\n",
                "message M { // t\n",
                " // lost, no: detached of nothing\n",
                "}\n",
                "// u\n",
            ),
            concat!(
                "[] [3, 0, 5, 1]\n",
                "[4, 0] [3, 0, 5, 1] leading=' l|' trailing=' t|' detached=' d|'\n",
                "[4, 0, 1] [3, 8, 9]\n",
            ),
        ),
        (
            concat!(
                "syntax = \"proto3\";\n",
                "message M {\n",
                "  int32 a = 1; // ta\n",
                "  // la\n",
                "  int32 b = 2;\n",
                "  // tb\n",
                "\n",
                "  // d1\n",
                "\n",
                "  /* d2 */\n",
                "  /* lc\n",
                "   * more */\n",
                "  int32 c = 3;\n",
                "  // tc, before a brace\n",
                "}\n",
            ),
            concat!(
                "[] [0, 0, 14, 1]\n",
                "[12] [0, 0, 18]\n",
                "[4, 0] [1, 0, 14, 1]\n",
                "[4, 0, 1] [1, 8, 9]\n",
                "[4, 0, 2, 0] [2, 2, 14] trailing=' ta|'\n",
                "[4, 0, 2, 0, 5] [2, 2, 7]\n",
                "[4, 0, 2, 0, 1] [2, 8, 9]\n",
                "[4, 0, 2, 0, 3] [2, 12, 13]\n",
                "[4, 0, 2, 1] [4, 2, 14] leading=' la|' trailing=' tb|'\n",
                "[4, 0, 2, 1, 5] [4, 2, 7]\n",
                "[4, 0, 2, 1, 1] [4, 8, 9]\n",
                "[4, 0, 2, 1, 3] [4, 12, 13]\n",
                "[4, 0, 2, 2] [12, 2, 14] leading=' lc| more ' \
                    trailing=' tc, before a brace|' detached=' d1|' detached=' d2 '\n",
                "[4, 0, 2, 2, 5] [12, 2, 7]\n",
                "[4, 0, 2, 2, 1] [12, 8, 9]\n",
                "[4, 0, 2, 2, 3] [12, 12, 13]\n",
            ),
        ),
        (
            concat!(
                "message A {} /* lost */ message B {} /* lost */ // lost\n",
                "// lost too\n",
                "message C {}",
            ),
            concat!(
                "[] [0, 0, 2, 12]\n",
                "[4, 0] [0, 0, 12]\n",
                "[4, 0, 1] [0, 8, 9]\n",
                "[4, 1] [0, 24, 36]\n",
                "[4, 1, 1] [0, 32, 33]\n",
                "[4, 2] [2, 0, 12]\n",
                "[4, 2, 1] [2, 8, 9]\n",
            ),
        ),
        (
            concat!(
                "message A {}\n",
                "\n",
                "// d1\n",
                "\n",
                "// lost: leading of the empty statement\n",
                ";\n",
                "// lost: trailing of it\n",
                "\n",
                "// d2\n",
                "\n",
                "// lost\n",
                ";\n",
                "\n",
                "// d3\n",
                "\n",
                "// l\n",
                "message B {}",
            ),
            concat!(
                "[] [0, 0, 16, 12]\n",
                "[4, 0] [0, 0, 12]\n",
                "[4, 0, 1] [0, 8, 9]\n",
                "[4, 1] [16, 0, 12] leading=' l|' detached=' d1|' detached=' d2|' \
                    detached=' d3|'\n",
                "[4, 1, 1] [16, 8, 9]\n",
            ),
        ),
        (
            concat!(
                "message A {\n",
                "\n",
                "  // lost: detached before a brace\n",
                "\n",
                "}\n",
                "// lost: trailing of the brace\n",
                "\n",
                "// d\n",
                "\n",
                "message B {}\n",
                "// lost: at the end\n",
            ),
            concat!(
                "[] [0, 0, 9, 12]\n",
                "[4, 0] [0, 0, 4, 1]\n",
                "[4, 0, 1] [0, 8, 9]\n",
                "[4, 1] [9, 0, 12] detached=' d|'\n",
                "[4, 1, 1] [9, 8, 9]\n",
            ),
        ),
        (
            concat!(
                "/*\n",
                " * a\n",
                " *  b\n",
                "\t** c\n",
                "   d\n",
                " */\n",
                "message M {}\n",
                "/**/\n",
                "message N {}\n",
                "/** x **/\n",
                "message O {}",
            ),
            concat!(
                "[] [6, 0, 10, 12]\n",
                "[4, 0] [6, 0, 12] leading='| a|  b|* c|d|'\n",
                "[4, 0, 1] [6, 8, 9]\n",
                "[4, 1] [8, 0, 12]\n",
                "[4, 1, 1] [8, 8, 9]\n",
                "[4, 2] [10, 0, 12] leading='* x *'\n",
                "[4, 2, 1] [10, 8, 9]\n",
            ),
        ),
    ];
    for (text, want) in rows {
        assert_eq!(rt; told(rt.alloc(), text)?.as_str(), want, "{text:?}");
    }
    Ok(())
}
