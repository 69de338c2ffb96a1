//! Whose comments are, by the examples that `protoc` 3.21.12 answers so.

use protobuf_parse_comments::{BytePlace, Comments, Gap, comments, place_after};
use std::alloc::{AllocError, Global};
use std::test::Fail;

/// A comment with its line feeds as `|`.
fn shown(text: &mut String, comment: &[u8]) -> Result<(), AllocError> {
    for byte in comment {
        text.push(if *byte == b'\n' {
            '|'
        } else {
            char::from(*byte)
        })?;
    }
    Ok(())
}

/// `trailing [detached] [detached] leading`, a `-` for none.
fn told(alloc: Global, bytes: &str, is_first: bool, is_closed: bool) -> Result<String, AllocError> {
    let gap = Gap {
        bytes: bytes.as_bytes(),
        is_first,
        is_closed,
    };
    let Comments {
        trailing,
        detached,
        leading,
    } = comments(alloc, gap)?;
    let mut text = String::new(alloc);
    shown(&mut text, trailing.as_deref().unwrap_or(b"-"))?;
    for comment in &detached {
        text.push_str(" [")?;
        shown(&mut text, comment)?;
        text.push_str("]")?;
    }
    text.push_str(" / ")?;
    shown(&mut text, leading.as_deref().unwrap_or(b"-"))?;
    Ok(text)
}

#[test]
fn divides_what_stands_behind_a_token(rt: HostRuntime) -> Result<(), Fail> {
    let rows = [
        ("", "- / -"),
        (" \t ", "- / -"),
        ("\n", "- / -"),
        // On the token's line.
        (" // a\n", " a| / -"),
        (" /* a */\n", " a  / -"),
        (" // a\n// b\n", " a| /  b|"),
        (" // a\n\n// b\n\n// c\n", " a| [ b|] /  c|"),
        // Below it, closed or not.
        ("\n// a\n", "- /  a|"),
        ("\n// a\n\n", " a| / -"),
        ("\n// a\n// b\n\n", " a| b| / -"),
        ("\n// a\n/* b */\n", " a| /  b "),
        ("\n\n// a\n\n", "- [ a|] / -"),
        (
            "\n\n// a\n\n// b\n\n/* c */ // d\n",
            "- [ a|] [ b|] [ c ] /  d|",
        ),
        // A block comment on the line, and more: nobody's.
        (" /* a */ // b\n// c\n", "- / -"),
        (" /* a */ ", "- / -"),
        (" /* a */ /* b */\n", "- / -"),
        ("\n/**/\n", "- / "),
    ];
    for (gap, want) in rows {
        assert_eq!(rt;
            told(rt.alloc(), gap, false, false)?.as_str(),
            want,
            "{gap:?}"
        );
    }
    Ok(())
}

#[test]
fn divides_what_stands_at_the_front(rt: HostRuntime) -> Result<(), Fail> {
    let rows = [
        ("// a\n", "- /  a|"),
        ("// a\n\n", "- [ a|] / -"),
        ("/* a */ /* b */", "- [ a ] /  b "),
        ("\n// a\n\n// b\n", "- [ a|] /  b|"),
    ];
    for (gap, want) in rows {
        assert_eq!(rt;
            told(rt.alloc(), gap, true, false)?.as_str(),
            want,
            "{gap:?}"
        );
    }
    Ok(())
}

#[test]
fn closes_what_stands_before_a_brace(rt: HostRuntime) -> Result<(), Fail> {
    let rows = [
        ("\n// a\n", " a| / -"),
        ("\n\n// a\n", "- [ a|] / -"),
        ("\n// a\n// b\n/* c */", " a| b| [ c ] / -"),
        (" // a\n", " a| / -"),
    ];
    for (gap, want) in rows {
        assert_eq!(rt;
            told(rt.alloc(), gap, false, true)?.as_str(),
            want,
            "{gap:?}"
        );
    }
    Ok(())
}

#[test]
fn leaves_out_fronts_of_lines(rt: HostRuntime) -> Result<(), Fail> {
    let rows = [
        ("/* a\n   * b\n *c\n\t d */", "- /  a| b|c|d "),
        ("/** a\n ** b */", "- / * a|* b "),
        ("// a\r\n", "- /  a\r|"),
        ("// a", "- /  a"),
    ];
    for (gap, want) in rows {
        assert_eq!(rt;
            told(rt.alloc(), gap, true, false)?.as_str(),
            want,
            "{gap:?}"
        );
    }
    Ok(())
}

#[test]
fn counts_bytes(rt: HostRuntime) {
    let start = BytePlace { line: 0, column: 0 };
    let rows: [(&str, u64, u64); 6] = [
        ("", 0, 0),
        ("ab", 0, 2),
        ("a\tb", 0, 9),
        ("\t\t", 0, 16),
        ("a\n\u{e9}", 1, 2),
        ("\u{feff}", 0, 3),
    ];
    for (text, line, column) in rows {
        assert_eq!(rt;
            place_after(start, text.as_bytes()),
            BytePlace { line, column },
            "{text:?}"
        );
    }
}
