//! Cycles of imports.

use crate::shelf::told;
use std::test::Fail;

const CIRCLE: &[(&str, &str)] = &[
    (
        "a.proto",
        "import 'b.proto';\nmessage A { optional B b = 1; optional Lost l = 2; }",
    ),
    (
        "b.proto",
        "import 'c.proto';\nmessage B { optional C c = 1; optional int32 c = 2; }",
    ),
    (
        "c.proto",
        "import 'side.proto';\nimport 'a.proto';\n\
        message C { optional A a = 1; optional Side s = 2; optional int32 s = 3; }",
    ),
    ("side.proto", "message Side {}"),
    (
        "above.proto",
        "import 'c.proto';\nmessage Above { optional C c = 1; optional D d = 2; }",
    ),
];

/// The statement is told that closes the cycle from where the walk began. The rest is checked as
/// if that statement were absent.
#[test]
fn tells_the_statement_that_closes_a_cycle(rt: HostRuntime) -> Result<(), Fail> {
    let lines = told(rt.alloc(), CIRCLE, &["a.proto", "above.proto", "b.proto"])?;
    let want = "c.proto:2:1 leaves a.proto: a cycle\n\
        side.proto Sound\n\
        c.proto Faulty\n  \
        3:52 E1 DuplicateName: s\n\
        b.proto Faulty\n  \
        2:31 E1 DuplicateName: c\n\
        a.proto Faulty\n  \
        2:31 E3 NotFoundByRelPath: Lost\n\
        above.proto Faulty\n  \
        2:35 E3 NotFoundByRelPath: D\n";
    assert_eq!(rt; lines.as_str(), want);
    Ok(())
}

/// From another input another statement closes it, and other names are hidden.
#[test]
fn tells_another_statement_from_another_input(rt: HostRuntime) -> Result<(), Fail> {
    let lines = told(rt.alloc(), CIRCLE, &["b.proto", "a.proto"])?;
    let want = "a.proto:1:1 leaves b.proto: a cycle\n\
        side.proto Sound\n\
        a.proto Faulty\n\
        c.proto Faulty\n  \
        3:52 E1 DuplicateName: s\n\
        b.proto Faulty\n  \
        2:31 E1 DuplicateName: c\n";
    assert_eq!(rt; lines.as_str(), want);
    Ok(())
}

const KNOT: &[(&str, &str)] = &[
    (
        "x.proto",
        "import 'y.proto';\nimport public 'lost.proto';\nimport 'x.proto';\nmessage X {}",
    ),
    (
        "y.proto",
        "import 'lost.proto';\nimport 'x.proto';\nimport 'z.proto';\nmessage Y {}",
    ),
    (
        "z.proto",
        "import 'y.proto';\nimport 'x.proto';\nmessage Z { optional X x = 1; }",
    ),
];

/// Several cycles, and a missing file in them: each statement is told once.
#[test]
fn tells_missing_files_in_cycles(rt: HostRuntime) -> Result<(), Fail> {
    let lines = told(rt.alloc(), KNOT, &["x.proto", "z.proto"])?;
    let lost = "protobuf path `lost.proto` is not found in import path a shelf";
    let want = format!(in rt.alloc();
        "y.proto:1:1 leaves lost.proto: {lost}\n\
        y.proto:2:1 leaves x.proto: a cycle\n\
        z.proto:1:1 leaves y.proto: a cycle\n\
        z.proto:2:1 leaves x.proto: a cycle\n\
        x.proto:2:1 leaves lost.proto: {lost}\n\
        x.proto:3:1 leaves x.proto: a cycle\n\
        z.proto Faulty\n\
        y.proto Faulty\n\
        x.proto Faulty\n"
    )?;
    assert_eq!(rt; lines, want);
    Ok(())
}
