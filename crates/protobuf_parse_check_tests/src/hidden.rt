//! Names that aren't found, where a file that may declare them is missing, and where none is.

use crate::shelf::told;
use std::test::Fail;

const LOST: &str = "protobuf path `lost.proto` is not found in import path a shelf";

/// The fields of a message whose types nothing declares, and two of one name.
const NAMES: &str = "message M { optional Lost a = 1; optional .p.Lost b = 2; \
    optional int32 a = 3; }";

const OWN: &[(&str, &str)] = &[
    (
        "main.proto",
        "import 'lost.proto';\n\
        message M { optional Lost a = 1; optional .p.Lost b = 2; optional int32 a = 3; }",
    ),
    (
        "whole.proto",
        "import 'main.proto';\n\
        message N { optional Lost a = 1; optional .p.Lost b = 2; optional int32 a = 3; }",
    ),
];

/// E2 and E3 are hidden in a file whose import is told, and E1 is not. A file above it sees no more
/// than it imports: there they are told.
#[test]
fn hides_names_where_an_import_is_told(rt: HostRuntime) -> Result<(), Fail> {
    let lines = told(rt.alloc(), OWN, &["whole.proto"])?;
    let want = format!(in rt.alloc();
        "main.proto:1:1 leaves lost.proto: {LOST}\n\
        main.proto Faulty\n  \
        2:58 E1 DuplicateName: a\n\
        whole.proto Faulty\n  \
        2:13 E3 NotFoundByRelPath: Lost\n  \
        2:34 E2 NotFoundByAbsPath: .p.Lost\n  \
        2:58 E1 DuplicateName: a\n"
    )?;
    assert_eq!(rt; lines, want);
    Ok(())
}

const HANDED_ON: &[(&str, &str)] = &[
    ("hub.proto", "import public 'lost.proto';\nmessage Hub {}"),
    (
        "near.proto",
        "import 'hub.proto';\nmessage Near { optional Lost a = 1; optional Hub h = 2; }",
    ),
    (
        "again.proto",
        "import public 'hub.proto';\nmessage Again { optional .p.Lost a = 1; }",
    ),
    (
        "far.proto",
        "import 'again.proto';\nmessage Far { optional Lost a = 1; optional Hub h = 2; }",
    ),
    (
        "behind.proto",
        "import 'near.proto';\nmessage Behind { optional Lost a = 1; optional Near n = 2; }",
    ),
];

/// A public import that is told hides them in each file that sees the file in which it stands, and
/// in no file that only reaches it.
#[test]
fn hides_names_where_a_public_import_is_told(rt: HostRuntime) -> Result<(), Fail> {
    let lines = told(rt.alloc(), HANDED_ON, &["behind.proto", "far.proto"])?;
    let want = format!(in rt.alloc();
        "hub.proto:1:1 leaves lost.proto: {LOST}\n\
        hub.proto Faulty\n\
        near.proto HeldUp\n\
        behind.proto Faulty\n  \
        2:18 E3 NotFoundByRelPath: Lost\n\
        again.proto HeldUp\n\
        far.proto HeldUp\n"
    )?;
    assert_eq!(rt; lines, want);
    Ok(())
}

const KEPT: &[(&str, &str)] = &[
    ("hub.proto", "import weak 'lost.proto';\nmessage Hub {}"),
    (
        "near.proto",
        "import public 'hub.proto';\nmessage Near { optional Lost a = 1; optional Hub h = 2; }",
    ),
];

/// An import that isn't public and is told hides nothing but in its own file.
#[test]
fn hides_no_names_above_an_import_that_is_not_public(rt: HostRuntime) -> Result<(), Fail> {
    let lines = told(rt.alloc(), KEPT, &["near.proto"])?;
    let want = format!(in rt.alloc();
        "hub.proto:1:1 leaves lost.proto: {LOST}\n\
        hub.proto Faulty\n\
        near.proto Faulty\n  \
        2:16 E3 NotFoundByRelPath: Lost\n"
    )?;
    assert_eq!(rt; lines, want);
    Ok(())
}

/// An import that closes a cycle is told, so it hides them too.
#[test]
fn hides_names_where_an_import_closes_a_cycle(rt: HostRuntime) -> Result<(), Fail> {
    let text = format!(in rt.alloc(); "import 'main.proto';\n{NAMES}")?;
    let lines = told(
        rt.alloc(),
        &[("main.proto", text.as_str())],
        &["main.proto"],
    )?;
    let want = "main.proto:1:1 leaves main.proto: a cycle\n\
        main.proto Faulty\n  \
        2:58 E1 DuplicateName: a\n";
    assert_eq!(rt; lines.as_str(), want);
    Ok(())
}
