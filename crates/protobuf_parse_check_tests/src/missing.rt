//! Imports and inputs whose files can't be read or parsed.

use crate::shelf::{BYTES, LOCKED, told};
use std::test::Fail;

const UNREAD: &[(&str, &str)] = &[
    (
        "main.proto",
        "import 'bytes.proto';\n\
        import 'lost.proto';\n\
        import 'locked.proto';\n\
        import 'torn.proto';\n\
        message Main {}",
    ),
    ("bytes.proto", BYTES),
    ("locked.proto", LOCKED),
    ("torn.proto", "message {}"),
    ("own/locked.proto", LOCKED),
    ("own/torn.proto", "message T {"),
];

/// L1, L2, L5 and L9, each at its statement.
#[test]
fn tells_imports_that_cannot_be_read(rt: HostRuntime) -> Result<(), Fail> {
    let lines = told(rt.alloc(), UNREAD, &["main.proto"])?;
    let want = "main.proto:1:1 leaves bytes.proto: file `bytes.proto` content is not UTF-8\n\
        main.proto:2:1 leaves lost.proto: protobuf path `lost.proto` is not found in import path \
        a shelf\n\
        main.proto:3:1 leaves locked.proto: could not resolve `locked.proto`: it is locked\n\
        main.proto:4:1 leaves torn.proto: error in `shelf/torn.proto`: at 1:9: \
        S8 IncorrectInput\n\
        main.proto Faulty\n";
    assert_eq!(rt; lines.as_str(), want);
    Ok(())
}

/// The same and L4, of inputs. What is known of a path is told of each input of that path.
#[test]
fn tells_inputs_that_cannot_be_read(rt: HostRuntime) -> Result<(), Fail> {
    let names = [
        "bytes.proto",
        "lost.proto",
        "own/locked.proto",
        "locked.proto",
        "own/torn.proto",
        "own/absent.proto",
        "own/lost.proto",
    ];
    let lines = told(rt.alloc(), UNREAD, &names)?;
    let want = "input 0 leaves bytes.proto: file `bytes.proto` content is not UTF-8\n\
        input 1 leaves lost.proto: protobuf path `lost.proto` is not found in import path \
        a shelf\n\
        input 2 leaves locked.proto: could not read file `own/locked.proto`: read failed\n\
        input 3 leaves locked.proto: could not read file `own/locked.proto`: read failed\n\
        input 4 leaves torn.proto: error in `own/torn.proto`: at 1:12: S8 IncorrectInput\n\
        input 5 leaves absent.proto: could not read file `own/absent.proto`: not found\n\
        input 6 leaves lost.proto: protobuf path `lost.proto` is not found in import path \
        a shelf\n";
    assert_eq!(rt; lines.as_str(), want);
    Ok(())
}

const SHARED: &[(&str, &str)] = &[
    (
        "main.proto",
        "import 'a.proto';\n\
        import weak 'lost.proto';\n\
        message Main { optional A a = 1; }",
    ),
    (
        "a.proto",
        "message A {}\nimport 'b.proto'; import 'lost.proto';\nimport 'lost.proto';",
    ),
    ("b.proto", "message B {}"),
];

/// Each statement is told that names a file which is missing.
#[test]
fn tells_a_missing_file_at_each_statement(rt: HostRuntime) -> Result<(), Fail> {
    let lines = told(rt.alloc(), SHARED, &["main.proto"])?;
    let why = "protobuf path `lost.proto` is not found in import path a shelf";
    let want = format!(in rt.alloc();
        "a.proto:2:19 leaves lost.proto: {why}\n\
        a.proto:3:1 leaves lost.proto: {why}\n\
        main.proto:2:1 leaves lost.proto: {why}\n\
        b.proto Sound\n\
        a.proto Faulty\n\
        main.proto Faulty\n"
    )?;
    assert_eq!(rt; lines, want);
    Ok(())
}

const BELOW: &[(&str, &str)] = &[
    (
        "top.proto",
        "import 'mid.proto';\nmessage Top { optional Mid m = 1; }",
    ),
    (
        "mid.proto",
        "import 'low.proto';\nmessage Mid { optional Low l = 1; }",
    ),
    ("low.proto", "import 'lost.proto';\nmessage Low {}"),
];

/// Where nothing is wrong in a file but that one below it lacks another, it is held up.
#[test]
fn holds_up_what_lies_above_a_missing_file(rt: HostRuntime) -> Result<(), Fail> {
    let lines = told(rt.alloc(), BELOW, &["top.proto"])?;
    let want = "low.proto:1:1 leaves lost.proto: protobuf path `lost.proto` is not found in \
        import path a shelf\n\
        low.proto Faulty\n\
        mid.proto HeldUp\n\
        top.proto HeldUp\n";
    assert_eq!(rt; lines.as_str(), want);
    Ok(())
}

const BESIDE: &[(&str, &str)] = &[
    (
        "main.proto",
        "import 'torn.proto';\n\
        import 'a.proto';\n\
        message A {}\n\
        message M { optional Lost l = 1; optional int32 l = 2; }\n\
        message M {}",
    ),
    ("torn.proto", "message Lost { ; } }"),
    ("a.proto", "message A {}"),
];

/// Beside a missing file names that are declared more than once are told, and other faults but for
/// names that aren't found.
#[test]
fn tells_what_is_wrong_beside_a_missing_file(rt: HostRuntime) -> Result<(), Fail> {
    let lines = told(rt.alloc(), BESIDE, &["main.proto"])?;
    let want = "main.proto:1:1 leaves torn.proto: error in `shelf/torn.proto`: at 1:20: \
        S8 IncorrectInput\n\
        a.proto Sound\n\
        main.proto Faulty\n  \
        3:1 E5 TypeDeclaredTwice: .A\n  \
        5:1 E5 TypeDeclaredTwice: .M\n  \
        4:34 E1 DuplicateName: l\n";
    assert_eq!(rt; lines.as_str(), want);
    Ok(())
}
