//! What files become in which something is wrong, and what is left of their trees.

use crate::shelf::checked;
use protobuf_parse_check::FileReport;
use std::alloc::{AllocError, Global};
use std::test::Fail;

/// Its name, its imports, and its messages with the counts of their fields; and how many statements
/// its tree has.
fn outline(alloc: Global, file: &FileReport) -> Result<String, AllocError> {
    let mut text = String::new(alloc);
    let described = &file.descriptor;
    write!(text, "{:?} imports", described.name)?;
    for path in &described.dependency {
        write!(text, " {path}")?;
    }
    for message in &described.message_type {
        write!(text, "; {} {}", message.name, message.field.len())?;
    }
    write!(text, "; {} statements\n", file.tree.statements.len())?;
    Ok(text)
}

const FILES: &[(&str, &str)] = &[
    (
        "main.proto",
        "import 'lost.proto';\n\
        import 'a.proto';\n\
        import public 'main.proto';\n\
        message M { optional Lost l = 1; optional A a = 2; optional A a = 3; }\n\
        message N {}\n\
        message N {}\n\
        enum E { Z = 0; }",
    ),
    ("a.proto", "message A { optional int32 x = 1; }"),
    (
        "top.proto",
        "import 'main.proto';\nmessage Top { optional M m = 1; }",
    ),
];

/// Imports that are told are in neither.
#[test]
fn describes_faulty_files_as_far_as_they_go(rt: HostRuntime) -> Result<(), Fail> {
    let alloc = rt.alloc();
    let check = checked(alloc, FILES, &["top.proto"])?.result?;
    let mut lines = String::new(alloc);
    for file in &check.files {
        let line = outline(alloc, file)?;
        lines.push_str(&line)?;
    }
    let want = "Some(\"a.proto\") imports; A 1; 1 statements\n\
        Some(\"main.proto\") imports a.proto; M 3; N 0; N 0; 5 statements\n\
        Some(\"top.proto\") imports main.proto; Top 1; 2 statements\n";
    assert_eq!(rt; lines.as_str(), want);
    Ok(())
}
