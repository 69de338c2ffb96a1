//! Custom options, which are looked at where nothing else is wrong in a file and in those that it
//! reaches.

use crate::shelf::told;
use std::test::Fail;

const FILES: &[(&str, &str)] = &[
    (
        "google/protobuf/descriptor.proto",
        "package google.protobuf; message MessageOptions { extensions 1000 to 1999; }",
    ),
    (
        "opts.proto",
        "import 'google/protobuf/descriptor.proto';\n\
        extend google.protobuf.MessageOptions { optional int32 limit = 1000; }",
    ),
    (
        "set.proto",
        "import 'opts.proto';\n\
        message M { option (limit) = 'x'; }\n\
        message N { option (limit) = 9999999999; option (nope) = 1; }",
    ),
    (
        "over_set.proto",
        "import 'opts.proto';\nimport 'set.proto';\nmessage O { option (nope) = 1; }",
    ),
    (
        "fine.proto",
        "import 'opts.proto';\nimport 'set.proto';\nmessage F { option (limit) = 1; }",
    ),
    ("lost.proto", "import 'nowhere.proto';\nmessage L {}"),
    ("faulty.proto", "message A { optional Lost l = 1; }"),
    ("twice.proto", "message T {}\nmessage T {}"),
    (
        "over_lost.proto",
        "import 'opts.proto';\nimport 'lost.proto';\nmessage P { option (nope) = 1; }",
    ),
    (
        "over_faulty.proto",
        "import 'opts.proto';\nimport 'faulty.proto';\nmessage Q { option (nope) = 1; }",
    ),
    (
        "over_twice.proto",
        "import 'opts.proto';\nimport 'twice.proto';\nmessage R { option (nope) = 1; }",
    ),
    (
        "itself.proto",
        "import 'opts.proto';\nmessage S { option (nope) = 1; optional Lost l = 1; }",
    ),
    (
        "own_lost.proto",
        "import 'opts.proto';\nimport 'nowhere.proto';\nmessage U { option (nope) = 1; }",
    ),
    (
        "own_twice.proto",
        "import 'opts.proto';\nmessage V {}\nmessage V { option (nope) = 1; }",
    ),
];

/// What is wrong in custom options keeps nothing from being looked at above.
#[test]
fn looks_at_custom_options_of_settled_files(rt: HostRuntime) -> Result<(), Fail> {
    let lines = told(rt.alloc(), FILES, &["over_set.proto", "fine.proto"])?;
    let want = "google/protobuf/descriptor.proto Sound\n\
        opts.proto Sound\n\
        set.proto Faulty\n  \
        2:20 E19 UnsupportedExtensionType: limit\n  \
        3:20 E20 IntegerOutOfRange: limit\n  \
        3:49 E14 ExtensionNotFound: nope\n\
        over_set.proto Faulty\n  \
        3:20 E14 ExtensionNotFound: nope\n\
        fine.proto HeldUp\n";
    assert_eq!(rt; lines.as_str(), want);
    Ok(())
}

/// Nothing is told of the options of a file that reaches a file in which something else is wrong.
#[test]
fn passes_over_custom_options_above_other_faults(rt: HostRuntime) -> Result<(), Fail> {
    let names = ["over_lost.proto", "over_faulty.proto", "over_twice.proto"];
    let lines = told(rt.alloc(), FILES, &names)?;
    let want = "lost.proto:1:1 leaves nowhere.proto: protobuf path `nowhere.proto` is not found \
        in import path a shelf\n\
        google/protobuf/descriptor.proto Sound\n\
        opts.proto Sound\n\
        lost.proto Faulty\n\
        over_lost.proto HeldUp\n\
        faulty.proto Faulty\n  \
        1:13 E3 NotFoundByRelPath: Lost\n\
        over_faulty.proto HeldUp\n\
        twice.proto Faulty\n  \
        2:1 E5 TypeDeclaredTwice: .T\n\
        over_twice.proto HeldUp\n";
    assert_eq!(rt; lines.as_str(), want);
    Ok(())
}

/// Nor of those of the file itself.
#[test]
fn passes_over_custom_options_beside_other_faults(rt: HostRuntime) -> Result<(), Fail> {
    let names = ["itself.proto", "own_lost.proto", "own_twice.proto"];
    let lines = told(rt.alloc(), FILES, &names)?;
    let want = "own_lost.proto:2:1 leaves nowhere.proto: protobuf path `nowhere.proto` is not \
        found in import path a shelf\n\
        google/protobuf/descriptor.proto Sound\n\
        opts.proto Sound\n\
        itself.proto Faulty\n  \
        2:32 E3 NotFoundByRelPath: Lost\n\
        own_lost.proto Faulty\n\
        own_twice.proto Faulty\n  \
        3:1 E5 TypeDeclaredTwice: .V\n";
    assert_eq!(rt; lines.as_str(), want);
    Ok(())
}
