//! What becomes of files: sound ones, faulty ones, and those that these hold up.

use crate::shelf::told;
use std::test::Fail;

const SOUND: &[(&str, &str)] = &[
    (
        "main.proto",
        "import 'a.proto';\n\
        import public 'b.proto';\n\
        import 'given.proto';\n\
        import 'both.proto';\n\
        message Main { optional A a = 1; optional B b = 2; optional Given g = 3; }\n\
        message Also { optional Both b = 1; }",
    ),
    ("a.proto", "message A {}"),
    (
        "b.proto",
        "import 'a.proto';\nmessage B { optional A a = 1; }",
    ),
    ("both.proto", "message Both {}"),
];

/// The resolver's file counts, and not the bundled one.
#[test]
fn says_that_files_are_sound(rt: HostRuntime) -> Result<(), Fail> {
    let alloc = rt.alloc();
    let lines = told(alloc, SOUND, &["main.proto", "b.proto", "main.proto"])?;
    let want = "a.proto Sound\n\
        b.proto Sound\n\
        given.proto Sound\n\
        both.proto Sound\n\
        main.proto Sound\n";
    assert_eq!(rt; lines.as_str(), want);
    let nothing = told(alloc, SOUND, &[])?;
    assert_eq!(rt; nothing.as_str(), "");
    Ok(())
}

/// What is wrong in `low.proto` is told in the order of the definitions: its options, its
/// statements, and then names that stand twice.
const FAULTY: &[(&str, &str)] = &[
    (
        "low.proto",
        "message L { optional Lost a = 1; optional .p.Lost b = 2; optional int32 a = 3; }\n\
        message L {}\n\
        message M { extensions 5 to 2147483647; }\n\
        option java_pakage = 'x';",
    ),
    (
        "mid.proto",
        "import 'low.proto';\nmessage Mid { optional L l = 1; }",
    ),
    (
        "high.proto",
        "import 'mid.proto';\nmessage High { optional Mid m = 1; optional L l = 2; }",
    ),
    (
        "top.proto",
        "import 'high.proto';\nmessage Top { optional High h = 1; }",
    ),
    ("beside.proto", "message Beside {}"),
];

#[test]
fn says_which_files_are_faulty_and_which_these_hold_up(rt: HostRuntime) -> Result<(), Fail> {
    let lines = told(rt.alloc(), FAULTY, &["top.proto", "beside.proto"])?;
    let want = "low.proto Faulty\n  \
        2:1 E5 TypeDeclaredTwice: .L\n  \
        4:8 E11 BuiltinOptionNotFound: java_pakage\n  \
        1:13 E3 NotFoundByRelPath: Lost\n  \
        1:34 E2 NotFoundByAbsPath: .p.Lost\n  \
        1:58 E1 DuplicateName: a\n  \
        3:13 E7 RangeEndOverflow: M\n\
        mid.proto HeldUp\n\
        high.proto Faulty\n  \
        2:36 E3 NotFoundByRelPath: L\n\
        top.proto HeldUp\n\
        beside.proto Sound\n";
    assert_eq!(rt; lines.as_str(), want);
    Ok(())
}
