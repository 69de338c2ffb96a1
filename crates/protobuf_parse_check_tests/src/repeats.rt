//! Full names that are declared more than once: each is told by the files that bring its
//! declarations together, and not again above them.

use crate::shelf::told;
use std::test::Fail;

const TOGETHER: &[(&str, &str)] = &[
    (
        "a.proto",
        "message Item {}\nmessage Only {}\nenum Level { LOW = 0; }",
    ),
    ("b.proto", "message Level {}\nmessage Item {}"),
    (
        "both.proto",
        "import 'a.proto';\nimport 'b.proto';\nmessage Both { optional Item i = 1; }",
    ),
    (
        "over.proto",
        "import 'b.proto';\nimport 'both.proto';\nimport 'a.proto';\nmessage Item {}",
    ),
    (
        "top.proto",
        "import 'over.proto';\nimport 'only.proto';\nmessage Top {}",
    ),
    ("only.proto", "message Only {}"),
];

/// Each name once, at the import that brings its declarations together: also where a file above
/// declares it again. A file above may bring other names together.
#[test]
fn tells_names_of_two_files_where_they_meet(rt: HostRuntime) -> Result<(), Fail> {
    let lines = told(rt.alloc(), TOGETHER, &["top.proto"])?;
    let want = "b.proto Sound\n\
        a.proto Sound\n\
        both.proto Faulty\n  \
        2:1 E5 TypeDeclaredTwice: .Item\n  \
        2:1 E5 TypeDeclaredTwice: .Level\n\
        over.proto HeldUp\n\
        only.proto Sound\n\
        top.proto Faulty\n  \
        2:1 E5 TypeDeclaredTwice: .Only\n";
    assert_eq!(rt; lines.as_str(), want);
    Ok(())
}

const APART: &[(&str, &str)] = &[
    ("a.proto", "message Item {}"),
    ("b.proto", "message Item {}"),
    ("c.proto", "message Item {}"),
    ("ab.proto", "import 'a.proto';\nimport 'b.proto';"),
    ("ba.proto", "\nimport 'b.proto';\nimport 'a.proto';"),
    ("bc.proto", "import 'b.proto';\n\nimport 'c.proto';"),
    (
        "all.proto",
        "import 'ab.proto';\nimport 'ba.proto';\nimport 'bc.proto';\nimport 'c.proto';",
    ),
];

/// Files that bring one name together and don't reach one another tell it each.
#[test]
fn tells_a_name_by_each_file_that_brings_it_together(rt: HostRuntime) -> Result<(), Fail> {
    let lines = told(rt.alloc(), APART, &["all.proto"])?;
    let want = "a.proto Sound\n\
        b.proto Sound\n\
        ab.proto Faulty\n  \
        2:1 E5 TypeDeclaredTwice: .Item\n\
        ba.proto Faulty\n  \
        3:1 E5 TypeDeclaredTwice: .Item\n\
        c.proto Sound\n\
        bc.proto Faulty\n  \
        3:1 E5 TypeDeclaredTwice: .Item\n\
        all.proto HeldUp\n";
    assert_eq!(rt; lines.as_str(), want);
    Ok(())
}

const OWN: &[(&str, &str)] = &[
    ("a.proto", "message A { extensions 1 to 9; }"),
    (
        "own.proto",
        "import 'a.proto';\n\
        message A {}\n\
        message B {}\n\
        message B {}\n\
        enum B { Z = 0; }\n\
        message M { message N {} message N {} }\n\
        extend A { optional int32 x = 1; }\n\
        extend A { optional int32 x = 2; optional int32 y = 3; optional int32 y = 4; }",
    ),
    (
        "above.proto",
        "import 'own.proto';\nmessage B {}\nmessage B {}\nmessage C { optional Lost l = 1; }",
    ),
];

/// E5 and E6 of a file's own declarations stand at the last of them. E1 is hidden where one of
/// these stands, and told elsewhere: at a declaration before the last, and in a file above.
#[test]
fn hides_what_tells_the_same_of_a_declaration(rt: HostRuntime) -> Result<(), Fail> {
    let lines = told(rt.alloc(), OWN, &["above.proto"])?;
    let want = "a.proto Sound\n\
        own.proto Faulty\n  \
        2:1 E5 TypeDeclaredTwice: .A\n  \
        5:1 E5 TypeDeclaredTwice: .B\n  \
        6:26 E5 TypeDeclaredTwice: .M.N\n  \
        8:12 E6 ExtensionDeclaredTwice: .x\n  \
        8:56 E6 ExtensionDeclaredTwice: .y\n  \
        4:1 E1 DuplicateName: B\n\
        above.proto Faulty\n  \
        4:13 E3 NotFoundByRelPath: Lost\n  \
        3:1 E1 DuplicateName: B\n";
    assert_eq!(rt; lines.as_str(), want);
    Ok(())
}

const EXTENDED: &[(&str, &str)] = &[
    ("x.proto", "message X { extensions 1 to 9; }"),
    (
        "one.proto",
        "import 'x.proto';\nextend X { optional int32 y = 1; }\nmessage T {}",
    ),
    (
        "two.proto",
        "import 'x.proto';\nextend X { optional int32 y = 2; }\nenum T { Z = 0; }",
    ),
    (
        "meet.proto",
        "import 'two.proto';\nimport 'x.proto';\nimport 'one.proto';\n\
        extend X { optional int32 z = 3; optional Lost l = 4; }",
    ),
    (
        "next.proto",
        "import public 'meet.proto';\nextend X { optional int32 w = 5; }",
    ),
];

/// A name of an extension and one of a type: E6 and E5. Other faults of the file are told beside
/// them, as E3 of a type that isn't seen.
#[test]
fn tells_names_of_extensions(rt: HostRuntime) -> Result<(), Fail> {
    let lines = told(rt.alloc(), EXTENDED, &["next.proto", "one.proto"])?;
    let want = "x.proto Sound\n\
        two.proto Sound\n\
        one.proto Sound\n\
        meet.proto Faulty\n  \
        3:1 E5 TypeDeclaredTwice: .T\n  \
        3:1 E6 ExtensionDeclaredTwice: .y\n  \
        4:34 E3 NotFoundByRelPath: Lost\n\
        next.proto Faulty\n  \
        2:1 E3 NotFoundByRelPath: X\n";
    assert_eq!(rt; lines.as_str(), want);
    Ok(())
}
