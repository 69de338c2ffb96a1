//! What a check reads, and in which order it tells of files.

use crate::shelf::{SHORT, checked};
use protobuf_parse_check::CheckLog;
use std::alloc::{AllocError, Global};
use std::test::Fail;

/// The paths of the reads, then those of the files with the numbers of their reads.
fn order(alloc: Global, log: &CheckLog) -> Result<String, AllocError> {
    let mut text = String::new(alloc);
    for read in &log.reads {
        write!(text, "{} ", read.path.as_path().to_str())?;
    }
    match &log.result {
        Ok(check) => {
            for file in &check.files {
                write!(text, "\n{} of read {}", file.path, file.read)?;
            }
        }
        Err(_) => text.push_str("\nshort of memory")?,
    }
    Ok(text)
}

const FILES: &[(&str, &str)] = &[
    (
        "main.proto",
        "import 'left.proto';\nimport 'lost.proto';\nimport 'right.proto';\nimport 'left.proto';",
    ),
    ("left.proto", "import 'base.proto';\nimport 'torn.proto';"),
    (
        "right.proto",
        "import 'torn.proto';\nimport 'lost.proto';\nimport 'base.proto';\nimport 'main.proto';",
    ),
    ("base.proto", "message Base { optional Lost l = 1; }"),
    ("torn.proto", "message"),
    ("own/base.proto", "message Base {}"),
    (
        "wide.proto",
        "import 'base.proto';\nimport 'short.proto';\nimport 'left.proto';",
    ),
    ("short.proto", SHORT),
];

/// Each file is read once, whatever is told of it, and told of behind its imports. An input at a
/// path of its own is read each time.
#[test]
fn reads_each_file_once(rt: HostRuntime) -> Result<(), Fail> {
    let alloc = rt.alloc();
    let names = [
        "main.proto",
        "torn.proto",
        "own/base.proto",
        "right.proto",
        "own/base.proto",
        "lost.proto",
    ];
    let log = checked(alloc, FILES, &names)?;
    let want = "main.proto left.proto base.proto torn.proto lost.proto right.proto base.proto \
        base.proto \n\
        base.proto of read 2\n\
        left.proto of read 1\n\
        right.proto of read 5\n\
        main.proto of read 0";
    assert_eq!(rt; order(alloc, &log)?.as_str(), want);
    Ok(())
}

/// Where memory is short for the resolver the check says so, with the reads until then, whatever
/// was wrong before. Where it is ample the same files are told of.
#[test]
fn says_that_memory_is_short(rt: HostRuntime) -> Result<(), Fail> {
    let alloc = rt.alloc();
    let log = checked(alloc, FILES, &["left.proto", "wide.proto"])?;
    let want = "left.proto base.proto torn.proto wide.proto \nshort of memory";
    assert_eq!(rt; order(alloc, &log)?.as_str(), want);
    let log = checked(alloc, FILES, &["left.proto", "right.proto"])?;
    let want = "left.proto base.proto torn.proto right.proto lost.proto main.proto \n\
        base.proto of read 1\n\
        left.proto of read 0\n\
        main.proto of read 5\n\
        right.proto of read 3";
    assert_eq!(rt; order(alloc, &log)?.as_str(), want);
    Ok(())
}
