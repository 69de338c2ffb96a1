//! Inputs at paths of their own, held against what was loaded for their proto paths.

use crate::shelf::{BYTES, LOCKED, told};
use std::test::Fail;

const FILES: &[(&str, &str)] = &[
    ("a.proto", "message A {}"),
    ("own/a.proto", "message A {}"),
    ("away/a.proto", "message A { }"),
    (
        "b.proto",
        "import 'a.proto';\nmessage B { optional A a = 1; optional C c = 2; }",
    ),
    ("own/b.proto", LOCKED),
    ("away/b.proto", BYTES),
    ("own/given.proto", "message Given {}"),
    ("away/given.proto", "enum Given { Z = 0; }"),
];

/// The same bytes are told nothing of, be they the resolver's, another input's or the library's.
#[test]
fn tells_nothing_of_the_same_bytes(rt: HostRuntime) -> Result<(), Fail> {
    let names = [
        "a.proto",
        "own/a.proto",
        "own/a.proto",
        "given.proto",
        "own/given.proto",
    ];
    let lines = told(rt.alloc(), FILES, &names)?;
    let want = "a.proto Sound\ngiven.proto Sound\n";
    assert_eq!(rt; lines.as_str(), want);
    Ok(())
}

/// L6 where other bytes were loaded, also such as are no text, and L4 where the reader has none.
/// What is told of an input is told of no file.
#[test]
fn tells_inputs_for_which_other_files_were_loaded(rt: HostRuntime) -> Result<(), Fail> {
    let names = [
        "b.proto",
        "away/a.proto",
        "own/a.proto",
        "own/b.proto",
        "away/b.proto",
        "given.proto",
        "away/given.proto",
        "away/a.proto",
    ];
    let lines = told(rt.alloc(), FILES, &names)?;
    let want = "input 1: input `away/a.proto` is shadowed: `a.proto` was loaded with other \
        content\n\
        input 3: could not read file `own/b.proto`: read failed\n\
        input 4: input `away/b.proto` is shadowed: `b.proto` was loaded with other content\n\
        input 6: input `away/given.proto` is shadowed: `given.proto` was loaded with other \
        content\n\
        input 7: input `away/a.proto` is shadowed: `a.proto` was loaded with other content\n\
        a.proto Sound\n\
        b.proto Faulty\n  \
        2:31 E3 NotFoundByRelPath: C\n\
        given.proto Sound\n";
    assert_eq!(rt; lines.as_str(), want);
    Ok(())
}

/// What lies at an input's own path counts for all, where it is read first.
#[test]
fn loads_what_lies_at_an_own_path(rt: HostRuntime) -> Result<(), Fail> {
    let names = ["away/given.proto", "given.proto", "own/given.proto"];
    let lines = told(rt.alloc(), FILES, &names)?;
    let want = "input 2: input `own/given.proto` is shadowed: `given.proto` was loaded with \
        other content\n\
        given.proto Sound\n";
    assert_eq!(rt; lines.as_str(), want);
    Ok(())
}

/// A path whose file can't be read is not held against anything: its inputs are told that.
#[test]
fn holds_no_input_against_an_unread_file(rt: HostRuntime) -> Result<(), Fail> {
    let names = ["away/b.proto", "own/b.proto", "b.proto", "own/absent.proto"];
    let lines = told(rt.alloc(), FILES, &names)?;
    let want = "input 0 leaves b.proto: file `b.proto` content is not UTF-8\n\
        input 1 leaves b.proto: file `b.proto` content is not UTF-8\n\
        input 2 leaves b.proto: file `b.proto` content is not UTF-8\n\
        input 3 leaves absent.proto: could not read file `own/absent.proto`: not found\n";
    assert_eq!(rt; lines.as_str(), want);
    Ok(())
}
