//! The program over two writers in memory, on files of a folder of its own.

use crate::outcome::{Full, Outcome, own_path, words};
use protobuf_parse::program;
use std::alloc::AllocError;
use std::process::Abort;
use std::rt::Files;
use std::test::Fail;
use std::{fs, io};

fn run<R: Files + AllocGlobal>(rt: &R, args: &[&str]) -> Result<Outcome, AllocError> {
    let mut out = Vec::new(rt.alloc());
    let mut err = Vec::new(rt.alloc());
    let status = program(rt, &words(rt.alloc(), args)?, &mut out, &mut err);
    Ok(Outcome { out, err, status })
}

/// A run on a file of this content, which is there for this run alone.
fn run_on<R: Files + AllocGlobal>(rt: &R, path: &str, content: &[u8]) -> io::Result<Outcome> {
    fs::write(rt, path, content)?;
    let outcome = run(rt, &[path, "."]);
    fs::remove_file(rt, path)?;
    Ok(outcome?)
}

fn expect_failure<R: Abort>(rt: &R, outcome: &Outcome, line: &str) {
    assert_eq!(rt; outcome.status, 1, "{line}");
    assert_eq!(rt; outcome.out.as_slice(), b"".as_slice(), "{line}");
    assert_eq!(rt; outcome.err.as_slice(), line.as_bytes());
}

#[test]
fn lists_a_file(rt: HostRuntime) -> Result<(), Fail> {
    let path = own_path(&rt, "good.proto")?;
    let outcome = run_on(
        &rt,
        &path,
        b"syntax = \"proto3\"; message Foo { int32 a = 1; }",
    )?;
    let message = "message Foo\n    field optional int32 a = 1 json \"a\"";
    let want = format!(in rt.alloc(); "file {path}\n  syntax proto3\n  {message}\n")?;
    assert_eq!(rt; outcome.status, 0);
    assert_eq!(rt; outcome.out.as_slice(), want.as_bytes());
    assert_eq!(rt; outcome.err.as_slice(), b"".as_slice());
    Ok(())
}

#[test]
fn lists_imports_first(rt: HostRuntime) -> Result<(), Fail> {
    let apple = own_path(&rt, "apple.proto")?;
    let banana = own_path(&rt, "banana.proto")?;
    fs::write(&rt, apple.as_str(), b"syntax = 'proto3'; message Apple {}")?;
    let text = format!(in rt.alloc(); "syntax = 'proto3'; import '{apple}'; message Banana {{}}")?;
    let outcome = run_on(&rt, &banana, text.as_bytes())?;
    fs::remove_file(&rt, &apple)?;
    let want = format!(in rt.alloc();
        "file {apple}\n  syntax proto3\n  message Apple\n\
         file {banana}\n  syntax proto3\n  import {apple}\n  message Banana\n"
    )?;
    assert_eq!(rt; outcome.status, 0);
    assert_eq!(rt; outcome.out.as_slice(), want.as_bytes());
    assert_eq!(rt; outcome.err.as_slice(), b"".as_slice());
    Ok(())
}

#[test]
fn tells_its_usage(rt: HostRuntime) -> Result<(), Fail> {
    let usage = "usage: parse-and-typecheck <input.proto> <include>\n";
    expect_failure(&rt, &run(&rt, &[])?, usage);
    expect_failure(&rt, &run(&rt, &["x.proto"])?, usage);
    expect_failure(&rt, &run(&rt, &["x.proto", ".", "."])?, usage);
    Ok(())
}

#[test]
fn tells_what_it_cannot_read(rt: HostRuntime) -> Result<(), Fail> {
    // Nothing is read where the include is another: the file is missing too.
    let line = "file `no/x.proto` must reside in include path [\"d\"]\n";
    expect_failure(&rt, &run(&rt, &["no/x.proto", "d"])?, line);
    let line = "could not read file `no/x.proto`: not found\n";
    expect_failure(&rt, &run(&rt, &["no/x.proto", "."])?, line);
    let line = "could not read file `./no/x.proto`: not found\n";
    expect_failure(&rt, &run(&rt, &["./no/x.proto", "no/"])?, line);
    // Nor is anything read where the input gets no proto path.
    for (input, why) in [
        ("", "path is empty"),
        ("no\\x.proto", "backslashes in path"),
        ("no/../x.proto", "dot-dot in path"),
    ] {
        let line = format!(in rt.alloc(); "input `{input}`: {why}\n")?;
        expect_failure(&rt, &run(&rt, &[input, "."])?, &line);
    }
    let line = "file `/no/x.proto` must reside in include path [\"no\"]\n";
    expect_failure(&rt, &run(&rt, &["/no/x.proto", "no"])?, line);
    Ok(())
}

#[test]
fn tells_the_fault_of_a_file(rt: HostRuntime) -> Result<(), Fail> {
    let path = own_path(&rt, "bad.proto")?;
    let outcome = run_on(&rt, &path, b"message A { int32 x = 1; }")?;
    let line = format!(in rt.alloc(); "error in `{path}`: at 1:13: S12 LabelRequired\n")?;
    expect_failure(&rt, &outcome, &line);
    let outcome = run_on(&rt, &path, b"\xff")?;
    let line = format!(in rt.alloc(); "file `{path}` content is not UTF-8\n")?;
    expect_failure(&rt, &outcome, &line);
    Ok(())
}

#[test]
fn tells_what_is_wrong_with_imports(rt: HostRuntime) -> Result<(), Fail> {
    let path = own_path(&rt, "importer.proto")?;
    let folder = own_path(&rt, "folder")?;
    fs::create_dir(&rt, folder.as_str())?;
    let missing = "protobuf path `no/x.proto` is not found in import path [\".\"]\n";
    let cycle = format!(in rt.alloc(); "import cycle at `{path}`\n")?;
    let unread = format!(in rt.alloc();
        "could not resolve `{folder}`: could not read file `./{folder}`\n"
    )?;
    for (import, line) in [
        ("no/x.proto", missing),
        (path.as_str(), cycle.as_str()),
        (folder.as_str(), unread.as_str()),
    ] {
        let text = format!(in rt.alloc(); "import '{import}';")?;
        expect_failure(&rt, &run_on(&rt, &path, text.as_bytes())?, line);
    }
    fs::remove_dir(&rt, folder.as_str())?;
    let outcome = run_on(&rt, &path, b"message A { optional B b = 1; }")?;
    let line = format!(in rt.alloc(); "error in `{path}`: E3 NotFoundByRelPath: B\n")?;
    expect_failure(&rt, &outcome, &line);
    Ok(())
}

#[test]
fn tells_that_it_could_not_write(rt: HostRuntime) -> Result<(), Fail> {
    let path = own_path(&rt, "unwritten.proto")?;
    fs::write(&rt, &path, "")?;
    let args = words(rt.alloc(), &[path.as_str(), "."])?;
    for room in [0, 5] {
        let mut err = Vec::new(rt.alloc());
        let status = program(&rt, &args, &mut Full { room }, &mut err);
        assert_eq!(rt; status, 1);
        assert_eq!(rt; err.as_slice(), b"could not write the listing\n".as_slice());
    }
    fs::remove_file(&rt, &path)?;
    Ok(())
}
