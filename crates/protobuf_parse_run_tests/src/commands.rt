//! The command that people type, over two writers in memory: what it writes to files, its words,
//! and writers that fail.

use crate::outcome::{Full, Outcome, own_path, words};
use protobuf_parse::{Parser, RunFault};
use protobuf_parse_command::command;
use protobuf_parse_descriptor_set::descriptor_set;
use protobuf_parse_diagnostics::{Diagnostic, Place, Severity, arrange};
use std::alloc::{AllocError, Global};
use std::fs;
use std::process::Abort;
use std::rt::Files;
use std::test::Fail;

fn run<R: Files + AllocGlobal>(rt: &R, args: &[&str]) -> Result<Outcome, AllocError> {
    let mut out = Vec::new(rt.alloc());
    let mut err = Vec::new(rt.alloc());
    let status = command(rt, &words(rt.alloc(), args)?, &mut out, &mut err);
    Ok(Outcome { out, err, status })
}

fn expect<R: Abort>(rt: &R, outcome: &Outcome, status: u8, out: &str, err: &str) {
    assert_eq!(rt; outcome.status, status, "{err}");
    assert_eq!(rt; outcome.out.as_slice(), out.as_bytes());
    assert_eq!(rt; outcome.err.as_slice(), err.as_bytes());
}

/// The bytes of the descriptors of these inputs, and of all files that they reach.
fn sets_of<R: Files + AllocGlobal>(rt: &R, input: &str) -> Result<(Vec<u8>, Vec<u8>), RunFault> {
    let alloc = rt.alloc();
    let mut parser = Parser::new(alloc);
    parser.push_include("")?;
    parser.push_input(input)?;
    let own = descriptor_set(alloc, &parser.file_descriptor_set(rt)?.file)?;
    let all = descriptor_set(alloc, &parser.parse_and_typecheck(rt)?.file_descriptors)?;
    Ok((own, all))
}

#[test]
fn writes_sets(rt: HostRuntime) -> Result<(), Fail> {
    let apple = own_path(&rt, "set_apple.proto")?;
    let banana = own_path(&rt, "set_banana.proto")?;
    let set = own_path(&rt, "set.pb")?;
    fs::write(&rt, apple.as_str(), b"syntax = 'proto3'; message Apple {}")?;
    let text = format!(in rt.alloc();
        "syntax = 'proto2'; import '{apple}'; message Crate {{ repeated Apple a = 1; }}"
    )?;
    fs::write(&rt, banana.as_str(), text.as_bytes())?;
    let (own, all) = sets_of(&rt, &banana)?;
    expect(&rt, &run(&rt, &["-o", &set, &banana])?, 0, "", "");
    assert_eq!(rt; fs::read(&rt, set.as_str())?.as_slice(), own.as_slice());

    // A file that is there is replaced, and nothing is left beside it.
    let path = format!(in rt.alloc(); "--descriptor_set_out={set}")?;
    expect(
        &rt,
        &run(&rt, &[&path, "--include_imports", &banana])?,
        0,
        "",
        "",
    );
    assert_eq!(rt; fs::read(&rt, set.as_str())?.as_slice(), all.as_slice());
    assert!(rt; !fs::exists(&rt, ".protobuf_parse.0.part")?);

    // Where a fault is told, it stays as it was.
    fs::write(&rt, apple.as_str(), b"message Apple {")?;
    let line = format!(in rt.alloc();
        "{apple}:1:16: error: unexpected end of file, expected a statement or `}}` [S8]\n"
    )?;
    expect(&rt, &run(&rt, &["-o", &set, &banana])?, 1, "", &line);
    assert_eq!(rt; fs::read(&rt, set.as_str())?.as_slice(), all.as_slice());
    for path in [&apple, &banana, &set] {
        fs::remove_file(&rt, path.as_str())?;
    }
    Ok(())
}

const WITH_COMMENT: &[u8] = b"syntax = \"proto3\";\n\n// c\nmessage M {}\n";

/// The field with the source info of that text, as `protoc` 3.21.12 writes it.
const INFO_FIELD: &[u8] = b"\x4a\x2e\x0a\x06\x12\x04\x00\x00\x03\x0c\
\x0a\x08\x0a\x01\x0c\x12\x03\x00\x00\x12\
\x0a\x0e\x0a\x02\x04\x00\x12\x03\x03\x00\x0c\x1a\x03 c\x0a\
\x0a\x0a\x0a\x03\x04\x00\x01\x12\x03\x03\x08\x09";

#[test]
fn writes_source_info(rt: HostRuntime) -> Result<(), Fail> {
    let path = own_path(&rt, "commented.proto")?;
    let set = own_path(&rt, "info.pb")?;
    fs::write(&rt, path.as_str(), WITH_COMMENT)?;
    expect(&rt, &run(&rt, &["-o", &set, &path])?, 0, "", "");
    let without = fs::read(&rt, set.as_str())?;
    expect(
        &rt,
        &run(&rt, &["--include_source_info", "-o", &set, &path])?,
        0,
        "",
        "",
    );
    let with_info = fs::read(&rt, set.as_str())?;
    assert!(rt;
        with_info
            .windows(INFO_FIELD.len())
            .any(|bytes| bytes == INFO_FIELD)
    );
    assert_eq!(rt; with_info.len(), without.len() + INFO_FIELD.len());

    // Where a fault is told nothing is written.
    fs::write(
        &rt,
        path.as_str(),
        b"syntax = 'proto3'; message M { N n = 1; }",
    )?;
    let line = format!(in rt.alloc(); "{path}:1:32: error: \"N\" is not defined [E3]\n")?;
    expect(
        &rt,
        &run(&rt, &["--include_source_info", "-o", &set, &path])?,
        1,
        "",
        &line,
    );
    assert_eq!(rt;
        fs::read(&rt, set.as_str())?.as_slice(),
        with_info.as_slice()
    );
    for path in [&path, &set] {
        fs::remove_file(&rt, path.as_str())?;
    }
    Ok(())
}

#[test]
fn reads_sets(rt: HostRuntime) -> Result<(), Fail> {
    let apple = own_path(&rt, "kept_apple.proto")?;
    let banana = own_path(&rt, "kept_banana.proto")?;
    let set = own_path(&rt, "kept.pb")?;
    let again = own_path(&rt, "kept_again.pb")?;
    fs::write(
        &rt,
        apple.as_str(),
        b"syntax = 'proto3'; package p; message Apple { repeated float a_b = 1; }",
    )?;
    expect(&rt, &run(&rt, &["-o", &set, &apple])?, 0, "", "");
    fs::remove_file(&rt, apple.as_str())?;

    // The set has the file, which is nowhere else.
    let sets = format!(in rt.alloc(); "--descriptor_set_in={set}")?;
    expect(&rt, &run(&rt, &[&sets, "-o", &again, &apple])?, 0, "", "");
    let bytes = fs::read(&rt, set.as_str())?;
    assert_eq!(rt; fs::read(&rt, again.as_str())?.as_slice(), bytes.as_slice());
    expect(&rt, &run(&rt, &[&sets, "--text", &apple])?, 0, APPLE, "");

    // A text imports it.
    let text = format!(in rt.alloc();
        "syntax = 'proto2'; import '{apple}'; message B {{ optional p.Apple a = 1; }}"
    )?;
    fs::write(&rt, banana.as_str(), text.as_bytes())?;
    expect(&rt, &run(&rt, &[&sets, "-I", "", &banana])?, 0, "", "");
    let missing = format!(in rt.alloc();
        "{banana}:1:20: error: the imported file \"{apple}\" is not found; it was looked for in \
         [\"\"] [L2]\n"
    )?;
    expect(&rt, &run(&rt, &[&banana])?, 1, "", &missing);

    // What is no set is told, and what isn't there.
    fs::write(&rt, set.as_str(), b"\x0a\x05a")?;
    let told = format!(in rt.alloc();
        "{set}: error: this is no descriptor set: byte 2: the bytes end inside a record [L14]\n"
    )?;
    expect(&rt, &run(&rt, &[&sets, &apple])?, 1, "", &told);
    fs::remove_file(&rt, set.as_str())?;
    let told = format!(in rt.alloc();
        "{set}: error: could not read the descriptor set: No such file or directory (os error 2) \
         [L13]\n"
    )?;
    expect(&rt, &run(&rt, &[&sets, &apple])?, 1, "", &told);
    for path in [&banana, &again] {
        fs::remove_file(&rt, path.as_str())?;
    }
    Ok(())
}

/// The text of the file that the set has.
const APPLE: &str = r#"syntax = "proto3";

package p;

message Apple {
  repeated float a_b = 1;
}
"#;

#[test]
fn tells_where_no_set_can_be(rt: HostRuntime) -> Result<(), Fail> {
    let path = own_path(&rt, "unset.proto")?;
    let folder = own_path(&rt, "unset")?;
    fs::write(&rt, path.as_str(), b"syntax = 'proto2';")?;
    fs::create_dir(&rt, folder.as_str())?;
    let line = format!(in rt.alloc();
        "protobuf_parse_cli: error: could not write `{folder}`: is a directory\n"
    )?;
    expect(
        &rt,
        &run(&rt, &["--list", "-o", &folder, &path])?,
        1,
        "",
        &line,
    );
    fs::remove_dir(&rt, folder.as_str())?;
    let missing = format!(in rt.alloc(); "{folder}/set.pb")?;
    let outcome = run(&rt, &["--list", "-o", &missing, &path])?;
    let front = format!(in rt.alloc(); "protobuf_parse_cli: error: could not write `{missing}`: ")?;
    assert_eq!(rt; outcome.status, 1);
    assert_eq!(rt; outcome.out.as_slice(), b"".as_slice());
    assert!(rt; outcome.err.as_slice().starts_with(front.as_bytes()));
    fs::remove_file(&rt, path.as_str())?;
    Ok(())
}

#[test]
fn tells_of_wrong_words(rt: HostRuntime) -> Result<(), Fail> {
    let wrong: [&[&str]; 9] = [
        &[],
        &["--list"],
        &["--lists", "a.proto"],
        &["--rules=never", "a.proto"],
        &["--rules=C56=off", "a.proto"],
        &["--rules=T0=off", "a.proto"],
        &["--rules=S8=off", "a.proto"],
        &["--rules=C48", "a.proto"],
        &["--imports", "--list", "a.proto"],
    ];
    for args in wrong {
        let outcome = run(&rt, args)?;
        assert_eq!(rt; outcome.status, 2, "{args:?}");
        assert_eq!(rt; outcome.out.as_slice(), b"".as_slice());
        assert!(rt; outcome.err.as_slice().starts_with(b"error: "));
    }
    let outcome = run(&rt, &["--help"])?;
    assert_eq!(rt; outcome.status, 0);
    assert_eq!(rt; outcome.err.as_slice(), b"".as_slice());
    let front = "Parses .proto files, checks their types, and writes their descriptors.\n\n\
        Usage: protobuf_parse_cli [OPTIONS] <FILE>...\n";
    assert!(rt; outcome.out.as_slice().starts_with(front.as_bytes()));
    Ok(())
}

#[test]
fn shows_lines_at_a_terminal(rt: HostRuntime) -> Result<(), Fail> {
    let path = own_path(&rt, "shown.proto")?;
    // Tabs stay, a wide character takes two columns, and what a terminal obeys is replaced.
    let text = "syntax = 'proto3';\nmessage M {\n\t/* 漢\u{1b} */\tOder a = 1;\r\n}\n";
    fs::write(&rt, path.as_str(), text.as_bytes())?;
    let outcome = run(&rt, &["--color=always", &path])?;
    fs::remove_file(&rt, path.as_str())?;
    let front = format!(in rt.alloc();
        "\u{1b}[1m{path}:3:11: \u{1b}[0m\u{1b}[1;31merror: \u{1b}[0m\"Oder\" is not defined [E3]\n"
    )?;
    let back = " 3 | \t/* 漢\u{fffd} */\tOder a = 1;\n   | \t         \t\u{1b}[1;32m^\u{1b}[0m\n";
    expect(
        &rt,
        &outcome,
        1,
        "",
        &format!(in rt.alloc(); "{front}{back}")?,
    );
    Ok(())
}

#[test]
fn reads_words_of_files(rt: HostRuntime) -> Result<(), Fail> {
    let path = own_path(&rt, "words.proto")?;
    let words = own_path(&rt, "words.txt")?;
    let named = format!(in rt.alloc(); "@{words}")?;
    fs::write(
        &rt,
        path.as_str(),
        b"syntax = 'proto3';\nimport 'no such.proto';\n",
    )?;
    // Blanks stand as they are, lines may end in a carriage return, and the last one needs no end.
    let text = format!(in rt.alloc(); "-I\r\n.\n\n{path}\n-Ino such.proto={path}")?;
    fs::write(&rt, words.as_str(), text.as_bytes())?;
    let line = format!(in rt.alloc(); "{path}: no such.proto\n")?;
    expect(&rt, &run(&rt, &["--imports", &named])?, 0, &line, "");

    fs::write(&rt, words.as_str(), b"--list\n\xff\n")?;
    let line = format!(in rt.alloc();
        "protobuf_parse_cli: error: could not read the arguments in `{words}`: it is not UTF-8\n"
    )?;
    expect(&rt, &run(&rt, &[&named, &path])?, 2, "", &line);
    for path in [&path, &words] {
        fs::remove_file(&rt, path.as_str())?;
    }
    Ok(())
}

#[test]
fn tells_at_most_a_thousand(rt: HostRuntime) -> Result<(), Fail> {
    let path = own_path(&rt, "many.proto")?;
    let mut text = String::from_str(rt.alloc(), "syntax = 'proto3'; message M {\n")?;
    for i in 0..502u32 {
        write!(text, "int32 a{i} = 0;\n")?;
    }
    text.push_str("}")?;
    fs::write(&rt, path.as_str(), text.as_bytes())?;
    let outcome = run(&rt, &[&path])?;
    fs::remove_file(&rt, path.as_str())?;
    assert_eq!(rt; outcome.status, 1);
    assert_eq!(rt; count_lines(&outcome.err), 1001);
    // Each field has no positive number, and each but the first one that is taken.
    assert!(rt; outcome.err.as_slice().ends_with(b"\nand 3 more\n"));
    Ok(())
}

fn count_lines(bytes: &[u8]) -> usize {
    bytes.iter().filter(|byte| **byte == b'\n').count()
}

#[test]
fn tells_all_that_is_missing(rt: HostRuntime) -> Result<(), Fail> {
    let path = own_path(&rt, "lost.proto")?;
    let mut text = String::from_str(rt.alloc(), "syntax = 'proto2'; ")?;
    for i in 0..150u32 {
        write!(text, "import 'protobuf_parse_lost/{i}.proto';\n")?;
    }
    fs::write(&rt, path.as_str(), text.as_bytes())?;
    let outcome = run(&rt, &[&path])?;
    fs::remove_file(&rt, path.as_str())?;
    assert_eq!(rt; outcome.status, 1);
    assert_eq!(rt; count_lines(&outcome.err), 150);
    let last = format!(in rt.alloc();
        "\n{path}:150:1: error: the imported file \"protobuf_parse_lost/149.proto\" is not found; \
         it was looked for in [\"\"] [L2]\n"
    )?;
    assert!(rt; outcome.err.as_slice().ends_with(last.as_bytes()));
    Ok(())
}

#[test]
fn tells_what_stands_in_each_file(rt: HostRuntime) -> Result<(), Fail> {
    let mut paths = Vec::new(rt.alloc());
    for i in 100..220u32 {
        let name = format!(in rt.alloc(); "twice_{i}.proto")?;
        let path = own_path(&rt, &name)?;
        fs::write(
            &rt,
            path.as_str(),
            b"syntax = 'proto2';\nmessage M {} message M {}",
        )?;
        paths.push(path)?;
    }
    let mut args: Vec<&str> = Vec::new(rt.alloc());
    let mut want = String::new(rt.alloc());
    for path in &paths {
        args.push(path.as_str())?;
        write!(
            want,
            "{path}:2:14: error: the type \"M\" is declared twice; it stands at {path}:2:1 too [E5]\n"
        )?;
    }
    let outcome = run(&rt, &args)?;
    for path in &paths {
        fs::remove_file(&rt, path.as_str())?;
    }
    expect(&rt, &outcome, 1, "", &want);
    Ok(())
}

#[test]
fn tells_what_is_wrong_beside_what_is_missing(rt: HostRuntime) -> Result<(), Fail> {
    let alloc = rt.alloc();
    let below = own_path(&rt, "below.proto")?;
    let lost = own_path(&rt, "lost_import.proto")?;
    let over = own_path(&rt, "over_lost.proto")?;
    fs::write(&rt, below.as_str(), b"message B { optional Nope n = 1; }")?;
    let text = format!(in alloc;
        "import '{below}';\nimport 'protobuf_parse_lost.proto';\n\
         message L {{ optional Gone g = 1; optional int32 x = 2; optional int32 x = 3; }}"
    )?;
    fs::write(&rt, lost.as_str(), text.as_bytes())?;
    let text = format!(in alloc;
        "syntax = 'proto2'; import '{lost}';\nimport 'protobuf_parse_lost.proto';\n\
         message O {{ optional L l = 1; }}"
    )?;
    fs::write(&rt, over.as_str(), text.as_bytes())?;
    let outcome = run(&rt, &[&over])?;
    for path in [&below, &lost, &over] {
        fs::remove_file(&rt, path.as_str())?;
    }
    // `Gone` may be declared in the file that is missing; `Nope` is missing in a file that sees all.
    let sentence = "error: the imported file \"protobuf_parse_lost.proto\" is not found; \
        it was looked for in [\"\"] [L2]";
    let want = format!(in alloc;
        "{below}:1:13: error: \"Nope\" is not defined [E3]\n\
         {lost}:2:1: {sentence}\n\
         {lost}:3:56: error: \"x\" is declared already; `L.x` stands at 3:34 [E1]\n\
         {over}:2:1: {sentence}\n"
    )?;
    expect(&rt, &outcome, 1, "", &want);
    Ok(())
}

/// A run whose output takes so many bytes and then fails.
fn run_in_room<R: Files + AllocGlobal>(
    rt: &R,
    args: &[&str],
    room: usize,
) -> Result<Outcome, AllocError> {
    let mut err = Vec::new(rt.alloc());
    let status = command(rt, &words(rt.alloc(), args)?, &mut Full { room }, &mut err);
    let out = Vec::new(rt.alloc());
    Ok(Outcome { out, err, status })
}

#[test]
fn tells_that_it_cannot_write(rt: HostRuntime) -> Result<(), Fail> {
    let path = own_path(&rt, "no_room.proto")?;
    fs::write(&rt, path.as_str(), b"enum E { A = 0; B = 0; }")?;
    let line = "protobuf_parse_cli: error: could not write the output: no storage space\n";
    for room in [0, 5] {
        let listed = run_in_room(&rt, &["--rules=off", "--list", &path], room)?;
        expect(&rt, &listed, 1, "", line);
        let helped = run_in_room(&rt, &["--rules=off", "--help", &path], room)?;
        expect(&rt, &helped, 1, "", line);
        // A file without imports has no line of `--imports`.
        let imports = run_in_room(&rt, &["--rules=off", "--imports", &path], room)?;
        expect(&rt, &imports, 0, "", "");
    }
    // Where a warning can't be told, the status says it.
    let args = words(rt.alloc(), &["--rules=warn", &path])?;
    for room in [0, 5] {
        let mut out = Vec::new(rt.alloc());
        assert_eq!(rt; command(&rt, &args, &mut out, &mut Full { room }), 1);
    }
    fs::remove_file(&rt, path.as_str())?;
    Ok(())
}

/// What a linter tells of its own rule.
fn told(alloc: Global, file: &str, place: Option<Place>) -> Result<Diagnostic, AllocError> {
    Ok(Diagnostic {
        file: String::from_str(alloc, file)?,
        place,
        severity: Severity::Warning,
        code: String::from_str(alloc, "no-owner")?,
        message: String::from_str(alloc, "the message has no owner")?,
        help: Some(String::from_str(alloc, "set `option (owner)`")?),
    })
}

#[test]
fn linters_tell_diagnostics(rt: HostRuntime) -> Result<(), Fail> {
    let alloc = rt.alloc();
    let mut all = Vec::new(alloc);
    for place in [Place { line: 10, col: 1 }, Place { line: 9, col: 4 }] {
        all.push(told(alloc, "b\n.proto", Some(place))?)?;
        all.push(told(alloc, "a.proto", Some(place))?)?;
        all.push(told(alloc, "a.proto", None)?)?;
    }
    arrange(&mut all)?;
    let mut text = String::new(alloc);
    for each in &all {
        write!(text, "{each}\n")?;
    }
    let sentence = "warning: the message has no owner; set `option (owner)` [no-owner]";
    let want = format!(in alloc;
        "a.proto: {sentence}\na.proto:9:4: {sentence}\na.proto:10:1: {sentence}\n\
         b\\u{{a}}.proto:9:4: {sentence}\nb\\u{{a}}.proto:10:1: {sentence}\n"
    )?;
    assert_eq!(rt; text.as_str(), want.as_str());
    Ok(())
}
