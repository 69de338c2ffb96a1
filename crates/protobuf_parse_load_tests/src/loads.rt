//! Loads whose steps are told as lines.

use protobuf_parse_base::proto_path::{ProtoPath, ProtoPathBuf};
use protobuf_parse_load::{Asker, Load, LoadStep, Unfollowed, load_inputs};
use protobuf_parse_run::{
    InputReader, ProtoPathResolver, ReadInputFault, ResolveFault, ResolvedProtoFile, RunInput,
};
use std::alloc::{AllocError, Global};
use std::fmt;
use std::test::Fail;

/// Files by their paths: what the resolver finds, and one that lies at a path of its own.
#[derive(Clone, Copy)]
struct Shelf;

impl fmt::Display for Shelf {
    fn fmt<W: fmt::Write>(&self, f: &mut fmt::Formatter<W>) -> fmt::Result {
        f.write_str("a shelf")
    }
}

const MAIN: &str = "import 'a.proto';\n\
    import 'b.proto';\n\
    import 'nowhere.proto';\n\
    import 'torn.proto';\n\
    import 'torn.proto';\n";

/// The number of the file that a file of the long chain imports.
fn next_in_chain(path: &str) -> Option<u32> {
    let number = path.strip_prefix("chain/")?.strip_suffix(".proto")?;
    match number.parse::<u32>() {
        Ok(number) if number < 101 => Some(number + 1),
        _ => None,
    }
}

fn content_of(alloc: Global, path: &str) -> Result<Option<String>, AllocError> {
    if let Some(next) = next_in_chain(path) {
        return Ok(Some(format!(in alloc; "import 'chain/{next}.proto';")?));
    }
    let text = match path {
        "main.proto" => MAIN,
        "a.proto" => "import 'b.proto';",
        "b.proto" => "message B {}\nimport 'a.proto';",
        "torn.proto" => "message {}",
        "chain/101.proto" => "",
        _ => return Ok(None),
    };
    Ok(Some(String::from_str(alloc, text)?))
}

fn found(alloc: Global, path: &str) -> Result<Option<ResolvedProtoFile>, AllocError> {
    match content_of(alloc, path)? {
        Some(content) => Ok(Some(ResolvedProtoFile {
            path: String::from_str(alloc, path)?,
            content: content.into_bytes(),
        })),
        None => Ok(None),
    }
}

impl ProtoPathResolver for Shelf {
    ghost may_answer = { λ _ _ _. Unit {0} };

    fn resolve(
        &self,
        alloc: Global,
        path: ProtoPath<'_>,
    ) -> Result<Option<ResolvedProtoFile>, ResolveFault> {
        match found(alloc, path.to_str()) {
            Ok(file) => Ok(file),
            Err(_) => Err(ResolveFault::Memory),
        }
    }
}

impl InputReader for Shelf {
    ghost may_read = { λ _ _ _. Unit {0} };

    fn read(&self, alloc: Global, path: &str) -> Result<Vec<u8>, ReadInputFault> {
        match Vec::from_slice(alloc, path.as_bytes()) {
            Ok(content) => Ok(content),
            Err(_) => Err(ReadInputFault::Memory),
        }
    }
}

/// The input of this name: in the folder `own` it lies there, and else the resolver finds it.
fn input(alloc: Global, name: &str) -> Result<RunInput, Fail> {
    let path = name.strip_prefix("own/").unwrap_or(name);
    let path = ProtoPathBuf::new(String::from_str(alloc, path)?)?;
    if path.as_path().to_str() == name {
        return Ok(RunInput::Named(path));
    }
    Ok(RunInput::At {
        name: path,
        fs_path: String::from_str(alloc, name)?,
    })
}

fn put_asker(text: &mut String, asker: &Asker) -> Result<(), AllocError> {
    match asker {
        Asker::Input(number) => write!(text, "input {number}"),
        Asker::Import { file, place } => { write!(text, "{file}:{}:{}", place.line, place.col) }
    }
}

fn put_why(text: &mut String, why: &Unfollowed) -> Result<(), AllocError> {
    match why {
        Unfollowed::Unread(number) => write!(text, "unread file {number}\n"),
        Unfollowed::Cycle => write!(text, "a cycle\n"),
        Unfollowed::TooLong(input) => write!(text, "too long from {input}\n"),
    }
}

/// A line for a step.
fn put_step(text: &mut String, step: &LoadStep) -> Result<(), AllocError> {
    match step {
        LoadStep::Opened { asker, path } => {
            put_asker(text, asker)?;
            write!(text, " opens {path}\n")
        }
        LoadStep::Told { asker, path, why } => {
            put_asker(text, asker)?;
            write!(text, " leaves {path}: ")?;
            put_why(text, why)
        }
        LoadStep::Closed { path, height } => write!(text, "closes {path}, {height}\n"),
        LoadStep::Held { input, path, read } => {
            write!(text, "holds input {input} at {path}, read {read}\n")
        }
    }
}

fn loaded(alloc: Global, names: &[&str]) -> Result<Load, Fail> {
    let mut inputs = Vec::new(alloc);
    for name in names {
        inputs.push(input(alloc, name)?)?;
    }
    Ok(load_inputs(alloc, &inputs, &Shelf, &Shelf, &[]).result?)
}

#[test]
fn goes_on_behind_what_it_cannot_follow(rt: HostRuntime) -> Result<(), Fail> {
    let alloc = rt.alloc();
    let load = loaded(
        alloc,
        &["main.proto", "b.proto", "own/main.proto", "nowhere.proto"],
    )?;
    let mut told = String::new(alloc);
    for step in &load.steps {
        put_step(&mut told, step)?;
    }
    for file in &load.files {
        let count = file.tree.statements.len();
        write!(told, "{} of read {}: {count}\n", file.path, file.read)?;
    }
    for file in &load.unread {
        write!(
            told,
            "{} of read {}: {}\n",
            file.path, file.read, file.fault
        )?;
    }
    let want = "input 0 opens main.proto\n\
        main.proto:1:1 opens a.proto\n\
        a.proto:1:1 opens b.proto\n\
        b.proto:2:1 leaves a.proto: a cycle\n\
        closes b.proto, 1\n\
        closes a.proto, 2\n\
        main.proto:3:1 leaves nowhere.proto: unread file 0\n\
        main.proto:4:1 leaves torn.proto: unread file 1\n\
        main.proto:5:1 leaves torn.proto: unread file 1\n\
        closes main.proto, 3\n\
        holds input 2 at main.proto, read 5\n\
        input 3 leaves nowhere.proto: unread file 0\n\
        b.proto of read 2: 2\n\
        a.proto of read 1: 1\n\
        main.proto of read 0: 5\n\
        nowhere.proto of read 3: protobuf path `nowhere.proto` is not found in import path \
        a shelf\n\
        torn.proto of read 4: error in `torn.proto`: at 1:9: S8 IncorrectInput\n";
    assert_eq!(rt; told.as_str(), want);
    Ok(())
}

#[test]
fn leaves_what_makes_a_chain_too_long(rt: HostRuntime) -> Result<(), Fail> {
    let alloc = rt.alloc();
    let load = loaded(
        alloc,
        &["chain/1.proto", "chain/101.proto", "chain/0.proto"],
    )?;
    let mut told = String::new(alloc);
    for step in &load.steps {
        if let LoadStep::Told { .. } = step {
            put_step(&mut told, step)?;
        }
    }
    let want = "chain/100.proto:1:1 leaves chain/101.proto: too long from chain/1.proto\n\
        chain/0.proto:1:1 leaves chain/1.proto: too long from chain/0.proto\n";
    assert_eq!(rt; told.as_str(), want);
    assert_eq!(rt; load.files.len(), 102);
    Ok(())
}
