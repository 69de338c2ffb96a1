//! An input that is read by itself.

use protobuf_parse::{
    InputReader, ProtoPath, ProtoPathBuf, ProtoPathResolver, ReadInputFault, ResolveFault,
    ResolvedProtoFile, RunInput,
};
use protobuf_parse_run::{InputRead, read_input};
use std::alloc::{AllocError, Global};
use std::fmt;
use std::test::Fail;

/// Files by their paths: what the resolver finds, and what lies at paths of their own.
#[derive(Clone, Copy)]
struct Shelf;

impl fmt::Display for Shelf {
    fn fmt<W: fmt::Write>(&self, f: &mut fmt::Formatter<W>) -> fmt::Result {
        f.write_str("a shelf")
    }
}

fn found(alloc: Global, name: &str, content: &[u8]) -> Result<ResolvedProtoFile, AllocError> {
    Ok(ResolvedProtoFile {
        path: format!(in alloc; "shelf/{name}")?,
        content: Vec::from_slice(alloc, content)?,
    })
}

fn refused(alloc: Global) -> ResolveFault {
    match String::from_str(alloc, "it is locked") {
        Ok(reason) => ResolveFault::Refused(reason),
        Err(_) => ResolveFault::Memory,
    }
}

impl ProtoPathResolver for Shelf {
    ghost may_answer = { λ _ _ _. Unit {0} };

    fn resolve(
        &self,
        alloc: Global,
        path: ProtoPath<'_>,
    ) -> Result<Option<ResolvedProtoFile>, ResolveFault> {
        let content = match path.to_str() {
            "shop.proto" => "import 'nowhere.proto'; message Shop {}".as_bytes(),
            "torn.proto" => "message {}".as_bytes(),
            "odd.proto" => &[0xff],
            "locked.proto" => return Err(refused(alloc)),
            _ => return Ok(None),
        };
        match found(alloc, path.to_str(), content) {
            Ok(file) => Ok(Some(file)),
            Err(_) => Err(ResolveFault::Memory),
        }
    }
}

impl InputReader for Shelf {
    ghost may_read = { λ _ _ _. Unit {0} };

    fn read(&self, alloc: Global, path: &str) -> Result<Vec<u8>, ReadInputFault> {
        if path != "own/shop.proto" {
            return Err(ReadInputFault::NotFound);
        }
        match Vec::from_slice(alloc, "enum Own {}".as_bytes()) {
            Ok(content) => Ok(content),
            Err(_) => Err(ReadInputFault::Memory),
        }
    }
}

/// The input of this name: in the folder `own` it lies there, and else the resolver finds it.
fn input(alloc: Global, name: &str) -> Result<RunInput, Fail> {
    let path = name.strip_prefix("own/").unwrap_or(name);
    let path = ProtoPathBuf::new(String::from_str(alloc, path)?)?;
    if path.as_path().to_str() == name {
        return Ok(RunInput::Named(path));
    }
    Ok(RunInput::At {
        name: path,
        fs_path: String::from_str(alloc, name)?,
    })
}

/// A line for what was read: its path, where it lies, and how many statements its tree has, or the
/// fault.
fn put(text: &mut String, read: &InputRead) -> Result<(), AllocError> {
    let path = read.entry.path.as_path().to_str();
    let origin = read.entry.origin();
    match &read.tree {
        Ok(tree) => write!(text, "{path} at {origin}: {}\n", tree.statements.len()),
        Err(fault) => write!(text, "{path} at {origin}: {fault}\n"),
    }
}

const BUNDLED: &[(&str, &str)] = &[("given.proto", "message A {} message B {} message C {}")];

#[test]
fn reads_one_file_and_nothing_that_it_imports(rt: HostRuntime) -> Result<(), Fail> {
    let alloc = rt.alloc();
    let mut told = String::new(alloc);
    for name in [
        "shop.proto",
        "own/shop.proto",
        "given.proto",
        "nowhere.proto",
        "own/other.proto",
        "locked.proto",
        "odd.proto",
        "torn.proto",
    ] {
        let input = input(alloc, name)?;
        put(
            &mut told,
            &read_input(alloc, &input, &Shelf, &Shelf, BUNDLED)?,
        )?;
    }
    let want = "shop.proto at shelf/shop.proto: 2\n\
        shop.proto at own/shop.proto: 1\n\
        given.proto at given.proto: 3\n\
        nowhere.proto at nowhere.proto: protobuf path `nowhere.proto` is not found in import path \
        a shelf\n\
        other.proto at other.proto: could not read file `own/other.proto`: not found\n\
        locked.proto at locked.proto: could not resolve `locked.proto`: it is locked\n\
        odd.proto at shelf/odd.proto: file `odd.proto` content is not UTF-8\n\
        torn.proto at shelf/torn.proto: error in `shelf/torn.proto`: at 1:9: S8 IncorrectInput\n";
    assert_eq!(rt; told.as_str(), want);
    Ok(())
}
