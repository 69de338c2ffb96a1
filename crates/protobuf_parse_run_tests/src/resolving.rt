//! Descriptors by a resolver of the caller's own.

ghost use Rattle.std.specs.Prelude.{IfErr};
ghost use Rattle.protobuf_parse_run_tests.specs.Sources.{IsGiven, IsOfTheFiles};

use protobuf_parse::pure::parse_and_typecheck_custom;
use protobuf_parse::{
    FileDescriptorProto, InputReader, ProtoPath, ProtoPathBuf, ProtoPathResolver, ReadInputFault,
    ResolveFault, ResolvedProtoFile, RunFault, RunInput, listing, run_inputs,
};
use std::alloc::{AllocError, Global};
use std::cell::Cell;
use std::fmt;
use std::test::Fail;

/// Finds `b.proto`, and what it imports.
#[derive(Clone, Copy)]
struct Fruit;

impl fmt::Display for Fruit {
    fn fmt<W: fmt::Write>(&self, f: &mut fmt::Formatter<W>) -> fmt::Result {
        f.write_str("Fruit")
    }
}

fn found(alloc: Global, name: &str, text: &str) -> Result<ResolvedProtoFile, AllocError> {
    Ok(ResolvedProtoFile {
        path: format!(in alloc; "in/{name}")?,
        content: Vec::from_slice(alloc, text.as_bytes())?,
    })
}

impl ProtoPathResolver for Fruit {
    ghost may_answer = { λ _ _ answer. IsGiven answer };

    fn resolve(
        &self,
        alloc: Global,
        path: ProtoPath<'_>,
    ) -> Result<Option<ResolvedProtoFile>, ResolveFault> {
        let name = path.to_str();
        let text = if name == "a.proto" {
            "syntax = 'proto3'; message Apple {}"
        } else if name == "b.proto" {
            "syntax = 'proto3'; import public 'a.proto'; message Banana { int32 a = 1; }"
        } else {
            return Ok(None);
        };
        match found(alloc, name, text) {
            Ok(file) => Ok(Some(file)),
            Err(_) => Err(ResolveFault::Memory),
        }
    }
}

fn path(alloc: Global, text: &str) -> Result<ProtoPathBuf, Fail> {
    match ProtoPathBuf::new(String::from_str(alloc, text)?) {
        Ok(path) => Ok(path),
        Err(_) => Err(Fail::from("no proto path")),
    }
}

/// What `Fruit` finds. It refuses nothing, so all that can be wrong is in the files, or memory is
/// short.
fn fruits(alloc: Global, paths: &[ProtoPathBuf]) -> Result<Vec<FileDescriptorProto>, RunFault>
    ensures { IfErr result IsOfTheFiles }
{
    parse_and_typecheck_custom(alloc, paths, &Fruit)
}

#[test]
fn describes_what_a_resolver_finds(rt: HostRuntime) -> Result<(), Fail> {
    let alloc = rt.alloc();
    let paths = vec![in alloc; path(alloc, "b.proto")?]?;
    let described = fruits(alloc, &paths)?;
    let want = "file a.proto\n  syntax proto3\n  message Apple\n\
        file b.proto\n  syntax proto3\n  import public a.proto\n  message Banana\n    \
        field optional int32 a = 1 json \"a\"\n";
    assert_eq!(rt; listing(alloc, &described)?.as_str(), want);
    Ok(())
}

#[test]
fn tells_what_no_resolver_finds(rt: HostRuntime) -> Result<(), Fail> {
    let alloc = rt.alloc();
    let paths = vec![in alloc; path(alloc, "b.proto")?, path(alloc, "c")?]?;
    let refused = fruits(alloc, &paths);
    let fault = RunFault::FileNotFoundInImportPath(
        String::from_str(alloc, "c")?,
        String::from_str(alloc, "Fruit")?,
    );
    assert!(rt; refused == Err(fault));
    Ok(())
}

/// Finds `top.proto`, which imports two files that import `base.proto`, and counts how often it is
/// asked: as a resolver, and as a reader of files that say nothing. It says that `odd.proto` is
/// empty where that is the first call of all, and that there is none at any other.
#[derive(Drop)]
struct Counted {
    found: Cell<usize>,
    read: Cell<usize>,
}

impl Counted {
    fn new() -> Self {
        Counted {
            found: Cell::new(0),
            read: Cell::new(0),
        }
    }
}

impl fmt::Display for Counted {
    fn fmt<W: fmt::Write>(&self, f: &mut fmt::Formatter<W>) -> fmt::Result {
        f.write_str("Counted")
    }
}

fn once_more(count: &Cell<usize>) -> usize {
    let before = count.get();
    count.set(before.wrapping_add(1));
    before
}

impl ProtoPathResolver for Counted {
    ghost may_answer = { λ _ _ _. Unit {0} };

    fn resolve(
        &self,
        alloc: Global,
        path: ProtoPath<'_>,
    ) -> Result<Option<ResolvedProtoFile>, ResolveFault> {
        let before = once_more(&self.found);
        let text = match path.to_str() {
            "top.proto" => "import 'left.proto'; import 'right.proto'; import 'left.proto';",
            "left.proto" | "right.proto" => "import public 'base.proto'; import 'base.proto';",
            "base.proto" => "message Base {}",
            "odd.proto" if before == 0 => "",
            _ => return Ok(None),
        };
        match found(alloc, path.to_str(), text) {
            Ok(file) => Ok(Some(file)),
            Err(_) => Err(ResolveFault::Memory),
        }
    }
}

impl InputReader for Counted {
    ghost may_read = { λ _ _ _. Unit {0} };

    fn read(&self, alloc: Global, _path: &str) -> Result<Vec<u8>, ReadInputFault> {
        once_more(&self.read);
        Ok(Vec::new(alloc))
    }
}

/// The inputs of these names, in order: those in the folder `own` lie there, and the resolver finds
/// the others.
fn inputs(alloc: Global, names: &[&str]) -> Result<Vec<RunInput>, Fail> {
    let mut inputs = Vec::new(alloc);
    for name in names {
        inputs.push(input(alloc, name)?)?;
    }
    Ok(inputs)
}

fn input(alloc: Global, name: &str) -> Result<RunInput, Fail> {
    match name.strip_prefix("own/") {
        None => Ok(RunInput::Named(path(alloc, name)?)),
        Some(own) => {
            let fs_path = String::from_str(alloc, name)?;
            let name = path(alloc, own)?;
            Ok(RunInput::At { name, fs_path })
        }
    }
}

#[test]
fn asks_a_resolver_once_for_a_path(rt: HostRuntime) -> Result<(), Fail> {
    let alloc = rt.alloc();
    let names = ["top.proto", "base.proto", "top.proto"];
    let inputs = inputs(alloc, &names)?;
    let counted = Counted::new();
    let log = run_inputs(alloc, &inputs, &counted, &counted, &[]);
    assert_eq!(rt; log.result.is_ok(), true);
    assert_eq!(rt; log.reads.len(), 4);
    assert_eq!(rt; counted.found.get(), 4);
    assert_eq!(rt; counted.read.get(), 0);
    Ok(())
}

#[test]
fn asks_a_reader_once_for_an_input(rt: HostRuntime) -> Result<(), Fail> {
    let alloc = rt.alloc();
    let names = [
        "own/odd.proto",
        "own/odd.proto",
        "odd.proto",
        "own/base.proto",
    ];
    let inputs = inputs(alloc, &names)?;
    let counted = Counted::new();
    let log = run_inputs(alloc, &inputs, &counted, &counted, &[]);
    assert_eq!(rt; log.result.is_ok(), true);
    assert_eq!(rt; log.reads.len(), 3);
    assert_eq!(rt; counted.found.get(), 0);
    assert_eq!(rt; counted.read.get(), 3);
    Ok(())
}

#[test]
fn asks_no_second_time_before_a_fault(rt: HostRuntime) -> Result<(), Fail> {
    let alloc = rt.alloc();
    let names = [
        "odd.proto",
        "odd.proto",
        "own/odd.proto",
        "left.proto",
        "none.proto",
        "right.proto",
    ];
    let inputs = inputs(alloc, &names)?;
    let counted = Counted::new();
    let log = run_inputs(alloc, &inputs, &counted, &counted, &[]);
    let fault = RunFault::FileNotFoundInImportPath(
        String::from_str(alloc, "none.proto")?,
        String::from_str(alloc, "Counted")?,
    );
    assert!(rt; log.result == Err(fault));
    assert_eq!(rt; log.reads.len(), 5);
    assert_eq!(rt; counted.found.get(), 4);
    assert_eq!(rt; counted.read.get(), 1);
    Ok(())
}
