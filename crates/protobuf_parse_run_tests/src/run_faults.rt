//! The texts of all faults of runs, and of what resolvers and readers answer. Each kind has a list
//! of texts, and a `match` that gives each fault its place there: it has no arm for the rest, so
//! that a new fault does not compile before it is counted.

use protobuf_parse::{
    ElabError, ElabErrorKind, ParserError, ParserErrorWithLocation, PathError, Place,
    ReadInputFault, ResolveFault, RunFault,
};
use std::alloc::{AllocError, Global};
use std::test::Fail;

fn text(alloc: Global, words: &str) -> Result<String, AllocError> {
    String::from_str(alloc, words)
}

const READ_INPUT_FAULTS: [(ReadInputFault, &str); 3] = [
    (ReadInputFault::Memory, "out of memory"),
    (ReadInputFault::NotFound, "not found"),
    (ReadInputFault::Failed, "read failed"),
];

fn place_of_read_input_fault(fault: ReadInputFault) -> usize {
    match fault {
        ReadInputFault::Memory => 0,
        ReadInputFault::NotFound => 1,
        ReadInputFault::Failed => 2,
    }
}

#[test]
fn tells_why_an_input_cannot_be_read(rt: HostRuntime) -> Result<(), Fail> {
    let alloc = rt.alloc();
    for (place, (fault, words)) in READ_INPUT_FAULTS.iter().enumerate() {
        assert_eq!(rt; place_of_read_input_fault(*fault), place);
        assert_eq!(rt; format!(in alloc; "{fault}")?.as_str(), *words);
        let line = RunFault::CouldNotReadFile(text(alloc, "d/x.proto")?, *fault);
        let want = format!(in alloc; "could not read file `d/x.proto`: {words}")?;
        assert_eq!(rt; format!(in alloc; "{line}")?, want);
    }
    Ok(())
}

const RESOLVE_FAULTS: [&str; 3] = ["out of memory", "could not read file `in/x`", "closed"];

fn resolve_fault(alloc: Global, place: usize) -> Result<ResolveFault, AllocError> {
    Ok(match place {
        0 => ResolveFault::Memory,
        1 => ResolveFault::CouldNotRead(text(alloc, "in/x")?),
        _ => ResolveFault::Refused(text(alloc, "closed")?),
    })
}

fn place_of_resolve_fault(fault: &ResolveFault) -> usize {
    match fault {
        ResolveFault::Memory => 0,
        ResolveFault::CouldNotRead(_) => 1,
        ResolveFault::Refused(_) => 2,
    }
}

#[test]
fn tells_why_a_path_is_not_resolved(rt: HostRuntime) -> Result<(), Fail> {
    let alloc = rt.alloc();
    for (place, words) in RESOLVE_FAULTS.iter().enumerate() {
        let fault = resolve_fault(alloc, place)?;
        assert_eq!(rt; place_of_resolve_fault(&fault), place);
        assert_eq!(rt; format!(in alloc; "{fault}")?.as_str(), *words);
        let line = RunFault::Resolver(text(alloc, "n.proto")?, fault);
        let want = format!(in alloc; "could not resolve `n.proto`: {words}")?;
        assert_eq!(rt; format!(in alloc; "{line}")?, want);
    }
    Ok(())
}

const RUN_FAULTS: [&str; 12] = [
    "out of memory",
    "file `p` content is not UTF-8",
    "protobuf path `p` is not found in import path [\"a\", \"b\"]",
    "file `f` must reside in include path [\"a\", \"b\"]",
    "could not read file `f`: not found",
    "could not resolve `p`: closed",
    "input `f` is shadowed: `p` was loaded with other content",
    "import cycle at `p`",
    "import chain too long from `p`",
    "error in `f`: at 4:13: S8 IncorrectInput",
    "error in `f`: E3 NotFoundByRelPath: Item",
    "input `f`: dot-dot in path",
];

/// The fault of that place. Its path is `p`, its file or input `f`.
fn run_fault(alloc: Global, place: usize) -> Result<RunFault, AllocError> {
    let path = text(alloc, "p")?;
    let file = text(alloc, "f")?;
    Ok(match place {
        0 => RunFault::Memory,
        1 => RunFault::ContentIsNotUtf8(path),
        2 => RunFault::FileNotFoundInImportPath(path, text(alloc, "[\"a\", \"b\"]")?),
        3 => RunFault::FileMustResideInImportPath(file, text(alloc, "[\"a\", \"b\"]")?),
        4 => RunFault::CouldNotReadFile(file, ReadInputFault::NotFound),
        5 => RunFault::Resolver(path, resolve_fault(alloc, 2)?),
        6 => RunFault::Shadowed(file, path),
        7 => RunFault::ImportCycle(path),
        8 => RunFault::ImportChainTooLong(path),
        9 => RunFault::Parse(file, INCORRECT),
        10 => RunFault::Elaborate(file, not_found(alloc)?),
        _ => RunFault::InputPath(file, PathError::DotDot),
    })
}

const INCORRECT: ParserErrorWithLocation = ParserErrorWithLocation {
    error: ParserError::IncorrectInput,
    line: 4,
    col: 13,
};

fn not_found(alloc: Global) -> Result<ElabError, AllocError> {
    Ok(ElabError {
        place: Place { line: 3, col: 5 },
        kind: ElabErrorKind::NotFoundByRelPath,
        what: text(alloc, "Item")?,
    })
}

fn place_of_run_fault(fault: &RunFault) -> usize {
    match fault {
        RunFault::Memory => 0,
        RunFault::ContentIsNotUtf8(_) => 1,
        RunFault::FileNotFoundInImportPath(_, _) => 2,
        RunFault::FileMustResideInImportPath(_, _) => 3,
        RunFault::CouldNotReadFile(_, _) => 4,
        RunFault::Resolver(_, _) => 5,
        RunFault::Shadowed(_, _) => 6,
        RunFault::ImportCycle(_) => 7,
        RunFault::ImportChainTooLong(_) => 8,
        RunFault::Parse(_, _) => 9,
        RunFault::Elaborate(_, _) => 10,
        RunFault::InputPath(_, _) => 11,
    }
}

#[test]
fn tells_why_a_run_gave_no_descriptors(rt: HostRuntime) -> Result<(), Fail> {
    let alloc = rt.alloc();
    for (place, words) in RUN_FAULTS.iter().enumerate() {
        let fault = run_fault(alloc, place)?;
        assert_eq!(rt; place_of_run_fault(&fault), place);
        assert_eq!(rt; format!(in alloc; "{fault}")?.as_str(), *words);
    }
    Ok(())
}

/// A resolver whose own text is empty, and one that refuses without a reason.
#[test]
fn no_line_ends_in_a_blank(rt: HostRuntime) -> Result<(), Fail> {
    let alloc = rt.alloc();
    let nowhere = RunFault::FileNotFoundInImportPath(text(alloc, "n.proto")?, String::new(alloc));
    assert_eq!(rt;
        format!(in alloc; "{nowhere}")?.as_str(),
        "protobuf path `n.proto` is not found in import path"
    );
    let refused = ResolveFault::Refused(String::new(alloc));
    let refused = RunFault::Resolver(text(alloc, "n.proto")?, refused);
    assert_eq!(rt;
        format!(in alloc; "{refused}")?.as_str(),
        "could not resolve `n.proto`:"
    );
    Ok(())
}
