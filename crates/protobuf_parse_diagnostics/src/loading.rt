//! Faults of loading: L1 to L11, but for the text and the meaning of a file.

ghost use Rattle.std.specs.Prelude.{◌≡◌, IfOk, codes, string_bytes, true};
ghost use Rattle.protobuf_parse_diagnostics.specs.Codes.{run_code_of};
ghost use Rattle.protobuf_parse_diagnostics.specs.Told.{IsAt, IsOfCode};
ghost use Rattle.protobuf_parse_diagnostics.specs.Telling.{importer_spot};
ghost use Rattle.protobuf_parse_diagnostics.specs.Told.{is_told_where_asked};

use crate::diagnostic::{Diagnostic, Severity};
use crate::imports::{Importer, Importers, cycle_at, import_place, long_import};
use crate::paths::{path_code, path_sentence};
use crate::sources::{Sources, Trees};
use crate::syntax::Sentence;
use protobuf_parse_run::{ReadInputFault, ResolveFault, RunFault};
use protobuf_parse_syntax::Place;
use std::alloc::{AllocError, Global};

/// The code of a fault of a run: L1 to L11. Want of memory has none.
pub fn run_code(fault: &RunFault) -> &'static str
    ensures { result.now ≡ run_code_of fault.now }
{
    match fault {
        RunFault::Memory => "",
        RunFault::ContentIsNotUtf8(_) => "L1",
        RunFault::FileNotFoundInImportPath(_, _) => "L2",
        RunFault::FileMustResideInImportPath(_, _) => "L3",
        RunFault::CouldNotReadFile(_, _) => "L4",
        RunFault::Resolver(_, _) => "L5",
        RunFault::Shadowed(_, _) => "L6",
        RunFault::ImportCycle(_) => "L7",
        RunFault::ImportChainTooLong(_) => "L8",
        RunFault::Parse(_, _) => "L9",
        RunFault::Elaborate(_, _) => "L10",
        RunFault::InputPath(_, _) => "L11",
    }
}

/// What is told of a fault of loading.
pub fn loading_diagnostic(
    alloc: Global,
    sources: &Sources<'_>,
    importers: &Importers<'_, '_, '_>,
    fault: &RunFault,
) -> Result<Diagnostic, AllocError> {
    match fault {
        RunFault::FileNotFoundInImportPath(path, _) | RunFault::Resolver(path, _) => {
            asked_diagnostic(alloc, sources, importers.first(path), fault)
        }
        RunFault::ImportCycle(path) => cycle(alloc, sources, importers.trees, path),
        RunFault::ImportChainTooLong(path) => too_long(alloc, sources, importers.trees, path),
        _ => file_diagnostic(alloc, sources, fault),
    }
}

/// What is told of a file that is asked for: at the statement that imports it, if one does, that it
/// is not found or that a resolver gave no file.
pub fn asked_diagnostic(
    alloc: Global,
    sources: &Sources<'_>,
    importer: Option<Importer<'_>>,
    fault: &RunFault,
) -> Result<Diagnostic, AllocError>
    ensures code { IfOk result (IsOfCode (run_code_of fault.now)) }
    ensures place { is_told_where_asked fault.now ≡ true
        → IfOk result (IsAt (importer_spot importer.entry)) }
{
    match fault {
        RunFault::FileNotFoundInImportPath(path, text) => not_found(alloc, importer, path, text),
        RunFault::Resolver(path, why) => unresolved(alloc, importer, path, why),
        _ => file_diagnostic(alloc, sources, fault),
    }
}

/// What is told of a file as a whole, or of what stands in it.
pub fn file_diagnostic(
    alloc: Global,
    sources: &Sources<'_>,
    fault: &RunFault,
) -> Result<Diagnostic, AllocError>
    ensures { IfOk result (IsOfCode (run_code_of fault.now)) }
{
    let code = run_code(fault);
    match fault {
        RunFault::ContentIsNotUtf8(path) => {
            let sentence = Sentence::fixed(alloc, "the file is no UTF-8 from here on")?;
            let place = sources.end_of_text(path);
            told_at(alloc, code, sources.origin_of(path), place, sentence)
        }
        RunFault::FileMustResideInImportPath(input, includes) => told_of(
            alloc,
            code,
            input,
            Sentence::new(format!(in alloc; "the file lies in none of the includes {includes}")?),
        ),
        RunFault::CouldNotReadFile(path, why) => {
            told_of(alloc, code, path, Sentence::fixed(alloc, unread(*why))?)
        }
        RunFault::Shadowed(input, path) => told_of(alloc, code, input, shadowed(alloc, path)?),
        RunFault::InputPath(input, why) => {
            let sentence = path_sentence(*why);
            let path = path_code(*why);
            let message = format!(in alloc;
                "what follows the include is no path of a file: {sentence} ({path})"
            )?;
            told_of(alloc, code, input, Sentence::new(message))
        }
        _ => Err(AllocError),
    }
}

/// Told of a file as a whole.
fn told_of(
    alloc: Global,
    code: &str,
    file: &str,
    sentence: Sentence,
) -> Result<Diagnostic, AllocError>
    ensures { IfOk result (IsOfCode code.now) }
{
    told_at(alloc, code, file, None, sentence)
}

/// Told of a place of a file.
pub fn told_at(
    alloc: Global,
    code: &str,
    file: &str,
    place: Option<Place>,
    sentence: Sentence,
) -> Result<Diagnostic, AllocError>
    ensures code { IfOk result (IsOfCode code.now) }
    ensures file { IfOk result (λ told. string_bytes told.file ≡ file.now) }
    ensures place { IfOk result (λ told. told.place ≡ place) }
{
    let Sentence { message, help } = sentence;
    Ok(Diagnostic {
        file: String::from_str(alloc, file)?,
        place,
        severity: Severity::Error,
        code: String::from_str(alloc, code)?,
        message,
        help,
    })
}

/// L2, at the statement that imports the file, if one does.
fn not_found(
    alloc: Global,
    importer: Option<Importer<'_>>,
    path: &str,
    includes: &str,
) -> Result<Diagnostic, AllocError>
    ensures code { IfOk result (IsOfCode (codes "L2")) }
    ensures place { IfOk result (IsAt (importer_spot importer.entry)) }
{
    let help = if includes.is_empty() {
        None
    } else {
        Some(format!(in alloc; "it was looked for in {includes}")?)
    };
    match importer {
        Some(Importer { origin, place }) => {
            let message = format!(in alloc; "the imported file \"{path}\" is not found")?;
            told_at(alloc, "L2", origin, Some(place), Sentence { message, help })
        }
        None => {
            let message = String::from_str(alloc, "no such file")?;
            told_of(alloc, "L2", path, Sentence { message, help })
        }
    }
}

fn unread(why: ReadInputFault) -> &'static str {
    match why {
        ReadInputFault::NotFound => "no such file",
        ReadInputFault::Failed => "the file could not be read",
        ReadInputFault::Memory => "memory is short",
    }
}

/// L5, at the statement that imports the file, if one does.
fn unresolved(
    alloc: Global,
    importer: Option<Importer<'_>>,
    path: &str,
    why: &ResolveFault,
) -> Result<Diagnostic, AllocError>
    ensures code { IfOk result (IsOfCode (codes "L5")) }
    ensures place { IfOk result (IsAt (importer_spot importer.entry)) }
{
    match importer {
        Some(Importer { origin, place }) => {
            let message = format!(in alloc; "the import of \"{path}\" failed: {why}")?;
            told_at(alloc, "L5", origin, Some(place), Sentence::new(message))
        }
        None => {
            let message = format!(in alloc; "{why}")?;
            told_of(alloc, "L5", path, Sentence::new(message))
        }
    }
}

/// L8, at the first statement by which a chain of too many files begins.
fn too_long(
    alloc: Global,
    sources: &Sources<'_>,
    trees: &Trees<'_, '_>,
    path: &str,
) -> Result<Diagnostic, AllocError> {
    let place = long_import(alloc, trees, path, 100)?;
    let sentence = Sentence::fixed(
        alloc,
        "a chain of imports from this file has more than 100 files",
    )?;
    told_at(alloc, "L8", sources.origin_of(path), place, sentence)
}

fn shadowed(alloc: Global, path: &str) -> Result<Sentence, AllocError> {
    let message = format!(in alloc;
        "the file is shadowed: \"{path}\" was loaded from elsewhere, with other content"
    )?;
    let help = "name the include of this file before the others";
    Ok(Sentence {
        message,
        help: Some(String::from_str(alloc, help)?),
    })
}

/// L7, at the statement by which the file begins the cycle.
fn cycle(
    alloc: Global,
    sources: &Sources<'_>,
    trees: &Trees<'_, '_>,
    path: &str,
) -> Result<Diagnostic, AllocError> {
    let chain = cycle_at(alloc, trees, path)?;
    let mut message = String::from_str(alloc, "the file imports itself")?;
    for (i, each) in chain.iter().enumerate() {
        message.push_str(if i == 0 { ": " } else { " -> " })?;
        message.push_str(each)?;
    }
    let place = match chain.get(1) {
        Some(next) => import_place(alloc, trees, path, next)?,
        None => None,
    };
    told_at(
        alloc,
        "L7",
        sources.origin_of(path),
        place,
        Sentence::new(message),
    )
}
