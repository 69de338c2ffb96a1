//! Faults of runs as diagnostics.

ghost use Rattle.std.specs.Prelude.{◌≡◌, IfOk, Some, string_bytes};
ghost use Rattle.protobuf_parse_diagnostics.specs.Codes.{syntax_code_of};
ghost use Rattle.protobuf_parse_diagnostics.specs.Told.{IsOfCode, text_place};

use crate::diagnostic::Diagnostic;
use crate::imports::Importers;
use crate::loading::{loading_diagnostic, told_at};
use crate::meaning::meaning_diagnostic;
use crate::sources::{Sources, Trees, parsed_texts};
use crate::syntax::{syntax_code, syntax_sentence};
use protobuf_parse_run::RunFault;
use protobuf_parse_syntax::{ParserErrorWithLocation, Place};
use std::alloc::{AllocError, Global};

/// What is told of a fault of a run that read these files. Want of memory is the one error, as a
/// fault too.
pub fn fault_diagnostic(
    alloc: Global,
    sources: &Sources<'_>,
    fault: &RunFault,
) -> Result<Diagnostic, AllocError> {
    match fault {
        RunFault::Parse(origin, error) => parse_diagnostic(alloc, sources, origin, error),
        RunFault::Elaborate(origin, error) => meaning_diagnostic(alloc, sources, origin, error),
        _ => {
            let parsed = parsed_texts(alloc, sources)?;
            let trees = Trees::of_texts(alloc, sources, &parsed)?;
            let importers = Importers::of(alloc, &trees)?;
            loading_diagnostic(alloc, sources, &importers, fault)
        }
    }
}

/// What is told of the text of the file that lies there.
fn parse_diagnostic(
    alloc: Global,
    sources: &Sources<'_>,
    origin: &str,
    error: &ParserErrorWithLocation,
) -> Result<Diagnostic, AllocError> {
    match sources.at_origin(origin) {
        Some(source) => {
            let text = source.text;
            text_diagnostic(alloc, origin, text, error)
        }
        None => text_diagnostic(alloc, origin, "", error),
    }
}

/// What is told of a text that has no tree. `file` is how people open it. The one error is that
/// memory is short.
pub fn text_diagnostic(
    alloc: Global,
    file: &str,
    text: &str,
    error: &ParserErrorWithLocation,
) -> Result<Diagnostic, AllocError>
    ensures code { IfOk result (IsOfCode (syntax_code_of error.now.error)) }
    ensures file { IfOk result (λ told. string_bytes told.file ≡ file.now) }
    ensures place { IfOk result (λ told. told.place ≡ Some (text_place error.now)) }
{
    let place = Place {
        line: error.line,
        col: error.col,
    };
    let sentence = syntax_sentence(alloc, error.error, text, place)?;
    told_at(alloc, syntax_code(error.error), file, Some(place), sentence)
}
