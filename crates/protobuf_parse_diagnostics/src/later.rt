//! The faults of texts behind the first one of each.

ghost use Rattle.std.specs.Prelude.{◌≡◌, IfOk, OnOk, map, option_map, string_bytes};
ghost use Rattle.protobuf_parse_diagnostics.specs.Later.{AreLater, fault_line};
ghost use Rattle.protobuf_parse_diagnostics.specs.Later.{faulty_text};
ghost use Rattle.protobuf_parse_diagnostics.specs.Telling.{Tells, TellsLater};
ghost use Rattle.protobuf_parse_diagnostics.specs.Told.{IsTold, origin_in};

use crate::diagnostic::Diagnostic;
use crate::faults::text_diagnostic;
use crate::sources::Sources;
use protobuf_parse_load::UnreadFile;
use protobuf_parse_recovery::parse_faults;
use protobuf_parse_run::RunFault;
use protobuf_parse_syntax::ParserErrorWithLocation;
use std::alloc::{AllocError, Global};

/// What is told of the texts of unread files behind the first fault of each, which
/// [`check_diagnostics`] tells: an error of each other one that
/// [`parse_faults`](protobuf_parse_recovery::parse_faults) finds. The one error is that memory is
/// short.
///
/// [`check_diagnostics`]: crate::check_diagnostics
#[tactic(auto, using(crate::proofs::Laters::later_next))]
pub fn later_diagnostics(
    alloc: Global,
    sources: &Sources<'_>,
    unread: &[UnreadFile],
) -> Result<Vec<Diagnostic>, AllocError>
    ensures { IfOk result (λ told. AreLater sources.now unread.now told.items) }
{
    let mut told = Vec::new(alloc);
    for file in unread {
        tell_later(alloc, &mut told, sources, file)?;
    }
    Ok(told)
}

/// Tells the faults of the file's text behind the first one.
#[tactic(auto, using(crate::proofs::Laters::no_later, crate::proofs::Laters::some_later, crate::proofs::Laters::none_found,))]
fn tell_later(
    alloc: Global,
    told: &mut Vec<Diagnostic>,
    sources: &Sources<'_>,
    file: &UnreadFile,
) -> Result<(), AllocError>
    ensures { OnOk result (TellsLater (faulty_text sources.now file.now file.now.fault)
        (origin_in sources.now (string_bytes file.now.path)) told.old.items told.new.items) }
{
    let Some(text) = faulty_text(sources, file) else {
        return Ok(());
    };
    let found = parse_faults(alloc, text)?;
    let [_, later @ ..] = found.as_slice() else {
        return Ok(());
    };
    tell_faults(alloc, told, sources.origin_of(&file.path), text, later)
}

/// The text of a file that has no tree.
fn faulty_text<'a>(sources: &'a Sources<'_>, file: &UnreadFile) -> Option<&'a str>
    ensures { option_map (λ text. text.now) result
        ≡ faulty_text sources.now file.now file.now.fault }
{
    match &file.fault {
        RunFault::Parse(_, _) => sources.text_of(&file.path),
        _ => None,
    }
}

/// Tells these faults of the text of the file that lies there.
#[tactic(auto, using(crate::proofs::Adding::tells_another))]
fn tell_faults(
    alloc: Global,
    told: &mut Vec<Diagnostic>,
    origin: &str,
    text: &str,
    faults: &[ParserErrorWithLocation],
) -> Result<(), AllocError>
    ensures { OnOk result (Tells (map (fault_line origin.now) faults.now)
        told.old.items told.new.items) }
{
    for fault in faults {
        told.push(diagnostic_of(alloc, origin, text, fault)?)?;
    }
    Ok(())
}

#[tactic(auto, using(crate::proofs::Laters::fault_told))]
fn diagnostic_of(
    alloc: Global,
    origin: &str,
    text: &str,
    fault: &ParserErrorWithLocation,
) -> Result<Diagnostic, AllocError>
    ensures { IfOk result (IsTold (fault_line origin.now fault.now)) }
{
    text_diagnostic(alloc, origin, text, fault)
}
