//! All that a check tells, as diagnostics.

ghost use Rattle.std.specs.Prelude.{◌≡◌, IfOk, OnOk, codes, false, flat_map, map, slice_get};
ghost use Rattle.protobuf_parse_diagnostics.specs.Told.{AreTold, IsTold, asker_spot, check_lines};
ghost use Rattle.protobuf_parse_diagnostics.specs.Told.{clash_line, file_line};
ghost use Rattle.protobuf_parse_diagnostics.specs.Told.{is_told_where_asked, missing_lines};
ghost use Rattle.protobuf_parse_diagnostics.specs.Told.{step_lines, unread_lines, why_lines};
ghost use Rattle.protobuf_parse_diagnostics.specs.Telling.{Tells, importer_spot};

use crate::diagnostic::Diagnostic;
use crate::faults::text_diagnostic;
use crate::imports::Importer;
use crate::loading::{asked_diagnostic, file_diagnostic, told_at};
use crate::meaning::tell_reports;
use crate::reasons::{Reasons, add_reason};
use crate::sources::Sources;
use crate::syntax::Sentence;
use protobuf_parse_check::{Check, InputFault};
use protobuf_parse_load::{Asker, LoadStep, Unfollowed, UnreadFile};
use protobuf_parse_run::RunFault;
use std::alloc::{AllocError, Global};

/// What is told of a check whose reads gave these sources: an error of each fault.
///
/// A file that is not there, a cycle and a chain of too many files are told of each statement and
/// each input that asks; what else keeps a file from being read, or parsed, once of the file. The
/// one error is that memory is short.
#[tactic(auto, using(crate::proofs::Adding::check_told))]
pub fn check_diagnostics<W: Reasons>(
    alloc: Global,
    sources: &Sources<'_>,
    check: &Check,
    reasons: &W,
) -> Result<Vec<Diagnostic>, AllocError>
    ensures { IfOk result (λ told. AreTold (check_lines sources.now check.now) told.items) }
{
    let mut told = Vec::new(alloc);
    let given = Given {
        sources,
        unread: &check.unread,
        reasons,
    };
    tell_steps(alloc, &mut told, &given, &check.steps)?;
    tell_unread(alloc, &mut told, &given)?;
    tell_clashes(alloc, &mut told, &given, &check.clashes)?;
    tell_reports(alloc, &mut told, sources, &check.files)?;
    Ok(told)
}

/// What is known of files where a check is told.
#[derive(Clone, Copy)]
struct Given<'a, 's, W> {
    sources: &'a Sources<'s>,
    unread: &'a [UnreadFile],
    reasons: &'a W,
}

/// Tells of the statements and the inputs that ask for what can't be followed.
#[tactic(auto, using(crate::proofs::Adding::tells_next))]
fn tell_steps<W: Reasons>(
    alloc: Global,
    told: &mut Vec<Diagnostic>,
    given: &Given<'_, '_, W>,
    steps: &[LoadStep],
) -> Result<(), AllocError>
    ensures { OnOk result (Tells (flat_map (step_lines given.now.sources.now given.now.unread.now) steps.now)
        told.old.items told.new.items) }
{
    // The files whose imports are being met, each imported by the one before it.
    let mut open: Vec<&str> = Vec::new(alloc);
    for step in steps {
        tell_step(alloc, told, &mut open, given, step)?;
    }
    Ok(())
}

#[tactic(auto, using(crate::proofs::Adding::tells_nothing))]
fn tell_step<'a, W: Reasons>(
    alloc: Global,
    told: &mut Vec<Diagnostic>,
    open: &mut Vec<&'a str>,
    given: &Given<'_, '_, W>,
    step: &'a LoadStep,
) -> Result<(), AllocError>
    ensures { OnOk result (Tells (step_lines given.now.sources.now given.now.unread.now step.now)
        told.old.items told.new.items) }
{
    match step {
        LoadStep::Opened { path, .. } => open.push(path.as_str())?,
        LoadStep::Closed { .. } => {
            open.pop();
        }
        LoadStep::Held { .. } => {}
        LoadStep::Told { asker, path, why } => {
            let importer = importer_of(given.sources, asker);
            tell_asked(alloc, told, open, given, importer, path, why)?;
        }
    }
    Ok(())
}

/// Tells of what asks for the path, which can't be followed.
#[tactic(auto, using(crate::proofs::Adding::tells_one))]
fn tell_asked<W: Reasons>(
    alloc: Global,
    told: &mut Vec<Diagnostic>,
    open: &[&str],
    given: &Given<'_, '_, W>,
    importer: Option<Importer<'_>>,
    path: &str,
    why: &Unfollowed,
) -> Result<(), AllocError>
    ensures { OnOk result (Tells
        (why_lines given.now.unread.now (importer_spot importer.entry) why.now)
        told.old.items told.new.items) }
{
    match why {
        Unfollowed::Unread(number) => tell_missing(alloc, told, given, importer, *number)?,
        Unfollowed::Cycle => told.push(cycle_diagnostic(alloc, importer, open, path)?)?,
        Unfollowed::TooLong(input) => told.push(long_diagnostic(alloc, importer, path, input)?)?,
    }
    Ok(())
}

/// The import statement that asks, if one does.
fn importer_of<'a>(sources: &'a Sources<'_>, asker: &'a Asker) -> Option<Importer<'a>>
    ensures { importer_spot result ≡ asker_spot sources.now asker.now }
{
    match asker {
        Asker::Input(_) => None,
        Asker::Import { file, place } => Some(Importer {
            origin: sources.origin_of(file),
            place: *place,
        }),
    }
}

/// Whether the fault of a file is told of what asks for it: there is no such file.
fn is_told_where_asked(fault: &RunFault) -> bool
    ensures { result ≡ is_told_where_asked fault.now }
{
    matches!(
        fault,
        RunFault::FileNotFoundInImportPath(_, _) | RunFault::Resolver(_, _)
    )
}

/// Tells of what asks for the unread file with this number, if that is not there.
#[tactic(auto, using(crate::proofs::Adding::missing_none, crate::proofs::Adding::missing_other, crate::proofs::Adding::missing_told,))]
fn tell_missing<W: Reasons>(
    alloc: Global,
    told: &mut Vec<Diagnostic>,
    given: &Given<'_, '_, W>,
    importer: Option<Importer<'_>>,
    number: usize,
) -> Result<(), AllocError>
    ensures { OnOk result (Tells (missing_lines (importer_spot importer.entry)
        (slice_get given.now.unread.now number)) told.old.items told.new.items) }
{
    let Some(file) = given.unread.get(number) else {
        return Ok(());
    };
    if !is_told_where_asked(&file.fault) {
        return Ok(());
    }
    let mut line = asked_diagnostic(alloc, given.sources, importer, &file.fault)?;
    add_reason(alloc, given.reasons, &file.fault, &mut line)?;
    told.push(line)?;
    Ok(())
}

/// Tells of the files that are there, and can't be read or parsed.
#[tactic(auto, using(crate::proofs::Adding::tells_next))]
fn tell_unread<W: Reasons>(
    alloc: Global,
    told: &mut Vec<Diagnostic>,
    given: &Given<'_, '_, W>,
) -> Result<(), AllocError>
    ensures { OnOk result (Tells (flat_map (unread_lines given.now.sources.now) given.now.unread.now)
        told.old.items told.new.items) }
{
    for file in given.unread {
        tell_file(alloc, told, given, file)?;
    }
    Ok(())
}

#[tactic(auto, using(crate::proofs::Adding::file_other, crate::proofs::Adding::file_told))]
fn tell_file<W: Reasons>(
    alloc: Global,
    told: &mut Vec<Diagnostic>,
    given: &Given<'_, '_, W>,
    file: &UnreadFile,
) -> Result<(), AllocError>
    ensures { OnOk result (Tells (unread_lines given.now.sources.now file.now)
        told.old.items told.new.items) }
{
    if is_told_where_asked(&file.fault) {
        return Ok(());
    }
    told.push(unread_diagnostic(alloc, given, file)?)?;
    Ok(())
}

/// What is told of a file that can't be read or parsed.
#[tactic(auto, using(crate::proofs::Adding::line_kept))]
fn unread_diagnostic<W: Reasons>(
    alloc: Global,
    given: &Given<'_, '_, W>,
    file: &UnreadFile,
) -> Result<Diagnostic, AllocError>
    ensures { IfOk result (IsTold (file_line given.now.sources.now file.now file.now.fault)) }
{
    let sources = given.sources;
    if let RunFault::Parse(_, error) = &file.fault {
        let text = match sources.of_path(&file.path) {
            Some(source) => source.text,
            None => "",
        };
        return text_diagnostic(alloc, sources.origin_of(&file.path), text, error);
    }
    let mut line = file_diagnostic(alloc, sources, &file.fault)?;
    add_reason(alloc, given.reasons, &file.fault, &mut line)?;
    Ok(line)
}

/// Tells of the inputs that are shadowed, or can't be read.
fn tell_clashes<W: Reasons>(
    alloc: Global,
    told: &mut Vec<Diagnostic>,
    given: &Given<'_, '_, W>,
    clashes: &[InputFault],
) -> Result<(), AllocError>
    ensures { OnOk result (Tells (map clash_line clashes.now) told.old.items told.new.items) }
{
    for clash in clashes {
        told.push(clash_diagnostic(alloc, given, clash)?)?;
    }
    Ok(())
}

#[tactic(auto, using(crate::proofs::Adding::clash_told))]
fn clash_diagnostic<W: Reasons>(
    alloc: Global,
    given: &Given<'_, '_, W>,
    clash: &InputFault,
) -> Result<Diagnostic, AllocError>
    ensures { IfOk result (IsTold (clash_line clash.now)) }
{
    let mut line = file_diagnostic(alloc, given.sources, &clash.fault)?;
    add_reason(alloc, given.reasons, &clash.fault, &mut line)?;
    Ok(line)
}

/// L7, at the statement that closes the cycle. The last of the open files has it.
fn cycle_diagnostic(
    alloc: Global,
    importer: Option<Importer<'_>>,
    open: &[&str],
    path: &str,
) -> Result<Diagnostic, AllocError>
    ensures { IfOk result (IsTold (record {
      code = codes "L7";
      spot = importer_spot importer.entry;
      may_be_long = false;
    })) }
{
    let mut message = String::from_str(alloc, "the file imports itself: ")?;
    message.push_str(open.last().copied().unwrap_or(path))?;
    let first = open.iter().position(|each| *each == path);
    for each in open.iter().skip(first.unwrap_or(open.len())) {
        message.push_str(" -> ")?;
        message.push_str(each)?;
    }
    told_at_importer(alloc, "L7", importer, path, message)
}

/// L8, at the statement that makes the chain from that input too long.
fn long_diagnostic(
    alloc: Global,
    importer: Option<Importer<'_>>,
    path: &str,
    input: &str,
) -> Result<Diagnostic, AllocError>
    ensures { IfOk result (IsTold (record {
      code = codes "L8";
      spot = importer_spot importer.entry;
      may_be_long = false;
    })) }
{
    let message = format!(in alloc;
        "the import of \"{path}\" makes a chain of more than 100 files from \"{input}\""
    )?;
    told_at_importer(alloc, "L8", importer, path, message)
}

/// Told at the statement; of the file of the path where none asks for it.
fn told_at_importer(
    alloc: Global,
    code: &str,
    importer: Option<Importer<'_>>,
    path: &str,
    message: String,
) -> Result<Diagnostic, AllocError>
    ensures { IfOk result (IsTold (record {
      code = code.now;
      spot = importer_spot importer.entry;
      may_be_long = false;
    })) }
{
    let sentence = Sentence::new(message);
    match importer {
        Some(Importer { origin, place }) => told_at(alloc, code, origin, Some(place), sentence),
        None => told_at(alloc, code, path, None, sentence),
    }
}
