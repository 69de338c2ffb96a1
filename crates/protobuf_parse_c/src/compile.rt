//! A run over what C hands over, and what it tells.

ghost use Rattle.std.specs.Prelude.{◌≡◌, IfOk, IfSome, None, map};
ghost use Rattle.protobuf_parse_model.specs.Descriptors.{file_view};
ghost use Rattle.protobuf_parse_run.specs.Run.{input_view};
ghost use Rattle.protobuf_parse_run.specs.Walks.{named};
ghost use Rattle.protobuf_parse_c.specs.Answers.{IsCompiled, IsMade, IsSpelled};
ghost use Rattle.protobuf_parse_c.specs.Handed.{file_bytes, text_bytes};
ghost use Rattle.protobuf_parse_c.specs.ByPath.{content_at};

use crate::handed::{Handed, Nobody};
use crate::infos::set_with_info;
use crate::shapes::{PbFile, PbText};
use crate::told::{Told, put_told};
use protobuf_parse::{
    FileDescriptorProto, ProtoPath, ReadEntry, RunInput, check_inputs, descriptor_set,
    google_files, run_inputs, violations,
};
use protobuf_parse_diagnostics::{
    Diagnostic, NoReasons, RuleLevel, Severity, Sources, arrange, check_diagnostics,
    later_diagnostics, path_code, path_sentence, rule_diagnostics,
};
use std::alloc::{AllocError, Global};
use std::str;

/// What is answered.
#[derive(Drop)]
pub struct Answer {
    /// The set, unless an error is told.
    pub set: Option<Vec<u8>>,
    pub told: Told,
}

/// Compiles the inputs. The one error is that memory is short.
pub fn compiled(
    alloc: Global,
    files: &[PbFile<'_>],
    inputs: &[PbText<'_>],
    asks_info: bool,
) -> Result<Answer, AllocError>
    ensures { IfOk result (λ answer. IfSome answer.set (λ set.
        IsCompiled (map file_bytes files.now) (map text_bytes inputs.now) set.items)) }
{
    let handed = Handed::of(alloc, files)?;
    match inputs_of(alloc, inputs)? {
        Ok(named) => run_of(alloc, &handed, &named, asks_info),
        Err(fault) => refused(alloc, vec![in alloc; fault]?),
    }
}

/// The answer of a run over the inputs.
fn run_of(
    alloc: Global,
    handed: &Handed<'_>,
    inputs: &[RunInput],
    asks_info: bool,
) -> Result<Answer, AllocError>
    ensures { IfOk result (λ answer. IfSome answer.set (λ set.
        IsMade (content_at handed.now.by_path) (map input_view inputs.now) set.items)) }
{
    let log = run_inputs(alloc, inputs, handed, &Nobody, google_files());
    match &log.result {
        Ok(files) => ruled(alloc, &log.reads, files, asks_info),
        Err(_) => refused(alloc, faults_of(alloc, handed, inputs)?),
    }
}

/// The inputs; or what is told of the first that is no proto path.
fn inputs_of(
    alloc: Global,
    inputs: &[PbText<'_>],
) -> Result<Result<Vec<RunInput>, Diagnostic>, AllocError>
    ensures { IfOk result (λ found. IfOk found (λ inputs_found.
        map input_view inputs_found.items ≡ map named (map text_bytes inputs.now))) }
{
    let mut named = Vec::new(alloc);
    'inputs: for input in inputs {
        match input_of(alloc, input.bytes)? {
            Ok(path) => named.push(path)?,
            Err(fault) => return Ok(Err(fault)),
        }
    }
    Ok(Ok(named))
}

/// The input that has this proto path, or what is told of it.
fn input_of(alloc: Global, path: &[u8]) -> Result<Result<RunInput, Diagnostic>, AllocError>
    ensures { IfOk result (λ found. IfOk found (λ input. input_view input ≡ named path.now)) }
{
    let Ok(text) = str::from_utf8(path) else {
        let text = String::from_utf8_lossy(alloc, path)?;
        return Ok(Err(no_path(alloc, &text, "", "it is not UTF-8")?));
    };
    match ProtoPath::new(text) {
        Ok(path) => Ok(Ok(RunInput::Named(path.to_proto_path_buf(alloc)?))),
        Err(fault) => Ok(Err(no_path(alloc, text, path_code(fault), path_sentence(fault))?)),
    }
}

/// What is told of an input that is no proto path.
fn no_path(
    alloc: Global,
    input: &str,
    code: &str,
    sentence: &str,
) -> Result<Diagnostic, AllocError> {
    Ok(Diagnostic {
        file: String::from_str(alloc, input)?,
        place: None,
        severity: Severity::Error,
        code: String::from_str(alloc, code)?,
        message: format!(in alloc; "the input is no path of a file: {sentence}")?,
        help: None,
    })
}

/// An answer without a set.
fn refused(alloc: Global, told: Vec<Diagnostic>) -> Result<Answer, AllocError>
    ensures { IfOk result (λ answer. answer.set ≡ None) }
{
    Ok(Answer {
        set: None,
        told: put_told(alloc, &told)?,
    })
}

/// All faults of the files, where a run stops at the first.
fn faults_of(
    alloc: Global,
    handed: &Handed<'_>,
    inputs: &[RunInput],
) -> Result<Vec<Diagnostic>, AllocError> {
    let log = check_inputs(alloc, inputs, handed, &Nobody, google_files());
    let check = log.result?;
    let sources = Sources::of_reads(alloc, &log.reads, google_files())?;
    let mut told = check_diagnostics(alloc, &sources, &check, &NoReasons)?;
    told.append(&mut later_diagnostics(alloc, &sources, &check.unread)?)?;
    arrange(&mut told)?;
    Ok(told)
}

/// The answer of a run without faults: the set, unless a rule is broken.
fn ruled(
    alloc: Global,
    reads: &[ReadEntry],
    files: &[FileDescriptorProto],
    asks_info: bool,
) -> Result<Answer, AllocError>
    ensures { IfOk result (λ answer. IfSome answer.set (λ set.
        IsSpelled (map file_view files.now) set.items)) }
{
    let sources = Sources::of_reads(alloc, reads, google_files())?;
    let broken = violations(alloc, files)?;
    let mut told = rule_diagnostics(alloc, &sources, &broken, RuleLevel::Error)?;
    arrange(&mut told)?;
    if has_error(&told) {
        return refused(alloc, told);
    }
    let set = if asks_info {
        set_with_info(alloc, &sources, files)?
    } else {
        descriptor_set(alloc, files)?
    };
    Ok(Answer {
        set: Some(set),
        told: put_told(alloc, &told)?,
    })
}

fn has_error(told: &[Diagnostic]) -> bool {
    for each in told {
        if each.severity == Severity::Error {
            return true;
        }
    }
    false
}
