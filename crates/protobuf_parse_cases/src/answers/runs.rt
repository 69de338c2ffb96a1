//! Runs over the files of a case.

use super::texts::{listed, without_last_feed};
use crate::cases::{Case, CaseFile, Row};
use crate::files::{Files, InTurn};
use crate::notation::{shown, text_of};
use anyhow::{Result, anyhow};
use protobuf_parse::pure::parse_and_typecheck_custom;
use protobuf_parse::{
    FileDescriptorProto, InputReader, ProtoPathBuf, ProtoPathResolver, ReadEntry, ReadOutcome,
    RunFault, RunInput, RunLog, run_inputs, violations,
};
use std::alloc::{AllocError, Global};
use std::cell::Cell;
use std::slice;

/// What stands before the path of a file that comes with the library.
const BUNDLED: &str = "bundled:";

fn path_of(alloc: Global, text: &str) -> Result<ProtoPathBuf> {
    match ProtoPathBuf::new(String::from_str(alloc, text)?) {
        Ok(path) => Ok(path),
        Err(error) => Err(anyhow!("{text:?}: {error}")),
    }
}

/// The inputs that the words name: a proto path, or a proto path, `=` and the path of the input's
/// own file.
pub fn inputs_of(alloc: Global, words: &str) -> Result<Vec<RunInput>> {
    let mut inputs = Vec::new(alloc);
    for word in words.split_whitespace() {
        inputs.push(match word.split_once('=') {
            Some((name, fs_path)) => RunInput::At {
                name: path_of(alloc, name)?,
                fs_path: String::from_str(alloc, fs_path)?,
            },
            None => RunInput::Named(path_of(alloc, word)?),
        })?;
    }
    Ok(inputs)
}

pub fn bundled_of<'a>(alloc: Global, files: &'a [CaseFile]) -> Result<Vec<(&'a str, &'a str)>> {
    let mut bundled = Vec::new(alloc);
    for file in files {
        if let Some(path) = file.path.strip_prefix(BUNDLED) {
            bundled.push((path, text_of(&file.content)?))?;
        }
    }
    Ok(bundled)
}

/// What a run over these inputs did that asks the source for files.
pub fn log_of<S: ProtoPathResolver + InputReader>(
    alloc: Global,
    words: &str,
    source: &S,
    bundled: &[(&str, &str)],
) -> Result<RunLog> {
    let inputs = inputs_of(alloc, words)?;
    Ok(run_inputs(alloc, &inputs, source, source, bundled))
}

/// What a run over the inputs did.
pub fn run(alloc: Global, case: &Case, words: &[u8]) -> Result<String> {
    let bundled = bundled_of(alloc, &case.files)?;
    let files = Files { files: &case.files };
    let log = log_of(alloc, text_of(words)?, &files, &bundled)?;
    Ok(told(alloc, &log)?)
}

/// Each read of a run, with where the file lies and its whole content.
pub fn reads(alloc: Global, case: &Case, words: &[u8]) -> Result<String> {
    let files = Files { files: &case.files };
    let log = log_of(alloc, text_of(words)?, &files, &[])?;
    let mut text = String::new(alloc);
    for entry in &log.reads {
        put_read(alloc, &mut text, entry)?;
    }
    Ok(without_last_feed(alloc, &text)?)
}

fn put_read(alloc: Global, text: &mut String, entry: &ReadEntry) -> Result<(), AllocError> {
    let path = &entry.path;
    match &entry.outcome {
        ReadOutcome::Content { origin, content } => {
            let content = shown(alloc, content)?;
            write!(text, "{path} at {origin}: {content}\n")
        }
        outcome => write!(text, "{path}: {outcome:?}\n"),
    }
}

/// The listing of a run over the inputs behind the verb, or its fault. A row's text is the file
/// `f.proto`, which is then the input.
pub fn list(alloc: Global, case: &Case, row: &Row) -> Result<String> {
    let Some(content) = &row.given else {
        return list_of(alloc, &case.argument, &case.files);
    };
    let file = CaseFile {
        path: String::from_str(alloc, "f.proto")?,
        content: Vec::from_slice(alloc, content)?,
    };
    list_of(alloc, "f.proto", slice::from_ref(&file))
}

fn list_of(alloc: Global, words: &str, files: &[CaseFile]) -> Result<String> {
    let log = log_of(alloc, words, &Files { files }, &[])?;
    Ok(listed_or_fault(alloc, &log.result)?)
}

/// The listing over these proto paths with the files that the library brings, or the fault.
pub fn shipped(alloc: Global, case: &Case, words: &[u8]) -> Result<String> {
    let outcome = checked(alloc, text_of(words)?, &case.files)?;
    Ok(listed_or_fault(alloc, &outcome)?)
}

/// The violations in what such a run hands out, a line each, or its fault. A row's text is the file
/// `f.proto`, which is then the input.
pub fn violated(alloc: Global, case: &Case, row: &Row) -> Result<String> {
    let outcome = match &row.given {
        Some(content) => checked(alloc, "f.proto", &files_with(alloc, case, content)?)?,
        None => checked(alloc, &case.argument, &case.files)?,
    };
    Ok(match outcome {
        Ok(files) => told_violations(alloc, &files)?,
        Err(fault) => format!(in alloc; "{fault}")?,
    })
}

fn told_violations(alloc: Global, files: &[FileDescriptorProto]) -> Result<String, AllocError> {
    let mut text = String::new(alloc);
    for violation in &violations(alloc, files)? {
        write!(&mut text, "{violation}\n")?;
    }
    if text.is_empty() {
        text.push_str("none")?;
    }
    without_last_feed(alloc, &text)
}

/// The descriptors of a run over these proto paths with the files that the library brings, or the
/// fault.
pub fn checked(
    alloc: Global,
    words: &str,
    files: &[CaseFile],
) -> Result<Result<Vec<FileDescriptorProto>, RunFault>> {
    let mut paths = Vec::new(alloc);
    for word in words.split_whitespace() {
        paths.push(path_of(alloc, word)?)?;
    }
    Ok(parse_and_typecheck_custom(alloc, &paths, &Files { files }))
}

/// The files of a case, and one with this content that is called `f.proto`.
pub fn files_with(alloc: Global, case: &Case, content: &[u8]) -> Result<Vec<CaseFile>, AllocError> {
    let mut files = Vec::new(alloc);
    for file in &case.files {
        files.push(CaseFile {
            path: String::from_str(alloc, &file.path)?,
            content: Vec::from_slice(alloc, &file.content)?,
        })?;
    }
    files.push(CaseFile {
        path: String::from_str(alloc, "f.proto")?,
        content: Vec::from_slice(alloc, content)?,
    })?;
    Ok(files)
}

fn listed_or_fault(
    alloc: Global,
    outcome: &Result<Vec<FileDescriptorProto>, RunFault>,
) -> Result<String, AllocError> {
    match outcome {
        Ok(files) => listed(alloc, files),
        Err(fault) => format!(in alloc; "{fault}"),
    }
}

/// What a run did whose answers are given in turn: the inputs, and behind each ` | ` an answer. The
/// resolver has the name behind the verb.
pub fn answers(alloc: Global, case: &Case, given: &[u8]) -> Result<String> {
    let text = text_of(given)?;
    let (words, rest) = text.split_once(" | ").unwrap_or((text, "none"));
    let answers = rest.split(" | ").collect::<Vec<_>>(alloc)?;
    let source = InTurn {
        name: &case.argument,
        answers: &answers,
        calls: Cell::new(0),
    };
    Ok(told(alloc, &log_of(alloc, words, &source, &[])?)?)
}

/// The names of the descriptors in order, or the fault; then the reads with what was answered; and
/// how often a file was met.
fn told(alloc: Global, log: &RunLog) -> Result<String, AllocError> {
    let mut text = String::new(alloc);
    match &log.result {
        Ok(files) => put_names(&mut text, files)?,
        Err(fault) => write!(&mut text, "{fault} ")?,
    }
    put_reads(&mut text, &log.reads)?;
    let meets = log.meets;
    write!(&mut text, " | {meets}")?;
    Ok(text)
}

/// Each read with what was answered.
pub fn put_reads(text: &mut String, reads: &[ReadEntry]) -> Result<(), AllocError> {
    text.push('|')?;
    for entry in reads {
        put_answer(text, entry)?;
    }
    Ok(())
}

fn put_names(text: &mut String, files: &[FileDescriptorProto]) -> Result<(), AllocError> {
    for file in files {
        text.push_str(file.name.as_deref().unwrap_or("?"))?;
        text.push(' ')?;
    }
    Ok(())
}

fn put_answer(text: &mut String, entry: &ReadEntry) -> Result<(), AllocError> {
    let path = &entry.path;
    let word = match &entry.outcome {
        ReadOutcome::Content { origin, .. } => origin.as_str(),
        ReadOutcome::NotFound => "none",
        ReadOutcome::ResolverFault(_) => "refused",
        ReadOutcome::ReaderFault(_) => "unread",
    };
    write!(text, " {path}={word}")
}
