//! All that is wrong in files that import one another.

use super::checked::put_fault;
use super::runs::{bundled_of, inputs_of, put_reads};
use crate::cases::Case;
use crate::files::Files;
use crate::notation::text_of;
use anyhow::Result;
use protobuf_parse::{
    Asker, Check, CheckLog, FileReport, FileState, LoadStep, Unfollowed, UnreadFile, check_inputs,
};
use std::alloc::{AllocError, Global};

/// What a check over the inputs did.
pub fn check(alloc: Global, case: &Case, words: &[u8]) -> Result<String> {
    let bundled = bundled_of(alloc, &case.files)?;
    let files = Files { files: &case.files };
    let inputs = inputs_of(alloc, text_of(words)?)?;
    Ok(told(
        alloc,
        &check_inputs(alloc, &inputs, &files, &files, &bundled),
    )?)
}

/// What the check tells, and then the reads with what was answered.
fn told(alloc: Global, log: &CheckLog) -> Result<String, AllocError> {
    let Ok(check) = &log.result else {
        return Err(AllocError);
    };
    let mut text = String::new(alloc);
    put_check(&mut text, check)?;
    if !text.is_empty() {
        text.push(' ')?;
    }
    put_reads(&mut text, &log.reads)?;
    Ok(text)
}

/// What isn't followed, each with who asks for it; the inputs that are shadowed; and the reports of
/// the files in order. `; ` stands between them all.
pub fn put_check(text: &mut String, check: &Check) -> Result<(), AllocError> {
    for step in &check.steps {
        if let LoadStep::Told { asker, path, why } = step {
            put_gap(text)?;
            put_asker(text, asker)?;
            write!(text, " asks for {path}: ")?;
            put_why(text, &check.unread, why)?;
        }
    }
    for clash in &check.clashes {
        put_gap(text)?;
        let number = clash.input;
        let fault = &clash.fault;
        write!(text, "input {number}: {fault}")?;
    }
    for report in &check.files {
        put_gap(text)?;
        put_report(text, report)?;
    }
    Ok(())
}

fn put_gap(text: &mut String) -> Result<(), AllocError> {
    if text.is_empty() {
        Ok(())
    } else {
        text.push_str("; ")
    }
}

fn put_asker(text: &mut String, asker: &Asker) -> Result<(), AllocError> {
    match asker {
        Asker::Input(number) => write!(text, "input {number}"),
        Asker::Import { file, place } => {
            let line = place.line;
            let col = place.col;
            write!(text, "{file} {line}:{col}")
        }
    }
}

fn put_why(text: &mut String, unread: &[UnreadFile], why: &Unfollowed) -> Result<(), AllocError> {
    match why {
        Unfollowed::Unread(number) => match unread.get(*number) {
            Some(file) => {
                let fault = &file.fault;
                write!(text, "{fault}")
            }
            None => text.push_str("?"),
        },
        Unfollowed::Cycle => text.push_str("cycle"),
        Unfollowed::TooLong(input) => write!(text, "chain too long from {input}"),
    }
}

/// `a ok`, `b held up`, or `c faulty: 1:9 E3 NotFoundByRelPath: X, 2:1 E1 DuplicateName: y`.
fn put_report(text: &mut String, report: &FileReport) -> Result<(), AllocError> {
    text.push_str(&report.path)?;
    text.push_str(match report.state {
        FileState::Sound => " ok",
        FileState::HeldUp => " held up",
        FileState::Faulty => " faulty",
    })?;
    for (i, fault) in report.repeats.iter().chain(&report.faults).enumerate() {
        text.push_str(if i == 0 { ": " } else { ", " })?;
        put_fault(text, fault)?;
    }
    Ok(())
}
