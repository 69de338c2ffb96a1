//! What a check tells, as lines: one for each import statement or input that isn't followed, one
//! for each input for which another file was loaded, and one for each file with its state; below
//! it one for each thing that is wrong in it.

use protobuf_parse_check::{Check, FileReport};
use protobuf_parse_load::{Asker, LoadStep, Unfollowed, UnreadFile};
use protobuf_parse_model::ElabError;
use std::alloc::{AllocError, Global};

fn put_asker(text: &mut String, asker: &Asker) -> Result<(), AllocError> {
    match asker {
        Asker::Input(number) => write!(text, "input {number}"),
        Asker::Import { file, place } => write!(text, "{file}:{}:{}", place.line, place.col),
    }
}

fn put_why(text: &mut String, why: &Unfollowed, unread: &[UnreadFile]) -> Result<(), AllocError> {
    match why {
        Unfollowed::Unread(number) => match unread.get(*number) {
            Some(file) => write!(text, "{}\n", file.fault),
            None => write!(text, "there is no unread file {number}\n"),
        },
        Unfollowed::Cycle => write!(text, "a cycle\n"),
        Unfollowed::TooLong(input) => write!(text, "too long from {input}\n"),
    }
}

/// A line for a step, if it tells something.
fn put_step(text: &mut String, step: &LoadStep, unread: &[UnreadFile]) -> Result<(), AllocError> {
    if let LoadStep::Told { asker, path, why } = step {
        put_asker(text, asker)?;
        write!(text, " leaves {path}: ")?;
        put_why(text, why, unread)?;
    }
    Ok(())
}

fn fault_line(alloc: Global, fault: &ElabError) -> Result<String, AllocError> {
    let line = fault.place.line;
    let col = fault.place.col;
    format!(in alloc; "  {line}:{col} {fault}\n")
}

/// A file with what is wrong in it: the names that it brings together by the order of their lines,
/// since they may be told in any, and the rest as it is told.
fn put_file(alloc: Global, text: &mut String, file: &FileReport) -> Result<(), AllocError> {
    write!(text, "{} {:?}\n", file.path, file.state)?;
    let mut repeats = Vec::new(alloc);
    for fault in &file.repeats {
        repeats.push(fault_line(alloc, fault)?)?;
    }
    repeats.sort()?;
    for line in &repeats {
        text.push_str(line)?;
    }
    for fault in &file.faults {
        let line = fault_line(alloc, fault)?;
        text.push_str(&line)?;
    }
    Ok(())
}

pub fn listing(alloc: Global, check: &Check) -> Result<String, AllocError> {
    let mut text = String::new(alloc);
    for step in &check.steps {
        put_step(&mut text, step, &check.unread)?;
    }
    for clash in &check.clashes {
        write!(text, "input {}: {}\n", clash.input, clash.fault)?;
    }
    for file in &check.files {
        put_file(alloc, &mut text, file)?;
    }
    Ok(text)
}
