//! Faults and violations as people are told them.

use super::runs::files_with;
use super::texts::without_last_feed;
use crate::cases::{Case, CaseFile, Row};
use crate::files::Files;
use anyhow::Result;
use protobuf_parse::{
    CheckLog, FileDescriptorProto, FileReport, ProtoPathBuf, RunInput, bundled_files, check_inputs,
};
use protobuf_parse_diagnostics::{
    Diagnostic, NoReasons, RuleLevel, Source, Sources, arrange, check_diagnostics,
    later_diagnostics, rule_diagnostics, text_rule_diagnostics,
};
use protobuf_parse_index::Index;
use protobuf_parse_name_rules::{NameFiles, name_violations};
use protobuf_parse_rules::violations;
use protobuf_parse_syntax::parse_file;
use protobuf_parse_text_rules::text_violations;
use std::alloc::{AllocError, Global};

/// What is told of the inputs behind the verb, with the files that the library brings: a line for
/// each fault that a check finds, and each further one of a text that has no tree; where it finds
/// none, for each violation of a rule, those of texts too, and those of names, where each file sees
/// all others; or nothing. That a text has no `syntax` statement is not told. A row's text is the
/// file `f.proto`, beside the files of the case, and is then the input.
pub fn told(alloc: Global, case: &Case, row: &Row) -> Result<String> {
    let Some(content) = &row.given else {
        return Ok(told_of(alloc, &case.argument, &case.files)?);
    };
    let files = files_with(alloc, case, content)?;
    Ok(told_of(alloc, "f.proto", &files)?)
}

fn told_of(alloc: Global, words: &str, files: &[CaseFile]) -> Result<String, AllocError> {
    let mut inputs = Vec::new(alloc);
    for word in words.split_whitespace() {
        match ProtoPathBuf::new(String::from_str(alloc, word)?) {
            Ok(path) => inputs.push(RunInput::Named(path))?,
            Err(fault) => return format!(in alloc; "{word}: {fault}"),
        }
    }
    let source = Files { files };
    let CheckLog { reads, result } = check_inputs(
        alloc,
        &inputs,
        &source,
        &source,
        bundled_files(),
    );
    let check = result?;
    let sources = Sources::of_reads(alloc, &reads, bundled_files())?;
    let mut told = check_diagnostics(alloc, &sources, &check, &NoReasons)?;
    if told.is_empty() {
        told.append(&mut told_of_rules(alloc, &sources, check.files)?)?;
    } else {
        told.append(&mut later_diagnostics(alloc, &sources, &check.unread)?)?;
    }
    arrange(&mut told)?;
    let mut text = String::new(alloc);
    for each in &told {
        write!(&mut text, "{each}\n")?;
    }
    without_last_feed(alloc, &text)
}

fn told_of_rules(
    alloc: Global,
    sources: &Sources<'_>,
    reports: Vec<FileReport>,
) -> Result<Vec<Diagnostic>, AllocError> {
    let mut files = Vec::new(alloc);
    for report in reports {
        files.push(report.descriptor)?;
    }
    let level = RuleLevel::Error;
    let found = violations(alloc, &files)?;
    let mut told = rule_diagnostics(alloc, sources, &found, level)?;
    let index = Index::of(alloc, &files)?;
    let seen = names_of(alloc, &files)?;
    let names = NameFiles {
        index: &index,
        seen: &seen,
    };
    for Source { origin, text, .. } in sources.files() {
        if let Ok(tree) = parse_file(alloc, text) {
            let mut found = text_violations(alloc, text, &tree)?;
            found.retain(|violation| !violation.rule.is_warning());
            found.append(&mut name_violations(alloc, &names, &tree)?)?;
            told.append(&mut text_rule_diagnostics(alloc, origin, &found, level)?)?;
        }
    }
    Ok(told)
}

/// The names of the files.
fn names_of(alloc: Global, files: &[FileDescriptorProto]) -> Result<Vec<&str>, AllocError> {
    let mut names = Vec::new(alloc);
    for file in files {
        if let Some(name) = &file.name {
            names.push(name.as_str())?;
        }
    }
    Ok(names)
}
