//! Imports that the command line doesn't allow.

use crate::arguments::Arguments;
use crate::dependencies::reports_of;
use protobuf_parse::{CheckLog, FileReport, ProtoPathBuf, ReadEntry, ReadOutcome};
use protobuf_parse_diagnostics::{Diagnostic, Severity};
use protobuf_parse_syntax::{FileStatement, Import};
use std::alloc::{AllocError, Global};
use std::collections::BTreeSet;

/// The code by which that is told.
const NOT_DECLARED: &str = "L15";

/// What stands in place of the import in a text of one's own.
const IMPORT: &str = "%s";

/// Tells each import statement of the inputs that imports none of the direct dependencies, where
/// these are given. The one error is that memory is short.
pub fn tell_undeclared(
    alloc: Global,
    arguments: &Arguments,
    inputs: &[ProtoPathBuf],
    log: &CheckLog,
    told: &mut Vec<Diagnostic>,
) -> Result<(), AllocError> {
    let Some(declared) = &arguments.direct_dependencies else {
        return Ok(());
    };
    let mut names = BTreeSet::new(alloc);
    for input in inputs {
        names.insert(input.as_path().to_str())?;
    }
    for report in reports_of(log) {
        if names.contains(report.path.as_str()) {
            tell_of_file(alloc, arguments, declared, &log.reads, report, told)?;
        }
    }
    Ok(())
}

fn tell_of_file(
    alloc: Global,
    arguments: &Arguments,
    declared: &BTreeSet<String>,
    reads: &[ReadEntry],
    report: &FileReport,
    told: &mut Vec<Diagnostic>,
) -> Result<(), AllocError> {
    let file = origin_of(reads, report);
    for statement in &report.tree.statements {
        if let FileStatement::Import(import) = statement {
            if !declared.contains(import.path.as_path().to_str()) {
                told.push(undeclared(alloc, arguments, file, import)?)?;
            }
        }
    }
    Ok(())
}

/// Where the file lies, or its proto path where the library brings it.
fn origin_of<'a>(reads: &'a [ReadEntry], report: &'a FileReport) -> &'a str {
    match reads.get(report.read) {
        Some(entry) => match &entry.outcome {
            ReadOutcome::Content { origin, .. } => origin,
            _ => &report.path,
        },
        None => &report.path,
    }
}

fn undeclared(
    alloc: Global,
    arguments: &Arguments,
    file: &str,
    import: &Import,
) -> Result<Diagnostic, AllocError> {
    Ok(Diagnostic {
        file: String::from_str(alloc, file)?,
        place: Some(import.place),
        severity: Severity::Error,
        code: String::from_str(alloc, NOT_DECLARED)?,
        message: message_of(alloc, arguments, import.path.as_path().to_str())?,
        help: None,
    })
}

/// The text of the command line with the import in it, or one of ours.
fn message_of(alloc: Global, arguments: &Arguments, import: &str) -> Result<String, AllocError> {
    match &arguments.violation_message {
        Some(text) => text.replace(alloc, IMPORT, import),
        None => {
            format!(in alloc; "`{import}` is imported, and is none of --direct_dependencies")
        }
    }
}
