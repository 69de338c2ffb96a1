//! All that is told of a run.

use crate::rules::lint;
use crate::texts::{places_of, texts_of};
use anyhow::Result;
use protobuf_parse::{RunInput, RunLog, google_files, violations};
use protobuf_parse_diagnostics::{
    Diagnostic, RuleLevel, Sources, arrange, fault_diagnostic, rule_diagnostics,
};
use protobuf_parse_index::Index;
use std::alloc::Global;

/// The fault of the run; or what the rules find in its files: those of the library, and the
/// linter's own in the inputs.
pub fn told(alloc: Global, log: &RunLog, inputs: &[RunInput]) -> Result<Vec<Diagnostic>> {
    let sources = Sources::of_reads(alloc, &log.reads, google_files())?;
    let mut told = Vec::new(alloc);
    match &log.result {
        Ok(files) => {
            let broken = violations(alloc, files)?;
            told.append(&mut rule_diagnostics(alloc, &sources, &broken, RuleLevel::Error)?)?;
            let index = Index::of(alloc, files)?;
            let texts = texts_of(alloc, &index, &sources, inputs)?;
            told.append(&mut lint(alloc, &places_of(alloc, &index, &texts)?, &index)?)?;
        }
        Err(fault) => told.push(fault_diagnostic(alloc, &sources, fault)?)?,
    }
    arrange(&mut told)?;
    Ok(told)
}
