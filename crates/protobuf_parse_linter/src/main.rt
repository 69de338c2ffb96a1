//! Tells what is wrong with schemas, by the rules of the library and by rules of its own. The first
//! argument is the folder in which imports are looked for, and the others are the files to lint:
//! `protobuf_parse_linter schemas schemas/item.proto schemas/order.proto`. The status is 1 where an
//! error is told.
#![tactic(auto)]

mod linted;
mod rules;
mod texts;
mod told;

use crate::told::told;
use anyhow::{Context, Result};
use protobuf_parse::{FsReader, RunInput, fs_resolver, google_files, proto_path_of, run_inputs};
use protobuf_parse_diagnostics::Severity;
use std::env;
use std::process::ExitCode;
use std::rt::Runtime;

/// Prints a line for each thing that is wrong, and gives the status.
fn run<R: Runtime<A = std::alloc::Global>>(rt: &R) -> Result<ExitCode> {
    let alloc = rt.alloc();
    let mut args = env::args(rt)?.skip(1);
    let folder = args
        .next()
        .context("usage: protobuf_parse_linter <folder> <file.proto>..")?;
    let resolver = fs_resolver(rt, alloc, &[folder.as_str()])?;
    let folders = vec![in alloc; folder]?;
    let mut inputs = Vec::new(alloc);
    for file in args {
        inputs.push(RunInput::Named(proto_path_of(alloc, &folders, &file)?))?;
    }
    let log = run_inputs(
        alloc,
        &inputs,
        &resolver,
        &FsReader::new(rt),
        google_files(),
    );
    let mut status = ExitCode::SUCCESS;
    for each in &told(alloc, &log, &inputs)? {
        println!(rt; "{each}")?;
        if each.severity == Severity::Error {
            status = ExitCode::FAILURE;
        }
    }
    Ok(status)
}

fn main(rt: HostRuntime) -> Result<ExitCode> {
    run(&rt)
}
