//! Runs the cases of the files that its arguments name, or else of all files `*.cases` in the
//! folder that it stands in, and prints each one whose answer is not the one that is wanted, and
//! for each file how many are: docs/testing.md.
#![tactic(auto)]

mod answers;
mod cases;
mod files;
mod notation;
mod report;

use crate::answers::parsers::OnFiles;
use crate::report::report_of;
use anyhow::{Context, Result};
use std::process::ExitCode;
use std::rt::Runtime;
use std::{env, fs};

/// The files of cases that the arguments name, or else all that stand here.
fn file_names<R: Runtime<A = std::alloc::Global>>(rt: &R) -> Result<Vec<String>> {
    let mut names = Vec::new(rt.alloc());
    for name in env::args(rt)?.skip(1) {
        names.push(name)?;
    }
    if names.is_empty() {
        return names_here(rt);
    }
    Ok(names)
}

/// The names of all files of cases that stand in this folder, in order.
fn names_here<R: Runtime<A = std::alloc::Global>>(rt: &R) -> Result<Vec<String>> {
    let mut names = Vec::new(rt.alloc());
    for entry in fs::read_dir(rt, ".")? {
        let entry = entry?;
        let name = entry.file_name();
        if name.ends_with(".cases") {
            names.push(String::from_str(rt.alloc(), name)?)?;
        }
    }
    names.sort()?;
    Ok(names)
}

/// Whether there are cases, and all are as they should be.
fn run<R: Runtime<A = std::alloc::Global>>(rt: &R) -> Result<bool> {
    let names = file_names(rt)?;
    if names.is_empty() {
        print!(rt; "no files of cases\n")?;
        return Ok(false);
    }
    let mut all_well = true;
    for name in &names {
        let content = fs::read(rt, name.as_str()).context(format_args!("{name}"))?;
        let report = report_of(rt.alloc(), name, &content, &OnFiles { rt })?;
        print!(rt; "{}", report.text)?;
        all_well = all_well && report.is_well;
    }
    Ok(all_well)
}

fn main(rt: HostRuntime) -> Result<ExitCode> {
    Ok(if run(&rt)? {
        ExitCode::SUCCESS
    } else {
        ExitCode::FAILURE
    })
}
