//! Where the files of a command line lie, and their proto paths.

use crate::arguments::{Arguments, STANDARD_INPUT};
use crate::includes::{mapped_name, place_in};
use crate::set_texts::SetTexts;
use crate::shadow::{shadow_of, shadow_told};
use protobuf_parse::{ProtoPath, ProtoPathBuf, RunFault, RunInput, proto_path_of};
use protobuf_parse_diagnostics::{Diagnostic, Sources, fault_diagnostic};
use std::alloc::{AllocError, Global};
use std::fs;
use std::rt::Files;

/// The input of a run for this file. `-` is standard input, with the proto path that the arguments
/// give it. Another one is read at its own path where it lies below an include; else by its
/// proto path where an include or a set has that. Or what is told of a file that is none: L3 where no
/// include has it, L11 where what follows the include is no proto path, L6 where it is shadowed.
/// No file is opened.
///
/// The one error is that memory is short.
pub fn input_of<R: Files>(
    rt: &R,
    alloc: Global,
    arguments: &Arguments,
    sets: &SetTexts<'_>,
    file: &str,
) -> Result<Result<RunInput, Diagnostic>, AllocError> {
    let includes = &arguments.includes;
    if let Some(input) = standard_input(alloc, arguments, file)? {
        return Ok(Ok(input));
    }
    let found = match fs::exists(rt, file) {
        Ok(false) => missing_input(alloc, includes, file),
        Ok(true) | Err(_) => present_input(rt, alloc, includes, sets, file),
    };
    match found {
        Ok(RunInput::At { name, fs_path }) => {
            match shadow_of(rt, alloc, includes, file, name.as_path())? {
                Some(other) => Ok(Err(shadow_told(alloc, file, &other)?)),
                None => Ok(Ok(RunInput::At { name, fs_path })),
            }
        }
        Ok(named) => Ok(Ok(named)),
        Err(fault) => Ok(Err(fault_of_input(alloc, &fault)?)),
    }
}

/// Standard input, if that is the file.
fn standard_input(
    alloc: Global,
    arguments: &Arguments,
    file: &str,
) -> Result<Option<RunInput>, AllocError> {
    match &arguments.stdin_path {
        Some(path) if file == STANDARD_INPUT => match ProtoPath::new(path) {
            Ok(name) => Ok(Some(at(alloc, name.to_proto_path_buf(alloc)?, path)?)),
            Err(_) => Ok(None),
        },
        _ => Ok(None),
    }
}

/// What is told of a file that is no input, want of memory as an error.
fn fault_of_input(alloc: Global, fault: &RunFault) -> Result<Diagnostic, AllocError> {
    let none = Sources::of_reads(alloc, &[], &[])?;
    fault_diagnostic(alloc, &none, fault)
}

/// A file that lies where its text says.
fn present_input<R: Files>(
    rt: &R,
    alloc: Global,
    includes: &[String],
    sets: &SetTexts<'_>,
    file: &str,
) -> Result<RunInput, RunFault> {
    match name_of(alloc, includes, file) {
        Ok(name) => Ok(at(alloc, name, file)?),
        Err(RunFault::FileMustResideInImportPath(input, listed)) => {
            match named(rt, alloc, includes, sets, file)? {
                Some(name) => Ok(RunInput::Named(name)),
                None => Err(RunFault::FileMustResideInImportPath(input, listed)),
            }
        }
        Err(fault) => Err(fault),
    }
}

/// A file that doesn't lie where its text says: the resolver is asked for it by its proto path, if
/// it is one.
fn missing_input(alloc: Global, includes: &[String], file: &str) -> Result<RunInput, RunFault> {
    if ProtoPath::new(file).is_ok() {
        let name = String::from_str(alloc, file)?;
        return match ProtoPathBuf::new(name) {
            Ok(name) => Ok(RunInput::Named(name)),
            Err(_) => Err(RunFault::Memory),
        };
    }
    let name = name_of(alloc, includes, file)?;
    Ok(at(alloc, name, file)?)
}

/// The proto path of a file that lies below an include, or where one maps a proto path.
fn name_of(alloc: Global, includes: &[String], file: &str) -> Result<ProtoPathBuf, RunFault> {
    for include in includes {
        if let Some(name) = mapped_name(alloc, include, file)? {
            return Ok(name);
        }
    }
    proto_path_of(alloc, includes, file)
}

fn at(alloc: Global, name: ProtoPathBuf, file: &str) -> Result<RunInput, AllocError> {
    let fs_path = String::from_str(alloc, file)?;
    Ok(RunInput::At { name, fs_path })
}

/// The proto path that the text is, if an include or a set has a file of that path.
fn named<R: Files>(
    rt: &R,
    alloc: Global,
    includes: &[String],
    sets: &SetTexts<'_>,
    file: &str,
) -> Result<Option<ProtoPathBuf>, AllocError> {
    let Ok(path) = ProtoPath::new(file) else {
        return Ok(None);
    };
    if sets.has(file) {
        return Ok(Some(path.to_proto_path_buf(alloc)?));
    }
    for include in includes {
        if let Some(place) = place_in(alloc, include, path)? {
            if !include.is_empty() && matches!(fs::exists(rt, &place), Ok(true)) {
                return Ok(Some(path.to_proto_path_buf(alloc)?));
            }
        }
    }
    Ok(None)
}
