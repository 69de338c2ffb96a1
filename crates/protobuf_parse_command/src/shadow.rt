//! Files that lie below an include, and in whose place an include before it has another.

use crate::includes::{mapped_name, place_in};
use protobuf_parse::{ProtoPath, RunFault, proto_path_of};
use protobuf_parse_diagnostics::{Diagnostic, Severity};
use std::alloc::{AllocError, Global};
use std::rt::Files;
use std::{fs, slice};

/// Where the first include that has something of this proto path has it, of those before the
/// include below which the file lies.
pub fn shadow_of<R: Files>(
    rt: &R,
    alloc: Global,
    includes: &[String],
    file: &str,
    name: ProtoPath<'_>,
) -> Result<Option<String>, AllocError> {
    for include in includes {
        if lies_below(alloc, include, file)? {
            return Ok(None);
        }
        if let Some(other) = place_in(alloc, include, name)? {
            if matches!(fs::exists(rt, &other), Ok(true)) {
                return Ok(Some(other));
            }
        }
    }
    Ok(None)
}

/// Whether the include is a front of the file's path, or maps a proto path there.
fn lies_below(alloc: Global, include: &String, file: &str) -> Result<bool, AllocError> {
    if mapped_name(alloc, include, file)?.is_some() {
        return Ok(true);
    }
    match proto_path_of(alloc, slice::from_ref(include), file) {
        Err(RunFault::Memory) => Err(AllocError),
        Err(RunFault::FileMustResideInImportPath(_, _)) => Ok(false),
        Ok(_) | Err(_) => Ok(true),
    }
}

/// What is told of a file that is shadowed, as `protoc` says it.
pub fn shadow_told(alloc: Global, file: &str, other: &str) -> Result<Diagnostic, AllocError> {
    let message = format!(in alloc;
        "Input is shadowed in the --proto_path by \"{other}\".  Either use the latter file as your \
         input or reorder the --proto_path so that the former file's location comes first."
    )?;
    Ok(Diagnostic {
        file: String::from_str(alloc, file)?,
        place: None,
        severity: Severity::Error,
        code: String::from_str(alloc, "L6")?,
        message,
        help: None,
    })
}
