//! Folders that aren't there.

use crate::includes::disk_of;
use protobuf_parse_diagnostics::{Diagnostic, Severity};
use std::alloc::{AllocError, Global};
use std::fs;
use std::rt::Files;

/// The code by which that is told.
const FOLDER_MISSING: &str = "L12";

/// Tells each of the includes that isn't there, once, as `protoc` does. The one error is that memory
/// is short.
pub fn tell_missing_folders<R: Files>(
    rt: &R,
    alloc: Global,
    includes: &[String],
    told: &mut Vec<Diagnostic>,
) -> Result<(), AllocError> {
    for include in includes {
        let include = disk_of(include);
        if !include.is_empty() && matches!(fs::exists(rt, include), Ok(false)) {
            told.push(folder_told(alloc, include)?)?;
        }
    }
    Ok(())
}

/// What is told of such a folder.
fn folder_told(alloc: Global, include: &str) -> Result<Diagnostic, AllocError> {
    Ok(Diagnostic {
        file: String::from_str(alloc, include)?,
        place: None,
        severity: Severity::Warning,
        code: String::from_str(alloc, FOLDER_MISSING)?,
        message: String::from_str(alloc, "the folder is not there")?,
        help: None,
    })
}
