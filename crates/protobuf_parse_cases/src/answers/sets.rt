//! Descriptor sets of runs: their bytes, and what the library's own reader reads from them.

use super::bytes::read_told;
use super::runs::{checked, files_with};
use crate::cases::{Case, Row};
use anyhow::{Context, Result};
use protobuf_parse::{FileDescriptorProto, ProtobufAbsPathRef, RunFault, descriptor_set};
use std::alloc::Global;

/// The bytes of the set of all that a run describes, in hexadecimal digits, or the run's fault. A
/// row's text is the file `f.proto`, which is then the input.
pub fn set(alloc: Global, case: &Case, row: &Row) -> Result<String> {
    match described(alloc, case, row)? {
        Ok(files) => Ok(hex::encode(alloc, descriptor_set(alloc, &files)?)?),
        Err(fault) => Ok(format!(in alloc; "{fault}")?),
    }
}

/// What `read_custom` reads from the bytes of the last file of the set, as a `FileDescriptorProto`
/// by the descriptors of the run, one of which declares this message; or the run's fault.
pub fn set_read(alloc: Global, case: &Case, row: &Row) -> Result<String> {
    let files = match described(alloc, case, row)? {
        Ok(files) => files,
        Err(fault) => return Ok(format!(in alloc; "{fault}")?),
    };
    let last = files.len().saturating_sub(1);
    let set = descriptor_set(alloc, &files[last..])?;
    let message = ProtobufAbsPathRef::try_new(".google.protobuf.FileDescriptorSet");
    read_told(alloc, &files, message.context("no name")?, &set)
}

/// What a run describes with the files that the library brings, or its fault.
fn described(
    alloc: Global,
    case: &Case,
    row: &Row,
) -> Result<Result<Vec<FileDescriptorProto>, RunFault>> {
    match &row.given {
        Some(content) => checked(alloc, "f.proto", &files_with(alloc, case, content)?),
        None => checked(alloc, &case.argument, &case.files),
    }
}
