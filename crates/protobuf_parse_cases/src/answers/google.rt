//! The sets of Google's files, beside the bytes that lie in real files.

use super::runs::log_of;
use crate::files::Files;
use anyhow::{Context, Result, anyhow};
use protobuf_parse::{descriptor_set, google_files};
use std::alloc::Global;
use std::{fs, rt};

/// How the set of a file is beside the bytes of a real one, whose path stands behind that of the
/// file. The run has Google's files and no others, and the set has none that the file imports.
pub fn beside_stored<R: rt::Files + AllocGlobal>(rt: &R, given: &str) -> Result<String> {
    let (path, of) = given.split_once(' ').context("no file of bytes")?;
    let set = set_alone(rt.alloc(), path)?;
    let stored = fs::read(rt, of).context("unread")?;
    let (ours, own) = (set.len(), stored.len());
    Ok(if set == stored {
        format!(in rt.alloc(); "the same {own} bytes")?
    } else {
        format!(in rt.alloc(); "{ours} bytes, and others than those {own}")?
    })
}

/// The set that has the file alone.
fn set_alone(alloc: Global, path: &str) -> Result<Vec<u8>> {
    let log = log_of(alloc, path, &Files { files: &[] }, google_files())?;
    match &log.result {
        Ok(files) => {
            let imported = files.len().saturating_sub(1);
            Ok(descriptor_set(alloc, &files[imported..])?)
        }
        Err(fault) => Err(anyhow!("{fault}")),
    }
}
