//! Folders among the files of a command line.

use protobuf_parse_diagnostics::{Diagnostic, Severity};
use std::alloc::{AllocError, Global};
use std::io::{self, ErrorKind, Read};
use std::rt::Files;
use std::{fs, str};

/// The code by which it is told that a folder has no schemas to read.
const NO_SCHEMA: &str = "L16";

/// The end of the names of schemas.
const SCHEMA_END: &str = ".proto";

/// The files, and in place of a folder all files below it whose names end in `.proto`, by names. No
/// link to a folder is followed. A folder that can't be read is told, and one that has no such file
/// (L16). The one error is that memory is short.
pub fn files_asked<R: Files>(
    rt: &R,
    alloc: Global,
    files: &[String],
    told: &mut Vec<Diagnostic>,
) -> Result<Vec<String>, AllocError> {
    let mut asked = Vec::new(alloc);
    for file in files {
        if is_folder(rt, file) {
            asked.append(&mut schemas_below(rt, alloc, file, told)?)?;
        } else {
            asked.push(file.clone()?)?;
        }
    }
    Ok(asked)
}

/// Whether a folder has this path. Links are followed.
fn is_folder<R: Files>(rt: &R, path: &str) -> bool {
    match fs::metadata(rt, path) {
        Ok(metadata) => metadata.is_dir(),
        Err(_) => false,
    }
}

fn schemas_below<R: Files>(
    rt: &R,
    alloc: Global,
    top: &str,
    told: &mut Vec<Diagnostic>,
) -> Result<Vec<String>, AllocError> {
    let mut schemas = Vec::new(alloc);
    let mut folders = Vec::from_array(alloc, [String::from_str(alloc, top)?])?;
    let mut is_read = true;
    // The folders of a disk come to an end, whatever is made there meanwhile.
    for _ in 0..u64::MAX {
        let Some(folder) = folders.pop() else {
            break;
        };
        match add_entries(rt, alloc, &folder, &mut folders, &mut schemas) {
            Ok(()) => {}
            Err(error) if error.kind() == ErrorKind::OutOfMemory => return Err(AllocError),
            Err(error) => {
                is_read = false;
                let message = format!(in alloc; "the folder could not be read: {error}")?;
                told.push(folder_told(alloc, &folder, message)?)?;
            }
        }
    }
    if schemas.is_empty() && is_read {
        let message = String::from_str(alloc, "no `.proto` file lies below the folder")?;
        told.push(folder_told(alloc, top, message)?)?;
    }
    schemas.sort_unstable();
    Ok(schemas)
}

/// Adds the folders and the schemas that stand in a folder.
fn add_entries<R: Files>(
    rt: &R,
    alloc: Global,
    folder: &str,
    folders: &mut Vec<String>,
    schemas: &mut Vec<String>,
) -> io::Result<()> {
    let mut dir = rt.open_dir(folder)?;
    let mut names = Vec::new(alloc);
    dir.read_to_end(&mut names)?;
    // Each name ends in a zero.
    for name in names.split(|byte| *byte == 0) {
        if let Ok(name) = str::from_utf8(name) {
            add_entry(rt, alloc, folder, name, folders, schemas)?;
        }
    }
    Ok(())
}

fn add_entry<R: Files>(
    rt: &R,
    alloc: Global,
    folder: &str,
    name: &str,
    folders: &mut Vec<String>,
    schemas: &mut Vec<String>,
) -> io::Result<()> {
    if matches!(name, "" | "." | "..") {
        return Ok(());
    }
    let path = if folder.ends_with('/') {
        format!(in alloc; "{folder}{name}")?
    } else {
        format!(in alloc; "{folder}/{name}")?
    };
    if fs::symlink_metadata(rt, &path)?.is_dir() {
        folders.push(path)?;
    } else if name.ends_with(SCHEMA_END) {
        schemas.push(path)?;
    }
    Ok(())
}

fn folder_told(alloc: Global, folder: &str, message: String) -> Result<Diagnostic, AllocError> {
    Ok(Diagnostic {
        file: String::from_str(alloc, folder)?,
        place: None,
        severity: Severity::Error,
        code: String::from_str(alloc, NO_SCHEMA)?,
        message,
        help: None,
    })
}
